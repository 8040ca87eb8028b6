ghost use Rattle.std.specs.Prelude.{◌≡◌, ◌*◌, ◌≤◌, length, if◌then◌else◌, Some, None, nat_le};
ghost use Rattle.wire.specs.Format.{orders_of, pack};
ghost use Rattle.wire.specs.Read.{all_well_formed, orders_in};

use crate::order::Order;
use std::array::from_fn;

// Up to eight orders, the first `count` of `list`. Whoever builds one fills the spare places with
// `Order::BLANK`, so that equal orders are equal values.
// Stays: the core has no heap, so the list is an array with its length.
#[derive(Clone, Copy)]
pub struct Orders {
    list: [Order; 8],
    count: u8,
}

impl Orders {
    // These orders, unless there are more than eight.
    // Stays: a `TryFrom` would need an error type that says no more than `None`.
    pub fn new(orders: &[Order]) -> Option<Orders>
        ensures { result ≡ (if nat_le (length orders.now) 8 then Some (pack orders.now) else None) }
    {
        let count = orders.len();
        if count > 8 {
            return None;
        }
        let mut list = [Order::BLANK; 8];
        list[0..count].copy_from_slice(orders);
        Some(Orders {
            list,
            count: count as u8,
        })
    }

    // The orders, without the spare places.
    pub fn as_slice(&self) -> &[Order]
        ensures orders { result.now ≡ orders_of self.now }
        ensures few { length result.now ≤ 8 }
    {
        let list: &[Order] = &self.list;
        let count = self.count as usize;
        if count < 8 { &list[0..count] } else { list }
    }

    // The `count` orders in these bytes, one after another.
    // Stays: `From` takes no count beside the bytes.
    pub(crate) fn read(bytes: &[u8], count: usize) -> Orders
        requires few { count ≤ 8 }
        requires enough { 8 * count ≤ length bytes.now }
        ensures { result ≡ pack (orders_in count bytes.now) }
    {
        let (parts, _) = bytes[..8 * count].as_chunks::<8>();
        let list = from_fn(|i| parts.get(i).map_or(Order::BLANK, Order::read));
        Orders {
            list,
            count: count as u8,
        }
    }
}

// Whether each of the orders is well-formed.
pub fn well_formed(orders: &[Order]) -> bool
    ensures { result ≡ all_well_formed orders.now }
{
    orders.iter().all(|order| order.is_well_formed())
}
