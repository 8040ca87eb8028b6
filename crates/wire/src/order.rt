ghost use Rattle.std.specs.Prelude.{◌≡◌, ◌+◌, ◌≤◌, ◌++◌};
ghost use Rattle.wire.specs.Bytes.{be};
ghost use Rattle.wire.specs.Format.{order_bytes, place_stands, well_formed};
ghost use Rattle.wire.specs.Read.{fields_in, order_in, order_of};
ghost use Rattle.wire.specs.Written.{HasRoom, Puts};

use crate::fields::array_at;
use crate::put::Writer;

// One order to a truck. The numbers may be ill-formed: `well_formed` in `specs/Format.antt` says which are not.
#[derive(Clone, Copy)]
pub enum Order {
    // the truck is sent to the place
    Send { truck: u16, place: u16 },
    // the truck is released
    Release { truck: u16 },
    // the truck brought a load to the place, in tenths of a tonne
    Load { truck: u16, place: u16, amount: u16 },
}

// The mark and the three numbers of an order's bytes.
#[derive(Clone, Copy)]
struct Fields {
    mark: [u8; 2],
    truck: u16,
    place: u16,
    amount: u16,
}

impl Fields {
    // What stands in these eight bytes.
    fn read(bytes: &[u8; 8]) -> Fields
        ensures { result ≡ fields_in bytes.now }
    {
        Fields {
            mark: array_at(bytes, 0),
            truck: u16::from_be_bytes(array_at(bytes, 2)),
            place: u16::from_be_bytes(array_at(bytes, 4)),
            amount: u16::from_be_bytes(array_at(bytes, 6)),
        }
    }

    // The order, or `Order::BLANK`.
    fn order(&self) -> Order
        ensures { result ≡ order_of self.now }
    {
        let Fields {
            mark,
            truck,
            place,
            amount,
        } = *self;
        match &mark {
            b"SD" if amount == 0 => Order::Send { truck, place },
            b"RL" if place == 0 && amount == 0 => Order::Release { truck },
            b"LD" => Order::Load {
                truck,
                place,
                amount,
            },
            _ => Order::BLANK,
        }
    }
}

// Whether there is such a place.
fn place_stands(place: u16) -> bool
    ensures { result ≡ place_stands place }
{
    1 <= place && place <= 64
}

impl Order {
    // fills the spare places of a list of orders; ill-formed, so it is never one of them
    pub const BLANK: Order = Order::Release { truck: 0 };

    // Whether a board may be given this order.
    pub fn is_well_formed(&self) -> bool
        ensures { result ≡ well_formed self.now }
    {
        match *self {
            Order::Send { truck, place } => 1 <= truck && place_stands(place),
            Order::Release { truck } => 1 <= truck,
            Order::Load {
                truck,
                place,
                amount,
            } => 1 <= truck && place_stands(place) && 1 <= amount,
        }
    }

    // Mark, truck, place and amount.
    fn fields(&self) -> Fields
        ensures { order_bytes self.now ≡ result.mark ++ (be 2 result.truck ++ (be 2 result.place ++ be 2 result.amount)) }
    {
        match *self {
            Order::Send { truck, place } => Fields {
                mark: *b"SD",
                truck,
                place,
                amount: 0,
            },
            Order::Release { truck } => Fields {
                mark: *b"RL",
                truck,
                place: 0,
                amount: 0,
            },
            Order::Load {
                truck,
                place,
                amount,
            } => Fields {
                mark: *b"LD",
                truck,
                place,
                amount,
            },
        }
    }

    // Writes the order.
    pub(crate) fn put(&self, out: &mut Writer<'_>)
        requires { HasRoom 8 out.old }
        ensures wrote { Puts (order_bytes self.now) out.old out.new }
        ensures ends { out.new.at ≡ out.old.at + 8 }
    {
        let fields = self.fields();
        out.put(&fields.mark);
        out.put(&fields.truck.to_be_bytes());
        out.put(&fields.place.to_be_bytes());
        out.put(&fields.amount.to_be_bytes());
    }

    // The order in these eight bytes, or `BLANK`.
    // Stays: a `From` would offer to every caller that any bytes are an order.
    pub(crate) fn read(bytes: &[u8; 8]) -> Order
        ensures { result ≡ order_in bytes.now }
    {
        Fields::read(bytes).order()
    }
}
