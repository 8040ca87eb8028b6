ghost use Rattle.std.specs.Prelude.{◌≡◌, ◌+◌, ◌*◌, ◌≤◌, length};
ghost use Rattle.std.specs.List.{flat_map};
ghost use Rattle.wire.specs.Format.{body_bytes, body_key, body_name, order_bytes, orders_of};
ghost use Rattle.wire.specs.Bytes.{number};
ghost use Rattle.wire.specs.Read.{body_in, body_length, body_stands};
ghost use Rattle.wire.specs.Written.{HasRoom, Puts, Written};

use crate::fields::{array_at, key_at};
use crate::key::Key;
use crate::order::Order;
use crate::orders::{Orders, well_formed};
use crate::put::Writer;
use digest::sha256;

// What a leader proposes: orders to follow those of the parent block.
#[derive(Clone, Copy)]
pub struct Body {
    pub view: u32,
    pub parent: Key,
    pub orders: Orders,
}

// Writes the orders, one after another.
fn put_orders(out: &mut Writer<'_>, orders: &[Order])
    requires { HasRoom (8 * length orders.now) out.old }
    ensures ends { out.new.at ≡ out.old.at + 8 * length orders.now }
    ensures wrote { Puts (flat_map order_bytes orders.now) out.old out.new }
{
    for order in orders {
        order.put(out);
    }
}

impl Body {
    // The length of the longest body.
    pub const LONGEST: usize = 107;

    // How many bytes the body takes.
    pub(crate) fn size(&self) -> usize
        ensures bytes { result ≡ length (body_bytes self.now) }
        ensures orders { result ≡ 43 + 8 * length (orders_of self.now.orders) }
        ensures most { result ≤ 107 }
    {
        7 + self.parent.size() + 8 * self.orders.as_slice().len()
    }

    // Writes the body.
    pub(crate) fn put(&self, out: &mut Writer<'_>)
        requires { HasRoom (43 + 8 * length (orders_of self.now.orders)) out.old }
        ensures ends { out.new.at ≡ out.old.at + (43 + 8 * length (orders_of self.now.orders)) }
        ensures wrote { Puts (body_bytes self.now) out.old out.new }
    {
        let orders = self.orders.as_slice();
        out.put(b"BD");
        out.put(&self.view.to_be_bytes());
        self.parent.put(out);
        out.put(&[orders.len() as u8]);
        put_orders(out, orders);
    }

    // Writes the body at the start of `out` and answers its length, unless there is too little room.
    // Stays: a trait of `size` and `put` for this and the other records' `write` would be longer than their bodies.
    pub fn write(&self, out: &mut [u8]) -> Option<usize>
        ensures { Written (body_bytes self.now) out.old result out.new }
    {
        if out.len() < self.size() {
            return None;
        }
        let mut writer = Writer::over(out);
        self.put(&mut writer);
        Some(writer.len())
    }

    // The digest of the body's bytes.
    pub fn name(&self) -> [u8; 32]
        ensures { result ≡ body_name self.now }
    {
        // Stays: the core has no heap, so the room is that of the longest body.
        let mut bytes = [0; Self::LONGEST];
        let size = self.size();
        self.put(&mut Writer::over(&mut bytes));
        sha256(&bytes[0..size])
    }

    // The key of the block that the body makes.
    pub fn key(&self) -> Key
        ensures { result ≡ body_key self.now }
    {
        Key {
            view: self.view,
            name: self.name(),
        }
    }

    // The body in these bytes, which are as many as its number of orders gives.
    // Stays: `From` could not ask that the bytes are as many as their count says.
    pub(crate) fn read(bytes: &[u8]) -> Body
        requires few { number 42 1 bytes.now ≤ 8 }
        requires whole { length bytes.now ≡ body_length bytes.now }
        ensures { result ≡ body_in bytes.now }
    {
        let count = bytes[42] as usize;
        Body {
            view: u32::from_be_bytes(array_at(bytes, 2)),
            parent: key_at(bytes, 6),
            orders: Orders::read(&bytes[43..bytes.len()], count),
        }
    }

    // Whether the orders are well-formed and the view is above the parent's.
    pub(crate) fn stands(&self) -> bool
        ensures { result ≡ body_stands self.now }
    {
        well_formed(self.orders.as_slice()) && self.parent.view < self.view
    }
}
