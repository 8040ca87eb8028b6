// The lines that need no pit.
ghost use Rattle.std.specs.Prelude.{◌≡◌, Some};
ghost use Rattle.telling.specs.Adds.{Adds};
ghost use Rattle.shift.specs.Replies.{mac_line, name_line, read_line, try_line};

use digest::{hmac_sha256, sha256};
use script::command::NewBoard;
use std::alloc::{AllocError, Global};
use std::fmt;
use telling::readings::Said;
use telling::trial::write_trial;
use text::hex::Hex;
use wire::order::Order;

// The line of the name of these bytes.
#[derive(Clone, Copy)]
pub struct NameLine<'a>(pub &'a [u8]);

impl fmt::Display for NameLine<'_> {
    ghost output = { λ l. Some (name_line l.0.now) };

    fn fmt<W: fmt::Write>(&self, f: &mut fmt::Formatter<W>) -> fmt::Result {
        let name = sha256(self.0);
        writeln!(f, "name: {}", Hex(&name))
    }
}

// The line of the keyed seal of these bytes.
#[derive(Clone, Copy)]
pub struct MacLine<'a> {
    pub key: &'a [u8; 32],
    pub bytes: &'a [u8],
}

impl fmt::Display for MacLine<'_> {
    ghost output = { λ l. Some (mac_line l.key.now l.bytes.now) };

    fn fmt<W: fmt::Write>(&self, f: &mut fmt::Formatter<W>) -> fmt::Result {
        let tag = hmac_sha256(self.key, self.bytes);
        writeln!(f, "mac: {}", Hex(&tag[0..16]))
    }
}

// The line of what is said of a datagram.
#[derive(Clone, Copy)]
pub struct ReadLine<'a>(pub Said<'a>);

impl fmt::Display for ReadLine<'_> {
    ghost output = { λ l. Some (read_line l.0.n l.0.datagram.now) };

    fn fmt<W: fmt::Write>(&self, f: &mut fmt::Formatter<W>) -> fmt::Result {
        writeln!(f, "read: {}", self.0)
    }
}

// Adds the line of what a new board makes of the orders.
// Stays: a new board asks for memory as its words are added, which nothing that is shown does.
pub fn write_try(
    text: &mut String,
    alloc: Global,
    board: NewBoard,
    orders: &[Order],
) -> Result<(), AllocError>
    ensures { Adds text.old result (try_line board orders.now) text.new }
{
    write!(text, "try:")?;
    write_trial(text, alloc, board, orders)?;
    writeln!(text, "")
}
