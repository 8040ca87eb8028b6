ghost use Rattle.std.specs.Prelude.{◌≡◌, Some, decimal};
ghost use Rattle.wire.specs.Read.{code};

use std::fmt;

// Why bytes are no message: the first ground met, in this order.
#[derive(Clone, Copy, PartialEq, Eq, Debug)]
pub enum Unreadable {
    // no mark of a message
    Mark = 8,
    // another length than its counts give
    Length = 9,
    // an inner mark, an order, a view, a parent, a voter or a signer is not as it has to be
    Form = 10,
}

impl Unreadable {
    // The refusal's number.
    // Stays: sheets show refusals by these numbers.
    pub fn number(&self) -> u8
        ensures { result ≡ code self.now }
    {
        *self as u8
    }
}

// A refusal is shown by its number.
impl fmt::Display for Unreadable {
    ghost output = { λ u. Some (decimal (code u)) };

    fn fmt<W: fmt::Write>(&self, f: &mut fmt::Formatter<W>) -> fmt::Result {
        write!(f, "{}", self.number())
    }
}
