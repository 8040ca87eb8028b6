ghost use Rattle.std.specs.Prelude.{◌≡◌, Some, decimal};
ghost use Rattle.rules.specs.Hear.{unread};
ghost use Rattle.rules.specs.Refusals.{code};

use std::fmt;
use wire::unreadable::Unreadable;

// Why a call is refused. `specs/Refusals.antt` gives each its number; a call tests them in that order.
#[derive(Clone, Copy, PartialEq, Eq, Debug)]
pub enum Refusal {
    // permit: n is below 4 or above 16
    PitSize = 1,
    // permit: the own number is not below n
    OwnNumber = 2,
    // the shelf has not 8 to 256 slots, or not as many as at opening
    ShelfSize = 3,
    // the tick is not above the console's
    OldTick = 4,
    // the turn is another console's or not of this tick, or the top certificate is not below its view
    NotItsTurn = 5,
    // the output is shorter than the longest proposal
    ShortOutput = 6,
    // more than eight orders, or an ill-formed one
    BadOrders = 7,
    // the message opens with no known mark
    Mark = 8,
    // the message's length is not what its parts give
    Length = 9,
    // the message's parts are ill-formed
    Form = 10,
    // the proposal's view is above the console's
    ViewAhead = 11,
    // the proposal's view is not above the head's
    NotAboveHead = 12,
    // the leader's seal is not accepted
    LeaderSeal = 13,
    // the certificate has no quorum, or a seal that is not accepted
    BadCertificate = 14,
    // the block is new and no slot is empty
    ShelfFull = 15,
    // the block voted for is not held
    NotHeld = 16,
    // the voter's seal is not accepted
    VoterSeal = 17,
}

impl Refusal {
    // The number under which the rules list it.
    // Stays: sheets show refusals by these numbers.
    pub fn number(&self) -> u8
        ensures { result ≡ code self.now }
    {
        *self as u8
    }
}

// A refusal is shown by its number.
impl fmt::Display for Refusal {
    ghost output = { λ r. Some (decimal (code r)) };

    fn fmt<W: fmt::Write>(&self, f: &mut fmt::Formatter<W>) -> fmt::Result {
        write!(f, "{}", self.number())
    }
}

// A message that cannot be read is refused by the reader's own ground.
impl From<Unreadable> for Refusal {
    ghost from_gives = { λ e r. r ≡ unread e };

    fn from(e: Unreadable) -> Refusal {
        match e {
            Unreadable::Mark => Refusal::Mark,
            Unreadable::Length => Refusal::Length,
            Unreadable::Form => Refusal::Form,
        }
    }
}
