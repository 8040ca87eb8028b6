// Why a line of a pit cannot be played.
ghost use Rattle.std.specs.Prelude.{◌≡◌, Some};
ghost use Rattle.pit.specs.Troubles.{trouble_told};
ghost use Rattle.pit.specs.declared.trouble.Trouble.TheVariants.{NoMemory};

use std::alloc::AllocError;
use std::fmt;

#[derive(Clone, Copy)]
pub enum Trouble {
    // no pit stands
    NoPit,
    // no console of that number is open
    NotOpen,
    // the pit's consoles have open stamps, which need no keys
    NoKeys,
    NoMemory,
}

impl From<AllocError> for Trouble {
    ghost from_gives = { λ e r. r ≡ NoMemory };

    fn from(_: AllocError) -> Trouble {
        Trouble::NoMemory
    }
}

// Text that cannot grow wants memory.
impl From<fmt::Error> for Trouble {
    ghost from_gives = { λ e r. r ≡ NoMemory };

    fn from(_: fmt::Error) -> Trouble {
        Trouble::NoMemory
    }
}

impl fmt::Display for Trouble {
    ghost output = { λ t. Some (trouble_told t) };

    fn fmt<W: fmt::Write>(&self, f: &mut fmt::Formatter<W>) -> fmt::Result {
        match self {
            Trouble::NoPit => f.write_str("no pit stands"),
            Trouble::NotOpen => f.write_str("the console is not open"),
            Trouble::NoKeys => f.write_str("a pit of open stamps has no keys"),
            Trouble::NoMemory => f.write_str("no memory left"),
        }
    }
}
