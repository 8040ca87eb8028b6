// Why a run ends before its sheet does.
ghost use Rattle.std.specs.Prelude.{◌≡◌, Some};
ghost use Rattle.shift.specs.Runs.{stop_told};
ghost use Rattle.shift.specs.declared.stop.Stop.TheVariants.{Line, Pit};

use pit::trouble::Trouble;
use script::fault::Fault;
use std::fmt;

#[derive(Clone, Copy)]
pub enum Stop<'a> {
    Line(Fault<'a>),
    Pit(Trouble),
    Input,
    Output,
}

impl<'a> From<Fault<'a>> for Stop<'a> {
    ghost from_gives = { λ e r. r ≡ Line e };

    fn from(e: Fault<'a>) -> Stop<'a> {
        Stop::Line(e)
    }
}

impl<'a> From<Trouble> for Stop<'a> {
    ghost from_gives = { λ e r. r ≡ Pit e };

    fn from(e: Trouble) -> Stop<'a> {
        Stop::Pit(e)
    }
}

impl fmt::Display for Stop<'_> {
    ghost output = { λ s. Some (stop_told s) };

    fn fmt<W: fmt::Write>(&self, f: &mut fmt::Formatter<W>) -> fmt::Result {
        match self {
            Stop::Line(fault) => write!(f, "{fault}"),
            Stop::Pit(trouble) => write!(f, "{trouble}"),
            Stop::Input => f.write_str("the input cannot be read"),
            Stop::Output => f.write_str("the answer cannot be written"),
        }
    }
}
