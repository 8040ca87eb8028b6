ghost use Rattle.std.specs.Prelude.{◌≡◌, replicate, IfOk, None, vec_items};
ghost use Rattle.host.specs.Tables.{roster_of};

use boards::assignment::board::Assignment;
use boards::assignment::line::Line;
use boards::assignment::lines::Lines;
use shelf::slots::replace;
use std::alloc::{AllocError, Global};

// A table of lines that its board owns.
#[derive(Drop)]
pub struct OwnLines {
    lines: Vec<Option<Line>>,
}

impl Lines for OwnLines {
    ghost items = { λ t. vec_items t.lines };

    fn lines(&self) -> &[Option<Line>] {
        self.lines.as_slice()
    }

    fn replace(&mut self, at: usize, line: Option<Line>) {
        replace(self.lines.as_mut_slice(), at, line);
    }
}

// An assignment board with a table of its own.
pub type AssignmentTable = Assignment<OwnLines>;

// A board of so many lines, all free.
pub fn assignment_table(
    alloc: Global,
    lines: u16,
    limit: u16,
) -> Result<AssignmentTable, AllocError>
    ensures { IfOk result (λ b. roster_of b ≡ record { limit = limit; lines = replicate lines None }) }
{
    let lines = vec![in alloc; None; usize::from(lines)]?;
    Ok(Assignment::over(OwnLines { lines }, limit))
}
