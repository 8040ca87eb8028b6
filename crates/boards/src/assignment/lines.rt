ghost use Rattle.std.specs.Prelude.{◌≡◌, List, Option, slice_set};
ghost use Rattle.boards.specs.declared.assignment.line.Line.{Line};

use super::line::Line;
use shelf::shelf::Shelf;

// A table of lines by what stands in it, whoever keeps it.
pub trait Lines {
    ghost items: { Self → List (Option Line) };

    // The lines, to be read.
    fn lines(&self) -> &[Option<Line>]
        ensures { result.now ≡ items self.now };

    // Writes a line, which keeps its place; a number past the last line changes nothing.
    fn replace(&mut self, at: usize, line: Option<Line>)
        ensures { items self.new ≡ slice_set (items self.old) at line };
}

// A table that the host lends.
impl Lines for Shelf<'_, Option<Line>> {
    ghost items = { λ s. s.slots.now };

    fn lines(&self) -> &[Option<Line>] {
        self.slots()
    }

    fn replace(&mut self, at: usize, line: Option<Line>) {
        self.replace(at, line);
    }
}
