ghost use Rattle.std.specs.Prelude.{◌≡◌, ◌≤◌, length};
ghost use Rattle.boards.specs.Trucks.{trucks_at, truck_of};
ghost use Rattle.std.proofs.Common.{rules};

use shelf::record::Keyed;

// A truck and the place that it is sent to.
#[derive(Clone, Copy)]
pub struct Line {
    pub truck: u16,
    pub place: u16,
}

// A line that is to be written.
#[derive(Clone, Copy)]
pub struct Change {
    pub at: usize,
    pub line: Option<Line>,
}

// A line is found by its truck's number.
impl Keyed for Line {
    type Key = u16;

    ghost key = { truck_of };

    ghost equal = { Prim.search rules };

    fn key(&self) -> u16 {
        self.truck
    }
}
