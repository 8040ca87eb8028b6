ghost use Rattle.std.specs.Prelude.{◌≡◌, length, replicate, None};
ghost use Rattle.boards.specs.Seen.{seen};
ghost use Rattle.boards.specs.TruckLaws.{Arrives, AssignmentTells, Leaves, LimitHolds, OneEachStays, OneLineAtMost, SentWithin};
ghost use Rattle.boards.specs.Trucks.{Roster, assigned, change, effective, or_nowhere, place_of, whereabouts};

use super::line::{Change, Line};
use super::lines::Lines;
use super::table::Table;
use parts::board::Board;
use shelf::shelf::Shelf;
use wire::order::Order;

// Where the trucks are sent: one line a truck, in a table that the host lends or that the board owns.
#[derive(Drop)]
pub struct Assignment<L> {
    table: L,
    limit: u16,
}

impl<'a> Assignment<Shelf<'a, Option<Line>>> {
    // A board with no truck on it; the table is emptied.
    pub fn new(lines: &'a mut [Option<Line>], limit: u16) -> Self
        ensures lines { result.table.slots.now ≡ replicate (length lines.old) None }
        ensures limit { result.limit ≡ limit }
        ensures lent { result.table.slots.ghost_name ≡ lines.entry.ghost_name }
    {
        let mut table = Shelf::over(lines);
        table.clear_all();
        Self::over(table, limit)
    }
}

impl<L: Lines> Assignment<L> {
    // The board of a table as it stands.
    // Stays: a struct around the limit would say no more than the clause `limit` of the three makers.
    pub fn over(table: L, limit: u16) -> Self
        ensures table { result.table ≡ table }
        ensures limit { result.limit ≡ limit }
    {
        Assignment { table, limit }
    }

    // The lines of the table, to be read.
    pub fn lines(&self) -> &[Option<Line>]
        ensures { result.now ≡ L.items self.now.table }
    {
        self.table.lines()
    }

    // How many trucks a place may have.
    pub fn limit(&self) -> u16
        ensures { result ≡ self.now.limit }
    {
        self.limit
    }

    // The table, to be read with its limit.
    fn table(&self) -> Table<'_>
        ensures lines { result.lines.now ≡ L.items self.now.table }
        ensures limit { result.limit ≡ self.now.limit }
    {
        Table::of(self.lines(), self.limit)
    }

    // Where a truck is, if it has a line.
    pub fn place_of(&self, truck: u16) -> Option<u16>
        ensures place { result ≡ place_of truck (L.items self.now.table) }
        ensures whereabouts { or_nowhere result ≡ whereabouts truck (L.items self.now.table) }
    {
        self.table().place_of(truck)
    }

    // What an order changes, if anything.
    fn change(&self, order: &Order) -> Option<Change>
        ensures { result ≡ change (seen L.items self.now) order.now }
    {
        self.table().change(order)
    }
}

impl<L: Lines> Board for Assignment<L> {
    ghost World = { Roster };

    ghost world = { seen L.items };

    ghost rule = { assigned };

    ghost effect = { effective };

    fn take(&mut self, order: &Order) -> bool {
        let Some(found) = self.change(order) else {
            return false;
        };
        self.table.replace(found.at, found.line);
        true
    }
}

// The assignment board's answer is yes exactly if its state changed.
pub fn assignment_tells()
    ensures { AssignmentTells }
{}

// An order changes one line at most, lifts no place above the limit, and gives no truck a second line.
pub fn assignment_keeps()
    ensures line { OneLineAtMost }
    ensures limit { LimitHolds }
    ensures within { SentWithin }
    ensures each { OneEachStays }
{}

// A truck that is sent arrives, and one that is released leaves the table.
pub fn assignment_moves()
    ensures arrives { Arrives }
    ensures leaves { Leaves }
{}
