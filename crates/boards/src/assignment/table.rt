ghost use Rattle.std.specs.Prelude.{◌≡◌, ◌≤◌};
ghost use Rattle.boards.specs.Tables.{roster};
ghost use Rattle.boards.specs.Trucks.{change, or_nowhere, place_of, released, seat, sent, takes_more, whereabouts};

use super::count::trucks_at;
use super::line::{Change, Line};
use shelf::slots::{find, vacant};
use wire::order::Order;

// A table of truck lines, to be read with the limit that holds at every place.
#[derive(Clone, Copy)]
pub struct Table<'a> {
    lines: &'a [Option<Line>],
    limit: u16,
}

impl<'a> Table<'a> {
    pub fn of(lines: &'a [Option<Line>], limit: u16) -> Self
        ensures lines { result.lines.now ≡ lines.now }
        ensures limit { result.limit ≡ limit }
    {
        Table { lines, limit }
    }

    // Where a truck is, if it has a line.
    pub fn place_of(&self, truck: u16) -> Option<u16>
        ensures place { result ≡ place_of truck self.now.lines.now }
        ensures whereabouts { or_nowhere result ≡ whereabouts truck self.now.lines.now }
    {
        let line = self.lines[find(self.lines, &truck)?]?;
        Some(line.place)
    }

    // The line that a truck keeps or takes.
    fn seat(&self, truck: u16) -> Option<usize>
        ensures { result ≡ seat truck self.now.lines.now }
    {
        find(self.lines, &truck).or_else(|| vacant(self.lines))
    }

    // Whether a place takes one more truck.
    fn takes_more(&self, place: u16) -> bool
        ensures { result ≡ takes_more (roster self.now) place }
    {
        trucks_at(self.lines, place) < usize::from(self.limit)
    }

    // What sending a truck to a place changes.
    #[tactic(auto, using(crate::proofs::Assigning::stands_at), unfolding(crate::specs::Trucks::sent))]
    fn sent(&self, truck: u16, place: u16) -> Option<Change>
        requires { 1 ≤ place }
        ensures { result ≡ sent (roster self.now) truck place }
    {
        if self.place_of(truck) == Some(place) || !self.takes_more(place) {
            return None;
        }
        let at = self.seat(truck)?;
        Some(Change {
            at,
            line: Some(Line { truck, place }),
        })
    }

    // What releasing a truck changes.
    #[tactic(auto, unfolding(crate::specs::Trucks::released))]
    fn released(&self, truck: u16) -> Option<Change>
        ensures { result ≡ released (roster self.now) truck }
    {
        let at = find(self.lines, &truck)?;
        Some(Change { at, line: None })
    }

    // What an order changes, if anything.
    #[tactic(auto, unfolding(crate::specs::Trucks::change))]
    pub fn change(&self, order: &Order) -> Option<Change>
        ensures { result ≡ change (roster self.now) order.now }
    {
        if !order.is_well_formed() {
            return None;
        }
        match *order {
            Order::Send { truck, place } => self.sent(truck, place),
            Order::Release { truck } => self.released(truck),
            Order::Load { .. } => None,
        }
    }
}
