ghost use Rattle.std.specs.Prelude.{◌≡◌, ℕ, ◌+◌, ◌≤◌, List, replicate, nat_le, slice_index_or};
ghost use Rattle.boards.specs.Bounds.{most, no_loads};
ghost use Rattle.boards.specs.Tally.{InBound, OneLine, ReadOuts, TallyTells, counts, marked, read_out, shown, tallied, tonnes_at};
ghost use Rattle.boards.specs.declared.tonnage.place.Place.{Place};

use super::Tonnage;
use super::place::Place;
use parts::board::Board;
use wire::order::Order;

// The records before the first load.
fn fresh() -> [Place; 64]
    ensures all { result ≡ replicate 64 no_loads }
    ensures earned { (k : ℕ) → (slice_index_or result k no_loads).loads ≤ (slice_index_or result k no_loads).tenths }
    ensures bounded { (k : ℕ) → (slice_index_or result k no_loads).tenths ≤ most }
{
    [Place::default(); 64]
}

impl Tonnage {
    // Nothing came to any place yet.
    pub fn new() -> Self
        ensures { result.places ≡ replicate 64 no_loads }
    {
        let places = fresh();
        Tonnage { places }
    }

    // What came to a place; none but the places 1 to 64 is known.
    pub fn place(&self, number: u16) -> Option<Place>
        ensures { result ≡ shown self.now.places number }
    {
        let line = usize::from(number).checked_sub(1)?;
        self.places.get(line).copied()
    }

    // The whole tonnes that came to a place.
    pub fn tonnes(&self, number: u16) -> Option<u64>
        ensures { result ≡ tonnes_at self.now.places number }
    {
        self.place(number).map(Place::tonnes)
    }
}

impl Board for Tonnage {
    ghost World = { List Place };

    ghost world = { λ s. s.places };

    ghost rule = { tallied };

    ghost effect = { counts };

    fn take(&mut self, order: &Order) -> bool {
        let Order::Load { place, amount, .. } = *order else {
            return false;
        };
        if !order.is_well_formed() {
            return false;
        }
        let line = usize::from(place) - 1;
        let Some(loaded) = self.places[line].with(amount) else {
            return false;
        };
        self.places[line] = loaded;
        true
    }
}

// The tonnage board's answer is yes exactly if its state changed.
pub fn tonnage_tells()
    ensures { TallyTells }
{}

// A load that counts changes the line of its place alone, and no order lifts a place above its bound.
pub fn tonnage_keeps()
    ensures line { OneLine }
    ensures bound { InBound }
{}

// The worked examples of the read-out.
pub fn read_outs_stand()
    ensures { ReadOuts }
{}
