ghost use Rattle.std.specs.Prelude.{◌≡◌, ℕ, ◌≤◌, length, slice_index_or};
ghost use Rattle.boards.specs.Bounds.{most, no_loads};

pub mod board;
pub mod place;

use place::Place;

// The loads that came to each of the 64 places; place 1 is the first.
#[derive(Clone, Copy)]
pub struct Tonnage {
    places: [Place; 64],
    ghost all: { length places ≡ 64 },
    // every load brought at least a tenth
    ghost earned: { (k : ℕ) → (slice_index_or places k no_loads).loads ≤ (slice_index_or places k no_loads).tenths },
    ghost bounded: { (k : ℕ) → (slice_index_or places k no_loads).tenths ≤ most },
}
