// All consoles of a pit.
use crate::seat::Seat;

pub mod clerking;

// The consoles of a pit, by number; those that were opened have a seat.
#[derive(Drop)]
pub struct Pit {
    n: u8,
    // the keys of all sixteen numbers, where the consoles have keyed seals
    keys: Option<[[u8; 32]; 16]>,
    seats: Vec<Option<Seat>>,
}
