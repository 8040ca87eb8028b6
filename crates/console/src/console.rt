use crate::permit::Permit;
use ledger::progress::Progress;
use parts::store::Marks;

pub mod entering;
pub mod hearing;
pub mod opening;
pub mod proposing;
pub mod ticking;

// A console. The shelf of blocks stays with the host, who lends it to each call.
// Stays: `same` in each contract over `&mut self`: it relates the seals before and after, which no invariant can say.
// Stays: shelf and output are lent to each call, since the memory is the host's.
#[derive(Drop)]
pub struct Console<S, T, B> {
    seals: S,
    store: T,
    board: B,
    permit: Permit,
    // slots of the shelf, counted at opening
    slots: usize,
    tick: u32,
    view: u32,
    // the name of the block that the console would vote for in its view
    candidate: Option<[u8; 32]>,
    // the three numbers, as the store has them
    marks: Marks,
    progress: Progress,
}
