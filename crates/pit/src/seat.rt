// One console of a pit with all that it is lent.
use console::console::Console;
use console::turn::Turn;
use host::board::EitherBoard;
use host::seals::EitherSeals;
use parts::store::image::Image;
use rules::block::Block;

pub mod holding;
pub mod playing;

// A console, its own shelf, and the turn that it is owed and has not spent.
pub struct Seat {
    console: Console<EitherSeals, Image, EitherBoard>,
    shelf: Vec<Option<Block>>,
    turn: Option<Turn>,
}

// Forgets the console and all that it was lent; a turn that is held is passed.
// Stays: a derive would let a turn go, which has to be passed.
impl Drop for Seat {
    fn drop(self) {
        let Seat {
            console: _,
            shelf: _,
            turn,
        } = self;
        if let Some(turn) = turn {
            turn.pass();
        }
    }
}
