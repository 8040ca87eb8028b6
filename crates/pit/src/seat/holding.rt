ghost use Rattle.std.specs.Prelude.{◌≡◌, length, replicate, IfOk, None};
ghost use Rattle.parts.specs.Image.{image, no_marks};
ghost use Rattle.rules.specs.State.{look, opened};
ghost use Rattle.console.specs.Lines.{Opens};
ghost use Rattle.console.specs.Seen.{looked, seat_of};
ghost use Rattle.host.specs.Kinds.{keys_of, world_of};
ghost use Rattle.pit.specs.Seats.{seat_keys, seat_world, state_of};

use super::Seat;
use console::answers::Look;
use console::console::opening::open;
use console::permit::Permit;
use console::turn::Turn;
use host::board::EitherBoard;
use host::seals::EitherSeals;
use parts::board::Board;
use parts::store::Marks;
use parts::store::image::Image;
use rules::block::Block;
use std::alloc::{AllocError, Global};

// A store of three zeros.
fn new_store() -> Image
    ensures { result.bytes ≡ image no_marks }
{
    Image::from(Marks::default())
}

// A shelf of so many empty slots.
pub fn empty_shelf(alloc: Global, slots: u16) -> Result<Vec<Option<Block>>, AllocError>
    ensures { IfOk result (λ v. v.items ≡ replicate slots None) }
{
    vec![in alloc; None; slots as usize]
}

impl Seat {
    // Opens a console for the first time, over a store of three zeros: the first line of its sheet.
    pub fn open(
        permit: Permit,
        seals: EitherSeals,
        board: EitherBoard,
        mut shelf: Vec<Option<Block>>,
    ) -> Seat
        ensures state { state_of result ≡ opened (seat_of permit (length shelf.items)) no_marks }
        ensures line { Opens (seat_of permit (length shelf.items)) no_marks (state_of result) }
        ensures keys { seat_keys result ≡ keys_of seals }
        ensures world { seat_world result ≡ world_of board }
        ensures turn { result.turn ≡ None }
    {
        let console = open(permit, seals, new_store(), board, shelf.as_mut_slice());
        Seat {
            console,
            shelf,
            turn: None,
        }
    }

    // Lends the console another shelf from now on.
    // Stays: what a call leaves alone relates before and after, so that no invariant says it.
    pub fn lend(&mut self, shelf: Vec<Option<Block>>)
        ensures console { self.new.console ≡ self.old.console }
        ensures shelf { self.new.shelf ≡ shelf }
        ensures turn { self.new.turn ≡ self.old.turn }
    {
        self.shelf = shelf;
    }

    // Takes the turn that is held, to spend it.
    pub fn take_turn(&mut self) -> Option<Turn>
        ensures console { self.new.console ≡ self.old.console }
        ensures shelf { self.new.shelf ≡ self.old.shelf }
        ensures left { self.new.turn ≡ None }
        ensures turn { result ≡ self.old.turn }
    {
        self.turn.take()
    }

    // How far the console has come.
    pub fn look(&self) -> Look
        ensures { looked result ≡ look (state_of self.now) }
    {
        self.console.look()
    }

    // The image of the store.
    pub fn store(&self) -> [u8; 14]
        ensures { result ≡ self.now.console.store.bytes }
    {
        self.console.store().bytes()
    }

    // The board, to be read.
    pub fn board(&self) -> &EitherBoard
        ensures { result.now ≡ self.now.console.board }
    {
        self.console.board()
    }
}
