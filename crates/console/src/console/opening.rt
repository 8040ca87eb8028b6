ghost use Rattle.std.specs.Prelude.{◌≡◌, List, length};
ghost use Rattle.rules.specs.Blocks.{Slot};
ghost use Rattle.rules.specs.State.{look, opened};
ghost use Rattle.console.specs.Lines.{Opens};
ghost use Rattle.console.specs.Seen.{looked, seat_of, seen};

use crate::answers::Look;
use crate::console::Console;
use crate::permit::Permit;
use ledger::progress::Progress;
use parts::board::Board;
use parts::seals::Seals;
use parts::store::Store;
use rules::block::Block;

// Opens a console over its parts and an emptied shelf: everything afresh, but for what the store says. Over the console's own
// store that is a line of a shift sheet.
pub fn open<S: Seals, T: Store, B: Board>(
    permit: Permit,
    seals: S,
    store: T,
    board: B,
    shelf: &mut [Option<Block>],
) -> Console<S, T, B>
    ensures state { seen T.Store.kept result shelf.new ≡ opened (seat_of permit (length shelf.old)) (T.Store.kept store) }
    ensures line { Opens (seat_of permit (length shelf.old)) (T.Store.kept store) (seen T.Store.kept result shelf.new) }
    ensures seals { result.seals ≡ seals }
    ensures store { result.store ≡ store }
    ensures board { result.board ≡ board }
{
    shelf.fill(None);
    let marks = store.load();
    Console {
        seals,
        store,
        board,
        permit,
        slots: shelf.len(),
        tick: 0,
        view: 0,
        candidate: None,
        marks,
        progress: Progress::start(),
    }
}

impl<S: Seals, T: Store, B: Board> Console<S, T, B> {
    // How far the console has come.
    pub fn look(&self) -> Look
        ensures { (xs : List Slot) → looked result ≡ look (seen T.Store.kept self.now xs) }
    {
        Look {
            tick: self.tick,
            lock: self.marks.lock,
            head: self.progress.head(),
            count: self.progress.count(),
        }
    }

    // The board, to be read.
    pub fn board(&self) -> &B
        ensures { result.now ≡ self.now.board }
    {
        &self.board
    }

    // The store, to be read.
    pub fn store(&self) -> &T
        ensures { result.now ≡ self.now.store }
    {
        &self.store
    }

    // Closes the console and gives its parts back.
    pub fn close(self) -> (S, T, B)
        ensures seals { result.0 ≡ self.seals }
        ensures store { result.1 ≡ self.store }
        ensures board { result.2 ≡ self.board }
    {
        // Stays: each field is named: the parts need not be `Drop`, so that nothing of a console may be let go by `..`.
        let Console {
            seals,
            store,
            board,
            permit: _,
            slots: _,
            tick: _,
            view: _,
            candidate: _,
            marks: _,
            progress: _,
        } = self;
        (seals, store, board)
    }
}
