ghost use Rattle.std.specs.Prelude.{◌≡◌, [], length};
ghost use Rattle.rules.specs.Call.{opening};
ghost use Rattle.rules.specs.Step.{opens};
ghost use Rattle.sheets.specs.Promise.{Promise};
ghost use Rattle.console.specs.Answered.{reply_answer, reply_handed};
ghost use Rattle.console.specs.Does.{Did};
ghost use Rattle.console.specs.Lines.{Advances};
ghost use Rattle.console.specs.Requested.{call_of, full_call_of, keys_from, world_from};
ghost use Rattle.console.specs.Seen.{seen};
ghost use Rattle.console.specs.Stands.{stands};

use crate::answers::Reply;
use crate::console::Console;
use crate::request::{FullRequest, Request};
use agreement::promise;
use ledger::progress::Progress;
use parts::board::Board;
use parts::seals::Seals;
use parts::store::Store;
use rules::block::Block;

impl<S: Seals, T: Store, B: Board> Console<S, T, B> {
    // Opens the console again, over an emptied shelf and its own store as it was left.
    pub fn reopen(&mut self, shelf: &mut [Option<Block>])
        ensures did { Did B.Board.rule (S.Seals.keys self.old.seals) (seen T.Store.kept self.old shelf.old) (opening (length shelf.old)) (B.Board.world self.old.board) [] (stands T.Store.kept B.Board.world self.new shelf.new opens 0 []) }
        ensures same { S.Seals.keys self.new.seals ≡ S.Seals.keys self.old.seals }
    {
        shelf.fill(None);
        self.marks = self.store.load();
        self.slots = shelf.len();
        self.tick = 0;
        self.view = 0;
        self.candidate = None;
        self.progress = Progress::start();
    }

    // Makes the call that the request says, over the console's own shelf: one line of a shift sheet. Of whole sheets holds what
    // the promise says: chains of sound consoles never part, boards show their chains, and a timely stretch hands over.
    // Stays: the clause `promise` at both calls that enter a line is no longer than a name for it would be.
    pub fn enter(&mut self, shelf: &mut [Option<Block>], request: Request, out: &mut [u8]) -> Reply
        ensures advances { Advances B.Board.rule (S.Seals.keys self.old.seals) (seen T.Store.kept self.old shelf.old) (call_of request.entry (length shelf.old) (length out.old)) (B.Board.world self.old.board) out.old (stands T.Store.kept B.Board.world self.new shelf.new (reply_answer result) (reply_handed result) out.new) }
        ensures same { S.Seals.keys self.new.seals ≡ S.Seals.keys self.old.seals }
        ensures promise { Promise B.Board.World B.Board.rule }
    {
        promise::<B>();
        match request {
            Request::Open => {
                self.reopen(shelf);
                Reply::Opened
            }
            Request::Tick(t) => Reply::Ticked(self.tick(shelf, t)),
            Request::Propose(turn, orders) => Reply::Proposed(self.propose(
                shelf, turn, orders, out,
            )),
            Request::Pass(turn) => {
                self.pass(turn);
                Reply::Passed
            }
            Request::Hear(bytes) => Reply::Heard(self.hear(shelf, bytes)),
        }
    }
}

impl<S: Seals + Drop, T: Store, B: Board + Drop> Console<S, T, B> {
    // Opens the console again, over an emptied shelf and its own store as it was left, with these seals and this board.
    pub fn reopen_with(&mut self, shelf: &mut [Option<Block>], seals: S, board: B)
        ensures did { Did B.Board.rule (S.Seals.keys seals) (seen T.Store.kept self.old shelf.old) (opening (length shelf.old)) (B.Board.world board) [] (stands T.Store.kept B.Board.world self.new shelf.new opens 0 []) }
        ensures seals { self.new.seals ≡ seals }
    {
        self.reopen(shelf);
        self.seals = seals;
        self.board = board;
    }

    // The same of a request that may bring new parts.
    pub fn enter_with(
        &mut self,
        shelf: &mut [Option<Block>],
        request: FullRequest<'_, S, B>,
        out: &mut [u8],
    ) -> Reply
        ensures advances { Advances B.Board.rule (keys_from S.Seals.keys request.entry self.old.seals) (seen T.Store.kept self.old shelf.old) (full_call_of request.entry (length shelf.old) (length out.old)) (world_from B.Board.world request.entry self.old.board) out.old (stands T.Store.kept B.Board.world self.new shelf.new (reply_answer result) (reply_handed result) out.new) }
        ensures keys { S.Seals.keys self.new.seals ≡ keys_from S.Seals.keys request.entry self.old.seals }
        ensures promise { Promise B.Board.World B.Board.rule }
    {
        promise::<B>();
        match request {
            FullRequest::OpenWith(seals, board) => {
                self.reopen_with(shelf, seals, board);
                Reply::Opened
            }
            FullRequest::Plain(request) => self.enter(shelf, request, out),
        }
    }
}
