ghost use Rattle.std.specs.Prelude.{◌≡◌, ℕ, List, []};
ghost use Rattle.rules.specs.Blocks.{Slot};
ghost use Rattle.rules.specs.Call.{ticking};
ghost use Rattle.rules.specs.Tick.{candidate_block, cast_vote, may_take_turn, take_turn, vote_for};
ghost use Rattle.console.specs.Answered.{answered, handed_over, ticked_answer, ticked_handed};
ghost use Rattle.console.specs.Does.{Did, Does};
ghost use Rattle.console.specs.Stands.{stands};
ghost use Rattle.console.specs.Seen.{seen};

use crate::answers::Ticked;
use crate::checks::{candidate_in, has_slots, may_vote_on};
use crate::console::Console;
use crate::turn::Turn;
use crate::vote::record_vote;
use ledger::slot::held;
use parts::board::Board;
use parts::seals::Seals;
use parts::store::{Marks, Store};
use rules::block::Block;
use rules::refusal::Refusal;
use shelf::record::Keyed;
use wire::key::Key;

impl<S: Seals, T: Store, B: Board> Console<S, T, B> {
    // Whether the console leads its view and has not yet taken its turn.
    fn leads(&self) -> bool
        ensures { (xs : List Slot) → result ≡ may_take_turn (seen T.Store.kept self.now xs) }
    {
        self.permit.leader(self.view) == self.permit.own && self.marks.proposed < self.view
    }

    // Takes the turn in the view that the console leads, once: the store has it before it is answered.
    fn take_turn(&mut self) -> Ticked
        ensures did { (xs : List Slot) → Does B.Board.rule (S.Seals.keys self.old.seals) (take_turn (seen T.Store.kept self.old xs)) [] (B.Board.world self.old.board) [] (stands T.Store.kept B.Board.world self.new xs (ticked_answer result) (ticked_handed result) []) }
        ensures same { S.Seals.keys self.new.seals ≡ S.Seals.keys self.old.seals }
    {
        if !self.leads() {
            return Ticked::Nothing;
        }
        let marks = Marks {
            proposed: self.view,
            ..self.marks
        };
        self.store.save(marks);
        self.marks = marks;
        Ticked::Turn(Turn {
            console: self.permit.own,
            view: self.view,
        })
    }

    // The block that the console would vote for, if it is held.
    fn candidate_block(&self, shelf: &[Option<Block>]) -> Option<Block>
        ensures { result ≡ candidate_block (seen T.Store.kept self.now shelf.now) }
    {
        let name = self.candidate?;
        let key = Key {
            view: self.view,
            name,
        };
        held(shelf, &key)
    }

    // Votes for the block: first the numbers are saved, then the vote is sealed, entered and answered.
    fn vote_for(&mut self, shelf: &mut [Option<Block>], block: &Block) -> Ticked
        ensures did { (seal : List ℕ) × Does B.Board.rule (S.Seals.keys self.old.seals) (vote_for block.now seal (seen T.Store.kept self.old shelf.old)) seal (B.Board.world self.old.board) [] (stands T.Store.kept B.Board.world self.new shelf.new (ticked_answer result) (ticked_handed result) []) }
        ensures same { S.Seals.keys self.new.seals ≡ S.Seals.keys self.old.seals }
    {
        let key = block.key();
        let marks = Marks {
            lock: block.body.parent.view,
            voted: self.view,
            ..self.marks
        };
        let slip = record_vote(&mut self.store, marks, &key);
        self.marks = marks;
        let vote = slip.cast(&self.seals, self.permit.own);
        self.progress.enter(self.permit.n, shelf, &vote.vote());
        let handed = self.progress.settle(self.permit.n, shelf, &mut self.board);
        Ticked::Vote(vote, handed)
    }

    // Votes for the candidate, if it is held and the voting rule allows it.
    fn cast_vote(&mut self, shelf: &mut [Option<Block>]) -> Ticked
        ensures did { (seal : List ℕ) × Does B.Board.rule (S.Seals.keys self.old.seals) (cast_vote seal (seen T.Store.kept self.old shelf.old)) seal (B.Board.world self.old.board) [] (stands T.Store.kept B.Board.world self.new shelf.new (ticked_answer result) (ticked_handed result) []) }
        ensures same { S.Seals.keys self.new.seals ≡ S.Seals.keys self.old.seals }
    {
        let Some(block) = self.candidate_block(shelf) else {
            return Ticked::Nothing;
        };
        if !may_vote_on(&self.marks, self.view, block.body.parent.view) {
            return Ticked::Nothing;
        }
        self.vote_for(shelf, &block)
    }

    // The clock moves on to tick t. An even one may answer a turn, an odd one a vote.
    pub fn tick(&mut self, shelf: &mut [Option<Block>], t: u32) -> Result<Ticked, Refusal>
        ensures did { Did B.Board.rule (S.Seals.keys self.old.seals) (seen T.Store.kept self.old shelf.old) (ticking t) (B.Board.world self.old.board) [] (stands T.Store.kept B.Board.world self.new shelf.new (answered ticked_answer result) (handed_over ticked_handed result) []) }
        ensures same { S.Seals.keys self.new.seals ≡ S.Seals.keys self.old.seals }
    {
        if !has_slots(shelf.len(), self.slots) {
            return Err(Refusal::ShelfSize);
        }
        if t <= self.tick {
            return Err(Refusal::OldTick);
        }
        self.candidate = candidate_in(self.candidate, t / 2, self.view);
        self.view = t / 2;
        self.tick = t;
        if t % 2 == 0 {
            Ok(self.take_turn())
        } else {
            Ok(self.cast_vote(shelf))
        }
    }
}
