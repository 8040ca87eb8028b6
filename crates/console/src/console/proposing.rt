ghost use Rattle.std.specs.Prelude.{◌≡◌, ℕ, ◌*◌, ◌≤◌, ◌&&◌, List, [], ◌++◌, length, drop, if◌then◌else◌, Some, None, ◌==◌, nat_lt};
ghost use Rattle.rules.specs.Blocks.{Slot, is_held, put as put_block};
ghost use Rattle.rules.specs.Call.{passing, proposing};
ghost use Rattle.rules.specs.Propose.{orders_stand, propose_body, turn_stands};
ghost use Rattle.rules.specs.Settle.{fresh};
ghost use Rattle.rules.specs.Step.{passed};
ghost use Rattle.wire.specs.Format.{body_key, pack, proposal_bytes};
ghost use Rattle.console.specs.Answered.{answered, handed_over, proposed_answer, proposed_handed};
ghost use Rattle.console.specs.Does.{Did, Does};
ghost use Rattle.console.specs.Seen.{owed, seen};
ghost use Rattle.console.specs.Stands.{stands};

use crate::answers::Proposed;
use crate::checks::{has_place, has_slots, is_first_tick};
use crate::console::Console;
use crate::statements::proposes;
use crate::turn::Turn;
use ledger::slot::{is_held, place};
use parts::board::Board;
use parts::seals::Seals;
use parts::store::Store;
use rules::block::Block;
use rules::refusal::Refusal;
use wire::body::Body;
use wire::key::Key;
use wire::message::Proposal;
use wire::order::Order;
use wire::orders::{Orders, well_formed};

// The orders of a body, unless there are more than eight or one is ill-formed.
fn packed(orders: &[Order]) -> Option<Orders>
    ensures { result ≡ (if orders_stand orders.now then Some (pack orders.now) else None) }
{
    if !well_formed(orders) {
        return None;
    }
    Orders::new(orders)
}

// Writes a proposal at the start of an output that has room for the longest one, and answers its length.
fn write_proposal(message: &Proposal, out: &mut [u8]) -> usize
    requires { 421 ≤ length out.old }
    ensures length { result ≡ length (proposal_bytes message.now) }
    ensures output { out.new ≡ proposal_bytes message.now ++ drop (length (proposal_bytes message.now)) out.old }
{
    let length = message.size();
    let _ = message.write(out);
    length
}

// Puts a block on the shelf unless it is held.
fn place_if_new(shelf: &mut [Option<Block>], body: &Body, key: &Key)
    ensures { shelf.new ≡ (if is_held key.now shelf.old then shelf.old else put_block (fresh body.now key.now.name) shelf.old) }
{
    if !is_held(shelf, key) {
        place(shelf, body, &key.name);
    }
}

impl<S: Seals, T: Store, B: Board> Console<S, T, B> {
    // Whether this is the tick to propose in the view, and the top certificate is of a lower view.
    fn may_propose_in(&self, view: u32) -> bool
        ensures { result ≡ (self.now.tick == 2 * view && nat_lt self.now.progress.top.block.view view) }
    {
        is_first_tick(self.tick, view) && self.progress.top_block().view < view
    }

    // Whether the turn is this console's, of this very tick, and the top certificate is of a lower view.
    fn turn_stands(&self, console: u8, view: u32) -> bool
        ensures { (xs : List Slot) → result ≡ turn_stands (seen T.Store.kept self.now xs) (record { console = console; view = view }) }
    {
        console == self.permit.own && self.may_propose_in(view)
    }

    // Stays: body and key side by side, since `Named` of hearing would have to hold a body or a proposal.
    // Proposes the body: seals and writes it, puts it on the shelf, and settles.
    fn propose_body(
        &mut self,
        shelf: &mut [Option<Block>],
        body: &Body,
        key: &Key,
        out: &mut [u8],
    ) -> Proposed
        requires key { key.now ≡ body_key body.now }
        requires room { 421 ≤ length out.old }
        ensures did { (seal : List ℕ) × Does B.Board.rule (S.Seals.keys self.old.seals) (propose_body body.now seal (seen T.Store.kept self.old shelf.old)) seal (B.Board.world self.old.board) out.old (stands T.Store.kept B.Board.world self.new shelf.new (proposed_answer result) (proposed_handed result) out.new) }
        ensures same { S.Seals.keys self.new.seals ≡ S.Seals.keys self.old.seals }
    {
        let message = Proposal {
            body: *body,
            certificate: self.progress.top(),
            seal: self.seals.seal(&proposes(key)),
        };
        let length = write_proposal(&message, out);
        place_if_new(shelf, body, key);
        let handed = self.progress.settle(self.permit.n, shelf, &mut self.board);
        self.candidate = self.candidate.or(Some(key.name));
        Proposed { length, handed }
    }

    // Spends a turn on a proposal: a body with these orders on top of the top certificate's block. It stands at the start
    // of the output, whose bytes beyond it stay.
    pub fn propose(
        &mut self,
        shelf: &mut [Option<Block>],
        turn: Turn,
        orders: &[Order],
        out: &mut [u8],
    ) -> Result<Proposed, Refusal>
        ensures did { Did B.Board.rule (S.Seals.keys self.old.seals) (seen T.Store.kept self.old shelf.old) (proposing (owed turn) orders.now (length out.old)) (B.Board.world self.old.board) out.old (stands T.Store.kept B.Board.world self.new shelf.new (answered proposed_answer result) (handed_over proposed_handed result) out.new) }
        ensures same { S.Seals.keys self.new.seals ≡ S.Seals.keys self.old.seals }
    {
        let Turn { console, view } = turn;
        if !has_slots(shelf.len(), self.slots) {
            return Err(Refusal::ShelfSize);
        }
        if !self.turn_stands(console, view) {
            return Err(Refusal::NotItsTurn);
        }
        if out.len() < Proposal::LONGEST {
            return Err(Refusal::ShortOutput);
        }
        let Some(orders) = packed(orders) else {
            return Err(Refusal::BadOrders);
        };
        let body = Body {
            view,
            parent: self.progress.top_block(),
            orders,
        };
        let key = body.key();
        if !has_place(shelf, &key) {
            return Err(Refusal::ShelfFull);
        }
        Ok(self.propose_body(shelf, &body, &key, out))
    }

    // Spends a turn and does nothing else.
    pub fn pass(&self, turn: Turn)
        ensures { (xs : List Slot) → Did B.Board.rule (S.Seals.keys self.now.seals) (seen T.Store.kept self.now xs) (passing (owed turn)) (B.Board.world self.now.board) [] (stands T.Store.kept B.Board.world self.now xs passed 0 []) }
    {
        turn.pass();
    }
}
