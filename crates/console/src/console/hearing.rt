ghost use Rattle.std.specs.Prelude.{◌≡◌, ℕ, ◌<◌, List, []};
ghost use Rattle.std.specs.Result.{result_err};
ghost use Rattle.rules.specs.Call.{hearing};
ghost use Rattle.rules.specs.Hear.{count_vote, hear_proposal, hear_vote, proposal_ground, take_up};
ghost use Rattle.wire.specs.Format.{body_key};
ghost use Rattle.console.specs.Answered.{answered, handed_over, heard_answer, heard_handed};
ghost use Rattle.console.specs.Does.{Did, Does};
ghost use Rattle.console.specs.Seen.{seen};
ghost use Rattle.console.specs.Stands.{stands};

use crate::answers::Heard;
use crate::checks::{
    candidate_heard, has_place, has_slots, is_certificate, is_leaders_seal, is_voters_seal,
};
use crate::console::Console;
use ledger::slot::{held, is_held, place};
use parts::board::Board;
use parts::seals::Seals;
use parts::store::Store;
use rules::block::Block;
use rules::refusal::Refusal;
use wire::key::Key;
use wire::message::{Message, Proposal, Vote};
use wire::reading::read;

// A proposal with the key of its body, found once: it takes a digest.
#[derive(Clone, Copy)]
struct Named<'a> {
    proposal: &'a Proposal,
    key: Key,
    ghost named: { key ≡ body_key proposal.now.body },
}

impl<S: Seals, T: Store, B: Board> Console<S, T, B> {
    // Refuses a readable proposal on the first ground that there is.
    fn check_proposal(&self, shelf: &[Option<Block>], named: &Named) -> Result<(), Refusal>
        ensures { result_err result ≡ proposal_ground (S.Seals.keys self.now.seals).table (seen T.Store.kept self.now shelf.now) named.now.proposal.now }
    {
        let proposal = named.proposal;
        let view = proposal.body.view;
        if self.view < view {
            return Err(Refusal::ViewAhead);
        }
        if view <= self.progress.head().view {
            return Err(Refusal::NotAboveHead);
        }
        if !is_leaders_seal(&self.seals, &self.permit, &named.key, &proposal.seal) {
            return Err(Refusal::LeaderSeal);
        }
        if !is_certificate(&self.seals, self.permit.n, &proposal.certificate) {
            return Err(Refusal::BadCertificate);
        }
        if !has_place(shelf, &named.key) {
            return Err(Refusal::ShelfFull);
        }
        Ok(())
    }

    // A new proposal gets a slot; its certificate may become the top one, and it the candidate.
    fn take_up(&mut self, shelf: &mut [Option<Block>], named: &Named) -> Heard
        ensures did { Does B.Board.rule (S.Seals.keys self.old.seals) (take_up named.now.proposal.now (seen T.Store.kept self.old shelf.old)) [] (B.Board.world self.old.board) [] (stands T.Store.kept B.Board.world self.new shelf.new (heard_answer result) (heard_handed result) []) }
        ensures same { S.Seals.keys self.new.seals ≡ S.Seals.keys self.old.seals }
    {
        let proposal = named.proposal;
        let name = named.key.name;
        place(shelf, &proposal.body, &name);
        self.progress.raise_top(&proposal.certificate);
        let handed = self.progress.settle(self.permit.n, shelf, &mut self.board);
        self.candidate = candidate_heard(self.candidate, name, proposal.body.view, self.view);
        Heard::New(handed)
    }

    // Hears a readable proposal.
    fn hear_proposal(
        &mut self,
        shelf: &mut [Option<Block>],
        proposal: &Proposal,
    ) -> Result<Heard, Refusal>
        ensures did { Does B.Board.rule (S.Seals.keys self.old.seals) (hear_proposal (S.Seals.keys self.old.seals).table (seen T.Store.kept self.old shelf.old) proposal.now) [] (B.Board.world self.old.board) [] (stands T.Store.kept B.Board.world self.new shelf.new (answered heard_answer result) (handed_over heard_handed result) []) }
        ensures same { S.Seals.keys self.new.seals ≡ S.Seals.keys self.old.seals }
    {
        let named = Named {
            proposal,
            key: proposal.body.key(),
        };
        self.check_proposal(shelf, &named)?;
        if is_held(shelf, &named.key) {
            return Ok(Heard::Known);
        }
        Ok(self.take_up(shelf, &named))
    }

    // A new vote joins its block's tally.
    // Stays: a second type, of votes whose voter is below 16, would be no plainer than this clause of three functions.
    fn count_vote(&mut self, shelf: &mut [Option<Block>], vote: &Vote) -> Heard
        requires { vote.now.voter < 16 }
        ensures did { Does B.Board.rule (S.Seals.keys self.old.seals) (count_vote vote.now (seen T.Store.kept self.old shelf.old)) [] (B.Board.world self.old.board) [] (stands T.Store.kept B.Board.world self.new shelf.new (heard_answer result) (heard_handed result) []) }
        ensures same { S.Seals.keys self.new.seals ≡ S.Seals.keys self.old.seals }
    {
        self.progress.enter(self.permit.n, shelf, vote);
        let handed = self.progress.settle(self.permit.n, shelf, &mut self.board);
        Heard::New(handed)
    }

    // Hears a readable vote.
    fn hear_vote(&mut self, shelf: &mut [Option<Block>], vote: &Vote) -> Result<Heard, Refusal>
        requires { vote.now.voter < 16 }
        ensures did { Does B.Board.rule (S.Seals.keys self.old.seals) (hear_vote (S.Seals.keys self.old.seals).table (seen T.Store.kept self.old shelf.old) vote.now) [] (B.Board.world self.old.board) [] (stands T.Store.kept B.Board.world self.new shelf.new (answered heard_answer result) (handed_over heard_handed result) []) }
        ensures same { S.Seals.keys self.new.seals ≡ S.Seals.keys self.old.seals }
    {
        let Some(block) = held(shelf, &vote.block) else {
            return Err(Refusal::NotHeld);
        };
        if !is_voters_seal(&self.seals, vote) {
            return Err(Refusal::VoterSeal);
        }
        if block.tally.has(vote.voter) {
            return Ok(Heard::Known);
        }
        Ok(self.count_vote(shelf, vote))
    }

    // Hears one message, of any bytes.
    pub fn hear(&mut self, shelf: &mut [Option<Block>], bytes: &[u8]) -> Result<Heard, Refusal>
        ensures did { Did B.Board.rule (S.Seals.keys self.old.seals) (seen T.Store.kept self.old shelf.old) (hearing bytes.now) (B.Board.world self.old.board) [] (stands T.Store.kept B.Board.world self.new shelf.new (answered heard_answer result) (handed_over heard_handed result) []) }
        ensures same { S.Seals.keys self.new.seals ≡ S.Seals.keys self.old.seals }
    {
        if !has_slots(shelf.len(), self.slots) {
            return Err(Refusal::ShelfSize);
        }
        let reading = read(self.permit.n, bytes)?;
        match Message::from(reading) {
            Message::Proposal(proposal) => self.hear_proposal(shelf, &proposal),
            Message::Vote(vote) => self.hear_vote(shelf, &vote),
        }
    }
}
