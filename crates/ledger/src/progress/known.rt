ghost use Rattle.std.specs.Prelude.{◌≡◌, if◌then◌else◌, nat_lt};
ghost use Rattle.rules.specs.Settle.{enter, higher_certificate, top_after};
ghost use Rattle.wire.specs.Format.{origin, origin_certificate};
ghost use Rattle.ledger.specs.Ledgers.{ledger_of};

use crate::progress::Progress;
use crate::slot::find;
use crate::tally::{came_to_quorum, with_vote};
use rules::block::Block;
use shelf::record::Keyed;
use wire::certificate::{Certificate, Signers};
use wire::key::Key;
use wire::message::Vote;

// The certificate of higher view, the first on a tie.
fn higher_certificate_of(top: &Certificate, new: &Certificate) -> Certificate
    ensures { result ≡ higher_certificate top.now «new».now }
{
    if top.block.view < new.block.view {
        *new
    } else {
        *top
    }
}

// The top certificate after the tally of a block came from `before` to these signers.
fn top_with(n: u8, top: &Certificate, before: &Signers, made: &Certificate) -> Certificate
    ensures { result ≡ top_after n top.now made.now.block before.now made.now.signers }
{
    if came_to_quorum(n, before, &made.signers) {
        higher_certificate_of(top, made)
    } else {
        *top
    }
}

impl Progress {
    // At the origin, with nothing handed over.
    pub fn start() -> Self
        ensures top { result.top ≡ origin_certificate }
        ensures head { result.head ≡ origin }
        ensures count { result.count ≡ 0 }
    {
        Progress {
            top: Certificate::origin(),
            head: Key::origin(),
            count: 0,
        }
    }

    // The certificate of highest view that came to be known.
    pub fn top(&self) -> Certificate
        ensures { result ≡ self.now.top }
    {
        self.top
    }

    // The block that the top certificate is for.
    pub fn top_block(&self) -> Key
        ensures { result ≡ self.now.top.block }
    {
        self.top.block
    }

    // The last block handed over, or the origin.
    pub fn head(&self) -> Key
        ensures { result ≡ self.now.head }
    {
        self.head
    }

    // How many blocks were handed over.
    pub fn count(&self) -> u64
        ensures { result ≡ self.now.count }
    {
        self.count
    }

    // Keeps the certificate if its view is above the top one's.
    pub fn raise_top(&mut self, certificate: &Certificate)
        ensures top { self.new.top ≡ higher_certificate self.old.top certificate.now }
        ensures head { self.new.head ≡ self.old.head }
        ensures count { self.new.count ≡ self.old.count }
    {
        self.top = higher_certificate_of(&self.top, certificate);
    }

    // Enters a vote into the tally of its block, if that is held, which may raise the top certificate. No console has
    // a number above 15.
    pub fn enter(&mut self, n: u8, shelf: &mut [Option<Block>], vote: &Vote)
        ensures { ledger_of self.new shelf.new ≡ (if nat_lt vote.now.voter 16 then enter n vote.now.block vote.now.voter vote.now.seal (ledger_of self.old shelf.old) else ledger_of self.old shelf.old) }
    {
        if vote.voter >= 16 {
            return;
        }
        let Some(at) = find(shelf, &vote.block) else {
            return;
        };
        let Some(block) = shelf[at] else {
            return;
        };
        let tally = with_vote(&block.tally, vote);
        let made = Certificate {
            block: block.key(),
            signers: tally,
        };
        self.top = top_with(n, &self.top, &block.tally, &made);
        shelf[at] = Some(Block { tally, ..block });
    }
}
