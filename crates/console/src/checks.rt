ghost use Rattle.std.specs.Prelude.{◌≡◌, ◌*◌, ◌<◌, not, ◌&&◌, ◌||◌, [], if◌then◌else◌, None, ◌==◌, nat_eq, slice_index_or};
ghost use Rattle.rules.specs.Blocks.{has_room, is_held};
ghost use Rattle.rules.specs.Hear.{certificate_stands, proposes, seals_accepted, votes_for};
ghost use Rattle.rules.specs.Pit.{leader, shelf_size};
ghost use Rattle.rules.specs.State.{or_candidate};
ghost use Rattle.rules.specs.Tick.{may_vote};
ghost use Rattle.wire.specs.Format.{signed};

use crate::permit::Permit;
use crate::statements::{proposes, votes_for};
use ledger::quorum::is_quorum;
use ledger::slot::{has_room, is_held};
use parts::seals::Seals;
use parts::store::Marks;
use rules::block::Block;
use wire::certificate::{Certificate, Signers};
use wire::key::Key;
use wire::message::Vote;
use wire::statement::Statement;

// Whether a shelf of so many slots is the one that was noted at opening.
pub(crate) fn has_slots(len: usize, noted: usize) -> bool
    ensures { result ≡ (shelf_size len && len == noted) }
{
    (8..=256).contains(&len) && len == noted
}

// Whether the tick is the view's first.
pub(crate) fn is_first_tick(tick: u32, view: u32) -> bool
    ensures { result ≡ (tick == 2 * view) }
{
    tick % 2 == 0 && tick / 2 == view
}

// The voting rule: once in a view, in rising views, and never on a parent below the lock.
pub(crate) fn may_vote_on(marks: &Marks, view: u32, parent_view: u32) -> bool
    ensures { result ≡ may_vote marks.now view parent_view }
{
    marks.voted < view && marks.lock <= parent_view
}

// The candidate after the clock moved: a new view drops it.
pub(crate) fn candidate_in(candidate: Option<[u8; 32]>, view: u32, before: u32) -> Option<[u8; 32]>
    ensures { result ≡ (if nat_eq view before then candidate else None) }
{
    candidate.filter(|_| view == before)
}

// The candidate after a proposal was taken up: its block, if that is of the console's view and there was none.
pub(crate) fn candidate_heard(
    candidate: Option<[u8; 32]>,
    name: [u8; 32],
    view: u32,
    own_view: u32,
) -> Option<[u8; 32]>
    ensures { result ≡ (if nat_eq view own_view then or_candidate candidate name else candidate) }
{
    if view == own_view {
        candidate.or(Some(name))
    } else {
        candidate
    }
}

// Whether there is a slot for the block, or it needs none.
pub(crate) fn has_place(shelf: &[Option<Block>], key: &Key) -> bool
    ensures { result ≡ (is_held key.now shelf.now || has_room shelf.now) }
{
    is_held(shelf, key) || has_room(shelf)
}

// Whether the seal of a proposal of the block is its leader's.
pub(crate) fn is_leaders_seal<S: Seals>(
    seals: &S,
    permit: &Permit,
    key: &Key,
    seal: &[u8; 16],
) -> bool
    ensures { result ≡ (S.Seals.keys seals.now).table (leader permit.now.n key.now.view) (proposes key.now) seal.now }
{
    seals.check(permit.leader(key.view), &proposes(key), seal)
}

// Whether the vote's seal is the voter's.
pub(crate) fn is_voters_seal<S: Seals>(seals: &S, vote: &Vote) -> bool
    ensures { result ≡ (S.Seals.keys seals.now).table vote.now.voter (votes_for vote.now.block) vote.now.seal }
{
    seals.check(vote.voter, &votes_for(&vote.block), &vote.seal)
}

// Whether console i has not signed, or its seal of the statement is accepted.
fn seal_stands<S: Seals>(seals: &S, statement: &Statement, signers: &Signers, i: u8) -> bool
    requires { i < 16 }
    ensures { result ≡ (not (signed signers.now.set i) || (S.Seals.keys seals.now).table i statement.now (slice_index_or signers.now.seals i [])) }
{
    !signers.has(i) || seals.check(i, statement, &signers.seals[i as usize])
}

// Whether every signer has a vote seal for the block that is accepted.
fn seals_stand<S: Seals>(seals: &S, block: &Key, signers: &Signers) -> bool
    ensures { result ≡ seals_accepted (S.Seals.keys seals.now).table block.now signers.now 16 }
{
    let statement = votes_for(block);
    (0..16).all(|i| seal_stands(seals, &statement, signers, i))
}

// Whether the certificate is the origin's, or has a quorum of signers, each with its seal.
pub(crate) fn is_certificate<S: Seals>(seals: &S, n: u8, certificate: &Certificate) -> bool
    ensures { result ≡ certificate_stands (S.Seals.keys seals.now).table n certificate.now }
{
    let signers = &certificate.signers;
    certificate.block.view == 0
        || (is_quorum(n, signers.set) && seals_stand(seals, &certificate.block, signers))
}
