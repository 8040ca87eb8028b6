ghost use Rattle.std.specs.Prelude.{◌≡◌, ◌<◌};
ghost use Rattle.rules.specs.Settle.{completes, joined};

use crate::quorum::is_quorum;
use wire::certificate::Signers;
use wire::message::Vote;

// The tally after a vote. A voter joins once, with the first seal that came.
pub(crate) fn with_vote(tally: &Signers, vote: &Vote) -> Signers
    requires { vote.now.voter < 16 }
    ensures { result ≡ joined vote.now.voter vote.now.seal tally.now }
{
    let voter = vote.voter;
    let mut after = *tally;
    if !tally.has(voter) {
        after.set |= 1 << voter;
        after.seals[voter as usize] = vote.seal;
    }
    after
}

// Whether the tally came from no quorum to a quorum.
pub(crate) fn came_to_quorum(n: u8, before: &Signers, after: &Signers) -> bool
    ensures { result ≡ completes n before.now after.now }
{
    !is_quorum(n, before.set) && is_quorum(n, after.set)
}
