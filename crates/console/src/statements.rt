ghost use Rattle.std.specs.Prelude.{◌≡◌};
ghost use Rattle.rules.specs.Hear.{proposes, votes_for};

use wire::key::Key;
use wire::statement::{Purpose, Statement};

// What the leader's seal of a proposal is over.
// Stays: `proposes` and `votes_for` are the rules' two words, and one function of a purpose would say neither.
pub(crate) fn proposes(block: &Key) -> Statement
    ensures { result ≡ proposes block.now }
{
    Statement {
        purpose: Purpose::Propose,
        block: *block,
    }
}

// What the seal of a vote is over.
pub(crate) fn votes_for(block: &Key) -> Statement
    ensures { result ≡ votes_for block.now }
{
    Statement {
        purpose: Purpose::Vote,
        block: *block,
    }
}
