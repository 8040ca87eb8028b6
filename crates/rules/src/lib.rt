// What a console does, as definitions (specs/), with the plain types that they speak of.
#![tactic(auto)]

ghost use Rattle.rules.specs.Laws.{CountedOnce, EveryHandOver, EveryVote, NoVoteLost};

pub mod block;
pub mod refusal;

// Whatever a console is told, it votes in rising views and never below its lock, forgets no vote, counts no voter twice,
// and hands nothing over without a certified child of the very next view.
pub fn calls_keep_the_rules()
    ensures votes { EveryVote }
    ensures remembers { NoVoteLost }
    ensures counts { CountedOnce }
    ensures hands_over { EveryHandOver }
{}
