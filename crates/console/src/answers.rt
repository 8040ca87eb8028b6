use crate::turn::Turn;
use crate::vote::SealedVote;
use rules::refusal::Refusal;
use wire::key::Key;

// What a tick answers.
// Stays: of three answers none is an option's, and `Nothing` is the rules' word.
pub enum Ticked {
    // the console leads the view, and is owed a turn
    Turn(Turn),
    // the console votes; so many blocks were handed over
    Vote(SealedVote, usize),
    Nothing,
}

// What propose answers.
#[derive(Clone, Copy)]
pub struct Proposed {
    // the length of the proposal, which stands at the start of the output
    pub length: usize,
    // how many blocks were handed over
    pub handed: usize,
}

// What hear answers.
// Stays: `New` and `Known` are the rules' words: `Some(3)` and `None` would not say which is which.
#[derive(Clone, Copy)]
pub enum Heard {
    // a new proposal or vote; so many blocks were handed over
    New(usize),
    // a proposal that is held, or a voter that is in the tally already
    Known,
}

// What a call that is made as a value answers.
pub enum Reply {
    Opened,
    Ticked(Result<Ticked, Refusal>),
    Proposed(Result<Proposed, Refusal>),
    Passed,
    Heard(Result<Heard, Refusal>),
}

// What look answers.
#[derive(Clone, Copy)]
pub struct Look {
    pub tick: u32,
    pub lock: u32,
    pub head: Key,
    // how many blocks were handed over since opening
    pub count: u64,
}
