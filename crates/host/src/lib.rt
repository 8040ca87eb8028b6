// What a host chooses among as it runs: either kind of seals, and either kind of board, with a table of its own.
#![tactic(auto)]

pub mod board;
pub mod seals;
pub mod table;
