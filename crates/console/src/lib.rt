// One console of a pit: from heard messages and clock ticks to votes and a chain of orders for its board.
#![tactic(auto)]

pub mod answers;
mod checks;
pub mod console;
pub mod permit;
pub mod request;
mod statements;
pub mod turn;
pub mod vote;
