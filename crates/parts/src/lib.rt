// What a console is built on, each part by its meaning: seals, a store of three numbers, and a board.
#![tactic(auto)]

pub mod board;
pub mod seals;
pub mod store;
