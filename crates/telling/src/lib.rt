// What the clerk says of messages and boards.
#![tactic(auto)]

pub mod board_words;
pub mod orders;
pub mod readings;
pub mod trial;
