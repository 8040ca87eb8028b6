// One line of a shift sheet: its parts, the command that it gives, or why it cannot be read.
#![tactic(auto)]

pub mod arguments;
pub mod command;
pub mod fault;
pub mod lines;
mod marked;
pub mod number;
pub mod orders;
