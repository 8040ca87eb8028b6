// The commands of a shift sheet, and the reading of its lines.
#![tactic(auto)]

pub mod command;
pub mod lines;
pub mod parse;
mod read;
