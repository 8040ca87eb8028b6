// A pit in memory where every message arrives at once, to measure how fast consoles are.
#![tactic(auto)]

pub mod cab;
pub mod drill;
