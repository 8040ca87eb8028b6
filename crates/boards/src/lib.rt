// The two boards: where the trucks are assigned, and how much was brought to each place.
#![tactic(auto)]

pub mod assignment;
pub mod tonnage;
