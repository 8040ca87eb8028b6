// A pit as a host runs it: every console with all that it is lent, and each answer in words.
#![tactic(auto)]

pub mod pit;
pub mod replies;
pub mod seat;
pub mod trouble;
