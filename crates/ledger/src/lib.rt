// What a console knows of blocks: the block shelf that it is lent, its top certificate and its head.
#![tactic(auto)]

mod branches;
pub mod progress;
pub mod quorum;
pub mod slot;
pub mod tally;
