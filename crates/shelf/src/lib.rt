// Tables of records that are found by a key: search, placement and the shelf over a lent slice.
#![tactic(auto)]

pub mod laws;
pub mod record;
pub mod shelf;
pub mod slots;
