// The records that consoles send one another: their types, writers and the reader of a datagram.
#![tactic(auto)]

pub mod body;
pub mod certificate;
mod fields;
pub mod key;
pub mod message;
pub mod order;
pub mod orders;
mod put;
pub mod reading;
pub mod statement;
pub mod unreadable;
