// What the clerk's program does with text: hexadecimal, decimal numbers and the fields of a line.
#![tactic(auto)]

pub mod fields;
pub mod hex;
pub mod number;
pub mod printable;
