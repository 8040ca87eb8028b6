pub mod board;
pub mod count;
pub mod line;
pub mod lines;
pub mod table;
