use rules::block::Block;
use wire::key::Key;

pub mod lines;
pub mod ready;

// The held blocks of a console in a pit of n, which branch off from its head.
#[derive(Clone, Copy)]
pub(crate) struct Branches<'a> {
    pub(crate) n: u8,
    pub(crate) shelf: &'a [Option<Block>],
    pub(crate) head: Key,
}
