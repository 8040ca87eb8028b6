ghost use Rattle.rules.specs.Blocks.{block_key};
ghost use Rattle.rules.specs.Shelves.{key_same};

use shelf::record::Keyed;
use wire::body::Body;
use wire::certificate::Signers;
use wire::key::Key;

// A held block: a body, its name, and the votes for it that came so far.
#[derive(Clone, Copy)]
pub struct Block {
    pub body: Body,
    pub name: [u8; 32],
    pub tally: Signers,
}

// Blocks are told apart by view and name.
impl Keyed for Block {
    type Key = Key;

    ghost key = { block_key };

    ghost equal = { key_same };

    fn key(&self) -> Key {
        Key {
            view: self.body.view,
            name: self.name,
        }
    }
}
