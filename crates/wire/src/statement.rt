ghost use Rattle.std.specs.Prelude.{◌≡◌, length};
ghost use Rattle.wire.specs.Format.{purpose_mark, statement_bytes};

use crate::key::Key;
use crate::put::Writer;

// What a console declares of a block by its seal.
#[derive(Clone, Copy, PartialEq, Eq)]
pub enum Purpose {
    Propose,
    Vote,
}

// What a seal is over.
#[derive(Clone, Copy, PartialEq, Eq)]
pub struct Statement {
    pub purpose: Purpose,
    pub block: Key,
}

impl Purpose {
    // The mark of the message that carries the seal.
    fn mark(self) -> [u8; 2]
        ensures { result ≡ purpose_mark self }
    {
        match self {
            Purpose::Propose => *b"PR",
            Purpose::Vote => *b"VT",
        }
    }
}

impl Statement {
    // The bytes that are sealed.
    pub fn bytes(&self) -> [u8; 38]
        ensures { result ≡ statement_bytes self.now }
    {
        let mut bytes = [0; 38];
        let mut writer = Writer::over(&mut bytes);
        writer.put(&self.purpose.mark());
        self.block.put(&mut writer);
        bytes
    }
}
