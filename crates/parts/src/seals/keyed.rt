ghost use Rattle.std.specs.Prelude.{◌≡◌, ◌<◌, length};

use digest::MacKey;

pub mod sealing;

// The keys of sixteen signers, made ready, and the number that is sealed under.
#[derive(Clone, Copy)]
pub struct KeyedSeals {
    own: u8,
    keys: [MacKey; 16],
    ghost low: { own < 16 },
    ghost all: { length keys ≡ 16 },
}
