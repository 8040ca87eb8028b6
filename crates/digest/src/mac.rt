// A key that is ready to seal: the hash values after its inner and its outer block, so that a tag does not begin with them anew.
ghost use Rattle.std.specs.Prelude.{◌≡◌, length};
ghost use Rattle.digest.specs.Hmac.{key_block, ipad, opad};
ghost use Rattle.digest.specs.Sha256.{compress, initial};

pub mod tags;

use crate::state::State;

/// A key of 32 bytes for HMAC-SHA-256.
#[derive(Clone, Copy)]
pub struct MacKey {
    key: [u8; 32],
    inner: State,
    outer: State,
    ghost long: { length key ≡ 32 },
    ghost inside: { inner ≡ compress initial (key_block ipad key) },
    ghost outside: { outer ≡ compress initial (key_block opad key) },
}
