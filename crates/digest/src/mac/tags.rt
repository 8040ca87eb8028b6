// Making a key ready, and the tag of a message.
ghost use Rattle.std.specs.Prelude.{◌≡◌};
ghost use Rattle.digest.specs.Hmac.{hmac, key_block};

use crate::mac::MacKey;
use crate::message::finish;
use crate::state::State;

const IPAD: u8 = 0x36;

const OPAD: u8 = 0x5c;

// The key, filled up with zeros to a block, with each byte xored with `pad`: beyond the key the pad itself stands there.
fn key_block(pad: u8, key: &[u8; 32]) -> [u8; 64]
    ensures { result ≡ key_block pad key.now }
{
    let mut block = [pad; 64];
    for (i, b) in key.iter().enumerate() {
        block[i] = b ^ pad;
    }
    block
}

impl MacKey {
    /// Makes a key ready.
    pub fn new(key: &[u8; 32]) -> MacKey
        ensures { result.key ≡ key.now }
    {
        let inner = State::initial().compress(&key_block(IPAD, key));
        let outer = State::initial().compress(&key_block(OPAD, key));
        MacKey {
            key: *key,
            inner,
            outer,
        }
    }

    /// The HMAC-SHA-256 tag of a message under this key.
    pub fn tag(&self, message: &[u8]) -> [u8; 32]
        ensures { result ≡ hmac self.now.key message.now }
    {
        let inner = finish(self.inner, 64, message);
        finish(self.outer, 64, &inner)
    }
}

/// The HMAC-SHA-256 tag of a message under a key of 32 bytes.
pub fn hmac_sha256(key: &[u8; 32], message: &[u8]) -> [u8; 32]
    ensures { result ≡ hmac key.now message.now }
{
    MacKey::new(key).tag(message)
}
