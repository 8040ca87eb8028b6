// HMAC-SHA-256 under keys of other lengths than 32 bytes.
ghost use Rattle.std.specs.Prelude.{◌≡◌, ℕ, ◌-◌, ◌<◌, ◌≤◌, List, ◌++◌, length, replicate, MatchOption};
ghost use Rattle.digest.specs.Hmac.{hmac};

use digest::{hmac_sha256, sha256};

// The key, filled up with zeros.
fn filled(key: &[u8]) -> [u8; 32]
    requires { length key.now ≤ 32 }
    ensures { result ≡ key.now ++ replicate (32 - length key.now) 0 }
{
    let mut all = [0; 32];
    all[0..key.len()].copy_from_slice(key);
    all
}

// The key of 32 bytes under which all tags are the same. There may be none for a key of 33 to 64 bytes.
fn like(key: &[u8]) -> Option<[u8; 32]>
    ensures { MatchOption result ((32 < length key.now) × (length key.now ≤ 64)) (λ k. (message : List ℕ) → hmac k message ≡ hmac key.now message) }
{
    match key.len() {
        0..=32 => Some(filled(key)),
        33..=64 => None,
        _ => Some(sha256(key)),
    }
}

/// The tag of a message, or `None` under a key of 33 to 64 bytes.
pub fn tag(key: &[u8], message: &[u8]) -> Option<[u8; 32]>
    ensures { MatchOption result ((32 < length key.now) × (length key.now ≤ 64)) (λ t. t ≡ hmac key.now message.now) }
{
    let like = like(key)?;
    Some(hmac_sha256(&like, message))
}
