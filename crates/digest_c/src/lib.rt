// The digest for callers in C, as the measurements use it.
#![tactic(auto)]

ghost use Rattle.digest.specs.Sha256.{digest};
ghost use Rattle.std.specs.Prelude.{◌≡◌};

use digest::sha256;

/// In C: `void filuvendo_sha256(const uint8_t *message, size_t length, uint8_t out[32])`.
#[unsafe(no_mangle)]
pub extern "C" fn filuvendo_sha256(message: &[u8], out: &mut [u8; 32])
    ensures { out.new ≡ digest message.now }
{
    *out = sha256(message);
}
