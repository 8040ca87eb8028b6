// Comparing seals.
ghost use Rattle.std.specs.Prelude.{◌≡◌, Decides};

// The bits in which some byte of the two differs. It reads both to their ends, so that its time does not tell where they differ.
fn differing(a: &[u8; 16], b: &[u8; 16]) -> u8
    ensures none { result ≡ 0 → a.now ≡ b.now }
    ensures same { a.now ≡ b.now → result ≡ 0 }
{
    let mut bits = 0;
    for (x, y) in a.iter().zip(b) {
        bits |= x ^ y;
    }
    bits
}

/// Whether two seals are equal, in a time that does not tell where they differ.
pub fn same_seal(a: &[u8; 16], b: &[u8; 16]) -> bool
    ensures { Decides result (a.now ≡ b.now) }
{
    differing(a, b) == 0
}
