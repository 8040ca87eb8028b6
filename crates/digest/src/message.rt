// A whole message: its blocks, its padding and its digest.
ghost use Rattle.std.specs.Prelude.{◌≡◌, ℕ, ◌+◌, ◌-◌, ◌*◌, ◌/◌, ◌%◌, ◌<◌, ◌≤◌, List, ◌∷◌, ◌++◌, length, take, drop, replicate};
ghost use Rattle.std.specs.Simd.{first_chunks};
ghost use Rattle.digest.specs.Sha256.{absorb, compress, initial, ending, zeros, eight_bytes, state_bytes, finished, digest};

use crate::state::State;

impl State {
    /// The hash value before the first block.
    pub fn initial() -> State
        ensures { result ≡ initial }
    {
        State {
            a: 0x6a09e667,
            b: 0xbb67ae85,
            c: 0x3c6ef372,
            d: 0xa54ff53a,
            e: 0x510e527f,
            f: 0x9b05688c,
            g: 0x1f83d9ab,
            h: 0x5be0cd19,
        }
    }

    // The hash value after these blocks.
    fn absorb(self, blocks: &[[u8; 64]]) -> State
        ensures { (bytes : List ℕ) → blocks.now ≡ first_chunks 64 (length blocks.now) bytes → result ≡ absorb (length blocks.now) self bytes }
    {
        let mut v = self;
        for block in blocks {
            v = v.compress(block);
        }
        v
    }

    fn bytes(self) -> [u8; 32]
        ensures { result ≡ state_bytes self }
    {
        let words = [
            self.a, self.b, self.c, self.d, self.e, self.f, self.g, self.h,
        ];
        let mut bytes = [0; 32];
        bytes.copy_from_slice(words.map(u32::to_be_bytes).as_flattened());
        bytes
    }
}

// How long the last n bytes of a message, less than a block, are with what ends them: 64 or 128.
fn tail_len(n: usize) -> usize
    requires { n < 64 }
    ensures { result ≡ n + 9 + zeros n }
{
    if n < 56 { 64 } else { 128 }
}

// The rest of a message, less than a block, with what ends it.
fn tail(rest: &[u8], bits: u64) -> [u8; 128]
    requires { length rest.now < 64 }
    ensures { take (length rest.now + 9 + zeros (length rest.now)) result ≡ rest.now ++ 128 ∷ (replicate (zeros (length rest.now)) 0 ++ eight_bytes bits) }
{
    let mut bytes = [0; 128];
    bytes[..rest.len()].copy_from_slice(rest);
    bytes[rest.len()] = 128;
    let end = tail_len(rest.len());
    bytes[end - 8..end].copy_from_slice(&bits.to_be_bytes());
    bytes
}

// The digest from the hash value v, where `before` bytes are in v and `message` is all that comes.
// So at the start it is the message's own digest, and after a first block that of the block and the message.
pub fn finish(v: State, before: u64, message: &[u8]) -> [u8; 32]
    requires { before % 64 ≡ 0 }
    ensures value { result ≡ finished v (message.now ++ ending (before + length message.now)) }
    ensures first { before ≡ 0 → v ≡ initial → result ≡ digest message.now }
    ensures later { (block : List ℕ) → before ≡ 64 → length block ≡ 64 → v ≡ compress initial block → result ≡ digest (block ++ message.now) }
{
    let (blocks, rest) = message.as_chunks::<64>();
    let bits = before.wrapping_add(message.len() as u64).wrapping_mul(8);
    let last = tail(rest, bits);
    let (ending, _) = last[..tail_len(rest.len())].as_chunks::<64>();
    v.absorb(blocks).absorb(ending).bytes()
}

/// The SHA-256 digest of a message.
pub fn sha256(message: &[u8]) -> [u8; 32]
    ensures { result ≡ digest message.now }
{
    finish(State::initial(), 0, message)
}
