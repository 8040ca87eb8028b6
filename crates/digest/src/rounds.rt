// One block: its schedule, its 64 rounds, and the next hash value.
ghost use Rattle.std.specs.Prelude.{◌≡◌, ℕ, ◌+◌, ◌<◌, ◌≤◌, List, take, drop, bit_xor};
ghost use Rattle.std.specs.Int.{rotate_right, w32};
ghost use Rattle.digest.specs.declared.state.State.{State};
ghost use Rattle.digest.specs.Sha256.{shr, Ch, Maj, K, round, rounds, schedule, compress, mixed_word, summed};

use crate::state::State;

static ROUND_CONSTANTS: [u32; 64] = [
    0x428a2f98, 0x71374491, 0xb5c0fbcf, 0xe9b5dba5, 0x3956c25b, 0x59f111f1, 0x923f82a4, 0xab1c5ed5,
    0xd807aa98, 0x12835b01, 0x243185be, 0x550c7dc3, 0x72be5d74, 0x80deb1fe, 0x9bdc06a7, 0xc19bf174,
    0xe49b69c1, 0xefbe4786, 0x0fc19dc6, 0x240ca1cc, 0x2de92c6f, 0x4a7484aa, 0x5cb0a9dc, 0x76f988da,
    0x983e5152, 0xa831c66d, 0xb00327c8, 0xbf597fc7, 0xc6e00bf3, 0xd5a79147, 0x06ca6351, 0x14292967,
    0x27b70a85, 0x2e1b2138, 0x4d2c6dfc, 0x53380d13, 0x650a7354, 0x766a0abb, 0x81c2c92e, 0x92722c85,
    0xa2bfe8a1, 0xa81a664b, 0xc24b8b70, 0xc76c51a3, 0xd192e819, 0xd6990624, 0xf40e3585, 0x106aa070,
    0x19a4c116, 0x1e376c08, 0x2748774c, 0x34b0bcb5, 0x391c0cb3, 0x4ed8aa4a, 0x5b9cca4f, 0x682e6ff3,
    0x748f82ee, 0x78a5636f, 0x84c87814, 0x8cc70208, 0x90befffa, 0xa4506ceb, 0xbef9a3f7, 0xc67178f2,
];

fn choose(x: u32, y: u32, z: u32) -> u32
    ensures { result ≡ Ch x y z }
{
    (x & y) ^ (!x & z)
}

fn majority(x: u32, y: u32, z: u32) -> u32
    ensures { result ≡ Maj x y z }
{
    (x & y) ^ (x & z) ^ (y & z)
}

// The standard's functions with a capital sigma: three rotations to the right.
fn big_sigma<const A: u32, const B: u32, const C: u32>(x: u32) -> u32
    ensures { result ≡ bit_xor (bit_xor (rotate_right w32 x A) (rotate_right w32 x B)) (rotate_right w32 x C) }
{
    x.rotate_right(A) ^ x.rotate_right(B) ^ x.rotate_right(C)
}

// Its functions with a small sigma: two rotations and a shift to the right.
fn small_sigma<const A: u32, const B: u32, const C: u32>(x: u32) -> u32
    requires { C < 32 }
    ensures { result ≡ bit_xor (bit_xor (rotate_right w32 x A) (rotate_right w32 x B)) (shr C x) }
{
    x.rotate_right(A) ^ x.rotate_right(B) ^ (x >> C)
}

impl State {
    fn round(self, k: u32, w: u32) -> State
        ensures { result ≡ round self k w }
    {
        let t1 = self
            .h
            .wrapping_add(big_sigma::<6, 11, 25>(self.e))
            .wrapping_add(choose(self.e, self.f, self.g))
            .wrapping_add(k)
            .wrapping_add(w);
        let t2 = big_sigma::<2, 13, 22>(self.a).wrapping_add(majority(self.a, self.b, self.c));
        State {
            a: t1.wrapping_add(t2),
            b: self.a,
            c: self.b,
            d: self.c,
            e: self.d.wrapping_add(t1),
            f: self.e,
            g: self.f,
            h: self.g,
        }
    }

    // Eight rounds: after them each variable is back in its register, so the 64 go by eights, which takes a fifth fewer instructions.
    fn eight_rounds(self, ks: &[u32; 8], ws: &[u32; 8]) -> State
        ensures { (t : ℕ) (s : State) (words : List ℕ) → self ≡ rounds t s words → ks.now ≡ take 8 (drop t K) → ws.now ≡ take 8 (drop t words) → result ≡ rounds (t + 8) s words }
    {
        let mut v = self;
        for (k, w) in ks.iter().zip(ws) {
            v = v.round(*k, *w);
        }
        v
    }

    // The 64 rounds, each with its constant and its word.
    fn all_rounds(self, ws: &[u32; 64]) -> State
        ensures { result ≡ rounds 64 self ws.now }
    {
        let (constants, _) = ROUND_CONSTANTS.as_chunks::<8>();
        let (words, _) = ws.as_chunks::<8>();
        let mut v = self;
        for (ks, ws) in constants.iter().zip(words) {
            v = v.eight_rounds(ks, ws);
        }
        v
    }

    // Each word with that of `other` added.
    fn plus(self, other: State) -> State
        ensures { result ≡ summed self other }
    {
        State {
            a: self.a.wrapping_add(other.a),
            b: self.b.wrapping_add(other.b),
            c: self.c.wrapping_add(other.c),
            d: self.d.wrapping_add(other.d),
            e: self.e.wrapping_add(other.e),
            f: self.f.wrapping_add(other.f),
            g: self.g.wrapping_add(other.g),
            h: self.h.wrapping_add(other.h),
        }
    }

    /// The next hash value, after one block.
    pub fn compress(self, block: &[u8; 64]) -> State
        ensures { result ≡ compress self block.now }
    {
        self.all_rounds(&schedule(block)).plus(self)
    }
}

fn mixed_word(ws: &[u32; 64], t: usize) -> u32
    requires after_block { 16 ≤ t }
    requires in_schedule { t < 64 }
    ensures { result ≡ mixed_word ws.now t }
{
    small_sigma::<17, 19, 10>(ws[t - 2])
        .wrapping_add(ws[t - 7])
        .wrapping_add(small_sigma::<7, 18, 3>(ws[t - 15]))
        .wrapping_add(ws[t - 16])
}

fn schedule(block: &[u8; 64]) -> [u32; 64]
    ensures { result ≡ schedule block.now 64 }
{
    let mut ws = [0; 64];
    load(&mut ws, block);
    extend(&mut ws);
    ws
}

// The first 16 words, which stand in the block.
fn load(ws: &mut [u32; 64], block: &[u8; 64])
    ensures { take 16 ws.new ≡ schedule block.now 16 }
{
    let (words, _) = block.as_chunks::<4>();
    for (t, word) in words.iter().enumerate() {
        ws[t] = u32::from_be_bytes(*word);
    }
}

// The other 48 words.
// Stays: the loop over places, since each word is made of the words at four places before it.
fn extend(ws: &mut [u32; 64])
    ensures { (block : List ℕ) → take 16 ws.old ≡ schedule block 16 → ws.new ≡ schedule block 64 }
{
    for t in 16..64usize {
        ws[t] = mixed_word(ws, t);
    }
}
