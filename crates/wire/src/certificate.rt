ghost use Rattle.std.specs.Prelude.{◌≡◌, ◌+◌, ◌*◌, ◌^◌, ◌<◌, ◌≤◌, length, count_ones, nat_lt};
ghost use Rattle.wire.specs.Format.{certificate_bytes, no_signers, origin_certificate, packed_below, signed};
ghost use Rattle.wire.specs.Read.{certificate_in, certificate_length, certificate_stands, seals_in};
ghost use Rattle.wire.specs.Written.{HasRoom, Puts, Written};

use crate::fields::{array_at, key_at};
use crate::key::Key;
use crate::put::Writer;

// Consoles (bit i of `set` is console i) with the seal of each one's vote; other entries are zeros.
// Stays: the format carries the set, and the core has no heap for a map of the signers alone.
#[derive(Clone, Copy)]
pub struct Signers {
    pub set: u16,
    pub seals: [[u8; 16]; 16],
}

// Vote seals for one block.
#[derive(Clone, Copy)]
pub struct Certificate {
    pub block: Key,
    pub signers: Signers,
}

// Whether bit i of the set is one.
fn has(set: u16, i: usize) -> bool
    requires { i < 16 }
    ensures { result ≡ signed set i }
{
    (set >> i) % 2 == 1
}

// How many consoles are in the set.
pub(crate) fn count(set: u16) -> usize
    ensures value { result ≡ count_ones set }
    ensures few { result ≤ 16 }
{
    set.count_ones() as usize
}

// How many bytes the signers' seals take.
// Stays: of a method of `Signers`, `length (packed self.now)` was left open, since no seal's length is known through `self`.
fn seals_size(set: u16, seals: &[[u8; 16]]) -> usize
    requires { length seals.now ≡ 16 }
    ensures bytes { result ≡ length (packed_below 16 set seals.now) }
    ensures ones { result ≡ 16 * count_ones set }
    ensures most { result ≤ 256 }
{
    16 * count(set)
}

// Writes the signers' seals by rising number.
fn put_seals(out: &mut Writer<'_>, set: u16, seals: &[[u8; 16]])
    requires room { HasRoom (16 * count_ones set) out.old }
    requires sixteen { length seals.now ≡ 16 }
    ensures ends { out.new.at ≡ out.old.at + 16 * count_ones set }
    ensures wrote { Puts (packed_below 16 set seals.now) out.old out.new }
{
    for (i, seal) in seals.iter().enumerate() {
        if has(set, i) {
            out.put(seal);
        }
    }
}

// The seals of the signers, each at its signer's number, from where they stand by rising number.
fn seals_in(set: u16, bytes: &[u8]) -> [[u8; 16]; 16]
    requires { 16 * count_ones set ≤ length bytes.now }
    ensures { result ≡ seals_in set bytes.now }
{
    let mut seals = [[0; 16]; 16];
    let (parts, _) = bytes.as_chunks::<16>();
    let mut parts = parts.iter();
    for (i, seal) in seals.iter_mut().enumerate() {
        if has(set, i)
            && let Some(part) = parts.next()
        {
            *seal = *part;
        }
    }
    seals
}

impl Signers {
    // No console.
    // Stays: it is named for what it is in the format; a derived `default` would say only that its fields are zeros.
    pub fn none() -> Signers
        ensures { result ≡ no_signers }
    {
        Signers {
            set: 0,
            seals: [[0; 16]; 16],
        }
    }

    // Whether the console has signed; none has a number above 15.
    pub fn has(&self, console: u8) -> bool
        ensures { result ≡ signed self.now.set console }
    {
        let set = self.set;
        console < 16 && has(set, console as usize)
    }
}

impl Certificate {
    // The certificate of the origin: it has no signers.
    // Stays: it is named for what it is in the format; a derived `default` would say only that its fields are zeros.
    pub fn origin() -> Certificate
        ensures { result ≡ origin_certificate }
    {
        Certificate {
            block: Key::origin(),
            signers: Signers::none(),
        }
    }

    // How many bytes the certificate takes.
    pub(crate) fn size(&self) -> usize
        ensures bytes { result ≡ length (certificate_bytes self.now) }
        ensures signers { result ≡ 40 + 16 * count_ones self.now.signers.set }
        ensures most { result ≤ 296 }
    {
        4 + self.block.size() + seals_size(self.signers.set, &self.signers.seals)
    }

    // Writes the certificate.
    pub(crate) fn put(&self, out: &mut Writer<'_>)
        requires { HasRoom (40 + 16 * count_ones self.now.signers.set) out.old }
        ensures ends { out.new.at ≡ out.old.at + (40 + 16 * count_ones self.now.signers.set) }
        ensures wrote { Puts (certificate_bytes self.now) out.old out.new }
    {
        out.put(b"CT");
        self.block.put(out);
        out.put(&self.signers.set.to_be_bytes());
        put_seals(out, self.signers.set, &self.signers.seals);
    }

    // Writes the certificate at the start of `out` and answers its length, unless there is too little room.
    pub fn write(&self, out: &mut [u8]) -> Option<usize>
        ensures { Written (certificate_bytes self.now) out.old result out.new }
    {
        if out.len() < self.size() {
            return None;
        }
        let mut writer = Writer::over(out);
        self.put(&mut writer);
        Some(writer.len())
    }

    // The certificate in these bytes, which are as many as its number of signers gives.
    // Stays: `From` could not ask that the bytes are as many as their signers need.
    pub(crate) fn read(bytes: &[u8]) -> Certificate
        requires { length bytes.now ≡ certificate_length bytes.now }
        ensures { result ≡ certificate_in bytes.now }
    {
        let set = u16::from_be_bytes(array_at(bytes, 38));
        let seals = seals_in(set, &bytes[40..bytes.len()]);
        Certificate {
            block: key_at(bytes, 2),
            signers: Signers { set, seals },
        }
    }

    // Whether the signers are below n, and the block of view 0 is the origin, without signers.
    pub(crate) fn stands(&self, n: u8) -> bool
        ensures { result ≡ certificate_stands n self.now }
    {
        below(self.signers.set, n)
            && (self.block.view != 0 || (self.block == Key::origin() && self.signers.set == 0))
    }
}

// Whether every console in the set is below n.
fn below(set: u16, n: u8) -> bool
    ensures { result ≡ nat_lt set (2 ^ n) }
{
    n >= 16 || set >> n == 0
}
