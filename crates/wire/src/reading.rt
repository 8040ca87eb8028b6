// A datagram told apart, with the places of its parts.
ghost use Rattle.std.specs.Prelude.{◌≡◌, ◌+◌, ◌^◌, ◌<◌, ◌≤◌, ◌&&◌, length, take, drop, codes};
ghost use Rattle.wire.specs.Bytes.{number};
ghost use Rattle.wire.specs.Parts.{Lengths, Parted, StandsAt, outcome};
ghost use Rattle.wire.specs.Read.{body_in, body_length, certificate_in, certificate_length, marked, read, read_proposal, read_vote};

use crate::body::Body;
use crate::certificate::{Certificate, count};
use crate::fields::{array_at, key_at};
use crate::message::{Proposal, Vote};
use crate::unreadable::Unreadable;

// Bytes of the datagram, with the place where they begin.
#[derive(Clone, Copy)]
pub struct Part<'a> {
    pub offset: usize,
    pub bytes: &'a [u8],
}

// A message with the parts of the datagram that it was read from.
#[derive(Clone, Copy)]
pub enum Reading<'a> {
    Proposal {
        body: Part<'a>,
        certificate: Part<'a>,
        seal: Part<'a>,
        value: Proposal,
    },
    Vote {
        seal: Part<'a>,
        value: Vote,
    },
}

// How many bytes a proposal's body and certificate take.
#[derive(Clone, Copy)]
struct Sizes {
    body: usize,
    certificate: usize,
}

// The parts of a proposal after its mark.
#[derive(Clone, Copy)]
struct Parts<'a> {
    body: Part<'a>,
    certificate: Part<'a>,
    seal: Part<'a>,
}

// What is left of a datagram, and the place where that begins.
#[derive(Clone, Copy)]
struct Reader<'a> {
    rest: &'a [u8],
    at: usize,
}

impl<'a> Reader<'a> {
    // Hands out the next `len` bytes and goes past them.
    fn next(&mut self, len: usize) -> Part<'a>
        requires enough { len ≤ length self.old.rest.now }
        requires fits { self.old.at + len < 2 ^ 64 }
        ensures offset { result.offset ≡ self.old.at }
        ensures bytes { result.bytes.now ≡ take len self.old.rest.now }
        ensures length { length result.bytes.now ≡ len }
        ensures at { self.new.at ≡ self.old.at + len }
        ensures left { length self.new.rest.now + len ≡ length self.old.rest.now }
        ensures rest { self.new.rest.now ≡ drop len self.old.rest.now }
    {
        let rest = self.rest;
        let part = Part {
            offset: self.at,
            bytes: &rest[0..len],
        };
        self.rest = &rest[len..rest.len()];
        self.at += len;
        part
    }
}

// The lengths of body and certificate, if the bytes after a proposal's mark are as many as its counts give.
fn lengths(bytes: &[u8]) -> Result<Sizes, Unreadable>
    ensures { Lengths bytes.now result }
{
    if bytes.len() < 43 {
        return Err(Unreadable::Length);
    }
    let orders = bytes[42] as usize;
    if orders > 8 {
        return Err(Unreadable::Length);
    }
    let body = 43 + 8 * orders;
    if bytes.len() < body + 40 {
        return Err(Unreadable::Length);
    }
    let past = &bytes[body..bytes.len()];
    let certificate = 40 + 16 * count(u16::from_be_bytes(array_at(past, 38)));
    if past.len() != certificate + 16 {
        return Err(Unreadable::Length);
    }
    Ok(Sizes { body, certificate })
}

// Body, certificate and seal, one after another, of a proposal whose mark has been read.
fn split(bytes: &[u8], sizes: Sizes) -> Parts<'_>
    requires whole { length bytes.now ≡ sizes.body + sizes.certificate + 16 }
    requires fits { sizes.body + sizes.certificate < 1000 }
    ensures body { StandsAt 2 (take sizes.body bytes.now) result.body }
    ensures certificate { StandsAt (2 + sizes.body) (take sizes.certificate (drop sizes.body bytes.now)) result.certificate }
    ensures seal { StandsAt (2 + sizes.body + sizes.certificate) (drop sizes.certificate (drop sizes.body bytes.now)) result.seal }
{
    let mut reader = Reader { rest: bytes, at: 2 };
    let body = reader.next(sizes.body);
    let certificate = reader.next(sizes.certificate);
    let seal = reader.next(16);
    Parts {
        body,
        certificate,
        seal,
    }
}

impl Parts<'_> {
    // The proposal in its three parts.
    fn decode(&self) -> Proposal
        requires few { number 42 1 self.now.body.bytes.now ≤ 8 }
        requires body { length self.now.body.bytes.now ≡ body_length self.now.body.bytes.now }
        requires certificate { length self.now.certificate.bytes.now ≡ certificate_length self.now.certificate.bytes.now }
        requires seal { length self.now.seal.bytes.now ≡ 16 }
        ensures body { result.body ≡ body_in self.now.body.bytes.now }
        ensures certificate { result.certificate ≡ certificate_in self.now.certificate.bytes.now }
        ensures seal { result.seal ≡ self.now.seal.bytes.now }
    {
        Proposal {
            body: Body::read(self.body.bytes),
            certificate: Certificate::read(self.certificate.bytes),
            seal: array_at(self.seal.bytes, 0),
        }
    }

    // Whether body and certificate open with their marks.
    fn are_marked(&self) -> bool
        ensures { result ≡ (marked (codes "BD") self.now.body.bytes.now && marked (codes "CT") self.now.certificate.bytes.now) }
    {
        self.body.bytes.starts_with(b"BD") && self.certificate.bytes.starts_with(b"CT")
    }
}

// The proposal in the bytes after its mark.
fn read_proposal(n: u8, bytes: &[u8]) -> Result<Reading<'_>, Unreadable>
    ensures message { outcome result ≡ read_proposal n bytes.now }
    ensures parts { Parted bytes.now result }
{
    let sizes = lengths(bytes)?;
    let parts = split(bytes, sizes);
    let value = parts.decode();
    if !parts.are_marked() {
        return Err(Unreadable::Form);
    }
    if !value.stands(n) {
        return Err(Unreadable::Form);
    }
    Ok(Reading::Proposal {
        body: parts.body,
        certificate: parts.certificate,
        seal: parts.seal,
        value,
    })
}

// The vote in the bytes after its mark.
fn read_vote(n: u8, bytes: &[u8]) -> Result<Reading<'_>, Unreadable>
    ensures message { outcome result ≡ read_vote n bytes.now }
    ensures parts { Parted bytes.now result }
{
    if bytes.len() != 53 {
        return Err(Unreadable::Length);
    }
    let block = key_at(bytes, 0);
    let voter = bytes[36];
    let seal = Reader {
        rest: &bytes[37..53],
        at: 39,
    }
    .next(16);
    let value = Vote {
        block,
        voter,
        seal: array_at(seal.bytes, 0),
    };
    if value.stands(n) {
        Ok(Reading::Vote { seal, value })
    } else {
        Err(Unreadable::Form)
    }
}

// The message in a datagram, in a pit of n consoles, or the first ground to refuse it.
// Stays: `TryFrom` takes no number of consoles beside the bytes.
pub fn read(n: u8, datagram: &[u8]) -> Result<Reading<'_>, Unreadable>
    ensures message { outcome result ≡ read n datagram.now }
    ensures parts { Parted (drop 2 datagram.now) result }
{
    match datagram {
        [b'P', b'R', rest @ ..] => read_proposal(n, rest),
        [b'V', b'T', rest @ ..] => read_vote(n, rest),
        _ => Err(Unreadable::Mark),
    }
}
