ghost use Rattle.std.specs.Prelude.{◌≡◌, ◌+◌, ◌*◌, ◌≤◌, length, count_ones};
ghost use Rattle.wire.specs.Format.{orders_of, proposal_bytes, vote_bytes};
ghost use Rattle.wire.specs.Parts.{message_of};
ghost use Rattle.wire.specs.Read.{proposal_stands, vote_stands};
ghost use Rattle.wire.specs.Written.{Written};

use crate::body::Body;
use crate::certificate::Certificate;
use crate::key::Key;
use crate::put::Writer;
use crate::reading::Reading;

// A body with a certificate for its parent and the leader's seal.
#[derive(Clone, Copy)]
pub struct Proposal {
    pub body: Body,
    pub certificate: Certificate,
    pub seal: [u8; 16],
}

// One console's vote for a block.
#[derive(Clone, Copy)]
pub struct Vote {
    pub block: Key,
    pub voter: u8,
    pub seal: [u8; 16],
}

#[derive(Clone, Copy)]
pub enum Message {
    Proposal(Proposal),
    Vote(Vote),
}

// The message that was read, without its parts.
impl From<Reading<'_>> for Message {
    ghost from_gives = { λ reading message. message ≡ message_of reading };

    fn from(reading: Reading<'_>) -> Message {
        match reading {
            Reading::Proposal { value, .. } => Message::Proposal(value),
            Reading::Vote { value, .. } => Message::Vote(value),
        }
    }
}

impl Proposal {
    // The length of the longest proposal.
    pub const LONGEST: usize = 421;

    // How many bytes the proposal takes.
    pub fn size(&self) -> usize
        ensures bytes { result ≡ length (proposal_bytes self.now) }
        ensures counts { result ≡ 101 + 8 * length (orders_of self.now.body.orders) + 16 * count_ones self.now.certificate.signers.set }
        ensures most { result ≤ 421 }
    {
        let seal: &[u8] = &self.seal;
        2 + self.body.size() + self.certificate.size() + seal.len()
    }

    // Writes the proposal at the start of `out` and answers its length, unless there is too little room.
    pub fn write(&self, out: &mut [u8]) -> Option<usize>
        ensures { Written (proposal_bytes self.now) out.old result out.new }
    {
        if out.len() < self.size() {
            return None;
        }
        let mut writer = Writer::over(out);
        writer.put(b"PR");
        self.body.put(&mut writer);
        self.certificate.put(&mut writer);
        writer.put(&self.seal);
        Some(writer.len())
    }

    // Whether body and certificate are well-formed and the certificate is the parent's.
    pub(crate) fn stands(&self, n: u8) -> bool
        ensures { result ≡ proposal_stands n self.now }
    {
        self.body.stands()
            && self.certificate.stands(n)
            && self.certificate.block == self.body.parent
    }
}

impl Vote {
    // Whether the view is not 0 and the voter is below n.
    pub(crate) fn stands(&self, n: u8) -> bool
        ensures { result ≡ vote_stands n self.now }
    {
        1 <= self.block.view && self.voter < n
    }

    // The length of a vote.
    pub const LENGTH: usize = 55;

    // The vote's bytes.
    pub fn bytes(&self) -> [u8; 55]
        ensures { result ≡ vote_bytes self.now }
    {
        let mut bytes = [0; 55];
        let mut writer = Writer::over(&mut bytes);
        writer.put(b"VT");
        self.block.put(&mut writer);
        writer.put(&self.voter.to_be_bytes());
        writer.put(&self.seal);
        bytes
    }

    // Writes the vote at the start of `out` and answers its length, unless there is too little room.
    pub fn write(&self, out: &mut [u8]) -> Option<usize>
        ensures { Written (vote_bytes self.now) out.old result out.new }
    {
        let bytes = self.bytes();
        if out.len() < bytes.len() {
            return None;
        }
        out[0..bytes.len()].copy_from_slice(&bytes);
        Some(bytes.len())
    }
}
