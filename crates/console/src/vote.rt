ghost use Rattle.std.specs.Prelude.{◌≡◌, true, length};
ghost use Rattle.rules.specs.Hear.{votes_for};
ghost use Rattle.wire.specs.Format.{vote_bytes};
ghost use Rattle.wire.specs.Written.{Written};

use crate::statements::votes_for;
use parts::seals::Seals;
use parts::store::{Marks, Store};
use wire::key::Key;
use wire::message::Vote;

// A vote that has been recorded and not yet been made. It can only be spent.
pub struct Slip {
    block: Key,
}

// A vote message. It is made by spending a slip, and in no other way.
#[derive(Drop)]
pub struct SealedVote {
    vote: Vote,
}

// Records a vote: the store has the numbers that go with it before there is anything to send.
pub(crate) fn record_vote<T: Store>(store: &mut T, marks: Marks, block: &Key) -> Slip
    ensures slip { result.block ≡ block.now }
    ensures saved { T.Store.kept store.new ≡ marks }
{
    store.save(marks);
    Slip { block: *block }
}

impl Slip {
    // Spends the slip on the vote message, sealed.
    pub(crate) fn cast<S: Seals>(self, seals: &S, voter: u8) -> SealedVote
        ensures block { result.vote.block ≡ self.block }
        ensures voter { result.vote.voter ≡ voter }
        ensures accepted { (S.Seals.keys seals.now).table (S.Seals.keys seals.now).own (votes_for self.block) result.vote.seal ≡ true }
        ensures sixteen { length result.vote.seal ≡ 16 }
    {
        let Slip { block } = self;
        let seal = seals.seal(&votes_for(&block));
        SealedVote {
            vote: Vote { block, voter, seal },
        }
    }
}

impl SealedVote {
    // What the message says.
    pub fn vote(&self) -> Vote
        ensures { result ≡ self.now.vote }
    {
        self.vote
    }

    // Writes the message at the start of `out` and answers its length, unless there is too little room.
    pub fn write(&self, out: &mut [u8]) -> Option<usize>
        ensures { Written (vote_bytes self.now.vote) out.old result out.new }
    {
        self.vote.write(out)
    }
}
