// The answers of a console in words.
ghost use Rattle.std.specs.Prelude.{◌≡◌, [], Some};
ghost use Rattle.rules.specs.Step.{refused};
ghost use Rattle.text.specs.Hexadecimal.{hex_written};
ghost use Rattle.wire.specs.Format.{vote_bytes};
ghost use Rattle.console.specs.Answered.{reply_answer, reply_handed};
ghost use Rattle.pit.specs.Told.{answer_told, handed_told};

use console::answers::{Heard, Reply, Ticked};
use console::vote::SealedVote;
use rules::refusal::Refusal;
use std::fmt;
use text::hex::Hex;

// How many blocks a call handed over, as its answer ends.
#[derive(Clone, Copy)]
struct Handed(usize);

impl fmt::Display for Handed {
    ghost output = { λ h. Some (handed_told h.0) };

    fn fmt<W: fmt::Write>(&self, f: &mut fmt::Formatter<W>) -> fmt::Result {
        write!(f, "; {} handed over", self.0)
    }
}

// A refusal, shown by its number.
#[derive(Clone, Copy)]
pub struct Refused<'a>(pub &'a Refusal);

impl fmt::Display for Refused<'_> {
    ghost output = { λ r. Some (answer_told (refused r.0.now) 0 []) };

    fn fmt<W: fmt::Write>(&self, f: &mut fmt::Formatter<W>) -> fmt::Result {
        write!(f, "refused {}", self.0)
    }
}

// A vote message, shown by its bytes.
#[derive(Clone, Copy)]
struct VoteMessage<'a>(&'a SealedVote);

impl fmt::Display for VoteMessage<'_> {
    ghost output = { λ m. Some (hex_written (vote_bytes m.0.now.vote)) };

    fn fmt<W: fmt::Write>(&self, f: &mut fmt::Formatter<W>) -> fmt::Result {
        write!(f, "{}", Hex(&self.0.vote().bytes()))
    }
}

// The answer of a call, which left this output; a proposal stands at the output's start.
#[derive(Clone, Copy)]
pub struct Told<'a> {
    pub reply: &'a Reply,
    pub out: &'a [u8],
}

impl fmt::Display for Told<'_> {
    ghost output = { λ t. Some (answer_told (reply_answer t.reply.now) (reply_handed t.reply.now) t.out.now) };

    fn fmt<W: fmt::Write>(&self, f: &mut fmt::Formatter<W>) -> fmt::Result {
        match self.reply {
            Reply::Opened => f.write_str("opened"),
            Reply::Ticked(Ok(Ticked::Turn(turn))) => {
                write!(f, "turn {}{}", turn.view(), Handed(0))
            }
            Reply::Ticked(Ok(Ticked::Vote(vote, handed))) => {
                write!(f, "vote {}{}", VoteMessage(vote), Handed(*handed))
            }
            Reply::Ticked(Ok(Ticked::Nothing)) => write!(f, "nothing{}", Handed(0)),
            Reply::Proposed(Ok(proposed)) => {
                let message = &self.out[0..proposed.length.min(self.out.len())];
                write!(f, "proposal {}{}", Hex(message), Handed(proposed.handed))
            }
            Reply::Passed => f.write_str("passed"),
            Reply::Heard(Ok(Heard::New(handed))) => write!(f, "new{}", Handed(*handed)),
            Reply::Heard(Ok(Heard::Known)) => write!(f, "known{}", Handed(0)),
            Reply::Ticked(Err(refusal))
            | Reply::Proposed(Err(refusal))
            | Reply::Heard(Err(refusal)) => write!(f, "{}", Refused(refusal)),
        }
    }
}
