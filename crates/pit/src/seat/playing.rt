ghost use Rattle.std.specs.Prelude.{◌≡◌, length, Some, string_bytes, OnOk};
ghost use Rattle.host.specs.Kinds.{World, either_rule, keys_of, world_of};
ghost use Rattle.console.specs.Answered.{reply_answer, reply_handed};
ghost use Rattle.console.specs.Lines.{Advances};
ghost use Rattle.console.specs.Requested.{full_call_of, keys_from, world_from};
ghost use Rattle.pit.specs.Seats.{Plays, seat_keys, seat_world, state_of, turn_kept};

use super::Seat;
use crate::replies::Told;
use console::answers::{Reply, Ticked};
use console::console::Console;
use console::request::FullRequest;
use console::turn::Turn;
use host::board::EitherBoard;
use host::seals::EitherSeals;
use parts::store::image::Image;
use std::alloc::AllocError;

impl Seat {
    // Enters one line: makes the call over the console's own shelf.
    fn enter(&mut self, request: FullRequest<'_, EitherSeals, EitherBoard>, out: &mut [u8]) -> Reply
        ensures advances { Advances either_rule (keys_from keys_of request.entry self.old.console.seals) (state_of self.old) (full_call_of request.entry (length self.old.shelf.items) (length out.old)) (world_from world_of request.entry self.old.console.board) out.old (record { answer = reply_answer result; state = state_of self.new; handed = reply_handed result; world = seat_world self.new; output = out.new }) }
        ensures keys { seat_keys self.new ≡ keys_from keys_of request.entry self.old.console.seals }
    {
        self.console
            .enter_with(self.shelf.as_mut_slice(), request, out)
    }

    // Holds the turn; an older one is passed.
    fn hold(&mut self, turn: Turn)
        ensures console { self.new.console ≡ self.old.console }
        ensures shelf { self.new.shelf ≡ self.old.shelf }
        ensures turn { self.new.turn ≡ Some turn }
    {
        if let Some(old) = self.turn.replace(turn) {
            old.pass();
        }
    }

    // Lets go of an answer, but for a turn in it, which is held.
    fn keep(&mut self, reply: Reply)
        ensures console { self.new.console ≡ self.old.console }
        ensures shelf { self.new.shelf ≡ self.old.shelf }
        ensures turn { self.new.turn ≡ turn_kept reply self.old.turn }
    {
        match reply {
            Reply::Ticked(Ok(Ticked::Turn(turn))) => self.hold(turn),
            // Stays: an arm for each, since one pattern for all three would let a tick go, in which a turn may be.
            Reply::Ticked(Ok(Ticked::Vote(_, _))) => {}
            Reply::Ticked(Ok(Ticked::Nothing)) => {}
            Reply::Ticked(Err(_)) => {}
            Reply::Opened | Reply::Proposed(_) | Reply::Passed | Reply::Heard(_) => {}
        }
    }

    // Enters one line and adds its answer to the text; a turn that it answers is held.
    // Stays: the seat changes as the words are added, which nothing that is shown does.
    pub fn play(
        &mut self,
        text: &mut String,
        request: FullRequest<'_, EitherSeals, EitherBoard>,
        out: &mut [u8],
    ) -> Result<(), AllocError>
        ensures { OnOk result (Plays self.old request.entry out.old self.new (string_bytes text.old) (string_bytes text.new)) }
    {
        let reply = self.enter(request, out);
        let told = write!(text, "{}", Told { reply: &reply, out });
        self.keep(reply);
        told
    }
}
