ghost use Rattle.std.specs.Prelude.{◌≡◌, ◌-◌, replicate, IfOk, IsOk, IsSome, None, vec_items, string_bytes, OnOk, ◌↔◌};
ghost use Rattle.std.specs.Option.{option_map};
ghost use Rattle.votes.specs.Quorum.{spare};
ghost use Rattle.pit.specs.Pits.{LinePlayed, seat_at};

use crate::pit::Pit;
use crate::replies::Refused;
use crate::seat::Seat;
use crate::seat::holding::empty_shelf;
use crate::trouble::Trouble;
use console::permit::granting::permit;
use console::request::{FullRequest, Request};
use console::turn::Turn;
use host::board::EitherBoard;
use host::seals::EitherSeals;
use ledger::quorum::quorum_of;
use parts::seals::keyed::KeyedSeals;
use parts::seals::stamp::OpenStamp;
use std::alloc::{AllocError, Global};
use wire::order::Order;

// A request that comes to no console: a turn in it is passed.
fn spend(request: FullRequest<'_, EitherSeals, EitherBoard>) {
    match request {
        FullRequest::Plain(Request::Propose(turn, _) | Request::Pass(turn)) => turn.pass(),
        FullRequest::Plain(Request::Open | Request::Tick(_) | Request::Hear(_)) => {}
        FullRequest::OpenWith(_, _) => {}
    }
}

impl Pit {
    // A pit of n consoles, none of them open; they have keyed seals where there are keys, and else open stamps.
    pub fn new(alloc: Global, n: u8, keys: Option<[[u8; 32]; 16]>) -> Result<Pit, AllocError>
        ensures n { IfOk result (λ p. p.n ≡ n) }
        ensures keys { IfOk result (λ p. p.keys ≡ keys) }
        ensures seats { IfOk result (λ p. vec_items p.seats ≡ replicate n None) }
    {
        let mut seats = Vec::new(alloc);
        seats.resize_with(n as usize, || None)?;
        Ok(Pit { n, keys, seats })
    }

    // How many consoles there are.
    pub fn n(&self) -> u8
        ensures { result ≡ self.now.n }
    {
        self.n
    }

    // How many consoles make a quorum.
    pub fn quorum(&self) -> u8
        ensures { result ≡ self.now.n - spare self.now.n }
    {
        quorum_of(self.n)
    }

    // Sets the key of a number, which counts from the next opening of a console on.
    pub fn set_key(&mut self, number: u8, key: [u8; 32]) -> Result<(), Trouble>
        ensures n { self.new.n ≡ self.old.n }
        ensures seats { self.new.seats ≡ self.old.seats }
        ensures held { IsOk result ↔ IsSome self.old.keys }
    {
        let Some(keys) = &mut self.keys else {
            return Err(Trouble::NoKeys);
        };
        if let Some(slot) = keys.get_mut(number as usize) {
            *slot = key;
        }
        Ok(())
    }

    // The seals of a console, as the keys are now.
    fn seals(&self, own: u8) -> Option<EitherSeals> {
        match &self.keys {
            Some(keys) => Some(EitherSeals::Keyed(KeyedSeals::new(own, keys)?)),
            None => Some(EitherSeals::Stamp(OpenStamp::new(own)?)),
        }
    }

    // The seat of an open console, to be read.
    pub fn seat(&self, i: u8) -> Option<&Seat>
        ensures { option_map (λ x. x.now) result ≡ seat_at self.now i }
    {
        self.seats.get(i as usize)?.as_ref()
    }

    // The seat of an open console, to be changed.
    // Stays: one lends the seat to be read and one to be changed, which no one signature does.
    fn seat_mut(&mut self, i: u8) -> Option<&mut Seat>
        ensures { option_map (λ x. x.now) result ≡ seat_at self.old i }
    {
        self.seats.get_mut(i as usize)?.as_mut()
    }

    // Plays one line at an open console.
    pub fn play(
        &mut self,
        text: &mut String,
        i: u8,
        request: FullRequest<'_, EitherSeals, EitherBoard>,
        out: &mut [u8],
    ) -> Result<(), Trouble>
        ensures { OnOk result (LinePlayed self.old i request.entry out.old self.new (string_bytes text.old) (string_bytes text.new)) }
    {
        // Stays: not by `seat_mut`; that a lent seat is put back was not proved where no console is open.
        let Some(slot) = self.seats.get_mut(i as usize) else {
            spend(request);
            return Err(Trouble::NotOpen);
        };
        match slot {
            Some(seat) => {
                seat.play(text, request, out)?;
                Ok(())
            }
            None => {
                spend(request);
                Err(Trouble::NotOpen)
            }
        }
    }

    // Takes the turn that is held for a console, if there is one, to spend it.
    fn take_turn(&mut self, j: u8) -> Option<Turn> {
        self.seat_mut(j)?.take_turn()
    }

    // Opens a console over its own store, with a new board and a new shelf of so many slots, unless its number is not below n.
    // Stays: the text is the clerk's and the pit outlives it, so that a struct of both would be made anew for each line.
    pub fn open(
        &mut self,
        text: &mut String,
        alloc: Global,
        i: u8,
        slots: u16,
        board: EitherBoard,
    ) -> Result<(), Trouble> {
        let permit = match permit(self.n, i) {
            Ok(permit) => permit,
            Err(refusal) => {
                write!(text, "{}", Refused(&refusal))?;
                return Ok(());
            }
        };
        let seals = self.seals(i).ok_or(Trouble::NotOpen)?;
        let shelf = empty_shelf(alloc, slots)?;
        match self.seats.get_mut(i as usize) {
            Some(Some(seat)) => {
                seat.lend(shelf);
                seat.play(text, FullRequest::OpenWith(seals, board), &mut [])?;
            }
            Some(slot) => {
                *slot = Some(Seat::open(permit, seals, board, shelf));
                write!(text, "opened")?;
            }
            None => return Err(Trouble::NotOpen),
        }
        Ok(())
    }

    // Proposes at console i, spending the turn that is held for console j.
    pub fn propose(
        &mut self,
        text: &mut String,
        i: u8,
        j: u8,
        orders: &[Order],
        out: &mut [u8],
    ) -> Result<(), Trouble> {
        if self.seat(i).is_none() {
            return Err(Trouble::NotOpen);
        }
        let Some(turn) = self.take_turn(j) else {
            write!(text, "no turn held")?;
            return Ok(());
        };
        let request = FullRequest::Plain(Request::Propose(turn, orders));
        self.play(text, i, request, out)
    }

    // Passes the turn that is held for console j.
    pub fn pass(&mut self, text: &mut String, j: u8) -> Result<(), Trouble> {
        let Some(turn) = self.take_turn(j) else {
            write!(text, "no turn held")?;
            return Ok(());
        };
        let request = FullRequest::Plain(Request::Pass(turn));
        self.play(text, j, request, &mut [])
    }

    // Lends an open console a new shelf of so many empty slots.
    pub fn lend(&mut self, alloc: Global, i: u8, slots: u16) -> Result<(), Trouble> {
        let shelf = empty_shelf(alloc, slots)?;
        self.seat_mut(i).ok_or(Trouble::NotOpen)?.lend(shelf);
        Ok(())
    }
}
