// The lines of a pit.
use boards::tonnage::Tonnage;
use commands::command::SealKind;
use console::permit::granting::permit;
use console::request::{FullRequest, Request};
use host::board::EitherBoard;
use host::table::assignment_table;
use pit::pit::Pit;
use pit::replies::Refused;
use pit::seat::Seat;
use pit::trouble::Trouble;
use rules::refusal::Refusal;
use script::command::NewBoard;
use std::alloc::{AllocError, Global};
use telling::board_words::{Tonnes, TruckLines};
use text::hex::Hex;
use wire::order::Order;

// The size of a pit, unless there is none of that size.
fn size(n: u32) -> Result<u8, Refusal> {
    let n = u8::try_from(n).map_err(|_| Refusal::PitSize)?;
    permit(n, 0)?;
    Ok(n)
}

// A new pit, unless it is refused.
// Stays: a new pit asks for memory as its words are added, which nothing that is shown does.
pub(crate) fn pit(
    text: &mut String,
    alloc: Global,
    n: u32,
    seals: SealKind,
) -> Result<Option<Pit>, Trouble> {
    write!(text, "pit: ")?;
    let n = match size(n) {
        Ok(n) => n,
        Err(refusal) => {
            writeln!(text, "{}", Refused(&refusal))?;
            return Ok(None);
        }
    };
    let keys = match seals {
        SealKind::Keyed => Some([[0; 32]; 16]),
        SealKind::Stamp => None,
    };
    let pit = Pit::new(alloc, n, keys)?;
    writeln!(text, "{n} consoles, quorum {}", pit.quorum())?;
    Ok(Some(pit))
}

// The board that a line names.
fn made(alloc: Global, board: NewBoard) -> Result<EitherBoard, AllocError> {
    match board {
        NewBoard::Assignment { lines, limit } => {
            Ok(EitherBoard::Assignment(assignment_table(alloc, lines, limit)?))
        }
        NewBoard::Tonnage => Ok(EitherBoard::Tonnage(Tonnage::new())),
    }
}

// What a line of a pit is played on: the pit that stands, and the text that its answer is added to.
#[derive(Drop)]
// Stays: each line of a pit adds to the text as the pit changes, which nothing that is shown does.
pub(crate) struct Lines<'a> {
    pub(crate) pit: &'a mut Pit,
    pub(crate) text: &'a mut String,
}

impl<'a> Lines<'a> {
    pub(crate) fn key(&mut self, i: u8, key: [u8; 32]) -> Result<(), Trouble> {
        self.pit.set_key(i, key)?;
        Ok(writeln!(self.text, "key {i}: held")?)
    }

    pub(crate) fn open(
        &mut self,
        alloc: Global,
        i: u8,
        slots: u16,
        board: NewBoard,
    ) -> Result<(), Trouble> {
        let board = made(alloc, board)?;
        write!(self.text, "open {i}: ")?;
        self.pit.open(self.text, alloc, i, slots, board)?;
        Ok(writeln!(self.text, "")?)
    }

    pub(crate) fn tick(&mut self, i: u8, t: u32) -> Result<(), Trouble> {
        write!(self.text, "tick {i} {t}: ")?;
        self.pit.play(self.text, i, FullRequest::Plain(Request::Tick(t)), &mut [])?;
        Ok(writeln!(self.text, "")?)
    }

    // Proposes at console i by the turn that is held for console j.
    pub(crate) fn propose(
        &mut self,
        alloc: Global,
        i: u8,
        j: u8,
        space: u16,
        orders: &[Order],
    ) -> Result<(), Trouble> {
        let mut out = vec![in alloc; 0u8; space as usize]?;
        write!(self.text, "propose {i}: ")?;
        self.pit
            .propose(self.text, i, j, orders, out.as_mut_slice())?;
        Ok(writeln!(self.text, "")?)
    }

    pub(crate) fn pass(&mut self, j: u8) -> Result<(), Trouble> {
        write!(self.text, "pass {j}: ")?;
        self.pit.pass(self.text, j)?;
        Ok(writeln!(self.text, "")?)
    }

    pub(crate) fn hear(&mut self, i: u8, bytes: &[u8]) -> Result<(), Trouble> {
        write!(self.text, "hear {i}: ")?;
        self.pit.play(
            self.text,
            i,
            FullRequest::Plain(Request::Hear(bytes)),
            &mut [],
        )?;
        Ok(writeln!(self.text, "")?)
    }

    pub(crate) fn shelf(&mut self, alloc: Global, i: u8, slots: u16) -> Result<(), Trouble> {
        self.pit.lend(alloc, i, slots)?;
        Ok(writeln!(self.text, "shelf {i}: {slots} slots")?)
    }

    pub(crate) fn look(&mut self, i: u8) -> Result<(), Trouble> {
        let seat = self.pit.seat(i).ok_or(Trouble::NotOpen)?;
        let look = seat.look();
        writeln!(
            self.text,
            "look {i}: tick {}, lock {}, head {} {}, count {}",
            look.tick,
            look.lock,
            look.head.view,
            Hex(&look.head.name),
            look.count
        )?;
        Ok(())
    }

    pub(crate) fn store(&mut self, i: u8) -> Result<(), Trouble> {
        let seat = self.pit.seat(i).ok_or(Trouble::NotOpen)?;
        let image = seat.store();
        Ok(writeln!(self.text, "store {i}: {}", Hex(&image))?)
    }

    pub(crate) fn board(&mut self, i: u8) -> Result<(), Trouble> {
        let seat = self.pit.seat(i).ok_or(Trouble::NotOpen)?;
        write!(self.text, "board {i}: ")?;
        match seat.board() {
            EitherBoard::Assignment(table) => writeln!(self.text, "{}", TruckLines(table.lines()))?,
            EitherBoard::Tonnage(board) => writeln!(self.text, "{}", Tonnes(board))?,
        }
        Ok(())
    }
}
