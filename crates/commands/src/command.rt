// What the lines of a sheet ask.
use script::command::{Command as PlainCommand, NewBoard};
use wire::order::Order;

// Which seals the consoles of a pit have.
#[derive(Clone, Copy)]
pub enum SealKind {
    Stamp,
    Keyed,
}

// What a line asks of the clerk.
#[derive(Drop)]
pub enum Command {
    // what needs no pit
    Plain(PlainCommand),
    OfPit(PitCommand),
}

// What a line asks of a pit.
#[derive(Drop)]
pub enum PitCommand {
    // a pit of n consoles
    Pit {
        n: u32,
        seals: SealKind,
    },
    Key {
        console: u8,
        key: [u8; 32],
    },
    // a console over a new board and a shelf of so many empty slots
    Open {
        console: u8,
        slots: u16,
        board: NewBoard,
    },
    Tick {
        console: u8,
        t: u32,
    },
    // the orders, proposed at a console by the turn that is held for another, with room for so many bytes
    Propose {
        console: u8,
        turn: u8,
        space: u16,
        orders: Vec<Order>,
    },
    Pass {
        turn: u8,
    },
    Hear {
        console: u8,
        bytes: Vec<u8>,
    },
    Shelf {
        console: u8,
        slots: u16,
    },
    Look {
        console: u8,
    },
    Store {
        console: u8,
    },
    Board {
        console: u8,
    },
}
