// The promise over whole shifts, on one public call.
#![tactic(auto)]

ghost use Rattle.sheets.specs.Promise.{Promise};

use parts::board::Board;

// Of every pit and every sound sheet of it, for this kind of board: chains of sound consoles never part and are as long as
// look says, every board shows exactly its chain's orders, and a timely stretch hands its block over at every sound console.
pub fn promise<B: Board>()
    ensures { Promise B.Board.World B.Board.rule }
{}
