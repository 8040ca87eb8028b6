// Why the chains of sound consoles never part: see specs/ for the statements, proofs/ for the argument.
#![tactic(auto)]

ghost use Rattle.safety.specs.Agreement.{BoardsShow, ChainsAgree, ChainsCounted};

use parts::board::Board;

// Of the chains of two sound consoles of one sheet, after any of its lines, one begins with the other.
pub fn chains_of_a_sheet_agree()
    ensures agree { ChainsAgree }
    ensures counted { ChainsCounted }
{}

// A board of any kind is where its chain's orders bring it, each taken once and in sequence.
pub fn boards_show_their_chains<B: Board>()
    ensures { BoardsShow B.Board.World B.Board.rule }
{}
