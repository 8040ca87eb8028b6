ghost use Rattle.std.specs.Prelude.{◌≡◌, length};
ghost use Rattle.parts.specs.Fed.{fed};
ghost use Rattle.rules.specs.Settle.{settle};
ghost use Rattle.sheets.specs.Sheet.{all_orders};
ghost use Rattle.ledger.specs.Ledgers.{ledger_of};

use crate::branches::Branches;
use crate::progress::Progress;
use crate::slot::sweep;
use parts::board::Board;
use rules::block::Block;
use shelf::record::Keyed;

impl Progress {
    // Hands over what can be, up to the block of highest view, and answers how many blocks these were.
    pub fn settle<B: Board>(&mut self, n: u8, shelf: &mut [Option<Block>], board: &mut B) -> usize
        ensures number { result ≡ length (settle n (ledger_of self.old shelf.old)).handed }
        ensures ledger { ledger_of self.new shelf.new ≡ (settle n (ledger_of self.old shelf.old)).ledger }
        ensures after { B.Board.world board.new ≡ fed B.Board.rule (B.Board.world board.old) (all_orders (settle n (ledger_of self.old shelf.old)).handed) }
    {
        let branches = Branches {
            n,
            shelf: &*shelf,
            head: self.head,
        };
        if !branches.may_settle() {
            return 0;
        }
        let Some(block) = branches.best_ready() else {
            return 0;
        };
        let over = branches.hand_over(&block, board);
        sweep(shelf, block.body.view);
        self.head = block.key();
        self.count += over as u64;
        over
    }
}
