ghost use Rattle.std.specs.Prelude.{◌≡◌, ◌+◌, ◌<◌, ◌≤◌, length, if◌then◌else◌, None};
ghost use Rattle.std.specs.Option.{option_map};
ghost use Rattle.parts.specs.Fed.{fed};
ghost use Rattle.rules.specs.Settle.{line, parent_of, reaches};
ghost use Rattle.sheets.specs.Sheet.{all_orders};
ghost use Rattle.wire.specs.Format.{same_key};

use crate::branches::Branches;
use crate::slot::find;
use parts::board::{Board, take_all};
use rules::block::Block;

impl<'a> Branches<'a> {
    // The held parent of a block, which has to be of lower view.
    fn parent(&self, block: &Block) -> Option<&'a Block>
        ensures { option_map (λ x. x.now) result ≡ parent_of self.now.shelf.now block.now }
    {
        if block.body.parent.view >= block.body.view {
            return None;
        }
        let at = find(self.shelf, &block.body.parent)?;
        self.shelf[at].as_ref()
    }

    // Whether the line of held parents reaches the head.
    // Stays: the loop goes from a block to its parent, wherever on the shelf that is, and no iterator does.
    pub(crate) fn reaches_head(&self, block: &'a Block) -> bool
        ensures { result ≡ reaches self.now.shelf.now self.now.head block.now }
    {
        let mut at = block;
        while at.body.parent != self.head {
            let Some(older) = self.parent(at) else {
                return false;
            };
            at = older;
        }
        true
    }

    // The held block before this one on its line; the first after the head has none.
    fn before(&self, block: &Block) -> Option<&'a Block>
        ensures { option_map (λ x. x.now) result ≡ (if same_key block.now.body.parent self.now.head then None else parent_of self.now.shelf.now block.now) }
    {
        if block.body.parent == self.head {
            None
        } else {
            self.parent(block)
        }
    }

    // Gives the board the orders of the blocks after the head up to this one, the oldest first, and answers how many
    // blocks these are. Views fall along the line, so that it is no deeper than the shelf has slots.
    pub(crate) fn hand_over<B: Board>(&self, block: &Block, board: &mut B) -> usize
        requires { block.now.body.view < 4294967296 }
        ensures number { result ≡ length (line self.now.shelf.now self.now.head block.now) }
        ensures fits { result ≤ block.now.body.view + 1 }
        ensures after { B.Board.world board.new ≡ fed B.Board.rule (B.Board.world board.old) (all_orders (line self.now.shelf.now self.now.head block.now)) }
    {
        let older = match self.before(block) {
            Some(before) => self.hand_over(before, board),
            None => 0,
        };
        take_all(board, block.body.orders.as_slice());
        older + 1
    }
}
