ghost use Rattle.std.specs.Prelude.{◌≡◌};
ghost use Rattle.host.specs.Kinds.{World, either_effect, either_rule, world_of};

use crate::table::AssignmentTable;
use boards::tonnage::Tonnage;
use parts::board::Board;
use wire::order::Order;

// An assignment board or a tonnage board.
// Stays: each board has a world of its own kind, and a box would not say which, where the enum gives their sum.
#[derive(Drop)]
pub enum EitherBoard {
    Assignment(AssignmentTable),
    Tonnage(Tonnage),
}

impl Board for EitherBoard {
    ghost World = { World };

    ghost world = { world_of };

    ghost rule = { either_rule };

    ghost effect = { either_effect };

    fn take(&mut self, order: &Order) -> bool {
        match self {
            EitherBoard::Assignment(board) => board.take(order),
            EitherBoard::Tonnage(board) => board.take(order),
        }
    }
}
