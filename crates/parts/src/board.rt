ghost use Rattle.std.specs.Prelude.{◌≡◌, Bool};
ghost use Rattle.parts.specs.Fed.{fed};
ghost use Rattle.wire.specs.declared.order.Order.{Order};

use wire::order::Order;

// A board by its state, which each order moves by the board's own rule. Every order is taken, ill-formed ones
// too, which have no effect.
pub trait Board {
    // the kind of state
    ghost World: { Type 0 };

    // the state that a board is in
    ghost world: { Self → World };

    // the state after one order
    ghost rule: { World → Order → World };

    // whether an order has an effect
    ghost effect: { World → Order → Bool };

    // Takes one order, and answers yes if it had an effect.
    fn take(&mut self, order: &Order) -> bool
        ensures answer { result ≡ effect (world self.old) order.now }
        ensures after { world self.new ≡ rule (world self.old) order.now };
}

// Takes orders in sequence.
pub fn take_all<B: Board>(board: &mut B, orders: &[Order])
    ensures { B.Board.world board.new ≡ fed B.Board.rule (B.Board.world board.old) orders.now }
{
    for order in orders {
        board.take(order);
    }
}
