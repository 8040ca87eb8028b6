// What a new board makes of orders.
ghost use Rattle.std.specs.Prelude.{◌≡◌, ◌++◌, Some, codes, OnOk};
ghost use Rattle.parts.specs.Fed.{fed};
ghost use Rattle.script.specs.declared.command.NewBoard.TheVariants as fresh;
ghost use Rattle.telling.specs.Adds.{Adds};
ghost use Rattle.telling.specs.Shown.{assignment_told};
ghost use Rattle.telling.specs.Tries.{effect_told, effects_told, taken_told, told_effects, trial_told};

use crate::board_words::{Tonnes, TruckLines};
use boards::assignment::board::Assignment;
use boards::assignment::line::Line;
use boards::tonnage::Tonnage;
use parts::board::Board;
use rules::refusal::Refusal;
use script::command::NewBoard;
use std::alloc::{AllocError, Global};
use std::fmt;
use wire::order::Order;
use wire::orders::well_formed;

// Whether an order had an effect, after a space.
#[derive(Clone, Copy)]
struct Effect(bool);

impl fmt::Display for Effect {
    ghost output = { λ e. Some (effect_told e.0) };

    fn fmt<W: fmt::Write>(&self, f: &mut fmt::Formatter<W>) -> fmt::Result {
        f.write_str(if self.0 { " yes" } else { " no" })
    }
}

// The board takes the orders; whether each had an effect is added to the text.
// Stays: this and what follows add to a text while a board changes or memory is asked for, which nothing that is shown does.
fn take_each<B: Board>(text: &mut String, board: &mut B, orders: &[Order]) -> Result<(), AllocError>
    ensures effects { Adds text.old result (effects_told B.Board.rule B.Board.effect (B.Board.world board.old) orders.now) text.new }
    ensures board { OnOk result (B.Board.world board.new ≡ fed B.Board.rule (B.Board.world board.old) orders.now) }
{
    for order in orders {
        let effect = board.take(order);
        write!(text, "{}", Effect(effect))?;
    }
    Ok(())
}

// The same, with `-` where there are no orders.
fn write_effects<B: Board>(
    text: &mut String,
    board: &mut B,
    orders: &[Order],
) -> Result<(), AllocError>
    ensures effects { Adds text.old result (told_effects B.Board.rule B.Board.effect (B.Board.world board.old) orders.now) text.new }
    ensures board { OnOk result (B.Board.world board.new ≡ fed B.Board.rule (B.Board.world board.old) orders.now) }
{
    if orders.is_empty() {
        write!(text, " -")
    } else {
        take_each(text, board, orders)
    }
}

// Adds an assignment board after the effects.
// Stays: the lines that a board lends, shown where they are lent, were tried; the check makes no goal of it.
fn write_lines(text: &mut String, lines: &[Option<Line>]) -> Result<(), AllocError>
    ensures { Adds text.old result (codes "; " ++ assignment_told lines.now) text.new }
{
    write!(text, "; {}", TruckLines(lines))
}

fn try_assignment(
    text: &mut String,
    alloc: Global,
    lines: u16,
    limit: u16,
    orders: &[Order],
) -> Result<(), AllocError>
    ensures { Adds text.old result (taken_told (fresh.Assignment lines limit) orders.now) text.new }
{
    let mut table = vec![in alloc; None; lines as usize]?;
    let mut board = Assignment::new(table.as_mut_slice(), limit);
    write_effects(text, &mut board, orders)?;
    write_lines(text, board.lines())
}

fn try_tonnage(text: &mut String, orders: &[Order]) -> Result<(), AllocError>
    ensures { Adds text.old result (taken_told fresh.Tonnage orders.now) text.new }
{
    let mut board = Tonnage::new();
    write_effects(text, &mut board, orders)?;
    write!(text, "; {}", Tonnes(&board))
}

// Adds what a new board makes of the orders.
pub fn write_trial(
    text: &mut String,
    alloc: Global,
    board: NewBoard,
    orders: &[Order],
) -> Result<(), AllocError>
    ensures { Adds text.old result (trial_told board orders.now) text.new }
{
    if orders.len() > 8 || !well_formed(orders) {
        return write!(text, " refused {}", Refusal::BadOrders);
    }
    match board {
        NewBoard::Assignment { lines, limit } => try_assignment(text, alloc, lines, limit, orders),
        NewBoard::Tonnage => try_tonnage(text, orders),
    }
}
