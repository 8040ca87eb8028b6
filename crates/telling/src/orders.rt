// Orders in words.
ghost use Rattle.std.specs.Prelude.{◌≡◌, map, Some, codes};
ghost use Rattle.std.specs.Fmt.{WritesOnOk};
ghost use Rattle.telling.specs.Lists.{led};
ghost use Rattle.telling.specs.Messages.{order_told, orders_told};

use std::fmt;
use wire::order::Order;

// One order that is shown in words.
#[derive(Clone, Copy)]
struct OneOrder<'a>(&'a Order);

impl fmt::Display for OneOrder<'_> {
    ghost output = { λ o. Some (order_told o.0.now) };

    fn fmt<W: fmt::Write>(&self, f: &mut fmt::Formatter<W>) -> fmt::Result {
        match *self.0 {
            Order::Send { truck, place } => write!(f, "SD {truck} {place}"),
            Order::Release { truck } => write!(f, "RL {truck}"),
            Order::Load {
                truck,
                place,
                amount,
            } => write!(f, "LD {truck} {place} {amount}"),
        }
    }
}

// Writes orders that follow another one.
fn write_more<W: fmt::Write>(f: &mut fmt::Formatter<W>, orders: &[Order]) -> fmt::Result
    ensures { WritesOnOk W.write_str_gives f.old result (led (codes ", ") (map order_told orders.now)) f.new }
{
    for order in orders {
        write!(f, ", {}", OneOrder(order))?;
    }
    Ok(())
}

// Orders that are shown in words, or as `-` where there are none.
#[derive(Clone, Copy)]
pub struct OrderList<'a>(pub &'a [Order]);

impl fmt::Display for OrderList<'_> {
    ghost output = { λ o. Some (orders_told o.0.now) };

    fn fmt<W: fmt::Write>(&self, f: &mut fmt::Formatter<W>) -> fmt::Result {
        match self.0 {
            [] => f.write_str("-"),
            [first, rest @ ..] => {
                write!(f, "{}", OneOrder(first))?;
                write_more(f, rest)
            }
        }
    }
}
