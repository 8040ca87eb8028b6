// The orders at the end of a line.
ghost use Rattle.std.specs.Prelude.{List, MatchResult};
ghost use Rattle.wire.specs.declared.order.Order.{Order};
ghost use Rattle.text.specs.Splitting.{fields_left};
ghost use Rattle.script.specs.Arguments.{Takes};
ghost use Rattle.script.specs.Faults.{Refutes};
ghost use Rattle.script.specs.OrderFields.{HasLast, HasSend, HasRelease, HasLoad, HasOrder, HasOrders};

use crate::arguments::{numeral, short};
use crate::fault::Fault;
use crate::marked::Marked;
use std::alloc::Global;
use text::fields::Fields;
use wire::order::Order;

// Takes an order's last number.
fn last<'a>(fields: &mut Fields<'a>) -> Result<Marked<u16>, Fault<'a>>
    ensures { Takes HasLast (fields_left fields.old) result (fields_left fields.new) }
{
    let field = fields.next()?;
    let cut = field.strip_suffix(b",");
    let value = numeral(cut.unwrap_or(field), u16::MAX)?;
    let more = cut.is_some();
    Ok(Marked { value, more })
}

fn send<'a>(fields: &mut Fields<'a>) -> Result<Marked<Order>, Fault<'a>>
    ensures { Takes HasSend (fields_left fields.old) result (fields_left fields.new) }
{
    let truck = short(fields)?;
    let place = last(fields)?;
    let value = Order::Send {
        truck,
        place: place.value,
    };
    let more = place.more;
    Ok(Marked { value, more })
}

fn release<'a>(fields: &mut Fields<'a>) -> Result<Marked<Order>, Fault<'a>>
    ensures { Takes HasRelease (fields_left fields.old) result (fields_left fields.new) }
{
    let truck = last(fields)?;
    let value = Order::Release { truck: truck.value };
    let more = truck.more;
    Ok(Marked { value, more })
}

fn load<'a>(fields: &mut Fields<'a>) -> Result<Marked<Order>, Fault<'a>>
    ensures { Takes HasLoad (fields_left fields.old) result (fields_left fields.new) }
{
    let truck = short(fields)?;
    let place = short(fields)?;
    let amount = last(fields)?;
    let value = Order::Load {
        truck,
        place,
        amount: amount.value,
    };
    let more = amount.more;
    Ok(Marked { value, more })
}

// Takes an order.
fn order<'a>(fields: &mut Fields<'a>) -> Result<Marked<Order>, Fault<'a>>
    ensures { Takes HasOrder (fields_left fields.old) result (fields_left fields.new) }
{
    match fields.next()? {
        b"SD" => send(fields),
        b"RL" => release(fields),
        b"LD" => load(fields),
        word => Err(Fault::UnknownWord(word)),
    }
}

// Takes the orders up to the end of the line.
pub fn orders<'a>(alloc: Global, mut fields: Fields<'a>) -> Result<Vec<Order>, Fault<'a>>
    ensures { MatchResult result (λ v. HasOrders (fields_left fields.entry) v.items) (λ e. Refutes e ((os : List Order) × HasOrders (fields_left fields.entry) os)) }
{
    let mut orders = Vec::new(alloc);
    let mut more = !fields.is_empty();
    // Stays: an order says itself whether another one follows, so that nothing is counted.
    while more {
        let next = order(&mut fields)?;
        orders.push(next.value)?;
        more = next.more;
    }
    fields.end()?;
    Ok(orders)
}
