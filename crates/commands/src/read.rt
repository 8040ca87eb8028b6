// The fields after the word of each kind of line.
ghost use Rattle.text.specs.Splitting.{fields_left};
ghost use Rattle.script.specs.Arguments.{Takes};
ghost use Rattle.script.specs.Commands.{Reads};
ghost use Rattle.commands.specs.Commands.{HasSeals, PitArguments, KeyArguments, OpenArguments, TickArguments, ProposeArguments, HearArguments, ShelfArguments, OnlyConsole};

use crate::command::{PitCommand, SealKind};
use script::arguments::{bytes, key, number};
use script::command::new_board;
use script::fault::Fault;
use script::orders::orders;
use std::alloc::Global;
use text::fields::Fields;

// Takes the word for a kind of seals.
fn seal_kind<'a>(fields: &mut Fields<'a>) -> Result<SealKind, Fault<'a>>
    ensures { Takes HasSeals (fields_left fields.old) result (fields_left fields.new) }
{
    match fields.next()? {
        b"stamp" => Ok(SealKind::Stamp),
        b"keyed" => Ok(SealKind::Keyed),
        word => Err(Fault::UnknownWord(word)),
    }
}

pub(crate) fn read_pit<'a>(mut fields: Fields<'a>) -> Result<PitCommand, Fault<'a>>
    ensures { Reads (PitArguments (fields_left fields.entry)) result }
{
    let n = number(&mut fields, u32::MAX)?;
    let seals = seal_kind(&mut fields)?;
    fields.end()?;
    Ok(PitCommand::Pit { n, seals })
}

pub(crate) fn read_key<'a>(alloc: Global, mut fields: Fields<'a>) -> Result<PitCommand, Fault<'a>>
    ensures { Reads (KeyArguments (fields_left fields.entry)) result }
{
    let console = number::<u8>(&mut fields, 15)?;
    let key = key(alloc, &mut fields)?;
    fields.end()?;
    Ok(PitCommand::Key { console, key })
}

pub(crate) fn read_open<'a>(mut fields: Fields<'a>) -> Result<PitCommand, Fault<'a>>
    ensures { Reads (OpenArguments (fields_left fields.entry)) result }
{
    let console = number(&mut fields, u8::MAX)?;
    let slots = number::<u16>(&mut fields, 300)?;
    let board = new_board(&mut fields)?;
    fields.end()?;
    Ok(PitCommand::Open {
        console,
        slots,
        board,
    })
}

pub(crate) fn read_tick<'a>(mut fields: Fields<'a>) -> Result<PitCommand, Fault<'a>>
    ensures { Reads (TickArguments (fields_left fields.entry)) result }
{
    let console = number(&mut fields, u8::MAX)?;
    let t = number(&mut fields, u32::MAX)?;
    fields.end()?;
    Ok(PitCommand::Tick { console, t })
}

pub(crate) fn read_propose<'a>(
    alloc: Global,
    mut fields: Fields<'a>,
) -> Result<PitCommand, Fault<'a>>
    ensures { Reads (ProposeArguments (fields_left fields.entry)) result }
{
    let console = number(&mut fields, u8::MAX)?;
    let turn = number(&mut fields, u8::MAX)?;
    let space = number::<u16>(&mut fields, 1024)?;
    let orders = orders(alloc, fields)?;
    Ok(PitCommand::Propose {
        console,
        turn,
        space,
        orders,
    })
}

pub(crate) fn read_hear<'a>(alloc: Global, mut fields: Fields<'a>) -> Result<PitCommand, Fault<'a>>
    ensures { Reads (HearArguments (fields_left fields.entry)) result }
{
    let console = number(&mut fields, u8::MAX)?;
    let bytes = bytes(alloc, &mut fields)?;
    fields.end()?;
    Ok(PitCommand::Hear { console, bytes })
}

pub(crate) fn read_shelf<'a>(mut fields: Fields<'a>) -> Result<PitCommand, Fault<'a>>
    ensures { Reads (ShelfArguments (fields_left fields.entry)) result }
{
    let console = number(&mut fields, u8::MAX)?;
    let slots = number::<u16>(&mut fields, 300)?;
    fields.end()?;
    Ok(PitCommand::Shelf { console, slots })
}

// A line that names a console and nothing more.
pub(crate) fn only_console<'a>(mut fields: Fields<'a>) -> Result<u8, Fault<'a>>
    ensures { Reads (OnlyConsole (fields_left fields.entry)) result }
{
    let i = number(&mut fields, u8::MAX)?;
    fields.end()?;
    Ok(i)
}
