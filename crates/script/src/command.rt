// The commands of a sheet, and the reading of a line.
ghost use Rattle.std.specs.Prelude.{◌∷◌};
ghost use Rattle.text.specs.Splitting.{split, fields_left};
ghost use Rattle.script.specs.Arguments.{Takes};
ghost use Rattle.script.specs.Boards.{HasAssignment, HasBoard};
ghost use Rattle.script.specs.Commands.{NameArguments, MacArguments, ReadArguments, TryArguments, Says, Reads};

use crate::arguments;
use crate::fault::Fault;
use crate::orders::orders;
use std::alloc::Global;
use text::fields::Fields;
use wire::order::Order;

// What a line asks of the clerk.
#[derive(Drop)]
pub enum Command {
    Name { bytes: Vec<u8> },
    Mac { key: [u8; 32], bytes: Vec<u8> },
    // a message in a pit of n consoles
    Read { n: u8, bytes: Vec<u8> },
    // a new board, and the orders that it takes
    Try { board: NewBoard, orders: Vec<Order> },
}

// A board that is to be made.
#[derive(Clone, Copy)]
pub enum NewBoard {
    Assignment { lines: u16, limit: u16 },
    Tonnage,
}

// Stays: the allocator goes to the readers that ask for memory; a field of it would be asked of all.
fn read_name<'a>(alloc: Global, mut fields: Fields<'a>) -> Result<Command, Fault<'a>>
    ensures { Reads (NameArguments (fields_left fields.entry)) result }
{
    let bytes = arguments::bytes(alloc, &mut fields)?;
    fields.end()?;
    Ok(Command::Name { bytes })
}

fn read_mac<'a>(alloc: Global, mut fields: Fields<'a>) -> Result<Command, Fault<'a>>
    ensures { Reads (MacArguments (fields_left fields.entry)) result }
{
    let key = arguments::key(alloc, &mut fields)?;
    let bytes = arguments::bytes(alloc, &mut fields)?;
    fields.end()?;
    Ok(Command::Mac { key, bytes })
}

fn read_read<'a>(alloc: Global, mut fields: Fields<'a>) -> Result<Command, Fault<'a>>
    ensures { Reads (ReadArguments (fields_left fields.entry)) result }
{
    let n = arguments::consoles(&mut fields)?;
    let bytes = arguments::bytes(alloc, &mut fields)?;
    fields.end()?;
    Ok(Command::Read { n, bytes })
}

fn assignment<'a>(fields: &mut Fields<'a>) -> Result<NewBoard, Fault<'a>>
    ensures { Takes HasAssignment (fields_left fields.old) result (fields_left fields.new) }
{
    let lines = arguments::short(fields)?;
    let limit = arguments::short(fields)?;
    Ok(NewBoard::Assignment { lines, limit })
}

// Takes the board that a line names.
pub fn new_board<'a>(fields: &mut Fields<'a>) -> Result<NewBoard, Fault<'a>>
    ensures { Takes HasBoard (fields_left fields.old) result (fields_left fields.new) }
{
    match fields.next()? {
        b"assignment" => assignment(fields),
        b"tonnage" => Ok(NewBoard::Tonnage),
        word => Err(Fault::UnknownWord(word)),
    }
}

fn read_try<'a>(alloc: Global, mut fields: Fields<'a>) -> Result<Command, Fault<'a>>
    ensures { Reads (TryArguments (fields_left fields.entry)) result }
{
    let board = new_board(&mut fields)?;
    let orders = orders(alloc, fields)?;
    Ok(Command::Try { board, orders })
}

// Reads a line that is neither blank nor a comment: its first field says of what kind it is.
pub fn parse<'a>(alloc: Global, line: &'a [u8]) -> Result<Command, Fault<'a>>
    ensures { Reads (Says (split line.now)) result }
{
    let mut fields = Fields::of(line);
    let word = fields.next()?;
    parse_fields(alloc, word, fields)
}

// Reads the fields after a line's word.
pub fn parse_fields<'a>(
    alloc: Global,
    word: &'a [u8],
    fields: Fields<'a>,
) -> Result<Command, Fault<'a>>
    ensures { Reads (Says (word.now ∷ fields_left fields.entry)) result }
{
    match word {
        b"name" => read_name(alloc, fields),
        b"mac" => read_mac(alloc, fields),
        b"read" => read_read(alloc, fields),
        b"try" => read_try(alloc, fields),
        _ => Err(Fault::UnknownWord(word)),
    }
}
