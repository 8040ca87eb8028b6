// The reading of a line that is neither blank nor a comment: its first field says of what kind it is.
ghost use Rattle.std.specs.Prelude.{◌≡◌};
ghost use Rattle.text.specs.Splitting.{split, fields_left};
ghost use Rattle.script.specs.Commands.{Reads};
ghost use Rattle.commands.specs.Commands.{Says, SaysOfPit, SaysOfConsole, SaysMore, is_plain_word, is_console_word};

use crate::command::{Command, PitCommand};
use crate::read::{
    only_console, read_hear, read_key, read_open, read_pit, read_propose, read_shelf, read_tick,
};
use script::command::parse_fields;
use script::fault::Fault;
use std::alloc::Global;
use text::fields::Fields;

// A line that names a console and nothing more.
// Stays: word and fields are one line taken apart, and only the reader of the word needs both.
fn console_line<'a>(word: &'a [u8], fields: Fields<'a>) -> Result<PitCommand, Fault<'a>>
    ensures { Reads (SaysOfConsole word.now (fields_left fields.entry)) result }
{
    match word {
        b"pass" => Ok(PitCommand::Pass {
            turn: only_console(fields)?,
        }),
        b"look" => Ok(PitCommand::Look {
            console: only_console(fields)?,
        }),
        b"store" => Ok(PitCommand::Store {
            console: only_console(fields)?,
        }),
        b"board" => Ok(PitCommand::Board {
            console: only_console(fields)?,
        }),
        _ => Err(Fault::UnknownWord(word)),
    }
}

// Whether a line of this word names a console and nothing more.
fn is_of_console(word: &[u8]) -> bool
    ensures { result ≡ is_console_word word.now }
{
    match word {
        b"pass" => true,
        b"look" => true,
        b"store" => true,
        b"board" => true,
        _ => false,
    }
}

// Any other line of a pit.
fn longer_line<'a>(
    alloc: Global,
    word: &'a [u8],
    fields: Fields<'a>,
) -> Result<PitCommand, Fault<'a>>
    ensures { Reads (SaysMore word.now (fields_left fields.entry)) result }
{
    match word {
        b"pit" => read_pit(fields),
        b"key" => read_key(alloc, fields),
        b"open" => read_open(fields),
        b"tick" => read_tick(fields),
        b"propose" => read_propose(alloc, fields),
        b"hear" => read_hear(alloc, fields),
        b"shelf" => read_shelf(fields),
        _ => Err(Fault::UnknownWord(word)),
    }
}

// A line of a pit.
fn pit_line<'a>(alloc: Global, word: &'a [u8], fields: Fields<'a>) -> Result<PitCommand, Fault<'a>>
    ensures { Reads (SaysOfPit word.now (fields_left fields.entry)) result }
{
    if is_of_console(word) {
        console_line(word, fields)
    } else {
        longer_line(alloc, word, fields)
    }
}

// Whether a line of this word needs no pit.
// Stays: two lists of words, each beside its reader; a table to search would be a list of slices searched by hand.
fn is_plain(word: &[u8]) -> bool
    ensures { result ≡ is_plain_word word.now }
{
    match word {
        b"name" => true,
        b"mac" => true,
        b"read" => true,
        b"try" => true,
        _ => false,
    }
}

// Any line.
pub fn parse<'a>(alloc: Global, line: &'a [u8]) -> Result<Command, Fault<'a>>
    ensures { Reads (Says (split line.now)) result }
{
    let mut fields = Fields::of(line);
    let word = fields.next()?;
    if is_plain(word) {
        Ok(Command::Plain(parse_fields(alloc, word, fields)?))
    } else {
        Ok(Command::OfPit(pit_line(alloc, word, fields)?))
    }
}
