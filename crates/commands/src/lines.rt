// The lines of a sheet.
ghost use Rattle.commands.specs.Lines.{LineReads};

use crate::command::Command;
use crate::parse::parse;
use script::fault::Fault;
use script::lines::is_passed_over;
use std::alloc::Global;

// Reads a line; nothing is asked by one that is blank or a comment.
// Stays: a reader for both kinds of command would take the parser as a closure, and ask its contract of every caller.
pub fn read_line<'a>(alloc: Global, line: &'a [u8]) -> Result<Option<Command>, Fault<'a>>
    ensures { LineReads line.now result }
{
    if is_passed_over(line) {
        return Ok(None);
    }
    Ok(Some(parse(alloc, line)?))
}
