// The lines of a sheet.
ghost use Rattle.std.specs.Prelude.{◌≡◌, ◌⊎◌, Decides};
ghost use Rattle.script.specs.Lines.{Blank, Comment, without_newline, LineReads};

use crate::command::{Command, parse};
use crate::fault::Fault;
use std::alloc::Global;

// The line without its newline, which the last line of an input may lack.
pub fn without_newline(line: &[u8]) -> &[u8]
    ensures { result.now ≡ without_newline line.now }
{
    match line {
        [text @ .., b'\n'] => text,
        _ => line,
    }
}

fn is_blank(line: &[u8]) -> bool
    ensures { Decides result (Blank line.now) }
{
    line.iter().all(|c| *c == b' ')
}

fn is_comment(line: &[u8]) -> bool
    ensures { Decides result (Comment line.now) }
{
    line.starts_with(b"#")
}

// Whether a line asks for nothing.
pub fn is_passed_over(line: &[u8]) -> bool
    ensures { Decides result (Blank line.now ⊎ Comment line.now) }
{
    is_blank(line) || is_comment(line)
}

// Reads a line; nothing is asked by one that is blank or a comment.
pub fn read_line<'a>(alloc: Global, line: &'a [u8]) -> Result<Option<Command>, Fault<'a>>
    ensures { LineReads line.now result }
{
    if is_passed_over(line) {
        return Ok(None);
    }
    Ok(Some(parse(alloc, line)?))
}

#[cfg(test)]
mod tests {
    use super::*;
    use std::test::Fail;

    #[test]
    fn name_line_is_read(rt: HostRuntime) -> Result<(), Fail> {
        match read_line(rt.alloc(), b"name 00ff") {
            Ok(Some(Command::Name { bytes })) => {
                assert!(rt; bytes.as_slice() == b"\x00\xff".as_slice());
                Ok(())
            },
            _ => Err(Fail::new("no name line")),
        }
    }

    #[test]
    fn space_at_the_end_is_refused(rt: HostRuntime) -> Result<(), Fail> {
        match read_line(rt.alloc(), b"name 00ff ") {
            Err(Fault::SpaceTooMany) => Ok(()),
            _ => Err(Fail::new("not refused")),
        }
    }
}
