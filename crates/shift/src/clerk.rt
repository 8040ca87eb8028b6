// The clerk of a pit: it keeps what the lines before have left, and answers one line at a time.
ghost use Rattle.std.specs.Prelude.{◌≡◌, [], MatchResult, string_bytes, OnOk};
ghost use Rattle.script.specs.declared.fault.Fault.TheVariants.{NoMemory};
ghost use Rattle.shift.specs.Replies.{Answers, AnswersAny, Replied};

use crate::consoles;
use crate::consoles::Lines;
use crate::records::{MacLine, NameLine, ReadLine, write_try};
use crate::stop::Stop;
use commands::command::{Command as AnyCommand, PitCommand};
use commands::lines::read_line as read_any_line;
use pit::pit::Pit;
use pit::trouble::Trouble;
use script::command::Command;
use script::fault::Fault;
use script::lines::read_line;
use std::alloc::{AllocError, Global};
use telling::readings::Said;

#[derive(Drop)]
pub struct Clerk {
    // the pit that stands, if there is one
    pit: Option<Pit>,
}

// Adds the answer to a command that needs no pit, a line, to the text.
fn answer(alloc: Global, command: Command, text: &mut String) -> Result<(), AllocError>
    ensures { OnOk result (Replied command (string_bytes text.old) (string_bytes text.new)) }
{
    match command {
        Command::Name { bytes } => write!(text, "{}", NameLine(bytes.as_slice())),
        Command::Mac { key, bytes } => {
            let bytes = bytes.as_slice();
            write!(text, "{}", MacLine { key: &key, bytes })
        }
        Command::Read { n, bytes } => {
            let datagram = bytes.as_slice();
            write!(text, "{}", ReadLine(Said { n, datagram }))
        }
        Command::Try { board, orders } => write_try(text, alloc, board, orders.as_slice()),
    }
}

// The answer to a command that needs no pit, a line.
fn answered<'a>(alloc: Global, command: Command) -> Result<String, Fault<'a>>
    ensures { MatchResult result (λ text. Replied command [] (string_bytes text)) (λ e. e ≡ NoMemory) }
{
    let mut text = String::new(alloc);
    answer(alloc, command, &mut text)?;
    Ok(text)
}

impl Clerk {
    pub fn new() -> Clerk {
        Clerk { pit: None }
    }

    // The answer to a line that needs no pit, without its newline, or nothing where the line asks for nothing.
    pub fn play<'a>(&mut self, alloc: Global, line: &'a [u8]) -> Result<Option<String>, Fault<'a>>
        ensures { Answers line.now result }
    {
        let Some(command) = read_line(alloc, line)? else {
            return Ok(None);
        };
        Ok(Some(answered(alloc, command)?))
    }

    // The pit that stands, with the text that its answer is added to.
    fn lines<'b>(&'b mut self, text: &'b mut String) -> Result<Lines<'b>, Trouble> {
        let pit = self.pit.as_mut().ok_or(Trouble::NoPit)?;
        Ok(Lines { pit, text })
    }

    // Adds the answer to a command of a pit.
    fn answer_in_pit(
        &mut self,
        alloc: Global,
        command: PitCommand,
        text: &mut String,
    ) -> Result<(), Trouble> {
        match command {
            PitCommand::Pit { n, seals } => {
                self.pit = None;
                self.pit = consoles::pit(text, alloc, n, seals)?;
                Ok(())
            }
            PitCommand::Key { console, key } => { self.lines(text)?.key(console, key) }
            PitCommand::Open {
                console,
                slots,
                board,
            } => { self.lines(text)?.open(alloc, console, slots, board) }
            PitCommand::Tick { console, t } => self.lines(text)?.tick(console, t),
            PitCommand::Propose {
                console,
                turn,
                space,
                orders,
            } => {
                self.lines(text)?
                    .propose(alloc, console, turn, space, orders.as_slice())
            }
            PitCommand::Pass { turn } => self.lines(text)?.pass(turn),
            PitCommand::Hear { console, bytes } => {
                self.lines(text)?.hear(console, bytes.as_slice())
            }
            PitCommand::Shelf { console, slots } => {
                self.lines(text)?.shelf(alloc, console, slots)
            }
            PitCommand::Look { console } => self.lines(text)?.look(console),
            PitCommand::Store { console } => self.lines(text)?.store(console),
            PitCommand::Board { console } => self.lines(text)?.board(console),
        }
    }

    // The answer to any line without its newline, or nothing where the line asks for nothing.
    // Stays: beside `play`, on which the promise for lines that need no pit stands.
    pub fn play_any<'a>(
        &mut self,
        alloc: Global,
        line: &'a [u8],
    ) -> Result<Option<String>, Stop<'a>>
        ensures { AnswersAny line.now result }
    {
        match read_any_line(alloc, line)? {
            None => Ok(None),
            Some(AnyCommand::Plain(command)) => {
                let text = answered(alloc, command)?;
                Ok(Some(text))
            }
            Some(AnyCommand::OfPit(command)) => {
                let mut text = String::new(alloc);
                self.answer_in_pit(alloc, command, &mut text)?;
                Ok(Some(text))
            }
        }
    }
}
