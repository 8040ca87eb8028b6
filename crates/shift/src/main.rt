// Plays a shift sheet from standard input: one call a line, one answer a line.
#![tactic(auto)]

mod bench;
mod clerk;
mod consoles;
mod records;
mod stop;

use bench::bench;
use clerk::Clerk;
use script::fault::Fault;
use script::lines::without_newline;
use std::io::{BufRead, BufReader, Write};
use std::process::ExitCode;
use std::{env, io};
use stop::Stop;

// The run ended at a line, and what is wrong with it was said.
#[derive(Drop)]
struct Ended;

// Plays one line, and writes its answer out.
fn play<'a>(rt: &HostRuntime, clerk: &mut Clerk, line: &'a [u8]) -> Result<(), Stop<'a>> {
    let answer = match clerk.play(rt.alloc(), line) {
        // no line of those that need no pit: perhaps one of a pit
        Err(Fault::UnknownWord(_)) => clerk.play_any(rt.alloc(), line)?,
        answer => answer?,
    };
    let Some(answer) = answer else {
        return Ok(());
    };
    rt.stdout()
        .write_all(answer.as_bytes())
        .map_err(|_| Stop::Output)
}

// What the command line asks for.
#[derive(Clone, Copy)]
enum Task {
    Sheet,
    Bench { n: u8, views: u32 },
}

// No words, or `bench N VIEWS`; other words ask for nothing.
fn asked_for(rt: &HostRuntime) -> io::Result<Option<Task>> {
    let mut words = env::args(rt)?.skip(1);
    let Some(word) = words.next() else {
        return Ok(Some(Task::Sheet));
    };
    let (Some(n), Some(views), None) = (words.next(), words.next(), words.next()) else {
        return Ok(None);
    };
    match (n.as_str().parse::<u8>(), views.as_str().parse::<u32>()) {
        (Ok(n), Ok(views)) if word.as_str() == "bench" && n >= 4 && n <= 16 => {
            Ok(Some(Task::Bench { n, views }))
        }
        _ => Ok(None),
    }
}

// The status is 1 where the run ended early; what was wrong has been said by then.
fn main(rt: HostRuntime) -> ExitCode {
    match run(&rt) {
        Ok(()) => ExitCode::SUCCESS,
        Err(Ended) => ExitCode::FAILURE,
    }
}

fn run(rt: &HostRuntime) -> Result<(), Ended> {
    match asked_for(rt) {
        Ok(Some(Task::Sheet)) => play_sheet(rt),
        Ok(Some(Task::Bench { n, views })) => bench(rt, n, views).map_err(|_| Ended),
        _ => {
            let _ = eprintln!(rt;
                "shift: plays a sheet from standard input; shift bench N VIEWS, N 4 to 16"
            );
            Err(Ended)
        }
    }
}

// Plays the lines one after another, each held only while it is played.
fn play_sheet(rt: &HostRuntime) -> Result<(), Ended> {
    let mut clerk = Clerk::new();
    let Ok(mut input) = BufReader::new(rt.alloc(), rt.stdin()) else {
        let _ = eprintln!(rt; "shift: no memory left");
        return Err(Ended);
    };
    // Stays: the numbers of the lines, which are shown; nothing is looked up by them.
    for number in 1..u64::MAX {
        let mut line = Vec::new(rt.alloc());
        let played = match input.read_until(b'\n', &mut line) {
            Ok(0) => return Ok(()),
            Ok(_) => play(rt, &mut clerk, without_newline(line.as_slice())),
            // Stays: beside two other outcomes, which `map_err` would part from it.
            Err(_) => Err(Stop::Input),
        };
        if let Err(stop) = played {
            let _ = eprintln!(rt; "line {number}: {stop}");
            return Err(Ended);
        }
    }
    Ok(())
}
