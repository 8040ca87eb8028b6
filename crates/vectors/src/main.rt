// Runs the published examples of SHA-256 and HMAC-SHA-256, with a line for each: its name, what came, and whether that is the published value.
#![tactic(auto)]

mod cases;
mod hex;
mod keys;
mod report;

use cases::{CASES, Case};
use digest::sha256;
use report::Tally;
use std::io;

fn run(rt: &HostRuntime, tally: &mut Tally, case: &Case) -> io::Result<()> {
    let message = case.message.bytes(rt.alloc())?;
    let came = match &case.key {
        None => Some(sha256(&message)),
        Some(key) => keys::tag(&key.bytes(rt.alloc())?, &message),
    };
    match came {
        Some(came) => tally.enter(rt, case.name, &came, case.published),
        None => tally.skip(rt, case.name),
    }
}

fn main(rt: HostRuntime) -> io::Result<()> {
    let mut tally = Tally::default();
    for case in &CASES {
        run(&rt, &mut tally, case)?;
    }
    tally.total(&rt)
}
