#![tactic(auto)]

// Runs the examples of handing over, through a running console, with a line for each: how many blocks were handed over, and
// whether that is the number that the rules give.
mod handing;

use handing::handed_over;
use std::io;

// One example of handing over: so many blocks are handed over.
fn run_handing(rt: &HostRuntime, name: &str, child_view: u32, expected: usize) -> io::Result<()> {
    let came = handed_over(child_view).unwrap_or(0);
    let verdict = if came == expected { "ok" } else { "WRONG" };
    println!(rt; "{name}: {came} handed over {verdict}")
}

fn main(rt: HostRuntime) -> io::Result<()> {
    run_handing(
        &rt,
        "Handing over, views 3 and 4, the child certified",
        4,
        1,
    )?;
    run_handing(
        &rt,
        "Handing over, views 3 and 5, the child certified",
        5,
        0,
    )
}
