// How fast consoles are.
use drill::drill::{Counts, Drill};
use std::io;
use std::time::Instant;

// So many in a second, where they took so many nanoseconds.
fn per_second(count: u64, nanos: u128) -> u128 {
    (count as u128).saturating_mul(1_000_000_000) / nanos.max(1)
}

fn report(rt: &HostRuntime, counts: Counts, nanos: u128, first: u64) -> io::Result<()> {
    let millis = nanos / 1_000_000;
    println!(rt; "calls {}", counts.calls)?;
    println!(rt; "seconds {}.{:03}", millis / 1000, millis % 1000)?;
    println!(rt; "calls per second {}", per_second(counts.calls, nanos))?;
    println!(rt;
        "proposals per second {}",
        per_second(counts.proposals, nanos)
    )?;
    println!(rt; "votes per second {}", per_second(counts.votes, nanos))?;
    println!(rt;
        "handed-over blocks per second {}",
        per_second(counts.handed, nanos)
    )?;
    println!(rt; "handed over by console 0: {first}")
}

// Plays so many views in a pit of n consoles, and prints how fast that went.
pub fn bench(rt: &HostRuntime, n: u8, views: u32) -> io::Result<()> {
    let mut drill = Drill::new(rt.alloc(), n)?;
    let start = Instant::now(rt)?;
    // Stays: the views themselves; nothing is looked up by them.
    for view in 1..views.saturating_add(1) {
        drill.play_view(view)?;
    }
    let nanos = start.elapsed(rt)?.as_nanos();
    report(rt, drill.counts(), nanos, drill.first_count())
}
