ghost use Rattle.std.specs.Prelude.{◌*◌, ◌≤◌};

use wire::certificate::Certificate;
use wire::key::Key;

pub mod known;
pub mod settling;

// How far a console has come: its top certificate, the last block that it handed over, and how many these were.
#[derive(Clone, Copy)]
pub struct Progress {
    top: Certificate,
    head: Key,
    count: u64,
    // Settling raises the head's view and hands over at most that view + 1 blocks, so that the count never overflows.
    ghost counted: { count ≤ head.view * 4294967296 },
}
