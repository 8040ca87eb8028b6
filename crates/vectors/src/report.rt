// A line for each example, and the total.
ghost use Rattle.std.specs.Prelude.{◌≡◌, if◌then◌else◌, Decides};
ghost use Rattle.vectors.specs.Bytes.{Published};
ghost use Rattle.vectors.specs.Counts.{more};

use crate::hex::hex;
use std::io;

// Whether what came begins, in hexadecimal, with the published digits.
fn is_published(came: &[u8; 32], published: &str) -> bool
    ensures { Decides result (Published came.now published.now) }
{
    hex(came).starts_with(published.as_bytes())
}

// Stays: `right` is the answer itself and picks no kind.
fn line(rt: &HostRuntime, name: &str, shown: &str, right: bool) -> io::Result<()> {
    let verdict = if right { "ok" } else { "WRONG" };
    println!(rt; "{name}: {shown} {verdict}")
}

/// How many examples were run, and how many of them gave the published value.
#[derive(Clone, Copy, Default)]
pub struct Tally {
    run: u64,
    right: u64,
}

impl Tally {
    // One more example. A count that is full stays so.
    // Stays: `right` is the answer itself and picks no kind.
    fn count(&mut self, right: bool)
        ensures run { self.new.run ≡ more self.old.run }
        ensures right { self.new.right ≡ (if right then more self.old.right else self.old.right) }
    {
        self.run = self.run.saturating_add(1);
        if right {
            self.right = self.right.saturating_add(1);
        }
    }

    /// Writes the line of an example: its first bytes, as many as are published, and whether they are as published.
    pub fn enter(
        &mut self,
        rt: &HostRuntime,
        name: &str,
        came: &[u8; 32],
        published: &str,
    ) -> io::Result<()>
        ensures run { self.new.run ≡ more self.old.run }
        ensures right { Published came.now published.now → self.new.right ≡ more self.old.right }
        ensures wrong { (Published came.now published.now → ⊥) → self.new.right ≡ self.old.right }
    {
        let right = is_published(came, published);
        self.count(right);
        let digits = hex(came);
        let shown = str::from_utf8(&digits[..published.len().min(64)]).unwrap_or("no text");
        line(rt, name, shown, right)
    }

    /// Writes the line of an example that cannot be run.
    pub fn skip(&mut self, rt: &HostRuntime, name: &str) -> io::Result<()>
        ensures run { self.new.run ≡ more self.old.run }
        ensures wrong { self.new.right ≡ self.old.right }
    {
        self.count(false);
        line(rt, name, "not run", false)
    }

    /// Writes the total.
    pub fn total(&self, rt: &HostRuntime) -> io::Result<()> {
        let run = self.run;
        let right = self.right;
        println!(rt; "{right} of {run} examples give the published value")
    }
}
