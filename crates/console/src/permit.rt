ghost use Rattle.std.specs.Prelude.{◌<◌, ◌≤◌};

pub mod granting;

// The leave to act as one console of a pit: of how many consoles, and under which number.
#[derive(Clone, Copy)]
pub struct Permit {
    pub(crate) n: u8,
    pub(crate) own: u8,
    ghost least: { 4 ≤ n },
    ghost most: { n ≤ 16 },
    ghost low: { own < n },
}
