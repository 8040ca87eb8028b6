ghost use Rattle.std.specs.Prelude.{◌≡◌, ◌<◌};

pub mod stamping;

// Stamps under an own number, for the bench.
#[derive(Clone, Copy)]
pub struct OpenStamp {
    own: u8,
    ghost low: { own < 16 },
}
