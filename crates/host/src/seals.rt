ghost use Rattle.std.specs.Prelude.{◌≡◌};
ghost use Rattle.host.specs.Kinds.{keys_of};
ghost use Rattle.std.proofs.Common.{rules};

use parts::seals::Seals;
use parts::seals::keyed::KeyedSeals;
use parts::seals::stamp::OpenStamp;
use wire::statement::Statement;

// Keyed seals or open stamps.
// Stays: there are two kinds and both are known, and a box needs an allocator and is no longer `Copy`.
#[derive(Clone, Copy)]
pub enum EitherSeals {
    Keyed(KeyedSeals),
    Stamp(OpenStamp),
}

impl Seals for EitherSeals {
    ghost keys = { keys_of };

    ghost low = { Prim.search rules };

    fn own(&self) -> u8 {
        match self {
            EitherSeals::Keyed(seals) => seals.own(),
            EitherSeals::Stamp(seals) => seals.own(),
        }
    }

    fn check(&self, signer: u8, statement: &Statement, seal: &[u8]) -> bool {
        match self {
            EitherSeals::Keyed(seals) => seals.check(signer, statement, seal),
            EitherSeals::Stamp(seals) => seals.check(signer, statement, seal),
        }
    }

    fn seal(&self, statement: &Statement) -> [u8; 16] {
        match self {
            EitherSeals::Keyed(seals) => seals.seal(statement),
            EitherSeals::Stamp(seals) => seals.seal(statement),
        }
    }
}
