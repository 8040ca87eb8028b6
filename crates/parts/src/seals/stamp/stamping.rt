ghost use Rattle.std.specs.Prelude.{◌≡◌, ◌<◌, ◌≤◌, true, MatchOption};
ghost use Rattle.parts.specs.Stamp.{StampLaw, stamp, stamp_table};
ghost use Rattle.std.proofs.Common.{rules, arith};

use super::OpenStamp;
use crate::seals::{Seals, is_seal, is_signer};
use wire::statement::Statement;

// Mark, view, signer, and what fits of the name.
fn stamp(signer: u8, statement: &Statement) -> [u8; 16]
    ensures made { result ≡ stamp signer statement.now }
    ensures accepted { stamp_table signer statement.now result ≡ true }
{
    let [a, b, c, d, e, f, g, h, i, j, k, l, m, n, o, ..] = statement.bytes();
    [a, b, c, d, e, f, signer, g, h, i, j, k, l, m, n, o]
}

impl OpenStamp {
    // None if the own number is not below 16.
    pub fn new(own: u8) -> Option<Self>
        ensures { MatchOption result (16 ≤ own) (λ s. s.own ≡ own) }
    {
        if is_signer(own) {
            Some(OpenStamp { own })
        } else {
            None
        }
    }
}

impl Seals for OpenStamp {
    ghost keys = { λ s. record { own = s.own; table = stamp_table } };

    ghost low = { first_of (Prim.search rules, Prim.grind (arith, Self.row.coded.inj)) };

    fn own(&self) -> u8 {
        self.own
    }

    fn check(&self, signer: u8, statement: &Statement, seal: &[u8]) -> bool {
        is_seal(seal, &stamp(signer, statement))
    }

    fn seal(&self, statement: &Statement) -> [u8; 16]
        ensures accepted { stamp_table self.now.own statement.now result ≡ true }
        ensures made { result ≡ stamp self.now.own statement.now }
    {
        stamp(self.own, statement)
    }
}

// A seal is accepted exactly if it is the stamp.
pub fn stamps_stand()
    ensures { StampLaw }
{}
