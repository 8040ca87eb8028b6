ghost use Rattle.std.specs.Prelude.{◌≡◌, ◌<◌, ◌≤◌, true, [], IfSome, MatchOption, slice_index_or};
ghost use Rattle.parts.specs.Keyed.{KeyedLaw, key_bytes, keyed_seal, keyed_table};
ghost use Rattle.std.proofs.Common.{rules, arith};

use super::KeyedSeals;
use crate::seals::{Seals, is_seal, is_signer};
use digest::MacKey;
use wire::statement::Statement;

// The seal of a statement under a key.
#[tactic(auto, unfolding(crate::specs::Keyed::keyed_seal))]
fn seal_by(key: &MacKey, statement: &Statement) -> [u8; 16]
    ensures { result ≡ keyed_seal key.now.key statement.now }
{
    let tag = key.tag(&statement.bytes());
    let mut seal = [0; 16];
    seal.copy_from_slice(&tag[..16]);
    seal
}

// Keys made ready.
fn ready(keys: &[[u8; 32]; 16]) -> [MacKey; 16]
    ensures { key_bytes result ≡ keys.now }
{
    keys.each_ref().map(MacKey::new)
}

impl KeyedSeals {
    // None if the own number is not below 16.
    pub fn new(own: u8, keys: &[[u8; 32]; 16]) -> Option<Self>
        ensures own { MatchOption result (16 ≤ own) (λ s. s.own ≡ own) }
        ensures keys { IfSome result (λ s. key_bytes s.keys ≡ keys.now) }
    {
        if is_signer(own) {
            Some(KeyedSeals {
                own,
                keys: ready(keys),
            })
        } else {
            None
        }
    }

    // The signer's seal of a statement.
    fn seal_of(&self, signer: u8, statement: &Statement) -> [u8; 16]
        requires { signer < 16 }
        ensures made { result ≡ keyed_seal (slice_index_or (key_bytes self.now.keys) signer []) statement.now }
        ensures accepted { keyed_table (key_bytes self.now.keys) signer statement.now result ≡ true }
    {
        seal_by(&self.keys[signer as usize], statement)
    }
}

impl Seals for KeyedSeals {
    ghost keys = { λ s. record { own = s.own; table = keyed_table (key_bytes s.keys) } };

    ghost low = { first_of (Prim.search rules, Prim.grind (arith, Self.row.coded.inj)) };

    fn own(&self) -> u8 {
        self.own
    }

    fn check(&self, signer: u8, statement: &Statement, seal: &[u8]) -> bool {
        is_signer(signer) && is_seal(seal, &self.seal_of(signer, statement))
    }

    fn seal(&self, statement: &Statement) -> [u8; 16]
        ensures accepted { keyed_table (key_bytes self.now.keys) self.now.own statement.now result ≡ true }
        ensures made { result ≡ keyed_seal (slice_index_or (key_bytes self.now.keys) self.now.own []) statement.now }
    {
        self.seal_of(self.own, statement)
    }
}

// A seal is accepted exactly if it is the signer's.
pub fn keyed_seals_stand()
    ensures { KeyedLaw }
{}
