ghost use Rattle.std.specs.Prelude.{◌≡◌, ◌<◌, true, nat_lt};
ghost use Rattle.parts.specs.Meaning.{Keys};
ghost use Rattle.std.specs.Str.{bytes_eq};

use digest::same_seal;
use wire::statement::Statement;

pub mod keyed;
pub mod stamp;

// Seals by what they mean: an own number and a fixed table of what is accepted.
pub trait Seals {
    ghost keys: { Self → Keys };

    // The number that is sealed under.
    fn own(&self) -> u8
        ensures { result ≡ (keys self.now).own };

    // Whether the signer's seal of the statement is accepted. A seal has 16 bytes; others are not accepted.
    // Stays: a struct of signer and statement is no plainer, since each of the three impls would take it apart again.
    fn check(&self, signer: u8, statement: &Statement, seal: &[u8]) -> bool
        ensures { result ≡ (keys self.now).table signer statement.now seal.now };

    // A seal that is accepted under the own number.
    fn seal(&self, statement: &Statement) -> [u8; 16]
        ensures { (keys self.now).table (keys self.now).own statement.now result ≡ true };

    ghost low: { (s : Self) → (keys s).own < 16 };
}

// What is sealed is accepted.
pub fn seal_and_check<S: Seals>(seals: &S, statement: &Statement) -> bool
    ensures { result ≡ true }
{
    let seal = seals.seal(statement);
    seals.check(seals.own(), statement, &seal)
}

// Whether one of the sixteen signers has the number.
pub(crate) fn is_signer(number: u8) -> bool
    ensures { result ≡ nat_lt number 16 }
{
    number < 16
}

// Whether the bytes are this seal, in a time that does not tell where they differ.
pub(crate) fn is_seal(given: &[u8], seal: &[u8; 16]) -> bool
    ensures { result ≡ bytes_eq given.now seal.now }
{
    <&[u8; 16]>::try_from(given).is_ok_and(|given| same_seal(given, seal))
}
