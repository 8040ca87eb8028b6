// The fields after the word of a line.
ghost use Rattle.std.specs.Prelude.{ℕ, MatchResult};
ghost use Rattle.text.specs.Splitting.{fields_left};
ghost use Rattle.script.specs.Arguments.{HasBytes, HasKey, HasNumber, HasConsoles, HasShort, Denotes, Possible, Takes};
ghost use Rattle.script.specs.Faults.{Refutes};

use crate::fault::Fault;
use crate::number::Number;
use std::alloc::Global;
use text::fields::Fields;
use text::hex::read_hex;
use text::number::read_number;

// Takes a field of bytes.
pub fn bytes<'a>(alloc: Global, fields: &mut Fields<'a>) -> Result<Vec<u8>, Fault<'a>>
    ensures { MatchResult result (λ v. HasBytes (fields_left fields.old) v.items (fields_left fields.new)) (λ e. Refutes e (Possible HasBytes (fields_left fields.old))) }
{
    let field = fields.next()?;
    Ok(read_hex(alloc, field)?)
}

// Takes a field of a key, 32 bytes.
pub fn key<'a>(alloc: Global, fields: &mut Fields<'a>) -> Result<[u8; 32], Fault<'a>>
    ensures { Takes HasKey (fields_left fields.old) result (fields_left fields.new) }
{
    let bytes = bytes(alloc, fields)?;
    let key = <[u8; 32]>::try_from(bytes.as_slice()).map_err(|_| Fault::KeyLength)?;
    Ok(key)
}

// The number of a field, which is at most the highest.
pub(crate) fn numeral<'a, N: Number>(field: &[u8], highest: N) -> Result<N, Fault<'a>>
    ensures { MatchResult result (λ n. Denotes (N.number highest) field.now (N.number n)) (λ e. Refutes e ((n : ℕ) × Denotes (N.number highest) field.now n)) }
{
    let n = read_number(field, highest.wide())?;
    N::narrow(n, highest).ok_or(Fault::Above(highest.wide()))
}

// Takes a field of a number that is at most the highest.
pub fn number<'a, N: Number>(fields: &mut Fields<'a>, highest: N) -> Result<N, Fault<'a>>
    ensures { MatchResult result (λ n. HasNumber (N.number highest) (fields_left fields.old) (N.number n) (fields_left fields.new)) (λ e. Refutes e (Possible (HasNumber (N.number highest)) (fields_left fields.old))) }
{
    let field = fields.next()?;
    numeral(field, highest)
}

// Takes a field of a number of two bytes.
pub fn short<'a>(fields: &mut Fields<'a>) -> Result<u16, Fault<'a>>
    ensures { Takes HasShort (fields_left fields.old) result (fields_left fields.new) }
{
    number(fields, u16::MAX)
}

// Takes a field of a number of consoles, 4 to 16.
pub fn consoles<'a>(fields: &mut Fields<'a>) -> Result<u8, Fault<'a>>
    ensures { Takes HasConsoles (fields_left fields.old) result (fields_left fields.new) }
{
    let n = number::<u8>(fields, 16)?;
    if n < 4 {
        return Err(Fault::Below(4));
    }
    Ok(n)
}
