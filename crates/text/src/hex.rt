// Bytes as lowercase hexadecimal; `-` stands for no bytes.
ghost use Rattle.std.specs.Prelude.{◌≡◌, ℕ, ◌/◌, ◌%◌, ◌<◌, [], ◌∷◌, Some, MatchOption, MatchResult, ◌≢◌};
ghost use Rattle.std.specs.Fmt.{WritesOnOk};
ghost use Rattle.text.specs.declared.hex.HexError.TheVariants.{NotHex, NoMemory};
ghost use Rattle.text.specs.Hexadecimal.{hex_digit, hex_pairs, hex_written, Bytes, NoPairs, HexReads, HexRefused, HexLaw};

use std::alloc::{AllocFailed, Global};
use std::fmt;

// Why a field gives no bytes.
#[derive(Clone, Copy, PartialEq, Eq, Debug)]
pub enum HexError {
    NotHex,
    NoMemory,
}

impl<T: Drop> From<AllocFailed<T>> for HexError {
    ghost from_gives = { λ _ e. e ≡ NoMemory };

    fn from(_e: AllocFailed<T>) -> HexError {
        HexError::NoMemory
    }
}

// The number below sixteen that has this digit, if one has it.
fn nibble(c: u8) -> Option<u8>
    ensures { MatchOption result ((n : ℕ) → n < 16 → hex_digit n ≢ c) (λ n. (n < 16) × (hex_digit n ≡ c)) }
{
    match c {
        b'0'..=b'9' => Some(c - b'0'),
        b'a'..=b'f' => Some(c - b'a' + 10),
        _ => None,
    }
}

// The byte that has these two digits, if one has them.
fn byte(high: u8, low: u8) -> Option<u8>
    ensures { MatchOption result ((b : ℕ) → b < 256 → hex_digit (b / 16) ≡ high → hex_digit (b % 16) ≢ low) (λ b. (b < 256) × (hex_digit (b / 16) ≡ high) × (hex_digit (b % 16) ≡ low)) }
{
    Some(nibble(high)? * 16 + nibble(low)?)
}

// Reads pairs of digits.
fn read_pairs(alloc: Global, digits: &[u8]) -> Result<Vec<u8>, HexError>
    ensures { MatchResult result (λ v. Bytes v.items × (hex_pairs v.items ≡ digits.now)) (λ e. e ≡ NotHex → NoPairs digits.now) }
{
    let (pairs, rest) = digits.as_chunks::<2>();
    if !rest.is_empty() {
        return Err(HexError::NotHex);
    }
    let mut bytes = Vec::new(alloc);
    for [high, low] in pairs {
        bytes.push(byte(*high, *low).ok_or(HexError::NotHex)?)?;
    }
    Ok(bytes)
}

// Reads a field of bytes.
pub fn read_hex(alloc: Global, field: &[u8]) -> Result<Vec<u8>, HexError>
    ensures { MatchResult result (λ v. HexReads field.now v.items) (HexRefused field.now) }
{
    match field {
        [] => Err(HexError::NotHex),
        b"-" => Ok(Vec::new(alloc)),
        _ => read_pairs(alloc, field),
    }
}

// Writes the two digits of a byte.
fn write_byte<W: fmt::Write>(f: &mut fmt::Formatter<W>, b: u8) -> fmt::Result
    ensures { WritesOnOk W.write_str_gives f.old result (hex_digit (b / 16) ∷ hex_digit (b % 16) ∷ []) f.new }
{
    write!(f, "{b:02x}")
}

// Writes the digits of the bytes.
fn write_pairs<W: fmt::Write>(f: &mut fmt::Formatter<W>, bytes: &[u8]) -> fmt::Result
    ensures { WritesOnOk W.write_str_gives f.old result (hex_pairs bytes.now) f.new }
{
    for b in bytes {
        write_byte(f, *b)?;
    }
    Ok(())
}

// Bytes that are shown as a field.
#[derive(Clone, Copy)]
pub struct Hex<'a>(pub &'a [u8]);

impl fmt::Display for Hex<'_> {
    ghost output = { λ h. Some (hex_written h.0.now) };

    fn fmt<W: fmt::Write>(&self, f: &mut fmt::Formatter<W>) -> fmt::Result {
        if self.0.is_empty() {
            f.write_char('-')
        } else {
            write_pairs(f, self.0)
        }
    }
}

// Bytes of one field are the same bytes.
pub fn law_of_hexadecimal()
    ensures { HexLaw }
{}
