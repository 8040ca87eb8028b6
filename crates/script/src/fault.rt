// Why a line cannot be read.
ghost use Rattle.std.specs.Prelude.{◌≡◌, Some};
ghost use Rattle.script.specs.declared.fault.Fault.TheVariants.{NoMemory};
ghost use Rattle.script.specs.Faults.{of_field, of_hex, of_number, told};

use std::alloc::{AllocError, AllocFailed};
use std::fmt;
use text::fields::FieldError;
use text::hex::HexError;
use text::number::NumberError;
use text::printable::Printable;

#[derive(Clone, Copy)]
pub enum Fault<'a> {
    UnknownWord(&'a [u8]),
    MissingField,
    SpaceTooMany,
    TooManyFields,
    NotHex,
    KeyLength,
    NotANumber,
    Above(u64),
    Below(u64),
    NoMemory,
}

impl<'a> From<FieldError> for Fault<'a> {
    ghost from_gives = { λ e r. r ≡ of_field e };

    fn from(e: FieldError) -> Fault<'a> {
        match e {
            FieldError::Missing => Fault::MissingField,
            FieldError::Empty => Fault::SpaceTooMany,
            FieldError::TooMany => Fault::TooManyFields,
        }
    }
}

impl<'a> From<HexError> for Fault<'a> {
    ghost from_gives = { λ e r. r ≡ of_hex e };

    fn from(e: HexError) -> Fault<'a> {
        match e {
            HexError::NotHex => Fault::NotHex,
            HexError::NoMemory => Fault::NoMemory,
        }
    }
}

impl<'a> From<NumberError> for Fault<'a> {
    ghost from_gives = { λ e r. r ≡ of_number e };

    fn from(e: NumberError) -> Fault<'a> {
        match e {
            NumberError::NotDigits => Fault::NotANumber,
            NumberError::Above(highest) => Fault::Above(highest),
        }
    }
}

impl<'a> From<AllocError> for Fault<'a> {
    ghost from_gives = { λ _ r. r ≡ NoMemory };

    fn from(_e: AllocError) -> Fault<'a> {
        Fault::NoMemory
    }
}

impl<'a, T: Drop> From<AllocFailed<T>> for Fault<'a> {
    ghost from_gives = { λ _ r. r ≡ NoMemory };

    fn from(refused: AllocFailed<T>) -> Fault<'a> {
        Fault::from(AllocError::from(refused))
    }
}

// How much of an unknown word is shown.
const SHOWN: usize = 32;

impl fmt::Display for Fault<'_> {
    ghost output = { λ e. Some (told e) };

    fn fmt<W: fmt::Write>(&self, f: &mut fmt::Formatter<W>) -> fmt::Result {
        match self {
            Fault::UnknownWord(word) => {
                let first = Printable(&word[0..word.len().min(SHOWN)]);
                write!(f, "unknown word '{first}'")
            }
            Fault::MissingField => f.write_str("a field is missing"),
            Fault::SpaceTooMany => f.write_str("a space too many"),
            Fault::TooManyFields => f.write_str("too many fields"),
            Fault::NotHex => f.write_str("bytes are not lowercase hexadecimal"),
            Fault::KeyLength => f.write_str("a key is not 32 bytes"),
            Fault::NotANumber => f.write_str("a number is not decimal digits"),
            Fault::Above(highest) => write!(f, "a number above {highest}"),
            Fault::Below(lowest) => write!(f, "a number below {lowest}"),
            Fault::NoMemory => f.write_str("no memory left"),
        }
    }
}
