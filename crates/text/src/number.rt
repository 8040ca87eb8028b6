// Numbers as decimal digits.
ghost use Rattle.std.specs.Prelude.{◌≡◌, ◌+◌, ◌-◌, ◌*◌, ◌≤◌, ◌++◌, string_bytes, decimal, Decides, OnOk};
ghost use Rattle.std.specs.Option.{SomeIff};
ghost use Rattle.text.specs.Decimal.{Digits, value, NumberRead, DecimalLaw};

use std::alloc::AllocError;

// Why a field gives no number.
#[derive(Clone, Copy, PartialEq, Eq, Debug)]
pub enum NumberError {
    NotDigits,
    // the highest that is allowed
    Above(u64),
}

// Whether each byte is a digit.
fn all_digits(field: &[u8]) -> bool
    ensures { Decides result (Digits field.now) }
{
    field.iter().all(|c| c.is_ascii_digit())
}

// One more digit read after n, if the number does not pass the highest.
fn next_value(n: u64, digit: u8, highest: u64) -> Option<u64>
    requires { (48 ≤ digit) × (digit ≤ 57) }
    ensures { SomeIff result (n * 10 + (digit - 48) ≤ highest) (n * 10 + (digit - 48)) }
{
    let next = n.checked_mul(10)?.checked_add(u64::from(digit - b'0'))?;
    (next <= highest).then_some(next)
}

// The number that the digits denote, if it is at most the highest.
// Stays: `parse` was tried, over text made of the field; reading short numbers took over ten times as long, and a line of orders twice as long.
fn value_up_to(field: &[u8], highest: u64) -> Option<u64>
    requires { Digits field.now }
    ensures { SomeIff result (value field.now ≤ highest) (value field.now) }
{
    let mut n = 0;
    for c in field {
        n = next_value(n, *c, highest)?;
    }
    Some(n)
}

// Reads a field of one or more digits, of any length, whose number is at most the highest.
pub fn read_number(field: &[u8], highest: u64) -> Result<u64, NumberError>
    ensures { NumberRead field.now highest result }
{
    if field.is_empty() || !all_digits(field) {
        return Err(NumberError::NotDigits);
    }
    value_up_to(field, highest).ok_or(NumberError::Above(highest))
}

// Adds the digits of n to the text, with no leading zero.
// Stays: hosts call it; its one line is the library's.
pub fn write_number(text: &mut String, n: u64) -> Result<(), AllocError>
    ensures { OnOk result (string_bytes text.new ≡ string_bytes text.old ++ decimal n) }
{
    write!(text, "{n}")
}

// What is written of a number reads back as it.
pub fn law_of_decimals()
    ensures { DecimalLaw }
{}

#[cfg(test)]
mod tests {
    use super::*;

    #[test]
    fn number_is_written(rt: HostRuntime) -> Result<(), AllocError> {
        let mut text = String::new(rt.alloc());
        write_number(&mut text, 1005)?;
        assert!(rt; text.as_str() == "1005");
        Ok(())
    }
}
