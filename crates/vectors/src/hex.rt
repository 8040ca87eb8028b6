// Bytes in hexadecimal, with no memory asked for.
ghost use Rattle.std.specs.Prelude.{◌≡◌, ◌/◌, ◌%◌, ◌<◌, [], ◌∷◌};
ghost use Rattle.text.specs.Hexadecimal.{hex_digit, hex_pairs};

fn digit(n: u8) -> u8
    requires { n < 16 }
    ensures { result ≡ hex_digit n }
{
    if n < 10 { b'0' + n } else { b'a' - 10 + n }
}

fn pair(byte: u8) -> [u8; 2]
    ensures { result ≡ hex_digit (byte / 16) ∷ hex_digit (byte % 16) ∷ [] }
{
    [digit(byte / 16), digit(byte % 16)]
}

/// The bytes of a digest in hexadecimal, two digits for each.
// Stays: a text made by text's `Hex` was tried; it asks for memory, which may fail.
pub fn hex(bytes: &[u8; 32]) -> [u8; 64]
    ensures { result ≡ hex_pairs bytes.now }
{
    let mut digits = [0; 64];
    digits.copy_from_slice(bytes.map(pair).as_flattened());
    digits
}
