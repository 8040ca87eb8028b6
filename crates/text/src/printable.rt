// Bytes of any kind, shown so that they can stand in a message.
ghost use Rattle.std.specs.Prelude.{◌≡◌, map, Some};
ghost use Rattle.std.specs.Fmt.{WritesOnOk};
ghost use Rattle.text.specs.Messages.{printable};

use std::fmt;

// The character that stands for a byte: itself, or `?` if it does not print.
fn character(c: u8) -> char
    ensures { result ≡ printable c }
{
    match c {
        b'!'..=b'~' => char::from(c),
        _ => '?',
    }
}

fn write_characters<W: fmt::Write>(f: &mut fmt::Formatter<W>, bytes: &[u8]) -> fmt::Result
    ensures { WritesOnOk W.write_str_gives f.old result (map printable bytes.now) f.new }
{
    for c in bytes {
        f.write_char(character(*c))?;
    }
    Ok(())
}

// Bytes that are shown as text.
#[derive(Clone, Copy)]
pub struct Printable<'a>(pub &'a [u8]);

impl fmt::Display for Printable<'_> {
    ghost output = { λ p. Some (map printable p.0.now) };

    fn fmt<W: fmt::Write>(&self, f: &mut fmt::Formatter<W>) -> fmt::Result {
        write_characters(f, self.0)
    }
}
