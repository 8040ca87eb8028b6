// What is said of a datagram.
ghost use Rattle.std.specs.Prelude.{◌≡◌, ◌<◌, [], ◌++◌, map, if◌then◌else◌, Some, codes, decimal};
ghost use Rattle.std.specs.Fmt.{WritesOnOk};
ghost use Rattle.wire.specs.Format.{signed};
ghost use Rattle.telling.specs.Lists.{led};
ghost use Rattle.telling.specs.Messages.{consoles, message_told, placed_told, reading_told, signers_told};

use crate::orders::OrderList;
use std::fmt;
use text::hex::Hex;
use wire::certificate::Signers;
use wire::reading::{Part, Reading, read};

// A part, shown by its place as offset+length.
#[derive(Clone, Copy)]
struct Placed<'a>(Part<'a>);

impl fmt::Display for Placed<'_> {
    ghost output = { λ p. Some (placed_told p.0) };

    fn fmt<W: fmt::Write>(&self, f: &mut fmt::Formatter<W>) -> fmt::Result {
        let part = self.0;
        write!(f, "{}+{}", part.offset, part.bytes.len())
    }
}

// Writes a console's number after a space, if the console has signed.
fn write_signer<W: fmt::Write>(
    f: &mut fmt::Formatter<W>,
    signers: &Signers,
    console: u8,
) -> fmt::Result
    ensures { WritesOnOk W.write_str_gives f.old result (if signed signers.now.set console then codes " " ++ decimal console else []) f.new }
{
    if signers.has(console) {
        write!(f, " {console}")
    } else {
        Ok(())
    }
}

// Writes the consoles that have signed, by rising number.
fn write_each_signer<W: fmt::Write>(f: &mut fmt::Formatter<W>, signers: &Signers) -> fmt::Result
    ensures { WritesOnOk W.write_str_gives f.old result (led (codes " ") (map decimal (consoles signers.now.set))) f.new }
{
    // Stays: the consoles' numbers, which are shown.
    for console in 0..16u8 {
        write_signer(f, signers, console)?;
    }
    Ok(())
}

// The consoles of a set, or `-` where it has none, each after a space.
#[derive(Clone, Copy)]
struct SignerList<'a>(&'a Signers);

impl fmt::Display for SignerList<'_> {
    ghost output = { λ s. Some (signers_told s.0.now.set) };

    fn fmt<W: fmt::Write>(&self, f: &mut fmt::Formatter<W>) -> fmt::Result {
        let signers = self.0;
        let set = signers.set;
        if set == 0 {
            f.write_str(" -")
        } else {
            write_each_signer(f, signers)
        }
    }
}

// A message and the places of its parts.
#[derive(Clone, Copy)]
struct Message<'a>(Reading<'a>);

impl fmt::Display for Message<'_> {
    ghost output = { λ m. Some (message_told m.0) };

    fn fmt<W: fmt::Write>(&self, f: &mut fmt::Formatter<W>) -> fmt::Result {
        match self.0 {
            Reading::Proposal {
                body,
                certificate,
                seal,
                value,
            } => {
                let name = value.body.name();
                let parent = value.body.parent;
                write!(
                    f,
                    "proposal {}, name {}, parent {} {}, signers{}, body {}, certificate {}, seal {}, orders {}",
                    value.body.view,
                    Hex(&name),
                    parent.view,
                    Hex(&parent.name),
                    SignerList(&value.certificate.signers),
                    Placed(body),
                    Placed(certificate),
                    Placed(seal),
                    OrderList(value.body.orders.as_slice())
                )
            }
            Reading::Vote { seal, value } => write!(
                f,
                "vote {}, name {}, voter {}, seal {}",
                value.block.view,
                Hex(&value.block.name),
                value.voter,
                Placed(seal)
            ),
        }
    }
}

// What is said of a datagram in a pit of n consoles.
#[derive(Clone, Copy)]
pub struct Said<'a> {
    pub n: u8,
    pub datagram: &'a [u8],
}

impl fmt::Display for Said<'_> {
    ghost output = { λ s. Some (reading_told s.n s.datagram.now) };

    fn fmt<W: fmt::Write>(&self, f: &mut fmt::Formatter<W>) -> fmt::Result {
        match read(self.n, self.datagram) {
            Ok(reading) => write!(f, "{}", Message(reading)),
            Err(refusal) => write!(f, "refused {refusal}"),
        }
    }
}
