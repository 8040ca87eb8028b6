// A board in words.
ghost use Rattle.std.specs.Prelude.{◌≡◌, Some};
ghost use Rattle.std.specs.Fmt.{WritesOnOk};
ghost use Rattle.std.specs.List.{flat_map};
ghost use Rattle.telling.specs.Shown.{assignment_told, line_told, place_told, places_up_to, tonnage_told};

use boards::assignment::line::Line;
use boards::tonnage::Tonnage;
use std::fmt;

// A line of the table, after a space.
#[derive(Clone, Copy)]
struct TruckLine<'a>(&'a Option<Line>);

impl fmt::Display for TruckLine<'_> {
    ghost output = { λ l. Some (line_told l.0.now) };

    fn fmt<W: fmt::Write>(&self, f: &mut fmt::Formatter<W>) -> fmt::Result {
        match *self.0 {
            Some(line) => write!(f, " {}@{}", line.truck, line.place),
            None => f.write_str(" -"),
        }
    }
}

// Stays: each loop writes items of its own kind with their own words between; one for all would take both as closures.
fn write_lines<W: fmt::Write>(f: &mut fmt::Formatter<W>, lines: &[Option<Line>]) -> fmt::Result
    ensures { WritesOnOk W.write_str_gives f.old result (flat_map line_told lines.now) f.new }
{
    for line in lines {
        write!(f, "{}", TruckLine(line))?;
    }
    Ok(())
}

// An assignment board: the lines of its table in sequence.
#[derive(Clone, Copy)]
pub struct TruckLines<'a>(pub &'a [Option<Line>]);

impl fmt::Display for TruckLines<'_> {
    ghost output = { λ l. Some (assignment_told l.0.now) };

    fn fmt<W: fmt::Write>(&self, f: &mut fmt::Formatter<W>) -> fmt::Result {
        f.write_str("assignment")?;
        write_lines(f, self.0)
    }
}

// A place after a space, or nothing if no load came to it or there is no such place.
#[derive(Clone, Copy)]
struct PlaceLoads<'a> {
    board: &'a Tonnage,
    number: u16,
}

impl fmt::Display for PlaceLoads<'_> {
    ghost output = { λ p. Some (place_told p.board.now.places p.number) };

    fn fmt<W: fmt::Write>(&self, f: &mut fmt::Formatter<W>) -> fmt::Result {
        let number = self.number;
        let Some(place) = self.board.place(number) else {
            return Ok(());
        };
        let Some(tonnes) = self.board.tonnes(number) else {
            return Ok(());
        };
        if place.loads == 0 {
            return Ok(());
        }
        write!(f, " {number}:{}/{}/{tonnes}", place.loads, place.tenths)
    }
}

fn write_places<W: fmt::Write>(f: &mut fmt::Formatter<W>, board: &Tonnage) -> fmt::Result
    ensures { WritesOnOk W.write_str_gives f.old result (places_up_to 64 board.now.places) f.new }
{
    // Stays: the places' numbers, which are shown.
    for number in 1..65u16 {
        write!(f, "{}", PlaceLoads { board, number })?;
    }
    Ok(())
}

// A tonnage board: the places that have loads, by rising number.
#[derive(Clone, Copy)]
pub struct Tonnes<'a>(pub &'a Tonnage);

impl fmt::Display for Tonnes<'_> {
    ghost output = { λ t. Some (tonnage_told t.0.now.places) };

    fn fmt<W: fmt::Write>(&self, f: &mut fmt::Formatter<W>) -> fmt::Result {
        f.write_str("tonnage")?;
        write_places(f, self.0)
    }
}
