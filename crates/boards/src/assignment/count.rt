ghost use Rattle.std.specs.Prelude.{◌≡◌};
ghost use Rattle.boards.specs.Trucks.{trucks_at};

use super::line::Line;

// How many trucks are at a place.
pub fn trucks_at(lines: &[Option<Line>], place: u16) -> usize
    ensures { result ≡ trucks_at place lines.now }
{
    lines
        .iter()
        .filter(|line| line.is_some_and(|held| held.place == place))
        .count()
}
