ghost use Rattle.std.specs.Prelude.{◌≡◌, ◌+◌, ◌≤◌, None, Some, if◌then◌else◌, nat_le};
ghost use Rattle.boards.specs.Bounds.{most};
ghost use Rattle.boards.specs.Tally.{marked, read_out};

// The most tenths of a tonne that a place can have.
const MOST: u64 = 9_999_999_999;

// What came to one place: the loads, and their sum in tenths of a tonne.
#[derive(Clone, Copy, Default)]
pub struct Place {
    pub loads: u64,
    pub tenths: u64,
}

impl Place {
    // The place with one load more, if its tenths stay in their bound.
    pub(crate) fn with(self, amount: u16) -> Option<Place>
        requires loads { self.loads ≤ most }
        requires tenths { self.tenths ≤ most }
        ensures { result ≡ if nat_le (self.tenths + amount) most then Some (marked self amount) else None }
    {
        let tenths = self.tenths + u64::from(amount);
        if tenths > MOST {
            return None;
        }
        Some(Place {
            loads: self.loads + 1,
            tenths,
        })
    }

    // The tenths in whole tonnes.
    pub(crate) fn tonnes(self) -> u64
        requires { self.tenths ≤ most }
        ensures { result ≡ read_out self.tenths }
    {
        (self.tenths + 5) / 10
    }
}
