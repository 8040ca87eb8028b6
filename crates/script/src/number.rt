// The types that a field's number may have.
ghost use Rattle.std.specs.Prelude.{◌≡◌, ℕ, ◌<◌, ◌≤◌, MatchOption};

pub trait Number: Copy {
    // the number that a value is
    ghost number: { Self → ℕ };

    fn wide(self) -> u64
        ensures { result ≡ number self };

    // The number as a value of this type, unless it is above the highest.
    fn narrow(n: u64, highest: Self) -> Option<Self>
        ensures { MatchOption result (number highest < n) (λ v. (number v ≡ n) × (n ≤ number highest)) };
}

// Stays: the width is known to each type alone, and an impl may not come from a macro.
impl Number for u8 {
    ghost number = { λ n. n };

    fn wide(self) -> u64 {
        u64::from(self)
    }

    fn narrow(n: u64, highest: u8) -> Option<u8> {
        if n <= u64::from(highest) {
            Some(n as u8)
        } else {
            None
        }
    }
}

impl Number for u16 {
    ghost number = { λ n. n };

    fn wide(self) -> u64 {
        u64::from(self)
    }

    fn narrow(n: u64, highest: u16) -> Option<u16> {
        if n <= u64::from(highest) {
            Some(n as u16)
        } else {
            None
        }
    }
}

impl Number for u32 {
    ghost number = { λ n. n };

    fn wide(self) -> u64 {
        u64::from(self)
    }

    fn narrow(n: u64, highest: u32) -> Option<u32> {
        if n <= u64::from(highest) {
            Some(n as u32)
        } else {
            None
        }
    }
}

impl Number for u64 {
    ghost number = { λ n. n };

    fn wide(self) -> u64 {
        self
    }

    fn narrow(n: u64, highest: u64) -> Option<u64> {
        if n <= highest { Some(n) } else { None }
    }
}
