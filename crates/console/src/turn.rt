ghost use Rattle.std.specs.Prelude.{◌≡◌};

// The right to propose once in a view. A tick answers it, and it is owed: it can only be spent, by propose or pass.
pub struct Turn {
    pub(crate) console: u8,
    pub(crate) view: u32,
}

impl Turn {
    // The view that may be proposed in.
    pub fn view(&self) -> u32
        ensures { result ≡ self.now.view }
    {
        self.view
    }

    // Spends the turn and does nothing else.
    pub fn pass(self) {
        // Stays: each field by its name: `..` would need a turn that may be let go.
        let Turn {
            console: _,
            view: _,
        } = self;
    }
}
