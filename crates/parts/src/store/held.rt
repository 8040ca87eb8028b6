ghost use Rattle.std.specs.Prelude.{◌≡◌};

use super::{Marks, Store};

// Three held numbers.
#[derive(Clone, Copy)]
pub struct HeldNumbers {
    marks: Marks,
}

impl HeldNumbers {
    pub fn new(marks: Marks) -> Self
        ensures { result.marks ≡ marks }
    {
        HeldNumbers { marks }
    }
}

impl Store for HeldNumbers {
    ghost kept = { λ s. s.marks };

    fn load(&self) -> Marks {
        self.marks
    }

    fn save(&mut self, marks: Marks) {
        *self = Self::new(marks);
    }
}
