ghost use Rattle.std.specs.Prelude.{◌≡◌};
ghost use Rattle.parts.specs.declared.store.Marks.{Marks};

pub mod held;
pub mod image;

// What a console must not forget: its lock, and the last views that it voted and proposed in.
#[derive(Clone, Copy, Default, PartialEq, Eq)]
pub struct Marks {
    pub lock: u32,
    pub voted: u32,
    pub proposed: u32,
}

// A store by the three numbers that it keeps.
pub trait Store {
    ghost kept: { Self → Marks };

    // Answers the numbers and alters nothing.
    fn load(&self) -> Marks
        ensures { result ≡ kept self.now };

    // Makes these the saved ones.
    fn save(&mut self, marks: Marks)
        ensures { kept self.new ≡ marks };
}

// Saving and then loading gives back what was saved.
pub fn save_and_load<S: Store>(store: &mut S, marks: Marks) -> Marks
    ensures given { result ≡ marks }
    ensures left { S.Store.kept store.new ≡ marks }
{
    store.save(marks);
    store.load()
}
