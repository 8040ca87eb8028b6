ghost use Rattle.std.specs.Prelude.{◌≡◌, true, None, Option};
ghost use Rattle.shelf.specs.Slots.{shown};
ghost use Rattle.std.proofs.Common.{rules};

// A record of a table. It has a key, of its own kind, unless it is in its empty form.
pub trait Record: Copy {
    type Key: Copy + Eq;

    // the key, none for what is empty
    ghost key: { Self → Option Self.Key };

    // the empty form
    ghost empty: { Self };

    fn key(&self) -> Option<Self::Key>
        ensures { result ≡ key self.now };

    fn empty() -> Self
        ensures { result ≡ empty };

    ghost blank: { key empty ≡ None };

    // keys that `==` finds equal are one key
    ghost equal: { (a b : Self.Key) → Self.Key.eq a b ≡ true → a ≡ b };
}

// A value with a key of its own kind: what may stand in a slot.
// Stays: a trait beside `Record`, since a value that always has a key has no empty form; the slot of one has both.
pub trait Keyed: Copy {
    type Key: Copy + Eq;

    ghost key: { Self → Self.Key };

    fn key(&self) -> Self::Key
        ensures { result ≡ key self.now };

    // keys that `==` finds equal are one key
    ghost equal: { (a b : Self.Key) → Self.Key.eq a b ≡ true → a ≡ b };
}

// A slot that may be empty is a record.
impl<T: Keyed> Record for Option<T> {
    type Key = T::Key;

    ghost key = { shown T.Keyed.key };

    ghost empty = { None };

    ghost blank = { Prim.search rules };

    ghost equal = { Prim.search rules };

    fn key(&self) -> Option<T::Key> {
        self.as_ref().map(|held| held.key())
    }

    fn empty() -> Self {
        None
    }
}
