ghost use Rattle.std.specs.Prelude.{◌≡◌, length, replicate, slice_set};
ghost use Rattle.shelf.specs.Slots.{Inside, find, placed, vacant as lowest-vacant};

use crate::record::Record;
use crate::slots;

// A table of records that the host lends.
// Stays: `lent` and `Inside` tie a call's after or answer to its before, which no invariant of one value says.
#[derive(Drop)]
pub struct Shelf<'a, R> {
    slots: &'a mut [R],
}

impl<'a, R: Record> Shelf<'a, R> {
    // The table as it stands.
    pub fn over(slots: &'a mut [R]) -> Self
        ensures table { result.slots.now ≡ slots.old }
        ensures lent { result.slots.ghost_name ≡ slots.entry.ghost_name }
    {
        Shelf { slots }
    }

    // The lowest slot that has the key.
    // Stays: a host that holds the bare slice calls `slots::find`, so the methods hand the slice on.
    pub fn find(&self, key: &R::Key) -> Option<usize>
        ensures inside { Inside result self.now.slots.now }
        ensures slot { result ≡ find R.Key.eq R.Record.key key.now self.now.slots.now }
    {
        slots::find(self.slots, key)
    }

    // The lowest empty slot.
    pub fn vacant(&self) -> Option<usize>
        ensures inside { Inside result self.now.slots.now }
        ensures slot { result ≡ lowest-vacant R.Record.key self.now.slots.now }
    {
        slots::vacant(self.slots)
    }

    // Puts the record into the lowest empty slot. With no slot empty all stays as it was.
    pub fn put(&mut self, item: R) -> Option<usize>
        ensures inside { Inside result self.old.slots.now }
        ensures slot { result ≡ lowest-vacant R.Record.key self.old.slots.now }
        ensures table { self.new.slots.now ≡ placed result item self.old.slots.now }
        ensures lent { self.new.slots.ghost_name ≡ self.old.slots.ghost_name }
    {
        slots::put(self.slots, item)
    }

    // Empties a slot; a number past the last slot changes nothing.
    pub fn clear(&mut self, at: usize)
        ensures table { self.new.slots.now ≡ slice_set self.old.slots.now at R.Record.empty }
        ensures lent { self.new.slots.ghost_name ≡ self.old.slots.ghost_name }
    {
        slots::clear(self.slots, at)
    }

    // Empties every slot.
    pub fn clear_all(&mut self)
        ensures table { self.new.slots.now ≡ replicate (length self.old.slots.now) R.Record.empty }
        ensures lent { self.new.slots.ghost_name ≡ self.old.slots.ghost_name }
    {
        slots::clear_all(self.slots)
    }

    // Every slot, to be read.
    pub fn slots(&self) -> &[R]
        ensures { result.now ≡ self.now.slots.now }
    {
        &*self.slots
    }

    // Writes a record over a slot, which keeps its place; a number past the last slot changes nothing.
    pub fn replace(&mut self, at: usize, item: R)
        ensures table { self.new.slots.now ≡ slice_set self.old.slots.now at item }
        ensures lent { self.new.slots.ghost_name ≡ self.old.slots.ghost_name }
    {
        slots::replace(self.slots, at, item)
    }
}
