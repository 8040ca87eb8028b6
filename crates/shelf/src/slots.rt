ghost use Rattle.std.specs.Prelude.{◌≡◌, length, replicate, slice_set};
ghost use Rattle.shelf.specs.Slots.{Inside, find, lowest, placed, shows, vacant as lowest-vacant};

use crate::record::Record;

// The lowest slot that has the key that is sought, or is empty if none is sought.
fn search<R: Record>(slots: &[R], sought: Option<R::Key>) -> Option<usize>
    ensures inside { Inside result slots.now }
    ensures slot { result ≡ lowest (λ s. shows R.Key.eq sought (R.Record.key s)) slots.now }
{
    slots.iter().position(|slot| slot.key() == sought)
}

// The lowest slot that has the key.
pub fn find<R: Record>(slots: &[R], key: &R::Key) -> Option<usize>
    ensures inside { Inside result slots.now }
    ensures slot { result ≡ find R.Key.eq R.Record.key key.now slots.now }
{
    search(slots, Some(*key))
}

// The lowest empty slot.
pub fn vacant<R: Record>(slots: &[R]) -> Option<usize>
    ensures inside { Inside result slots.now }
    ensures slot { result ≡ lowest-vacant R.Record.key slots.now }
{
    search(slots, None)
}

// Writes a record over a slot; a number past the last slot changes nothing.
// Stays: `get_mut` was tried; that it leaves the slice with this one item changed was left open.
pub fn replace<R: Record>(slots: &mut [R], at: usize, item: R)
    ensures { slots.new ≡ slice_set slots.old at item }
{
    if at < slots.len() {
        slots[at] = item;
    }
}

// Puts the record into the lowest empty slot. With no slot empty all stays as it was.
pub fn put<R: Record>(slots: &mut [R], item: R) -> Option<usize>
    ensures inside { Inside result slots.old }
    ensures slot { result ≡ lowest-vacant R.Record.key slots.old }
    ensures table { slots.new ≡ placed result item slots.old }
{
    let free = vacant(slots)?;
    replace(slots, free, item);
    Some(free)
}

// Empties a slot; a number past the last slot changes nothing.
pub fn clear<R: Record>(slots: &mut [R], at: usize)
    ensures { slots.new ≡ slice_set slots.old at R.Record.empty }
{
    replace(slots, at, R::empty());
}

// Writes a record over every slot.
// Stays: the slice's own `fill` was tried; that a record's `clone` never fails and gives the record itself was left open.
fn fill<R: Record>(slots: &mut [R], item: R)
    ensures { slots.new ≡ replicate (length slots.old) item }
{
    for slot in slots.iter_mut() {
        *slot = item;
    }
}

// Empties every slot.
pub fn clear_all<R: Record>(slots: &mut [R])
    ensures { slots.new ≡ replicate (length slots.old) R.Record.empty }
{
    fill(slots, R::empty());
}
