ghost use Rattle.std.specs.Prelude.{◌≡◌, Some, None};
ghost use Rattle.rules.specs.Blocks.{has_room, held, is_held, put as put_block, slot_key, swept, where_held};
ghost use Rattle.rules.specs.Settle.{fresh};
ghost use Rattle.shelf.specs.Slots.{Inside};
ghost use Rattle.wire.specs.Format.{same_key};
ghost use Rattle.ledger.specs.Handed.{Emptied};

use rules::block::Block;
use shelf::slots;
use wire::body::Body;
use wire::certificate::Signers;
use wire::key::Key;

// The lowest slot that has the key.
// Stays: a struct of shelf and key is no plainer, since it would be made for one look-up and let go.
pub fn find(shelf: &[Option<Block>], key: &Key) -> Option<usize>
    ensures inside { Inside result shelf.now }
    ensures slot { result ≡ where_held key.now shelf.now }
{
    slots::find(shelf, key)
}

// Whether a block of that key is held.
pub fn is_held(shelf: &[Option<Block>], key: &Key) -> bool
    ensures { result ≡ is_held key.now shelf.now }
{
    find(shelf, key).is_some()
}

// The block held under the key.
pub fn held(shelf: &[Option<Block>], key: &Key) -> Option<Block>
    ensures { result ≡ held key.now shelf.now }
{
    shelf[find(shelf, key)?]
}

// Whether some slot is empty.
pub fn has_room(shelf: &[Option<Block>]) -> bool
    ensures { result ≡ has_room shelf.now }
{
    slots::vacant(shelf).is_some()
}

// A new block, with an empty tally.
fn fresh_block(body: &Body, name: &[u8; 32]) -> Block
    ensures { result ≡ fresh body.now name.now }
{
    Block {
        body: *body,
        name: *name,
        tally: Signers::none(),
    }
}

// Puts a new block into the lowest empty slot; a full shelf stays as it is.
pub fn place(shelf: &mut [Option<Block>], body: &Body, name: &[u8; 32])
    ensures { shelf.new ≡ put_block (fresh body.now name.now) shelf.old }
{
    let _ = slots::put(shelf, Some(fresh_block(body, name)));
}

// Whether the slot is to be emptied: its block is of view up to this one.
fn is_spent(slot: &Option<Block>, view: u32) -> bool
    ensures { Emptied result view slot.now }
{
    slot.as_ref().is_some_and(|block| block.body.view <= view)
}

// Empties the slots of view up to this one.
pub(crate) fn sweep(shelf: &mut [Option<Block>], view: u32)
    ensures { shelf.new ≡ swept view shelf.old }
{
    for slot in shelf.iter_mut() {
        if is_spent(slot, view) {
            *slot = None;
        }
    }
}
