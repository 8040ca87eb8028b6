ghost use Rattle.std.specs.Prelude.{◌≡◌, ◌+◌, ◌&&◌, ◌==◌};
ghost use Rattle.rules.specs.Blocks.{some_slot};
ghost use Rattle.rules.specs.Settle.{best, certified, confirms, higher, names_parent, reaches, ready};
ghost use Rattle.ledger.specs.Handed.{awaits};

use crate::branches::Branches;
use crate::quorum::is_quorum;
use rules::block::Block;
use shelf::record::Keyed;
use wire::key::Key;

// Of two slots the one of higher view, the first on a tie.
fn higher_of(first: &Option<Block>, second: &Option<Block>) -> Option<Block>
    ensures { result ≡ higher first.now second.now }
{
    match (first, second) {
        (Some(a), Some(b)) if a.body.view < b.body.view => *second,
        (Some(_), _) => *first,
        (None, _) => *second,
    }
}

impl<'a> Branches<'a> {
    // Whether some held block names the key as its parent.
    fn has_child(&self, key: &Key) -> bool
        ensures { result ≡ some_slot (names_parent key.now) self.now.shelf.now }
    {
        self.shelf.iter().any(|slot| slot.as_ref().is_some_and(|child| child.body.parent == *key))
    }

    // Whether a held block is certified: by its tally, or by a held child.
    fn is_certified(&self, block: &Block) -> bool
        ensures { result ≡ certified self.now.n self.now.shelf.now block.now }
    {
        is_quorum(self.n, block.tally.set) || self.has_child(&block.key())
    }

    // Whether the block is certified and comes right after that view.
    fn is_certified_after(&self, block: &Block, before: u32) -> bool
        ensures { result ≡ (block.now.body.view == before + 1 && certified self.now.n self.now.shelf.now block.now) }
    {
        block.body.view.checked_sub(1) == Some(before) && self.is_certified(block)
    }

    // Whether the slot's block is a certified child of the block, of the next view.
    fn is_confirmed_by(&self, block: &Block, slot: &Option<Block>) -> bool
        ensures { result ≡ confirms self.now.n self.now.shelf.now block.now slot.now }
    {
        let Some(child) = slot else {
            return false;
        };
        child.body.parent == block.key() && self.is_certified_after(child, block.body.view)
    }

    // Whether some held block is a certified child of the block, of the next view.
    fn is_confirmed(&self, block: &Block) -> bool
        ensures { result ≡ some_slot (confirms self.now.n self.now.shelf.now block.now) self.now.shelf.now }
    {
        self.shelf
            .iter()
            .any(|slot| self.is_confirmed_by(block, slot))
    }

    // Whether the block is confirmed and the line of its parents reaches the head.
    fn is_final(&self, block: &'a Block) -> bool
        ensures { result ≡ (some_slot (confirms self.now.n self.now.shelf.now block.now) self.now.shelf.now && reaches self.now.shelf.now self.now.head block.now) }
    {
        self.is_confirmed(block) && self.reaches_head(block)
    }

    // Whether the slot's block can be handed over: it is above the head and confirmed, and its line reaches the head.
    fn is_ready(&self, slot: &'a Option<Block>) -> bool
        ensures { result ≡ ready self.now.n self.now.shelf.now self.now.head slot.now }
    {
        let Some(block) = slot else {
            return false;
        };
        self.head.view < block.body.view && self.is_final(block)
    }

    // The block to be handed over: of those that can be, the one of highest view, in the lowest slot on a tie.
    pub(crate) fn best_ready(&self) -> Option<Block>
        ensures { result ≡ best (ready self.now.n self.now.shelf.now self.now.head) self.now.shelf.now }
    {
        self.shelf
            .iter()
            .rev()
            .filter(|slot| self.is_ready(slot))
            .fold(None, |found, slot| higher_of(slot, &found))
    }

    // Whether the slot's block is certified and comes right after a parent above the head.
    fn is_awaited(&self, slot: &Option<Block>) -> bool
        ensures { result ≡ awaits self.now.n self.now.shelf.now self.now.head slot.now }
    {
        let Some(child) = slot else {
            return false;
        };
        let before = child.body.parent.view;
        self.head.view < before && self.is_certified_after(child, before)
    }

    // Whether anything may be handed over at all: one look at each slot, which mostly ends the matter.
    pub(crate) fn may_settle(&self) -> bool
        ensures { result ≡ some_slot (awaits self.now.n self.now.shelf.now self.now.head) self.now.shelf.now }
    {
        self.shelf.iter().any(|slot| self.is_awaited(slot))
    }
}
