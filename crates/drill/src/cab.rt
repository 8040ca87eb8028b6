// One console with its shelf.
use boards::tonnage::Tonnage;
use console::answers::{Heard, Proposed, Ticked};
use console::console::Console;
use console::console::opening::open;
use console::permit::granting::permit;
use console::turn::Turn;
use parts::seals::keyed::KeyedSeals;
use parts::store::Marks;
use parts::store::held::HeldNumbers;
use rules::block::Block;
use rules::refusal::Refusal;
use std::alloc::{AllocError, Global};
use wire::order::Order;

// Stays: not one type with the pit's seat, which has other parts and a turn that it must not let go.
#[derive(Drop)]
pub struct Cab {
    console: Console<KeyedSeals, HeldNumbers, Tonnage>,
    shelf: Vec<Option<Block>>,
}

impl Cab {
    // Opens a console with keyed seals, a tonnage board and 64 slots; none if there is no such number in a pit of n.
    pub fn open(
        alloc: Global,
        n: u8,
        own: u8,
        keys: &[[u8; 32]; 16],
    ) -> Result<Option<Cab>, AllocError> {
        let mut shelf = vec![in alloc; None; 64]?;
        let Ok(permit) = permit(n, own) else {
            return Ok(None);
        };
        let Some(seals) = KeyedSeals::new(own, keys) else {
            return Ok(None);
        };
        let store = HeldNumbers::new(Marks::default());
        let console = open(permit, seals, store, Tonnage::new(), shelf.as_mut_slice());
        Ok(Some(Cab { console, shelf }))
    }

    pub fn tick(&mut self, t: u32) -> Result<Ticked, Refusal> {
        self.console.tick(self.shelf.as_mut_slice(), t)
    }

    pub fn propose(
        &mut self,
        turn: Turn,
        orders: &[Order],
        out: &mut [u8],
    ) -> Result<Proposed, Refusal> {
        self.console
            .propose(self.shelf.as_mut_slice(), turn, orders, out)
    }

    pub fn hear(&mut self, bytes: &[u8]) -> Result<Heard, Refusal> {
        self.console.hear(self.shelf.as_mut_slice(), bytes)
    }

    // How many blocks were handed over.
    pub fn count(&self) -> u64 {
        self.console.look().count
    }
}
