// The examples of handing over, through a running console: a parent of view 3 and a certified child.
use boards::tonnage::Tonnage;
use console::answers::{Heard, Ticked};
use console::console::Console;
use console::console::opening::open;
use console::permit::granting::permit;
use parts::seals::Seals;
use parts::seals::stamp::OpenStamp;
use parts::store::Marks;
use parts::store::held::HeldNumbers;
use rules::block::Block;
use wire::body::Body;
use wire::certificate::{Certificate, Signers};
use wire::key::Key;
use wire::message::{Proposal, Vote};
use wire::orders::Orders;
use wire::statement::{Purpose, Statement};

// A console of a pit of four, with its shelf.
// Stays: not one type with the drill's cab: other seals, and an array for a shelf, so that opening it needs no memory.
#[derive(Drop)]
struct Listener {
    console: Console<OpenStamp, HeldNumbers, Tonnage>,
    shelf: [Option<Block>; 8],
    // how many blocks were handed over
    handed: usize,
}

// The stamp of a console below 16, which anybody can make.
fn stamp(signer: u8, purpose: Purpose, block: Key) -> [u8; 16] {
    OpenStamp::new(signer).map_or([0; 16], |seals| seals.seal(&Statement { purpose, block }))
}

// A body without orders.
fn body(view: u32, parent: Key) -> Option<Body> {
    let orders = Orders::new(&[])?;
    Some(Body {
        view,
        parent,
        orders,
    })
}

// The certificate of a block by the consoles 0, 1 and 2.
fn certificate(block: Key) -> Certificate {
    let mut signers = Signers::none();
    signers.set = 7;
    for (signer, seal) in (0..3u8).zip(signers.seals.iter_mut()) {
        *seal = stamp(signer, Purpose::Vote, block);
    }
    Certificate { block, signers }
}

impl Listener {
    fn open() -> Option<Listener> {
        let permit = permit(4, 0).ok()?;
        let seals = OpenStamp::new(0)?;
        let store = HeldNumbers::new(Marks::default());
        let mut shelf = [None; 8];
        let console = open(permit, seals, store, Tonnage::new(), &mut shelf);
        Some(Listener {
            console,
            shelf,
            handed: 0,
        })
    }

    fn hear(&mut self, bytes: &[u8]) {
        if let Ok(Heard::New(handed)) = self.console.hear(&mut self.shelf, bytes) {
            self.handed = self.handed.saturating_add(handed);
        }
    }

    // Hears the body with a certificate for its parent, sealed by the view's leader.
    fn hear_proposal(&mut self, body: &Body, certificate: Certificate) {
        let leader = (body.view % 4) as u8;
        let proposal = Proposal {
            body: *body,
            certificate,
            seal: stamp(leader, Purpose::Propose, body.key()),
        };
        // Stays: the writer of a proposal needs room, which is the host's.
        let mut out = [0; Proposal::LONGEST];
        if let Some(length) = proposal.write(&mut out) {
            self.hear(&out[0..length.min(Proposal::LONGEST)]);
        }
    }

    // Hears the votes of the consoles 1, 2 and 3 for the block.
    fn hear_votes(&mut self, block: Key) {
        // Stays: the voters' numbers; nothing is looked up by them.
        for voter in 1..4u8 {
            let vote = Vote {
                block,
                voter,
                seal: stamp(voter, Purpose::Vote, block),
            };
            self.hear(&vote.bytes());
        }
    }

    // The clock goes to the first tick of a view; no turn comes of it, since console 0 leads view 4 and not 6.
    fn tick(&mut self, t: u32) {
        match self.console.tick(&mut self.shelf, t) {
            Ok(Ticked::Turn(turn)) => turn.pass(),
            // Stays: an arm for each, since one pattern for all three would let a tick go, in which a turn may be.
            Ok(Ticked::Vote(_, _)) => {}
            Ok(Ticked::Nothing) => {}
            Err(_) => {}
        }
    }
}

// How many blocks are handed over when a parent of view 3 has a certified child of this view.
pub fn handed_over(child_view: u32) -> Option<usize> {
    let parent = body(3, Key::origin())?;
    let child = body(child_view, parent.key())?;
    let mut listener = Listener::open()?;
    listener.tick(12);
    listener.hear_proposal(&parent, Certificate::origin());
    listener.hear_proposal(&child, certificate(parent.key()));
    listener.hear_votes(child.key());
    Some(listener.handed)
}
