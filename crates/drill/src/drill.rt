use crate::cab::Cab;
use console::answers::{Heard, Ticked};
use console::turn::Turn;
use std::alloc::{AllocError, Global};
use wire::message::{Proposal, Vote};
use wire::order::Order;

// What was done so far.
#[derive(Clone, Copy, Default)]
pub struct Counts {
    pub calls: u64,
    pub proposals: u64,
    pub votes: u64,
    // blocks handed over, at all consoles together
    pub handed: u64,
}

impl Counts {
    // One call more, which handed over so many blocks.
    fn add_call(&mut self, handed: usize) {
        self.calls = self.calls.saturating_add(1);
        self.handed = self.handed.saturating_add(handed as u64);
    }
}

// The consoles of a pit, and the votes of the view that is being played.
#[derive(Drop)]
pub struct Drill {
    cabs: Vec<Cab>,
    votes: Vec<[u8; Vote::LENGTH]>,
    counts: Counts,
}

// Eight loads, each to a place of its own.
fn loads() -> [Order; 8] {
    [1, 2, 3, 4, 5, 6, 7, 8].map(|number| Order::Load {
        truck: number,
        place: number,
        amount: 100,
    })
}

// A key for each number.
fn keys() -> [[u8; 32]; 16] {
    [1, 2, 3, 4, 5, 6, 7, 8, 9, 10, 11, 12, 13, 14, 15, 16].map(|byte| [byte; 32])
}

// The bytes are heard by every console but the one that made them.
fn tell_others(cabs: &mut [Cab], counts: &mut Counts, from: usize, bytes: &[u8]) {
    for (i, cab) in cabs.iter_mut().enumerate() {
        if i == from {
            continue;
        }
        match cab.hear(bytes) {
            Ok(Heard::New(handed)) => counts.add_call(handed),
            Ok(Heard::Known) => counts.add_call(0),
            Err(_) => {}
        }
    }
}

// Ticks one console; its vote is kept, and its turn answered.
fn tick(
    cab: &mut Cab,
    votes: &mut Vec<[u8; Vote::LENGTH]>,
    counts: &mut Counts,
    t: u32,
) -> Result<Option<Turn>, AllocError> {
    match cab.tick(t) {
        Ok(Ticked::Turn(turn)) => {
            counts.add_call(0);
            Ok(Some(turn))
        }
        Ok(Ticked::Vote(vote, handed)) => {
            counts.add_call(handed);
            votes.push(vote.vote().bytes())?;
            Ok(None)
        }
        Ok(Ticked::Nothing) => {
            counts.add_call(0);
            Ok(None)
        }
        Err(_) => Ok(None),
    }
}

impl Drill {
    // A pit of n consoles, all open; an empty one if there is no pit of that size.
    pub fn new(alloc: Global, n: u8) -> Result<Drill, AllocError> {
        let mut cabs = Vec::new(alloc);
        let keys = keys();
        // Stays: the consoles' own numbers, before there is a list of them.
        for own in 0..n {
            if let Some(cab) = Cab::open(alloc, n, own, &keys)? {
                cabs.push(cab)?;
            }
        }
        Ok(Drill {
            cabs,
            votes: Vec::new(alloc),
            counts: Counts::default(),
        })
    }

    pub fn counts(&self) -> Counts {
        self.counts
    }

    // How many blocks the first console handed over.
    pub fn first_count(&self) -> u64 {
        self.cabs.first().map_or(0, |cab| cab.count())
    }

    // Spends a turn on eight loads, which all others hear.
    fn propose(&mut self, i: usize, turn: Turn) {
        let Some(cab) = self.cabs.get_mut(i) else {
            turn.pass();
            return;
        };
        // Stays: the console writes into what it is lent.
        let mut out = [0; Proposal::LONGEST];
        let Ok(proposed) = cab.propose(turn, &loads(), &mut out) else {
            return;
        };
        self.counts.add_call(proposed.handed);
        self.counts.proposals = self.counts.proposals.saturating_add(1);
        let message = &out[0..proposed.length.min(Proposal::LONGEST)];
        tell_others(self.cabs.as_mut_slice(), &mut self.counts, i, message);
    }

    // Every console ticks for the view; its leader's turn is answered with the leader's number.
    fn tick_all(&mut self, t: u32) -> Result<Option<(usize, Turn)>, AllocError> {
        let mut held = None;
        for (i, cab) in self.cabs.iter_mut().enumerate() {
            match tick(cab, &mut self.votes, &mut self.counts, t) {
                Ok(Some(turn)) => {
                    if let Some((_, old)) = held.replace((i, turn)) {
                        old.pass();
                    }
                }
                Ok(None) => {}
                Err(e) => {
                    if let Some((_, old)) = held {
                        old.pass();
                    }
                    return Err(e);
                }
            }
        }
        Ok(held)
    }

    // One view: all tick, the leader proposes, all hear it, all vote, all hear all votes.
    pub fn play_view(&mut self, view: u32) -> Result<(), AllocError> {
        let t = view.saturating_mul(2);
        if let Some((leader, turn)) = self.tick_all(t)? {
            self.propose(leader, turn);
        }
        if let Some((_, turn)) = self.tick_all(t.saturating_add(1))? {
            turn.pass();
        }
        self.tell_votes();
        Ok(())
    }

    // All hear the votes of the others.
    fn tell_votes(&mut self) {
        for (i, bytes) in self.votes.iter().enumerate() {
            self.counts.votes = self.counts.votes.saturating_add(1);
            tell_others(self.cabs.as_mut_slice(), &mut self.counts, i, bytes);
        }
        self.votes.clear();
    }
}
