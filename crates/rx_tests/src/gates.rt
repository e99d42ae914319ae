//! Gates for tests: one that holds records up and counts how often each place is passed, and one that refuses a worker.
ghost use Rattle.std.specs.Prelude.{true};

use rx_wave::Gate;
use std::alloc::Global;
use std::process::Abort;
use std::sync::atomic::{AtomicU64, Ordering};
use std::thread;

// A held record goes on after this many turns, so a run without another worker next to it ends, too.
const TURNS: u64 = 1_000_000_000;

/// Which records a gate holds up on entering.
#[derive(Clone, Copy)]
pub(crate) enum Holds {
    /// None.
    Nobody,
    /// The first, until the second was left.
    First,
    /// The first and the one at this place, each until the other was entered.
    Both(usize),
}

/// It counts how often each place is passed, and holds records up. Records share a desk at it, or go in shards.
#[derive(Drop)]
pub(crate) struct Passed {
    holds: Holds,
    has_desk: bool,
    // How often each place was entered and left, from place 1.
    entered: Vec<AtomicU64>,
    left: Vec<AtomicU64>,
    // How often a record was held up in vain, or a place passed that there isn't.
    failed: AtomicU64,
}

// No passage of each of these many places.
fn none_passed(rt: &impl Abort, alloc: Global, places: usize) -> Vec<AtomicU64> {
    let mut counts = Vec::new(alloc);
    for _ in 0..places {
        counts.push(AtomicU64::new(0)).expect(rt, "memory");
    }
    counts
}

// How often the place was passed.
fn times_passed(counts: &[AtomicU64], place: usize) -> u64 {
    match counts.get(place.saturating_sub(1)) {
        Some(count) => count.load(Ordering::SeqCst),
        None => 0,
    }
}

// Whether each place was passed once.
fn are_ones(counts: &[AtomicU64]) -> bool {
    counts.iter().all(|count| count.load(Ordering::SeqCst) == 1)
}

impl Passed {
    /// For a batch of this many records, which share a desk.
    pub(crate) fn new(rt: &impl Abort, alloc: Global, holds: Holds, places: usize) -> Passed {
        Passed {
            holds,
            has_desk: true,
            entered: none_passed(rt, alloc, places),
            left: none_passed(rt, alloc, places),
            failed: AtomicU64::new(0),
        }
    }

    /// The same, where the records go in shards.
    pub(crate) fn in_shards(rt: &impl Abort, alloc: Global, holds: Holds, places: usize) -> Passed {
        Passed {
            has_desk: false,
            ..Passed::new(rt, alloc, holds, places)
        }
    }

    /// Whether each place was entered and left once, and no record held up in vain.
    pub(crate) fn is_once(&self) -> bool {
        are_ones(&self.entered) && are_ones(&self.left) && self.failed.load(Ordering::SeqCst) == 0
    }

    fn note(&self, counts: &[AtomicU64], place: usize) {
        let count = counts.get(place.saturating_sub(1)).unwrap_or(&self.failed);
        count.fetch_add(1, Ordering::SeqCst);
    }

    fn wait_for(&self, counts: &[AtomicU64], place: usize) {
        for _ in 0..TURNS {
            if times_passed(counts, place) != 0 {
                return;
            }
            thread::yield_now();
        }
        self.failed.fetch_add(1, Ordering::SeqCst);
    }
}

impl Gate for Passed {
    ghost starts = { λ _ _. true };

    fn start(&self, _worker: usize) -> bool {
        true
    }

    fn enter(&self, place: usize) {
        self.note(&self.entered, place);
        match self.holds {
            Holds::First if place == 1 => self.wait_for(&self.left, 2),
            Holds::Both(other) if place == 1 => self.wait_for(&self.entered, other),
            Holds::Both(other) if place == other => self.wait_for(&self.entered, 1),
            _ => {}
        }
    }

    fn leave(&self, place: usize) {
        self.note(&self.left, place);
    }

    fn holds_up(&self) -> bool {
        self.has_desk
    }
}

/// It refuses to start the worker of this number.
#[derive(Clone, Copy)]
pub(crate) struct Without(pub(crate) usize);

impl Gate for Without {
    ghost use Rattle.std.specs.Prelude.{not, ◌==◌};

    ghost starts = { λ gate worker. not (worker == gate.0) };

    fn start(&self, worker: usize) -> bool {
        worker != self.0
    }

    fn enter(&self, _place: usize) {}

    fn leave(&self, _place: usize) {}
}
