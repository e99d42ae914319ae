// What no clause says: that records are answered, and not out of memory. Cases are those of tests/cases/README.md.
ghost use Rattle.std.specs.Prelude.{true};

use crate::one_billing::BOOKS;
use crate::same::same;
use crate::worked::{base, books, lot, plain_sheet, record, rejected, reversal, today};
use rx_d0_values::Transmission;
use rx_wave::{Finished, Gate, run_one};
use std::alloc::Global;
use std::cell::Cell;
use std::process::Abort;

/// The record of the base claim with this reference and family.
pub(crate) fn claim(rt: &impl Abort, alloc: Global, number: u64, family: &[u8]) -> Transmission {
    today(rt, alloc, &[base(rt, number, family)])
}

// The reversal of the case reversal-of-last-years-claim.
fn last_years_reversal(rt: &impl Abort, alloc: Global) -> Transmission {
    record(rt, alloc, b"20251230", &[reversal(rt, 90)])
}

// What comes of the records on the opening books, past the gate.
fn run(rt: &impl Abort, gate: &impl Gate, alloc: Global, asked: Vec<Transmission>) -> Finished {
    let (sheet, books) = (plain_sheet(rt, alloc), books(rt, alloc, BOOKS));
    assert!(rt; books.period() == sheet.period(), "one period");
    assert!(rt; asked.len() <= 100_000, "a batch");
    let finished = run_one(alloc, gate, lot(rt, 42), &sheet, &books, &asked);
    drop((sheet, books, asked));
    finished.expect(rt, "memory")
}

// Notes each passing as a digit: the place on entering, and four more on leaving.
#[derive(Drop)]
struct Noting {
    passed: Cell<u64>,
}

impl Noting {
    fn note(&self, digit: usize) {
        let before = self.passed.get().saturating_mul(10);
        self.passed.set(before.saturating_add(digit as u64));
    }
}

impl Gate for Noting {
    ghost starts = { λ _ _. true };

    fn start(&self, _worker: usize) -> bool {
        true
    }

    fn enter(&self, place: usize) {
        self.note(place);
    }

    fn leave(&self, place: usize) {
        self.note(place.saturating_add(4));
    }
}

// A record whose header is rejected, a billing and a reversal.
fn three_records(rt: &impl Abort, alloc: Global) -> Vec<Transmission> {
    let mut asked = Vec::new(alloc);
    asked.push(rejected(rt)).expect(rt, "memory");
    asked
        .push(claim(rt, alloc, 123, b"C100"))
        .expect(rt, "memory");
    asked
        .push(last_years_reversal(rt, alloc))
        .expect(rt, "memory");
    asked
}

#[test]
fn passes_the_gate_once_a_place_in_file_order(rt: HostRuntime) {
    let gate = Noting {
        passed: Cell::new(0),
    };
    let asked = three_records(&rt, rt.alloc());
    let finished = run(&rt, &gate, rt.alloc(), asked);
    same(&rt, finished.replies.len(), 3);
    same(&rt, gate.passed.get(), 152_637);
    drop(finished);
}
