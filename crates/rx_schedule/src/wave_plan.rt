ghost use Rattle.std.specs.Prelude.{◌≤◌, ◌<◌, ◌+◌, ℕ, List, IfOk, OnOk, length};
ghost use Rattle.rx_books_parcel.specs.Footprints.{FootprintParts};
ghost use Rattle.rx_schedule.specs.Marked.{IsScan};
ghost use Rattle.rx_schedule.specs.Waves.{AreLongest, AreWaves, IsChain, IsSharingChain, IsValidNumbering, number_in};

use crate::marks::{Mark, Marks};
use crate::wave_numbers::Waves;
use rx_books_parcel::Footprint;
use rx_fields::{Id, Key, Memory};
use std::alloc::Global;

// No record.
const NONE: Mark = Mark { place: 0, wave: 0 };

/// The waves of the records that have these footprints, in file order.
pub fn waves(alloc: Global, footprints: &[Footprint]) -> Result<Waves, Memory>
    ensures waves { IfOk result (λ found. AreWaves footprints.now found.numbers.items) }
    ensures chain { IfOk result (λ found. IsChain footprints.now found.numbers.items found.count found.chain.items) }
    ensures longest { IfOk result (λ found. AreLongest footprints.now found.numbers.items) }
    ensures shared { IfOk result (λ found. IsSharingChain footprints.now found.chain.items) }
    ensures fewest { IfOk result (λ found. (number : ℕ → ℕ) → IsValidNumbering footprints.now number
        → (place : ℕ) → 1 ≤ place → place ≤ length footprints.now → number_in found.numbers.items place ≤ number place) }
{
    let scan = scanned(alloc, footprints)?;
    let mut chain = vec![in alloc; 0; scan.top.wave]?;
    let mut place = scan.top.place;
    let mut left = scan.top.wave;
    'members: while left > 0 {
        left -= 1;
        chain[left] = place;
        place = scan.before[place - 1];
    }
    Ok(Waves {
        numbers: scan.numbers,
        count: scan.top.wave,
        chain,
    })
}

// What is known of the records so far: the last that had each name, the wave of each, and of each the place of the first
// sharer in the wave below; and the first record of the highest wave.
#[derive(Drop)]
struct Scan {
    keys: Marks<Key>,
    families: Marks<Id>,
    numbers: Vec<usize>,
    before: Vec<usize>,
    top: Mark,
}

// All records, scanned.
fn scanned(alloc: Global, footprints: &[Footprint]) -> Result<Scan, Memory>
    ensures { IfOk result (λ s. IsScan footprints.now (length footprints.now) s.keys.last s.families.last s.numbers.items
        s.before.items s.top) }
{
    let mut scan = Scan::new(alloc, footprints.len())?;
    'records: for at in 0..footprints.len() {
        scan.pass(footprints, at)?;
    }
    Ok(scan)
}

impl Scan {
    // Before the first record, with room for this many.
    fn new(alloc: Global, count: usize) -> Result<Scan, Memory>
        ensures { (footprints : List FootprintParts) → IfOk result (λ s. IsScan footprints 0 s.keys.last s.families.last
            s.numbers.items s.before.items s.top) }
    {
        let numbers = Vec::with_capacity(alloc, count)?;
        let before = Vec::with_capacity(alloc, count)?;
        Ok(Scan {
            keys: Marks::new(alloc),
            families: Marks::new(alloc),
            numbers,
            before,
            top: NONE,
        })
    }

    // Scans the record after this many.
    fn pass(&mut self, footprints: &[Footprint], at: usize) -> Result<(), Memory>
        requires some { at < length footprints.now }
        requires before { IsScan footprints.now at self.old.keys.last self.old.families.last self.old.numbers.items
            self.old.before.items self.old.top }
        ensures { OnOk result (IsScan footprints.now (at + 1) self.new.keys.last self.new.families.last self.new.numbers.items
            self.new.before.items self.new.top) }
    {
        let footprint = &footprints[at];
        let best = self.families.best(footprint.families(), self.keys.best(footprint.keys(), NONE));
        let mark = Mark {
            place: at + 1,
            wave: best.wave + 1,
        };
        self.keys.note(footprint.keys(), mark)?;
        self.families.note(footprint.families(), mark)?;
        self.numbers.push(mark.wave)?;
        self.before.push(best.place)?;
        self.top = self.top.or_higher(mark);
        Ok(())
    }
}
