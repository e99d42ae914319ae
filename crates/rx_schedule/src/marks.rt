ghost use Rattle.std.specs.Prelude.{◌≡◌, OnOk, Some, None, nat_lt, if◌then◌else◌};
ghost use Rattle.std.specs.BTreeMap.{get};
ghost use Rattle.rx_schedule.specs.Marked.{best_of, better, better_of, has_name};

use rx_fields::Memory;
use std::alloc::Global;
use std::collections::BTreeMap;

/// The place and the wave of a record, both from 1; 0 and 0 stand for none.
#[derive(Clone, Copy)]
pub(crate) struct Mark {
    pub place: usize,
    pub wave: usize,
}

impl Mark {
    /// The other one, where its wave is higher.
    pub(crate) fn or_higher(self, other: Mark) -> Mark
        ensures { result ≡ (if nat_lt self.wave other.wave then other else self) }
    {
        if self.wave < other.wave { other } else { self }
    }

    // The one of the higher wave, and of one wave that of the earlier place.
    fn or_better(self, other: Mark) -> Mark
        ensures { result ≡ better self other }
    {
        if self.wave < other.wave || (self.wave == other.wave && other.place < self.place) {
            other
        } else {
            self
        }
    }
}

/// Of each name the last record that had it.
#[derive(Drop)]
pub(crate) struct Marks<K: Ord + Copy + Drop> {
    last: BTreeMap<K, Mark>,
}

impl<K: Ord + Copy + Drop> Marks<K> {
    /// No name was had.
    pub(crate) fn new(alloc: Global) -> Marks<K>
        ensures { (k : K) → get K.cmp result.last k ≡ None }
    {
        Marks {
            last: BTreeMap::new(alloc),
        }
    }

    /// The best of these names' marks and the one that is there.
    pub(crate) fn best(&self, names: &[K], there: Mark) -> Mark
        ensures { result ≡ best_of K.cmp self.now.last names.now there }
    {
        let mut best = there;
        'names: for name in names {
            best = self.better_at(name, best);
        }
        best
    }

    fn better_at(&self, name: &K, there: Mark) -> Mark
        ensures { result ≡ better_of there (get K.cmp self.now.last name.now) }
    {
        match self.last.get(name) {
            Some(mark) => there.or_better(*mark),
            None => there,
        }
    }

    /// Notes these names as had by the record of the mark.
    pub(crate) fn note(&mut self, names: &[K], mark: Mark) -> Result<(), Memory>
        ensures { OnOk result ((k : K) → get K.cmp self.new.last k
            ≡ (if has_name K.cmp names.now k then Some mark else get K.cmp self.old.last k)) }
    {
        'names: for name in names {
            self.last.insert(*name, mark)?;
        }
        Ok(())
    }
}
