ghost use Rattle.std.specs.Prelude.{◌≡◌, ◌++◌, ◌∷◌, [], ◌&&◌, ◌||◌, ℕ, List, OnOk};
ghost use Rattle.std.specs.List.{flat_map};
ghost use Rattle.std.specs.Ordering.{is_eq};
ghost use Rattle.rx_fields.specs.Order.{id_cmp, key_cmp};
ghost use Rattle.rx_fields.specs.declared.key.Key.{Key as KeyValue};
ghost use Rattle.rx_d0_values.specs.declared.transmission.Transmission.{Transmission as TransmissionValue};
ghost use Rattle.rx_schedule.specs.Billed.{HasBilled, billed_families, has_family, is_biller};
ghost use Rattle.rx_schedule.specs.Footprints.{billed_by, billers_in};

use rx_d0_values::{Body, Heard, Transaction, Transmission};
use rx_fields::{Id, Key, Memory};
use std::alloc::Global;
use std::collections::{BTreeMap, BTreeSet};

/// For each fill key the families that billed it so far.
#[derive(Drop)]
pub(crate) struct Billers {
    families: BTreeMap<Key, BTreeSet<Id>>,
}

impl Billers {
    /// No fill key was billed.
    pub(crate) fn new(alloc: Global) -> Billers
        ensures { HasBilled result.families [] }
    {
        Billers {
            families: BTreeMap::new(alloc),
        }
    }

    /// Puts the families that billed the fill key after the others, each once.
    pub(crate) fn put_families(&self, key: &Key, list: &mut Vec<Id>) -> Result<(), Memory>
        ensures { OnOk result (list.new.items ≡ list.old.items ++ billed_families self.now.families key.now) }
    {
        if let Some(families) = self.families.get(key) {
            list.reserve(families.len())?;
            for family in families.iter() {
                list.push(*family)?;
            }
        }
        Ok(())
    }

    /// Notes the billings of a record.
    pub(crate) fn note(&mut self, alloc: Global, transmission: &Transmission) -> Result<(), Memory>
        ensures { (earlier : List TransmissionValue) → HasBilled self.old.families earlier
            → OnOk result (HasBilled self.new.families (earlier ++ transmission.now ∷ [])) }
    {
        self.note_body(alloc, &transmission.body)
    }

    fn note_body(&mut self, alloc: Global, body: &Body) -> Result<(), Memory>
        ensures { OnOk result ((k : KeyValue) → (f : List ℕ) → is_biller self.new.families k f
            ≡ (has_family (billers_in k body.now) f || is_biller self.old.families k f)) }
    {
        match body {
            Body::Rejected(_) => Ok(()),
            Body::Heard(heard) => self.note_heard(alloc, heard),
        }
    }

    fn note_heard(&mut self, alloc: Global, heard: &Heard) -> Result<(), Memory>
        ensures { OnOk result ((k : KeyValue) → (f : List ℕ) → is_biller self.new.families k f
            ≡ (has_family (flat_map (billed_by heard.now k) heard.now.list) f || is_biller self.old.families k f)) }
    {
        'billings: for transaction in heard.list.as_slice() {
            self.note_billing(alloc, heard, transaction)?;
        }
        Ok(())
    }

    // Notes a transaction, where it is a billing.
    fn note_billing(
        &mut self,
        alloc: Global,
        heard: &Heard,
        transaction: &Transaction,
    ) -> Result<(), Memory>
        ensures { OnOk result ((k : KeyValue) → (f : List ℕ) → is_biller self.new.families k f
            ≡ (has_family (billed_by heard.now k transaction.now) f || is_biller self.old.families k f)) }
    {
        match transaction {
            Transaction::Bill(bill) => {
                let parts = bill.parts();
                self.note_one(alloc, heard.key(parts.reference), parts.family)
            }
            Transaction::Reverse(_) => Ok(()),
            Transaction::Faulty(_) => Ok(()),
        }
    }

    // Notes that the family billed the fill key.
    fn note_one(&mut self, alloc: Global, key: Key, family: Id) -> Result<(), Memory>
        ensures { OnOk result ((k : KeyValue) → (f : List ℕ) → is_biller self.new.families k f
            ≡ (is_eq (key_cmp key k) && is_eq (id_cmp f family) || is_biller self.old.families k f)) }
    {
        match self.families.get_mut(&key) {
            Some(families) => {
                families.insert(family)?;
            }
            None => {
                let mut families = BTreeSet::new(alloc);
                families.insert(family)?;
                self.families.insert(key, families)?;
            }
        }
        Ok(())
    }
}
