ghost use Rattle.std.specs.Prelude.{◌≡◌, ◌↔◌, ◌&&◌, IfOk, IfSome, IsTrue, is_some};
ghost use Rattle.rx_fields.specs.Order.{id_cmp, key_cmp};
ghost use Rattle.rx_sorted.specs.Ascending.{IsAscending, is_ascending, itself};
ghost use Rattle.rx_books_family.specs.Books.{OfFamily, OfKey};
ghost use Rattle.rx_books_parcel.specs.Footprints.{IsFootprint, names};

use rx_fields::{Id, Key, Memory};
use rx_sorted::Few;
use std::alloc::Global;
use std::marker::Model;

/// The books that a record names: fill keys and families, each in order without repeats (docs/RULES.md, "Words").
#[derive(Drop)]
pub struct Footprint {
    keys: Few<Key>,
    families: Few<Id>,
}

impl Model for Footprint {
    ghost use Rattle.rx_sorted.specs.Few.{items_of};
    ghost use Rattle.rx_books_parcel.specs.Footprints.{FootprintParts, IsFootprint};

    ghost Value = { FootprintParts };

    ghost view = { λ f. record { keys = items_of f.keys; families = items_of f.families } };

    ghost invariant = { λ f. IsFootprint (record { keys = items_of f.keys; families = items_of f.families }) };
}

impl Footprint {
    /// The footprint of these fill keys and families; None where one of the lists doesn't ascend. It takes no memory.
    pub fn new(keys: Vec<Key>, families: Vec<Id>) -> Option<Footprint>
        ensures accepts { is_some result ≡ (is_ascending key_cmp itself keys.items && is_ascending id_cmp itself families.items) }
        ensures value { IfSome result (λ f. f ≡ record { keys = keys.items; families = families.items }) }
    {
        if are_keys_ascending(&keys) && are_families_ascending(&families) {
            let keys = Few::of(keys);
            let families = Few::of(families);
            Some(Footprint { keys, families })
        } else {
            None
        }
    }

    /// The fill keys, ascending.
    pub fn keys(&self) -> &[Key]
        ensures value { result.now ≡ self.now.keys }
        ensures within { IsFootprint self.now }
    {
        self.keys.as_slice()
    }

    /// The families, ascending.
    pub fn families(&self) -> &[Id]
        ensures value { result.now ≡ self.now.families }
        ensures within { IsFootprint self.now }
    {
        self.families.as_slice()
    }

    /// Whether it names the fill key.
    pub fn has_key(&self, key: &Key) -> bool
        ensures { result ≡ names self.now (OfKey key.now) }
    {
        self.keys().binary_search_by_key(key, |own| *own).is_ok()
    }

    /// Whether it names the family.
    pub fn has_family(&self, family: &Id) -> bool
        ensures { result ≡ names self.now (OfFamily family.now) }
    {
        self.families()
            .binary_search_by_key(family, |own| *own)
            .is_ok()
    }

    /// An equal footprint.
    pub fn copy(&self, alloc: Global) -> Result<Footprint, Memory>
        ensures { IfOk result (λ footprint. footprint ≡ self.now) }
    {
        let keys = self.keys.to_copy(alloc)?;
        let families = self.families.to_copy(alloc)?;
        Ok(Footprint { keys, families })
    }
}

// Whether each key is less than the next.
fn are_keys_ascending(keys: &[Key]) -> bool
    ensures { result ≡ is_ascending key_cmp itself keys.now }
{
    keys.is_sorted_by(|a, b| a.cmp(b).is_lt())
}

// Whether each family is less than the next.
fn are_families_ascending(families: &[Id]) -> bool
    ensures { result ≡ is_ascending id_cmp itself families.now }
{
    families.is_sorted_by(|a, b| a.cmp(b).is_lt())
}

ghost use Rattle.rx_d0_values.specs.Same.{same, same_laws, same_equivalence};
ghost use Rattle.rx_books_parcel.specs.contracts.footprint.Footprint.{the_row as footprint_row};

impl PartialEq for Footprint {
    ghost eq = { same footprint_row.coded };

    ghost laws = { same_laws footprint_row.coded };

    fn eq(&self, other: &Footprint) -> bool
        ensures { IsTrue result ↔ (self.now ≡ other.now) }
    {
        self.keys() == other.keys() && self.families() == other.families()
    }
}

impl Eq for Footprint {
    ghost laws = { same_equivalence footprint_row.coded };
}
