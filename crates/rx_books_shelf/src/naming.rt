ghost use Rattle.std.specs.Prelude.{◌≡◌, IfOk};
ghost use Rattle.std.specs.List.{All};
ghost use Rattle.rx_fields.specs.Order.{id_cmp, key_cmp};
ghost use Rattle.rx_sorted.specs.Ascending.{IsAscending, itself};
ghost use Rattle.rx_books_parcel.specs.Footprints.{IsFootprint};
ghost use Rattle.rx_books_shelf.specs.Opened.{all_families, all_keys};

use crate::unique::put_in_order;
use rx_books_parcel::Footprint;
use rx_fields::{Id, Key, Memory};
use std::alloc::Global;

/// The fill keys that footprints name, each once, ascending.
pub(crate) fn keys_named(alloc: Global, footprints: &[Footprint]) -> Result<Vec<Key>, Memory>
    ensures value { IfOk result (λ keys. keys.items ≡ all_keys footprints.now) }
    ensures rise { IfOk result (λ keys. IsAscending key_cmp itself keys.items) }
    ensures within { IfOk result (λ _. All IsFootprint footprints.now) }
{
    let mut keys = Vec::with_capacity(alloc, footprints.len())?;
    for footprint in footprints {
        keys.extend_from_slice(footprint.keys())?;
    }
    put_in_order(&mut keys);
    Ok(keys)
}

/// The families that footprints name, each once, ascending.
pub(crate) fn families_named(alloc: Global, footprints: &[Footprint]) -> Result<Vec<Id>, Memory>
    ensures value { IfOk result (λ families. families.items ≡ all_families footprints.now) }
    ensures rise { IfOk result (λ families. IsAscending id_cmp itself families.items) }
{
    let mut families = Vec::with_capacity(alloc, footprints.len())?;
    for footprint in footprints {
        families.extend_from_slice(footprint.families())?;
    }
    put_in_order(&mut families);
    Ok(families)
}
