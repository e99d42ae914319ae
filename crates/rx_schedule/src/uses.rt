ghost use Rattle.std.specs.Prelude.{◌≡◌, ◌++◌, ◌≤◌, IfOk, OnOk, length, map};
ghost use Rattle.std.specs.declared.cmp.Ordering.TheVariants.{Equal};
ghost use Rattle.rx_schedule.specs.Footprints.{in_order};
ghost use Rattle.rx_schedule.specs.Links.{AreLinks, links_in, use_cmp};

use crate::links::Link;
use crate::ordered::put_in_order;
use rx_books_parcel::Footprint;
use rx_fields::{Id, Key, Memory};
use std::alloc::Global;
use std::marker::Model;

/// Which record names which fill key, and which family, by its place.
#[derive(Drop)]
pub(crate) struct Uses {
    count: usize,
    keys: Vec<(Key, usize)>,
    families: Vec<(Id, usize)>,
}

impl Model for Uses {
    ghost use Rattle.std.specs.Prelude.{List};
    ghost use Rattle.rx_books_parcel.specs.Footprints.{FootprintParts};
    ghost use Rattle.rx_schedule.specs.Used.{AreWithin, footprints_used};

    ghost Value = { List FootprintParts };

    ghost view = { λ u. footprints_used u.count u.keys.items u.families.items };

    ghost invariant = { λ u. AreWithin u.count u.keys.items × AreWithin u.count u.families.items };
}

impl Uses {
    /// The uses of these footprints.
    pub(crate) fn of(alloc: Global, footprints: &[Footprint]) -> Result<Uses, Memory>
        ensures { IfOk result (λ uses. uses ≡ footprints.now) }
    {
        let mut keys = Vec::new(alloc);
        let mut families = Vec::new(alloc);
        'footprints: for (at, footprint) in footprints.iter().enumerate() {
            put_uses(&mut keys, footprint.keys(), at + 1)?;
            put_uses(&mut families, footprint.families(), at + 1)?;
        }
        Ok(Uses {
            count: footprints.len(),
            keys,
            families,
        })
    }

    /// The links of all books.
    pub(crate) fn links(self, alloc: Global) -> Result<Vec<Link>, Memory>
        ensures { IfOk result (λ links. AreLinks self links.items) }
    {
        let mut keys = self.keys;
        let mut families = self.families;
        let mut links = Vec::new(alloc);
        put_links(&mut keys, &mut links)?;
        put_links(&mut families, &mut links)?;
        Ok(links)
    }
}

// Puts the uses of a record's names after the others.
fn put_uses<K: Copy>(uses: &mut Vec<(K, usize)>, names: &[K], place: usize) -> Result<(), Memory>
    ensures { OnOk result (uses.new.items ≡ uses.old.items ++ map (λ k. (k, place)) names.now) }
{
    'names: for name in names {
        uses.push((*name, place))?;
    }
    Ok(())
}

// Puts the links of some books after the others; it leaves the uses in order.
fn put_links<K: Ord + Copy + Drop>(
    uses: &mut Vec<(K, usize)>,
    links: &mut Vec<Link>,
) -> Result<(), Memory>
    requires { (a : K) → (b : K) → K.cmp a b ≡ Equal → a ≡ b }
    ensures { OnOk result (links.new.items ≡ links.old.items ++ links_in K.cmp (in_order (use_cmp K.cmp) uses.old.items)) }
{
    put_in_order(uses);
    'uses: for at in 1..uses.len() {
        let (before, from) = uses[at - 1];
        let (name, to) = uses[at];
        if before.cmp(&name).is_eq() {
            links.push(Link { from, to })?;
        }
    }
    Ok(())
}
