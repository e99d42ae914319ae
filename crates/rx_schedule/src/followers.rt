ghost use Rattle.std.specs.Prelude.{◌≡◌, ◌≢◌, ◌++◌, ◌<◌, ◌≤◌, ◌-◌, ℕ, List, [], IfOk, OnOk, length, map};
ghost use Rattle.std.specs.Prelude.{vec_capacity, replicate, ◌==◌, ◌∷◌, if◌then◌else◌, slice_set};
ghost use Rattle.rx_schedule.specs.Links.{AreCounted, AreFree, AreRows, linked, number_at, row_of};

use crate::links::Link;
use rx_fields::Memory;
use std::alloc::Global;

/// The places that each record is linked to, in rows, and for how many links each record waits.
#[derive(Drop)]
pub(crate) struct Followers {
    pub rows: Vec<Vec<usize>>,
    pub waiting: Vec<usize>,
}

/// The followers of this many records.
pub(crate) fn followers_of(alloc: Global, count: usize, links: &[Link]) -> Result<Followers, Memory>
    requires { (p : ℕ) → (q : ℕ) → 1 ≤ linked p q links.now → (1 ≤ p) × (p ≤ count) × (1 ≤ q) × (q ≤ count) }
    ensures rows { IfOk result (λ f. AreRows count links.now (map (λ v. v.items) f.rows.items)) }
    ensures counted { IfOk result (λ f. AreCounted count (map (λ v. v.items) f.rows.items) f.waiting.items) }
{
    let mut rows = empty_rows(alloc, count)?;
    let mut waiting = vec![in alloc; 0; count]?;
    'links: for link in links {
        rows[link.from - 1].push(link.to)?;
        waiting[link.to - 1] += 1;
    }
    Ok(Followers { rows, waiting })
}

fn empty_rows(alloc: Global, count: usize) -> Result<Vec<Vec<usize>>, Memory>
    ensures { IfOk result (λ rows. map (λ v. v.items) rows.items ≡ replicate count []) }
{
    let mut rows = Vec::with_capacity(alloc, count)?;
    'rows: for _ in 0..count {
        rows.push(Vec::new(alloc))?;
    }
    Ok(rows)
}

/// The places that wait for no link, in file order, with room for all places.
pub(crate) fn free_places(alloc: Global, waiting: &[usize]) -> Result<Vec<usize>, Memory>
    ensures free { IfOk result (λ order. AreFree (length waiting.now) waiting.now order.items) }
    ensures room { IfOk result (λ order. length waiting.now ≤ vec_capacity order) }
{
    let mut order = Vec::with_capacity(alloc, waiting.len())?;
    'places: for (at, links) in waiting.iter().enumerate() {
        if *links == 0 {
            order.push(at + 1)?;
        }
    }
    Ok(order)
}

/// Takes the links from a place away: those places that no longer wait for a link come after the others.
pub(crate) fn release(
    rows: &mut [Vec<usize>],
    place: usize,
    waiting: &mut [usize],
    order: &mut Vec<usize>,
)
    requires there { (1 ≤ place) × (place ≤ length rows.old) }
    requires counted { AreCounted (length rows.old) (map (λ v. v.items) rows.old) waiting.old }
    requires free { AreFree (length rows.old) waiting.old order.old.items }
    requires room { length rows.old ≤ vec_capacity order.old }
    ensures counted { AreCounted (length rows.old) (map (λ v. v.items) rows.new) waiting.new }
    ensures free { AreFree (length rows.old) waiting.new order.new.items }
    ensures more { (more : List ℕ) × (order.new.items ≡ order.old.items ++ more) }
    ensures room { vec_capacity order.new ≡ vec_capacity order.old }
    ensures emptied { row_of (map (λ v. v.items) rows.new) place ≡ [] }
    ensures others { (p : ℕ) → 1 ≤ p → p ≢ place
        → row_of (map (λ v. v.items) rows.new) p ≡ row_of (map (λ v. v.items) rows.old) p }
{
    'links: while let Some(next) = rows[place - 1].pop() {
        release_one(next, waiting, order);
    }
}

// Takes one link to a place away.
fn release_one(place: usize, waiting: &mut [usize], order: &mut Vec<usize>)
    requires there { (1 ≤ place) × (place ≤ length waiting.old) }
    requires waits { 1 ≤ number_at waiting.old place }
    requires room { length order.old.items < vec_capacity order.old }
    ensures waiting { waiting.new ≡ slice_set waiting.old (place - 1) (number_at waiting.old place - 1) }
    ensures order { order.new.items
        ≡ (if number_at waiting.old place - 1 == 0 then order.old.items ++ place ∷ [] else order.old.items) }
    ensures room { vec_capacity order.new ≡ vec_capacity order.old }
{
    waiting[place - 1] -= 1;
    if waiting[place - 1] == 0 {
        order.push_reserved(place);
    }
}
