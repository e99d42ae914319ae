ghost use Rattle.std.specs.Prelude.{◌≡◌, ◌<◌, ◌^◌, IfOk, IfSome, length};
ghost use Rattle.std.specs.List.{AllZip, flat_map};
ghost use Rattle.std.specs.Vec.{vec_items};
ghost use Rattle.rx_books_store.specs.Held.{AreHeld};
ghost use Rattle.rx_books_store.specs.Store.{AreHolders};

use crate::hints::{AHEAD, Places};
use rayon::prelude::*;
use rx_fields::Memory;
use rx_ledger::{Member, Row};
use rx_sorted::{Ascending, Runs};
use std::alloc::Global;
use std::thread::Threads;

/// For each row the place of its member. None where one isn't listed, or where memory runs out.
pub(crate) fn holders_of(
    alloc: Global,
    places: &Places,
    members: &Ascending<Member>,
    rows: &Runs<Row>,
) -> Option<Vec<u32>>
    ensures { IfSome result (λ holders. AreHeld members.now rows.now holders.items) }
{
    let mut holders = Vec::with_capacity(alloc, rows.len()).ok()?;
    let runs = rows.runs();
    for run in runs {
        let more = holders_in(alloc, places, members, run)?;
        let Ok(()) = holders.extend_from_slice(&more) else {
            return None;
        };
    }
    Some(holders)
}

/// The same, where the rows of each run are looked at by a thread of its own.
pub(crate) fn holders_in_parts<R: Threads + Sync>(
    rt: &R,
    alloc: Global,
    places: &Places,
    members: &Ascending<Member>,
    rows: &Runs<Row>,
) -> Option<Vec<u32>>
    ensures { IfSome result (λ holders. AreHeld members.now rows.now holders.items) }
{
    let found = found_in_parts(rt, alloc, places, members, rows.runs())?;
    joined(alloc, rows.len(), &found)
}

// What isn't found, or runs out of memory.
#[derive(Drop)]
struct Unfound;

// For each run the places of its rows' members, by as many threads as there are processors.
fn found_in_parts<R: Threads + Sync>(
    rt: &R,
    alloc: Global,
    places: &Places,
    members: &Ascending<Member>,
    runs: &[Vec<Row>],
) -> Option<Vec<Vec<u32>>>
    ensures { IfSome result (λ found. AllZip (λ run holders. AreHolders members.now run.items holders.items) runs.now found.items) }
{
    let Ok(found) = runs
        .par_iter()
        .with_min_len(1)
        .map(
            move |run: &Vec<Row>| -> Result<Vec<u32>, Unfound>
                ensures { IfOk result (λ holders. AreHolders members.entry.now run.now.items holders.items) }
            { holders_in(alloc, places, members, run).ok_or(Unfound) },
        )
        .collect::<Result<Vec<Vec<u32>>, Unfound>>(rt, alloc)
    else {
        return None;
    };
    let Ok(found) = found else {
        return None;
    };
    Some(found)
}

// The lists one after another.
fn joined(alloc: Global, len: usize, lists: &[Vec<u32>]) -> Option<Vec<u32>>
    ensures { IfSome result (λ all. all.items ≡ flat_map vec_items lists.now) }
{
    let mut all = Vec::with_capacity(alloc, len).ok()?;
    for list in lists {
        let Ok(()) = all.extend_from_slice(list) else {
            return None;
        };
    }
    Some(all)
}

// For each row of a run the place of its member.
fn holders_in(
    alloc: Global,
    places: &Places,
    members: &Ascending<Member>,
    run: &[Row],
) -> Option<Vec<u32>>
    ensures { IfSome result (λ holders. AreHolders members.now run.now holders.items) }
{
    let mut holders = Vec::with_capacity(alloc, run.len()).ok()?;
    let mut guesses = [0; AHEAD];
    for (at, row) in run.iter().enumerate() {
        if at % AHEAD == 0 {
            guesses = places.guesses(members.as_slice(), &run[at..]);
        }
        let place = places.place_near(members, guesses[at % AHEAD], &row.member())?;
        let Ok(()) = holders.push(place) else {
            return None;
        };
    }
    Some(holders)
}

/// The rows, in one run.
pub(crate) fn one_run(alloc: Global, rows: Ascending<Row>) -> Result<Runs<Row>, Memory>
    ensures { IfOk result (λ runs. runs ≡ rows) }
{
    let mut runs = Vec::new(alloc);
    if !rows.as_slice().is_empty() {
        runs.push(rows.into_vec())?;
    }
    match Runs::from_runs(runs) {
        Ok(rows) => Ok(rows),
        Err(_) => unreachable!(),
    }
}
