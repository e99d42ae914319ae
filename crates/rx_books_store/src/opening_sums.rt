use crate::opening::Opening;
use rx_ledger::Row;
use std::marker::Model;

/// Some of the opening rows, with the place of each one's member. Contracts see the ledger of these rows.
#[derive(Drop)]
pub(crate) struct Part<'a> {
    opening: &'a Opening,
    rows: &'a [Row],
    holders: &'a [u32],
}

impl<'a> Model for Part<'a> {
    ghost use Rattle.rx_ledger.specs.Ledger.{Ledger};

    ghost Value = { Ledger };

    ghost use Rattle.rx_books_store.specs.Parts.{IsPart};

    ghost view = { λ p. record { members = p.opening.now.members; rows = p.rows.now } };

    ghost invariant = { λ p. IsPart p.opening.now.members p.rows.now p.holders.now };
}

ghost use Rattle.std.specs.Prelude.{◌≡◌, ◌<◌, ◌^◌, [], IfOk, length};
ghost use Rattle.std.specs.List.{All, AllZip, flat_map};
ghost use Rattle.rx_fields.specs.Numbered.{Span};
ghost use Rattle.rx_ledger.specs.Ledger.{IsLedger};
ghost use Rattle.rx_books_store.specs.Parts.{IsPart, IsSummed};

use crate::sums::Figures;
use rayon::prelude::*;
use rx_fields::{Memory, Period};
use rx_ledger::counted_in;
use std::alloc::Global;
use std::thread::Threads;

/// The figures of all members and families, added up over the opening rows.
pub(crate) fn opening_sums(
    alloc: Global,
    period: Period,
    opening: &Opening,
) -> Result<Figures, Memory>
    ensures { IfOk result (IsSummed period opening.now) }
{
    let parts = parts_of(alloc, opening)?;
    let mut figures = no_sums(alloc, opening)?;
    for part in &parts {
        let more = part.sums(alloc, period)?;
        figures.add(&more);
    }
    Ok(figures)
}

/// The same, where the rows of each run are added up by a thread of its own.
pub(crate) fn opening_sums_in_parts<R: Threads + Sync>(
    rt: &R,
    alloc: Global,
    period: Period,
    opening: &Opening,
) -> Result<Figures, Memory>
    ensures sums { IfOk result (λ sums. IsSummed period opening.now sums) }
    ensures within { IfOk result (λ _. IsLedger opening.now) }
    ensures few { IfOk result (λ _. length opening.now.rows < 2 ^ 63) }
{
    let parts = parts_of(alloc, opening)?;
    let found = sums_of(rt, alloc, period, &parts)?;
    let mut figures = no_sums(alloc, opening)?;
    for more in &found {
        figures.add(more);
    }
    Ok(figures)
}

// The rows of each run, with the places of their members.
fn parts_of<'a>(alloc: Global, opening: &'a Opening) -> Result<Vec<Part<'a>>, Memory>
    ensures members { IfOk result (λ parts. All (λ part. part.members ≡ opening.now.members) parts.items) }
    ensures rows { IfOk result (λ parts. flat_map (λ part. part.rows) parts.items ≡ opening.now.rows) }
    ensures within { IfOk result (λ _. IsLedger opening.now) }
    ensures few { IfOk result (λ _. length opening.now.rows < 2 ^ 63) }
{
    let runs = opening.rows().runs();
    let mut parts = Vec::with_capacity(alloc, runs.len())?;
    let mut holders = opening.holders();
    for run in runs {
        let (own, others) = holders.split_at(run.len());
        parts.push(Part {
            opening,
            rows: run,
            holders: own,
        })?;
        holders = others;
    }
    Ok(parts)
}

// The figures over each part's rows, by as many threads as there are processors.
fn sums_of<R: Threads + Sync>(
    rt: &R,
    alloc: Global,
    period: Period,
    parts: &[Part],
) -> Result<Vec<Figures>, Memory>
    ensures { IfOk result (λ found. AllZip (IsSummed period) parts.now found.items) }
{
    let Ok(found) = parts
        .par_iter()
        .with_min_len(1)
        .map(
            move |part: &Part| -> Result<Figures, Memory>
                ensures { IfOk result (λ figures. IsSummed period part.now figures) }
            { part.sums(alloc, period) },
        )
        .collect::<Result<Vec<Figures>, Memory>>(rt, alloc)
    else {
        return Err(Memory);
    };
    let Ok(found) = found else {
        return Err(Memory);
    };
    Ok(found)
}

impl<'a> Part<'a> {
    // The figures over the part's rows.
    fn sums(&self, alloc: Global, period: Period) -> Result<Figures, Memory>
        ensures { IfOk result (IsSummed period self.now) }
    {
        part_sums(alloc, period, self.opening, self.rows, self.holders)
    }
}

// The figures over these rows, whose members are at these places.
fn part_sums(
    alloc: Global,
    period: Period,
    opening: &Opening,
    rows: &[Row],
    holders: &[u32],
) -> Result<Figures, Memory>
    requires { IsPart opening.now.members rows.now holders.now }
    ensures { IfOk result (IsSummed period (record { members = opening.now.members; rows = rows.now })) }
{
    let mut figures = no_sums(alloc, opening)?;
    for (at, row) in rows.iter().enumerate() {
        let member = holders[at] as usize;
        figures.count(member, opening.home(member), counted_in(period, row));
    }
    Ok(figures)
}

// The figures of all members and families, before a row is counted.
fn no_sums(alloc: Global, opening: &Opening) -> Result<Figures, Memory>
    ensures { IfOk result (λ figures. (period : Span) → IsSummed period (record { members = opening.now.members; rows = [] }) figures) }
{
    let members = opening.members().as_slice();
    let figures = Figures::zero(alloc, members.len(), opening.families().len())?;
    Ok(figures)
}
