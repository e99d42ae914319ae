ghost use Rattle.std.specs.Prelude.{◌≡◌, ◌<◌, ◌++◌, IfOk, OnOk, length};
ghost use Rattle.std.specs.List.{AllZip, flat_map};
ghost use Rattle.std.specs.Vec.{vec_items};
ghost use Rattle.rx_books_text.specs.Printed.{member_lines};
ghost use Rattle.rx_books_store.specs.BooksText.{lines_text};
ghost use Rattle.rx_books_store.specs.Opening.{rows_text};
ghost use Rattle.rx_books_store.specs.Opening.{total_lines};

use crate::opening::FamilyName;
use rayon::prelude::*;
use rx_books_text::{MemberLine, TotalLine, put_claim, put_member, put_total};
use rx_fields::Memory;
use rx_ledger::{Member, Row};
use std::alloc::Global;
use std::thread::Threads;

/// About the bytes of a claim line.
pub(crate) const CLAIM: usize = 96;

/// Puts the lines of these members, each with its deductible.
pub(crate) fn put_members(
    text: &mut Vec<u8>,
    members: &[Member],
    deductibles: &[u128],
) -> Result<(), Memory>
    requires { length deductibles.now ≡ length members.now }
    ensures { OnOk result (text.new.items ≡ text.old.items ++ lines_text (member_lines members.now deductibles.now)) }
{
    for (at, member) in members.iter().enumerate() {
        let line = MemberLine {
            member: *member,
            deductible: deductibles[at],
        };
        put_member(text, &line)?;
    }
    Ok(())
}

/// Puts the total lines of these families, each with its out of pocket and its deductible.
pub(crate) fn put_totals(
    text: &mut Vec<u8>,
    families: &[FamilyName],
    out_of_pockets: &[u128],
    deductibles: &[u128],
) -> Result<(), Memory>
    requires pockets { length out_of_pockets.now ≡ length families.now }
    requires deductibles { length deductibles.now ≡ length families.now }
    ensures { OnOk result (text.new.items ≡ text.old.items ++ lines_text (total_lines families.now out_of_pockets.now deductibles.now)) }
{
    for (at, name) in families.iter().enumerate() {
        let line = TotalLine {
            family: name.family,
            out_of_pocket: out_of_pockets[at],
            deductible: Some(deductibles[at]),
        };
        put_total(text, &line)?;
    }
    Ok(())
}

/// The lines of these rows, in order, in texts of this many rows, each written by a thread of its own.
pub(crate) fn claims_in_parts<R: Threads + Sync>(
    rt: &R,
    alloc: Global,
    rows: &[&Row],
    size: usize,
) -> Result<Vec<Vec<u8>>, Memory>
    requires { 0 < size }
    ensures { IfOk result (λ texts. flat_map vec_items texts.items ≡ rows_text rows.now) }
{
    let pieces = pieces_of(alloc, rows, size)?;
    texts_of(rt, alloc, &pieces)
}

// The text of each piece, in order, by as many threads as there are processors.
fn texts_of<R: Threads + Sync>(
    rt: &R,
    alloc: Global,
    pieces: &[&[&Row]],
) -> Result<Vec<Vec<u8>>, Memory>
    ensures { IfOk result (λ texts. AllZip (λ piece text. text.items ≡ rows_text piece.now) pieces.now texts.items) }
{
    let Ok(texts) = pieces
        .par_iter()
        .with_min_len(1)
        .map(
            move |piece: &&[&Row]| -> Result<Vec<u8>, Memory>
                ensures { IfOk result (λ text. text.items ≡ rows_text piece.now.now) }
            { claims_text(alloc, piece) },
        )
        .collect::<Result<Vec<Vec<u8>>, Memory>>(rt, alloc)
    else {
        return Err(Memory);
    };
    let Ok(texts) = texts else {
        return Err(Memory);
    };
    Ok(texts)
}

// The lines of these rows.
fn claims_text(alloc: Global, rows: &[&Row]) -> Result<Vec<u8>, Memory>
    ensures { IfOk result (λ text. text.items ≡ rows_text rows.now) }
{
    let mut text = Vec::with_capacity(alloc, rows.len().saturating_mul(CLAIM))?;
    for row in rows {
        put_claim(&mut text, row)?;
    }
    Ok(text)
}

// The items in pieces of this many, but for the last.
fn pieces_of<'a, T>(alloc: Global, items: &'a [T], size: usize) -> Result<Vec<&'a [T]>, Memory>
    requires { 0 < size }
    ensures { IfOk result (λ pieces. flat_map (λ piece. piece.now) pieces.items ≡ items.now) }
{
    let mut pieces = Vec::new(alloc);
    let mut rest = items;
    'pieces: while !rest.is_empty() {
        let (piece, behind) = rest.split_at(size.min(rest.len()));
        pieces.push(piece)?;
        rest = behind;
    }
    Ok(pieces)
}
