ghost use Rattle.std.specs.Prelude.{◌≡◌, ◌++◌, ◌∷◌, IfOk};
ghost use Rattle.rx_fields.specs.Digits.{digits_text};
ghost use Rattle.rx_print.specs.Dates.{dashed};
ghost use Rattle.rx_print.specs.Page.{Writes};
ghost use Rattle.rx_report.specs.Texts.{batch_json, claim_json, claims_json, lot_json, lot_members, quoted, stamp_value};

use crate::column::{Column, OTHERS};
use crate::line::Line;
use crate::texts::{put_member, put_members, put_quoted};
use rx_fields::{Lot, Memory, Stamp, date_write, digits_write};
use rx_print::{Page, dashed_digits};
use std::alloc::Global;

/// The lines as JSON, an object a line, each with its batch (`put_batch`); the names are those of `put_lines_json`.
pub fn claims_json(
    alloc: Global,
    lot: Lot,
    stamp: Option<Stamp>,
    lines: &[Line],
) -> Result<Vec<u8>, Memory>
    ensures { IfOk result (λ text. text.items ≡ claims_json lot stamp lines.now) }
{
    let mut page = Page::new(alloc);
    put_claims(&mut page, lot, &stamp, lines);
    page.into_bytes()
}

fn put_claims(page: &mut Page, lot: Lot, stamp: &Option<Stamp>, lines: &[Line])
    ensures { Writes page.old page.new (claims_json lot stamp.now lines.now) }
{
    for line in lines {
        put_claim(page, lot, stamp, line);
    }
}

fn put_claim(page: &mut Page, lot: Lot, stamp: &Option<Stamp>, line: &Line)
    ensures { Writes page.old page.new (claim_json lot stamp.now line.now) }
{
    page.put(b"{");
    put_member(page, line, Column::Place);
    put_members(page, line, &OTHERS);
    page.put(b",");
    put_batch(page, lot, stamp);
    page.put(b"}\n");
}

/// Writes the batch as two members of JSON: first its number in seven digits with the day on which it was created, as
/// `2026-03-05`, then the stamp of its run in 12 digits, or null.
pub fn put_batch(page: &mut Page, lot: Lot, stamp: &Option<Stamp>)
    ensures { Writes page.old page.new (batch_json lot stamp.now) }
{
    put_lot(page, lot);
    page.put(b",\"stamp\":");
    put_stamp(page, stamp);
}

fn put_stamp(page: &mut Page, stamp: &Option<Stamp>)
    ensures { Writes page.old page.new (stamp_value stamp.now) }
{
    match stamp {
        None => page.put(b"null"),
        Some(stamp) => put_quoted(page, &stamp.digits()),
    }
}

/// Writes the first of these members, without the stamp.
pub fn put_lot(page: &mut Page, lot: Lot)
    ensures { Writes page.old page.new (lot_json lot) }
{
    page.put(b"\"lot\":{");
    put_lot_members(page, lot);
    page.put(b"}");
}

fn put_lot_members(page: &mut Page, lot: Lot)
    ensures { Writes page.old page.new (lot_members lot) }
{
    page.put(b"\"number\":");
    put_number(page, lot);
    page.put(b",\"created\":");
    put_day(page, lot);
}

fn put_number(page: &mut Page, lot: Lot)
    ensures { Writes page.old page.new (quoted (digits_text 7 lot.number)) }
{
    let number: [u8; 7] = digits_write(u64::from(lot.number()));
    put_quoted(page, &number);
}

fn put_day(page: &mut Page, lot: Lot)
    ensures { Writes page.old page.new (quoted (dashed lot.created)) }
{
    put_quoted(page, &dashed_digits(date_write(lot.created())));
}
