ghost use Rattle.std.specs.Prelude.{◌≡◌, ◌++◌, IfOk};
ghost use Rattle.std.specs.List.{flat_map};
ghost use Rattle.rx_print.specs.Page.{Writes};
ghost use Rattle.rx_report.specs.Cells.{cell};
ghost use Rattle.rx_report.specs.ReadBack.{ReadsBack};
ghost use Rattle.rx_report.specs.Texts.{batch_cells, comma_member, comma_object, heading, json_member, json_object, json_value};
ghost use Rattle.rx_report.specs.Texts.{lines_json, quoted, row, tab_cell, tab_name, three_cells, tsv_text};

use crate::cells::put_cell;
use crate::column::{Column, OTHERS};
use crate::line::Line;
use rx_fields::{Lot, Memory, Stamp, date_write, digits_write};
use rx_print::{Page, Style, dashed_digits};
use std::alloc::Global;

/// The lines as a table for programs: a heading with the columns' names, then a row for each line, with a tab between
/// each two cells; last the batch's number, its day of creation, as `2026-03-05`, and the stamp of its run in 12 digits, where
/// it is known. Amounts are in cents.
#[tactic(auto, using(crate::proofs::ReadAgain::reads_back))]
pub fn tsv_text(
    alloc: Global,
    lot: Lot,
    stamp: Option<Stamp>,
    lines: &[Line],
) -> Result<Vec<u8>, Memory>
    ensures text { IfOk result (λ text. text.items ≡ tsv_text lot stamp lines.now) }
    // Where dates and members hold no control byte: each row has a cell for each column, and a reader finds the line's own.
    ensures reads_back { IfOk result (λ text. ReadsBack lot stamp lines.now text.items) }
{
    let text = written(alloc, lot, stamp, lines)?;
    Ok(text)
}

fn written(alloc: Global, lot: Lot, stamp: Option<Stamp>, lines: &[Line]) -> Result<Vec<u8>, Memory>
    ensures { IfOk result (λ text. text.items ≡ tsv_text lot stamp lines.now) }
{
    let mut page = Page::new(alloc);
    put_heading(&mut page);
    put_rows(&mut page, lot, &stamp, lines);
    page.into_bytes()
}

fn put_heading(page: &mut Page)
    ensures { Writes page.old page.new heading }
{
    page.put(Column::Place.name());
    put_names(page, &OTHERS);
    put_three(page, b"lot", b"created", b"stamp");
    page.put(b"\n");
}

// Three more cells, each after a tab.
fn put_three(page: &mut Page, first: &[u8], second: &[u8], third: &[u8])
    ensures { Writes page.old page.new (three_cells first.now second.now third.now) }
{
    page.put(b"\t");
    page.put(first);
    page.put(b"\t");
    page.put(second);
    page.put(b"\t");
    page.put(third);
}

/// Writes the name of each column after a tab.
pub fn put_names(page: &mut Page, columns: &[Column])
    ensures { Writes page.old page.new (flat_map tab_name columns.now) }
{
    for column in columns {
        page.put(b"\t");
        page.put(column.name());
    }
}

fn put_rows(page: &mut Page, lot: Lot, stamp: &Option<Stamp>, lines: &[Line])
    ensures { Writes page.old page.new (flat_map (row lot stamp.now) lines.now) }
{
    for line in lines {
        put_row(page, lot, stamp, line);
    }
}

fn put_row(page: &mut Page, lot: Lot, stamp: &Option<Stamp>, line: &Line)
    ensures { Writes page.old page.new (row lot stamp.now line.now) }
{
    put_cell(page, Column::Place, line);
    put_cells(page, line, &OTHERS);
    put_batch_cells(page, lot, stamp);
    page.put(b"\n");
}

fn put_batch_cells(page: &mut Page, lot: Lot, stamp: &Option<Stamp>)
    ensures { Writes page.old page.new (batch_cells lot stamp.now) }
{
    let number: [u8; 7] = digits_write(u64::from(lot.number()));
    let created = dashed_digits(date_write(lot.created()));
    match stamp {
        None => put_three(page, &number, &created, b""),
        Some(stamp) => put_three(page, &number, &created, &stamp.digits()),
    }
}

/// Writes what a line has in each column after a tab.
pub fn put_cells(page: &mut Page, line: &Line, columns: &[Column])
    ensures { Writes page.old page.new (flat_map (tab_cell line.now) columns.now) }
{
    for column in columns {
        page.put(b"\t");
        put_cell(page, *column, line);
    }
}

/// Writes the lines as JSON: an array with an object for each, whose names are the columns'. What isn't known is `null`;
/// amounts are in cents.
#[tactic(auto, using(std::proofs::Common::append_assoc))]
pub fn put_lines_json(page: &mut Page, lines: &[Line])
    ensures { Writes page.old page.new (lines_json lines.now) }
{
    let [first, others @ ..] = lines else {
        page.put(b"[]\n");
        return;
    };
    page.put(b"[");
    put_object(page, first);
    put_objects(page, others);
    page.put(b"]\n");
}

// Each object after a comma, on a line of its own.
fn put_objects(page: &mut Page, lines: &[Line])
    ensures { Writes page.old page.new (flat_map comma_object lines.now) }
{
    for line in lines {
        page.put(b",\n");
        put_object(page, line);
    }
}

fn put_object(page: &mut Page, line: &Line)
    ensures { Writes page.old page.new (json_object line.now) }
{
    page.put(b"{");
    put_member(page, line, Column::Place);
    put_members(page, line, &OTHERS);
    page.put(b"}");
}

/// Writes what a line has in a column as a member of JSON: `null` where it is blank, a number as it is, else a string.
pub fn put_member(page: &mut Page, line: &Line, column: Column)
    ensures { Writes page.old page.new (json_member line.now column) }
{
    page.put(b"\"");
    page.put(column.name());
    page.put(b"\":");
    put_json_cell(page, line, column);
}

fn put_json_cell(page: &mut Page, line: &Line, column: Column)
    ensures { Writes page.old page.new (json_value column (cell column line.now)) }
{
    let mut cell = Page::new(page.alloc());
    put_cell(&mut cell, column, line);
    match cell.into_bytes() {
        Ok(value) => put_value(page, column, &value),
        Err(Memory) => page.lacks = true,
    }
}

fn put_value(page: &mut Page, column: Column, value: &[u8])
    ensures { Writes page.old page.new (json_value column value.now) }
{
    if value.is_empty() {
        page.put(b"null");
    } else if column.is_number() {
        page.put(value);
    } else {
        put_quoted(page, value);
    }
}

/// Writes bytes as a string of JSON.
pub fn put_quoted(page: &mut Page, bytes: &[u8])
    ensures { Writes page.old page.new (quoted bytes.now) }
{
    page.put(b"\"");
    page.escaped(Style::Json, bytes);
    page.put(b"\"");
}

/// Writes such a member for each column after a comma.
pub fn put_members(page: &mut Page, line: &Line, columns: &[Column])
    ensures { Writes page.old page.new (flat_map (comma_member line.now) columns.now) }
{
    for column in columns {
        page.put(b",");
        put_member(page, line, *column);
    }
}
