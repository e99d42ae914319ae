//! The answers that differ as a table of tabs.
ghost use Rattle.std.specs.List.{flat_map};
ghost use Rattle.rx_commands.specs.ComparedText.{heading, row, with_name};
ghost use Rattle.rx_commands.specs.Differing.{both};
ghost use Rattle.rx_print.specs.Page.{Writes};

use super::change::put_gain;
use super::known::{KEYS, SIDE, known};
use rx_print::Page;
use rx_report::{Column, Line, put_cell, put_cells, put_names};

/// Puts the columns' names.
pub(crate) fn put_heading(page: &mut Page)
    ensures { Writes page.old page.new heading }
{
    page.put(Column::Place.name());
    put_names(page, &KEYS);
    put_names(page, &SIDE);
    put_with_names(page, &SIDE);
    page.put(b"\tdifference\n");
}

/// Puts the row of an answer that differs; amounts are in cents.
#[tactic(auto, using(std::proofs::Common::append_assoc), unfolding(crate::specs::ComparedText::row))]
pub(crate) fn put_row(page: &mut Page, given: &Line, changed: &Line)
    ensures { Writes page.old page.new (row (both given.now changed.now)) }
{
    let known = known(given, changed);
    put_cell(page, Column::Place, &known);
    put_cells(page, &known, &KEYS);
    put_cells(page, given, &SIDE);
    put_cells(page, changed, &SIDE);
    put_gain(page, b"\t", given, changed, b"\n");
}

// Each name of the other side.
fn put_with_names(page: &mut Page, columns: &[Column])
    ensures { Writes page.old page.new (flat_map with_name columns.now) }
{
    for column in columns {
        page.put(b"\t");
        page.put(b"with_");
        page.put(column.name());
    }
}
