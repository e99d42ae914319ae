ghost use Rattle.std.specs.Prelude.{◌≡◌, ◌++◌, codes, IfOk};
ghost use Rattle.std.specs.List.{flat_map};
ghost use Rattle.rx_print.specs.Escape.{escaped};
ghost use Rattle.rx_print.specs.Page.{Writes};
ghost use Rattle.rx_print.specs.declared.style.Style.TheVariants.{Terminal};
ghost use Rattle.rx_report_text.specs.Columns.{account_text, aligned, columns_text, heading_cell, headings, is_right};
ghost use Rattle.rx_report_text.specs.Columns.{line_cell, line_row, row, scope_text, section_text, stamp_line, tally_counts, tally_line};
ghost use Rattle.rx_report_text.specs.Columns.{without_end};
ghost use Rattle.rx_report_text.specs.Stamps.{stamp_words};
ghost use Rattle.rx_settle.specs.Providers.{named};

use crate::money::put_net;
use crate::shown::Shown;
use crate::stamp::stamp_words;
use crate::wide::{Wide, printed, wide_columns};
use rx_fields::{Memory, Provider, Stamp};
use rx_print::{Page, Style};
use rx_report::{Account, Line, Portion, Section};
use rx_settle::{Field, Tally};
use std::alloc::Global;

/// The account in aligned columns: the stamp of the run, where it is known; for each provider its counts and net, and its
/// lines after them; last those of all.
/// Bytes that a terminal wouldn't print stand as `\x1B`.
pub fn columns_text(
    alloc: Global,
    stamp: Option<Stamp>,
    portion: Portion<'_>,
    account: &Account<'_>,
) -> Result<Vec<u8>, Memory>
    ensures { IfOk result (λ text. text.items ≡ columns_text stamp portion.entry account.now) }
{
    let columns = wide_columns(alloc, &account.sections)?;
    text_in(alloc, stamp, &columns, portion, account)
}

// The text in columns of these widths.
fn text_in(
    alloc: Global,
    stamp: Option<Stamp>,
    columns: &[Wide],
    portion: Portion<'_>,
    account: &Account<'_>,
) -> Result<Vec<u8>, Memory>
    ensures { IfOk result (λ text. text.items ≡ stamp_line stamp ++ account_text columns.now portion.entry account.now) }
{
    let mut page = Page::new(alloc);
    put_stamp(&mut page, stamp);
    put_account(&mut page, columns, portion, account);
    page.into_bytes()
}

// The stamp of the run on a line, and an empty line.
fn put_stamp(page: &mut Page, stamp: Option<Stamp>)
    ensures { Writes page.old page.new (stamp_line stamp) }
{
    if let Some(stamp) = stamp {
        put_known_stamp(page, stamp);
    }
}

fn put_known_stamp(page: &mut Page, stamp: Stamp)
    ensures { Writes page.old page.new (codes "stamp " ++ (stamp_words stamp ++ codes "\n\n")) }
{
    page.put(b"stamp ");
    page.put(&stamp_words(stamp));
    page.put(b"\n\n");
}

// The sections, and what all come to.
fn put_account(page: &mut Page, columns: &[Wide], portion: Portion<'_>, account: &Account<'_>)
    ensures { Writes page.old page.new (account_text columns.now portion.entry account.now) }
{
    put_sections(page, columns, &account.sections);
    put_scope(page, portion);
    put_tally(page, &account.total);
}

fn put_sections(page: &mut Page, columns: &[Wide], sections: &[Section<'_>])
    ensures { Writes page.old page.new (flat_map (section_text columns.now) sections.now) }
{
    for section in sections {
        put_section(page, columns, section);
    }
}

// A provider with what its answers come to, its lines, and an empty line.
fn put_section(page: &mut Page, columns: &[Wide], section: &Section<'_>)
    ensures { Writes page.old page.new (section_text columns.now section.now) }
{
    page.put(b"provider ");
    put_provider(page, &section.provider);
    put_tally(page, &section.tally);
    put_headings(page, columns);
    put_lines(page, columns, section.lines);
    page.put(b"\n");
}

// The provider that a field names.
fn put_provider(page: &mut Page, field: &Field)
    ensures { Writes page.old page.new (escaped Terminal (named field.now)) }
{
    match Provider::new(field) {
        Ok(provider) => page.escaped(Style::Terminal, provider.bytes()),
        Err(_) => {}
    }
}

// What the last line is about.
fn put_scope(page: &mut Page, portion: Portion<'_>)
    ensures { Writes page.old page.new (scope_text portion.entry) }
{
    match portion {
        Portion::Whole => page.put(b"all"),
        Portion::Provider(id) => put_named(page, b"all of provider ", id),
        Portion::Family(id) => put_named(page, b"the lines shown, of family ", id),
    }
}

#[tactic(auto, using(std::proofs::Common::append_assoc))]
fn put_named(page: &mut Page, front: &[u8], id: &[u8])
    ensures { Writes page.old page.new (front.now ++ escaped Terminal id.now) }
{
    page.put(front);
    page.escaped(Style::Terminal, id);
}

// The counts and the net, and the line's end.
fn put_tally(page: &mut Page, tally: &Tally)
    ensures { Writes page.old page.new (tally_line tally.now) }
{
    put_counts(page, tally);
    put_net(page, tally);
    page.put(b"\n");
}

fn put_counts(page: &mut Page, tally: &Tally)
    ensures { Writes page.old page.new (tally_counts tally.now) }
{
    page.put(b": ");
    page.number(tally.paid);
    page.put(b" paid, ");
    page.number(tally.duplicate);
    page.put(b" duplicate, ");
    page.number(tally.approved);
    page.put(b" reversed, ");
    page.number(tally.rejected);
    page.put(b" rejected, net ");
}

#[tactic(auto, unfolding(crate::specs::Columns::headings))]
fn put_headings(page: &mut Page, columns: &[Wide])
    ensures { Writes page.old page.new (headings columns.now) }
{
    let mut cells = Page::new(page.alloc());
    put_heading_cells(&mut cells, columns);
    match cells.into_bytes() {
        Ok(cells) => put_row(page, &cells),
        Err(Memory) => page.lacks = true,
    }
}

fn put_heading_cells(cells: &mut Page, columns: &[Wide])
    ensures { Writes cells.old cells.new (flat_map heading_cell columns.now) }
{
    for column in columns {
        put_aligned(cells, *column, column.shown.heading());
    }
}

fn put_lines(page: &mut Page, columns: &[Wide], lines: &[Line])
    ensures { Writes page.old page.new (flat_map (line_row columns.now) lines.now) }
{
    for line in lines {
        put_line(page, columns, line);
    }
}

#[tactic(auto, unfolding(crate::specs::Columns::line_row))]
fn put_line(page: &mut Page, columns: &[Wide], line: &Line)
    ensures { Writes page.old page.new (line_row columns.now line.now) }
{
    let mut cells = Page::new(page.alloc());
    put_line_cells(&mut cells, columns, line);
    match cells.into_bytes() {
        Ok(cells) => put_row(page, &cells),
        Err(Memory) => page.lacks = true,
    }
}

fn put_line_cells(cells: &mut Page, columns: &[Wide], line: &Line)
    ensures { Writes cells.old cells.new (flat_map (line_cell line.now) columns.now) }
{
    for column in columns {
        put_line_cell(cells, *column, line);
    }
}

fn put_line_cell(cells: &mut Page, column: Wide, line: &Line)
    ensures { Writes cells.old cells.new (line_cell line.now column) }
{
    match printed(cells.alloc(), column.shown, line) {
        Ok(cell) => put_aligned(cells, column, &cell),
        Err(Memory) => cells.lacks = true,
    }
}

// A cell in its width after two blanks.
#[tactic(auto, using(std::proofs::Common::append_assoc))]
fn put_aligned(cells: &mut Page, column: Wide, cell: &[u8])
    ensures { Writes cells.old cells.new (aligned column cell.now) }
{
    let room = column.width.saturating_sub(cell.len());
    cells.put(b"  ");
    if is_right(column.shown) {
        cells.blanks(room);
        cells.put(cell);
    } else {
        cells.put(cell);
        cells.blanks(room);
    }
}

// Places and amounts stand to the right.
fn is_right(shown: Shown) -> bool
    ensures { result ≡ is_right shown }
{
    match shown {
        Shown::Record => true,
        _ => shown.is_amount(),
    }
}

// The cells without the blanks at their end, and the line's end.
#[tactic(auto, using(std::proofs::Common::append_assoc))]
fn put_row(page: &mut Page, cells: &[u8])
    ensures { Writes page.old page.new (row cells.now) }
{
    page.put(without_end(cells));
    page.put(b"\n");
}

/// The cells without the blanks at their end.
pub(crate) fn without_end(cells: &[u8]) -> &[u8]
    ensures { result.now ≡ without_end cells.now }
{
    cells.trim_ascii_end()
}
