ghost use Rattle.std.specs.Prelude.{◌≡◌, IfOk, length, map, max};
ghost use Rattle.rx_report_text.specs.Columns.{printed, wide, wide_columns, widened, width_of};

use crate::shown::{COLUMNS, Shown, shown_cell};
use rx_fields::Memory;
use rx_print::{Page, Style};
use rx_report::{Line, Section};
use std::alloc::Global;

// A column with its width in bytes.
#[derive(Clone, Copy)]
pub(crate) struct Wide {
    pub(crate) shown: Shown,
    pub(crate) width: usize,
}

/// The columns, each wide enough for its heading and its cells.
#[tactic(auto, unfolding(crate::specs::Columns::wide_columns))]
pub(crate) fn wide_columns(alloc: Global, sections: &[Section<'_>]) -> Result<Vec<Wide>, Memory>
    ensures { IfOk result (λ wides. wides.items ≡ wide_columns sections.now) }
{
    all_wide(alloc, sections, &COLUMNS)
}

fn all_wide(alloc: Global, sections: &[Section<'_>], columns: &[Shown]) -> Result<Vec<Wide>, Memory>
    ensures { IfOk result (λ wides. wides.items ≡ map (wide sections.now) columns.now) }
{
    let mut wides = Vec::new(alloc);
    for shown in columns {
        let width = width_of(alloc, *shown, sections)?;
        wides.push(Wide {
            shown: *shown,
            width,
        })?;
    }
    Ok(wides)
}

fn width_of(alloc: Global, shown: Shown, sections: &[Section<'_>]) -> Result<usize, Memory>
    ensures { IfOk result (λ width. width ≡ width_of sections.now shown) }
{
    let mut width = shown.heading().len();
    for section in sections {
        width = widened(alloc, shown, width, section.lines)?;
    }
    Ok(width)
}

fn widened(alloc: Global, shown: Shown, heading: usize, lines: &[Line]) -> Result<usize, Memory>
    ensures { IfOk result (λ width. width ≡ widened shown heading lines.now) }
{
    let mut width = heading;
    for line in lines {
        width = wider(alloc, shown, width, line)?;
    }
    Ok(width)
}

fn wider(alloc: Global, shown: Shown, width: usize, line: &Line) -> Result<usize, Memory>
    ensures { IfOk result (λ wider. wider ≡ max width (length (printed shown line.now))) }
{
    let cell = printed(alloc, shown, line)?;
    Ok(width.max(cell.len()))
}

/// What is printed for an answer in a column.
pub(crate) fn printed(alloc: Global, shown: Shown, line: &Line) -> Result<Vec<u8>, Memory>
    ensures { IfOk result (λ text. text.items ≡ printed shown line.now) }
{
    let cell = shown_cell(alloc, shown, line)?;
    let mut page = Page::new(alloc);
    page.escaped(Style::Terminal, &cell);
    page.into_bytes()
}
