ghost use Rattle.rx_print.specs.Money.{signed_dollars};
ghost use Rattle.rx_print.specs.Page.{Writes};
ghost use Rattle.rx_report_text.specs.Pages.{cell_text, provider_text};
ghost use Rattle.rx_settle.specs.Settlement.{net};

use crate::money::put_net;
use crate::shown::{Shown, shown_cell};
use rx_fields::{Memory, Provider};
use rx_print::{Page, Style};
use rx_report::Line;
use rx_settle::{Field, Tally};

/// Writes the provider that a field names, as text.
pub(crate) fn put_provider_text(page: &mut Page, field: &Field)
    ensures { Writes page.old page.new (provider_text field.now) }
{
    match Provider::new(field) {
        Ok(provider) => page.escaped(Style::Html, provider.bytes()),
        Err(_) => page.markup("(no id)"),
    }
}

/// Writes what stands for an answer in a column, as text.
pub(crate) fn put_cell(page: &mut Page, shown: Shown, line: &Line)
    ensures { Writes page.old page.new (cell_text shown line.now) }
{
    match shown_cell(page.alloc(), shown, line) {
        Ok(cell) => page.escaped(Style::Html, &cell),
        Err(Memory) => page.lacks = true,
    }
}

/// Writes the net of a tally in dollars and cents.
pub(crate) fn put_net_text(page: &mut Page, tally: &Tally)
    ensures { Writes page.old page.new (signed_dollars (net tally.now)) }
{
    put_net(page, tally);
}
