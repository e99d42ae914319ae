ghost use Rattle.rx_print.specs.Page.{Writes};
ghost use Rattle.rx_report_text.specs.Summary.{count_text, counts_text, part_text, shares_text, summary_text};

use crate::html::put_net_text;
use rx_print::Page;
use rx_settle::Tally;

/// What an account comes to: counts and net, and a bar of the counts.
pub(crate) fn put_summary(page: &mut Page, total: &Tally)
    ensures { Writes page.old page.new (summary_text total.now) }
{
    put_counts(page, total);
    put_shares(page, total);
}

fn put_counts(page: &mut Page, total: &Tally)
    ensures { Writes page.old page.new (counts_text total.now) }
{
    page.markup("<p class=\"sum\">");
    put_count(page, "paid", total.paid);
    put_count(page, "duplicate", total.duplicate);
    put_count(page, "reversed", total.approved);
    put_count(page, "rejected", total.rejected);
    page.markup("<span>net <b>");
    put_net_text(page, total);
    page.markup("</b></span></p>\n");
}

// A count with its name, which is its class too.
fn put_count(page: &mut Page, name: &'static str, count: u128)
    ensures { Writes page.old page.new (count_text name.now count) }
{
    page.markup("<span class=\"");
    page.markup(name);
    page.markup("\"><b>");
    page.number(count);
    page.markup("</b> ");
    page.markup(name);
    page.markup("</span> ");
}

// A bar whose parts grow with the counts.
fn put_shares(page: &mut Page, total: &Tally)
    ensures { Writes page.old page.new (shares_text total.now) }
{
    page.markup("<div class=\"shares\">");
    put_part(page, "paid", total.paid);
    put_part(page, "duplicate", total.duplicate);
    put_part(page, "reversed", total.approved);
    put_part(page, "rejected", total.rejected);
    page.markup("</div>\n");
}

fn put_part(page: &mut Page, class: &'static str, count: u128)
    ensures { Writes page.old page.new (part_text class.now count) }
{
    page.markup("<span class=\"");
    page.markup(class);
    page.markup("\" style=\"flex-grow:");
    page.number(count);
    page.markup("\"></span>");
}
