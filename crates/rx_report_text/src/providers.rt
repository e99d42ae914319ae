ghost use Rattle.std.specs.Prelude.{◌≡◌, nat_lt};
ghost use Rattle.std.specs.List.{enumerate_from, list_any};
ghost use Rattle.rx_print.specs.Page.{Writes};
ghost use Rattle.rx_report_text.specs.Providers.{bar_text, caption_text, class_text, count_text, headings_text, length_text, link_text};
ghost use Rattle.rx_report_text.specs.Providers.{longest, name_text, net_cell, page_link, row_text, rows_text, scope_text, share};
ghost use Rattle.rx_report_text.specs.Providers.{sign_text, size, table_text, tally_text, total_text, whole_scope};

use crate::html::{put_net_text, put_provider_text};
use crate::layout::{Layout, put_page_name};
use rx_print::Page;
use rx_report::{Portion, Section};
use rx_settle::{Field, Tally};

/// The table of providers, with counts, net and a bar for each.
pub(crate) fn put_providers(
    page: &mut Page,
    layout: Layout,
    portion: Portion<'_>,
    sections: &[Section<'_>],
    total: &Tally,
)
    ensures { Writes page.old page.new (table_text layout portion.entry sections.now total.now) }
{
    page.markup(class_text(sections));
    put_headings(page, layout);
    put_rows(page, layout, sections);
    put_total(page, layout, portion, total);
}

// Where a net is below zero, the bars have room on both sides of it.
fn class_text(sections: &[Section<'_>]) -> &'static str
    ensures { result.now ≡ class_text sections.now }
{
    if has_net_below_zero(sections) {
        "<table id=\"providers\" class=\"providers signed\">\n"
    } else {
        "<table id=\"providers\" class=\"providers\">\n"
    }
}

fn has_net_below_zero(sections: &[Section<'_>]) -> bool
    ensures { result ≡ list_any (λ s. nat_lt s.tally.paid_out s.tally.taken_back) sections.now }
{
    sections.iter().any(|section| section.tally.paid_out < section.tally.taken_back)
}

// The caption and the headings.
fn put_headings(page: &mut Page, layout: Layout)
    ensures { Writes page.old page.new (headings_text layout) }
{
    page.markup(caption_text(layout));
    page.markup("<th scope=\"col\">Provider</th><th scope=\"col\">Paid</th>");
    page.markup(
        "<th scope=\"col\">Duplicate</th><th scope=\"col\">Reversed</th><th scope=\"col\">Rejected</th>",
    );
    page.markup(
        "<th scope=\"col\">Net</th><th scope=\"col\">Net as a bar</th></tr></thead>\n<tbody>\n",
    );
}

fn caption_text(layout: Layout) -> &'static str
    ensures { result.now ≡ caption_text layout }
{
    match layout {
        Layout::Index => {
            "<caption>Providers, the greatest net first; a bar is as long as the square root of the net</caption>\n<thead><tr>"
        }
        Layout::Claims | Layout::Commands | Layout::Leaf(_) => {
            "<caption>Providers in order of first appearance; a bar is as long as the square root of the net</caption>\n<thead><tr>"
        }
    }
}

// A row for each provider.
fn put_rows(page: &mut Page, layout: Layout, sections: &[Section<'_>])
    ensures { Writes page.old page.new (rows_text layout (longest sections.now) (enumerate_from 0 sections.now)) }
{
    let longest = longest(sections);
    for (before, section) in sections.iter().enumerate() {
        put_provider(page, layout, before, section, longest);
    }
}

// What all of them come to.
fn put_total(page: &mut Page, layout: Layout, portion: Portion<'_>, total: &Tally)
    ensures { Writes page.old page.new (total_text layout portion.entry total.now) }
{
    page.markup("</tbody>\n<tfoot><tr><th scope=\"row\">");
    page.markup(scope_text(layout, portion));
    page.markup("</th>");
    put_tally(page, total);
    page.markup("<td class=\"bar\"></td></tr></tfoot>\n</table>\n");
}

// What the last row is about.
fn scope_text(layout: Layout, portion: Portion<'_>) -> &'static str
    ensures { result.now ≡ scope_text layout portion.entry }
{
    match portion {
        Portion::Whole => whole_scope(layout),
        Portion::Provider(_) => "This provider",
        Portion::Family(_) => "These lines",
    }
}

fn whole_scope(layout: Layout) -> &'static str
    ensures { result.now ≡ whole_scope layout }
{
    match layout {
        Layout::Leaf(_) => "This provider",
        Layout::Claims | Layout::Commands | Layout::Index => "All",
    }
}

// The net that has the longest bar, without its sign.
fn longest(sections: &[Section<'_>]) -> u128
    ensures { result ≡ longest sections.now }
{
    let mut longest = 0;
    for section in sections {
        longest = size(&section.tally).max(longest);
    }
    longest
}

// The net without its sign, in cents.
fn size(tally: &Tally) -> u128
    ensures { result ≡ size tally.now }
{
    tally.paid_out.abs_diff(tally.taken_back)
}

fn put_provider(
    page: &mut Page,
    layout: Layout,
    before: usize,
    section: &Section<'_>,
    longest: u128,
)
    ensures { Writes page.old page.new (row_text layout longest before section.now) }
{
    page.markup("<tr><th scope=\"row\">");
    put_name(page, layout, before, &section.provider);
    page.markup("</th>");
    put_tally(page, &section.tally);
    put_bar(page, &section.tally, longest);
    page.markup("</tr>\n");
}

// The provider's name, which leads to its claims, here or on their page.
fn put_name(page: &mut Page, layout: Layout, before: usize, provider: &Field)
    ensures { Writes page.old page.new (name_text layout before provider.now) }
{
    match layout {
        Layout::Claims | Layout::Leaf(_) => put_link(page, before, provider),
        Layout::Commands => put_provider_text(page, provider),
        Layout::Index => put_page_link(page, before, provider),
    }
}

fn put_page_link(page: &mut Page, before: usize, provider: &Field)
    ensures { Writes page.old page.new (page_link before provider.now) }
{
    page.markup("<a href=\"");
    put_page_name(page, before);
    page.markup("\">");
    put_provider_text(page, provider);
    page.markup("</a>");
}

fn put_link(page: &mut Page, before: usize, provider: &Field)
    ensures { Writes page.old page.new (link_text before provider.now) }
{
    page.markup("<a href=\"#p");
    page.number(before as u128);
    page.markup("\">");
    put_provider_text(page, provider);
    page.markup("</a>");
}

// The counts and the net, a cell each.
fn put_tally(page: &mut Page, tally: &Tally)
    ensures { Writes page.old page.new (tally_text tally.now) }
{
    put_count(page, "<td><i>Paid</i>", tally.paid);
    put_count(page, "<td><i>Duplicate</i>", tally.duplicate);
    put_count(page, "<td><i>Reversed</i>", tally.approved);
    put_count(page, "<td><i>Rejected</i>", tally.rejected);
    put_net(page, tally);
}

fn put_net(page: &mut Page, tally: &Tally)
    ensures { Writes page.old page.new (net_cell tally.now) }
{
    page.markup("<td class=\"net\">");
    put_net_text(page, tally);
    page.markup("</td>");
}

#[tactic(auto, using(std::proofs::Common::append_assoc))]
fn put_count(page: &mut Page, front: &'static str, count: u128)
    ensures { Writes page.old page.new (count_text front.now count) }
{
    page.markup(front);
    page.number(count);
    page.markup("</td>");
}

// The bar of a net, if there is one.
fn put_bar(page: &mut Page, tally: &Tally, longest: u128)
    ensures { Writes page.old page.new (bar_text longest tally.now) }
{
    if tally.taken_back == tally.paid_out {
        page.markup("<td class=\"bar\"></td>");
    } else {
        put_length(page, tally, longest);
    }
}

// Its share of the longest, of which the page's style draws the square root.
fn put_length(page: &mut Page, tally: &Tally, longest: u128)
    ensures { Writes page.old page.new (length_text longest tally.now) }
{
    page.markup("<td class=\"bar\"><span");
    put_sign(page, tally);
    page.markup(" style=\"--share:");
    page.number(share(size(tally), longest));
    page.markup("\"></span></td>");
}

// Where more is taken back than paid out.
fn put_sign(page: &mut Page, tally: &Tally)
    ensures { Writes page.old page.new (sign_text tally.now) }
{
    if tally.taken_back > tally.paid_out {
        page.markup(" class=\"minus\"");
    }
}

// A part in ten-thousandths of the whole, rounded down; all of them where that can't be counted.
fn share(part: u128, whole: u128) -> u128
    ensures { result ≡ share part whole }
{
    if whole == 0 {
        return 0;
    }
    match part.checked_mul(10_000) {
        Some(parts) => parts / whole,
        None => 10_000,
    }
}
