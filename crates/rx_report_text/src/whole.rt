ghost use Rattle.std.specs.Prelude.{◌≡◌, ◌++◌, [], codes, length, nat_le, sum_by, IfOk};
ghost use Rattle.std.specs.List.{enumerate_from};
ghost use Rattle.rx_print.specs.Dates.{dashed};
ghost use Rattle.rx_print.specs.Escape.{escaped};
ghost use Rattle.rx_print.specs.Page.{Writes};
ghost use Rattle.rx_print.specs.declared.style.Style.TheVariants.{Html};
ghost use Rattle.rx_report_text.specs.Claims.{sections_text};
ghost use Rattle.rx_report_text.specs.ClaimsShown.{shows_claims};
ghost use Rattle.rx_report_text.specs.Pages.{provider_text};
ghost use Rattle.rx_report_text.specs.Whole.{below_table, called_text, claims_part, end_text, family_text, head_text, header_text, leaf_portion_text, lot_text};
ghost use Rattle.rx_report_text.specs.Whole.{page_text, parts_of_page, portion_text, print_text, skip_text, style_text, title_text, too_many_text};
ghost use Rattle.rx_report_text.specs.Whole.{whose_text};

use crate::claims::put_claims;
use crate::html::put_provider_text;
use crate::layout::Layout;
use crate::origin::{Origin, PageHead, put_origin, put_text};
use crate::providers::put_providers;
use crate::rejects::put_rejects;
use crate::script::{POLICY, SCRIPT};
use crate::style::STYLE;
use crate::summary::put_summary;
use crate::why::Whys;
use rx_fields::{Day, Lot, Memory, date_write, digits_write};
use rx_print::{Page, Style, dashed_digits};
use rx_report::{Account, Portion, Section};
use rx_settle::{Field, Tally};
use rx_sorted::Ascending;
use std::alloc::Global;

/// How many lines of a whole batch a page shows at most; of more it has the table of providers only.
pub const MOST_LINES: usize = 2000;

/// The account of a batch as an HTML page, where each claim unfolds to its figures and to the command that explains it.
pub fn report_page(
    alloc: Global,
    head: &PageHead<'_>,
    portion: Portion<'_>,
    account: &Account<'_>,
) -> Result<Vec<u8>, Memory>
    ensures { IfOk result (λ page. page.items ≡ page_text head.now portion.entry account.now []) }
{
    explained_page(alloc, head, portion, account, &Ascending::new(alloc))
}

/// The same page, where a claim whose answer is explained by these unfolds to its explanation.
pub fn explained_page(
    alloc: Global,
    head: &PageHead<'_>,
    portion: Portion<'_>,
    account: &Account<'_>,
    whys: &Whys,
) -> Result<Vec<u8>, Memory>
    ensures { IfOk result (λ page. page.items ≡ page_text head.now portion.entry account.now whys.now) }
{
    let mut page = Page::new(alloc);
    let layout = Layout::of(shows_claims(portion, account));
    put_page(
        &mut page,
        layout,
        head,
        portion,
        &account.sections,
        &account.total,
        whys,
    );
    page.into_bytes()
}

/// Head, title, what it comes to, why answers were rejected, the table of providers and what stands below it.
pub(crate) fn put_page(
    page: &mut Page,
    layout: Layout,
    head: &PageHead<'_>,
    portion: Portion<'_>,
    sections: &[Section<'_>],
    total: &Tally,
    whys: &Whys,
)
    ensures { Writes page.old page.new (parts_of_page layout head.now portion.entry sections.now total.now whys.now) }
{
    put_head(page, layout, head.lot);
    put_title(page, layout, head, portion);
    put_summary(page, total);
    put_rejects(page, sections, layout.has_claims());
    put_providers(page, layout, portion, sections, total);
    put_below(page, layout, head, sections, whys);
    put_end(page);
}

// The script.
fn put_end(page: &mut Page)
    ensures { Writes page.old page.new end_text }
{
    page.markup("<script>");
    page.markup(SCRIPT);
    page.markup("</script>\n</body>\n</html>\n");
}

// The claims of each provider, or how they are had.
#[tactic(auto, unfolding(crate::specs::Whole::below_table))]
fn put_below(
    page: &mut Page,
    layout: Layout,
    head: &PageHead<'_>,
    sections: &[Section<'_>],
    whys: &Whys,
)
    ensures { Writes page.old page.new (below_table layout head.now sections.now whys.now) }
{
    match layout {
        Layout::Claims | Layout::Leaf(_) => put_claims_part(page, sections, whys),
        Layout::Commands => put_command_part(page, &head.origin),
        Layout::Index => page.markup("</main>\n"),
    }
}

fn put_claims_part(page: &mut Page, sections: &[Section<'_>], whys: &Whys)
    ensures { Writes page.old page.new (claims_part (sections_text whys.now (enumerate_from 0 sections.now))) }
{
    page.markup("<div id=\"claims\">\n");
    put_sections(page, sections, whys);
    page.markup("</div>\n</main>\n");
}

fn put_command_part(page: &mut Page, origin: &Origin<'_>)
    ensures { Writes page.old page.new (claims_part (too_many_text origin.now)) }
{
    page.markup("<div id=\"claims\">\n");
    put_command(page, origin);
    page.markup("</div>\n</main>\n");
}

/// Whether the page of an account has its claims, and not the table of providers only: those of a portion, and those of
/// a whole batch up to `MOST_LINES` of them.
pub fn shows_claims(portion: Portion<'_>, account: &Account<'_>) -> bool
    ensures { result ≡ shows_claims portion.entry account.now.sections.items }
{
    match portion {
        Portion::Whole => are_few(&account.sections),
        Portion::Provider(_) | Portion::Family(_) => true,
    }
}

// Whether these sections have so few lines.
fn are_few(sections: &[Section<'_>]) -> bool
    ensures { result ≡ nat_le (sum_by (λ s. length s.lines.now) sections.now) MOST_LINES }
{
    let mut left = MOST_LINES;
    for section in sections {
        if section.lines.len() > left {
            return false;
        }
        left -= section.lines.len();
    }
    true
}

fn put_head(page: &mut Page, layout: Layout, lot: Lot)
    ensures { Writes page.old page.new (head_text layout lot) }
{
    page.markup("<!DOCTYPE html>\n<html lang=\"en\">\n<head>\n<meta charset=\"utf-8\">\n");
    page.markup(POLICY);
    page.markup(
        "<meta name=\"viewport\" content=\"width=device-width, initial-scale=1\">\n<title>",
    );
    put_called(page, layout, lot);
    page.markup("</title>\n");
    put_style(page, lot);
    page.markup("</head>\n<body>\n");
    page.markup(skip_text(layout));
}

// How the page looks; on paper the batch stands at the head of each sheet.
fn put_style(page: &mut Page, lot: Lot)
    ensures { Writes page.old page.new (style_text lot) }
{
    page.markup("<style>\n");
    page.markup(STYLE);
    page.markup("@page{@top-left{content:'");
    put_lot(page, lot);
    page.markup("'}}\n</style>\n");
}

// The first link, past what stands at the head.
fn skip_text(layout: Layout) -> &'static str
    ensures { result.now ≡ skip_text layout }
{
    match layout {
        Layout::Index => { "<a class=\"skip\" href=\"#providers\">Skip to the providers</a>\n" }
        Layout::Claims | Layout::Commands | Layout::Leaf(_) => {
            "<a class=\"skip\" href=\"#claims\">Skip to the claims</a>\n"
        }
    }
}

// What the page is called.
fn put_called(page: &mut Page, layout: Layout, lot: Lot)
    ensures { Writes page.old page.new (called_text layout lot) }
{
    match layout {
        Layout::Leaf(provider) => put_called_after(page, lot, &provider),
        Layout::Claims | Layout::Commands | Layout::Index => put_lot(page, lot),
    }
}

#[tactic(auto, using(std::proofs::Common::append_assoc))]
fn put_called_after(page: &mut Page, lot: Lot, provider: &Field)
    ensures { Writes page.old page.new (lot_text lot ++ (codes ", provider " ++ provider_text provider.now)) }
{
    put_lot(page, lot);
    page.markup(", provider ");
    put_provider_text(page, provider);
}

#[tactic(auto, using(std::proofs::Common::append_assoc))]
fn put_lot(page: &mut Page, lot: Lot)
    ensures { Writes page.old page.new (lot_text lot) }
{
    let number: [u8; 7] = digits_write(u64::from(lot.number()));
    page.markup("Batch ");
    page.escaped(Style::Html, &number);
}

// The batch, its date, whose lines the page has, and its origin.
fn put_title(page: &mut Page, layout: Layout, head: &PageHead<'_>, portion: Portion<'_>)
    ensures { Writes page.old page.new (title_text layout head.now portion.entry) }
{
    page.markup(header_text(layout));
    put_lot(page, head.lot);
    page.markup("</h1>\n<p>created ");
    put_day(page, head.lot.created());
    put_whose(page, layout, portion);
    page.markup("; amounts in dollars</p>\n");
    put_origin(page, head);
    page.markup(print_text(layout.has_claims()));
}

// The front of the header; of a page in a folder with the way to the first.
fn header_text(layout: Layout) -> &'static str
    ensures { result.now ≡ header_text layout }
{
    match layout {
        Layout::Leaf(_) => {
            "<header>\n<p><a href=\"index.html\">All providers of this batch</a></p>\n<h1>"
        }
        Layout::Claims | Layout::Commands | Layout::Index => "<header>\n<h1>",
    }
}

// How claims are printed, on a page that has them, and the end of the header.
fn print_text(has_claims: bool) -> &'static str
    ensures { result.now ≡ print_text has_claims }
{
    if has_claims {
        "<label class=\"print\"><input type=\"checkbox\" id=\"short\"> print without explanations</label>\n</header>\n<main>\n"
    } else {
        "</header>\n<main>\n"
    }
}

// A day as `2026-03-05`.
fn put_day(page: &mut Page, day: Day)
    ensures { Writes page.old page.new (escaped Html (dashed day)) }
{
    page.escaped(Style::Html, &dashed_digits(date_write(day)));
}

// Whose lines the page has.
fn put_whose(page: &mut Page, layout: Layout, portion: Portion<'_>)
    ensures { Writes page.old page.new (whose_text layout portion.entry) }
{
    match layout {
        Layout::Leaf(provider) => put_leaf_whose(page, &provider, portion),
        Layout::Claims | Layout::Commands | Layout::Index => { put_portion(page, portion) }
    }
}

// Those of a provider, and of the family, if it is one.
fn put_leaf_whose(page: &mut Page, provider: &Field, portion: Portion<'_>)
    ensures { Writes page.old page.new (codes ", only provider " ++ (provider_text provider.now ++ leaf_portion_text portion.entry)) }
{
    page.markup(", only provider ");
    put_provider_text(page, provider);
    put_leaf_portion(page, portion);
}

// The same on a page that names its provider.
fn put_leaf_portion(page: &mut Page, portion: Portion<'_>)
    ensures { Writes page.old page.new (leaf_portion_text portion.entry) }
{
    match portion {
        Portion::Whole | Portion::Provider(_) => {}
        Portion::Family(id) => put_family(page, id),
    }
}

fn put_portion(page: &mut Page, portion: Portion<'_>)
    ensures { Writes page.old page.new (portion_text portion.entry) }
{
    match portion {
        Portion::Whole => page.markup(", all providers"),
        Portion::Provider(id) => put_only(page, id),
        Portion::Family(id) => put_family(page, id),
    }
}

fn put_only(page: &mut Page, id: &[u8])
    ensures { Writes page.old page.new (codes ", only provider " ++ escaped Html id.now) }
{
    page.markup(", only provider ");
    page.escaped(Style::Html, id);
}

fn put_family(page: &mut Page, id: &[u8])
    ensures { Writes page.old page.new (family_text id.now) }
{
    page.markup(", the lines of family ");
    page.escaped(Style::Html, id);
    page.markup("; counts and net are of these");
}

// Each provider's claims.
fn put_sections(page: &mut Page, sections: &[Section<'_>], whys: &Whys)
    ensures { Writes page.old page.new (sections_text whys.now (enumerate_from 0 sections.now)) }
{
    for (before, section) in sections.iter().enumerate() {
        put_claims(page, before, section, whys);
    }
}

// How the claims are had.
fn put_command(page: &mut Page, origin: &Origin<'_>)
    ensures { Writes page.old page.new (too_many_text origin.now) }
{
    page.markup(
        "<p>These are too many claims for one page. A page for each provider, and one that leads to them, are made by</p>\n",
    );
    page.markup("<pre>rxbatch report ");
    put_text(page, origin.options);
    page.markup(" --html-dir DIR</pre>\n");
}
