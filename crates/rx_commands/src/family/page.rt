//! A family as an HTML page.
ghost use Rattle.std.specs.Prelude.{codes};
ghost use Rattle.std.specs.List.{flat_map};
ghost use Rattle.rx_fields.specs.Digits.{digits_text};
ghost use Rattle.rx_print.specs.Escape.{escaped};
ghost use Rattle.rx_print.specs.declared.style.Style.TheVariants.{Html};
ghost use Rattle.rx_commands.specs.FamilyPage.{amount_cell, claim_row, claims_table, date_cell, family_row, fill_cell};
ghost use Rattle.rx_commands.specs.FamilyPage.{front_text, header_text, html_text, id_cell, left_amount, member_row, place_cells};
ghost use Rattle.rx_commands.specs.FamilyPage.{reached_part, reached_with, rx_cell, sheet_text, source_text, sum_cells, sums_table, total_cells};
ghost use Rattle.rx_print.specs.Page.{Writes};

use crate::family::cells::reached_names;
use crate::family::columns::{put_fill, put_span};
use crate::family::families::{Family, FamilyMember, Total};
use crate::family::sums::Claim;
use rx_fields::{Day, Id, Person, Product, Provider, Reference};
use rx_ledger::Row;
use rx_print::{Page, Style};
use rx_report_text::{InputFile, POLICY, STYLE, put_file, put_term};

/// What a family's page was made from, by what and when.
#[derive(Clone, Copy)]
pub struct FamilyOrigin<'a> {
    /// The plan sheet, where one was given.
    pub sheet: Option<InputFile<'a>>,
    pub books: InputFile<'a>,
    /// The program and its version.
    pub program: &'a str,
    /// The time by the clock, as `2026-11-28 09:55`; empty where it isn't known.
    pub made: &'a str,
}

// How its tables look, next to the style of a report's page: on a phone each cell has its label.
pub(crate) const FAMILY_STYLE: &str = ".family th,.family td{white-space:nowrap}
.family th:first-child{white-space:normal}
.family td:last-child{white-space:normal;overflow-wrap:anywhere;text-align:left}
.family thead th:last-child{text-align:left}
@media (max-width:64rem){
.family,.family caption,.family tbody{display:block}
.family thead{position:absolute;left:-99rem}
.family tr{display:grid;grid-template-columns:repeat(auto-fill,minmax(8rem,1fr));gap:.2rem .6rem}
.family tr{padding:.6rem 0;border-bottom:1px solid var(--rule)}
.family th,.family td{padding:0;border:0;text-align:left;white-space:normal;overflow-wrap:anywhere}
.family tbody th{grid-column:1/-1}
.family td i{display:block;color:var(--soft);font-size:.75rem;font-style:normal;font-weight:400}
.family td:empty{display:none}
}
";

pub(crate) const SUM_HEADINGS: &str = "<table class=\"family\">
<caption>Sums of the benefit period</caption>
<thead><tr><th scope=\"col\">Sum</th><th scope=\"col\">Covered</th><th scope=\"col\">Amount</th>
<th scope=\"col\">Left</th><th scope=\"col\">Reached with</th></tr></thead>
<tbody>
";

pub(crate) const CLAIM_HEADINGS: &str = "<table id=\"claims\" class=\"family\">
<caption>Standing claims by date, each with the sums up to it</caption>
<thead><tr><th scope=\"col\">Date</th><th scope=\"col\">Person</th><th scope=\"col\">Rx</th>
<th scope=\"col\">Pharmacy</th><th scope=\"col\">Product</th><th scope=\"col\">Member pays</th>
<th scope=\"col\">Plan pays</th><th scope=\"col\">Deductible</th><th scope=\"col\">Family deductible</th>
<th scope=\"col\">Out of pocket</th><th scope=\"col\">Reaches</th></tr></thead>
<tbody>
";

/// Writes the family with its sums and its claims.
pub(crate) fn put_html(page: &mut Page, origin: &FamilyOrigin<'_>, family: &Family)
    ensures { Writes page.old page.new (html_text origin.now family.now) }
{
    put_front(page, &family.id);
    put_header(page, origin, family);
    put_sums(page, family);
    put_claims(page, &family.claims);
    page.markup("</main>\n</body>\n</html>\n");
}

fn put_front(page: &mut Page, id: &Id)
    ensures { Writes page.old page.new (front_text id.now) }
{
    page.markup("<!DOCTYPE html>\n<html lang=\"en\">\n<head>\n<meta charset=\"utf-8\">\n");
    page.markup(POLICY);
    page.markup(
        "<meta name=\"viewport\" content=\"width=device-width, initial-scale=1\">\n<title>Family ",
    );
    put_name(page, id);
    page.markup("</title>\n<style>\n");
    page.markup(STYLE);
    page.markup(FAMILY_STYLE);
    page.markup(
        "</style>\n</head>\n<body>\n<a class=\"skip\" href=\"#claims\">Skip to the claims</a>\n",
    );
}

// The family's id.
fn put_name(page: &mut Page, id: &Id)
    ensures { Writes page.old page.new (escaped Html id.now) }
{
    page.escaped(Style::Html, id.bytes());
}

// The family, its benefit period, and the page's origin.
fn put_header(page: &mut Page, origin: &FamilyOrigin<'_>, family: &Family)
    ensures { Writes page.old page.new (header_text origin.now family.now) }
{
    page.markup("<header>\n<h1>Family ");
    put_name(page, &family.id);
    page.markup("</h1>\n<p>benefit period ");
    put_span(page, family.period);
    page.markup("</p>\n");
    put_source(page, origin);
    page.markup("</header>\n<main>\n");
}

fn put_source(page: &mut Page, origin: &FamilyOrigin<'_>)
    ensures { Writes page.old page.new (source_text origin.now) }
{
    page.markup("<dl class=\"origin\">\n");
    put_sheet(page, &origin.sheet);
    put_file(page, "Books", &origin.books);
    put_term(page, "Program", origin.program);
    put_term(page, "Made", origin.made);
    page.markup("</dl>\n");
}

fn put_sheet(page: &mut Page, sheet: &Option<InputFile<'_>>)
    ensures { Writes page.old page.new (sheet_text sheet.now) }
{
    match sheet {
        Some(file) => put_file(page, "Sheet", file),
        None => {}
    }
}

// The deductible of each member, and the sums of the family.
fn put_sums(page: &mut Page, family: &Family)
    ensures { Writes page.old page.new (sums_table family.now) }
{
    page.markup(SUM_HEADINGS);
    put_members(page, &family.members);
    put_family_row(page, "Deductible of the family", &family.deductible);
    put_family_row(page, "Out of pocket of the family", &family.out_of_pocket);
    page.markup("</tbody>\n</table>\n");
}

fn put_member(page: &mut Page, shown: &FamilyMember)
    ensures { Writes page.old page.new (member_row shown.now) }
{
    page.markup("<tr><th scope=\"row\">Deductible of ");
    page.escaped(Style::Html, shown.member.key.person.bytes());
    page.markup("</th><td><i>Covered</i>");
    put_span(page, shown.member.coverage);
    page.markup("</td>");
    put_total(page, &shown.deductible);
}

fn put_members(page: &mut Page, members: &[FamilyMember])
    ensures { Writes page.old page.new (flat_map member_row members.now) }
{
    for member in members {
        put_member(page, member);
    }
}

fn put_family_row(page: &mut Page, name: &'static str, total: &Total)
    ensures { Writes page.old page.new (family_row name.now total.now) }
{
    page.markup("<tr><th scope=\"row\">");
    page.markup(name);
    page.markup("</th><td></td>");
    put_total(page, total);
}

// A sum, what is left of its limit, and the claim with which the limit was reached; cells of what isn't known are empty.
fn put_total(page: &mut Page, total: &Total)
    ensures { Writes page.old page.new (total_cells total.now) }
{
    put_amount(page, "<td><i>Amount</i>", total.sum);
    put_left(page, total.left);
    put_reached(page, &total.reached);
}

fn put_left(page: &mut Page, left: Option<u64>)
    ensures { Writes page.old page.new (left_amount left) }
{
    match left {
        Some(cents) => put_amount(page, "<td><i>Left</i>", u128::from(cents)),
        None => page.markup("<td></td>"),
    }
}

fn put_reached(page: &mut Page, reached: &Option<Row>)
    ensures { Writes page.old page.new (fill_cell reached.now) }
{
    match reached {
        Some(row) => put_fill_cell(page, row),
        None => page.markup("<td></td></tr>\n"),
    }
}

fn put_fill_cell(page: &mut Page, row: &Row)
    ensures { Writes page.old page.new (reached_with row.now) }
{
    page.markup("<td><i>Reached with</i>");
    put_fill(page, Style::Html, row);
    page.markup("</td></tr>\n");
}

fn put_claims(page: &mut Page, claims: &[Claim])
    ensures { Writes page.old page.new (claims_table claims.now) }
{
    page.markup(CLAIM_HEADINGS);
    put_rows(page, claims);
    page.markup("</tbody>\n</table>\n");
}

fn put_row(page: &mut Page, claim: &Claim)
    ensures { Writes page.old page.new (claim_row claim.now) }
{
    put_place(page, &claim.row);
    put_amounts(page, claim);
}

// The claim's day, person, prescription, pharmacy and product.
fn put_place(page: &mut Page, row: &Row)
    ensures { Writes page.old page.new (place_cells row.now) }
{
    put_date(page, row.key.date);
    put_person(page, &row.person);
    put_rx(page, row.key.reference);
    put_provider(page, &row.key.provider);
    put_product(page, row.product);
}

// What is paid, the sums up to the claim, and the limits that it reaches.
fn put_amounts(page: &mut Page, claim: &Claim)
    ensures { Writes page.old page.new (sum_cells claim.now) }
{
    let pricing = &claim.row.pricing;
    put_cents(page, "<td><i>Member pays</i>", pricing.patient_pay());
    put_cents(page, "<td><i>Plan pays</i>", pricing.total_paid());
    put_amount(page, "<td><i>Deductible</i>", claim.deductible.sum);
    put_amount(
        page,
        "<td><i>Family deductible</i>",
        claim.family_deductible.sum,
    );
    put_amount(page, "<td><i>Out of pocket</i>", claim.out_of_pocket.sum);
    put_names(page, claim);
}

fn put_date(page: &mut Page, day: Day)
    ensures { Writes page.old page.new (date_cell day) }
{
    page.markup("<tr><th scope=\"row\">");
    page.day(day);
    page.markup("</th>");
}

fn put_rx(page: &mut Page, reference: Reference)
    ensures { Writes page.old page.new (rx_cell reference) }
{
    page.markup("<td><i>Rx</i>");
    page.number(u128::from(reference.get()));
    page.markup("</td>");
}

fn put_person(page: &mut Page, person: &Person)
    ensures { Writes page.old page.new (id_cell (codes "<td><i>Person</i>") person.now) }
{
    put_id(page, "<td><i>Person</i>", person.bytes());
}

fn put_provider(page: &mut Page, provider: &Provider)
    ensures { Writes page.old page.new (id_cell (codes "<td><i>Pharmacy</i>") provider.now) }
{
    put_id(page, "<td><i>Pharmacy</i>", provider.bytes());
}

fn put_product(page: &mut Page, product: Product)
    ensures { Writes page.old page.new (id_cell (codes "<td><i>Product</i>") (digits_text 11 product)) }
{
    put_id(page, "<td><i>Product</i>", &product.digits());
}

fn put_cents(page: &mut Page, front: &'static str, cents: u64)
    ensures { Writes page.old page.new (amount_cell front.now cents) }
{
    put_amount(page, front, u128::from(cents));
}

fn put_id(page: &mut Page, front: &'static str, id: &[u8])
    ensures { Writes page.old page.new (id_cell front.now id.now) }
{
    page.markup(front);
    page.escaped(Style::Html, id);
    page.markup("</td>");
}

fn put_amount(page: &mut Page, front: &'static str, cents: u128)
    ensures { Writes page.old page.new (amount_cell front.now cents) }
{
    page.markup(front);
    page.money(cents);
    page.markup("</td>");
}

fn put_names(page: &mut Page, claim: &Claim)
    ensures { Writes page.old page.new (reached_part claim.now) }
{
    page.markup("<td><i>Reaches</i>");
    page.put(reached_names(claim));
    page.markup("</td></tr>\n");
}

fn put_rows(page: &mut Page, claims: &[Claim])
    ensures { Writes page.old page.new (flat_map claim_row claims.now) }
{
    for claim in claims {
        put_row(page, claim);
    }
}
