//! A family as a table of tabs and as JSON.
ghost use Rattle.std.specs.Prelude.{◌≡◌};
ghost use Rattle.std.specs.List.{enumerate_from, flat_map};
ghost use Rattle.rx_commands.specs.FamilyTables.{claim_json, claims_json, comma_after, comma_member, day_json};
ghost use Rattle.rx_commands.specs.FamilyTables.{family_json, head_json, heading, json_member, json_value, left_json, member_json};
ghost use Rattle.rx_commands.specs.FamilyTables.{members_json, reached_json, row, span_json, tab_cell, tab_name, total_json, totals_json};
ghost use Rattle.rx_commands.specs.FamilyTables.{tsv_text};
ghost use Rattle.rx_print.specs.Page.{Writes};

use crate::family::cells::{Column, OTHERS, put_cell};
use crate::family::families::{Family, FamilyMember, Total};
use crate::family::sums::Claim;
use rx_fields::{Day, Memory, Period, date_write, digits_write};
use rx_ledger::Row;
use rx_print::{Page, dashed_digits};
use rx_report::put_quoted;

/// Writes the claims as a table: a heading, and a row for each, with a tab between each two cells.
pub(crate) fn put_tsv(page: &mut Page, claims: &[Claim])
    ensures { Writes page.old page.new (tsv_text claims.now) }
{
    put_heading(page);
    put_rows(page, claims);
}

#[tactic(auto, using(std::proofs::Common::append_assoc))]
fn put_heading(page: &mut Page)
    ensures { Writes page.old page.new heading }
{
    page.put(Column::Date.name());
    put_names(page, &OTHERS);
    page.put(b"\n");
}

// Each name after a tab.
fn put_names(page: &mut Page, columns: &[Column])
    ensures { Writes page.old page.new (flat_map tab_name columns.now) }
{
    for column in columns {
        page.put(b"\t");
        page.put(column.name());
    }
}

#[tactic(auto, using(std::proofs::Common::append_assoc))]
fn put_row(page: &mut Page, claim: &Claim)
    ensures { Writes page.old page.new (row claim.now) }
{
    put_cell(page, Column::Date, claim);
    put_cells(page, claim, &OTHERS);
    page.put(b"\n");
}

// Each cell after a tab.
fn put_cells(page: &mut Page, claim: &Claim, columns: &[Column])
    ensures { Writes page.old page.new (flat_map (tab_cell claim.now) columns.now) }
{
    for column in columns {
        page.put(b"\t");
        put_cell(page, *column, claim);
    }
}

/// Writes the family as one object of JSON. What isn't known is `null`.
pub(crate) fn put_family(page: &mut Page, family: &Family)
    ensures { Writes page.old page.new (family_json family.now) }
{
    put_head(page, family);
    page.put(b",\n\"members\":[");
    put_members(page, &family.members);
    page.put(b"],\n");
    put_totals(page, family);
    page.put(b",\n\"claims\":[");
    put_claims(page, &family.claims);
    page.put(b"]}\n");
}

fn put_head(page: &mut Page, family: &Family)
    ensures { Writes page.old page.new (head_json family.now) }
{
    page.put(b"{\"family\":");
    put_quoted(page, family.id.bytes());
    page.put(b",");
    put_span(page, family.period);
}

fn put_totals(page: &mut Page, family: &Family)
    ensures { Writes page.old page.new (totals_json family.now) }
{
    page.put(b"\"family_deductible\":");
    put_total(page, &family.deductible);
    page.put(b",\n\"out_of_pocket\":");
    put_total(page, &family.out_of_pocket);
}

fn put_total(page: &mut Page, total: &Total)
    ensures { Writes page.old page.new (total_json total.now) }
{
    page.put(b"{\"sum\":");
    page.number(total.sum);
    page.put(b",\"left\":");
    put_left(page, total.left);
    page.put(b",\"reached\":");
    put_reached(page, &total.reached);
    page.put(b"}");
}

fn put_left(page: &mut Page, left: Option<u64>)
    ensures { Writes page.old page.new (left_json left) }
{
    match left {
        Some(cents) => page.number(u128::from(cents)),
        None => page.put(b"null"),
    }
}

fn put_reached(page: &mut Page, reached: &Option<Row>)
    ensures { Writes page.old page.new (reached_json reached.now) }
{
    if let Some(row) = reached {
        let digits: [u8; 15] = digits_write(row.number.get());
        put_quoted(page, &digits);
    } else {
        page.put(b"null");
    }
}

fn put_day(page: &mut Page, day: Day)
    ensures { Writes page.old page.new (day_json day) }
{
    put_quoted(page, &dashed_digits(date_write(day)));
}

#[tactic(auto, using(std::proofs::Common::append_assoc), unfolding(crate::specs::FamilyTables::span_json))]
fn put_span(page: &mut Page, span: Period)
    ensures { Writes page.old page.new (span_json span) }
{
    page.put(b"\"first\":");
    put_day(page, span.first());
    page.put(b",\"last\":");
    put_day(page, span.last());
}

// The members, each on a line of its own, with a comma before all but the first.
fn put_members(page: &mut Page, members: &[FamilyMember])
    ensures { Writes page.old page.new (members_json (enumerate_from 0 members.now)) }
{
    for (before, member) in members.iter().enumerate() {
        put_member(page, before, member);
    }
}

fn put_member(page: &mut Page, before: usize, shown: &FamilyMember)
    ensures { Writes page.old page.new (member_json before shown.now) }
{
    page.put(comma_after(before));
    page.put(b"{\"person\":");
    put_quoted(page, shown.member.key.person.bytes());
    page.put(b",");
    put_span(page, shown.member.coverage);
    page.put(b",\"deductible\":");
    put_total(page, &shown.deductible);
    page.put(b"}");
}

// What stands between an item and this many before it.
fn comma_after(before: usize) -> &'static [u8]
    ensures { result.now ≡ comma_after before }
{
    if before == 0 { b"" } else { b",\n" }
}

#[tactic(auto, using(std::proofs::Common::append_assoc), unfolding(crate::specs::FamilyTables::claim_json))]
fn put_claim(page: &mut Page, before: usize, claim: &Claim)
    ensures { Writes page.old page.new (claim_json before claim.now) }
{
    page.put(comma_after(before));
    page.put(b"{");
    put_named(page, claim, Column::Date);
    put_others(page, claim, &OTHERS);
    page.put(b"}");
}

// The claims in the same way.
fn put_claims(page: &mut Page, claims: &[Claim])
    ensures { Writes page.old page.new (claims_json (enumerate_from 0 claims.now)) }
{
    for (before, claim) in claims.iter().enumerate() {
        put_claim(page, before, claim);
    }
}

#[tactic(auto, using(std::proofs::Common::append_assoc))]
fn put_named(page: &mut Page, claim: &Claim, column: Column)
    ensures { Writes page.old page.new (json_member claim.now column) }
{
    let mut value = Page::new(page.alloc());
    put_cell(&mut value, column, claim);
    page.put(b"\"");
    page.put(column.name());
    page.put(b"\":");
    match value.into_bytes() {
        Ok(value) => put_value(page, column, &value),
        Err(Memory) => page.lacks = true,
    }
}

// Each member of the object after a comma.
fn put_others(page: &mut Page, claim: &Claim, columns: &[Column])
    ensures { Writes page.old page.new (flat_map (comma_member claim.now) columns.now) }
{
    for column in columns {
        page.put(b",");
        put_named(page, claim, *column);
    }
}

fn put_value(page: &mut Page, column: Column, value: &[u8])
    ensures { Writes page.old page.new (json_value column value.now) }
{
    if value.is_empty() {
        page.put(b"null");
    } else if column.is_number() {
        page.put(value);
    } else {
        put_quoted(page, value);
    }
}

fn put_rows(page: &mut Page, claims: &[Claim])
    ensures { Writes page.old page.new (flat_map row claims.now) }
{
    for claim in claims {
        put_row(page, claim);
    }
}
