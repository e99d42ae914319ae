//! A family for people.
ghost use Rattle.std.specs.List.{flat_map};
ghost use Rattle.std.specs.Fmt.{decimal};
ghost use Rattle.rx_commands.specs.FamilyColumns.{claim_text, covered_text, fill_text, head_text, left_in, left_text, line_text};
ghost use Rattle.rx_commands.specs.FamilyColumns.{lines_head, lines_text, mark_text, member_text, named_total, page_text, period_text};
ghost use Rattle.rx_commands.specs.FamilyColumns.{place_text, reached_text, rest_text, shown, span_text, sums_text, total_text};
ghost use Rattle.rx_commands.specs.FamilyColumns.{totals_text};
ghost use Rattle.rx_print.specs.Page.{Writes};

use crate::family::cells::reached_names;
use crate::family::families::{Family, FamilyMember, Total};
use crate::family::sums::Claim;
use rx_fields::{Memory, Period};
use rx_ledger::Row;
use rx_print::{Page, Style};

// The widths of columns.
pub(crate) const PERSON: usize = 6;

pub(crate) const PRESCRIPTION: usize = 12;

pub(crate) const PROVIDER: usize = 15;

pub(crate) const AMOUNT: usize = 16;

/// Writes the family with its sums and its claims.
#[tactic(auto, using(std::proofs::Common::append_assoc), unfolding(crate::specs::FamilyColumns::page_text))]
pub(crate) fn put_page(page: &mut Page, family: &Family)
    ensures { Writes page.old page.new (page_text family.now) }
{
    put_head(page, family);
    put_members(page, &family.members);
    put_rest(page, family);
}

#[tactic(auto, using(std::proofs::Common::append_assoc), unfolding(crate::specs::FamilyColumns::rest_text))]
fn put_rest(page: &mut Page, family: &Family)
    ensures { Writes page.old page.new (rest_text family.now) }
{
    put_totals(page, family);
    put_lines(page, &family.claims);
}

#[tactic(auto, using(std::proofs::Common::append_assoc), unfolding(crate::specs::FamilyColumns::head_text))]
fn put_head(page: &mut Page, family: &Family)
    ensures { Writes page.old page.new (head_text family.now) }
{
    page.say("Family ");
    page.escaped(Style::Terminal, family.id.bytes());
    put_period(page, family.period);
}

#[tactic(auto, using(std::proofs::Common::append_assoc), unfolding(crate::specs::FamilyColumns::period_text))]
fn put_period(page: &mut Page, period: Period)
    ensures { Writes page.old page.new (period_text period) }
{
    page.say(", benefit period ");
    put_span(page, period);
    page.say("\n\n");
}

#[tactic(auto, using(std::proofs::Common::append_assoc), unfolding(crate::specs::FamilyColumns::span_text))]
pub(crate) fn put_span(page: &mut Page, span: Period)
    ensures { Writes page.old page.new (span_text span) }
{
    page.day(span.first());
    page.say(" to ");
    page.day(span.last());
}

#[tactic(auto, using(std::proofs::Common::append_assoc), unfolding(crate::specs::FamilyColumns::member_text))]
fn put_member(page: &mut Page, shown: &FamilyMember)
    ensures { Writes page.old page.new (member_text shown.now) }
{
    page.say("Deductible of ");
    page.escaped(Style::Terminal, shown.member.key.person.bytes());
    put_covered(page, shown);
}

#[tactic(auto, using(std::proofs::Common::append_assoc), unfolding(crate::specs::FamilyColumns::covered_text))]
fn put_covered(page: &mut Page, shown: &FamilyMember)
    ensures { Writes page.old page.new (covered_text shown.now) }
{
    page.say(", covered ");
    put_span(page, shown.member.coverage);
    put_named(page, ": ", &shown.deductible);
}

fn put_members(page: &mut Page, members: &[FamilyMember])
    ensures { Writes page.old page.new (flat_map member_text members.now) }
{
    for member in members {
        put_member(page, member);
    }
}

// A total after these words.
#[tactic(auto, using(std::proofs::Common::append_assoc), unfolding(crate::specs::FamilyColumns::named_total))]
fn put_named(page: &mut Page, words: &str, total: &Total)
    ensures { Writes page.old page.new (named_total words.now total.now) }
{
    page.say(words);
    put_total(page, total);
}

#[tactic(auto, using(std::proofs::Common::append_assoc), unfolding(crate::specs::FamilyColumns::totals_text))]
fn put_totals(page: &mut Page, family: &Family)
    ensures { Writes page.old page.new (totals_text family.now) }
{
    put_named(page, "Deductible of the family: ", &family.deductible);
    put_named(page, "Out of pocket of the family: ", &family.out_of_pocket);
}

#[tactic(auto, using(std::proofs::Common::append_assoc), unfolding(crate::specs::FamilyColumns::total_text))]
fn put_total(page: &mut Page, total: &Total)
    ensures { Writes page.old page.new (total_text total.now) }
{
    page.money(total.sum);
    put_left(page, total.left);
    put_reached(page, &total.reached);
    page.say("\n");
}

#[tactic(auto, using(std::proofs::Common::append_assoc))]
fn put_left(page: &mut Page, left: Option<u64>)
    ensures { Writes page.old page.new (left_text left) }
{
    let Some(cents) = left else {
        return;
    };
    page.say(", ");
    page.money(u128::from(cents));
    page.say(" left");
}

fn put_reached(page: &mut Page, reached: &Option<Row>)
    ensures { Writes page.old page.new (reached_text reached.now) }
{
    match reached {
        Some(row) => put_claim(page, row),
        None => {}
    }
}

#[tactic(auto, using(std::proofs::Common::append_assoc), unfolding(crate::specs::FamilyColumns::claim_text))]
fn put_claim(page: &mut Page, row: &Row)
    ensures { Writes page.old page.new (claim_text row.now) }
{
    page.say(", reached with ");
    put_fill(page, Style::Terminal, row);
}

/// Writes which claim it is: its prescription, day and pharmacy.
#[tactic(auto, using(std::proofs::Common::append_assoc), unfolding(crate::specs::FamilyColumns::fill_text))]
pub(crate) fn put_fill(page: &mut Page, style: Style, row: &Row)
    ensures { Writes page.old page.new (fill_text style row.now) }
{
    page.say("rx ");
    page.number(u128::from(row.key.reference.get()));
    page.say(" of ");
    page.day(row.key.date);
    page.say(" at ");
    page.escaped(style, row.key.provider.bytes());
}

// The claims, or that there is none.
fn put_lines(page: &mut Page, claims: &[Claim])
    ensures { Writes page.old page.new (lines_text claims.now) }
{
    if claims.is_empty() {
        page.say("\nNo claim stands.\n");
    } else {
        put_lines_head(page);
        put_each_line(page, claims);
    }
}

fn put_each_line(page: &mut Page, claims: &[Claim])
    ensures { Writes page.old page.new (flat_map line_text claims.now) }
{
    for claim in claims {
        put_line(page, claim);
    }
}

#[tactic(auto, unfolding(crate::specs::FamilyColumns::lines_head))]
fn put_lines_head(page: &mut Page)
    ensures { Writes page.old page.new lines_head }
{
    page.say(
        "\nDate        Person  Rx            Pharmacy         Product         Member pays      Deductible  Family deduct.   Out of pocket\n",
    );
}

#[tactic(auto, using(std::proofs::Common::append_assoc), unfolding(crate::specs::FamilyColumns::line_text))]
fn put_line(page: &mut Page, claim: &Claim)
    ensures { Writes page.old page.new (line_text claim.now) }
{
    put_place(page, &claim.row);
    put_sums(page, claim);
    put_mark(page, reached_names(claim));
    page.say("\n");
}

#[tactic(auto, using(std::proofs::Common::append_assoc), unfolding(crate::specs::FamilyColumns::place_text))]
fn put_place(page: &mut Page, row: &Row)
    ensures { Writes page.old page.new (place_text row.now) }
{
    page.day(row.key.date);
    page.say("  ");
    put_id(page, PERSON, row.person.bytes());
    put_number(page, PRESCRIPTION, row.key.reference.get());
    put_id(page, PROVIDER, row.key.provider.bytes());
    page.put(&row.product.digits());
}

#[tactic(auto, using(std::proofs::Common::append_assoc))]
fn put_id(page: &mut Page, width: usize, id: &[u8])
    ensures { Writes page.old page.new (left_in width (shown id.now)) }
{
    let mut text = Page::new(page.alloc());
    text.escaped(Style::Terminal, id);
    match text.into_bytes() {
        Ok(text) => put_left_in(page, width, &text),
        Err(Memory) => page.lacks = true,
    }
}

#[tactic(auto, using(std::proofs::Common::append_assoc))]
fn put_number(page: &mut Page, width: usize, number: u64)
    ensures { Writes page.old page.new (left_in width (decimal number)) }
{
    let mut text = Page::new(page.alloc());
    text.number(u128::from(number));
    match text.into_bytes() {
        Ok(text) => put_left_in(page, width, &text),
        Err(Memory) => page.lacks = true,
    }
}

#[tactic(auto, using(std::proofs::Common::append_assoc), unfolding(crate::specs::FamilyColumns::left_in))]
fn put_left_in(page: &mut Page, width: usize, text: &[u8])
    ensures { Writes page.old page.new (left_in width text.now) }
{
    page.put(text);
    page.blanks(width.saturating_sub(text.len()));
    page.say("  ");
}

#[tactic(auto, using(std::proofs::Common::append_assoc), unfolding(crate::specs::FamilyColumns::sums_text))]
fn put_sums(page: &mut Page, claim: &Claim)
    ensures { Writes page.old page.new (sums_text claim.now) }
{
    page.column(AMOUNT, u128::from(claim.row.pricing.patient_pay()));
    page.column(AMOUNT, claim.deductible.sum);
    page.column(AMOUNT, claim.family_deductible.sum);
    page.column(AMOUNT, claim.out_of_pocket.sum);
}

#[tactic(auto, using(std::proofs::Common::append_assoc))]
fn put_mark(page: &mut Page, names: &[u8])
    ensures { Writes page.old page.new (mark_text names.now) }
{
    if names.is_empty() {
        return;
    }
    page.say("  reaches ");
    page.put(names);
}
