ghost use Rattle.std.specs.Prelude.{◌≡◌, ◌==◌, ◌++◌, ◌≤◌, IfOk, count_by, find, length, option_copied, string_bytes, sum_by};
ghost use Rattle.rx_books_text.specs.Printed.{total_family};
ghost use Rattle.std.specs.List.{list_any};
ghost use Rattle.rx_fields.specs.Numbered.{is_within};
ghost use Rattle.rx_fields.specs.Order.{id_cmp};
ghost use Rattle.rx_fields.specs.declared.limits.TheConstants.{MOST_CENTS};
ghost use Rattle.rx_ledger.specs.Members.{is_same, member_cmp, member_key};
ghost use Rattle.rx_ledger.specs.Sums.{counted, deductible, deductible_paid, family_deductible, out_of_pocket, paid_by_patient};
ghost use Rattle.rx_ledger.specs.Sums.{persons_deductible_paid};
ghost use Rattle.rx_diagnostics.specs.BooksTotals.{days_text, deductible_field, deductible_of, deductible_text, expected_text, family_said};
ghost use Rattle.rx_diagnostics.specs.BooksTotals.{figure_said, figure_text, from_family, has_none_within, head_doubt, is_before};
ghost use Rattle.rx_diagnostics.specs.BooksTotals.{is_first, lacking_said, lacking_text, lacks_total, line_of_total, member_said, member_text, of_family};
ghost use Rattle.rx_diagnostics.specs.BooksTotals.{paid_text, sum_text, total_line, total_text, totals_text};
ghost use Rattle.rx_sorted.specs.Ascending.{IsAscending};

use crate::quoting::{said, shown};
use rx_books_text::{BooksFault, Printed, TotalLine, Version, read_printed};
use rx_fields::{Id, Memory, Period, Person, date_write};
use rx_ledger::{Counted, Member, Row, counted_in};
use std::alloc::{AllocError, Global};

/// What is said of a figure that isn't the sum over the claims, or of a total line that is lacking.
#[tactic(auto, unfolding(crate::specs::BooksTotals::totals_text))]
pub(crate) fn totals_words(alloc: Global, text: &[u8], number: u64) -> Result<String, Memory>
    ensures { IfOk result (λ said. string_bytes said ≡ totals_text text.now number) }
{
    match read_printed(alloc, text) {
        Ok(printed) => printed_words(alloc, &printed, number),
        Err(BooksFault::Memory) => Err(Memory),
        Err(_) => Ok(said(alloc, "a figure isn't the sum over the claims")?),
    }
}

// What is said of the line of this number and of the head line, where the file is read.
fn printed_words(alloc: Global, printed: &Printed, number: u64) -> Result<String, Memory>
    ensures { IfOk result (λ said. string_bytes said ≡ figure_text printed.now number ++ head_doubt printed.now) }
{
    let mut said = figure_words(alloc, printed, number)?;
    said.push_str(head_doubt(printed))?;
    Ok(said)
}

// What is said of the head line of a file without a claim within its period.
#[tactic(auto, unfolding(crate::specs::BooksTotals::head_doubt))]
fn head_doubt(printed: &Printed) -> &'static str
    ensures { result.now ≡ head_doubt printed.now }
{
    if has_none_within(printed.head().period, printed.ledger().rows()) {
        "; no claim is within the days of line 1: are they right?"
    } else {
        ""
    }
}

// Whether there are claims, and none is within the period.
fn has_none_within(period: Period, rows: &[Row]) -> bool
    ensures { result ≡ has_none_within period rows.now }
{
    !rows.is_empty() && !has_within(period, rows)
}

fn has_within(period: Period, rows: &[Row]) -> bool
    ensures { result ≡ list_any (λ r. is_within period r.key.date) rows.now }
{
    rows.iter().any(|row| period.contains(row.key.date))
}

// What is said of the line of this number.
#[tactic(auto, unfolding(crate::specs::BooksTotals::figure_text))]
fn figure_words(alloc: Global, printed: &Printed, number: u64) -> Result<String, AllocError>
    ensures { IfOk result (λ said. string_bytes said ≡ figure_text printed.now number) }
{
    let place = number.saturating_sub(2) as usize;
    let members = printed.ledger().members();
    let rows = printed.ledger().rows();
    if let (Some(member), Some(figure)) = (members.get(place), printed.deductibles().get(place)) {
        return member_words(alloc, printed, member, *figure);
    }
    let after_rows = place
        .saturating_sub(members.len())
        .saturating_sub(rows.len());
    match printed.totals().get(after_rows) {
        Some(line) => total_words(alloc, printed, line),
        None => lacking_words(alloc, printed, first_lacking(members, printed.totals())),
    }
}

// What the claims of a period come to: those of a family.
fn sums_of(period: Period, rows: &[Row], family: &Id) -> Counted
    ensures out_of_pocket { result.out_of_pocket ≡ sum_by (of_family family.now (counted period paid_by_patient)) rows.now }
    ensures deductible { result.deductible ≡ sum_by (of_family family.now (counted period deductible_paid)) rows.now }
{
    let mut sums = Counted {
        deductible: 0,
        out_of_pocket: 0,
    };
    for row in rows {
        let counted = counted_of(period, row, family);
        sums.deductible += counted.deductible;
        sums.out_of_pocket += counted.out_of_pocket;
    }
    sums
}

// What a claim counts in a period where it is of the family.
fn counted_of(period: Period, row: &Row, family: &Id) -> Counted
    ensures out_of_pocket { result.out_of_pocket ≡ of_family family.now (counted period paid_by_patient) row.now }
    ensures deductible { result.deductible ≡ of_family family.now (counted period deductible_paid) row.now }
    ensures small { result.out_of_pocket ≤ MOST_CENTS }
    ensures less { result.deductible ≤ MOST_CENTS }
{
    if is_same(&row.family, family) {
        counted_in(period, row)
    } else {
        Counted {
            deductible: 0,
            out_of_pocket: 0,
        }
    }
}

// The sums over the claims of a family of a printed file.
fn family_sums(printed: &Printed, family: &Id) -> Counted
    ensures out_of_pocket { result.out_of_pocket ≡ out_of_pocket printed.now.head.period printed.now.ledger family.now }
    ensures deductible { result.deductible ≡ family_deductible printed.now.head.period printed.now.ledger family.now }
{
    sums_of(printed.head().period, printed.ledger().rows(), family)
}

// The deductible over the claims of a member of a printed file.
fn member_sum(printed: &Printed, family: &Id, person: &Person) -> u128
    ensures { result ≡ deductible printed.now.head.period printed.now.ledger family.now person.now }
{
    sum_of(
        printed.head().period,
        printed.ledger().rows(),
        family,
        person,
    )
}

fn sum_of(period: Period, rows: &[Row], family: &Id, person: &Person) -> u128
    ensures { result ≡ sum_by (of_family family.now (counted period (persons_deductible_paid person.now))) rows.now }
{
    let mut sum = 0;
    for row in rows {
        sum += persons_part(period, row, family, person);
    }
    sum
}

// What a claim counts toward the deductible of a member.
#[tactic(auto, using(crate::proofs::Totals::counts_nothing))]
fn persons_part(period: Period, row: &Row, family: &Id, person: &Person) -> u128
    ensures value { result ≡ of_family family.now (counted period (persons_deductible_paid person.now)) row.now }
    ensures small { result ≤ MOST_CENTS }
{
    if is_person(&row.person, person) {
        counted_of(period, row, family).deductible
    } else {
        0
    }
}

#[tactic(auto, using(rx_ledger::proofs::SameText::same_text))]
fn is_same(a: &Id, b: &Id) -> bool
    ensures { result ≡ is_same a.now b.now }
{
    a == b
}

#[tactic(auto, using(rx_ledger::proofs::SameText::same_text))]
fn is_person(a: &Person, b: &Person) -> bool
    ensures { result ≡ is_same a.now b.now }
{
    a == b
}

// The days of a period.
#[tactic(auto, using(std::proofs::Common::append_assoc), unfolding(crate::specs::BooksTotals::days_text))]
fn days(alloc: Global, period: Period) -> Result<String, AllocError>
    ensures { IfOk result (λ days. string_bytes days ≡ days_text period) }
{
    let first = shown(alloc, &date_write(period.first()))?;
    let last = shown(alloc, &date_write(period.last()))?;
    format!(in alloc; "{first} to {last}")
}

// A figure, and what the claims of a period sum to.
#[tactic(auto, unfolding(crate::specs::BooksTotals::sum_text))]
fn sum_words(alloc: Global, figure: u128, period: Period, sum: u128) -> Result<String, AllocError>
    ensures { IfOk result (λ said. string_bytes said ≡ sum_text figure period sum) }
{
    let days = days(alloc, period)?;
    figure_said(alloc, figure, &days, sum)
}

#[tactic(auto, using(std::proofs::Common::append_assoc), unfolding(crate::specs::BooksTotals::figure_said))]
fn figure_said(alloc: Global, figure: u128, days: &str, sum: u128) -> Result<String, AllocError>
    ensures { IfOk result (λ said. string_bytes said ≡ figure_said figure days.now sum) }
{
    format!(in alloc; "{figure}: the claims of {days} sum to {sum}")
}

fn period_of(printed: &Printed) -> Period
    ensures { result ≡ printed.now.head.period }
{
    printed.head().period
}

// ---- a figure of a line

#[tactic(auto, unfolding(crate::specs::BooksTotals::member_text))]
fn member_words(
    alloc: Global,
    printed: &Printed,
    member: &Member,
    figure: u128,
) -> Result<String, AllocError>
    ensures { IfOk result (λ said. string_bytes said ≡ member_text printed.now member.now figure) }
{
    let sum = member_sum(printed, &member.key.family, &member.key.person);
    let said = sum_words(alloc, figure, period_of(printed), sum)?;
    member_said(alloc, &member.key.family, &member.key.person, &said)
}

#[tactic(auto, using(std::proofs::Common::append_assoc), unfolding(crate::specs::BooksTotals::member_said))]
fn member_said(alloc: Global, family: &Id, person: &Person, sum: &str) -> Result<String, AllocError>
    ensures { IfOk result (λ said. string_bytes said ≡ member_said family.now person.now sum.now) }
{
    let family = shown(alloc, family.bytes())?;
    let person = shown(alloc, person.bytes())?;
    format!(in alloc; "member {family}/{person}, deductible {sum}")
}

#[tactic(auto, unfolding(crate::specs::BooksTotals::total_text))]
fn total_words(alloc: Global, printed: &Printed, line: &TotalLine) -> Result<String, AllocError>
    ensures { IfOk result (λ said. string_bytes said ≡ total_text printed.now line.now) }
{
    let sums = family_sums(printed, &line.family);
    let period = period_of(printed);
    if is_sum(sums.out_of_pocket, line.out_of_pocket) {
        deductible_words(alloc, line, period, sums.deductible)
    } else {
        paid_words(
            alloc,
            &line.family,
            line.out_of_pocket,
            period,
            sums.out_of_pocket,
        )
    }
}

fn is_sum(sum: u128, figure: u128) -> bool
    ensures { result ≡ (sum == figure) }
{
    sum == figure
}

#[tactic(auto, unfolding(crate::specs::BooksTotals::paid_text))]
fn paid_words(
    alloc: Global,
    family: &Id,
    paid: u128,
    period: Period,
    sum: u128,
) -> Result<String, AllocError>
    ensures { IfOk result (λ said. string_bytes said ≡ paid_text family.now paid period sum) }
{
    let said = sum_words(alloc, paid, period, sum)?;
    family_said(alloc, family, "out of pocket", &said)
}

#[tactic(auto, unfolding(crate::specs::BooksTotals::deductible_text))]
fn deductible_words(
    alloc: Global,
    line: &TotalLine,
    period: Period,
    sum: u128,
) -> Result<String, AllocError>
    ensures { IfOk result (λ said. string_bytes said ≡ deductible_text line.now period sum) }
{
    let said = sum_words(alloc, deductible_of(line), period, sum)?;
    family_said(alloc, &line.family, "deductible", said.as_str())
}

// The deductible that a total line prints; 0 where its version has none.
#[tactic(auto, unfolding(crate::specs::BooksTotals::deductible_of))]
fn deductible_of(line: &TotalLine) -> u128
    ensures { result ≡ deductible_of line.now }
{
    match line.deductible {
        Some(cents) => cents,
        None => 0,
    }
}

// What is said of a figure of a family.
#[tactic(auto, using(std::proofs::Common::append_assoc), unfolding(crate::specs::BooksTotals::family_said))]
fn family_said(alloc: Global, family: &Id, name: &str, sum: &str) -> Result<String, AllocError>
    ensures { IfOk result (λ said. string_bytes said ≡ family_said family.now name.now sum.now) }
{
    let family = shown(alloc, family.bytes())?;
    format!(in alloc; "family {family}, {name} {sum}")
}

// ---- a family without its total line

// The first member whose family has no total line. Members and totals ascend by family, so both are gone along once.
fn first_lacking<'m>(members: &'m [Member], totals: &[TotalLine]) -> Option<&'m Member>
    requires members { IsAscending member_cmp member_key members.now }
    requires totals { IsAscending id_cmp total_family totals.now }
    ensures { option_copied result ≡ find (lacks_total totals.now) members.now }
{
    let mut left = totals;
    for member in members {
        left = from_family(left, &member.key.family);
        if !is_first(left, &member.key.family) {
            return Some(member);
        }
    }
    None
}

// The total lines from the first on that isn't of a family before this one.
fn from_family<'t>(totals: &'t [TotalLine], family: &Id) -> &'t [TotalLine]
    ensures { result.now ≡ from_family family.now totals.now }
{
    let mut left = totals;
    while let [line, rest @ ..] = left {
        if !is_before(line, family) {
            return left;
        }
        left = rest;
    }
    left
}

fn is_first(totals: &[TotalLine], family: &Id) -> bool
    ensures { result ≡ is_first family.now totals.now }
{
    match totals {
        [line, ..] => is_same(&line.family, family),
        [] => false,
    }
}

// Whether a total line is of a family before this one.
fn is_before(line: &TotalLine, family: &Id) -> bool
    ensures { result ≡ is_before family.now line.now }
{
    line.family.cmp(family).is_lt()
}

// What is said where the family of this member has no total line.
fn lacking_words(
    alloc: Global,
    printed: &Printed,
    lacking: Option<&Member>,
) -> Result<String, AllocError>
    ensures { IfOk result (λ said. string_bytes said ≡ lacking_text printed.now (option_copied lacking.entry)) }
{
    match lacking {
        Some(member) => expected_words(alloc, printed, &member.key.family),
        None => said(alloc, "a family has no total line"),
    }
}

// The total line that a family lacks, and at which line.
#[tactic(auto, unfolding(crate::specs::BooksTotals::expected_text))]
fn expected_words(alloc: Global, printed: &Printed, family: &Id) -> Result<String, AllocError>
    ensures { IfOk result (λ said. string_bytes said ≡ expected_text printed.now family.now) }
{
    let sums = family_sums(printed, family);
    let more = deductible_field(alloc, version_of(printed), sums.deductible)?;
    let line = total_line(alloc, family, sums.out_of_pocket, &more)?;
    lacking_said(alloc, family, &line, line_of_total(printed, family))
}

fn version_of(printed: &Printed) -> Version
    ensures { result ≡ printed.now.head.version }
{
    printed.head().version
}

#[tactic(auto, using(std::proofs::Common::append_assoc), unfolding(crate::specs::BooksTotals::total_line))]
fn total_line(alloc: Global, family: &Id, paid: u128, more: &str) -> Result<String, AllocError>
    ensures { IfOk result (λ line. string_bytes line ≡ total_line family.now paid more.now) }
{
    let family = shown(alloc, family.bytes())?;
    format!(in alloc; "T|{family}|{paid}{more}")
}

#[tactic(auto, using(std::proofs::Common::append_assoc), unfolding(crate::specs::BooksTotals::lacking_said))]
fn lacking_said(alloc: Global, family: &Id, line: &str, at: u128) -> Result<String, AllocError>
    ensures { IfOk result (λ said. string_bytes said ≡ lacking_said family.now line.now at) }
{
    let family = shown(alloc, family.bytes())?;
    format!(in alloc; "family {family} has no total line: expected {line} at line {at}")
}

// The number of the line at which a family's total line belongs.
#[tactic(auto, unfolding(crate::specs::BooksTotals::line_of_total))]
fn line_of_total(printed: &Printed, family: &Id) -> u128
    ensures { result ≡ line_of_total printed.now family.now }
{
    let ledger = printed.ledger();
    let before = totals_before(printed.totals(), family);
    ledger.members().len() as u128 + ledger.rows().len() as u128 + before as u128 + 2
}

// How many total lines are of families before this one.
fn totals_before(totals: &[TotalLine], family: &Id) -> usize
    ensures { result ≡ count_by (is_before family.now) totals.now }
{
    totals.iter().filter(|line| is_before(line, family)).count()
}

// The deductible of a total line, where its version has one.
#[tactic(auto, unfolding(crate::specs::BooksTotals::deductible_field))]
fn deductible_field(alloc: Global, version: Version, cents: u128) -> Result<String, AllocError>
    ensures { IfOk result (λ text. string_bytes text ≡ deductible_field version cents) }
{
    match version {
        Version::Three => format!(in alloc; "|{cents}"),
        Version::One | Version::Two => Ok(String::new(alloc)),
    }
}
