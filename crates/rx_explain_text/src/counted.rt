ghost use Rattle.std.specs.Prelude.{◌≡◌, ◌≤◌, ◌++◌, IfOk, OnOk, count_by, length, take};
ghost use Rattle.std.specs.List.{flat_map, fold, prefix_len};
ghost use Rattle.rx_explain_text.specs.Counted.{by_size, claims_text, counted_line, counted_lines, counted_of, counts_some};
ghost use Rattle.rx_explain_text.specs.Counted.{counts_as_much, entry_line, largest_text, less, more_line, more_text, put_in};
ghost use Rattle.rx_print.specs.Page.{Writes};

use crate::figures::{AMOUNT, LABEL};
use crate::reasons::put_traced;
use rx_d0_values::Bill;
use rx_explain::Traced;
use rx_print::Page;
use std::alloc::{AllocError, Global};

/// How many claims of a sum are listed where the largest are.
pub(crate) const MOST_LISTED: usize = 20;

/// Which of the claims of a sum are listed.
#[derive(Clone, Copy)]
pub enum Listing {
    /// The 20 that count most, the largest first, and how many more there are.
    Largest,
    /// All, in the order of their fill keys.
    All,
}

/// Which figure of a claim an accumulator adds up.
#[derive(Clone, Copy)]
pub(crate) enum Counts {
    MemberDeductible,
    FamilyDeductible,
    OutOfPocket,
}

/// The claims of a sum, and which of them are listed.
#[derive(Clone, Copy)]
pub(crate) struct Claims<'a> {
    /// The family's claims, ascending by fill key.
    pub counted: &'a [Traced],
    /// The billing that they are listed for.
    pub bill: &'a Bill,
    /// What each of them counts.
    pub counts: Counts,
    /// Which are listed.
    pub listing: Listing,
}

// A claim with what it counts, in cents.
#[derive(Clone, Copy, Drop)]
struct Counted {
    cents: u64,
    traced: Traced,
}

/// The claims of a sum, which come to `used` cents.
pub(crate) fn put_claims(page: &mut Page, used: u128, claims: &Claims<'_>)
    ensures { let b = claims.now in Writes page.old page.new (claims_text b.listing used b.counts b.bill.now b.counted.now) }
{
    let Claims {
        counted,
        bill,
        counts,
        listing,
    } = *claims;
    match listing {
        Listing::Largest => put_largest(page, used, counted, bill, counts),
        Listing::All => put_all(page, counted, bill, counts),
    }
}

// A line for each claim that counts, with what it counts.
fn put_all(page: &mut Page, counted: &[Traced], bill: &Bill, counts: Counts)
    ensures { Writes page.old page.new (counted_lines counts bill.now counted.now) }
{
    for traced in counted {
        put_claim(page, traced, counted_of(traced, bill, counts));
    }
}

// The claim with what it counts, in cents; nothing where it counts nothing.
#[tactic(auto, using(std::proofs::Common::append_assoc), unfolding(crate::specs::Counted::counted_line))]
fn put_claim(page: &mut Page, traced: &Traced, cents: u64)
    ensures { Writes page.old page.new (counted_line cents traced.now) }
{
    if cents == 0 {
        return;
    }
    page.blanks(4 + LABEL + AMOUNT);
    page.column(AMOUNT, u128::from(cents));
    page.say("  ");
    put_traced(page, traced);
    page.say("\n");
}

// What the claim counts, in cents.
#[tactic(auto, using(rx_ledger::proofs::SameText::same_text))]
fn counted_of(traced: &Traced, bill: &Bill, counts: Counts) -> u64
    ensures { result ≡ counted_of counts bill.now traced.now }
{
    let row = &traced.row;
    match counts {
        Counts::MemberDeductible if row.person != bill.parts().person => 0,
        Counts::MemberDeductible | Counts::FamilyDeductible => row.pricing.amounts().deductible,
        Counts::OutOfPocket => row.pricing.patient_pay(),
    }
}

// The claims that count most, and how many more count something.
#[tactic(auto, using(std::proofs::Common::append_assoc), unfolding(crate::specs::Counted::largest_text))]
fn put_largest(page: &mut Page, used: u128, counted: &[Traced], bill: &Bill, counts: Counts)
    ensures { Writes page.old page.new (largest_text used counts bill.now counted.now) }
{
    let more = count(counted, bill, counts).saturating_sub(MOST_LISTED);
    match largest(page.alloc(), counted, bill, counts) {
        Ok(listed) => {
            put_entries(page, &listed);
            put_more(page, more, rest_of(used, &listed));
        }
        Err(_) => page.lacks = true,
    }
}

// The claims that count most, the largest first.
fn largest(
    alloc: Global,
    counted: &[Traced],
    bill: &Bill,
    counts: Counts,
) -> Result<Vec<Counted>, AllocError>
    ensures { IfOk result (λ listed. listed.items ≡ take MOST_LISTED (by_size counts bill.now counted.now)) }
{
    let mut listed = Vec::new(alloc);
    for traced in counted {
        let cents = counted_of(traced, bill, counts);
        if cents > 0 {
            let entry = Counted {
                cents,
                traced: *traced,
            };
            put_in(&mut listed, entry)?;
        }
    }
    Ok(listed)
}

// Puts a claim after those that count as much or more, and keeps as many as are listed.
#[tactic(auto, using(crate::proofs::Largest::put_at))]
fn put_in(listed: &mut Vec<Counted>, entry: Counted) -> Result<(), AllocError>
    ensures { OnOk result (listed.new.items ≡ take MOST_LISTED (put_in listed.old.items entry)) }
{
    let place = place_in(listed, entry.cents);
    listed.insert(place, entry)?;
    listed.truncate(MOST_LISTED);
    Ok(())
}

// How many of the first claims count as much, or more.
fn place_in(listed: &[Counted], cents: u64) -> usize
    ensures value { result ≡ prefix_len (counts_as_much cents) listed.now }
    ensures within { result ≤ length listed.now }
{
    let mut place = 0;
    while place < listed.len() && listed[place].cents >= cents {
        place += 1;
    }
    place
}

// How many of the claims count something.
fn count(counted: &[Traced], bill: &Bill, counts: Counts) -> usize
    ensures { result ≡ count_by (counts_some counts bill.now) counted.now }
{
    counted
        .iter()
        .filter(|traced| counted_of(traced, bill, counts) > 0)
        .count()
}

// What is left of an amount without these claims.
fn rest_of(used: u128, listed: &[Counted]) -> u128
    ensures { result ≡ fold less used listed.now }
{
    let mut rest = used;
    for entry in listed {
        rest = rest.saturating_sub(u128::from(entry.cents));
    }
    rest
}

fn put_entries(page: &mut Page, listed: &[Counted])
    ensures { Writes page.old page.new (flat_map entry_line listed.now) }
{
    for entry in listed {
        put_claim(page, &entry.traced, entry.cents);
    }
}

// How many claims aren't listed, and what they count, if there are some.
fn put_more(page: &mut Page, more: usize, cents: u128)
    ensures { Writes page.old page.new (more_text more cents) }
{
    if more == 0 {
        return;
    }
    put_more_line(page, more as u64, cents);
}

#[tactic(auto, using(std::proofs::Common::append_assoc), unfolding(crate::specs::Counted::more_line))]
fn put_more_line(page: &mut Page, more: u64, cents: u128)
    ensures { Writes page.old page.new (more_line more cents) }
{
    page.blanks(6 + LABEL + AMOUNT + AMOUNT);
    page.say("and ");
    page.grouped(more);
    page.say(" more, ");
    page.money(cents);
    page.say("\n");
}
