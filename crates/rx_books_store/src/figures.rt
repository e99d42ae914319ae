ghost use Rattle.std.specs.Prelude.{◌≡◌, ◌<◌, ◌^◌, length, not, position};
ghost use Rattle.rx_fields.specs.Order.{id_cmp};
ghost use Rattle.rx_sorted.specs.Ascending.{IsAscending, contains_key};
ghost use Rattle.rx_books_text.specs.declared.line.Line.TheVariants as lines;
ghost use Rattle.rx_books_text.specs.Printed.{lines_of, member_lines, total_family};
ghost use Rattle.rx_books_store.specs.Figures.{are_sums, has_total, unsummed, wrong_line};
ghost use Rattle.rx_books_store.specs.LedgerBooks.{deductible_of_family, deductible_of_member, out_of_pocket_of_family};

use crate::open_books::OpenBooks;
use rx_books_text::{Printed, TotalLine};
use rx_fields::{Id, Person};
use rx_ledger::Member;
use rx_sorted::place_of;

impl OpenBooks {
    /// The deductible of a person so far, in cents; None where that is no listed member.
    pub(crate) fn deductible(&self, family: &Id, person: &Person) -> Option<u128>
        ensures { result ≡ deductible_of_member self.now.books family.now person.now }
    {
        let at = self.member_of(family, person)?;
        Some(self.deductible_at(at))
    }

    /// The out of pocket of a family so far, in cents; None where it has no member.
    pub(crate) fn out_of_pocket(&self, family: &Id) -> Option<u128>
        ensures { result ≡ out_of_pocket_of_family self.now.books family.now }
    {
        let at = self.family_of(family)?;
        Some(self.out_of_pocket_at(at))
    }

    /// The deductible of a family so far, in cents; None where it has no member.
    pub(crate) fn family_deductible(&self, family: &Id) -> Option<u128>
        ensures { result ≡ deductible_of_family self.now.books family.now }
    {
        let at = self.family_of(family)?;
        Some(self.family_deductible_at(at))
    }

    /// The number of the first line of which a figure isn't the sum, or of a missing total line.
    pub(crate) fn wrong_line(&self, printed: &Printed) -> Option<u64>
        requires own { self.now.books ≡ unsummed printed.now }
        requires one_each { length printed.now.deductibles ≡ length printed.now.ledger.members }
        requires few { length (lines_of printed.now) < 2 ^ 32 }
        ensures { result ≡ wrong_line printed.now }
    {
        let (members, rows) = (printed.ledger().members(), printed.ledger().rows());
        if let Some(at) = self.wrong_member(members, printed.deductibles()) {
            return Some(at as u64 + 2);
        }
        let above = (members.len() + rows.len() + 2) as u64;
        if let Some(at) = self.wrong_total(printed.totals()) {
            return Some(above + at as u64);
        }
        if self.all_have_totals(printed.totals()) {
            return None;
        }
        Some(above + printed.totals().len() as u64)
    }

    // The place of the first of these members whose figure isn't the sum.
    fn wrong_member(&self, members: &[Member], deductibles: &[u128]) -> Option<usize>
        requires { length deductibles.now ≡ length members.now }
        ensures { result ≡ position (λ l. not (are_sums self.now.books l)) (member_lines members.now deductibles.now) }
    {
        for (at, member) in members.iter().enumerate() {
            let sum = self.deductible(&member.key.family, &member.key.person);
            if sum != Some(deductibles[at]) {
                return Some(at);
            }
        }
        None
    }

    // The place of the first of these total lines of which a figure isn't the sum.
    fn wrong_total(&self, totals: &[TotalLine]) -> Option<usize>
        ensures { result ≡ position (λ t. not (are_sums self.now.books (lines.Total t))) totals.now }
    {
        totals.iter().position(|line| !self.has_sums(line))
    }

    // Whether a family's figures are the sums.
    fn has_sums(&self, line: &TotalLine) -> bool
        ensures { result ≡ are_sums self.now.books (lines.Total line.now) }
    {
        if self.out_of_pocket(&line.family) != Some(line.out_of_pocket) {
            return false;
        }
        match line.deductible {
            Some(printed) => self.family_deductible(&line.family) == Some(printed),
            None => true,
        }
    }
}

/// Whether a family has its total line.
pub(crate) fn has_total(totals: &[TotalLine], family: &Id) -> bool
    requires { IsAscending id_cmp total_family totals.now }
    ensures { result ≡ has_total totals.now family.now }
{
    place_of(totals, family).is_ok()
}
