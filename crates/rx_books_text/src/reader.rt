ghost use Rattle.std.specs.Prelude.{◌≡◌, IfOk, IfErr, Ok};
ghost use Rattle.std.specs.List.{list_any};
ghost use Rattle.rx_sorted.specs.Ascending.{IsAscending, is_past};
ghost use Rattle.rx_ledger.specs.Members.{member_cmp, member_key, of_family};
ghost use Rattle.rx_books_text.specs.Fault.{Gives, Takes, UnlessMemory, refused};
ghost use Rattle.rx_books_text.specs.Printed.{IsPrinted, PrintedParts, line_feeds, printed_text};
ghost use Rattle.rx_books_text.specs.TextFault.{HasFault, is_next};
ghost use Rattle.rx_books_text.specs.TextReading.{line_added, line_read, lines, lines_read, printed_of};
ghost use Rattle.rx_books_text.specs.declared.line.Line.TheVariants as kinds;

use crate::fault::BooksFault;
use crate::head::read_head;
use crate::line::{Line, MemberLine, TotalLine, read_line};
use crate::printed::Printed;
use memchr::memchr;
use rx_fields::{Id, MOST_LINES};
use rx_ledger::{AddError, Member, Row};
use rx_sorted::Keyed;
use std::alloc::Global;

const LINE_FEED: u8 = b'\n';

/// What a books file prints, or its first fault (docs/FORMATS.md, "Books file"). No figure is compared with a sum, so
/// Totals is never answered.
pub fn read_printed(alloc: Global, text: &[u8]) -> Result<Printed, BooksFault>
    ensures ok { IfOk result (λ p. (text.now ≡ printed_text p) × IsPrinted p) }
    // What can be printed is read again, unless memory ran out.
    ensures reads { (p : PrintedParts) → IsPrinted p → text.now ≡ printed_text p → Gives result (Ok p) }
    // A fault is that of what follows the longest front of good lines.
    ensures refuses { IfErr result (λ f. UnlessMemory f (HasFault text.now f)) }
    // The same, computed.
    ensures value { Gives result (printed_of text.now) }
{
    read_text(alloc, text)
}

fn read_text(alloc: Global, text: &[u8]) -> Result<Printed, BooksFault>
    ensures { Gives result (printed_of text.now) }
{
    if line_feeds(text) > MOST_LINES {
        return Err(BooksFault::TooMuch);
    }
    let Some(end) = memchr(LINE_FEED, text) else {
        return Err(BooksFault::Head);
    };
    let Some(head) = read_head(&text[..end]) else {
        return Err(BooksFault::Head);
    };
    let mut printed = Printed::new(alloc, head);
    printed.read_lines(&text[end + 1..])?;
    Ok(printed)
}

// How many line feeds there are.
fn line_feeds(text: &[u8]) -> usize
    ensures { result ≡ line_feeds text.now }
{
    text.iter().filter(|b| **b == LINE_FEED).count()
}

impl Printed {
    // Takes the lines after the head line.
    fn read_lines(&mut self, text: &[u8]) -> Result<(), BooksFault>
        ensures { Takes result self.new (lines_read 2 self.old (lines text.now)) }
    {
        let mut rest = text;
        let mut number = 2;
        while let Some(end) = memchr(LINE_FEED, rest) {
            self.read_line(number, &rest[..end])?;
            rest = &rest[end + 1..];
            number += 1;
        }
        if rest.is_empty() {
            Ok(())
        } else {
            Err(BooksFault::Line(number))
        }
    }

    // Takes the line of this number.
    #[tactic(auto, unfolding(crate::specs::TextReading::line_read))]
    fn read_line(&mut self, number: u64, text: &[u8]) -> Result<(), BooksFault>
        ensures { Takes result self.new (line_read number self.old text.now) }
    {
        match read_line(self.head.version, text) {
            Some(Line::Member(line)) => self.add_member(number, line),
            Some(Line::Claim(row)) => self.add_claim(number, row),
            Some(Line::Total(line)) => self.add_total(number, line),
            None => Err(BooksFault::Line(number)),
        }
    }

    // Whether a member line may follow.
    fn member_is_next(&self, line: &MemberLine) -> bool
        ensures { result ≡ is_next self.now (kinds.Member line.now) }
    {
        self.ledger.rows().is_empty()
            && self.totals.is_empty()
            && is_past(self.ledger.members(), &line.member.key)
    }

    fn add_member(&mut self, number: u64, line: MemberLine) -> Result<(), BooksFault>
        ensures { Takes result self.new (line_added number self.old (kinds.Member line)) }
    {
        if !self.member_is_next(&line) {
            return Err(BooksFault::Order(number));
        }
        if let Err(error) = self.ledger.add_member(line.member) {
            return Err(refused(number, error));
        }
        Ok(self.deductibles.push(line.deductible)?)
    }

    // Whether a claim line may follow.
    fn claim_is_next(&self, row: &Row) -> bool
        ensures { result ≡ is_next self.now (kinds.Claim row.now) }
    {
        self.totals.is_empty() && is_past(self.ledger.rows(), &row.key)
    }

    fn add_claim(&mut self, number: u64, row: Row) -> Result<(), BooksFault>
        ensures { Takes result self.new (line_added number self.old (kinds.Claim row)) }
    {
        if !self.claim_is_next(&row) {
            return Err(BooksFault::Order(number));
        }
        if let Err(error) = self.ledger.add_row(row) {
            return Err(refused(number, error));
        }
        Ok(())
    }

    fn add_total(&mut self, number: u64, line: TotalLine) -> Result<(), BooksFault>
        ensures { Takes result self.new (line_added number self.old (kinds.Total line)) }
    {
        if !self.totals.is_past(&line.family) {
            return Err(BooksFault::Order(number));
        }
        if !has_member(self.ledger.members(), &line.family) {
            return Err(BooksFault::UnknownMember(number));
        }
        Ok(self.totals.push(line)?)
    }
}

// The fault of a line that the ledger refused.
fn refused(number: u64, error: AddError) -> BooksFault
    ensures { result ≡ refused number error }
{
    match error {
        AddError::There => BooksFault::Order(number),
        AddError::Unknown => BooksFault::UnknownMember(number),
        AddError::Memory => BooksFault::Memory,
    }
}

// Whether each item's key is less than this one, of which only the last item decides.
fn is_past<T: Keyed>(items: &[T], key: &T::Key) -> bool
    requires { IsAscending T.Key.cmp T.key_of items.now }
    ensures { result ≡ is_past T.Key.cmp T.key_of items.now key.now }
{
    match items.last() {
        Some(last) => last.key().cmp(key).is_lt(),
        None => true,
    }
}

// Whether one of these members is of the family.
fn has_member(members: &[Member], family: &Id) -> bool
    requires { IsAscending member_cmp member_key members.now }
    ensures { result ≡ list_any (of_family family.now) members.now }
{
    let at = members.partition_point(|member| member.key.family < *family);
    match members.get(at) {
        Some(member) => member.key.family == *family,
        None => false,
    }
}
