ghost use Rattle.std.specs.Prelude.{◌≡◌, ◌++◌, ◌∷◌, ◌<◌, ◌^◌, ◌+◌, [], codes, IfOk, length};
ghost use Rattle.std.specs.Fmt.{decimal};
ghost use Rattle.std.specs.List.{join_with_byte};
ghost use Rattle.rx_fields.specs.Calendar.{date_text};
ghost use Rattle.rx_print.specs.CodeList.{code_list};
ghost use Rattle.rx_print.specs.Page.{Writes};
ghost use Rattle.rx_show.specs.Lines.{bill_words, body_lines, rejected_line, reversal_words};
ghost use Rattle.rx_show.specs.Lines.{shown_lines, transaction_line, transaction_lines, words_of};

use rx_d0_values::{BillParts, Body, Heard, Rejected, Reversal, Transaction, Transmission};
use rx_fields::{Memory, Reference, date_write};
use rx_print::Page;
use std::alloc::Global;

/// A line for each transaction, and one for each rejected header, of transmissions in file order (docs/CLI.md,
/// "show").
pub fn show_lines(alloc: Global, transmissions: &[Transmission]) -> Result<Vec<u8>, Memory>
    ensures { IfOk result (λ text. text.items ≡ shown_lines transmissions.now) }
{
    let mut page = Page::new(alloc);
    for (before, transmission) in transmissions.iter().enumerate() {
        put_body(&mut page, before + 1, &transmission.body);
    }
    page.into_bytes()
}

// The lines of the record at a place.
fn put_body(page: &mut Page, place: usize, body: &Body)
    ensures { Writes page.old page.new (body_lines place body.now) }
{
    match body {
        Body::Rejected(rejected) => put_rejected(page, place, rejected),
        Body::Heard(heard) => put_transactions(page, place, heard),
    }
}

fn put_transactions(page: &mut Page, place: usize, heard: &Heard)
    ensures { Writes page.old page.new (transaction_lines place heard.now 1 heard.now.list) }
{
    for (before, transaction) in heard.list.as_slice().iter().enumerate() {
        put_line(page, place, before + 1, heard, transaction);
    }
}

// The line of the nth transaction of the record at a place.
#[tactic(auto, using(std::proofs::Common::append_assoc))]
fn put_line(page: &mut Page, place: usize, nth: usize, heard: &Heard, transaction: &Transaction)
    ensures { Writes page.old page.new (transaction_line place heard.now nth transaction.now) }
{
    put_place(page, place, nth);
    page.put(b" ");
    put_transaction(page, heard, transaction);
    page.put(b"\n");
}

#[tactic(auto, using(std::proofs::Common::append_assoc))]
fn put_transaction(page: &mut Page, heard: &Heard, transaction: &Transaction)
    ensures { Writes page.old page.new (join_with_byte 32 (words_of heard.now transaction.now)) }
{
    match transaction {
        Transaction::Bill(bill) => put_bill(page, heard, bill.parts()),
        Transaction::Reverse(reversal) => put_reversal(page, heard, reversal),
        Transaction::Faulty(faulty) => {
            page.put(b"faulty ");
            page.codes(&faulty.codes)
        }
    }
}

#[tactic(auto, using(std::proofs::Common::append_assoc))]
fn put_bill(page: &mut Page, heard: &Heard, bill: &BillParts)
    ensures { Writes page.old page.new (join_with_byte 32 (bill_words heard.now bill.now)) }
{
    page.put(b"bill ");
    put_key(page, heard, bill.reference);
    put_word(page, bill.family.bytes());
    put_word(page, bill.person.bytes());
}

#[tactic(auto, using(std::proofs::Common::append_assoc))]
fn put_reversal(page: &mut Page, heard: &Heard, reversal: &Reversal)
    ensures { Writes page.old page.new (join_with_byte 32 (reversal_words heard.now reversal.now)) }
{
    page.put(b"reverse ");
    put_key(page, heard, reversal.reference);
}

// Provider, prescription reference number and date of service.
#[tactic(auto, using(std::proofs::Common::append_assoc))]
fn put_key(page: &mut Page, heard: &Heard, reference: Reference)
    ensures { Writes page.old page.new (join_with_byte 32
        (heard.now.provider ∷ decimal reference ∷ date_text heard.now.date ∷ [])) }
{
    page.put(heard.provider.bytes());
    page.put(b" ");
    page.number(u128::from(reference.get()));
    put_word(page, &date_write(heard.date));
}

/// Puts the line of the record at a place whose header is rejected.
#[tactic(auto, using(std::proofs::Common::append_assoc))]
pub(crate) fn put_rejected(page: &mut Page, place: usize, rejected: &Rejected)
    ensures { Writes page.old page.new (rejected_line place rejected.now) }
{
    put_place(page, place, 0);
    page.put(b" rejected ");
    page.codes(&rejected.codes);
    page.put(b"\n");
}

/// Puts a record's place in its file, a blank, and the place in the record.
#[tactic(auto, using(std::proofs::Common::append_assoc))]
pub(crate) fn put_place(page: &mut Page, place: usize, nth: usize)
    ensures { Writes page.old page.new (join_with_byte 32 (decimal place ∷ decimal nth ∷ [])) }
{
    page.number(place as u128);
    page.put(b" ");
    page.number(nth as u128);
}

// A word after a blank.
#[tactic(auto, using(std::proofs::Common::append_assoc))]
fn put_word(page: &mut Page, word: &[u8])
    ensures { Writes page.old page.new (32 ∷ word.now) }
{
    page.put(b" ");
    page.put(word);
}
