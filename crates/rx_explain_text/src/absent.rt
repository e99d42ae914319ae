ghost use Rattle.std.specs.Prelude.{◌≡◌, ◌∷◌, ◌++◌, IfOk, OnOk};
ghost use Rattle.std.specs.List.{flat_map};
ghost use Rattle.rx_explain_text.specs.Absent.{absent_line, after_comma, has_text, places_left, named_text, near_text, near_words};
ghost use Rattle.rx_explain_text.specs.Absent.{absent_for, pharmacy_text, prescription_text, record_text, records_text, transaction_text};
ghost use Rattle.rx_print.specs.Page.{Writes};

use crate::header::{put_at, put_numbered};
use rx_explain::{At, Query};
use rx_fields::{Memory, Provider, Reference};
use rx_print::{Page, Style};
use std::alloc::Global;

/// How many places are listed after the first.
pub(crate) const MOST_OTHERS: usize = 19;

/// The line where no transaction is what was asked for: what that was, and what the batch has. `records` is how many records
/// that is; `near` are the transactions of the record, where one of them was asked for, and those of the prescription at any
/// pharmacy, where it was asked for at one.
#[tactic(auto, using(std::proofs::Common::append_assoc), unfolding(crate::specs::Absent::absent_line))]
pub fn absent_text(
    alloc: Global,
    query: &Query,
    records: usize,
    near: &[At],
) -> Result<Vec<u8>, Memory>
    ensures { IfOk result (λ text. text.items ≡ absent_line query.now records near.now) }
{
    let mut page = Page::new(alloc);
    page.say("rxbatch: ");
    put_named(&mut page, query);
    put_has(&mut page, query, records, near);
    page.say("\n");
    page.into_bytes()
}

/// The line where no transaction of a pharmacy, which may see only its own, is what was asked for.
#[tactic(auto, using(std::proofs::Common::append_assoc), unfolding(crate::specs::Absent::absent_for))]
pub fn absent_for_text(alloc: Global, query: &Query, provider: &Provider) -> Result<Vec<u8>, Memory>
    ensures { IfOk result (λ text. text.items ≡ absent_for query.now provider.now) }
{
    let mut page = Page::new(alloc);
    page.say("rxbatch: ");
    put_named(&mut page, query);
    page.say(" of pharmacy ");
    page.escaped(Style::Terminal, provider.bytes());
    page.say("\n");
    page.into_bytes()
}

// What was asked for.
fn put_named(page: &mut Page, query: &Query)
    ensures { Writes page.old page.new (named_text query.now) }
{
    match query {
        Query::Place(place) => put_record(page, *place),
        Query::One(at) => put_transaction(page, *at),
        Query::Number(number) => put_numbered(page, "no answer with number ", *number),
        Query::Reference(reference) => put_prescription(page, *reference),
        Query::ReferenceAt(reference, provider) => put_pharmacy(page, *reference, provider),
    }
}

#[tactic(auto, using(std::proofs::Common::append_assoc), unfolding(crate::specs::Absent::record_text))]
fn put_record(page: &mut Page, place: u64)
    ensures { Writes page.old page.new (record_text place) }
{
    if place == 0 {
        page.say("no such claim");
    } else {
        page.say("no record ");
        page.number(u128::from(place));
    }
}

#[tactic(auto, using(std::proofs::Common::append_assoc), unfolding(crate::specs::Absent::transaction_text))]
fn put_transaction(page: &mut Page, at: At)
    ensures { Writes page.old page.new (transaction_text at) }
{
    page.say("no transaction ");
    put_at(page, at);
}

#[tactic(auto, using(std::proofs::Common::append_assoc), unfolding(crate::specs::Absent::prescription_text))]
fn put_prescription(page: &mut Page, reference: Reference)
    ensures { Writes page.old page.new (prescription_text reference) }
{
    page.say("no rx ");
    page.number(u128::from(reference.get()));
}

#[tactic(auto, using(std::proofs::Common::append_assoc), unfolding(crate::specs::Absent::pharmacy_text))]
fn put_pharmacy(page: &mut Page, reference: Reference, provider: &Provider)
    ensures { Writes page.old page.new (pharmacy_text reference provider.now) }
{
    put_prescription(page, reference);
    page.say(" at ");
    page.escaped(Style::Terminal, provider.bytes());
}

// What the batch has.
fn put_has(page: &mut Page, query: &Query, records: usize, near: &[At])
    ensures { Writes page.old page.new (has_text query.now records near.now) }
{
    match near {
        [] => put_records(page, records),
        [first, others @ ..] => put_near(page, query, *first, others),
    }
}

#[tactic(auto, using(std::proofs::Common::append_assoc), unfolding(crate::specs::Absent::records_text))]
fn put_records(page: &mut Page, records: usize)
    ensures { Writes page.old page.new (records_text records) }
{
    if records == 0 {
        page.say("; the batch has no record");
    } else {
        page.say("; the batch has records 1 to ");
        page.number(records as u128);
    }
}

// The first places of those near, and how many more there are.
#[tactic(auto, using(std::proofs::Common::append_assoc), unfolding(crate::specs::Absent::near_text))]
fn put_near(page: &mut Page, query: &Query, first: At, others: &[At])
    ensures { Writes page.old page.new (near_text query.now first others.now) }
{
    page.say(near_words(query));
    put_at(page, first);
    put_others(page, &others[..others.len().min(MOST_OTHERS)]);
    put_more(page, others.len().saturating_sub(MOST_OTHERS));
}

fn near_words(query: &Query) -> &'static str
    ensures { result.now ≡ near_words query.now }
{
    match query {
        Query::One(_) => "; that record has ",
        _ => "; that prescription is in records ",
    }
}

fn put_others(page: &mut Page, others: &[At])
    ensures { Writes page.old page.new (flat_map after_comma others.now) }
{
    for at in others {
        put_other(page, *at);
    }
}

#[tactic(auto, using(std::proofs::Common::append_assoc), unfolding(crate::specs::Absent::places_left))]
fn put_more(page: &mut Page, more: usize)
    ensures { Writes page.old page.new (places_left more) }
{
    if more == 0 {
        return;
    }
    page.say(" and ");
    page.number(more as u128);
    page.say(" more");
}

#[tactic(auto, using(std::proofs::Common::append_assoc))]
fn put_other(page: &mut Page, at: At)
    ensures { Writes page.old page.new (after_comma at) }
{
    page.say(", ");
    put_at(page, at);
}
