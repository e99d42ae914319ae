ghost use Rattle.std.specs.Prelude.{◌≡◌, ◌++◌, IfOk, OnOk, map};
ghost use Rattle.std.specs.List.{filter};
ghost use Rattle.std.specs.List.Sorted.{IsPermutation, IsSortedByKey};
ghost use Rattle.rx_ledger.specs.Members.{is_same};
ghost use Rattle.rx_sorted.specs.Orders.{text_cmp};
ghost use Rattle.rx_explain.specs.Seen.{AreSeen, AreSeenOf, IsSeen, another, is_of, is_own, is_person, masked};
ghost use Rattle.rx_explain.specs.Seen.{person_if, seen_claim, seen_standing, visible};

use crate::explanation::Explanation;
use crate::traced::{Source, Traced};
use crate::visible::numbers_of;
use rx_d0_values::{Bill, BillParts, Transaction};
use rx_fields::{Key, Memory, Person, Provider};
use rx_ledger::Row;
use std::alloc::{AllocError, Global};

impl Explanation {
    /// What the pharmacy whose transaction it is may see of it: its own claims whole, of other pharmacies' claims only dates
    /// and amounts. Their names, products and prescriptions give way to those of the transaction, and they stand after the own
    /// claims, in the order of what is visible of them.
    pub fn seen(&self, alloc: Global) -> Result<Explanation, Memory>
        ensures { IfOk result (IsSeen self.now) }
    {
        Ok(Explanation {
            at: self.at,
            provider: self.provider,
            date: self.date,
            number: self.number,
            transaction: self.transaction,
            decision: self.decision,
            answer: self.answer,
            standing: seen_standing(self),
            open_from: self.open_from,
            workings: self.workings,
            counted: seen_claims(alloc, self)?,
        })
    }
}

// The claim that decided.
fn seen_standing(explanation: &Explanation) -> Option<Traced>
    ensures { let x = explanation.now in result ≡ seen_standing x x.transaction x.standing }
{
    match (&explanation.transaction, &explanation.standing) {
        (Transaction::Bill(bill), Some(traced)) => Some(seen_claim(explanation, bill, traced)),
        _ => explanation.standing,
    }
}

fn seen_claim(explanation: &Explanation, bill: &Bill, traced: &Traced) -> Traced
    ensures { result ≡ seen_claim explanation.now bill.now traced.now }
{
    if is_own(&explanation.provider, traced) {
        *traced
    } else {
        masked(explanation, bill, traced)
    }
}

// The claims that are counted.
fn seen_claims(alloc: Global, explanation: &Explanation) -> Result<Vec<Traced>, Memory>
    ensures { let x = explanation.now in IfOk result (λ shown. AreSeen x x.transaction x.counted.items shown.items) }
{
    match &explanation.transaction {
        Transaction::Bill(bill) => own_and_others(alloc, explanation, bill),
        _ => Ok(Vec::new(alloc)),
    }
}

// The own claims, and after them the others, masked.
fn own_and_others(
    alloc: Global,
    explanation: &Explanation,
    bill: &Bill,
) -> Result<Vec<Traced>, Memory>
    ensures { let x = explanation.now in IfOk result (λ shown. AreSeenOf x bill.now x.counted.items shown.items) }
{
    let (counted, provider) = (&explanation.counted, &explanation.provider);
    let others = claims_of(alloc, counted, provider, false)?;
    let sorted = in_order(others, bill)?;
    let mut shown = claims_of(alloc, counted, provider, true)?;
    put_masked(&mut shown, explanation, bill, &sorted)?;
    Ok(shown)
}

// The claims of the pharmacy, or those of others.
fn claims_of(
    alloc: Global,
    claims: &[Traced],
    provider: &Provider,
    own: bool,
) -> Result<Vec<Traced>, Memory>
    ensures { IfOk result (λ kept. kept.items ≡ filter (is_of own provider.now) claims.now) }
{
    let mut kept = Vec::new(alloc);
    for traced in claims {
        if is_of(own, provider, traced) {
            kept.push(*traced)?;
        }
    }
    Ok(kept)
}

fn is_of(own: bool, provider: &Provider, traced: &Traced) -> bool
    ensures { result ≡ is_of own provider.now traced.now }
{
    if own {
        is_own(provider, traced)
    } else {
        !is_own(provider, traced)
    }
}

#[tactic(auto, using(rx_ledger::proofs::SameText::same_text))]
fn is_own(provider: &Provider, traced: &Traced) -> bool
    ensures { result ≡ is_own provider.now traced.now }
{
    traced.row.key.provider == *provider
}

// Claims in the order of what is visible of them.
fn in_order(claims: Vec<Traced>, bill: &Bill) -> Result<Vec<Traced>, Memory>
    ensures moved { IfOk result (λ sorted. IsPermutation claims.items sorted.items) }
    ensures rise { IfOk result (λ sorted. IsSortedByKey (visible bill.now) text_cmp sorted.items) }
{
    let mut sorted = claims;
    sorted.sort_by_key(
        |traced|
            ensures value { result ≡ visible bill.entry.now traced.now }
            ensures kept { bill.exit ≡ bill.entry }
        { visible(bill, traced) },
    )?;
    Ok(sorted)
}

// What is visible of another pharmacy's claim, as numbers.
fn visible(bill: &Bill, traced: &Traced) -> [u64; 9]
    ensures { result ≡ visible bill.now traced.now }
{
    numbers_of(is_person(bill, traced), &traced.row)
}

// Puts the claims after others, masked.
fn put_masked(
    shown: &mut Vec<Traced>,
    explanation: &Explanation,
    bill: &Bill,
    others: &[Traced],
) -> Result<(), AllocError>
    ensures { OnOk result (shown.new.items ≡ shown.old.items ++ map (masked explanation.now bill.now) others.now) }
{
    for traced in others {
        shown.push(masked(explanation, bill, traced))?;
    }
    Ok(())
}

// Another pharmacy's claim with only its date and its amounts.
fn masked(explanation: &Explanation, bill: &Bill, traced: &Traced) -> Traced
    ensures { result ≡ masked explanation.now bill.now traced.now }
{
    let BillParts {
        reference,
        family,
        product,
        quantity,
        days,
        ..
    } = *bill.parts();
    let key = Key {
        provider: explanation.provider,
        reference,
        date: traced.row.key.date,
    };
    let row = Row {
        key,
        family,
        person: person_if(&bill.parts().person, is_person(bill, traced)),
        days,
        pricing: traced.row.pricing,
        product,
        quantity,
        number: explanation.number,
    };
    Traced {
        row,
        source: Source::Elsewhere,
        taken_back: None,
    }
}

// The person, where it is this one, else another.
fn person_if(person: &Person, is_person: bool) -> Person
    ensures { result ≡ person_if person.now is_person }
{
    if is_person { *person } else { another(person) }
}

// Whether the claim is of the person who is billed for.
fn is_person(bill: &Bill, traced: &Traced) -> bool
    ensures { result ≡ is_person bill.now traced.now }
{
    is_same(&traced.row.person, &bill.parts().person)
}

// A person code that isn't this one.
fn another(person: &Person) -> Person
    ensures { result ≡ another person.now }
{
    let first = Person::of_text(b"01");
    if is_same(person, &first) {
        Person::of_text(b"02")
    } else {
        first
    }
}

#[tactic(auto, using(rx_ledger::proofs::SameText::same_text))]
fn is_same(a: &Person, b: &Person) -> bool
    ensures { result ≡ is_same a.now b.now }
{
    a == b
}
