ghost use Rattle.std.specs.Prelude.{◌≡◌, ◌∷◌, []};
ghost use Rattle.rx_print.specs.Page.{Writes};
ghost use Rattle.rx_report.specs.Cells.{authorization_cell, cell, cents_cell, cents_in, cents_of, codes_cell, days_of, family_cell};
ghost use Rattle.rx_report.specs.Cells.{given_back, known_cell, person_cell, product_cell, quantity_of, reference_of, status_of};
ghost use Rattle.rx_settle.specs.Providers.{named};

use crate::column::Column;
use crate::line::{Dispensed, Line};
use rx_d0_values::{Answer, Pricing};
use rx_fields::{Id, Person, Product, Provider, Reference};
use rx_print::Page;

/// Writes what a report says of an answer in a column, as its bytes are; nothing where it isn't known. Amounts are in cents.
pub fn put_cell(page: &mut Page, column: Column, line: &Line)
    ensures { Writes page.old page.new (cell column line.now) }
{
    match column {
        Column::Place => page.number(u128::from(line.place)),
        Column::Nth => page.number(u128::from(line.nth)),
        Column::Status => page.put(&[status_of(&line.answer)]),
        Column::Codes => put_codes(page, &line.answer),
        Column::Provider => put_provider(page, &line.provider),
        Column::Prescription => put_known(page, number_of(reference_of(&line.answer))),
        Column::Date => page.put(&line.date),
        Column::Family => put_family(page, &line.member),
        Column::Person => put_person(page, &line.member),
        Column::Allowed
        | Column::Deductible
        | Column::Copay
        | Column::Coinsurance
        | Column::Member
        | Column::Plan => put_cents(page, cents_of(column, &line.answer)),
        Column::Authorization => put_authorization(page, &line.answer),
        Column::Product => put_product(page, line.product),
        Column::Quantity => put_known(page, quantity_of(line.dispensed)),
        Column::Days => put_known(page, days_of(line.dispensed)),
    }
}

fn status_of(answer: &Answer) -> u8
    ensures { result ≡ status_of answer.now }
{
    match answer {
        Answer::Paid(_) => b'P',
        Answer::Twice(_) => b'D',
        Answer::Approved(_) => b'A',
        Answer::Refused(_) => b'R',
    }
}

fn put_codes(page: &mut Page, answer: &Answer)
    ensures { Writes page.old page.new (codes_cell answer.now) }
{
    match answer {
        Answer::Refused(refused) => page.codes(&refused.codes),
        Answer::Paid(_) | Answer::Twice(_) | Answer::Approved(_) => {}
    }
}

fn put_provider(page: &mut Page, field: &[u8; 15])
    ensures { Writes page.old page.new (named field.now) }
{
    match Provider::new(field) {
        Ok(provider) => page.put(provider.bytes()),
        Err(_) => {}
    }
}

fn reference_of(answer: &Answer) -> Option<Reference>
    ensures { result ≡ reference_of answer.now }
{
    match answer {
        Answer::Paid(paid) | Answer::Twice(paid) => Some(paid.reference),
        Answer::Approved(approved) => Some(approved.reference),
        Answer::Refused(refused) => refused.reference,
    }
}

fn number_of(reference: Option<Reference>) -> Option<u64>
    ensures { result ≡ reference }
{
    match reference {
        Some(reference) => Some(reference.get()),
        None => None,
    }
}

fn quantity_of(dispensed: Option<Dispensed>) -> Option<u64>
    ensures { result ≡ quantity_of dispensed }
{
    match dispensed {
        Some(dispensed) => Some(dispensed.quantity.get()),
        None => None,
    }
}

fn days_of(dispensed: Option<Dispensed>) -> Option<u64>
    ensures { result ≡ days_of dispensed }
{
    match dispensed {
        Some(dispensed) => Some(dispensed.days.get()),
        None => None,
    }
}

fn put_known(page: &mut Page, number: Option<u64>)
    ensures { Writes page.old page.new (known_cell number) }
{
    match number {
        Some(number) => page.number(u128::from(number)),
        None => {}
    }
}

fn put_authorization(page: &mut Page, answer: &Answer)
    ensures { Writes page.old page.new (authorization_cell answer.now) }
{
    match answer {
        Answer::Paid(paid) | Answer::Twice(paid) => page.authorization(paid.number),
        Answer::Approved(approved) => page.authorization(approved.number),
        Answer::Refused(_) => {}
    }
}

fn put_product(page: &mut Page, product: Option<Product>)
    ensures { Writes page.old page.new (product_cell product) }
{
    match product {
        Some(product) => page.put(&product.digits()),
        None => {}
    }
}

fn put_family(page: &mut Page, member: &Option<(Id, Person)>)
    ensures { Writes page.old page.new (family_cell member.now) }
{
    match member {
        Some((family, _)) => page.put(family.bytes()),
        None => {}
    }
}

fn put_person(page: &mut Page, member: &Option<(Id, Person)>)
    ensures { Writes page.old page.new (person_cell member.now) }
{
    match member {
        Some((_, person)) => page.put(person.bytes()),
        None => {}
    }
}

/// The cents of an answer in a column of amounts, below zero where they are given back; None where it has none.
pub fn cents_of(column: Column, answer: &Answer) -> Option<i128>
    ensures { result ≡ cents_of column answer.now }
{
    match answer {
        Answer::Paid(paid) => Some(i128::from(cents_in(column, &paid.pricing))),
        Answer::Twice(paid) => Some(i128::from(cents_in(column, &paid.pricing))),
        Answer::Approved(approved) => given_back(column, approved.total_paid.get()),
        Answer::Refused(_) => None,
    }
}

fn cents_in(column: Column, pricing: &Pricing) -> u64
    ensures { result ≡ cents_in column pricing.now }
{
    let amounts = pricing.amounts();
    match column {
        Column::Allowed => amounts.ingredient_cost + amounts.dispensing_fee,
        Column::Deductible => amounts.deductible,
        Column::Copay => amounts.copay,
        Column::Coinsurance => amounts.coinsurance,
        Column::Member => pricing.patient_pay(),
        _ => pricing.total_paid(),
    }
}

fn given_back(column: Column, cents: u64) -> Option<i128>
    ensures { result ≡ given_back column cents }
{
    match column {
        Column::Plan => Some(-i128::from(cents)),
        _ => None,
    }
}

fn put_cents(page: &mut Page, cents: Option<i128>)
    ensures { Writes page.old page.new (cents_cell cents) }
{
    match cents {
        Some(cents) => page.signed(cents),
        None => {}
    }
}
