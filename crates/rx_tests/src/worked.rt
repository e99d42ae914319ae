//! What the worked cases (tests/cases/README.md) are made of: small values, the plain sheet, and records.

use rx_books_store::Books;
use rx_d0_values::{
    Bill, BillParts, Body, Codes, Echo, EchoParts, Heard, Rejected, Reversal, Transaction,
    Transactions, Transmission,
};
use rx_fields::{
    Authorization, Cents, Code, Count, Day, Days, Door, Id, Key, Lot, Period, Person, Product,
    Provider, Quantity, Reference, date_read,
};
use rx_ledger::{Drug, Figures, Share, Sheet};
use std::alloc::Global;
use std::process::Abort;

const HEADER: EchoParts = EchoParts {
    version: *b"D0",
    code: *b"B1",
    qualifier: *b"01",
    provider: *b"1234567893     ",
    date: *b"20260228",
};

// The date of the base claim.
const TODAY: &[u8] = b"20260228";

fn day(rt: &impl Abort, digits: &[u8]) -> Day {
    date_read(digits).expect(rt, "a date")
}

/// The period from the first to the last of two days.
pub(crate) fn period(rt: &impl Abort, first: &[u8], last: &[u8]) -> Period {
    Period::new(day(rt, first), day(rt, last)).expect(rt, "a period")
}

/// The benefit period of the plain sheet.
pub(crate) fn this_year(rt: &impl Abort) -> Period {
    period(rt, b"20260101", b"20261231")
}

/// The family of a text.
pub(crate) fn id(rt: &impl Abort, text: &[u8]) -> Id {
    Id::new(text, 20).expect(rt, "an id")
}

fn person(rt: &impl Abort, text: &[u8]) -> Person {
    Person::new(text).expect(rt, "a person")
}

fn product(rt: &impl Abort, digits: &[u8]) -> Product {
    Product::new(digits).expect(rt, "a product")
}

// The pharmacy that asks.
fn provider(rt: &impl Abort) -> Provider {
    Provider::new(b"1234567893").expect(rt, "a provider")
}

fn reference(rt: &impl Abort, number: u64) -> Reference {
    Reference::new(number).expect(rt, "a reference")
}

/// The fill key of the base claim with this reference.
pub(crate) fn key(rt: &impl Abort, number: u64) -> Key {
    Key {
        provider: provider(rt),
        reference: reference(rt, number),
        date: day(rt, TODAY),
    }
}

/// The books of a text.
pub(crate) fn books(rt: &impl Abort, alloc: Global, text: &[u8]) -> Books {
    Books::read(alloc, text).expect(rt, "books")
}

/// The lot of a batch, created the day after the base claim.
pub(crate) fn lot(rt: &impl Abort, number: u32) -> Lot {
    Lot::new(number, day(rt, b"20260301")).expect(rt, "a lot")
}

/// The plain sheet.
pub(crate) fn plain_sheet(rt: &impl Abort, alloc: Global) -> Sheet {
    let mut sheet = bare_sheet(rt, alloc);
    list(rt, &mut sheet, b"00001000101", 1_000, 2_500);
    list(rt, &mut sheet, b"00002000202", 3_000, 100_000);
    list(rt, &mut sheet, b"00003000303", 1_000, 5_000);
    sheet
}

/// The plain sheet without drugs.
pub(crate) fn bare_sheet(rt: &impl Abort, alloc: Global) -> Sheet {
    let figures = Figures {
        door: Door {
            bin: *b"900001",
            pcn: *b"RXDEMO    ",
        },
        period: this_year(rt),
        member_deductible: 10_000,
        family_maximum: 30_000,
        refill_percent: 75,
        max_days: 90,
        fee: 175,
        family_deductible: None,
    };
    Sheet::new(alloc, figures).expect(rt, "figures within their ranges")
}

fn list(rt: &impl Abort, sheet: &mut Sheet, digits: &[u8], copay: u64, price: u64) {
    let share = Share::Copay(copay);
    sheet
        .add(product(rt, digits), Drug { share, price })
        .expect(rt, "a drug that isn't listed");
}

/// The base claim with this reference, family, person and drug.
pub(crate) fn bill(
    rt: &impl Abort,
    number: u64,
    family: &[u8],
    person_code: &[u8],
    digits: &[u8],
) -> Transaction {
    let parts = BillParts {
        reference: reference(rt, number),
        family: id(rt, family),
        person: person(rt, person_code),
        product: product(rt, digits),
        quantity: Quantity::new(30_000).expect(rt, "a quantity"),
        days: Days::new(30).expect(rt, "days"),
        ingredient_cost: Cents::new(30_000).expect(rt, "a cost"),
        dispensing_fee: Cents::new(175),
        usual_charge: Cents::new(40_000),
        gross_amount: None,
    };
    Transaction::Bill(Bill::new(parts).expect(rt, "a charge"))
}

/// The base claim with this reference and family.
pub(crate) fn base(rt: &impl Abort, number: u64, family: &[u8]) -> Transaction {
    bill(rt, number, family, b"01", b"00002000202")
}

/// The reversal of the base claim with this reference.
pub(crate) fn reversal(rt: &impl Abort, number: u64) -> Transaction {
    let (reference, product) = (reference(rt, number), product(rt, b"00002000202"));
    Transaction::Reverse(Reversal { reference, product })
}

/// The record of these transactions on a date of service.
pub(crate) fn record(
    rt: &impl Abort,
    alloc: Global,
    date: &[u8],
    transactions: &[Transaction],
) -> Transmission {
    let items = transactions.to_vec(alloc).expect(rt, "memory");
    asking(Body::Heard(Heard {
        provider: provider(rt),
        date: day(rt, date),
        list: Transactions::new(items)
            .ok()
            .expect(rt, "one to four of a kind"),
    }))
}

/// The record of these transactions on the date of the base claim.
pub(crate) fn today(rt: &impl Abort, alloc: Global, transactions: &[Transaction]) -> Transmission {
    record(rt, alloc, TODAY, transactions)
}

/// The record whose header is rejected for its syntax.
pub(crate) fn rejected(rt: &impl Abort) -> Transmission {
    asking(Body::Rejected(Rejected {
        codes: Codes::one(Code::Syntax),
        groups: Count::new(1).expect(rt, "a count"),
    }))
}

// The record that asks for this.
fn asking(body: Body) -> Transmission {
    let echo = Echo::blanked(HEADER);
    Transmission { echo, body }
}
