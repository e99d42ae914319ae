//! Small values of the worked cases (tests/cases/README.md).

use rx_d0_values::Amounts;
use rx_fields::{
    Authorization, Day, Days, Id, Key, Period, Person, Product, Provider, Quantity, Reference,
    date_read,
};
use rx_ledger::{Member, Row};
use std::process::Abort;

/// The date of the base claim.
pub(crate) const TODAY: &[u8] = b"20260228";

/// The day of a text.
pub(crate) fn day(rt: &impl Abort, digits: &[u8]) -> Day {
    date_read(digits).expect(rt, "a date")
}

/// The benefit period of the plain sheet.
pub(crate) fn this_year(rt: &impl Abort) -> Period {
    Period::new(day(rt, b"20260101"), day(rt, b"20261231")).expect(rt, "a period")
}

/// The family of a text.
pub(crate) fn id(rt: &impl Abort, text: &[u8]) -> Id {
    Id::new(text, 20).expect(rt, "an id")
}

/// The person of a text.
pub(crate) fn person(rt: &impl Abort, text: &[u8]) -> Person {
    Person::new(text).expect(rt, "a person")
}

/// A person of a family, covered from the first day of the period to this one; None if that is before it.
pub(crate) fn member(rt: &impl Abort, family: &[u8], code: &[u8], last: &[u8]) -> Option<Member> {
    let (first, last) = (day(rt, b"20260101"), day(rt, last));
    Member::new(id(rt, family), person(rt, code), first, last)
}

/// The fill key of a reference number and a date.
pub(crate) fn key(rt: &impl Abort, number: u64, date: &[u8]) -> Key {
    Key {
        provider: Provider::new(b"1234567893").expect(rt, "a provider"),
        reference: Reference::new(number).expect(rt, "a reference"),
        date: day(rt, date),
    }
}

/// The drug of the base claim, billed under a fill key for the person 01 of a family; None if the shares are more than what
/// is allowed.
pub(crate) fn claim(
    rt: &impl Abort,
    key: Key,
    family: &[u8],
    amounts: Amounts,
    number: u64,
) -> Option<Row> {
    Row::new(
        key,
        id(rt, family),
        person(rt, b"01"),
        Product::new(b"00002000202").expect(rt, "a product"),
        Quantity::new(30_000).expect(rt, "a quantity"),
        Days::new(30).expect(rt, "days"),
        amounts,
        Authorization::new(number).expect(rt, "a number"),
    )
}
