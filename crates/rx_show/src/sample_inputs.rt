ghost use Rattle.std.specs.Prelude.{◌≡◌, IfOk, IsOk, IsSome, OnOk, Ok, Some, false, true};
ghost use Rattle.rx_fields.specs.Calendar.{date_of};
ghost use Rattle.rx_fields.specs.Numbered.{product_of};
ghost use Rattle.rx_fields.specs.Text.{IsId};
ghost use Rattle.rx_ledger.specs.Ledger.{is_listed, with_member};
ghost use Rattle.rx_ledger.specs.Plan.{is_drug, lists, with_drug};
ghost use Rattle.rx_show.specs.Sample.{drug, enrolled, opening, plain_figures, plain_plan, sample_lot, year_2026};

use rx_fields::{Day, Door, Id, Lot, Memory, Period, Person, Product, date_read};
use rx_ledger::{AddError, AddFault, Drug, Figures, Ledger, Member, MemberKey, Share, Sheet};
use std::alloc::Global;

// Batch 0000042, created on 2026-03-01.
pub(crate) fn lot() -> Lot
    ensures { result ≡ sample_lot }
{
    Lot::new(42, day(b"20260301")).unwrap()
}

// The day of eight digits.
fn day(digits: &[u8]) -> Day
    requires { IsOk (date_of digits.now) }
    ensures { date_of digits.now ≡ Ok result }
{
    date_read(digits).unwrap()
}

// The year 2026.
fn year() -> Period
    ensures { result ≡ year_2026 }
{
    Period::new(day(b"20260101"), day(b"20261231")).unwrap()
}

// The product of eleven digits.
fn product(digits: &[u8]) -> Product
    requires { IsSome (product_of digits.now) }
    ensures { product_of digits.now ≡ Some result }
{
    Product::new(digits).unwrap()
}

// The figures of the plain sheet.
fn figures() -> Figures
    ensures { result ≡ plain_figures }
{
    Figures {
        door: Door {
            bin: *b"900001",
            pcn: *b"RXDEMO    ",
        },
        period: year(),
        member_deductible: 10_000,
        family_maximum: 30_000,
        refill_percent: 75,
        max_days: 90,
        fee: 175,
        family_deductible: None,
    }
}

// The plain sheet.
pub(crate) fn plain_sheet(alloc: Global) -> Result<Sheet, Memory>
    ensures { IfOk result (λ sheet. sheet ≡ plain_plan) }
{
    let mut sheet = Sheet::new(alloc, figures()).unwrap();
    list(&mut sheet, product(b"00001000101"), drug(1_000, 2_500))?;
    list(&mut sheet, product(b"00002000202"), drug(3_000, 100_000))?;
    list(&mut sheet, product(b"00003000303"), drug(1_000, 5_000))?;
    Ok(sheet)
}

fn drug(copay: u64, price: u64) -> Drug
    ensures { result ≡ drug copay price }
{
    Drug {
        share: Share::Copay(copay),
        price,
    }
}

// Adds a drug that isn't listed.
fn list(sheet: &mut Sheet, product: Product, drug: Drug) -> Result<(), Memory>
    requires fits { is_drug drug ≡ true }
    requires new { lists sheet.old product ≡ false }
    ensures { OnOk result (sheet.new ≡ with_drug sheet.old product drug) }
{
    match sheet.add(product, drug) {
        Ok(()) => Ok(()),
        Err(AddFault::Memory) => Err(Memory),
        Err(AddFault::Range | AddFault::There) => unreachable!(),
    }
}

// The opening books: two families, and no standing claim.
pub(crate) fn opening_books(alloc: Global) -> Result<Ledger, Memory>
    ensures { IfOk result (λ books. books ≡ opening) }
{
    let mut books = Ledger::new(alloc);
    enroll(&mut books, member(b"C100", b"01"))?;
    enroll(&mut books, member(b"C100", b"02"))?;
    enroll(&mut books, member(b"C100", b"03"))?;
    enroll(&mut books, member(b"C200", b"01"))?;
    Ok(books)
}

// A member who is covered in the year.
fn member(family: &[u8], person: &[u8]) -> Member
    requires family { IsId 20 family.now }
    requires person { IsId 3 person.now }
    ensures { result ≡ enrolled family.now person.now }
{
    Member {
        key: MemberKey {
            family: Id::new(family, 20).unwrap(),
            person: Person::new(person).unwrap(),
        },
        coverage: year(),
    }
}

// Adds a member who isn't listed.
fn enroll(books: &mut Ledger, member: Member) -> Result<(), Memory>
    requires { is_listed books.old member.key ≡ false }
    ensures { OnOk result (books.new ≡ with_member books.old member) }
{
    match books.add_member(member) {
        Ok(()) => Ok(()),
        Err(AddError::Memory) => Err(Memory),
        Err(AddError::There | AddError::Unknown) => unreachable!(),
    }
}
