ghost use Rattle.std.specs.Prelude.{◌≡◌, ◌≤◌, ◌+◌, ◌++◌, ◌∷◌, [], decimal, length, vec_capacity, vec_len};
ghost use Rattle.rx_text.specs.Outcomes.{PutsOrLeaves};
ghost use Rattle.rx_fields.specs.Calendar.{date_text};
ghost use Rattle.rx_fields.specs.Digits.{digits_text};
ghost use Rattle.rx_books_text.specs.declared.line.Line.TheVariants as lines;
ghost use Rattle.rx_books_text.specs.declared.version.Version.TheVariants as versions;
ghost use Rattle.rx_books_text.specs.LineText.{barred, ended, head_text, joined, line_text};

use crate::line::{MemberLine, TotalLine};
use itoa::{Buffer, Integer};
use rx_d0_values::Amounts;
use rx_fields::{
    Authorization, Day, Days, Key, Memory, Period, Product, Quantity, date_write, digits_write,
};
use rx_ledger::{MemberKey, Row};
use rx_text::put;

// Room for any line: an id has at most 20 bytes, and a number is written in at most 40.
const LINE: usize = 512;

/// Puts the head line of version 3, with its line feed; where a growth is refused the text stays as it was.
#[tactic(auto, using(std::proofs::Common::append_assoc))]
pub fn put_head(text: &mut Vec<u8>, period: Period) -> Result<(), Memory>
    ensures { PutsOrLeaves result text.old.items text.new.items
        (ended (head_text (record { version = versions.Three; period = period }))) }
{
    text.reserve(LINE)?;
    put(text, b"BOOKS|3|");
    put_period(text, period);
    put(text, b"\n");
    Ok(())
}

/// Puts a member line, with its line feed; where a growth is refused the text stays as it was.
#[tactic(auto, using(std::proofs::Common::append_assoc))]
pub fn put_member(text: &mut Vec<u8>, line: &MemberLine) -> Result<(), Memory>
    ensures { PutsOrLeaves result text.old.items text.new.items (ended (line_text versions.Three (lines.Member line.now))) }
{
    text.reserve(LINE)?;
    put(text, b"M|");
    put_member_key(text, &line.member.key);
    put_period(text, line.member.coverage);
    put(text, b"|");
    put_number(text, line.deductible);
    put(text, b"\n");
    Ok(())
}

/// Puts a claim line of version 3, with its line feed; where a growth is refused the text stays as it was.
#[tactic(auto, using(std::proofs::Common::append_assoc))]
pub fn put_claim(text: &mut Vec<u8>, row: &Row) -> Result<(), Memory>
    ensures { PutsOrLeaves result text.old.items text.new.items (ended (line_text versions.Three (lines.Claim row.now))) }
{
    text.reserve(LINE)?;
    put(text, b"C|");
    put_fill(text, row);
    put_amounts(text, &row.pricing.amounts());
    put_authorization(text, row.number);
    Ok(())
}

/// Puts a total line, with its line feed; where a growth is refused the text stays as it was.
#[tactic(auto, using(std::proofs::Common::append_assoc))]
pub fn put_total(text: &mut Vec<u8>, line: &TotalLine) -> Result<(), Memory>
    ensures { PutsOrLeaves result text.old.items text.new.items (ended (line_text versions.Three (lines.Total line.now))) }
{
    text.reserve(LINE)?;
    put(text, b"T|");
    put_id(text, line.family.bytes());
    put_number(text, line.out_of_pocket);
    if let Some(deductible) = line.deductible {
        put(text, b"|");
        put_number(text, deductible);
    }
    put(text, b"\n");
    Ok(())
}

// A number without leading zeros.
#[tactic(auto, using(std::proofs::Common::append_assoc))]
fn put_number<I: Integer>(text: &mut Vec<u8>, number: I)
    requires { vec_len text.old + 40 ≤ vec_capacity text.old }
    ensures items { text.new.items ≡ text.old.items ++ I.text number }
    ensures len { vec_len text.new ≤ vec_len text.old + 40 }
    ensures capacity { vec_capacity text.old ≤ vec_capacity text.new }
{
    let mut buffer = Buffer::new();
    put(text, buffer.format(number).as_bytes());
}

// A number and a bar.
#[tactic(auto, using(std::proofs::Common::append_assoc))]
fn put_count(text: &mut Vec<u8>, number: u64)
    requires { vec_len text.old + 41 ≤ vec_capacity text.old }
    ensures items { text.new.items ≡ text.old.items ++ barred (decimal number ∷ []) }
    ensures len { vec_len text.new ≤ vec_len text.old + 41 }
    ensures capacity { vec_capacity text.old ≤ vec_capacity text.new }
{
    put_number(text, number);
    put(text, b"|");
}

// An id and a bar.
#[tactic(auto, using(std::proofs::Common::append_assoc))]
fn put_id(text: &mut Vec<u8>, id: &[u8])
    requires short { length id.now ≤ 20 }
    requires room { vec_len text.old + 21 ≤ vec_capacity text.old }
    ensures items { text.new.items ≡ text.old.items ++ barred (id.now ∷ []) }
    ensures len { vec_len text.new ≤ vec_len text.old + 21 }
    ensures capacity { vec_capacity text.old ≤ vec_capacity text.new }
{
    put(text, id);
    put(text, b"|");
}

// The authorization number, and the line feed.
#[tactic(auto, using(std::proofs::Common::append_assoc))]
fn put_authorization(text: &mut Vec<u8>, number: Authorization)
    requires { vec_len text.old + 16 ≤ vec_capacity text.old }
    ensures items { text.new.items ≡ text.old.items ++ ended (digits_text 15 number) }
    ensures len { vec_len text.new ≤ vec_len text.old + 16 }
    ensures capacity { vec_capacity text.old ≤ vec_capacity text.new }
{
    let digits: [u8; 15] = digits_write(number.get());
    put(text, &digits);
    put(text, b"\n");
}

// A date and a bar.
#[tactic(auto, using(std::proofs::Common::append_assoc))]
fn put_date(text: &mut Vec<u8>, date: Day)
    requires { vec_len text.old + 9 ≤ vec_capacity text.old }
    ensures items { text.new.items ≡ text.old.items ++ barred (date_text date ∷ []) }
    ensures len { vec_len text.new ≤ vec_len text.old + 9 }
    ensures capacity { vec_capacity text.old ≤ vec_capacity text.new }
{
    put(text, &date_write(date));
    put(text, b"|");
}

// The two dates, with a bar between them.
#[tactic(auto, using(std::proofs::Common::append_assoc))]
fn put_period(text: &mut Vec<u8>, period: Period)
    requires { vec_len text.old + 17 ≤ vec_capacity text.old }
    ensures items { text.new.items
        ≡ text.old.items ++ joined (date_text period.first ∷ date_text period.last ∷ []) }
    ensures len { vec_len text.new ≤ vec_len text.old + 17 }
    ensures capacity { vec_capacity text.old ≤ vec_capacity text.new }
{
    put_date(text, period.first());
    put(text, &date_write(period.last()));
}

// The family and the person.
#[tactic(auto, using(std::proofs::Common::append_assoc))]
fn put_member_key(text: &mut Vec<u8>, key: &MemberKey)
    requires { vec_len text.old + 42 ≤ vec_capacity text.old }
    ensures items { text.new.items ≡ text.old.items ++ barred (key.now.family ∷ key.now.person ∷ []) }
    ensures len { vec_len text.new ≤ vec_len text.old + 42 }
    ensures capacity { vec_capacity text.old ≤ vec_capacity text.new }
{
    put_id(text, key.family.bytes());
    put_id(text, key.person.bytes());
}

// The fill key, the member and what was dispensed.
#[tactic(auto, using(std::proofs::Common::append_assoc))]
fn put_fill(text: &mut Vec<u8>, row: &Row)
    requires { vec_len text.old + 207 ≤ vec_capacity text.old }
    ensures items { text.new.items
        ≡ text.old.items ++ barred (row.now.key.provider ∷ decimal row.now.key.reference ∷ date_text row.now.key.date
        ∷ row.now.family ∷ row.now.person
        ∷ digits_text 11 row.now.product ∷ decimal row.now.quantity ∷ decimal row.now.days ∷ []) }
    ensures len { vec_len text.new ≤ vec_len text.old + 207 }
    ensures capacity { vec_capacity text.old ≤ vec_capacity text.new }
{
    put_key(text, &row.key);
    put_member_key(text, &row.member());
    put_dispensed(text, row.product, row.quantity, row.days);
}

// The fill key.
#[tactic(auto, using(std::proofs::Common::append_assoc))]
fn put_key(text: &mut Vec<u8>, key: &Key)
    requires { vec_len text.old + 71 ≤ vec_capacity text.old }
    ensures items { text.new.items
        ≡ text.old.items ++ barred (key.now.provider ∷ decimal key.now.reference ∷ date_text key.now.date ∷ []) }
    ensures len { vec_len text.new ≤ vec_len text.old + 71 }
    ensures capacity { vec_capacity text.old ≤ vec_capacity text.new }
{
    put_id(text, key.provider.bytes());
    put_count(text, key.reference.get());
    put_date(text, key.date);
}

// What was dispensed.
#[tactic(auto, using(std::proofs::Common::append_assoc))]
fn put_dispensed(text: &mut Vec<u8>, product: Product, quantity: Quantity, days: Days)
    requires { vec_len text.old + 94 ≤ vec_capacity text.old }
    ensures items { text.new.items
        ≡ text.old.items ++ barred (digits_text 11 product ∷ decimal quantity ∷ decimal days ∷ []) }
    ensures len { vec_len text.new ≤ vec_len text.old + 94 }
    ensures capacity { vec_capacity text.old ≤ vec_capacity text.new }
{
    put(text, &product.digits());
    put(text, b"|");
    put_count(text, quantity.get());
    put_count(text, days.get());
}

// F6, F7, FH, FI and 4U.
#[tactic(auto, using(std::proofs::Common::append_assoc))]
fn put_amounts(text: &mut Vec<u8>, amounts: &Amounts)
    requires { vec_len text.old + 205 ≤ vec_capacity text.old }
    ensures items { text.new.items
        ≡ text.old.items ++ barred (decimal amounts.now.ingredient_cost ∷ decimal amounts.now.dispensing_fee
        ∷ decimal amounts.now.deductible ∷ decimal amounts.now.copay ∷ decimal amounts.now.coinsurance ∷ []) }
    ensures len { vec_len text.new ≤ vec_len text.old + 205 }
    ensures capacity { vec_capacity text.old ≤ vec_capacity text.new }
{
    put_count(text, amounts.ingredient_cost);
    put_count(text, amounts.dispensing_fee);
    put_count(text, amounts.deductible);
    put_count(text, amounts.copay);
    put_count(text, amounts.coinsurance);
}
