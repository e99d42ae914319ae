ghost use Rattle.std.specs.Prelude.{◌≡◌, ◌≤◌};
ghost use Rattle.rx_books_text.specs.LineReading.{authorization_in, begins_zero, count_in, day_in};
ghost use Rattle.rx_books_text.specs.LineReading.{id_in, joined_number, number_in, period_in};

use rx_fields::{Authorization, Bounded, Day, Days, Id, Period, ShortId, date_read, number_read};

/// The id of at most `MAX` bytes that a field is.
#[tactic(auto, unfolding(crate::specs::LineReading::id_in))]
pub(crate) fn id_in<const MAX: usize>(field: &[u8]) -> Option<ShortId<MAX>>
    requires { MAX ≤ 20 }
    ensures { result ≡ id_in MAX field.now }
{
    let id = ShortId::<MAX>::new(field).ok()?;
    if id.bytes() == field { Some(id) } else { None }
}

/// The date that a field is.
#[tactic(auto, unfolding(crate::specs::LineReading::day_in))]
pub(crate) fn day_in(field: &[u8]) -> Option<Day>
    ensures { result ≡ day_in field.now }
{
    date_read(field).ok()
}

/// The period of two fields.
#[tactic(auto, unfolding(crate::specs::LineReading::period_in))]
pub(crate) fn period_in(first: &[u8], last: &[u8]) -> Option<Period>
    ensures { result ≡ period_in first.now last.now }
{
    let first = day_in(first)?;
    let last = day_in(last)?;
    Period::new(first, last)
}

// Whether zero stands in front.
fn begins_zero(field: &[u8]) -> bool
    ensures { result ≡ begins_zero field.now }
{
    match field {
        [first, ..] => *first == b'0',
        [] => false,
    }
}

/// The number of at most 19 digits that a field is, without leading zeros.
#[tactic(auto, unfolding(crate::specs::LineReading::number_in))]
pub(crate) fn number_in(field: &[u8]) -> Option<u64>
    ensures { result ≡ number_in 19 field.now }
{
    if begins_zero(field) && field.len() != 1 {
        return None;
    }
    number_read(field, 19).ok()
}

/// The number of at most 20 digits that a field is, without leading zeros.
pub(crate) fn wide_number_in(field: &[u8]) -> Option<u128>
    ensures { result ≡ number_in 20 field.now }
{
    if field.len() != 20 {
        let number = number_in(field)?;
        return Some(u128::from(number));
    }
    if begins_zero(field) {
        return None;
    }
    let (front, last) = field.split_at(19);
    joined_number(front, last)
}

// The number of nineteen digits and one more.
fn joined_number(front: &[u8], last: &[u8]) -> Option<u128>
    ensures { result ≡ joined_number front.now last.now }
{
    let front = number_read(front, 19).ok()?;
    let last = number_read(last, 1).ok()?;
    Some(u128::from(front) * 10 + u128::from(last))
}

/// The number from `LOW` to `HIGH` that a field is.
#[tactic(auto, unfolding(crate::specs::LineReading::count_in))]
pub(crate) fn count_in<const LOW: u64, const HIGH: u64>(field: &[u8]) -> Option<Bounded<LOW, HIGH>>
    ensures { result ≡ count_in LOW HIGH field.now }
{
    Bounded::new(number_in(field)?)
}

/// The days supply that a field is.
#[tactic(auto, unfolding(crate::specs::LineReading::count_in))]
pub(crate) fn days_in(field: &[u8]) -> Option<Days>
    ensures { result ≡ count_in 1 999 field.now }
{
    Days::new(number_in(field)?)
}

/// The authorization number that a field is.
#[tactic(auto, unfolding(crate::specs::LineReading::authorization_in))]
pub(crate) fn authorization_in(field: &[u8]) -> Option<Authorization>
    ensures { result ≡ authorization_in field.now }
{
    if field.len() != 15 {
        return None;
    }
    Authorization::new(number_read(field, 15).ok()?)
}

// An id of twenty bytes is an `Id`.
pub(crate) fn family_in(field: &[u8]) -> Option<Id>
    ensures { result ≡ id_in 20 field.now }
{
    Some(id_in::<20>(field)?.id())
}
