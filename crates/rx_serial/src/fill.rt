ghost use Rattle.std.specs.Prelude.{◌≡◌, ◌-◌, IfSome, OnErr, OnOk};
ghost use Rattle.rx_sorted.specs.Ascending.{IsAt, put};
ghost use Rattle.rx_serial.specs.Fills.{count_at, fill_at, fill_cmp, fill_key, lowered, tallied, when_of};

use rx_fields::{Day, Days, Memory, Product};
use rx_ledger::Row;
use rx_sorted::{Ascending, InsertError, Keyed};

/// A member, by the place among the members, and a product.
#[derive(Clone, Copy, PartialEq, Eq, PartialOrd, Ord)]
pub(crate) struct Course {
    pub(crate) holder: usize,
    pub(crate) product: Product,
}

/// From when a fill is, as the number of its day and as its day, and for how many days.
#[derive(Clone, Copy, PartialEq, Eq, PartialOrd, Ord)]
pub(crate) struct When {
    pub(crate) number: i32,
    pub(crate) date: Day,
    pub(crate) days: Days,
}

/// What a refill is tested by: whose fill it is of what, from when, and for how many days.
#[derive(Clone, Copy, PartialEq, Eq, PartialOrd, Ord)]
pub(crate) struct FillKey {
    pub(crate) course: Course,
    pub(crate) when: When,
}

/// How many standing claims are such fills.
#[derive(Clone, Copy)]
pub(crate) struct Fill {
    pub(crate) key: FillKey,
    pub(crate) count: u64,
}

/// The first day on which the records bill, as a number. No fill that is over by then makes one of theirs too soon.
#[derive(Clone, Copy)]
pub(crate) struct FirstDay {
    pub(crate) number: i32,
}

/// An entry, and which transaction's it is, counted over all records; it is none's where it stands for a claim.
#[derive(Clone, Copy)]
pub(crate) struct Entry {
    pub(crate) fill: Fill,
    pub(crate) transaction: usize,
}

impl Keyed for Fill {
    type Key = FillKey;

    ghost key_of = { λ fill. fill.key };

    fn key(&self) -> FillKey {
        self.key
    }
}

/// The fill that a standing claim is, of the member at a place.
pub(crate) fn fill_at(holder: usize, row: &Row) -> FillKey
    ensures { result ≡ fill_at holder row.now }
{
    FillKey {
        course: Course {
            holder,
            product: row.product,
        },
        when: when_at(row.key.date, row.days),
    }
}

/// From when a fill of this day is.
pub(crate) fn when_at(date: Day, days: Days) -> When
    ensures { result ≡ when_of date days }
{
    When {
        number: date.number(),
        date,
        days,
    }
}

/// Counts as many more of a fill as the entry does, which is at one of these places, or else is looked up. On a refusal
/// the counts are unchanged.
pub(crate) fn tally_near(
    fills: &mut Ascending<Fill>,
    near: &[usize],
    fill: Fill,
) -> Result<(), Memory>
    ensures ok { OnOk result (fills.new ≡ tallied fills.old fill) }
    ensures err { OnErr result (fills.new ≡ fills.old) }
{
    match place_near(fills, near, &fill.key) {
        Some(place) => tally_at(fills, place, fill),
        None => tally(fills, fill),
    }
}

// Which of these places is that of the fill's entry.
fn place_near(fills: &Ascending<Fill>, near: &[usize], key: &FillKey) -> Option<usize>
    ensures { IfSome result (IsAt fill_cmp fill_key fills.now key.now) }
{
    let list = fills.as_slice();
    for place in near {
        let place = *place;
        if place < list.len() && list[place].key == *key {
            return Some(place);
        }
    }
    None
}

/// The same, where the entry is looked up.
pub(crate) fn tally(fills: &mut Ascending<Fill>, fill: Fill) -> Result<(), Memory>
    ensures ok { OnOk result (fills.new ≡ tallied fills.old fill) }
    ensures err { OnErr result (fills.new ≡ fills.old) }
{
    if fills.is_past(&fill.key) {
        return Ok(fills.push(fill)?);
    }
    match fills.place(&fill.key) {
        Ok(place) => tally_at(fills, place, fill),
        Err(_) => match fills.insert(fill) {
            Ok(()) => Ok(()),
            Err(InsertError::There(_) | InsertError::Memory(_)) => Err(Memory),
        },
    }
}

// The same, where the fill's entry is at a place.
fn tally_at(fills: &mut Ascending<Fill>, place: usize, fill: Fill) -> Result<(), Memory>
    requires { IsAt fill_cmp fill_key fills.old fill.key place }
    ensures ok { OnOk result (fills.new ≡ tallied fills.old fill) }
    ensures err { OnErr result (fills.new ≡ fills.old) }
{
    let counted = fills.as_slice()[place].count;
    // No memory holds as many rows as a count can hold.
    let Some(count) = counted.checked_add(fill.count) else {
        return Err(Memory);
    };
    let _ = fills.replace_at(
        place,
        Fill {
            key: fill.key,
            count,
        },
    );
    Ok(())
}

/// Counts one fill less, where there is an entry for it. It takes no memory.
pub(crate) fn lower(fills: &mut Ascending<Fill>, key: FillKey)
    ensures { fills.new ≡ lowered fills.old key }
{
    match fills.place(&key) {
        Ok(place) => lower_at(fills, place, key),
        Err(_) => (),
    }
}

// The same, where the fill's entry is at a place.
fn lower_at(fills: &mut Ascending<Fill>, place: usize, key: FillKey)
    requires { IsAt fill_cmp fill_key fills.old key place }
    ensures { fills.new ≡ put fill_cmp fill_key fills.old (record { key = key; count = count_at fills.old key - 1 }) }
{
    let count = fills.as_slice()[place].count.saturating_sub(1);
    let _ = fills.replace_at(place, Fill { key, count });
}
