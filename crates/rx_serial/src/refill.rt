ghost use Rattle.std.specs.Prelude.{◌≡◌, ◌≤◌, ◌<◌, ◌+◌, ◌*◌, IfSome, ◌-ℤ◌, ◌*ℤ◌, pos, int_lt, length, true, false};
ghost use Rattle.std.specs.List.{All, AllWithin, list_any};
ghost use Rattle.rx_sorted.specs.Ascending.{IsAscending};
ghost use Rattle.rx_serial.specs.Fills.{concerns, counts, fill_cmp, fill_key, is_early, is_not_past, is_own, refill_of};

use crate::fill::{Course, Fill, FillKey};
use rx_d0_values::Bill;
use rx_fields::{Day, Days};
use rx_ledger::Figures;
use rx_sorted::Ascending;

/// A billing as a refill: its course, its date of service, and how many days of an earlier fill have to be over, in
/// percent.
#[derive(Clone, Copy)]
pub(crate) struct Refill {
    pub(crate) course: Course,
    pub(crate) date: Day,
    pub(crate) number: i32,
    pub(crate) percent: u64,
}

impl Refill {
    /// A billing as a refill, of a member at this place.
    pub(crate) fn of(figures: &Figures, date: Day, bill: &Bill, holder: usize) -> Refill
        ensures { result ≡ refill_of figures.now date bill.now holder }
    {
        Refill {
            course: Course {
                holder,
                product: bill.parts().product,
            },
            date,
            number: date.number(),
            percent: figures.refill_percent,
        }
    }

    /// Whether some fill that stands makes it too soon. It looks back from the last fill of the course, which comes soon
    /// after one of these places or else is searched for, and no further than the longest days supply that there is
    /// could last.
    pub(crate) fn is_too_soon(&self, fills: &Ascending<Fill>, near: &[usize], longest: Days) -> bool
        requires percent { self.now.percent ≤ 100 }
        requires within { All (λ f. f.key.when.days ≤ longest) fills.now }
        ensures value { result ≡ list_any (counts self.now) fills.now }
        ensures within { IsAscending fill_cmp fill_key fills.now }
    {
        let list = fills.as_slice();
        let mut at = self.end(list, near);
        'fills: while at > 0 {
            let fill = &list[at - 1];
            if self.is_early(&fill.key, longest) {
                return false;
            }
            if self.counts(fill) {
                return true;
            }
            at -= 1;
        }
        false
    }

    // How many of the fills are of earlier courses or its own.
    fn end(&self, fills: &[Fill], near: &[usize]) -> usize
        requires { IsAscending fill_cmp fill_key fills.now }
        ensures within { result ≤ length fills.now }
        ensures before { AllWithin (λ f. is_not_past self.now.course f ≡ true) fills.now 0 result }
        ensures past { AllWithin (λ f. is_not_past self.now.course f ≡ false) fills.now result (length fills.now) }
    {
        match self.own_near(fills, near) {
            Some(place) => self.end_behind(fills, place),
            None => self.end_found(fills),
        }
    }

    // Which of these places is that of a fill of its course.
    fn own_near(&self, fills: &[Fill], near: &[usize]) -> Option<usize>
        ensures within { IfSome result (λ i. i < length fills.now) }
        ensures own { IfSome result (λ i. AllWithin (λ f. is_not_past self.now.course f ≡ true) fills.now i (i + 1)) }
    {
        let course = self.course;
        for place in near {
            let place = *place;
            if place < fills.len() && fills[place].key.course == course {
                return Some(place);
            }
        }
        None
    }

    // The same as `end`, by going on from a fill of its course.
    fn end_behind(&self, fills: &[Fill], place: usize) -> usize
        requires rise { IsAscending fill_cmp fill_key fills.now }
        requires within { place < length fills.now }
        requires own { AllWithin (λ f. is_not_past self.now.course f ≡ true) fills.now place (place + 1) }
        ensures within { result ≤ length fills.now }
        ensures before { AllWithin (λ f. is_not_past self.now.course f ≡ true) fills.now 0 result }
        ensures past { AllWithin (λ f. is_not_past self.now.course f ≡ false) fills.now result (length fills.now) }
    {
        let course = self.course;
        let mut end = place + 1;
        'own: while end < fills.len() {
            if fills[end].key.course.cmp(&course).is_gt() {
                return end;
            }
            end += 1;
        }
        end
    }

    // The same as `end`, by a search.
    fn end_found(&self, fills: &[Fill]) -> usize
        requires { IsAscending fill_cmp fill_key fills.now }
        ensures within { result ≤ length fills.now }
        ensures before { AllWithin (λ f. is_not_past self.now.course f ≡ true) fills.now 0 result }
        ensures past { AllWithin (λ f. is_not_past self.now.course f ≡ false) fills.now result (length fills.now) }
    {
        let course = self.course;
        fills.partition_point(|fill| fill.key.course <= course)
    }

    // Whether the fill is of another course, or so early that even the longest days supply would be over.
    fn is_early(&self, key: &FillKey, longest: Days) -> bool
        requires { self.now.percent ≤ 100 }
        ensures { result ≡ is_early self.now longest key.now }
    {
        !(self.is_own(key) && are_left(self.number, key.when.number, longest, self.percent))
    }

    // Whether a standing claim is such a fill, and makes it too soon.
    fn counts(&self, fill: &Fill) -> bool
        requires { self.now.percent ≤ 100 }
        ensures { result ≡ counts self.now fill.now }
    {
        fill.count > 0 && self.concerns(&fill.key)
    }

    // Whether the fill is one of its course, dated no later, of whose days too few are over.
    fn concerns(&self, key: &FillKey) -> bool
        requires { self.now.percent ≤ 100 }
        ensures { result ≡ concerns self.now key.now }
    {
        self.is_own(key)
            && key.when.date <= self.date
            && are_left(self.number, key.when.number, key.when.days, self.percent)
    }

    // Whether the fill is of its course.
    fn is_own(&self, key: &FillKey) -> bool
        ensures { result ≡ is_own self.now key.now }
    {
        key.course.holder == self.course.holder && key.course.product == self.course.product
    }
}

/// Whether fewer than the percentage of this many days from one day on are over at another.
pub(crate) fn are_left(at: i32, from: i32, days: Days, percent: u64) -> bool
    requires { percent ≤ 100 }
    ensures { result ≡ int_lt ((at -ℤ from) *ℤ pos 100) (pos (days * percent)) }
{
    let passed = i64::from(at) - i64::from(from);
    passed * 100 < (days.get() * percent) as i64
}
