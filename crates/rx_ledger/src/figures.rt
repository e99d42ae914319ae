use rx_fields::{Door, MOST_CENTS, Period};
use rx_text::{all_digits, all_printable};

/// The largest deductible or family maximum of a plan, in cents: eleven digits.
pub const MOST_LIMIT: u64 = 99_999_999_999;

/// The figures of a plan sheet (docs/FORMATS.md, "Plan sheet").
#[derive(Clone, Copy, PartialEq, Eq)]
pub struct Figures {
    /// The BIN, six digits, and the processor control number, printable.
    pub door: Door,
    /// The benefit period.
    pub period: Period,
    /// The deductible of a member, in cents: at most 99,999,999,999.
    pub member_deductible: u64,
    /// The most that a family pays in the period, in cents: at most 99,999,999,999.
    pub family_maximum: u64,
    /// The percentage of an earlier fill's days that has to be over before a refill: at most 100.
    pub refill_percent: u64,
    /// The most days of one fill: 1 to 999.
    pub max_days: u64,
    /// The most that is paid as a dispensing fee, in cents: at most 99,999,999.
    pub fee: u64,
    /// The deductible of a family, in cents, where the plan has one: at most 99,999,999,999.
    pub family_deductible: Option<u64>,
}

ghost use Rattle.std.specs.Prelude.{◌≡◌};
ghost use Rattle.rx_text.specs.Bytes.{all_digits, all_printable};
ghost use Rattle.rx_ledger.specs.Plan.{wrong_figure};

use crate::sheet_key::SheetKey;

impl Figures {
    /// The first figure outside its range, by the keys' numbers.
    pub fn wrong(&self) -> Option<SheetKey>
        ensures { result ≡ wrong_figure self.now }
    {
        if !all_digits(&self.door.bin) {
            return Some(SheetKey::Bin);
        }
        if !all_printable(&self.door.pcn) {
            return Some(SheetKey::Pcn);
        }
        if self.member_deductible > MOST_LIMIT {
            return Some(SheetKey::MemberDeductible);
        }
        if self.family_maximum > MOST_LIMIT {
            return Some(SheetKey::FamilyMaximum);
        }
        if self.refill_percent > 100 {
            return Some(SheetKey::RefillPercent);
        }
        if self.max_days < 1 || self.max_days > 999 {
            return Some(SheetKey::MaxDays);
        }
        if self.fee > MOST_CENTS {
            return Some(SheetKey::Fee);
        }
        match self.family_deductible {
            Some(cents) if cents > MOST_LIMIT => Some(SheetKey::FamilyDeductible),
            _ => None,
        }
    }
}
