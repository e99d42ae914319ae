ghost use Rattle.std.specs.Prelude.{◌≡◌};
ghost use Rattle.rx_ledger.specs.Keys.{sheet_key_number};

/// A key of the plan sheet (docs/FORMATS.md, "Plan sheet").
#[derive(Clone, Copy, Debug, PartialEq, Eq)]
pub enum SheetKey {
    /// `bin`
    Bin,
    /// `pcn`
    Pcn,
    /// `period_first`
    PeriodFirst,
    /// `period_last`
    PeriodLast,
    /// `member_deductible`
    MemberDeductible,
    /// `family_maximum`
    FamilyMaximum,
    /// `refill_percent`
    RefillPercent,
    /// `max_days`
    MaxDays,
    /// `fee`
    Fee,
    /// `tiers`
    Tiers,
    /// `drugs`
    Drugs,
    /// `tier` in a drug
    Tier,
    /// `price` in a drug
    Price,
    /// `family_deductible`
    FamilyDeductible,
}

impl SheetKey {
    /// The key's number, in the order in which the keys are checked.
    pub fn code(self) -> u32
        ensures { result ≡ sheet_key_number self }
    {
        match self {
            SheetKey::Bin => 1,
            SheetKey::Pcn => 2,
            SheetKey::PeriodFirst => 3,
            SheetKey::PeriodLast => 4,
            SheetKey::MemberDeductible => 5,
            SheetKey::FamilyMaximum => 6,
            SheetKey::RefillPercent => 7,
            SheetKey::MaxDays => 8,
            SheetKey::Fee => 9,
            SheetKey::Tiers => 10,
            SheetKey::Drugs => 11,
            SheetKey::Tier => 12,
            SheetKey::Price => 13,
            SheetKey::FamilyDeductible => 14,
        }
    }
}

/// A figure outside its range, by its key in the plan sheet.
#[derive(Clone, Copy, Debug, PartialEq, Eq)]
pub struct Wrong(pub SheetKey);

impl Wrong {
    /// The number of the key whose figure it is.
    pub fn code(self) -> u32
        ensures { result ≡ sheet_key_number self.0 }
    {
        self.0.code()
    }
}
