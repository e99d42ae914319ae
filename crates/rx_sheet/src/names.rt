ghost use Rattle.std.specs.Prelude.{◌≡◌};
ghost use Rattle.rx_sheet.specs.Names.{name_of};

use rx_ledger::SheetKey;

/// How a key is written.
#[tactic(auto, unfolding(crate::specs::Names::name_of))]
pub(crate) fn name_of(key: SheetKey) -> &'static str
    ensures { result.now ≡ name_of key }
{
    match key {
        SheetKey::Bin => "bin",
        SheetKey::Pcn => "pcn",
        SheetKey::PeriodFirst => "period_first",
        SheetKey::PeriodLast => "period_last",
        SheetKey::MemberDeductible => "member_deductible",
        SheetKey::FamilyMaximum => "family_maximum",
        SheetKey::RefillPercent => "refill_percent",
        SheetKey::MaxDays => "max_days",
        SheetKey::Fee => "fee",
        SheetKey::Tiers => "tiers",
        SheetKey::Drugs => "drugs",
        SheetKey::Tier => "tier",
        SheetKey::Price => "price",
        SheetKey::FamilyDeductible => "family_deductible",
    }
}
