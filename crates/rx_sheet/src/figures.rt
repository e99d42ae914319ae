ghost use Rattle.std.specs.Prelude.{◌≡◌, IfOk, true};
ghost use Rattle.std.specs.Option.{option_map};
ghost use Rattle.toml.specs.View.{view, table_view};
ghost use Rattle.rx_text.specs.Bytes.{all_digits, all_printable};
ghost use Rattle.rx_ledger.specs.Plan.{AreFigures, is_limit_if_there};
ghost use Rattle.rx_sheet.specs.Figures.{door_in, period_in, period_from, figures_in, family_deductible_in};

use crate::fault::SheetFault;
use crate::values::{bin, day, number_at, number_if_there, pcn, value_at};
use rx_fields::{Day, Door, MOST_CENTS, Period};
use rx_ledger::{Figures, MOST_LIMIT, SheetKey};
use toml::{Table, Value};

/// Keys 1 to 9. The family's deductible is read later.
#[tactic(auto, unfolding(crate::specs::Figures::figures_in))]
pub(crate) fn figures(sheet: &Table) -> Result<Figures, SheetFault>
    ensures value { result ≡ figures_in (table_view sheet.now) }
    ensures within { IfOk result AreFigures }
{
    let door = door(sheet)?;
    let period = period(sheet)?;
    let member_deductible = number_at(sheet, SheetKey::MemberDeductible, 0, MOST_LIMIT)?;
    let family_maximum = number_at(sheet, SheetKey::FamilyMaximum, 0, MOST_LIMIT)?;
    let refill_percent = number_at(sheet, SheetKey::RefillPercent, 0, 100)?;
    let max_days = number_at(sheet, SheetKey::MaxDays, 1, 999)?;
    let fee = number_at(sheet, SheetKey::Fee, 0, MOST_CENTS)?;
    Ok(Figures {
        door,
        period,
        member_deductible,
        family_maximum,
        refill_percent,
        max_days,
        fee,
        family_deductible: None,
    })
}

/// Key 14: the family's deductible, where the plan has one.
#[tactic(auto, unfolding(crate::specs::Figures::family_deductible_in))]
pub(crate) fn family_deductible(sheet: &Table) -> Result<Option<u64>, SheetFault>
    ensures value { result ≡ family_deductible_in (table_view sheet.now) }
    ensures within { IfOk result (λ cents. is_limit_if_there cents ≡ true) }
{
    number_if_there(sheet, SheetKey::FamilyDeductible, 0, MOST_LIMIT)
}

// Keys 1 and 2.
#[tactic(auto, unfolding(crate::specs::Figures::door_in))]
fn door(sheet: &Table) -> Result<Door, SheetFault>
    ensures value { result ≡ door_in (table_view sheet.now) }
    ensures bin { IfOk result (λ door. all_digits door.bin ≡ true) }
    ensures pcn { IfOk result (λ door. all_printable door.pcn ≡ true) }
{
    let value = value_at(sheet, SheetKey::Bin)?;
    let bin = bin(value).ok_or(SheetFault::Wrong(SheetKey::Bin))?;
    let value = value_at(sheet, SheetKey::Pcn)?;
    let pcn = pcn(value).ok_or(SheetFault::Wrong(SheetKey::Pcn))?;
    Ok(Door { bin, pcn })
}

// Keys 3 and 4.
#[tactic(auto, unfolding(crate::specs::Figures::period_in))]
fn period(sheet: &Table) -> Result<Period, SheetFault>
    ensures { result ≡ period_in (table_view sheet.now) }
{
    let value = value_at(sheet, SheetKey::PeriodFirst)?;
    let first = day(value).ok_or(SheetFault::Wrong(SheetKey::PeriodFirst))?;
    let value = value_at(sheet, SheetKey::PeriodLast)?;
    period_from(first, value).ok_or(SheetFault::Wrong(SheetKey::PeriodLast))
}

fn period_from(first: Day, last: &Value) -> Option<Period>
    ensures { result ≡ period_from first (view last.now) }
{
    Period::new(first, day(last)?)
}
