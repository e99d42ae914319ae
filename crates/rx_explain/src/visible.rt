ghost use Rattle.std.specs.Prelude.{◌≡◌};
ghost use Rattle.rx_explain.specs.Shown.{flag_if, numbers_of};

use rx_d0_values::Amounts;
use rx_ledger::Row;

/// A claim's date and amounts as numbers, with something that is so or not: what a pharmacy may see of another's claim.
pub(crate) fn numbers_of(is_so: bool, row: &Row) -> [u64; 9]
    ensures { result ≡ numbers_of is_so row.now }
{
    let date = row.key.date;
    let Amounts {
        ingredient_cost,
        dispensing_fee,
        deductible,
        copay,
        coinsurance,
    } = row.pricing.amounts();
    [
        u64::from(date.year()),
        u64::from(date.month()),
        u64::from(date.day()),
        flag_if(is_so),
        ingredient_cost,
        dispensing_fee,
        deductible,
        copay,
        coinsurance,
    ]
}

// What is so goes first.
fn flag_if(is_so: bool) -> u64
    ensures { result ≡ flag_if is_so }
{
    if is_so { 0 } else { 1 }
}
