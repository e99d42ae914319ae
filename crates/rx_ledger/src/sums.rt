ghost use Rattle.std.specs.Prelude.{◌≡◌, filter};
ghost use Rattle.rx_ledger.specs.Answers.{used_by};
ghost use Rattle.rx_ledger.specs.Rows.{claimed_by};

use crate::family::is_same;
use crate::figures::Figures;
use crate::member::MemberKey;
use crate::row::Row;
use crate::share::Used;

/// What is used of the plan's figures by those of the rows that are of the member's family and dated within the
/// benefit period: the deductible of the member, and out of pocket and deductible of the family.
pub fn used_by(figures: &Figures, key: &MemberKey, rows: &[Row]) -> Used
    ensures { result ≡ used_by figures.now key.now.person (filter (claimed_by key.now.family) rows.now) }
{
    let mut used = Used {
        deductible: 0,
        out_of_pocket: 0,
        family_deductible: 0,
    };
    for row in rows {
        if !is_same(&row.family, &key.family) {
            continue;
        }
        if !figures.period.contains(row.key.date) {
            continue;
        }
        let deductible = u128::from(row.pricing.amounts().deductible);
        if row.person == key.person {
            used.deductible += deductible;
        }
        used.out_of_pocket += u128::from(row.pricing.patient_pay());
        used.family_deductible += deductible;
    }
    used
}
