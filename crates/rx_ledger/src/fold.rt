ghost use Rattle.std.specs.Prelude.{◌≡◌, ◌≤◌, length, IfOk};
ghost use Rattle.rx_fields.specs.declared.limits.TheConstants.{MOST_DETAILS};
ghost use Rattle.rx_ledger.specs.Fold.{fold_ledger, fold_replies};

use crate::ledger::Ledger;
use crate::reply::answer_record;
use crate::sheet::Sheet;
use rx_d0_values::{Reply, Transmission};
use rx_fields::{Lot, Memory};
use std::alloc::Global;

/// Adjudicates a batch's records one after another in file order: the ledger after them, and a reply to each
/// (docs/RULES.md, "Rules of adjudication"). The ledger before stays as it is.
pub fn plain_run(
    alloc: Global,
    lot: Lot,
    sheet: &Sheet,
    before: &Ledger,
    transmissions: &[Transmission],
) -> Result<(Ledger, Vec<Reply>), Memory>
    requires { length transmissions.now ≤ MOST_DETAILS }
    ensures ledger { IfOk result (λ out. out.0 ≡ fold_ledger lot sheet.now 1 transmissions.now before.now) }
    ensures replies { IfOk result (λ out. out.1.items ≡ fold_replies lot sheet.now 1 transmissions.now before.now) }
{
    let mut ledger = before.copy(alloc)?;
    let mut replies = Vec::with_capacity(alloc, transmissions.len())?;
    for (at, transmission) in transmissions.iter().enumerate() {
        let terms = sheet.terms(lot, transmission);
        replies.push(answer_record(alloc, &mut ledger, &terms, at as u64 + 1, transmission)?)?;
    }
    Ok((ledger, replies))
}
