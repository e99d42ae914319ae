ghost use Rattle.std.specs.Prelude.{◌≡◌, ◌≤◌, IfOk, length, take};
ghost use Rattle.rx_fields.specs.declared.limits.TheConstants.{MOST_DETAILS};
ghost use Rattle.rx_ledger.specs.Fold.{fold_ledger};

use crate::replay::batch::Batch;
use crate::replay::course::{Course, begun, go_to};
use rx_books_store::Books;
use rx_fields::Memory;
use std::alloc::Global;

/// The books after this many records of a batch, with the sums of the plan's period.
pub fn books_after(alloc: Global, batch: &Batch<'_>, records: usize) -> Result<Books, Memory>
    requires few { length batch.now.asked.now ≤ MOST_DETAILS }
    requires within { records ≤ length batch.now.asked.now }
    ensures ledger { IfOk result (λ books. books.ledger
        ≡ fold_ledger batch.now.lot batch.now.sheet.now 1 (take records batch.now.asked.now) batch.now.opening.now.ledger) }
    ensures period { IfOk result (λ books. books.period ≡ batch.now.sheet.now.figures.period) }
{
    let mut course = begun(alloc, batch)?;
    match go_to(alloc, batch, &mut course, records) {
        Ok(()) => Ok(course.into_books()),
        Err(refused) => {
            drop(course);
            Err(refused)
        }
    }
}
