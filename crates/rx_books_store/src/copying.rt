//! Books with the totals of another period, added up by several threads.
ghost use Rattle.std.specs.Prelude.{◌≡◌, [], IfOk};

use crate::books::Books;
use crate::open_books::OpenBooks;
use rx_fields::{Memory, Period};
use std::alloc::Global;
use std::thread::Threads;

impl Books {
    /// The same as `copy`, where several threads add up the totals of another period.
    pub fn copy_in_parts<R: Threads + Sync>(
        &self,
        rt: &R,
        alloc: Global,
        period: Period,
    ) -> Result<Books, Memory>
        ensures { IfOk result (λ books. books ≡ record { period = period; ledger = self.now.ledger }) }
    {
        if let Some(books) = self.plain()
            && books.has_no_slot()
            && books.period() != period
        {
            return Ok(books.summed_copy(rt, alloc, period)?.close());
        }
        self.copy(alloc, period)
    }
}

impl OpenBooks {
    // The same books, where no slot is open, with the totals of this period, added up by several threads.
    fn summed_copy<R: Threads + Sync>(
        &self,
        rt: &R,
        alloc: Global,
        period: Period,
    ) -> Result<OpenBooks, Memory>
        requires { self.now.slots ≡ [] }
        ensures { IfOk result (λ b. b.books ≡ record { period = period; ledger = self.now.books.ledger }) }
    {
        let opening = self.opening.share()?;
        OpenBooks::added_up_in_parts(rt, alloc, period, opening)
    }
}
