ghost use Rattle.std.specs.Prelude.{◌≡◌, ◌+◌, ◌<◌, ◌≤◌, IfOk, OnOk, length};
ghost use Rattle.rx_fields.specs.declared.limits.TheConstants.{MOST_DETAILS};
ghost use Rattle.rx_commands.specs.Courses.{IsCourse};

use crate::replay::batch::Batch;
use rx_books_store::Books;
use rx_d0_values::Reply;
use rx_fields::Memory;
use rx_serial::InOrder;
use std::alloc::Global;

/// A batch of which the first records are done, with the replies to them.
#[derive(Drop)]
pub(crate) struct Course {
    pub(crate) order: InOrder,
    pub(crate) done: usize,
    pub(crate) replies: Vec<Reply>,
}

impl Course {
    /// The replies, once no more records are done.
    pub(crate) fn into_replies(self) -> Vec<Reply>
        ensures { result ≡ self.replies }
    {
        let Course { order, replies, .. } = self;
        drop(order);
        replies
    }

    /// The books so far, once no more records are done.
    pub(crate) fn into_books(self) -> Books
        ensures { result ≡ self.order.books }
    {
        let Course { order, replies, .. } = self;
        drop(replies);
        order.close()
    }
}

/// A batch of which no record is done.
pub(crate) fn begun(alloc: Global, batch: &Batch<'_>) -> Result<Course, Memory>
    requires { length batch.now.asked.now ≤ MOST_DETAILS }
    ensures course { IfOk result (IsCourse batch.now) }
    ensures done { IfOk result (λ c. c.done ≡ 0) }
{
    let books = batch.opening.copy(alloc, batch.sheet.period())?;
    Ok(Course {
        order: InOrder::new(alloc, books, batch.asked)?,
        done: 0,
        replies: Vec::with_capacity(alloc, batch.asked.len())?,
    })
}

/// Goes on until this many records are done.
pub(crate) fn go_to(
    alloc: Global,
    batch: &Batch<'_>,
    course: &mut Course,
    end: usize,
) -> Result<(), Memory>
    requires ahead { course.old.done ≤ end }
    requires within { end ≤ length batch.now.asked.now }
    requires course { IsCourse batch.now course.old }
    ensures course { OnOk result (IsCourse batch.now course.new) }
    ensures done { OnOk result (course.new.done ≡ end) }
{
    while course.done < end {
        go_on(alloc, batch, course)?;
    }
    Ok(())
}

/// The next record, done.
pub(crate) fn go_on(alloc: Global, batch: &Batch<'_>, course: &mut Course) -> Result<(), Memory>
    requires ahead { course.old.done < length batch.now.asked.now }
    requires course { IsCourse batch.now course.old }
    ensures course { OnOk result (IsCourse batch.now course.new) }
    ensures done { OnOk result (course.new.done ≡ course.old.done + 1) }
{
    let transmission = &batch.asked[course.done];
    let place = course.done as u64 + 1;
    let terms = batch.sheet.terms(batch.lot, transmission);
    let reply = course.order.record(alloc, &terms, place, transmission)?;
    course.replies.push(reply)?;
    course.done += 1;
    Ok(())
}
