ghost use Rattle.std.specs.Prelude.{◌≡◌, IfErr, IfOk, List, ℕ};
ghost use Rattle.rx_commands.specs.Compare.{AreRead, IsCompared, IsNotCompared, text_of};
ghost use Rattle.rx_commands.specs.Reported.{IsReported};

mod change;
mod differing;
mod fault;
mod form;
mod known;
mod lines;
mod objects;
mod table;
mod words;

use crate::batch_report::{Report, job_report};
pub use fault::CompareFault;
pub use form::CompareForm;
use lines::{put_end, put_front, put_lines};
use rx_fields::Memory;
use rx_io::Inputs;
use rx_print::Page;
use std::alloc::Global;
use std::thread::Threads;

/// Sheet and books with which a batch would be adjudicated.
#[derive(Clone, Copy)]
pub struct Others<'a> {
    /// The plan sheet's text.
    pub sheet: &'a [u8],
    /// The opening books' text.
    pub books: &'a [u8],
}

/// What `compare` prints: which answers of a batch would be others under another sheet, or on other books, and by how much the
/// net would differ (docs/CLI.md, "compare"). The batch is adjudicated twice, each time one record after another. It starts no
/// thread.
///
/// # Errors
///
/// The first, in this order, of Sheet, Books and Batch, as they are given, and then with the others; Memory may stand in place
/// of any other answer.
pub fn compare<R: Threads + Sync>(
    rt: &R,
    alloc: Global,
    inputs: &Inputs<&[u8]>,
    others: Others<'_>,
    form: CompareForm,
) -> Result<Vec<u8>, CompareFault>
    ensures compared { let given = inputs.now in IfOk result (λ text. IsCompared given.sheet.now given.books.now
        others.entry.sheet.now others.entry.books.now given.batch.now form text.items) }
    ensures refused { let given = inputs.now in IfErr result (IsNotCompared given.sheet.now given.books.now
        others.entry.sheet.now others.entry.books.now given.batch.now) }
{
    let given = given_report(rt, alloc, inputs)?;
    let changed = changed_report(rt, alloc, others, inputs.batch)?;
    let text = text_of(alloc, form, &given, &changed);
    drop((given, changed));
    let text = text?;
    Ok(text)
}

// The batch as it is given.
fn given_report<R: Threads + Sync>(
    rt: &R,
    alloc: Global,
    inputs: &Inputs<&[u8]>,
) -> Result<Report, CompareFault>
    ensures reported { let given = inputs.now in
        IfOk result (IsReported given.sheet.now given.books.now given.batch.now) }
    ensures refused { let given = inputs.now in (sheet : List ℕ) → (books : List ℕ)
        → IfErr result (IsNotCompared given.sheet.now given.books.now sheet books given.batch.now) }
{
    match job_report(rt, alloc, inputs, None) {
        Ok(report) => Ok(report),
        Err(fault) => Err(CompareFault::Given(fault)),
    }
}

// The batch with the others, where it is accepted as it is given.
fn changed_report<R: Threads + Sync>(
    rt: &R,
    alloc: Global,
    others: Others<'_>,
    batch: &[u8],
) -> Result<Report, CompareFault>
    ensures reported { IfOk result (IsReported others.entry.sheet.now others.entry.books.now batch.now) }
    ensures refused { (sheet : List ℕ) → (books : List ℕ) → AreRead sheet books batch.now
        → IfErr result (IsNotCompared sheet books others.entry.sheet.now others.entry.books.now batch.now) }
{
    let inputs = Inputs {
        sheet: others.sheet,
        books: others.books,
        batch,
    };
    match job_report(rt, alloc, &inputs, None) {
        Ok(report) => Ok(report),
        Err(fault) => Err(CompareFault::Changed(fault)),
    }
}

// The answers that differ, in a form.
fn text_of(
    alloc: Global,
    form: CompareForm,
    given: &Report,
    changed: &Report,
) -> Result<Vec<u8>, Memory>
    ensures { IfOk result (λ text. text.items ≡ text_of form given.now changed.now) }
{
    let mut page = Page::new(alloc);
    put_front(&mut page, form);
    let (replies, with_replies) = (&given.batch.replies, &changed.batch.replies);
    let change = put_lines(
        &mut page,
        form,
        replies,
        &given.lines,
        with_replies,
        &changed.lines,
    );
    let (net, with_net) = (&given.settled.total, &changed.settled.total);
    put_end(&mut page, form, given.batch.lot, net, with_net, &change);
    page.into_bytes()
}
