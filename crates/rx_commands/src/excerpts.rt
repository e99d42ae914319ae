ghost use Rattle.std.specs.Prelude.{◌≡◌, ◌≤◌, ◌∷◌, [], IfErr, IfOk, Ok, length};
ghost use Rattle.std.specs.Option.{option_copied};
ghost use Rattle.rx_batch.specs.Grammar.{IsFile};
ghost use Rattle.rx_batch.specs.Writing.{IsPlain};
ghost use Rattle.rx_books_family.specs.Books.{IsInOrder};
ghost use Rattle.rx_books_store.specs.BooksFile.{IsBooksText};
ghost use Rattle.rx_d0_reply.specs.Text.{reply_text};
ghost use Rattle.rx_d0_request.specs.Request.{transmission_of};
ghost use Rattle.rx_explain.specs.Before.{ledger_at};
ghost use Rattle.rx_fields.specs.declared.limits.TheConstants.{MOST_DETAILS};
ghost use Rattle.rx_ledger.specs.Fold.{reply_to};
ghost use Rattle.rx_sheet.specs.SheetText.{sheet_of_text};
ghost use Rattle.rx_wave.specs.Decoding.{transmissions_of};
ghost use Rattle.rx_commands.specs.ExcerptParts.{excerpt_details, excerpt_ledger, excerpt_plan};
ghost use Rattle.rx_ledger.specs.Ledger.{IsLedger, Ledger as LedgerValue};
ghost use Rattle.rx_commands.specs.ExcerptReadme.{readme_text};
ghost use Rattle.rx_commands.specs.Excerpts.{AnswerAlike, AreAccepted, HasNone, HasNoneOf, IsExcerpt, IsExcerptIn, IsExcerptOf};
ghost use Rattle.rx_commands.specs.Excerpts.{IsFileSomewhere, IsHeard, IsNoExcerpt, IsNotMade, compared_next_to, disputed_on};

mod batch_file;
mod books_file;
mod disputed;
mod fault;
mod given;
mod law;
mod named;
mod readme_file;
mod sheet_file;

use crate::explain_fault::ExplainFault;
use crate::replay::{Batch as Replay, books_after};
use crate::tiers::Tiers;
use batch_file::batch_text;
use books_file::{books_text, ledger_of};
use disputed::compared_next_to;
pub use fault::ExcerptFault;
use given::{Given, read_asked, read_given};
pub use law::law_of_excerpts;
use named::families_in;
use readme_file::readme;
use rx_batch::{Batch, Detail};
use rx_books_store::Books;
use rx_d0_reply::encode;
use rx_d0_values::{Body, Transmission};
use rx_explain::item;
use rx_explain_text::Compared;
use rx_fields::Memory;
use rx_io::Inputs;
use rx_ledger::{Ledger, Sheet, answer_record};
use rx_switch::SwitchFault;
use sheet_file::sheet_text;
use std::alloc::Global;
use std::thread::Threads;

/// What one record of a batch hangs on, as inputs of a run of their own: the texts of a folder that can be sent.
#[derive(Drop)]
pub struct Excerpt {
    /// A plan sheet: the plan's figures, and the drugs that the record bills.
    pub sheet: Vec<u8>,
    /// Books as they stood before the record: the members and claims of the families that it names.
    pub books: Vec<u8>,
    /// A batch: empty details, and the record at its place.
    pub batch: Vec<u8>,
    /// How to run them, and what has to come out.
    pub readme: Vec<u8>,
    /// What the response file has at the record's place, where one is given.
    pub compared: Option<Compared>,
}

/// The excerpt of the record at a place, from 1: a run on it answers the record with the same reply, byte for byte, as a run
/// on the whole. Where the bytes of a response file are given, it is said whether the reply there is this one. It starts no
/// thread.
///
/// # Errors
///
/// The first, in this order, of Sheet, Books and Batch; then the fault of the response file; then NoRecord, NoTransaction,
/// TooLong and Unwritten. Memory may stand in place of any other answer.
pub fn excerpt_record<R: Threads + Sync>(
    rt: &R,
    alloc: Global,
    inputs: &Inputs<&[u8]>,
    place: u64,
    response: Option<&[u8]>,
) -> Result<Excerpt, ExcerptFault>
    ensures excerpt { let given = inputs.now in IfOk result
        (IsExcerpt given.sheet.now given.books.now given.batch.now place (option_copied response.entry)) }
    ensures accepted { IfOk result (λ e. AreAccepted e.sheet.items e.books.items e.batch.items) }
    ensures alike { let given = inputs.now in IfOk result (λ e. AnswerAlike given.sheet.now given.books.now given.batch.now
        e.sheet.items e.books.items e.batch.items place) }
    ensures refused { let given = inputs.now in IfErr result
        (IsNoExcerpt given.sheet.now given.books.now given.batch.now place (option_copied response.entry)) }
{
    let given = read_given(alloc, inputs, response)?;
    let Ok(asked) = read_asked(rt, alloc, inputs.sheet, &given.sheet, &given.batch) else {
        drop(given);
        return Err(ExcerptFault::Input(ExplainFault::Refused(SwitchFault::Memory)));
    };
    let Given {
        sheet,
        books,
        batch,
        file,
    } = given;
    let job = Job {
        sheet: &sheet,
        batch: &batch,
        asked: asked.transmissions.as_slice(),
        tiers: &asked.tiers,
    };
    let made = excerpt_in(alloc, &job, books, place, file.as_ref());
    drop((sheet, batch, file, asked));
    made
}

// A job without its books, what its batch asks, and the tiers of its sheet's text.
#[derive(Drop)]
struct Job<'a> {
    sheet: &'a Sheet,
    batch: &'a Batch,
    asked: &'a [Transmission],
    tiers: &'a Tiers,
}

// The excerpt of the record at a place, where the batch has one.
fn excerpt_in(
    alloc: Global,
    job: &Job<'_>,
    books: Books,
    place: u64,
    file: Option<&Batch>,
) -> Result<Excerpt, ExcerptFault>
    requires asked { job.now.asked.now ≡ transmissions_of job.now.sheet.now.figures.door job.now.batch.now.details }
    requires file { IsFileSomewhere job.now.batch.now }
    ensures excerpt { let b = job.now.batch.now in IfOk result
        (IsExcerptIn job.now.sheet.now b.head b.details books.ledger place (option_copied file.entry)) }
    ensures refused { let b = job.now.batch.now in
        IfErr result (HasNone job.now.sheet.now b.head b.details books.ledger place) }
{
    let Some(detail) = item(job.batch.details.as_slice(), place) else {
        return Err(ExcerptFault::NoRecord);
    };
    let Some(transmission) = item(job.asked, place) else {
        return Err(ExcerptFault::NoRecord);
    };
    let record = Record {
        place,
        detail,
        transmission,
    };
    match &transmission.body {
        Body::Rejected(_) => Err(ExcerptFault::NoTransaction),
        Body::Heard(_) => excerpt_heard(alloc, job, books, &record, file),
    }
}

// The excerpt of a record with transactions, on the opening books of its batch.
fn excerpt_heard(
    alloc: Global,
    job: &Job<'_>,
    books: Books,
    own: &Record<'_>,
    file: Option<&Batch>,
) -> Result<Excerpt, ExcerptFault>
    requires first { 1 ≤ own.now.place }
    requires last { own.now.place ≤ length job.now.asked.now }
    requires few { length job.now.asked.now ≤ MOST_DETAILS }
    requires plain { IsPlain job.now.batch.now.head (own.now.detail.now ∷ []) }
    requires heard { IsHeard own.now.transmission.now.body }
    requires asked { own.now.transmission.now
        ≡ transmission_of job.now.sheet.now.figures.door own.now.detail.now.text }
    ensures excerpt { let j = job.now in IfOk result (IsExcerptOf own.now.place
        (disputed_on j.sheet.now j.batch.now.head own.now.detail.now
        (ledger_at j.batch.now.head.lot j.sheet.now j.asked.now books.ledger own.now.place)) (option_copied file.entry)) }
    ensures refused { let j = job.now in IfErr result (HasNoneOf
        (disputed_on j.sheet.now j.batch.now.head own.now.detail.now
        (ledger_at j.batch.now.head.lot j.sheet.now j.asked.now books.ledger own.now.place))) }
{
    let before = books_before(alloc, job, books, own.place)?;
    let ledger = named_ledger(alloc, &before, &own.transmission.body)?;
    drop(before);
    excerpt_of(alloc, job, own, ledger, file)
}

// The books before the record at a place.
fn books_before(alloc: Global, job: &Job<'_>, books: Books, place: u64) -> Result<Books, Memory>
    requires few { length job.now.asked.now ≤ MOST_DETAILS }
    requires first { 1 ≤ place }
    requires last { place ≤ length job.now.asked.now }
    ensures { IfOk result (λ before. before.ledger
        ≡ ledger_at job.now.batch.now.head.lot job.now.sheet.now job.now.asked.now books.ledger place) }
{
    let opening = books.with_period(alloc, job.sheet.period())?;
    let batch = Replay {
        lot: job.batch.head.lot(),
        sheet: job.sheet,
        opening: &opening,
        asked: job.asked,
    };
    let before = books_after(alloc, &batch, (place - 1) as usize);
    drop(opening);
    before
}

// The members and claims, on these books, of the families that a record names.
fn named_ledger(alloc: Global, books: &Books, body: &Body) -> Result<Ledger, Memory>
    ensures value { IfOk result (λ ledger. ledger ≡ excerpt_ledger body.now books.now.ledger) }
    ensures within { IfOk result (λ _. IsLedger books.now.ledger) }
{
    let families = families_in(alloc, books, body)?;
    let whole = books.ledger(alloc)?;
    ledger_of(alloc, &families, &whole)
}

// A record of a batch.
#[derive(Drop)]
struct Record<'a> {
    place: u64,
    detail: &'a Detail,
    transmission: &'a Transmission,
}

// The texts of an excerpt with this ledger.
fn excerpt_of(
    alloc: Global,
    job: &Job<'_>,
    own: &Record<'_>,
    ledger: Ledger,
    file: Option<&Batch>,
) -> Result<Excerpt, ExcerptFault>
    requires first { 1 ≤ own.now.place }
    requires few { own.now.place ≤ MOST_DETAILS }
    requires plain { IsPlain job.now.batch.now.head (own.now.detail.now ∷ []) }
    requires heard { IsHeard own.now.transmission.now.body }
    requires asked { own.now.transmission.now
        ≡ transmission_of job.now.sheet.now.figures.door own.now.detail.now.text }
    ensures excerpt { let b = job.now.batch.now in (before : LedgerValue) → IsInOrder before
        → ledger ≡ excerpt_ledger own.now.transmission.now.body before
        → IfOk result (IsExcerptOf own.now.place (disputed_on job.now.sheet.now b.head own.now.detail.now before)
        (option_copied file.entry)) }
    ensures refused { let b = job.now.batch.now in (before : LedgerValue)
        → ledger ≡ excerpt_ledger own.now.transmission.now.body before
        → IfErr result (HasNoneOf (disputed_on job.now.sheet.now b.head own.now.detail.now before)) }
{
    let texts = texts_of(alloc, job, own, &ledger)?;
    let text = reply_text_on(alloc, job, own, ledger)?;
    let compared = compared_to(job, own, &text, file);
    let page = page_of(alloc, job, own, &text, &compared)?;
    Ok(with_readme(texts, page, compared))
}

// What the response file has, next to the reply with this text.
fn compared_to(
    job: &Job<'_>,
    own: &Record<'_>,
    text: &[u8],
    file: Option<&Batch>,
) -> Option<Compared>
    ensures { result ≡ compared_next_to job.now.batch.now.head.lot own.now.place own.now.detail.now.reference text.now
        (option_copied file.entry) }
{
    let reference = &own.detail.reference;
    compared_next_to(job.batch.head.lot(), own.place, reference, text, file)
}

// What goes with an excerpt, where the reply has this text.
fn page_of(
    alloc: Global,
    job: &Job<'_>,
    own: &Record<'_>,
    text: &[u8],
    compared: &Option<Compared>,
) -> Result<Vec<u8>, Memory>
    ensures { IfOk result (λ page.
        page.items ≡ readme_text job.now.batch.now.head.lot own.now.place text.now compared.now) }
{
    readme(alloc, job.batch.head.lot(), own.place, text, *compared)
}

// Sheet, books and batch of an excerpt with this ledger.
fn texts_of(
    alloc: Global,
    job: &Job<'_>,
    own: &Record<'_>,
    ledger: &Ledger,
) -> Result<Inputs<Vec<u8>>, ExcerptFault>
    requires first { 1 ≤ own.now.place }
    requires few { own.now.place ≤ MOST_DETAILS }
    requires plain { IsPlain job.now.batch.now.head (own.now.detail.now ∷ []) }
    ensures sheet { IfOk result (λ t.
        sheet_of_text t.sheet.items ≡ Ok (excerpt_plan own.now.transmission.now.body job.now.sheet.now)) }
    ensures books { IfOk result (λ t. IsBooksText t.books.items job.now.sheet.now.figures.period ledger.now) }
    ensures batch { IfOk result (λ t.
        IsFile t.batch.items job.now.batch.now.head (excerpt_details own.now.place own.now.detail.now)) }
    ensures refused { IfErr result (IsNotMade job.now.sheet.now.figures.period ledger.now) }
{
    let sheet = sheet_text(alloc, job.sheet, job.tiers, &own.transmission.body)?;
    let books = books_text(alloc, ledger, job.sheet.period())?;
    let batch = batch_text(alloc, &job.batch.head, own.place, own.detail)?;
    Ok(Inputs {
        sheet,
        books,
        batch,
    })
}

// The excerpt of these texts.
fn with_readme(texts: Inputs<Vec<u8>>, readme: Vec<u8>, compared: Option<Compared>) -> Excerpt
    ensures { result ≡ record {
      sheet = texts.sheet;
      books = texts.books;
      batch = texts.batch;
      readme = readme;
      compared = compared;
    } }
{
    let Inputs {
        sheet,
        books,
        batch,
    } = texts;
    Excerpt {
        sheet,
        books,
        batch,
        readme,
        compared,
    }
}

// The text of the reply to the record on a ledger.
fn reply_text_on(
    alloc: Global,
    job: &Job<'_>,
    own: &Record<'_>,
    mut ledger: Ledger,
) -> Result<Vec<u8>, Memory>
    requires few { own.now.place ≤ MOST_DETAILS }
    ensures { IfOk result (λ text. text.items ≡ reply_text
        (reply_to job.now.batch.now.head.lot job.now.sheet.now own.now.place own.now.transmission.now ledger)) }
{
    let terms = job.sheet.terms(job.batch.head.lot(), own.transmission);
    let reply = answer_record(alloc, &mut ledger, &terms, own.place, own.transmission)?;
    let text = encode(alloc, &reply);
    drop(reply);
    text
}
