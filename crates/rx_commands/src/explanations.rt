ghost use Rattle.std.specs.Prelude.{◌≡◌, ◌++◌, ◌||◌, IfErr, IfOk, List, None, OnOk, Some, is_some, ℕ};
ghost use Rattle.std.specs.List.{flat_map, list_any};
ghost use Rattle.std.specs.Option.{option_copied};
ghost use Rattle.rx_commands.specs.Explaining.{IsNotExplained, IsPrinted, Prints, PrintsWith, compared_in, is_any_other};
ghost use Rattle.rx_commands.specs.Explaining.{is_found, is_other, one_text, option_is_other, option_text, outcome_by};
ghost use Rattle.rx_commands.specs.Explaining.{place_asked, rejected_if_other, rejected_is_found, rejected_is_other};
ghost use Rattle.rx_commands.specs.Explaining.{rejected_part, rejected_text, rejected_text_if, shown_text, text_if};

use crate::explain_fault::ExplainFault;
use crate::manner::Manner;
use crate::printed::{Outcome, Printed};
use crate::record_words::{rejected_at, request_at};
use crate::retraced::{Retraced, retrace};
use rx_batch::Batch;
use rx_d0_values::Rejected;
use rx_explain::{At, Explanation, Query};
use rx_explain_text::{
    Cited, Compared, Listing, absent_text, explanation_json, explanation_text, rejection_json,
    rejection_text,
};
use rx_fields::Memory;
use rx_io::Inputs;
use rx_show::read_response;
use std::alloc::{AllocError, Global};
use std::thread::Threads;

/// What `explain` prints: why the transactions that are asked for were answered as they were, in words or as JSON; of a
/// record whose header is rejected, why that was. Where the bytes of a response file are given, each says whether the reply
/// there is this one, byte for byte. It starts no thread.
///
/// It ends with NotFound exactly where no transaction, and no record whose header is rejected, is what is asked for: then the
/// text is a line that says what that is, and what the batch has. Else it ends with Differs exactly where the response file has
/// another reply to one of them or another reference, or none, or answers a batch of another number.
///
/// # Errors
///
/// The first, in this order, of Sheet, Books and Batch; then the fault of the response file. Memory may stand in place of
/// any other answer.
pub fn explain<R: Threads + Sync>(
    rt: &R,
    alloc: Global,
    inputs: &Inputs<&[u8]>,
    query: &Query,
    response: Option<&[u8]>,
    manner: Manner,
) -> Result<Printed, ExplainFault>
    ensures printed { let given = inputs.now in IfOk result (Prints given.sheet.now given.books.now given.batch.now
        query.now (option_copied response.entry) manner) }
    ensures refused { let given = inputs.now in IfErr result (IsNotExplained given.sheet.now given.books.now given.batch.now
        (option_copied response.entry)) }
{
    let retraced = retrace(rt, alloc, inputs, query)?;
    let printed = printed_beside(alloc, &retraced, query, response, manner);
    drop(retraced);
    printed
}

/// The same of a batch that was replayed.
pub(crate) fn printed_beside(
    alloc: Global,
    retraced: &Retraced,
    query: &Query,
    response: Option<&[u8]>,
    manner: Manner,
) -> Result<Printed, ExplainFault>
    ensures printed { IfOk result (PrintsWith retraced.now query.now (option_copied response.entry) manner) }
    ensures refused { (sheet books batch : List ℕ)
        → IfErr result (IsNotExplained sheet books batch (option_copied response.entry)) }
{
    match response {
        None => printed_alone(alloc, retraced, query, manner),
        Some(bytes) => printed_with(alloc, retraced, query, bytes, manner),
    }
}

// Without a response file.
fn printed_alone(
    alloc: Global,
    retraced: &Retraced,
    query: &Query,
    manner: Manner,
) -> Result<Printed, ExplainFault>
    ensures printed { IfOk result (IsPrinted manner retraced.now query.now None) }
    ensures refused { (sheet books batch : List ℕ) → IfErr result (IsNotExplained sheet books batch None) }
{
    let task = Task {
        retraced,
        response: None,
        manner,
    };
    let printed = printed_by(alloc, &task, query)?;
    Ok(printed)
}

// With the bytes of a response file.
fn printed_with(
    alloc: Global,
    retraced: &Retraced,
    query: &Query,
    bytes: &[u8],
    manner: Manner,
) -> Result<Printed, ExplainFault>
    ensures printed { IfOk result (PrintsWith retraced.now query.now (Some bytes.now) manner) }
    ensures refused { (sheet books batch : List ℕ) → IfErr result (IsNotExplained sheet books batch (Some bytes.now)) }
{
    let response = read_response(alloc, bytes)?;
    let task = Task {
        retraced,
        response: Some(&response),
        manner,
    };
    let printed = printed_by(alloc, &task, query)?;
    Ok(printed)
}

// What is explained, and how.
#[derive(Clone, Copy)]
struct Task<'a, 'b> {
    retraced: &'a Retraced,
    // The response file that is compared, if one is.
    response: Option<&'b Batch>,
    manner: Manner,
}

// The text, and how the command ends.
fn printed_by(alloc: Global, task: &Task<'_, '_>, query: &Query) -> Result<Printed, Memory>
    ensures { IfOk result (IsPrinted task.now.manner task.now.retraced.now query.now (option_copied task.now.response)) }
{
    let Shown { text, differs } = show(alloc, task, query)?;
    let is_found = is_found(task.retraced, query);
    let text = text_if(alloc, task.retraced, query, is_found, text)?;
    let outcome = outcome_by(is_found, differs);
    Ok(Printed { text, outcome })
}

// Whether a transaction, or a record whose header is rejected, is what is asked for.
fn is_found(retraced: &Retraced, query: &Query) -> bool
    ensures { result ≡ is_found retraced.now query.now }
{
    rejected_is_found(retraced, place_asked(query)) || any_is_some(&retraced.explanations)
}

fn rejected_is_found(retraced: &Retraced, at: Option<At>) -> bool
    ensures { result ≡ rejected_is_found retraced.now at }
{
    match at {
        Some(at) => rejected_at(&retraced.asked, at).is_some(),
        None => false,
    }
}

fn any_is_some(explanations: &[Option<Explanation>]) -> bool
    ensures { result ≡ list_any is_some explanations.now }
{
    explanations.iter().any(|explanation| explanation.is_some())
}

// The text of what is found, or what isn't.
fn text_if(
    alloc: Global,
    retraced: &Retraced,
    query: &Query,
    is_found: bool,
    text: Vec<u8>,
) -> Result<Vec<u8>, Memory>
    ensures { IfOk result (λ printed. printed.items ≡ text_if retraced.now query.now is_found text.items) }
{
    if is_found {
        return Ok(text);
    }
    drop(text);
    let records = retraced.details.as_slice().len();
    absent_text(alloc, query, records, &retraced.near)
}

fn outcome_by(is_found: bool, differs: bool) -> Outcome
    ensures { result ≡ outcome_by is_found differs }
{
    if !is_found {
        Outcome::NotFound
    } else if differs {
        Outcome::Differs
    } else {
        Outcome::Done
    }
}

// What is explained so far.
#[derive(Drop)]
struct Shown {
    text: Vec<u8>,
    // Whether the response file hasn't the reply to one of the transactions.
    differs: bool,
}

impl Shown {
    // Puts the text of a transaction after the others.
    fn put(&mut self, text: &[u8], compared: Option<Compared>) -> Result<(), AllocError>
        ensures text { OnOk result (self.new.text.items ≡ self.old.text.items ++ text.now) }
        ensures differs { OnOk result (self.new.differs ≡ (self.old.differs || is_other compared)) }
    {
        self.differs |= is_other(compared);
        self.text.extend_from_slice(text)
    }
}

// Whether the response file hasn't this reply.
fn is_other(compared: Option<Compared>) -> bool
    ensures { result ≡ is_other compared }
{
    match compared {
        None | Some(Compared::Same) => false,
        Some(Compared::Differs) | Some(Compared::Absent) | Some(Compared::OtherBatch(_)) => true,
    }
}

// The record that was asked for, where its header is rejected, and the explanations.
fn show(alloc: Global, task: &Task<'_, '_>, query: &Query) -> Result<Shown, Memory>
    ensures text { let t = task.now in
        IfOk result (λ shown. shown.text.items ≡ shown_text t.manner t.retraced.now query.now (option_copied t.response)) }
    ensures differs { let t = task.now in
        IfOk result (λ shown. shown.differs ≡ is_any_other t.retraced.now query.now (option_copied t.response)) }
{
    let mut shown = Shown {
        text: Vec::new(alloc),
        differs: false,
    };
    put_rejection(alloc, &mut shown, task, place_asked(query))?;
    put_each(alloc, &mut shown, task, &task.retraced.explanations)?;
    Ok(shown)
}

/// Where a record, or one of its transactions, is asked for by its place.
pub(crate) fn place_asked(query: &Query) -> Option<At>
    ensures { result ≡ place_asked query.now }
{
    match query {
        Query::Place(place) => Some(At {
            place: *place,
            nth: 1,
        }),
        Query::One(at) => Some(*at),
        _ => None,
    }
}

// The record at this place, where its header is rejected.
fn put_rejection(
    alloc: Global,
    shown: &mut Shown,
    task: &Task<'_, '_>,
    at: Option<At>,
) -> Result<(), Memory>
    ensures text { let t = task.now in OnOk result (shown.new.text.items
        ≡ shown.old.text.items ++ rejected_part t.manner t.retraced.now (option_copied t.response) at) }
    ensures differs { let t = task.now in OnOk result (shown.new.differs
        ≡ (shown.old.differs || rejected_is_other t.retraced.now (option_copied t.response) at)) }
{
    let Some(at) = at else {
        return Ok(());
    };
    let rejected = rejected_at(&task.retraced.asked, at);
    put_rejected(alloc, shown, task, at.place, rejected)
}

fn put_rejected(
    alloc: Global,
    shown: &mut Shown,
    task: &Task<'_, '_>,
    place: u64,
    rejected: Option<&Rejected>,
) -> Result<(), Memory>
    ensures text { let t = task.now in OnOk result (shown.new.text.items ≡ shown.old.text.items
        ++ rejected_text_if t.manner t.retraced.now (option_copied t.response) place (option_copied rejected.entry)) }
    ensures differs { let t = task.now in OnOk result (shown.new.differs ≡ (shown.old.differs
        || rejected_if_other t.retraced.now (option_copied t.response) place (option_copied rejected.entry))) }
{
    let Some(rejected) = rejected else {
        return Ok(());
    };
    let compared = task.compared(alloc, place)?;
    let text = task.rejected_text(alloc, place, rejected, compared)?;
    Ok(shown.put(&text, compared)?)
}

// The explanations, one after another.
fn put_each(
    alloc: Global,
    shown: &mut Shown,
    task: &Task<'_, '_>,
    explanations: &[Option<Explanation>],
) -> Result<(), Memory>
    ensures text { let t = task.now in OnOk result (shown.new.text.items ≡ shown.old.text.items
        ++ flat_map (option_text t.manner t.retraced.now (option_copied t.response)) explanations.now) }
    ensures differs { let t = task.now in OnOk result (shown.new.differs ≡ (shown.old.differs
        || list_any (option_is_other t.retraced.now (option_copied t.response)) explanations.now)) }
{
    for explanation in explanations {
        put_one(alloc, shown, task, explanation)?;
    }
    Ok(())
}

fn put_one(
    alloc: Global,
    shown: &mut Shown,
    task: &Task<'_, '_>,
    explanation: &Option<Explanation>,
) -> Result<(), Memory>
    ensures text { let t = task.now in OnOk result (shown.new.text.items ≡ shown.old.text.items
        ++ option_text t.manner t.retraced.now (option_copied t.response) explanation.now) }
    ensures differs { let t = task.now in OnOk result (shown.new.differs ≡ (shown.old.differs
        || option_is_other t.retraced.now (option_copied t.response) explanation.now)) }
{
    let Some(explanation) = explanation else {
        return Ok(());
    };
    let compared = task.compared(alloc, explanation.at.place)?;
    let text = task.text_of(alloc, explanation, compared)?;
    Ok(shown.put(&text, compared)?)
}

impl Task<'_, '_> {
    // What the response file has at a place.
    fn compared(&self, alloc: Global, place: u64) -> Result<Option<Compared>, Memory>
        ensures { IfOk result (λ compared.
            compared ≡ compared_in self.now.retraced.now (option_copied self.now.response) place) }
    {
        match self.response {
            None => Ok(None),
            Some(file) => Ok(Some(self.retraced.compare(alloc, file, place)?)),
        }
    }

    // A record whose header is rejected.
    fn rejected_text(
        &self,
        alloc: Global,
        place: u64,
        rejected: &Rejected,
        compared: Option<Compared>,
    ) -> Result<Vec<u8>, Memory>
        ensures { IfOk result (λ text.
            text.items ≡ rejected_text self.now.manner self.now.retraced.now place rejected.now compared) }
    {
        let request = request_at(&self.retraced.details, place);
        let figures = &self.retraced.figures;
        match self.manner {
            Manner::Json => rejection_json(alloc, place, rejected, request, compared),
            Manner::Words | Manner::Full => {
                rejection_text(alloc, figures, place, rejected, request, compared)
            }
        }
    }

    // A transaction with its explanation.
    fn text_of(
        &self,
        alloc: Global,
        explanation: &Explanation,
        compared: Option<Compared>,
    ) -> Result<Vec<u8>, Memory>
        ensures { IfOk result (λ text.
            text.items ≡ one_text self.now.manner self.now.retraced.now explanation.now compared) }
    {
        let request = request_at(&self.retraced.details, explanation.at.place);
        let tier = self.retraced.tiers.of(&explanation.transaction);
        let cited = Cited { request, tier };
        let (lot, figures) = (self.retraced.lot, &self.retraced.figures);
        let listing = match self.manner {
            Manner::Json => {
                return explanation_json(alloc, lot, figures, explanation, cited, compared);
            }
            Manner::Words => Listing::Largest,
            Manner::Full => Listing::All,
        };
        explanation_text(alloc, lot, figures, explanation, cited, compared, listing)
    }
}
