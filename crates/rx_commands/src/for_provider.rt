ghost use Rattle.std.specs.Prelude.{◌≡◌, IfErr, IfOk, List, ℕ};
ghost use Rattle.std.specs.List.{AllZip};
ghost use Rattle.std.specs.Option.{option_copied};
ghost use Rattle.rx_commands.specs.Explaining.{IsNotExplained};
ghost use Rattle.rx_commands.specs.ForProvider.{IsSeenBy, IsSeenRetraced, IsWorded, PrintsFor, PrintsSeen, is_id_of, is_own_in};
ghost use Rattle.rx_commands.specs.ForProvider.{own_asked};
ghost use Rattle.rx_fields.specs.Text.{id_of};
ghost use Rattle.rx_ledger.specs.Members.{is_same};

use crate::explain_fault::ExplainFault;
use crate::explanations::{place_asked, printed_beside};
use crate::manner::Manner;
use crate::printed::{Outcome, Printed};
use crate::retraced::{Retraced, retrace};
use rx_d0_values::Transmission;
use rx_explain::{At, Explanation, Query, item};
use rx_explain_text::absent_for_text;
use rx_fields::{Memory, Provider};
use rx_io::Inputs;
use std::alloc::Global;
use std::thread::Threads;

/// What `explain` prints for a pharmacy: only its own transactions, and of these what it may see. Of other pharmacies' claims
/// there are dates and amounts, and no names, products or prescriptions. It starts no thread.
///
/// It ends as `explain` does; with NotFound where no transaction of the pharmacy, and no rejected header that names it, is what is
/// asked for. Then the line names that and the pharmacy, and nothing of others.
///
/// # Errors
///
/// As `explain`.
pub fn explain_for<R: Threads + Sync>(
    rt: &R,
    alloc: Global,
    inputs: &Inputs<&[u8]>,
    query: &Query,
    provider: &Provider,
    response: Option<&[u8]>,
    manner: Manner,
) -> Result<Printed, ExplainFault>
    ensures printed { let given = inputs.now in IfOk result (PrintsFor given.sheet.now given.books.now given.batch.now
        provider.now query.now (option_copied response.entry) manner) }
    ensures refused { let given = inputs.now in IfErr result (IsNotExplained given.sheet.now given.books.now given.batch.now
        (option_copied response.entry)) }
{
    let retraced = retrace(rt, alloc, inputs, query)?;
    printed_for(alloc, retraced, query, provider, response, manner)
}

// The same of a batch that was replayed.
fn printed_for(
    alloc: Global,
    retraced: Retraced,
    query: &Query,
    provider: &Provider,
    response: Option<&[u8]>,
    manner: Manner,
) -> Result<Printed, ExplainFault>
    ensures printed { IfOk result (PrintsSeen retraced provider.now query.now (option_copied response.entry) manner) }
    ensures refused { (sheet books batch : List ℕ)
        → IfErr result (IsNotExplained sheet books batch (option_copied response.entry)) }
{
    let seen = seen_by(alloc, retraced, query, provider)?;
    let whole = printed_beside(alloc, &seen, query, response, manner);
    drop(seen);
    let whole = whole?;
    let printed = worded(alloc, whole, query, provider)?;
    Ok(printed)
}

// Where nothing is found, a line that names the pharmacy.
fn worded(
    alloc: Global,
    whole: Printed,
    query: &Query,
    provider: &Provider,
) -> Result<Printed, Memory>
    ensures { IfOk result (IsWorded provider.now query.now whole) }
{
    let Printed { text, outcome } = whole;
    match outcome {
        Outcome::NotFound => {
            drop(text);
            let text = absent_for_text(alloc, query, provider)?;
            Ok(Printed { text, outcome })
        }
        Outcome::Done | Outcome::Differs => Ok(Printed { text, outcome }),
    }
}

// The batch, as far as the pharmacy may see it.
fn seen_by(
    alloc: Global,
    retraced: Retraced,
    query: &Query,
    provider: &Provider,
) -> Result<Retraced, Memory>
    ensures { IfOk result (IsSeenRetraced provider.now query.now retraced) }
{
    let Ok(explanations) = seen_each(alloc, &retraced.explanations, provider) else {
        drop(retraced);
        return Err(Memory);
    };
    let Retraced {
        lot,
        figures,
        tiers,
        details,
        asked,
        replies,
        explanations: _,
        near: _,
    } = retraced;
    let asked = own_asked(alloc, asked, place_asked(query), provider);
    Ok(Retraced {
        lot,
        figures,
        tiers,
        details,
        asked,
        replies,
        explanations,
        near: Vec::new(alloc),
    })
}

// Each explanation, as the pharmacy may see it.
fn seen_each(
    alloc: Global,
    explanations: &[Option<Explanation>],
    provider: &Provider,
) -> Result<Vec<Option<Explanation>>, Memory>
    ensures { IfOk result (λ all. AllZip (IsSeenBy provider.now) explanations.now all.items) }
{
    let mut all = Vec::with_capacity(alloc, explanations.len())?;
    for explanation in explanations {
        let seen = seen_one(alloc, explanation, provider)?;
        all.push(seen)?;
    }
    Ok(all)
}

// Of an own transaction what the pharmacy may see, of another's nothing.
fn seen_one(
    alloc: Global,
    explanation: &Option<Explanation>,
    provider: &Provider,
) -> Result<Option<Explanation>, Memory>
    ensures { IfOk result (IsSeenBy provider.now explanation.now) }
{
    let Some(explanation) = explanation else {
        return Ok(None);
    };
    if !is_same(&explanation.provider, provider) {
        return Ok(None);
    }
    let seen = explanation.seen(alloc)?;
    Ok(Some(seen))
}

// The records, where the one at the place that is asked for is the pharmacy's, or no place is asked for; else none.
fn own_asked(
    alloc: Global,
    asked: Vec<Transmission>,
    at: Option<At>,
    provider: &Provider,
) -> Vec<Transmission>
    ensures { result.items ≡ own_asked provider.now at asked.items }
{
    match at {
        Some(at) if !is_own_in(item(&asked, at.place), provider) => Vec::new(alloc),
        _ => asked,
    }
}

// Whether a record's header names the pharmacy.
fn is_own_in(found: Option<&Transmission>, provider: &Provider) -> bool
    ensures { result ≡ is_own_in provider.now (option_copied found.entry) }
{
    match found {
        Some(transmission) => names(&transmission.echo.parts().provider, provider),
        None => false,
    }
}

fn names(field: &[u8; 15], provider: &Provider) -> bool
    ensures { result ≡ is_id_of provider.now (id_of 15 field.now) }
{
    match Provider::new(field) {
        Ok(named) => is_same(&named, provider),
        Err(_) => false,
    }
}

#[tactic(auto, using(rx_ledger::proofs::SameText::same_text))]
fn is_same(a: &Provider, b: &Provider) -> bool
    ensures { result ≡ is_same a.now b.now }
{
    a == b
}
