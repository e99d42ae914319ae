ghost use Rattle.std.specs.Prelude.{◌≡◌, ◌+◌, ◌<◌, ◌≤◌, IfOk, OnOk, length, map, true};
ghost use Rattle.std.specs.List.{All};
ghost use Rattle.rx_d0_values.specs.Listed.{is_few};
ghost use Rattle.rx_commands.specs.Courses.{IsCourse, IsHeardOf};
ghost use Rattle.rx_commands.specs.Records.{AreDecided, AreOf};
ghost use Rattle.rx_explain.specs.Around.{AreTermsFor, HasRows};
ghost use Rattle.rx_fields.specs.declared.limits.TheConstants.{MOST_DETAILS};
ghost use Rattle.rx_serial.specs.Underway.{scope_of};
ghost use Rattle.rx_ledger.specs.Basis.{HasPeriod};
ghost use Rattle.rx_ledger.specs.Fold.{answers_from, ledger_from};

use crate::replay::batch::Batch;
use crate::replay::course::{Course, go_on};
use rx_d0_values::{Answers, Body, Heard, Outcome, Reply, Transaction};
use rx_explain::{At, Facts, Subject, explain_next};
use rx_fields::{Lot, Memory};
use rx_ledger::{Row, Sheet, Terms};
use rx_serial::InOrder;
use std::alloc::Global;

/// The next record, done, and what decided each of its transactions.
pub(crate) fn explain_record(
    alloc: Global,
    batch: &Batch<'_>,
    course: &mut Course,
) -> Result<Vec<Facts>, Memory>
    requires ahead { course.old.done < length batch.now.asked.now }
    requires course { IsCourse batch.now course.old }
    ensures course { OnOk result (IsCourse batch.now course.new) }
    ensures done { OnOk result (course.new.done ≡ course.old.done + 1) }
    ensures explained { IfOk result (λ xs. AreDecided batch.now (course.old.done + 1) xs.items) }
{
    let transmission = &batch.asked[course.done];
    let Body::Heard(heard) = &transmission.body else {
        go_on(alloc, batch, course)?;
        return Ok(Vec::new(alloc));
    };
    let place = course.done as u64 + 1;
    let terms = batch.sheet.terms(batch.lot, transmission);
    let order = &mut course.order;
    let facts = explain_heard(alloc, batch.lot, batch.sheet, &terms, order, place, heard)?;
    course.replies.push(Reply {
        echo: transmission.echo,
        outcome: Outcome::Heard(answers_in(alloc, &facts)?),
    })?;
    course.done += 1;
    Ok(facts)
}

// The transactions of a record adjudicated one after another, each with what decided it.
fn explain_heard(
    alloc: Global,
    lot: Lot,
    sheet: &Sheet,
    terms: &Terms,
    order: &mut InOrder,
    place: u64,
    heard: &Heard,
) -> Result<Vec<Facts>, Memory>
    requires place { place ≤ MOST_DETAILS }
    requires awaited { IsHeardOf order.old heard.now }
    requires terms { All (λ t. AreTermsFor sheet.now t terms.now) heard.now.list }
    requires period { HasPeriod (scope_of order.old).period terms.now.figures.period }
    ensures explained { IfOk result (λ xs. AreOf lot sheet.now place heard.now order.old.books.ledger xs.items) }
    ensures few { IfOk result (λ xs. is_few (length xs.items) ≡ true) }
    ensures answers { IfOk result (λ xs. map (λ x. x.answer) xs.items
        ≡ answers_from lot sheet.now place heard.now 1 heard.now.list order.old.books.ledger) }
    ensures after { OnOk result (order.new.books.ledger
        ≡ ledger_from lot sheet.now place heard.now 1 heard.now.list order.old.books.ledger) }
    ensures scope { OnOk result (scope_of order.new ≡ scope_of order.old) }
{
    let list = heard.list.as_slice();
    let mut facts = Vec::with_capacity(alloc, list.len())?;
    for (before, transaction) in list.iter().enumerate() {
        let nth = before as u64 + 1;
        let rows = rows_for(alloc, order, transaction)?;
        let subject = Subject {
            lot,
            sheet,
            terms,
            at: At { place, nth },
            heard,
            transaction,
        };
        facts.push(explain_next(alloc, &subject, order, &rows)?)?;
    }
    Ok(facts)
}

// The claims among which a transaction is explained: those of a billing's family.
fn rows_for(alloc: Global, order: &InOrder, transaction: &Transaction) -> Result<Vec<Row>, Memory>
    ensures { IfOk result (λ rows. HasRows order.now.books.ledger rows.items transaction.now) }
{
    match transaction {
        Transaction::Bill(bill) => order.rows_of(alloc, &bill.parts().family),
        Transaction::Reverse(_) | Transaction::Faulty(_) => Ok(Vec::new(alloc)),
    }
}

// The answers that were decided.
fn answers_in(alloc: Global, facts: &[Facts]) -> Result<Answers, Memory>
    requires { is_few (length facts.now) ≡ true }
    ensures { IfOk result (λ answers. answers ≡ map (λ x. x.answer) facts.now) }
{
    let mut answers = Vec::with_capacity(alloc, facts.len())?;
    for decided in facts {
        answers.push(decided.answer)?;
    }
    match Answers::new(answers) {
        Ok(answers) => Ok(answers),
        Err(_) => unreachable!(),
    }
}
