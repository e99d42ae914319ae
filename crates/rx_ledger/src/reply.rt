ghost use Rattle.std.specs.Prelude.{◌≡◌, ◌≤◌, length, true, IfOk, OnOk};
ghost use Rattle.std.specs.List.{All};
ghost use Rattle.rx_fields.specs.declared.limits.TheConstants.{MOST_DETAILS};
ghost use Rattle.rx_d0_values.specs.Listed.{is_few};
ghost use Rattle.rx_ledger.specs.Basis.{HasPeriod, Holds, HoldsRecord};
ghost use Rattle.rx_ledger.specs.Fold.{answers_from, ledger_after, ledger_from, reply_to};
ghost use Rattle.rx_ledger.specs.Named.{key_in};
ghost use Rattle.rx_ledger.specs.TermList.{plan_of};

use crate::basis::Basis;
use crate::occasion::Occasion;
use crate::step::adjudicate;
use crate::terms::Terms;
use rx_d0_values::{Answer, Answers, Body, Heard, Outcome, Reply, Transmission};
use rx_fields::Memory;
use std::alloc::Global;

/// The reply to the record at a place of the terms' lot; what it is adjudicated on then holds the ledger after the
/// record (docs/GUARANTEES.md, "Record and fold"). It has to hold what the record asks for, and answers for as much
/// afterwards. Without memory, nothing is promised of it.
pub fn answer_record<S: Basis>(
    alloc: Global,
    basis: &mut S,
    terms: &Terms,
    place: u64,
    transmission: &Transmission,
) -> Result<Reply, Memory>
    requires place { place ≤ MOST_DETAILS }
    requires period { HasPeriod (S.scope basis.old).period terms.now.figures.period }
    requires held { HoldsRecord (S.scope basis.old) (S.ledger basis.old) transmission.now.body }
    ensures value { IfOk result (λ reply.
        reply ≡ reply_to terms.now.lot (plan_of terms.now) place transmission.now (S.ledger basis.old)) }
    ensures after { OnOk result (S.ledger basis.new
        ≡ ledger_after terms.now.lot (plan_of terms.now) place transmission.now (S.ledger basis.old)) }
    ensures scope { OnOk result (S.scope basis.new ≡ S.scope basis.old) }
{
    let outcome = match &transmission.body {
        Body::Rejected(rejected) => Outcome::Rejected(*rejected),
        Body::Heard(heard) => Outcome::Heard(answers(alloc, basis, terms, place, heard)?),
    };
    Ok(Reply {
        echo: transmission.echo,
        outcome,
    })
}

// The answers to the transactions one after another, each on the ledger after the one before.
fn answers<S: Basis>(
    alloc: Global,
    basis: &mut S,
    terms: &Terms,
    place: u64,
    heard: &Heard,
) -> Result<Answers, Memory>
    requires place { place ≤ MOST_DETAILS }
    requires period { HasPeriod (S.scope basis.old).period terms.now.figures.period }
    requires held { All (Holds (S.scope basis.old) (key_in heard.now) (S.ledger basis.old)) heard.now.list }
    ensures value { IfOk result (λ answers. answers
        ≡ answers_from terms.now.lot (plan_of terms.now) place heard.now 1 heard.now.list (S.ledger basis.old)) }
    ensures after { OnOk result (S.ledger basis.new
        ≡ ledger_from terms.now.lot (plan_of terms.now) place heard.now 1 heard.now.list (S.ledger basis.old)) }
    ensures scope { OnOk result (S.scope basis.new ≡ S.scope basis.old) }
{
    let list = heard.list.as_slice();
    let mut answers: Vec<Answer> = Vec::with_capacity(alloc, list.len())?;
    for (at, transaction) in list.iter().enumerate() {
        let occasion = Occasion::new(terms.lot(), terms.figures(), place, heard, at as u64 + 1);
        answers.push(adjudicate(basis, &occasion, terms, transaction)?)?;
    }
    Ok(answers_of(answers))
}

// The answers, which are 1 to 4.
fn answers_of(items: Vec<Answer>) -> Answers
    requires { is_few (length items.items) ≡ true }
    ensures { result ≡ items.items }
{
    match Answers::new(items) {
        Ok(answers) => answers,
        Err(_) => unreachable!(),
    }
}
