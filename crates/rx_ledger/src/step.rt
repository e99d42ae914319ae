ghost use Rattle.std.specs.Prelude.{◌≡◌, [], IfOk, OnOk};
ghost use Rattle.rx_ledger.specs.Answers.{after, answer, key_of};
ghost use Rattle.rx_ledger.specs.Basis.{HasPeriod, Holds};
ghost use Rattle.rx_ledger.specs.Claims.{asked_on};
ghost use Rattle.rx_ledger.specs.TermList.{drugs_in};

use crate::basis::Basis;
use crate::occasion::Occasion;
use crate::table::decide;
use crate::terms::Terms;
use rx_d0_values::{Answer, Transaction};
use rx_fields::Memory;

// Adjudicates a transaction: a paid claim stands from now on, a reversed one no longer.
pub(crate) fn adjudicate<S: Basis>(
    basis: &mut S,
    occasion: &Occasion,
    terms: &Terms,
    transaction: &Transaction,
) -> Result<Answer, Memory>
    requires figures { occasion.now.figures ≡ terms.now.figures }
    requires period { HasPeriod (S.scope basis.old).period terms.now.figures.period }
    requires held { Holds (S.scope basis.old) (key_of (asked_on occasion.now [])) (S.ledger basis.old) transaction.now }
    ensures value { let asked = asked_on occasion.now (drugs_in terms.now.places) in
        IfOk result (λ given. given ≡ answer asked (S.ledger basis.old) transaction.now) }
    ensures after { let asked = asked_on occasion.now (drugs_in terms.now.places) in
        IfOk result (λ given. S.ledger basis.new ≡ after asked (S.ledger basis.old) transaction.now given) }
    ensures scope { OnOk result (S.scope basis.new ≡ S.scope basis.old) }
{
    let decision = decide(basis, occasion, terms, transaction);
    let answer = decision.answer_to(occasion.number, transaction);
    match (transaction, &answer) {
        (Transaction::Bill(bill), Answer::Paid(paid)) => basis.add(occasion.row(bill, paid))?,
        (Transaction::Reverse(reversal), Answer::Approved(_)) => {
            basis.remove(&occasion.key(reversal.reference))?
        }
        _ => {}
    }
    Ok(answer)
}
