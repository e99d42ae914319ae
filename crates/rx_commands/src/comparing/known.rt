//! Which answer it is: what either side knows of it, and the columns.
ghost use Rattle.std.specs.Prelude.{◌≡◌};
ghost use Rattle.rx_report.specs.Cells.{reference_of};
ghost use Rattle.rx_commands.specs.ComparedText.{known, or_known};
ghost use Rattle.rx_commands.specs.Differing.{both};

use rx_d0_values::Answer;
use rx_report::{Column, Line};

/// The columns that say which answer it is, after the record.
pub(crate) const KEYS: [Column; 7] = [
    Column::Nth,
    Column::Provider,
    Column::Prescription,
    Column::Date,
    Column::Family,
    Column::Person,
    Column::Product,
];

/// Those of what is answered.
pub(crate) const SIDE: [Column; 8] = [
    Column::Status,
    Column::Codes,
    Column::Allowed,
    Column::Deductible,
    Column::Copay,
    Column::Coinsurance,
    Column::Member,
    Column::Plan,
];

/// The same without the status.
pub(crate) const FIGURES: [Column; 7] = [
    Column::Codes,
    Column::Allowed,
    Column::Deductible,
    Column::Copay,
    Column::Coinsurance,
    Column::Member,
    Column::Plan,
];

/// A line with what either side knows of the transaction: its prescription, member and product.
#[tactic(auto, unfolding(crate::specs::ComparedText::known))]
pub(crate) fn known(given: &Line, changed: &Line) -> Line
    ensures { result ≡ known (both given.now changed.now) }
{
    let mut line = *given;
    line.member = given.member.or(changed.member);
    line.product = given.product.or(changed.product);
    line.answer = known_answer(&given.answer, &changed.answer);
    line
}

// An answer where its prescription is known, else the other.
fn known_answer(given: &Answer, changed: &Answer) -> Answer
    ensures { result ≡ or_known (reference_of given.now) given.now changed.now }
{
    match given {
        Answer::Refused(refused) => match refused.reference {
            Some(_) => *given,
            None => *changed,
        },
        Answer::Paid(_) | Answer::Twice(_) | Answer::Approved(_) => *given,
    }
}
