ghost use Rattle.std.specs.Prelude.{◌≡◌};
ghost use Rattle.rx_ledger.specs.Answers.{answer_by, answer_to, refused, unread};
ghost use Rattle.rx_ledger.specs.Decisions.{row_of};

use crate::drug::Drug;
use crate::member::Member;
use crate::row::Row;
use crate::share::Used;
use rx_d0_values::{Answer, Approved, Codes, Faulty, Paid, Pricing, Refused, Transaction};
use rx_fields::{Authorization, Cents, Code, Reference};

/// What a billing is paid by.
#[derive(Clone, Copy, PartialEq, Eq)]
pub struct Payment {
    /// What the plan says of the product.
    pub drug: Drug,
    /// What was used of the plan's figures before, in cents.
    pub used: Used,
    /// The amounts paid.
    pub pricing: Pricing,
}

/// The decision on a transaction: the first row of the tables of adjudication that holds, with what it needs
/// (docs/RULES.md, "Rules of adjudication"). The variants stand in the order of the rows.
#[derive(Clone, Copy, PartialEq, Eq)]
pub enum Decision {
    /// R 52: the family has no member.
    NoFamily,
    /// R 53: the family has no such person.
    NoPerson,
    /// D: this same claim stands under the fill key.
    SameStands(Row),
    /// R 83: this other claim stands under the fill key.
    OtherStands(Row),
    /// R 81: the date of service is before the period.
    BeforePeriod,
    /// R 82: the date of service is after the lot's creation date.
    AfterCreation,
    /// R 65: the date of service is outside this member's coverage, or after the period.
    NotCovered(Member),
    /// R 70: the product isn't in the sheet.
    NotListed,
    /// R 76: the days supply is above the plan's limit.
    TooManyDays,
    /// R 79: too few days of a fill of the member's with the product have passed.
    TooSoon,
    /// P: the claim is paid.
    Payable(Payment),
    /// R 87: no claim stands under the fill key of a reversal.
    NoneStands,
    /// R 87: the claim under the fill key of a reversal is of another product.
    OtherProduct(Row),
    /// A: this claim is taken back.
    TakenBack(Row),
    /// R: the transaction could not be read.
    Unread(Faulty),
}

impl Decision {
    /// The answer to a transaction with an authorization number of its own and a prescription reference number.
    pub fn answer(&self, number: Authorization, reference: Reference) -> Answer
        ensures { result ≡ answer_by number reference self.now }
    {
        match self {
            Decision::NoFamily => refused(Code::UnknownCardholder, reference),
            Decision::NoPerson => refused(Code::Person, reference),
            Decision::SameStands(row) => Answer::Twice(Paid {
                number: row.number,
                reference,
                pricing: row.pricing,
            }),
            Decision::OtherStands(_) => refused(Code::DuplicatePaid, reference),
            Decision::BeforePeriod => refused(Code::TooOld, reference),
            Decision::AfterCreation => refused(Code::PostDated, reference),
            Decision::NotCovered(_) => refused(Code::NotCovered, reference),
            Decision::NotListed => refused(Code::ProductNotCovered, reference),
            Decision::TooManyDays => refused(Code::PlanLimits, reference),
            Decision::TooSoon => refused(Code::RefillTooSoon, reference),
            Decision::Payable(payment) => Answer::Paid(Paid {
                number,
                reference,
                pricing: payment.pricing,
            }),
            Decision::NoneStands | Decision::OtherProduct(_) => {
                refused(Code::ReversalNotProcessed, reference)
            }
            Decision::TakenBack(row) => Answer::Approved(Approved {
                number,
                reference,
                total_paid: Cents::new(row.pricing.total_paid()).unwrap(),
            }),
            Decision::Unread(faulty) => unread(faulty),
        }
    }

    /// The answer to a transaction with an authorization number of its own; one that could not be read is answered
    /// with its own codes and reference.
    pub fn answer_to(&self, number: Authorization, transaction: &Transaction) -> Answer
        ensures { result ≡ answer_to number transaction.now self.now }
    {
        match transaction {
            Transaction::Bill(bill) => self.answer(number, bill.parts().reference),
            Transaction::Reverse(reversal) => self.answer(number, reversal.reference),
            Transaction::Faulty(faulty) => unread(faulty),
        }
    }

    /// The standing claim that the decision names. A fill that makes a billing too soon isn't named.
    pub fn row(&self) -> Option<Row>
        ensures { result ≡ row_of self.now }
    {
        match self {
            Decision::SameStands(row)
            | Decision::OtherStands(row)
            | Decision::OtherProduct(row)
            | Decision::TakenBack(row) => Some(*row),
            _ => None,
        }
    }
}

fn refused(code: Code, reference: Reference) -> Answer
    ensures { result ≡ refused code reference }
{
    Answer::Refused(Refused {
        codes: Codes::one(code),
        reference: Some(reference),
    })
}

fn unread(faulty: &Faulty) -> Answer
    ensures { result ≡ unread faulty.now }
{
    Answer::Refused(Refused {
        codes: faulty.codes,
        reference: faulty.reference,
    })
}
