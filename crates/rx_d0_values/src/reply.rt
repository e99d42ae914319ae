ghost use Rattle.std.specs.Prelude.{◌≡◌};

use crate::codes::Codes;
use crate::echo::Echo;
use crate::pricing::Pricing;
use crate::transmission::Rejected;
use rx_fields::{Authorization, Cents, Reference};
use std::marker::Model;

/// A claim that is paid, now or before.
#[derive(Clone, Copy, PartialEq, Eq)]
pub struct Paid {
    /// The authorization number (503-F3).
    pub number: Authorization,
    /// The prescription reference number (402-D2).
    pub reference: Reference,
    /// The amounts.
    pub pricing: Pricing,
}

/// A claim that is taken back.
#[derive(Clone, Copy, PartialEq, Eq)]
pub struct Approved {
    /// The reversal's authorization number (503-F3).
    pub number: Authorization,
    /// The prescription reference number (402-D2).
    pub reference: Reference,
    /// The total that was paid for the claim (509-F9); the reply's text has it with the sign changed.
    pub total_paid: Cents,
}

/// A transaction that is rejected.
#[derive(Clone, Copy, PartialEq, Eq)]
pub struct Refused {
    /// Why.
    pub codes: Codes,
    /// The prescription reference number, where it is known.
    pub reference: Option<Reference>,
}

/// The answer to one transaction.
#[derive(Clone, Copy, PartialEq, Eq)]
pub enum Answer {
    /// Status P: the claim stands from now on.
    Paid(Paid),
    /// Status D: the same claim stands already, with these amounts.
    Twice(Paid),
    /// Status A: the claim is taken back.
    Approved(Approved),
    /// Status R.
    Refused(Refused),
}

/// The answers of a reply: 1 to 4.
#[derive(Drop)]
pub struct Answers {
    items: Vec<Answer>,
}

impl Model for Answers {
    ghost use Rattle.std.specs.Prelude.{List, length, ◌≡◌, true};
    ghost use Rattle.rx_d0_values.specs.declared.reply.Answer.{Answer};
    ghost use Rattle.rx_d0_values.specs.Listed.{is_few};

    ghost Value = { List Answer };

    ghost view = { λ a. a.items.items };

    ghost invariant = { λ a. is_few (length a.items.items) ≡ true };
}

/// What follows the echo of a reply.
#[derive(Drop)]
pub enum Outcome {
    /// The header is rejected: each answer has these codes.
    Rejected(Rejected),
    /// An answer to each transaction.
    Heard(Answers),
}

/// The reply to a transmission.
#[derive(Drop)]
pub struct Reply {
    /// What it repeats of the request.
    pub echo: Echo,
    /// What is answered.
    pub outcome: Outcome,
}

ghost use Rattle.std.specs.Prelude.{◌↔◌, IfOk, IfErr, IsOk, IsTrue, length, true};
ghost use Rattle.rx_d0_values.specs.Listed.{is_few};

impl Answers {
    /// These answers; they come back where they are not 1 to 4.
    pub fn new(items: Vec<Answer>) -> Result<Answers, Vec<Answer>>
        ensures ok { IfOk result (λ answers. answers ≡ items.items) }
        ensures err { IfErr result (λ back. back ≡ items) }
        ensures accepts { IsOk result ↔ (is_few (length items.items) ≡ true) }
    {
        if items.is_empty() || items.len() > 4 {
            return Err(items);
        }
        Ok(Answers { items })
    }

    /// The answers, in the order of the transactions.
    pub fn as_slice(&self) -> &[Answer]
        ensures value { result.now ≡ self.now }
        ensures within { is_few (length self.now) ≡ true }
    {
        self.items.as_slice()
    }
}

ghost use Rattle.rx_d0_values.specs.contracts.reply.Answers.{the_row as answers_row};
ghost use Rattle.rx_d0_values.specs.contracts.reply.Outcome.{the_row as outcome_row};
ghost use Rattle.rx_d0_values.specs.contracts.reply.Reply.{the_row as reply_row};
ghost use Rattle.rx_d0_values.specs.Same.{same, same_laws, same_equivalence};

impl PartialEq for Answers {
    ghost eq = { same answers_row.coded };

    ghost laws = { same_laws answers_row.coded };

    #[tactic(auto, using(crate::proofs::Decided::answers_decides))]
    fn eq(&self, other: &Answers) -> bool
        ensures { IsTrue result ↔ (self.now ≡ other.now) }
    {
        self.as_slice() == other.as_slice()
    }
}

impl Eq for Answers {
    ghost laws = { same_equivalence answers_row.coded };
}

impl PartialEq for Outcome {
    ghost eq = { same outcome_row.coded };

    ghost laws = { same_laws outcome_row.coded };

    #[tactic(auto, using(crate::proofs::Decided::rejected_decides))]
    fn eq(&self, other: &Outcome) -> bool
        ensures { IsTrue result ↔ (self.now ≡ other.now) }
    {
        match (self, other) {
            (Outcome::Rejected(a), Outcome::Rejected(b)) => *a == *b,
            (Outcome::Heard(a), Outcome::Heard(b)) => *a == *b,
            _ => false,
        }
    }
}

impl Eq for Outcome {
    ghost laws = { same_equivalence outcome_row.coded };
}

impl PartialEq for Reply {
    ghost eq = { same reply_row.coded };

    ghost laws = { same_laws reply_row.coded };

    fn eq(&self, other: &Reply) -> bool
        ensures { IsTrue result ↔ (self.now ≡ other.now) }
    {
        self.echo == other.echo && self.outcome == other.outcome
    }
}

impl Eq for Reply {
    ghost laws = { same_equivalence reply_row.coded };
}
