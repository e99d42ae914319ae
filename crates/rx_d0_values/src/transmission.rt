ghost use Rattle.std.specs.Prelude.{◌≡◌, ◌↔◌, IfOk, IsTrue};
ghost use Rattle.rx_d0_values.specs.Keys.{key_in};

use crate::codes::Codes;
use crate::echo::Echo;
use crate::transaction::Transactions;
use rx_fields::{Count, Day, Key, Memory, Provider, Reference};
use std::alloc::Global;

/// A header that could not be accepted.
#[derive(Clone, Copy, PartialEq, Eq)]
pub struct Rejected {
    /// Why.
    pub codes: Codes,
    /// How many answers the reply has: the groups that came, at least 1 and at most 4.
    pub groups: Count,
}

/// A header that was accepted, with its transactions.
#[derive(Drop)]
pub struct Heard {
    /// The pharmacy (201-B1).
    pub provider: Provider,
    /// The date of service (401-D1).
    pub date: Day,
    /// What it asks.
    pub list: Transactions,
}

/// What follows the echo of a transmission.
#[derive(Drop)]
pub enum Body {
    /// The header is rejected, and with it all transactions.
    Rejected(Rejected),
    /// The header is accepted.
    Heard(Heard),
}

/// A decoded request.
#[derive(Drop)]
pub struct Transmission {
    /// What the reply repeats.
    pub echo: Echo,
    /// What is asked.
    pub body: Body,
}

impl Heard {
    /// The fill key of a prescription reference number.
    pub fn key(&self, reference: Reference) -> Key
        ensures { result ≡ key_in self.now reference }
    {
        Key {
            provider: self.provider,
            reference,
            date: self.date,
        }
    }

    fn copy(&self, alloc: Global) -> Result<Heard, Memory>
        ensures { IfOk result (λ heard. heard ≡ self.now) }
    {
        let list = self.list.copy(alloc)?;
        Ok(Heard {
            provider: self.provider,
            date: self.date,
            list,
        })
    }
}

impl Body {
    fn copy(&self, alloc: Global) -> Result<Body, Memory>
        ensures { IfOk result (λ body. body ≡ self.now) }
    {
        match self {
            Body::Rejected(rejected) => Ok(Body::Rejected(*rejected)),
            Body::Heard(heard) => Ok(Body::Heard(heard.copy(alloc)?)),
        }
    }
}

impl Transmission {
    /// An equal transmission.
    pub fn copy(&self, alloc: Global) -> Result<Transmission, Memory>
        ensures { IfOk result (λ transmission. transmission ≡ self.now) }
    {
        let body = self.body.copy(alloc)?;
        Ok(Transmission {
            echo: self.echo,
            body,
        })
    }
}

ghost use Rattle.rx_d0_values.specs.contracts.transmission.Heard.{the_row as heard_row};
ghost use Rattle.rx_d0_values.specs.contracts.transmission.Body.{the_row as body_row};
ghost use Rattle.rx_d0_values.specs.contracts.transmission.Transmission.{the_row as transmission_row};
ghost use Rattle.rx_d0_values.specs.Same.{same, same_laws, same_equivalence};

impl PartialEq for Heard {
    ghost eq = { same heard_row.coded };

    ghost laws = { same_laws heard_row.coded };

    fn eq(&self, other: &Heard) -> bool
        ensures { IsTrue result ↔ (self.now ≡ other.now) }
    {
        self.provider == other.provider && self.date == other.date && self.list == other.list
    }
}

impl Eq for Heard {
    ghost laws = { same_equivalence heard_row.coded };
}

impl PartialEq for Body {
    ghost eq = { same body_row.coded };

    ghost laws = { same_laws body_row.coded };

    #[tactic(auto, using(crate::proofs::Decided::rejected_decides))]
    fn eq(&self, other: &Body) -> bool
        ensures { IsTrue result ↔ (self.now ≡ other.now) }
    {
        match (self, other) {
            (Body::Rejected(a), Body::Rejected(b)) => *a == *b,
            (Body::Heard(a), Body::Heard(b)) => *a == *b,
            _ => false,
        }
    }
}

impl Eq for Body {
    ghost laws = { same_equivalence body_row.coded };
}

impl PartialEq for Transmission {
    ghost eq = { same transmission_row.coded };

    ghost laws = { same_laws transmission_row.coded };

    fn eq(&self, other: &Transmission) -> bool
        ensures { IsTrue result ↔ (self.now ≡ other.now) }
    {
        self.echo == other.echo && self.body == other.body
    }
}

impl Eq for Transmission {
    ghost laws = { same_equivalence transmission_row.coded };
}
