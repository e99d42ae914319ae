ghost use Rattle.std.specs.Prelude.{◌≡◌};

use crate::day::Day;
use std::marker::Model;

/// The batch number and the creation date of a batch header (docs/RULES.md, "Words").
#[derive(Clone, Copy, PartialEq, Eq)]
pub struct Lot {
    number: u32,
    created: Day,
}

impl Model for Lot {
    ghost use Rattle.std.specs.Prelude.{◌<◌};
    ghost use Rattle.rx_fields.specs.Numbered.{LotParts};

    ghost Value = { LotParts };

    ghost view = { λ l. record { number = l.number; created = l.created } };

    ghost invariant = { λ l. l.number < 10_000_000 };

    ghost inverse = { λ p. record { number = p.number; created = p.created } };
}

ghost use Rattle.std.specs.Prelude.{◌<◌};
ghost use Rattle.rx_fields.specs.Numbered.{lot_of};

impl Lot {
    /// The lot of a batch number and a creation date; None where the number is above 9,999,999.
    pub fn new(number: u32, created: Day) -> Option<Lot>
        ensures { result ≡ lot_of number created }
    {
        if number >= 10_000_000 {
            return None;
        }
        Some(Lot { number, created })
    }

    /// The batch number, at most 9,999,999.
    pub fn number(&self) -> u32
        ensures value { result ≡ self.now.number }
        ensures within { result < 10_000_000 }
    {
        self.number
    }

    /// The creation date.
    pub fn created(&self) -> Day
        ensures { result ≡ self.now.created }
    {
        self.created
    }
}
