ghost use Rattle.std.specs.Prelude.{◌≡◌};
ghost use Rattle.rx_fields.specs.declared.limits.TheConstants.{MOST_CENTS};

use crate::limits::MOST_CENTS;
use std::marker::Model;

/// An amount of money in a claim, in cents: 0 to 99,999,999, kept in four bytes.
#[derive(Clone, Copy, PartialEq, Eq, PartialOrd, Ord)]
pub struct Cents {
    number: u32,
}

impl Model for Cents {
    ghost use Rattle.std.specs.Prelude.{ℕ, ◌≤◌};
    ghost use Rattle.rx_fields.specs.declared.limits.TheConstants.{MOST_CENTS};

    ghost Value = { ℕ };

    ghost view = { λ b. b.number };

    ghost invariant = { λ b. (0 ≤ b.number) × (b.number ≤ MOST_CENTS) };

    ghost inverse = { λ n. record { number = n } };
}

ghost use Rattle.std.specs.Prelude.{◌≤◌};
ghost use Rattle.rx_fields.specs.Bounds.{bounded};

impl Cents {
    /// The cents of a number; None where it is above 99,999,999.
    pub fn new(number: u64) -> Option<Cents>
        ensures { result ≡ bounded 0 MOST_CENTS number }
    {
        if number > MOST_CENTS {
            return None;
        }
        Some(Cents {
            number: number as u32,
        })
    }

    /// The number.
    pub fn get(&self) -> u64
        ensures value { result ≡ self.now }
        ensures low { 0 ≤ result }
        ensures high { result ≤ MOST_CENTS }
    {
        u64::from(self.number)
    }
}
