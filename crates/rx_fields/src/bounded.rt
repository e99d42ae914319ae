ghost use Rattle.std.specs.Prelude.{◌≡◌};

use crate::limits::{MOST_AUTHORIZATION, MOST_QUANTITY, MOST_REFERENCE};
use std::marker::Model;

/// A number from `LOW` to `HIGH`, both included, ordered as numbers are.
#[derive(Clone, Copy, PartialEq, Eq, PartialOrd, Ord)]
pub struct Bounded<const LOW: u64, const HIGH: u64> {
    number: u64,
}

impl<const LOW: u64, const HIGH: u64> Model for Bounded<LOW, HIGH> {
    ghost use Rattle.std.specs.Prelude.{ℕ, ◌≤◌};

    ghost Value = { ℕ };

    ghost view = { λ b. b.number };

    ghost invariant = { λ b. (LOW ≤ b.number) × (b.number ≤ HIGH) };

    ghost inverse = { λ n. record { number = n } };
}

ghost use Rattle.std.specs.Prelude.{◌≤◌};
ghost use Rattle.rx_fields.specs.Bounds.{bounded};

impl<const LOW: u64, const HIGH: u64> Bounded<LOW, HIGH> {
    /// The bounded number of a number; None where it is below `LOW` or above `HIGH`.
    pub fn new(number: u64) -> Option<Bounded<LOW, HIGH>>
        ensures { result ≡ bounded LOW HIGH number }
    {
        if number < LOW || number > HIGH {
            return None;
        }
        Some(Bounded { number })
    }

    /// The number.
    pub fn get(&self) -> u64
        ensures value { result ≡ self.now }
        ensures low { LOW ≤ result }
        ensures high { result ≤ HIGH }
    {
        self.number
    }
}

/// A dispensed quantity, in thousandths of a unit: 1 to 9,999,999,999.
pub type Quantity = Bounded<1, MOST_QUANTITY>;

/// A prescription reference number: at most twelve digits.
pub type Reference = Bounded<0, MOST_REFERENCE>;

/// An authorization number: at most fifteen digits.
pub type Authorization = Bounded<0, MOST_AUTHORIZATION>;

/// How many answers a reply has: 1 to 4.
pub type Count = Bounded<1, 4>;
