ghost use Rattle.std.specs.Prelude.{◌≡◌};

use std::marker::Model;

/// A days supply: 1 to 999, kept in two bytes.
#[derive(Clone, Copy, PartialEq, Eq, PartialOrd, Ord)]
pub struct Days {
    number: u16,
}

impl Model for Days {
    ghost use Rattle.std.specs.Prelude.{ℕ, ◌≤◌};

    ghost Value = { ℕ };

    ghost view = { λ b. b.number };

    ghost invariant = { λ b. (1 ≤ b.number) × (b.number ≤ 999) };

    ghost inverse = { λ n. record { number = n } };
}

ghost use Rattle.std.specs.Prelude.{◌≤◌};
ghost use Rattle.rx_fields.specs.Bounds.{bounded};

impl Days {
    /// The days of a number; None where it is 0 or above 999.
    pub fn new(number: u64) -> Option<Days>
        ensures { result ≡ bounded 1 999 number }
    {
        if number < 1 || number > 999 {
            return None;
        }
        Some(Days {
            number: number as u16,
        })
    }

    /// The number.
    pub fn get(&self) -> u64
        ensures value { result ≡ self.now }
        ensures low { 1 ≤ result }
        ensures high { result ≤ 999 }
    {
        u64::from(self.number)
    }
}
