ghost use Rattle.std.specs.Prelude.{◌≡◌};

use crate::digits::{digits_write, value};
use rx_text::all_digits;
use std::marker::Model;

/// A drug product: an eleven-digit National Drug Code, kept as its number and ordered as its digits are
/// (docs/FORMATS.md, "Request transmission").
#[derive(Clone, Copy, PartialEq, Eq, PartialOrd, Ord)]
pub struct Product {
    number: u64,
}

impl Model for Product {
    ghost use Rattle.std.specs.Prelude.{ℕ, ◌<◌, ◌^◌};

    ghost Value = { ℕ };

    ghost view = { λ p. p.number };

    ghost invariant = { λ p. p.number < 10 ^ 11 };

    ghost inverse = { λ n. record { number = n } };
}

ghost use Rattle.std.specs.Prelude.{Some, ◌<◌, ◌^◌};
ghost use Rattle.rx_fields.specs.Digits.{digits_text};
ghost use Rattle.rx_fields.specs.Numbered.{product_of};

impl Product {
    /// The product of eleven digits; None for any other text.
    pub fn new(bytes: &[u8]) -> Option<Product>
        ensures { result ≡ product_of bytes.now }
    {
        if bytes.len() != 11 || !all_digits(bytes) {
            return None;
        }
        Some(Product {
            number: value(bytes),
        })
    }

    /// The product's code as a number, below 10^11.
    pub fn number(&self) -> u64
        ensures value { result ≡ self.now }
        ensures within { result < 10 ^ 11 }
    {
        self.number
    }

    /// The one spelling of a product: its eleven digits.
    pub fn digits(&self) -> [u8; 11]
        ensures text { result ≡ digits_text 11 self.now }
        ensures again { product_of result ≡ Some self.now }
    {
        digits_write(self.number)
    }
}
