ghost use Rattle.std.specs.Prelude.{◌≡◌};

use rx_fields::Code;
use std::marker::Model;

/// The reject codes of one answer: 1 to 5 of them, in the order in which they were found.
#[derive(Clone, Copy, PartialEq, Eq)]
pub struct Codes {
    codes: [Code; 5],
    len: u8,
}

impl Model for Codes {
    ghost use Rattle.std.specs.Prelude.{List, take};
    ghost use Rattle.rx_fields.specs.declared.code.Code.{Code};
    ghost use Rattle.rx_d0_values.specs.CodeList.{IsFilled};

    ghost Value = { List Code };

    ghost view = { λ a. take a.len a.codes };

    ghost invariant = { λ a. IsFilled a.len a.codes };

    ghost use Rattle.rx_d0_values.specs.Filled.{filled_codes, filled_back};

    ghost inverse = { filled_codes };

    ghost inverse_ok = { filled_back };
}

ghost use Rattle.std.specs.Prelude.{◌≤◌, ◌-◌, ◌++◌, length, replicate, ◌∷◌, []};
ghost use Rattle.rx_d0_values.specs.CodeList.{codes_of};

impl Codes {
    /// These codes; None if there are none, or more than five.
    pub fn new(codes: &[Code]) -> Option<Codes>
        ensures { result ≡ codes_of codes.now }
    {
        if codes.is_empty() || codes.len() > 5 {
            return None;
        }
        Some(Codes {
            codes: filled(codes),
            len: codes.len() as u8,
        })
    }

    /// The one code.
    pub fn one(code: Code) -> Codes
        ensures { result ≡ code ∷ [] }
    {
        Codes {
            codes: [code, Code::Bin, Code::Bin, Code::Bin, Code::Bin],
            len: 1,
        }
    }

    /// The codes, in their order.
    pub fn as_slice(&self) -> &[Code]
        ensures value { result.now ≡ self.now }
        ensures some { 1 ≤ length self.now }
        ensures few { length self.now ≤ 5 }
    {
        &self.codes[..self.len as usize]
    }
}

// The codes, and the first of all codes up to five.
fn filled(codes: &[Code]) -> [Code; 5]
    requires { length codes.now ≤ 5 }
    ensures { result ≡ codes.now ++ replicate (5 - length codes.now) Code.Bin }
{
    let mut filled = [Code::Bin; 5];
    filled[..codes.len()].copy_from_slice(codes);
    filled
}
