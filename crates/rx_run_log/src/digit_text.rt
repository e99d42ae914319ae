ghost use Rattle.std.specs.Prelude.{◌≡◌, true, IsSomeAnd};
ghost use Rattle.rx_text.specs.Bytes.{all_digits};

use std::str;

/// Digits as a text, which they always are.
#[tactic(auto, using(crate::proofs::Counts::digits_are_text))]
pub(crate) fn text_of(digits: &[u8]) -> Option<&str>
    requires { all_digits digits.now ≡ true }
    ensures { IsSomeAnd result (λ text. text.now ≡ digits.now) }
{
    match str::from_utf8(digits) {
        Ok(text) => Some(text),
        Err(_) => None,
    }
}
