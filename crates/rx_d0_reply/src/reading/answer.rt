//! Reading answers.

ghost use Rattle.std.specs.Prelude.{◌≡◌, ◌≤◌, option_map, take};
ghost use Rattle.rx_d0_reply.specs.Readers.{times};
ghost use Rattle.rx_d0_reply.specs.Reading.{authorization_at, reference_at, known_at, code_at, codes_at, paid_claim_at};
ghost use Rattle.rx_d0_reply.specs.Reading.{approved_at, numbers_at, refused_at, behind_status, answer_at, group_at};

use super::amounts::{pricing_at, reversed_at};
use super::fields::{after, bytes_at, number_at};
use rx_d0_values::{Answer, Approved, Codes, Paid, Refused};
use rx_fields::{Authorization, Code, Reference};

// The label of segment 22, up to the number.
const REFERENCE: &[u8] = b"\x1E\x1CAM22\x1CEM1\x1CD2";

// The authorization number, and what follows.
#[tactic(auto, unfolding(crate::specs::Reading::authorization_at))]
fn authorization_at(bytes: &[u8]) -> Option<(Authorization, &[u8])>
    ensures { option_map (λ x. (x.0, x.1.now)) result ≡ authorization_at bytes.now }
{
    let rest = after(b"\x1CF3", bytes)?;
    number_at(15, rest)
}

// Segment 22, and what follows.
#[tactic(auto, unfolding(crate::specs::Reading::reference_at))]
fn reference_at(bytes: &[u8]) -> Option<(Reference, &[u8])>
    ensures { option_map (λ x. (x.0, x.1.now)) result ≡ reference_at bytes.now }
{
    let rest = after(REFERENCE, bytes)?;
    number_at(12, rest)
}

// Segment 22 where it follows, and what follows then.
#[tactic(auto, unfolding(crate::specs::Reading::known_at))]
fn known_at(bytes: &[u8]) -> Option<(Option<Reference>, &[u8])>
    ensures { option_map (λ x. (x.0, x.1.now)) result ≡ known_at bytes.now }
{
    let Some(rest) = after(REFERENCE, bytes) else {
        return Some((None, bytes));
    };
    let Some((reference, rest)) = number_at(12, rest) else {
        return None;
    };
    Some((Some(reference), rest))
}

#[tactic(auto, unfolding(crate::specs::Reading::code_at))]
fn code_at(bytes: &[u8]) -> Option<(Code, &[u8])>
    ensures { option_map (λ x. (x.0, x.1.now)) result ≡ code_at bytes.now }
{
    let rest = after(b"\x1CFB", bytes)?;
    let (text, rest) = bytes_at::<2>(rest)?;
    let code = Code::new(&text)?;
    Some((code, rest))
}

// That many codes at the front of five, and what follows.
fn each_code_at(count: usize, bytes: &[u8]) -> Option<([Code; 5], &[u8])>
    requires { count ≤ 5 }
    ensures { option_map (λ x. (take count x.0, x.1.now)) result ≡ times code_at count bytes.now }
{
    let mut codes = [Code::Bin; 5];
    let mut rest = bytes;
    for place in 0..count {
        let (code, more) = code_at(rest)?;
        codes[place] = code;
        rest = more;
    }
    Some((codes, rest))
}

// The codes and their count, and what follows.
#[tactic(auto, unfolding(crate::specs::Reading::codes_at))]
pub(super) fn codes_at(bytes: &[u8]) -> Option<(Codes, &[u8])>
    ensures { option_map (λ x. (x.0, x.1.now)) result ≡ codes_at bytes.now }
{
    let rest = after(b"\x1CFA", bytes)?;
    let Some((count, rest)) = number_at::<1, 5>(2, rest) else {
        return None;
    };
    let count = count.get() as usize;
    let (codes, rest) = each_code_at(count, rest)?;
    let codes = Codes::new(&codes[..count])?;
    Some((codes, rest))
}

// The authorization number and the reference, and what follows the front of segment 23.
fn numbers_at(bytes: &[u8]) -> Option<((Authorization, Reference), &[u8])>
    ensures { option_map (λ x. (x.0, x.1.now)) result ≡ numbers_at bytes.now }
{
    let Some((number, rest)) = authorization_at(bytes) else {
        return None;
    };
    let Some((reference, rest)) = reference_at(rest) else {
        return None;
    };
    let rest = after(b"\x1E\x1CAM23", rest)?;
    Some(((number, reference), rest))
}

// What stands after the status of a paid claim, and what follows.
#[tactic(auto, unfolding(crate::specs::Reading::paid_claim_at))]
fn paid_claim_at(bytes: &[u8]) -> Option<(Paid, &[u8])>
    ensures { option_map (λ x. (x.0, x.1.now)) result ≡ paid_claim_at bytes.now }
{
    let Some(((number, reference), rest)) = numbers_at(bytes) else {
        return None;
    };
    let Some((pricing, rest)) = pricing_at(rest) else {
        return None;
    };
    let paid = Paid {
        number,
        reference,
        pricing,
    };
    Some((paid, rest))
}

// What stands after the status of a reversal, and what follows.
#[tactic(auto, using(crate::proofs::Approval::approved_steps))]
fn approved_at(bytes: &[u8]) -> Option<(Approved, &[u8])>
    ensures { option_map (λ x. (x.0, x.1.now)) result ≡ approved_at bytes.now }
{
    let Some(((number, reference), rest)) = numbers_at(bytes) else {
        return None;
    };
    let rest = after(b"\x1CF9", rest)?;
    let Some((total_paid, rest)) = reversed_at(rest) else {
        return None;
    };
    let approved = Approved {
        number,
        reference,
        total_paid,
    };
    Some((approved, rest))
}

// What stands after the status of a rejected transaction, and what follows.
#[tactic(auto, unfolding(crate::specs::Reading::refused_at))]
fn refused_at(bytes: &[u8]) -> Option<(Refused, &[u8])>
    ensures { option_map (λ x. (x.0, x.1.now)) result ≡ refused_at bytes.now }
{
    let Some((codes, rest)) = codes_at(bytes) else {
        return None;
    };
    let Some((reference, rest)) = known_at(rest) else {
        return None;
    };
    Some((Refused { codes, reference }, rest))
}

fn behind_status(bytes: &[u8]) -> Option<(Answer, &[u8])>
    ensures { option_map (λ x. (x.0, x.1.now)) result ≡ behind_status bytes.now }
{
    match bytes {
        [b'P', rest @ ..] => match paid_claim_at(rest) {
            Some((paid, rest)) => Some((Answer::Paid(paid), rest)),
            None => None,
        },
        [b'D', rest @ ..] => match paid_claim_at(rest) {
            Some((paid, rest)) => Some((Answer::Twice(paid), rest)),
            None => None,
        },
        [b'A', rest @ ..] => match approved_at(rest) {
            Some((approved, rest)) => Some((Answer::Approved(approved), rest)),
            None => None,
        },
        [b'R', rest @ ..] => match refused_at(rest) {
            Some((refused, rest)) => Some((Answer::Refused(refused), rest)),
            None => None,
        },
        _ => None,
    }
}

// GS and an answer, and what follows.
#[tactic(auto, unfolding(crate::specs::Reading::group_at, crate::specs::Reading::answer_at))]
pub(super) fn group_at(bytes: &[u8]) -> Option<(Answer, &[u8])>
    ensures { option_map (λ x. (x.0, x.1.now)) result ≡ group_at bytes.now }
{
    let rest = after(b"\x1D", bytes)?;
    let rest = after(b"\x1E\x1CAM21\x1CAN", rest)?;
    behind_status(rest)
}
