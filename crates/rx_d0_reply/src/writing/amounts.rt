//! Writing amounts, and the segments that hold them, for which there is room.

ghost use Rattle.std.specs.Prelude.{◌≡◌, ◌≤◌, ◌+◌, ◌++◌, pos, neg_ℤ, vec_capacity, vec_len};
ghost use Rattle.rx_fields.specs.declared.limits.TheConstants.{MOST_CENTS};
ghost use Rattle.rx_fields.specs.Amount.{signed_text};
ghost use Rattle.rx_d0_values.specs.Priced.{IsPriced};
ghost use Rattle.rx_d0_reply.specs.Text.{amount_field, coinsurance_field, amounts_segment, reversed_segment};

use super::digits::eight_digits;
use rx_d0_values::Pricing;
use rx_fields::{Cents, signed_write};
use rx_text::{FIELD, put};

// An amount as it is paid.
#[inline(always)]
#[tactic(auto, unfolding(rx_fields::specs::Digits::digits_text, rx_fields::specs::Amount::signed_text))]
pub(super) fn paid_text(cents: u64) -> [u8; 8]
    requires { cents ≤ MOST_CENTS }
    ensures { result ≡ signed_text (pos cents) }
{
    let [a, b, c, d, e, f, g, digit] = eight_digits(cents);
    let last = if digit == b'0' {
        b'{'
    } else {
        digit - b'0' + (b'A' - 1)
    };
    [a, b, c, d, e, f, g, last]
}

// An amount as it is taken back.
pub(super) fn reversed_text(cents: u64) -> [u8; 8]
    requires { cents ≤ MOST_CENTS }
    ensures { result ≡ signed_text (neg_ℤ (pos cents)) }
{
    signed_write(-(cents as i64))
}

fn put_amount(out: &mut Vec<u8>, id: [u8; 2], cents: u64)
    requires cents { cents ≤ MOST_CENTS }
    requires room { vec_len out.old + 11 ≤ vec_capacity out.old }
    ensures text { out.new.items ≡ out.old.items ++ amount_field id cents }
    ensures len { vec_len out.new ≡ vec_len out.old + 11 }
    ensures capacity { vec_capacity out.old ≤ vec_capacity out.new }
{
    let [first, second] = id;
    let [a, b, c, d, e, f, g, h] = paid_text(cents);
    put(out, &[FIELD, first, second, a, b, c, d, e, f, g, h]);
}

fn put_coinsurance(out: &mut Vec<u8>, cents: u64)
    requires cents { cents ≤ MOST_CENTS }
    requires room { vec_len out.old + 11 ≤ vec_capacity out.old }
    ensures text { out.new.items ≡ out.old.items ++ coinsurance_field cents }
    ensures len { vec_len out.new ≤ vec_len out.old + 11 }
    ensures capacity { vec_capacity out.old ≤ vec_capacity out.new }
{
    if cents == 0 {
        return;
    }
    put_amount(out, *b"4U", cents);
}

// Segment 23 of a paid claim.
pub(super) fn put_amounts(out: &mut Vec<u8>, pricing: &Pricing)
    requires { vec_len out.old + 83 ≤ vec_capacity out.old }
    ensures text { out.new.items ≡ out.old.items ++ amounts_segment pricing.now }
    ensures within { IsPriced pricing.now }
    ensures len { vec_len out.new ≤ vec_len out.old + 83 }
    ensures capacity { vec_capacity out.old ≤ vec_capacity out.new }
{
    let amounts = pricing.amounts();
    put(out, b"\x1E\x1CAM23");
    put_amount(out, *b"F5", pricing.patient_pay());
    put_amount(out, *b"F6", amounts.ingredient_cost);
    put_amount(out, *b"F7", amounts.dispensing_fee);
    put_amount(out, *b"F9", pricing.total_paid());
    put_amount(out, *b"FH", amounts.deductible);
    put_amount(out, *b"FI", amounts.copay);
    put_coinsurance(out, amounts.coinsurance);
}

// Segment 23 of a reversal.
pub(super) fn put_reversed(out: &mut Vec<u8>, total_paid: Cents)
    requires { vec_len out.old + 17 ≤ vec_capacity out.old }
    ensures text { out.new.items ≡ out.old.items ++ reversed_segment total_paid }
    ensures within { total_paid ≤ MOST_CENTS }
    ensures len { vec_len out.new ≡ vec_len out.old + 17 }
    ensures capacity { vec_capacity out.old ≤ vec_capacity out.new }
{
    put(out, b"\x1E\x1CAM23\x1CF9");
    put(out, &reversed_text(total_paid.get()));
}
