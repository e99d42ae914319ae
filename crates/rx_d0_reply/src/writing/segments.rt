//! Writing the fields and segments of an answer, for which there is room.

ghost use Rattle.std.specs.Prelude.{◌≡◌, ◌≤◌, ◌+◌, ◌*◌, ◌++◌, ◌∷◌, [], IfSome, length, vec_capacity, vec_len};
ghost use Rattle.std.specs.List.{flat_map};
ghost use Rattle.rx_d0_reply.specs.Limits.{IsNumber, IsReference, AreCodes};
ghost use Rattle.rx_d0_reply.specs.Text.{number_segment, reference_segment, known_reference, code_field, codes_segment};

use super::digits::{fifteen_digits, twelve_digits};
use rx_d0_values::Codes;
use rx_fields::{Authorization, Code, Reference, digits_write};
use rx_text::{FIELD, SEGMENT, put};

// Segment 21 of an answer that has an authorization number.
pub(super) fn put_number(out: &mut Vec<u8>, status: u8, number: Authorization)
    requires { vec_len out.old + 28 ≤ vec_capacity out.old }
    ensures text { out.new.items ≡ out.old.items ++ number_segment (status ∷ []) number }
    ensures within { IsNumber number }
    ensures len { vec_len out.new ≡ vec_len out.old + 28 }
    ensures capacity { vec_capacity out.old ≤ vec_capacity out.new }
{
    let front = [
        SEGMENT, FIELD, b'A', b'M', b'2', b'1', FIELD, b'A', b'N', status, FIELD, b'F', b'3',
    ];
    put(out, &front);
    put(out, &fifteen_digits(number.get()));
}

// Segment 22.
pub(super) fn put_reference(out: &mut Vec<u8>, reference: Reference)
    requires { vec_len out.old + 25 ≤ vec_capacity out.old }
    ensures text { out.new.items ≡ out.old.items ++ reference_segment reference }
    ensures within { IsReference reference }
    ensures len { vec_len out.new ≡ vec_len out.old + 25 }
    ensures capacity { vec_capacity out.old ≤ vec_capacity out.new }
{
    put(out, b"\x1E\x1CAM22\x1CEM1\x1CD2");
    put(out, &twelve_digits(reference.get()));
}

// Segment 22, where the reference is known.
pub(super) fn put_known(out: &mut Vec<u8>, reference: Option<Reference>)
    requires { vec_len out.old + 25 ≤ vec_capacity out.old }
    ensures text { out.new.items ≡ out.old.items ++ known_reference reference }
    ensures within { IfSome reference IsReference }
    ensures len { vec_len out.new ≤ vec_len out.old + 25 }
    ensures capacity { vec_capacity out.old ≤ vec_capacity out.new }
{
    match reference {
        Some(reference) => put_reference(out, reference),
        None => (),
    }
}

fn put_code(out: &mut Vec<u8>, code: Code)
    requires { vec_len out.old + 5 ≤ vec_capacity out.old }
    ensures text { out.new.items ≡ out.old.items ++ code_field code }
    ensures len { vec_len out.new ≡ vec_len out.old + 5 }
    ensures capacity { vec_capacity out.old ≤ vec_capacity out.new }
{
    put(out, b"\x1CFB");
    put(out, &code.text());
}

fn put_each_code(out: &mut Vec<u8>, codes: &[Code])
    requires { vec_len out.old + 5 * length codes.now ≤ vec_capacity out.old }
    ensures text { out.new.items ≡ out.old.items ++ flat_map code_field codes.now }
    ensures len { vec_len out.new ≡ vec_len out.old + 5 * length codes.now }
    ensures capacity { vec_capacity out.old ≤ vec_capacity out.new }
{
    for code in codes {
        put_code(out, *code);
    }
}

// Segment 21 of an answer that has reject codes.
pub(super) fn put_codes(out: &mut Vec<u8>, codes: &Codes)
    requires { vec_len out.old + 40 ≤ vec_capacity out.old }
    ensures text { out.new.items ≡ out.old.items ++ codes_segment codes.now }
    ensures within { AreCodes codes.now }
    ensures len { vec_len out.new ≤ vec_len out.old + 40 }
    ensures capacity { vec_capacity out.old ≤ vec_capacity out.new }
{
    let codes = codes.as_slice();
    put(out, b"\x1E\x1CAM21\x1CANR\x1CFA");
    let count: [u8; 2] = digits_write(codes.len() as u64);
    put(out, &count);
    put_each_code(out, codes);
}
