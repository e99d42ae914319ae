use crate::table::same_at;
use rx_fields::{FieldFault, signed_read};

const AMOUNTS_READ: &[(&str, Result<i64, FieldFault>)] = &[
    ("0001717N", Ok(-17175)),
    ("0001717E", Ok(17175)),
    ("0003000}", Ok(-30000)),
    ("0001300{", Ok(13000)),
    ("0000000}", Ok(0)),
    ("0000000{", Ok(0)),
    ("9999999R", Ok(-99_999_999)),
    ("99999999", Ok(99_999_999)),
    ("100", Ok(100)),
    ("{", Ok(0)),
    ("}", Ok(0)),
    ("7", Ok(7)),
    ("4{", Ok(40)),
    ("4A", Ok(41)),
    ("4B", Ok(42)),
    ("4C", Ok(43)),
    ("4D", Ok(44)),
    ("4E", Ok(45)),
    ("4F", Ok(46)),
    ("4G", Ok(47)),
    ("4H", Ok(48)),
    ("4I", Ok(49)),
    ("4}", Ok(-40)),
    ("4J", Ok(-41)),
    ("4K", Ok(-42)),
    ("4L", Ok(-43)),
    ("4M", Ok(-44)),
    ("4N", Ok(-45)),
    ("4O", Ok(-46)),
    ("4P", Ok(-47)),
    ("4Q", Ok(-48)),
    ("4R", Ok(-49)),
    ("", Err(FieldFault::Empty)),
    ("000000000", Err(FieldFault::TooLong)),
    ("00000000{", Err(FieldFault::TooLong)),
    ("1{0", Err(FieldFault::NotDigit)),
    ("-100", Err(FieldFault::NotDigit)),
    ("1S", Err(FieldFault::NotDigit)),
    ("1@", Err(FieldFault::NotDigit)),
    ("1 ", Err(FieldFault::NotDigit)),
    (" 1", Err(FieldFault::NotDigit)),
];

#[test]
fn amounts_are_read_with_their_sign(rt: HostRuntime) {
    for &(text, cents) in AMOUNTS_READ {
        same_at(&rt, text, &signed_read(text.as_bytes()), &cents);
    }
}
