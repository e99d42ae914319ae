// The replies of the worked cases (tests/cases/README.md), to the byte, and damaged ones.

use crate::table::{same, same_at};
use rx_d0_reply::{ReplyFault, decode_reply, encode, put_reply, read_back};
use rx_d0_values::{Answer, Outcome, Reply};
use std::alloc::Global;
use std::process::Abort;

const ONE_BILLING: &[u8; 157] =
    b"D0B11A011234567893     20260228\x1D\x1E\x1CAM21\x1CANP\x1CF3000004200000011\x1E\x1CAM22\x1CEM1\x1CD2000000000123\x1E\x1CAM23\x1CF50001300{\x1CF60003000{\x1CF70000017E\x1CF90001717E\x1CFH0001000{\x1CFI0000300{";

const PERCENT_TIER: &[u8; 168] =
    b"D0B11A011234567893     20260228\x1D\x1E\x1CAM21\x1CANP\x1CF3000004200000011\x1E\x1CAM22\x1CEM1\x1CD2000000000123\x1E\x1CAM23\x1CF50001403E\x1CF60003000{\x1CF70000017E\x1CF90001614{\x1CFH0001000{\x1CFI0000000{\x1C4U0000403E";

// Every number at its full width.
const WIDEST: &[u8; 168] =
    b"D0B11A011234567893     20260228\x1D\x1E\x1CAM21\x1CANP\x1CF3987654321098765\x1E\x1CAM22\x1CEM1\x1CD2123456789012\x1E\x1CAM23\x1CF57037035G\x1CF69876543B\x1CF70123456G\x1CF92962964B\x1CFH1234567H\x1CFI2345678I\x1C4U3456789{";

const AFTER_THE_MAXIMUM: &[u8; 157] =
    b"D0B11A011234567893     20260228\x1D\x1E\x1CAM21\x1CANP\x1CF3000004600000011\x1E\x1CAM22\x1CEM1\x1CD2000000000204\x1E\x1CAM23\x1CF50000000{\x1CF60003000{\x1CF70000017E\x1CF90003017E\x1CFH0000000{\x1CFI0000000{";

const DUPLICATE: &[u8; 157] =
    b"D0B11A011234567893     20260228\x1D\x1E\x1CAM21\x1CAND\x1CF3000004200000011\x1E\x1CAM22\x1CEM1\x1CD2000000000123\x1E\x1CAM23\x1CF50001300{\x1CF60003000{\x1CF70000017E\x1CF90001717E\x1CFH0001000{\x1CFI0000300{";

const REVERSED: &[u8] =
    b"D0B21A011234567893     20251230\x1D\x1E\x1CAM21\x1CANA\x1CF3000004200000011\x1E\x1CAM22\x1CEM1\x1CD2000000000090\x1E\x1CAM23\x1CF90001717N";

const NOTHING_REVERSED: &[u8] =
    b"D0B21A011234567893     20251230\x1D\x1E\x1CAM21\x1CANA\x1CF3000004200000011\x1E\x1CAM22\x1CEM1\x1CD2000000000090\x1E\x1CAM23\x1CF90000000{";

const KNOWN_REFERENCE: &[u8] =
    b"D0B11A011234567893     20260228\x1D\x1E\x1CAM21\x1CANR\x1CFA01\x1CFB83\x1E\x1CAM22\x1CEM1\x1CD2000000000123";

const EMPTY_GROUP: &[u8] =
    b"D0B11A011234567893     20260228\x1D\x1E\x1CAM21\x1CANR\x1CFA05\x1CFBEM\x1CFB16\x1CFBE1\x1CFB21\x1CFBE7";

const WRONG_BIN: &[u8] =
    b"D0B12R011234567893     20260228\x1D\x1E\x1CAM21\x1CANR\x1CFA02\x1CFB01\x1CFBA9\x1D\x1E\x1CAM21\x1CANR\x1CFA02\x1CFB01\x1CFBA9";

const EMPTY_TRANSMISSION: &[u8] =
    b"    1R                         \x1D\x1E\x1CAM21\x1CANR\x1CFA05\x1CFB01\x1CFB02\x1CFB03\x1CFB04\x1CFBA9";

const FOUR_TRANSACTIONS: &[u8] =
    b"D0B14A011234567893     20260228\x1D\x1E\x1CAM21\x1CANP\x1CF3000004200000011\x1E\x1CAM22\x1CEM1\x1CD2000000000301\x1E\x1CAM23\x1CF50001300{\x1CF60003000{\x1CF70000017E\x1CF90001717E\x1CFH0001000{\x1CFI0000300{\x1D\x1E\x1CAM21\x1CAND\x1CF3000004200000011\x1E\x1CAM22\x1CEM1\x1CD2000000000301\x1E\x1CAM23\x1CF50001300{\x1CF60003000{\x1CF70000017E\x1CF90001717E\x1CFH0001000{\x1CFI0000300{\x1D\x1E\x1CAM21\x1CANP\x1CF3000004200000013\x1E\x1CAM22\x1CEM1\x1CD2000000000302\x1E\x1CAM23\x1CF50000092E\x1CF60000075{\x1CF70000017E\x1CF90000000{\x1CFH0000000{\x1CFI0000092E\x1D\x1E\x1CAM21\x1CANP\x1CF3000004200000014\x1E\x1CAM22\x1CEM1\x1CD2000000000303\x1E\x1CAM23\x1CF50000100{\x1CF60000150{\x1CF70000017E\x1CF90000067E\x1CFH0000000{\x1CFI0000100{";

// Texts of each shape: paid, paid again, approved, refused, rejected, and four answers.
const TEXTS: [&[u8]; 12] = [
    ONE_BILLING,
    PERCENT_TIER,
    WIDEST,
    AFTER_THE_MAXIMUM,
    DUPLICATE,
    REVERSED,
    NOTHING_REVERSED,
    KNOWN_REFERENCE,
    EMPTY_GROUP,
    WRONG_BIN,
    EMPTY_TRANSMISSION,
    FOUR_TRANSACTIONS,
];

// A text is read, written as it was, and read back from what is written of it.
fn is_written_as_read(rt: &impl Abort, alloc: Global, text: &[u8]) {
    let reply = decode_reply(alloc, text).expect(rt, "a reply");
    same!(*rt; encode(alloc, &reply).expect(rt, "memory").as_slice(), text);
    same!(*rt; read_back(alloc, &reply).expect(rt, "a reply") == reply, true);
}

#[test]
fn replies_are_written_as_read(rt: HostRuntime) {
    for text in TEXTS {
        is_written_as_read(&rt, rt.alloc(), text);
    }
}

// The authorization numbers of a reply's paid claims; 0 for another answer.
fn numbers(reply: &Reply) -> [u64; 4] {
    let mut numbers = [0; 4];
    let Outcome::Heard(answers) = &reply.outcome else {
        return numbers;
    };
    for (number, answer) in numbers.iter_mut().zip(answers.as_slice()) {
        if let Answer::Paid(paid) | Answer::Twice(paid) = answer {
            *number = paid.number.get();
        }
    }
    numbers
}

#[test]
fn four_answers_are_read_in_their_order(rt: HostRuntime) {
    let read = decode_reply(rt.alloc(), FOUR_TRANSACTIONS).expect(&rt, "a reply");
    same!(rt; numbers(&read), [4_200_000_011, 4_200_000_011, 4_200_000_013, 4_200_000_014]);
    let mut text = b"front".to_vec(rt.alloc()).expect(&rt, "memory");
    put_reply(&mut text, &read).expect(&rt, "memory");
    same!(rt; text.strip_prefix(b"front"), Some(FOUR_TRANSACTIONS));
}

// One byte of the reply of one-billing is another.
const CHANGES: &[(usize, u8, ReplyFault)] = &[
    (4, b'0', ReplyFault::Head),
    (4, b'5', ReplyFault::Head),
    (4, b'2', ReplyFault::Segment),
    (5, b'P', ReplyFault::Head),
    (5, b'R', ReplyFault::Field),
    (18, 0x7F, ReplyFault::Head),
    (37, b'0', ReplyFault::Segment),
    (60, 0x1D, ReplyFault::Segment),
    (101, b'A', ReplyFault::Field),
    (123, b'N', ReplyFault::Field),
    (134, b'N', ReplyFault::Field),
    (156, b'0', ReplyFault::Field),
];

#[test]
fn a_changed_byte_is_a_fault(rt: HostRuntime) {
    for &(place, byte, fault) in CHANGES {
        let mut text = *ONE_BILLING;
        if let Some(at) = text.get_mut(place) {
            *at = byte;
        }
        let read = decode_reply(rt.alloc(), &text).err();
        same!(rt; (place, byte, read), (place, byte, Some(fault)));
    }
}

// Texts that are no replies, and what makes them none.
const DAMAGED: &[(&str, &[u8], ReplyFault)] = &[
    ("no byte", b"", ReplyFault::Head),
    (
        "a cut head",
        b"D0B11A011234567893     2026022",
        ReplyFault::Head,
    ),
    (
        "a head alone",
        b"D0B11A011234567893     20260228",
        ReplyFault::Segment,
    ),
    (
        "a byte after the end",
        b"D0B11A011234567893     20260228\x1D\x1E\x1CAM21\x1CANR\x1CFA01\x1CFBR8 ",
        ReplyFault::Field,
    ),
    (
        "one code, counted as two",
        b"D0B11A011234567893     20260228\x1D\x1E\x1CAM21\x1CANR\x1CFA02\x1CFBR8",
        ReplyFault::Field,
    ),
    (
        "no code of the page",
        b"D0B11A011234567893     20260228\x1D\x1E\x1CAM21\x1CANR\x1CFA01\x1CFB99",
        ReplyFault::Field,
    ),
    (
        "a rejected header with a reference",
        b"D0B11R011234567893     20260228\x1D\x1E\x1CAM21\x1CANR\x1CFA01\x1CFBR8\x1E\x1CAM22\x1CEM1\x1CD2000000000123",
        ReplyFault::Field,
    ),
    (
        "a rejected header with other codes in its second group",
        b"D0B12R011234567893     20260228\x1D\x1E\x1CAM21\x1CANR\x1CFA01\x1CFBR8\x1D\x1E\x1CAM21\x1CANR\x1CFA01\x1CFB01",
        ReplyFault::Field,
    ),
    (
        "a coinsurance of zero",
        b"D0B11A011234567893     20260228\x1D\x1E\x1CAM21\x1CANP\x1CF3000004200000011\x1E\x1CAM22\x1CEM1\x1CD2000000000123\x1E\x1CAM23\x1CF50001300{\x1CF60003000{\x1CF70000017E\x1CF90001717E\x1CFH0001000{\x1CFI0000300{\x1C4U0000000{",
        ReplyFault::Field,
    ),
];

#[test]
fn damaged_texts_are_refused(rt: HostRuntime) {
    for &(name, text, fault) in DAMAGED {
        same_at(
            &rt,
            name,
            &decode_reply(rt.alloc(), text).err(),
            &Some(fault),
        );
    }
}
