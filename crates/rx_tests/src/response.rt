//! A response file that is made in several pieces.

use crate::same::same;
use rx_batch::{Detail, FileType, Head, Kind, Text};
use rx_d0_reply::decode_reply;
use rx_d0_values::Reply;
use rx_fields::{Lot, Stamp, Time, date_read, digits_write};
use rx_response::response_file;
use std::alloc::{AllocError, Global};
use std::process::Abort;

const HEADER: &[u8] =
    b"\x0200RRXSWITCH                0000042202603020600P12PHARMSYS                \x03";

const TRAILER: &[u8] = b"\x029900000420000003002                                   \x03";

const PAID: &[u8] =
    b"D0B11A011234567893     20260228\x1D\x1E\x1CAM21\x1CANP\x1CF3000004200000011\x1E\x1CAM22\x1CEM1\x1CD2000000000123\x1E\x1CAM23\x1CF50001300{\x1CF60003000{\x1CF70000017E\x1CF90001717E\x1CFH0001000{\x1CFI0000300{";

const REFUSED: &[u8] =
    b"D0B11A011234567893     20260228\x1D\x1E\x1CAM21\x1CANR\x1CFA01\x1CFB83\x1E\x1CAM22\x1CEM1\x1CD2000000000123";

// The header of the worked cases' batch.
fn head(rt: &impl Abort) -> Head {
    let day = date_read(b"20260301").expect(rt, "a date");
    Head {
        kind: Kind::Transmission,
        sender: *b"PHARMSYS                ",
        lot: Lot::new(42, day).expect(rt, "a lot"),
        time: Time::new(b"0930").expect(rt, "a time"),
        file: FileType::Production,
        receiver: *b"RXSWITCH                ",
    }
}

// This many details go to several threads.
const DETAILS: u64 = 3000;

// Each seventh is refused.
fn text_of_reply(number: u64) -> &'static [u8] {
    if number % 7 == 0 { REFUSED } else { PAID }
}

// Details that ask nothing.
fn details(rt: &impl Abort, alloc: Global) -> Vec<Detail> {
    let mut details = Vec::new(alloc);
    for number in 0..DETAILS {
        let reference: [u8; 10] = digits_write(number);
        let text = Text::new(Vec::new(alloc));
        let detail = Detail { reference, text };
        details.push(detail).expect(rt, "memory");
    }
    details
}

// The reply to each.
fn replies(rt: &impl Abort, alloc: Global) -> Vec<Reply> {
    let mut replies = Vec::new(alloc);
    for number in 0..DETAILS {
        let reply = decode_reply(alloc, text_of_reply(number)).expect(rt, "a reply");
        replies.push(reply).expect(rt, "memory");
    }
    replies
}

fn put(text: &mut Vec<u8>, parts: &[&[u8]]) -> Result<(), AllocError> {
    for part in parts {
        text.extend_from_slice(part)?;
    }
    Ok(())
}

fn written(alloc: Global) -> Result<Vec<u8>, AllocError> {
    let mut text = Vec::new(alloc);
    put(&mut text, &[HEADER])?;
    for number in 0..DETAILS {
        let reference: [u8; 10] = digits_write(number);
        let reply = text_of_reply(number);
        put(&mut text, &[b"\x02G1", &reference, reply, b"\x03"])?;
    }
    put(&mut text, &[TRAILER])?;
    Ok(text)
}

#[test]
fn replies_stand_in_file_order(rt: HostRuntime) {
    let (details, replies) = (details(&rt, rt.alloc()), replies(&rt, rt.alloc()));
    let expected = written(rt.alloc()).expect(&rt, "memory");
    assert!(rt; details.len() == 3000 && replies.len() == 3000);
    let (head, stamp) = (
        head(&rt),
        Stamp::new(b"202603020600").expect(&rt, "a stamp"),
    );
    let text = response_file(&rt, rt.alloc(), &head, stamp, &details, &replies);
    let text = text.expect(&rt, "memory");
    same(&rt, text.as_slice(), expected.as_slice());
}
