// What no clause says: that the threads give the transmissions, and not out of memory.
use rx_batch::{Detail, Text};
use rx_d0_values::{Body, Transmission};
use rx_fields::{Code, Door};
use rx_wave::{decode_all, decode_in_parts};
use std::alloc::Global;
use std::process::Abort;

const DOOR: Door = Door {
    bin: *b"900001",
    pcn: *b"RXDEMO    ",
};

// The base claim, cut after its header's 55th byte.
const CUT: &[u8] = b"900001D0B1RXDEMO    1011234567893     20260228         ";

// The base claim, cut, after an empty detail.
fn details(rt: &impl Abort, alloc: Global) -> [Detail; 2] {
    [detail(rt, alloc, b""), detail(rt, alloc, CUT)]
}

fn detail(rt: &impl Abort, alloc: Global, text: &[u8]) -> Detail {
    Detail {
        reference: *b"0000000001",
        text: Text::new(text.to_vec(alloc).expect(rt, "memory")),
    }
}

// The codes of a header that was rejected; none of one that was accepted.
fn codes(transmission: &Transmission) -> &[Code] {
    match &transmission.body {
        Body::Rejected(rejected) => rejected.codes.as_slice(),
        Body::Heard(_) => &[],
    }
}

// They are the transmissions of the two details, in their order.
fn are_theirs(rt: &impl Abort, all: &[Transmission]) {
    let [first, second] = all else {
        panic!(rt; "two transmissions");
    };
    let wrong = [
        Code::Bin,
        Code::Version,
        Code::TransactionCode,
        Code::ProcessorControlNumber,
        Code::TransactionCount,
    ];
    assert!(rt; codes(first) == wrong.as_slice());
    assert!(rt; codes(second) == [Code::TransactionCount, Code::Syntax].as_slice());
}

#[test]
fn decodes_in_order(rt: HostRuntime) {
    let details = details(&rt, rt.alloc());
    let all = decode_all(&rt, rt.alloc(), &DOOR, &details).expect(&rt, "memory");
    are_theirs(&rt, &all);
    for &parts in &[1, 2] {
        let all = decode_in_parts(&rt, rt.alloc(), parts, &DOOR, &details).expect(&rt, "memory");
        are_theirs(&rt, &all);
    }
}
