//! A request answered through `rx_d0` only, which has every name that this takes.

use crate::table::same;
use rx_d0::{
    Amounts, Answer, Answers, Authorization, Bill, Body, Door, Outcome, Paid, Pricing, Reply,
    Transaction, Transmission, decode, encode,
};
use std::alloc::Global;
use std::process::Abort;

const DOOR: Door = Door {
    bin: *b"900001",
    pcn: *b"RXDEMO    ",
};

// The request of the worked case one-billing, and its reply (tests/cases/README.md).
const REQUEST: &[u8] =
    b"900001D0B1RXDEMO    1011234567893     20260228          \x1E\x1CAM04\x1CC2C100\x1CC301\x1D\x1E\x1CAM07\x1CEM1\x1CD2000000000123\x1CE103\x1CD700002000202\x1CE70000030000\x1CD5030\x1CD61\x1E\x1CAM11\x1CD90003000{\x1CDC0000017E\x1CDQ0004000{";

const REPLY: &[u8] =
    b"D0B11A011234567893     20260228\x1D\x1E\x1CAM21\x1CANP\x1CF3000004200000011\x1E\x1CAM22\x1CEM1\x1CD2000000000123\x1E\x1CAM23\x1CF50001300{\x1CF60003000{\x1CF70000017E\x1CF90001717E\x1CFH0001000{\x1CFI0000300{";

// Its reply at a payer with another number.
const REJECTION: &[u8] = b"D0B11R011234567893     20260228\x1D\x1E\x1CAM21\x1CANR\x1CFA01\x1CFB01";

const AMOUNTS: Amounts = Amounts {
    ingredient_cost: 30_000,
    dispensing_fee: 175,
    deductible: 10_000,
    copay: 3_000,
    coinsurance: 0,
};

// The billing, paid with these amounts.
fn paid(rt: &impl Abort, bill: &Bill) -> Answer {
    Answer::Paid(Paid {
        number: Authorization::new(4_200_000_011).expect(rt, "a number"),
        reference: bill.parts().reference,
        pricing: Pricing::new(AMOUNTS).expect(rt, "within the limits"),
    })
}

fn answer(rt: &impl Abort, transaction: &Transaction) -> Answer {
    match transaction {
        Transaction::Bill(bill) => paid(rt, bill),
        _ => panic!(rt; "a billing"),
    }
}

// An answer to each transaction, or the codes of a rejected header.
fn outcome(rt: &impl Abort, alloc: Global, body: &Body) -> Outcome {
    match body {
        Body::Rejected(rejected) => Outcome::Rejected(*rejected),
        Body::Heard(heard) => {
            let mut answers = Vec::new(alloc);
            for transaction in heard.list.as_slice() {
                answers.push(answer(rt, transaction)).expect(rt, "memory");
            }
            Outcome::Heard(Answers::new(answers).ok().expect(rt, "1 to 4 answers"))
        }
    }
}

fn reply_to(rt: &impl Abort, alloc: Global, request: &Transmission) -> Reply {
    Reply {
        echo: request.echo,
        outcome: outcome(rt, alloc, &request.body),
    }
}

// The bytes of the reply to the request at this payer.
fn answered(rt: &impl Abort, alloc: Global, door: &Door) -> Vec<u8> {
    let request = decode(alloc, door, REQUEST).expect(rt, "memory");
    let reply = reply_to(rt, alloc, &request);
    encode(alloc, &reply).expect(rt, "memory")
}

#[test]
fn a_request_is_answered(rt: HostRuntime) {
    same!(rt; answered(&rt, rt.alloc(), &DOOR).as_slice(), REPLY);
    let door = Door {
        bin: *b"900002",
        ..DOOR
    };
    same!(rt; answered(&rt, rt.alloc(), &door).as_slice(), REJECTION);
}
