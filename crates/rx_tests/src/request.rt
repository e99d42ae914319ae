// Worked cases: transmissions and what docs/FORMATS.md makes of them (tests/cases/README.md has those with a name
// there).
use crate::table::{same, same_at};
use rx_d0_request::{decode, written_is_heard};
use rx_d0_values::{BillParts, Body, Codes, EchoParts, Transaction, Transmission};
use rx_fields::{Door, date_write};
use std::alloc::Global;
use std::process::Abort;

const DOOR: Door = Door {
    bin: *b"900001",
    pcn: *b"RXDEMO    ",
};

// The header of the base claim.
const HEADER: &[u8] = b"900001D0B1RXDEMO    1011234567893     20260228          ";
// The same of a reversal.
const REVERSAL: &[u8] = b"900001D0B2RXDEMO    1011234567893     20260228          ";
// The same with four transactions.
const FOUR: &[u8] = b"900001D0B1RXDEMO    4011234567893     20260228          ";
// The common part of the base claim.
const COMMON: &[u8] = b"\x1e\x1cAM04\x1cC2C100\x1cC301";
// Its claim segment, with the separator of its group.
const CLAIM: &[u8] =
    b"\x1d\x1e\x1cAM07\x1cEM1\x1cD2000000000123\x1cE103\x1cD700002000202\x1cE70000030000\x1cD5030\x1cD61";
// Its pricing segment.
const PRICING: &[u8] = b"\x1e\x1cAM11\x1cD90003000{\x1cDC0000017E\x1cDQ0004000{";
// What the base claim asks.
const BASE: &str =
    "heard 1234567893 20260228; bill 123 C100 01 00002000202 30000 30 30000 175 40000 -";
// A claim segment with each known field at its full width, with the separator of its group.
const WIDE_CLAIM: &[u8] =
    b"\x1d\x1e\x1cAM07\x1cEM1\x1cD2999999999999\x1cE103\x1cD798765432109\x1cE79999999999\x1cD5999\x1cD61\x1cC801";
// Its pricing segment.
const WIDE_PRICING: &[u8] = b"\x1e\x1cAM11\x1cD99999999I\x1cDC9999999I\x1cDQ9999999I\x1cDU9999999I";
// The claim segment of a reversal.
const REVERSED: &[u8] = b"\x1d\x1e\x1cAM07\x1cEM1\x1cD2000000000123\x1cE103\x1cD700002000202";

// A text whose bytes are of UTF-8.
fn text<'a>(rt: &impl Abort, bytes: &'a [u8]) -> &'a str {
    str::from_utf8(bytes).expect(rt, "a text")
}

fn put(rt: &impl Abort, shown: &mut String, text: &str) {
    shown.push_str(text).expect(rt, "memory");
}

// A number after a blank; a dash if there is none.
fn put_number(rt: &impl Abort, shown: &mut String, number: Option<u64>) {
    match number {
        Some(number) => write!(shown, " {number}").expect(rt, "memory"),
        None => put(rt, shown, " -"),
    }
}

fn put_codes(rt: &impl Abort, shown: &mut String, codes: &Codes) {
    for (at, code) in codes.as_slice().iter().enumerate() {
        put(rt, shown, if at == 0 { " " } else { "," });
        put(rt, shown, text(rt, &code.text()));
    }
}

fn put_bill(rt: &impl Abort, shown: &mut String, bill: &BillParts) {
    put(rt, shown, "; bill");
    put_number(rt, shown, Some(bill.reference.get()));
    for bytes in [
        bill.family.bytes(),
        bill.person.bytes(),
        &bill.product.digits(),
    ] {
        put(rt, shown, " ");
        put(rt, shown, text(rt, bytes));
    }
    for number in [
        bill.quantity.get(),
        bill.days.get(),
        bill.ingredient_cost.get(),
    ] {
        put_number(rt, shown, Some(number));
    }
    for cents in [bill.dispensing_fee, bill.usual_charge, bill.gross_amount] {
        put_number(rt, shown, cents.map(|cents| cents.get()));
    }
}

fn put_transaction(rt: &impl Abort, shown: &mut String, transaction: &Transaction) {
    match transaction {
        Transaction::Bill(bill) => put_bill(rt, shown, bill.parts()),
        Transaction::Reverse(reversal) => {
            put(rt, shown, "; reverse");
            put_number(rt, shown, Some(reversal.reference.get()));
            put(rt, shown, " ");
            put(rt, shown, text(rt, &reversal.product.digits()));
        }
        Transaction::Faulty(faulty) => {
            put(rt, shown, "; faulty");
            put_codes(rt, shown, &faulty.codes);
            put_number(rt, shown, faulty.reference.map(|number| number.get()));
        }
    }
}

// A transmission on one line, without its echo.
fn shown(rt: &impl Abort, alloc: Global, transmission: &Transmission) -> String {
    let mut shown = String::new(alloc);
    match &transmission.body {
        Body::Rejected(rejected) => {
            put(rt, &mut shown, "rejected");
            put_codes(rt, &mut shown, &rejected.codes);
            put(rt, &mut shown, " answers");
            put_number(rt, &mut shown, Some(rejected.groups.get()));
        }
        Body::Heard(heard) => {
            put(rt, &mut shown, "heard ");
            put(rt, &mut shown, text(rt, heard.provider.bytes()));
            put(rt, &mut shown, " ");
            put(rt, &mut shown, text(rt, &date_write(heard.date)));
            for transaction in heard.list.as_slice() {
                put_transaction(rt, &mut shown, transaction);
            }
        }
    }
    shown
}

// What a text asks.
fn asked(rt: &impl Abort, alloc: Global, text: &[u8]) -> String {
    shown(rt, alloc, &decode(alloc, &DOOR, text).expect(rt, "memory"))
}

// A case's name, its header, the parts after it, and what they ask.
type Case = (
    &'static str,
    &'static [u8],
    &'static [&'static [u8]],
    &'static str,
);

fn expect_all(rt: &impl Abort, alloc: Global, cases: &[Case]) {
    for (name, header, parts, want) in cases {
        let text = joined(rt, alloc, header, parts);
        same_at(rt, name, &asked(rt, alloc, &text).as_str(), want);
    }
}

fn joined(rt: &impl Abort, alloc: Global, header: &[u8], parts: &[&[u8]]) -> Vec<u8> {
    let mut text = header.to_vec(alloc).expect(rt, "memory");
    for part in parts {
        text.extend_from_slice(part).expect(rt, "memory");
    }
    text
}

const HEADERS: &[Case] = &[
    (
        "the base claim",
        HEADER,
        &[COMMON, CLAIM, PRICING],
        "heard 1234567893 20260228; bill 123 C100 01 00002000202 30000 30 30000 175 40000 -",
    ),
    (
        "wrong-bin-and-count",
        b"900002D0B1RXDEMO    2011234567893     20260228          ",
        &[COMMON, CLAIM, PRICING],
        "rejected 01,A9 answers 1",
    ),
    (
        "group-syntax: a byte before the first segment",
        HEADER,
        &[b"X", COMMON, CLAIM, PRICING],
        "rejected R8 answers 1",
    ),
    (
        "cut-transmission",
        b"900001D0B1RXDEMO    1011234567893     20260228         ",
        &[],
        "rejected A9,R8 answers 1",
    ),
    (
        "four transactions in one record",
        FOUR,
        &[
            COMMON,
            b"\x1d\x1e\x1cAM07\x1cEM1\x1cD2000000000301\x1cE103\x1cD700002000202\x1cE70000030000\x1cD5030\x1cD61",
            PRICING,
            b"\x1d\x1e\x1cAM07\x1cEM1\x1cD2000000000301\x1cE103\x1cD700002000202\x1cE70000030000\x1cD5030\x1cD61",
            PRICING,
            b"\x1d\x1e\x1cAM07\x1cEM1\x1cD2000000000302\x1cE103\x1cD700001000101\x1cE70000030000\x1cD5030\x1cD61",
            PRICING,
            b"\x1d\x1e\x1cAM07\x1cEM1\x1cD2000000000303\x1cE103\x1cD700003000303\x1cE70000030000\x1cD5030\x1cD61",
            PRICING,
        ],
        "heard 1234567893 20260228; bill 301 C100 01 00002000202 30000 30 30000 175 40000 -; bill 301 C100 01 00002000202 30000 30 30000 175 40000 -; bill 302 C100 01 00001000101 30000 30 30000 175 40000 -; bill 303 C100 01 00003000303 30000 30 30000 175 40000 -",
    ),
    (
        "a billing beside an empty group",
        b"900001D0B1RXDEMO    2011234567893     20260228          ",
        &[COMMON, CLAIM, PRICING, b"\x1d"],
        "heard 1234567893 20260228; bill 123 C100 01 00002000202 30000 30 30000 175 40000 -; faulty EM,16,E1,21,E7 -",
    ),
    (
        "a reversal without a common part",
        REVERSAL,
        &[REVERSED],
        "heard 1234567893 20260228; reverse 123 00002000202",
    ),
    ("a header alone", HEADER, &[], "rejected A9 answers 1"),
    (
        "five groups",
        FOUR,
        &[b"\x1d\x1d\x1d\x1d\x1d"],
        "rejected A9 answers 4",
    ),
    (
        "count 0 and no group",
        b"900001D0B1RXDEMO    0011234567893     20260228          ",
        &[COMMON],
        "rejected A9 answers 1",
    ),
    (
        "a provider with an unprintable byte",
        b"900001D0B1RXDEMO    1011234567893\x7f    20260228          ",
        &[COMMON, CLAIM, PRICING],
        "rejected 05,R8 answers 1",
    ),
    (
        "a date that doesn't exist",
        b"900001D0B1RXDEMO    1011234567893     20260229          ",
        &[COMMON, CLAIM, PRICING],
        "rejected 15 answers 1",
    ),
    (
        "no byte at all",
        b"",
        &[],
        "rejected 01,02,03,04,A9 answers 1",
    ),
];

// The base claim with a segment of this many bytes more in front.
fn with_segment(rt: &impl Abort, alloc: Global, length: usize) -> Vec<u8> {
    let filled = Vec::from_elem(alloc, b'y', length).expect(rt, "memory");
    joined(
        rt,
        alloc,
        HEADER,
        &[b"\x1e\x1cAM08\x1cXX", &filled, COMMON, CLAIM, PRICING],
    )
}

// A segment of any length in front moves each later separator past the ends of words and of vectors.
#[test]
fn cuts_at_every_place(rt: HostRuntime) {
    for length in 0..140 {
        let mut text = with_segment(&rt, rt.alloc(), length);
        same!(rt; asked(&rt, rt.alloc(), &text).as_str(), BASE);
        // A separator at the very end has an empty piece after it, which is skipped.
        text.push(0x1C).expect(&rt, "memory");
        same!(rt; asked(&rt, rt.alloc(), &text).as_str(), BASE);
    }
}

// Four groups, each with every known field at its full width.
const LARGEST: &[Case] = &[(
    "each field at its full width",
    FOUR,
    &[
        b"\x1e\x1cAM04\x1cC2ABCDEFGHIJKLMNOPQRST\x1cC3ZZ9",
        WIDE_CLAIM,
        WIDE_PRICING,
        WIDE_CLAIM,
        WIDE_PRICING,
        WIDE_CLAIM,
        WIDE_PRICING,
        WIDE_CLAIM,
        WIDE_PRICING,
    ],
    "heard 1234567893 20260228; bill 999999999999 ABCDEFGHIJKLMNOPQRST ZZ9 98765432109 9999999999 999 99999999 99999999 99999999 99999999; bill 999999999999 ABCDEFGHIJKLMNOPQRST ZZ9 98765432109 9999999999 999 99999999 99999999 99999999 99999999; bill 999999999999 ABCDEFGHIJKLMNOPQRST ZZ9 98765432109 9999999999 999 99999999 99999999 99999999 99999999; bill 999999999999 ABCDEFGHIJKLMNOPQRST ZZ9 98765432109 9999999999 999 99999999 99999999 99999999 99999999",
)];

const CUTS: &[Case] = &[
    (
        "group-syntax: D2 twice",
        HEADER,
        &[
            COMMON,
            b"\x1d\x1e\x1cAM07\x1cEM1\x1cD2000000000123\x1cD29\x1cE103\x1cD700002000202\x1cE70000030000\x1cD5030\x1cD61",
            PRICING,
        ],
        "heard 1234567893 20260228; faulty R8 -",
    ),
    (
        "trailing blanks of AM",
        HEADER,
        &[
            COMMON,
            b"\x1d\x1e\x1cAM07  \x1cEM1\x1cD2000000000123\x1cE103\x1cD700002000202\x1cE70000030000\x1cD5030\x1cD61",
            PRICING,
        ],
        "heard 1234567893 20260228; bill 123 C100 01 00002000202 30000 30 30000 175 40000 -",
    ),
    (
        "AM of one byte and a blank",
        HEADER,
        &[
            COMMON,
            b"\x1d\x1e\x1cAM0 \x1cEM1\x1cD2000000000123\x1cE103\x1cD700002000202\x1cE70000030000\x1cD5030\x1cD61",
            PRICING,
        ],
        "heard 1234567893 20260228; faulty R8 -",
    ),
    (
        "AM of blanks in front",
        HEADER,
        &[
            COMMON,
            b"\x1d\x1e\x1cAM  \x1cEM1\x1cD2000000000123\x1cE103\x1cD700002000202\x1cE70000030000\x1cD5030\x1cD61",
            PRICING,
        ],
        "heard 1234567893 20260228; faulty R8 -",
    ),
    (
        "AM of blanks later",
        HEADER,
        &[
            COMMON,
            b"\x1d\x1e\x1cAM07\x1cEM1\x1cD2000000000123\x1cAM  \x1cE103\x1cD700002000202\x1cE70000030000\x1cD5030\x1cD61",
            PRICING,
        ],
        "heard 1234567893 20260228; bill 123 C100 01 00002000202 30000 30 30000 175 40000 -",
    ),
    (
        "AM twice in a known segment",
        HEADER,
        &[
            COMMON,
            b"\x1d\x1e\x1cAM07\x1cEM1\x1cD2000000000123\x1cAM07\x1cE103\x1cD700002000202\x1cE70000030000\x1cD5030\x1cD61",
            PRICING,
        ],
        "heard 1234567893 20260228; faulty R8 -",
    ),
    (
        "AM twice in another segment, unknown fields twice, 04 twice",
        HEADER,
        &[
            COMMON,
            CLAIM,
            PRICING,
            b"\x1e\x1cAM99\x1cAM99\x1cXX\x1cXX\x1e\x1cAM04\x1e\x1cAM04",
        ],
        "heard 1234567893 20260228; bill 123 C100 01 00002000202 30000 30 30000 175 40000 -",
    ),
    (
        "one byte alone in a segment that is passed over",
        HEADER,
        &[COMMON, CLAIM, PRICING, b"\x1e\x1cAM99\x1cX"],
        "heard 1234567893 20260228; faulty R8 -",
    ),
    (
        "one blank alone",
        HEADER,
        &[COMMON, CLAIM, PRICING, b"\x1c "],
        "heard 1234567893 20260228; faulty R8 -",
    ),
    (
        "a byte before the first field",
        HEADER,
        &[COMMON, CLAIM, PRICING, b"\x1eX\x1cAM99"],
        "heard 1234567893 20260228; faulty R8 -",
    ),
    (
        "a segment that has no name",
        HEADER,
        &[COMMON, CLAIM, PRICING, b"\x1e\x1cXX99"],
        "heard 1234567893 20260228; faulty R8 -",
    ),
    (
        "segments and fields that are passed over",
        HEADER,
        &[COMMON, CLAIM, b"\x1e\x1e\x1c\x1c", PRICING, b"\x1c\x1c"],
        "heard 1234567893 20260228; bill 123 C100 01 00002000202 30000 30 30000 175 40000 -",
    ),
    (
        "a second segment 07 without a field",
        HEADER,
        &[COMMON, CLAIM, PRICING, b"\x1e\x1cAM07"],
        "heard 1234567893 20260228; faulty R8 -",
    ),
];

const FIELDS: &[Case] = &[
    (
        "group-syntax: one empty group",
        HEADER,
        &[COMMON, b"\x1d"],
        "heard 1234567893 20260228; faulty EM,16,E1,21,E7 -",
    ),
    (
        "overpunches: a negative ingredient cost",
        HEADER,
        &[
            COMMON,
            CLAIM,
            b"\x1e\x1cAM11\x1cD90003000}\x1cDC0000017E\x1cDQ0004000{",
        ],
        "heard 1234567893 20260228; faulty 23 123",
    ),
    (
        "overpunches: a fee of plain digits",
        HEADER,
        &[
            COMMON,
            CLAIM,
            b"\x1e\x1cAM11\x1cD90003000{\x1cDC100\x1cDQ0004000{",
        ],
        "heard 1234567893 20260228; bill 123 C100 01 00002000202 30000 30 30000 100 40000 -",
    ),
    (
        "overpunches: a fee of negative zero",
        HEADER,
        &[
            COMMON,
            CLAIM,
            b"\x1e\x1cAM11\x1cD90003000{\x1cDC0000000}\x1cDQ0004000{",
        ],
        "heard 1234567893 20260228; bill 123 C100 01 00002000202 30000 30 30000 0 40000 -",
    ),
    (
        "a person of blanks",
        HEADER,
        &[b"\x1e\x1cAM04\x1cC2C100\x1cC3  ", CLAIM, PRICING],
        "heard 1234567893 20260228; bill 123 C100 01 00002000202 30000 30 30000 175 40000 -",
    ),
    (
        "a qualifier of blanks",
        HEADER,
        &[
            COMMON,
            b"\x1d\x1e\x1cAM07\x1cEM   \x1cD2000000000123\x1cE103\x1cD700002000202\x1cE70000030000\x1cD5030\x1cD61",
            PRICING,
        ],
        "heard 1234567893 20260228; faulty EM 123",
    ),
    (
        "a reference with a blank in front",
        HEADER,
        &[
            COMMON,
            b"\x1d\x1e\x1cAM07\x1cEM1\x1cD2 1\x1cE103\x1cD700002000202\x1cE70000030000\x1cD5030\x1cD61",
            PRICING,
        ],
        "heard 1234567893 20260228; faulty 16 -",
    ),
    (
        "six codes and more",
        HEADER,
        &[b"\x1d\x1e\x1cAM07\x1cD27"],
        "heard 1234567893 20260228; faulty 07,EM,E1,21,E7 7",
    ),
    (
        "days and quantity of zero, a compound, another coverage",
        HEADER,
        &[COMMON, REVERSED, b"\x1cE70\x1cD5000\x1cD62\x1cC82", PRICING],
        "heard 1234567893 20260228; faulty E7,19,20,13 123",
    ),
    (
        "no charge",
        HEADER,
        &[COMMON, CLAIM, b"\x1e\x1cAM11\x1cD90003000{\x1cDC0000017"],
        "heard 1234567893 20260228; faulty DQ 123",
    ),
    (
        "the gross amount alone",
        HEADER,
        &[
            COMMON,
            CLAIM,
            b"\x1e\x1cAM11\x1cD90003000{\x1cDC0000017E\x1cDU0004000{",
        ],
        "heard 1234567893 20260228; bill 123 C100 01 00002000202 30000 30 30000 175 - 40000",
    ),
    (
        "a reversal beside a bad cardholder",
        REVERSAL,
        &[b"\x1e\x1cAM04\x1cC2|", REVERSED],
        "heard 1234567893 20260228; reverse 123 00002000202",
    ),
    (
        "a faulty reversal",
        REVERSAL,
        &[b"\x1d\x1e\x1cAM07\x1cEM1\x1cD2000000000123\x1cE104\x1cD700002000202"],
        "heard 1234567893 20260228; faulty E1 123",
    ),
];

#[test]
fn each_text_asks_this(rt: HostRuntime) {
    written_is_heard();
    for cases in [HEADERS, LARGEST, CUTS, FIELDS] {
        expect_all(&rt, rt.alloc(), cases);
    }
}

const ECHO: EchoParts = EchoParts {
    version: *b"D0",
    code: *b"B1",
    qualifier: *b"01",
    provider: *b"1234567893     ",
    date: *b"20260228",
};

#[test]
fn echoes(rt: HostRuntime) {
    let whole = decode(rt.alloc(), &DOOR, HEADER).expect(&rt, "memory");
    same!(rt; *whole.echo.parts(), ECHO);
    same!(rt; whole.copy(rt.alloc()).expect(&rt, "memory") == whole, true);
    let cut = decode(rt.alloc(), &DOOR, b"900001D0B1RXDEMO    10112\x7f45").expect(&rt, "memory");
    same!(rt; &cut.echo.parts().provider, b"12 45          ");
    same!(rt; &cut.echo.parts().date, b"        ");
}
