use crate::table::same_at;
use rx_fields::{Id, IdFault};
use std::process::Abort;

// A text, the most bytes that its id may have, and the id.
const IDS_READ: &[(&str, usize, &str)] = &[
    ("C100", 20, "C100"),
    ("C100   ", 20, "C100"),
    ("1234567893     ", 15, "1234567893"),
    ("01 ", 3, "01"),
    (" A", 20, " A"),
    ("A B  ", 3, "A B"),
    ("~", 1, "~"),
    ("ABCDEFGHIJKLMNOPQRST", 20, "ABCDEFGHIJKLMNOPQRST"),
    ("ABCDEFGHIJKLMNOPQRST  ", 20, "ABCDEFGHIJKLMNOPQRST"),
];

const IDS_REFUSED: &[(&str, usize, IdFault)] = &[
    ("", 20, IdFault::Blank),
    ("    ", 20, IdFault::Blank),
    ("ABCDEFGHIJKLMNOPQRSTU", 20, IdFault::TooLong),
    ("0123", 3, IdFault::TooLong),
    ("012\x1f", 3, IdFault::TooLong),
    ("A", 0, IdFault::TooLong),
    ("A\x1fB", 20, IdFault::NotPrintable),
    ("A\x7f", 20, IdFault::NotPrintable),
    ("A|\x1f", 20, IdFault::NotPrintable),
    ("A|B", 20, IdFault::Bar),
    ("| ", 20, IdFault::Bar),
];

#[test]
fn ids_are_trimmed_texts(rt: HostRuntime) {
    for &(text, max, id) in IDS_READ {
        assert!(rt; max <= 20);
        let read = Id::new(text.as_bytes(), max).expect(&rt, "an id");
        same_at(&rt, text, &read.bytes(), &id.as_bytes());
    }
    for &(text, max, fault) in IDS_REFUSED {
        assert!(rt; max <= 20);
        same_at(&rt, text, &Id::new(text.as_bytes(), max), &Err(fault));
    }
}

fn id(rt: &impl Abort, text: &str) -> Id {
    Id::new(text.as_bytes(), 20).expect(rt, "an id")
}
