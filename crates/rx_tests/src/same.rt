//! The comparison of values. It stands in functions of its own, since each place that compares by itself is dear to prove.

use std::process::Abort;

/// What is given is what is expected.
pub(crate) fn same<T: PartialEq + Drop>(rt: &impl Abort, given: T, expected: T) {
    assert!(rt; given == expected);
}

/// What is given is not this other value.
pub(crate) fn differ<T: PartialEq + Drop>(rt: &impl Abort, given: T, other: T) {
    assert!(rt; given != other);
}
