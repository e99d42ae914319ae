//! The comparison of values by reference, with the line of a table, or the expression, named where they differ.

use std::process::Abort;

/// What is given for a line of a table is what was expected; where it isn't, the line is named.
pub(crate) fn same_at<T: PartialEq>(rt: &impl Abort, line: &str, given: &T, expected: &T) {
    assert!(rt; *given == *expected, "{line}");
}

// What the first expression gives is what the second gives; where it isn't, the first is named.
macro_rules! same {
    ($rt:expr; $given:expr, $expected:expr) => {
        crate::table::same_at(&$rt, stringify!($given), &$given, &$expected)
    };
}

pub(crate) use same;
