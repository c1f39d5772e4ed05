//! The assertions of the tests. They have no clause, so that no proof looks into what is compared:
//! the run compares it. They take their values and not references to them, since a proof pays for
//! each loan that a test makes. What a call gives is asserted to be there: behind each `?` a proof
//! would let go of all that the test holds.
use std::alloc::Global;
use std::fmt::Display;
use std::process::Abort;

/// Asserts that what came of a call is what is expected, and else names the call.
pub(crate) fn assert_equal<T: PartialEq + Drop>(
    rt: impl Abort + Copy,
    call: &str,
    came: T,
    expected: T,
) {
    assert!(rt; came == expected, "{call}");
}

/// As `assert_eq!`, but cheap to prove.
macro_rules! assert_same {
    ($rt:expr; $came:expr, $expected:expr $(,)?) => {
        $crate::tests::assertions::assert_equal($rt, stringify!($came), $came, $expected)
    };
}

/// What a call gives, where it is not refused. Else stops, and names the call.
pub(crate) fn value_of<T, E>(rt: impl Abort + Copy, call: &str, answer: Result<T, E>) -> T {
    match answer {
        Ok(value) => value,
        Err(_) => panic!(rt; "{call} is refused"),
    }
}

/// What is there of an option. Else stops, and names the call that gives it.
pub(crate) fn some_of<T>(rt: impl Abort + Copy, call: &str, answer: Option<T>) -> T {
    match answer {
        Some(value) => value,
        None => panic!(rt; "{call} gives nothing"),
    }
}

/// A value as it is. A proof knows nothing of it: what it would know of a call's answer it pays for
/// at each arm of a `match`.
pub(crate) fn opaque<T>(value: T) -> T {
    value
}

/// Asserts what a value is printed as.
pub(crate) fn assert_text<T: Display>(
    rt: impl Abort + Copy,
    alloc: Global,
    value: &T,
    expected: &str,
) {
    let text = value_of(rt, "format", format!(in alloc; "{value}"));
    assert_equal(rt, "the text", text.as_str(), expected);
}

/// What a call gives that may be refused.
macro_rules! given {
    ($rt:expr; $call:expr) => {
        $crate::tests::assertions::value_of($rt, stringify!($call), $call)
    };
}

/// What a call gives that may give nothing.
macro_rules! found {
    ($rt:expr; $call:expr) => {
        $crate::tests::assertions::some_of($rt, stringify!($call), $call)
    };
}

pub(crate) use assert_same;
pub(crate) use found;
pub(crate) use given;
