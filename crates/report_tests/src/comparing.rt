//! Comparisons for tests. Tests are proved too, and a comparison in the body of a test is
//! expensive to prove.

use std::fmt::Debug;
use std::process::Abort;

/// Asserts that both values are equal.
pub(crate) fn same<T: PartialEq + Debug + Copy>(rt: &impl Abort, found: T, wanted: T) {
    assert_eq!(rt; found, wanted);
}

/// Asserts that the text was made and equals this one.
pub(crate) fn gives<E: PartialEq + Debug + Drop>(
    rt: &impl Abort,
    made: Result<String, E>,
    wanted: &str,
) {
    same(rt, made.as_deref(), Ok(wanted));
}
