//! One comparison for all cases: an assertion written out in each makes a test dear to prove.
use std::fmt::Debug;
use std::process::Abort;

/// Whether this was found, or the test ends with the name of the case.
pub(crate) fn same<T: PartialEq + Debug + Drop>(
    rt: &impl Abort,
    case: &str,
    found: T,
    expected: T,
) {
    assert_eq!(rt; found, expected, "{case}");
}
