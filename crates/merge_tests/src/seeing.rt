//! That a test sees what is wanted.
use std::fmt::Debug;
use std::process::Abort;

/// What is seen is the same as what is wanted. One function for all tests: the assertion is proved once.
pub(crate) fn assert_same<T: PartialEq + Debug>(rt: &impl Abort, seen: &T, want: &T) {
    assert_eq!(rt; *seen, *want);
}
