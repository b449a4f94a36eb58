//! Elements that tests compare.

use std::process::Abort;

/// These elements are as they should be.
pub fn same(rt: &impl Abort, found: &[i64], wanted: &[i64]) {
    assert_eq!(rt; found, wanted);
}
