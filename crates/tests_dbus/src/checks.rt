// What a test asserts: one function for each type.

use std::process::Abort;

/// Asserts that two texts are the same; `at` says where.
pub fn same_text(rt: &impl Abort, found: &str, want: &str, at: &str) {
    assert_eq!(rt; found, want, "at {at}");
}

/// Asserts a fact; `at` says where.
pub fn holds(rt: &impl Abort, fact: bool, at: &str) {
    assert!(rt; fact, "at {at}");
}
