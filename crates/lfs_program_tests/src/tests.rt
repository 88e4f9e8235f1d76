//! What no clause says of scripts, talks, films and the two programs: that they are run, and told as they must be.

mod film;
mod programs;
mod scripts;

use std::alloc::Global;
use std::fmt::Debug;
use std::process::Abort;

/// Appends a text.
fn push(rt: &impl Abort, to: &mut String, text: &str) {
    to.push_str(text).expect(rt, "memory");
}

/// A text so many times.
fn repeated(rt: &impl Abort, alloc: Global, text: &str, times: usize) -> String {
    text.repeat(alloc, times).expect(rt, "memory")
}

/// Asserts that what was found is what is wanted. An assertion takes the prover a second or more, a call of this less.
fn expect_eq<T: PartialEq + Debug + Drop>(rt: &impl Abort, found: T, wanted: T) {
    assert_eq!(rt; found, wanted);
}
