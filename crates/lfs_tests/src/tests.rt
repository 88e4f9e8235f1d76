//! What no clause says of volumes, sessions and passes: that they are made, and answered as they must be.

mod counts;
mod full;
mod idle;
mod locked;
mod plain;
mod sessions;
mod space;
mod steps;
mod unswept;

use itoa::Buffer;
use lfs_logstore::LogStore;
use lfs_print::print::append_answer;
use lfs_script::plan::{Act, Plan, Step};
use lfs_script::script::parse_script;
use lfs_types::answer::Answer;
use lfs_types::store::Params;
use lfs_volume::journal::Call;
use lfs_volume::volume::Volume;
use std::alloc::Global;
use std::fmt::Debug;
use std::process::Abort;

/// The numbers of a small volume.
const SMALL: Params = Params {
    segments: 6,
    inodes: 64,
    frames: 32,
    journal: 4096,
};

/// The numbers of a volume where a script has no arguments.
const DEFAULTS: Params = Params {
    segments: 64,
    inodes: 256,
    frames: 64,
    journal: 4096,
};

/// A fresh volume over a log, with these numbers. It lies in memory of its own, since a function that holds a value of so
/// many parts takes the prover seconds.
fn fresh(rt: &impl Abort, alloc: Global, params: Params) -> Box<Volume<LogStore>> {
    let store = LogStore::format(alloc, params).expect(rt, "a store");
    let volume = Volume::new(alloc, store, params.journal).expect(rt, "a volume");
    Box::new(alloc, volume).expect(rt, "memory")
}

/// The most bytes of a script here: one of 100,000 calls, or of 400 long Writes, is longer than a script that is read may
/// be.
const SCRIPT_MAX: usize = 4_194_304;

/// What a script asks.
fn plan_of(rt: &impl Abort, alloc: Global, script: &str) -> Plan {
    assert!(rt; script.len() <= SCRIPT_MAX);
    parse_script(alloc, script.as_bytes()).expect(rt, "a script")
}

/// The users' calls of a script.
fn calls(rt: &impl Abort, alloc: Global, script: &str) -> Vec<Call> {
    let mut calls = Vec::new(alloc);
    for line in plan_of(rt, alloc, script).into_steps() {
        let Step { session, cred, act } = line;
        let request = match act {
            Act::User(request) => request,
            Act::Cleaner(_) | Act::Pass => continue,
        };
        let call = Call {
            session,
            cred,
            request,
        };
        calls.push(call).expect(rt, "memory");
    }
    calls
}

/// Appends a text.
fn push(rt: &impl Abort, to: &mut String, text: &str) {
    to.push_str(text).expect(rt, "memory");
}

/// Appends these pieces of a text. `write!` takes the prover many times as long.
fn push_all(rt: &impl Abort, text: &mut String, pieces: &[&str]) {
    for piece in pieces {
        push(rt, text, piece);
    }
}

/// The hexadecimal digits.
const DIGITS: &[u8; 16] = b"0123456789abcdef";

/// Appends the hexadecimal digits of a byte so many times.
fn push_byte(rt: &impl Abort, to: &mut String, byte: usize, times: usize) {
    let high = char::from(DIGITS[byte / 16 % 16]);
    let low = char::from(DIGITS[byte % 16]);
    for _ in 0..times {
        to.push(high).expect(rt, "memory");
        to.push(low).expect(rt, "memory");
    }
}

/// Appends a number between two texts.
fn push_number(rt: &impl Abort, to: &mut String, before: &str, number: usize, after: &str) {
    push_all(rt, to, &[before, Buffer::new().format(number), after]);
}

/// A text so many times.
fn repeated(rt: &impl Abort, alloc: Global, text: &str, times: usize) -> String {
    text.repeat(alloc, times).expect(rt, "memory")
}

/// Appends the lines of answers to a session.
fn append_answers(rt: &impl Abort, text: &mut Vec<u8>, session: u8, answers: &[Answer]) {
    for answer in answers {
        append_answer(text, session, answer).expect(rt, "memory");
    }
}

/// Asserts that answers to a session have these lines.
fn expect_answers(rt: &impl Abort, alloc: Global, session: u8, answers: &[Answer], wanted: &str) {
    let mut text = Vec::new(alloc);
    append_answers(rt, &mut text, session, answers);
    expect_lines(rt, text.as_slice(), wanted);
}

/// Asserts that lines are as they must be.
fn expect_lines(rt: &impl Abort, found: &[u8], wanted: &str) {
    assert_eq!(rt; found, wanted.as_bytes());
}

/// Asserts that what was found is what is wanted. An assertion takes the prover a second or more, a call of this less.
fn expect_eq<T: PartialEq + Debug + Drop>(rt: &impl Abort, found: T, wanted: T) {
    assert_eq!(rt; found, wanted);
}
