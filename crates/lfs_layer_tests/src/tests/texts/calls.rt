//! Copies of requests and answers.

use super::steps_of;
use crate::tests::expect_eq;
use lfs_script::plan::{Act, Step};
use lfs_script::script::parse_script;
use lfs_types::answer::{Answer, Resource, Served};
use lfs_types::attrs::{Attrs, Kind};
use lfs_types::file_flags::FileFlags;
use lfs_types::mode::Mode;
use lfs_types::name::clone_names;
use lfs_types::path::Path;
use lfs_types::payload::{Bytes, Names};
use lfs_types::request::Request;
use lfs_types::rule::{Denial, Rule};
use std::alloc::Global;
use std::process::Abort;

/// A call of each kind, some of them twice with other values or at other paths.
const CALLS: &[u8] = b"\
create /a 644
write /a at 0 616263
read /a 0 10
write /a at 0 64
write /a end 64
stat /a
length /a 3
chown /a 7 8
chflags /a 4
level 1
list /a
unlink /a
rmdir /a
rename /a /b
mkdir /a 755
chmod /a 755
rename /b /a
sync
";

/// A copy of the user's call of a step.
fn copy_of(rt: &impl Abort, alloc: Global, step: &Step) -> Request {
    match &step.act {
        Act::User(request) => request.try_clone(alloc).expect(rt, "memory"),
        Act::Cleaner(_) | Act::Pass => panic!(rt; "no user's call"),
    }
}

/// Whether a step is this call.
fn is_call(step: &Step, call: &Request) -> bool {
    match &step.act {
        Act::User(request) => request == call,
        Act::Cleaner(_) | Act::Pass => false,
    }
}

/// How many answers there are below.
const ANSWERS: u32 = 8;

/// The answer of this number, from 0. No two are equal.
fn answer(rt: &impl Abort, alloc: Global, number: u32) -> Answer {
    match number {
        0 => Answer::Served(Served::Done),
        1 => Answer::Served(Served::Bytes(bytes_of(rt, alloc, b"abc"))),
        2 => Answer::Served(Served::Bytes(bytes_of(rt, alloc, b"abd"))),
        3 => Answer::Served(Served::Names(names_of(rt, alloc, "/a/b"))),
        4 => Answer::Served(Served::Names(names_of(rt, alloc, "/b/a"))),
        5 => Answer::Denied(DENIAL),
        6 => Answer::Refused(Resource::NoSpace),
        _ => Answer::Served(Served::Stat(4, attrs(rt))),
    }
}

/// The attributes of a file of three bytes.
fn attrs(rt: &impl Abort) -> Attrs {
    Attrs {
        kind: Kind::File,
        uid: 0,
        gid: 0,
        mode: Mode::new(0o644).expect(rt, "a mode"),
        flags: FileFlags::none(),
        size: 3,
    }
}

/// A denial at the first component of a path.
const DENIAL: Denial = Denial {
    rule: Rule::GrantsWrite,
    path: 0,
    at: 1,
};

/// These bytes, as a Read serves them.
pub fn bytes_of(rt: &impl Abort, alloc: Global, bytes: &[u8]) -> Bytes {
    let bytes = Vec::from_slice(alloc, bytes).expect(rt, "memory");
    Bytes::new(bytes).expect(rt, "memory")
}

/// The names of a path, as a List serves them.
pub fn names_of(rt: &impl Abort, alloc: Global, path: &str) -> Names {
    let path = Path::parse(alloc, path).expect(rt, "a path");
    let names = clone_names(alloc, path.names()).expect(rt, "memory");
    Names::new(names).expect(rt, "memory")
}

/// Asserts that a call is that of the step of this index alone.
fn expect_call_of(rt: &impl Abort, steps: &[Step], call: &Request, index: usize) {
    for (i, step) in steps.iter().enumerate() {
        expect_eq(rt, is_call(step, call), i == index);
    }
}

/// Asserts that a copy of the call of each of 18 steps is that of its own step alone.
fn expect_copies(rt: &impl Abort, alloc: Global, steps: &[Step]) {
    expect_eq(rt, steps.len(), 18);
    for (i, step) in steps.iter().enumerate() {
        expect_call_of(rt, steps, &copy_of(rt, alloc, step), i);
    }
}

#[test]
fn copied_requests_are_equal_to_their_own_alone(rt: HostRuntime) {
    let plan = parse_script(rt.alloc(), CALLS).expect(&rt, "a script");
    let steps = steps_of(&rt, rt.alloc(), plan);
    expect_copies(&rt, rt.alloc(), steps.as_slice());
}

/// Asserts that an answer is that of this number alone.
fn expect_answer_of(rt: &impl Abort, alloc: Global, found: &Answer, number: u32) {
    for i in 0..ANSWERS {
        expect_eq(rt, *found == answer(rt, alloc, i), i == number);
    }
}

#[test]
fn copied_answers_are_equal_to_their_own_alone(rt: HostRuntime) {
    for number in 0..ANSWERS {
        let copy = answer(&rt, rt.alloc(), number).try_clone();
        expect_answer_of(&rt, rt.alloc(), &copy.expect(&rt, "memory"), number);
    }
}
