//! Calls as lines of a script, credentials as words, and what came of cleaner's calls.

use crate::tests::expect_eq;
use lfs_model::journal::CleanerOutcome;
use lfs_print::print::push_outcome;
use lfs_script::plan::{Act, Step};
use lfs_script::script::parse_script;
use lfs_script::spelling::push_request;
use lfs_types::cleaner::CleanFault;
use lfs_types::cred::Cred;
use lfs_types::path::Path;
use lfs_types::request::Request;
use lfs_words::caller::spell_caller;
use std::alloc::Global;
use std::process::Abort;

/// A call of each kind, with each number as it is spelled.
const LINES: &[u8] = b"\
stat /
read /a/b 18446744073709551615 4294967295
write /a at 0 6162ff00
write /a end -
list /~!/%20
length /a 4294967296
create /a 0644
mkdir /a 1777
unlink /a
rmdir /a
rename /a /b
chmod /a 6000
chown /a 4294967295 0
chflags /a 00070007
level -1
level 0
level 1
level 2
sync
";

/// Appends the line of the user's call of a step.
fn push_step(rt: &impl Abort, text: &mut Vec<u8>, step: &Step) {
    match &step.act {
        Act::User(request) => push_request(text, request).expect(rt, "memory"),
        Act::Cleaner(_) | Act::Pass => panic!(rt; "no user's call"),
    }
    text.push(b'\n').expect(rt, "memory");
}

#[test]
fn calls_as_lines(rt: HostRuntime) {
    let plan = parse_script(rt.alloc(), LINES).expect(&rt, "a plan");
    let mut text = Vec::new(rt.alloc());
    for step in plan.into_steps() {
        push_step(&rt, &mut text, &step);
    }
    expect_eq(&rt, text.as_slice(), LINES);
}

/// The line of a Rename.
fn rename_of(rt: &impl Abort, alloc: Global, from: &str, to: &str) -> Vec<u8> {
    let rename = Request::Rename {
        from: Path::parse(alloc, from).expect(rt, "a path"),
        to: Path::parse(alloc, to).expect(rt, "a path"),
    };
    let mut text = Vec::new(alloc);
    push_request(&mut text, &rename).expect(rt, "memory");
    text
}

#[test]
fn paths_that_no_script_can_spell(rt: HostRuntime) {
    let text = rename_of(&rt, rt.alloc(), "/a b/c%\x7f", "/a%20b/c");
    expect_eq(
        &rt,
        text.as_slice(),
        b"rename %/a%20b/c%25%7f /a%20b/c".as_slice(),
    );
}

#[test]
fn callers_as_words(rt: HostRuntime) {
    let mut text = Vec::new(rt.alloc());
    let user = Cred::new(7, &[7, 20, 4_294_967_295], false).expect(&rt, "a credential");
    spell_caller(&mut text, &user).expect(&rt, "memory");
    let init = Cred::new(0, &[0], true).expect(&rt, "a credential");
    spell_caller(&mut text, &init).expect(&rt, "memory");
    expect_eq(
        &rt,
        text.as_slice(),
        b" 7 7,20,4294967295 0 0 init".as_slice(),
    );
}

#[test]
fn what_came_of_cleaner_calls(rt: HostRuntime) {
    let mut text = Vec::new(rt.alloc());
    push_outcome(&mut text, CleanerOutcome::Denied).expect(&rt, "memory");
    push_outcome(&mut text, CleanerOutcome::Fault(CleanFault::Live(512))).expect(&rt, "memory");
    push_outcome(&mut text, CleanerOutcome::Done(12)).expect(&rt, "memory");
    expect_eq(
        &rt,
        text.as_slice(),
        b" denied fault Live 512 ok 12".as_slice(),
    );
}
