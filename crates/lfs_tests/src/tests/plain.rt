//! A run of calls over a volume on the plain store, and its journal.

use super::{calls, expect_answers, expect_eq};
use lfs_types::answer::Answer;
use lfs_types::level::Level;
use lfs_types::rule::{Denial, Rule};
use lfs_volume::flat_files::FlatFiles;
use lfs_volume::journal::{Call, Entry, Event};
use lfs_volume::volume::Volume;
use std::alloc::Global;
use std::process::Abort;

/// The superuser makes `/a` and writes it. User 5 reads it and would write it.
const CALLS: &str = "\
session 2
create /a 0644
write /a at 0 616263
as 5 5
read /a 0 10
write /a at 0 64
";

/// What they are answered.
const ANSWERS: &str = "\
2 ok
2 ok
2 bytes 616263
2 denied M2 EACCES 0 1
";

/// A volume over a plain store. It lies in memory of its own, since a function that holds a value of so many parts takes
/// the prover seconds.
fn fresh(rt: &impl Abort, alloc: Global) -> Box<Volume<FlatFiles>> {
    let files = FlatFiles::new(alloc, 256).expect(rt, "a store");
    let volume = Volume::new(alloc, files, 4).expect(rt, "a volume");
    Box::new(alloc, volume).expect(rt, "memory")
}

/// The longest file gets its last bytes.
const LONGEST: &str = "\
session 2
create /f 0644
length /f 8460288
write /f at 8460286 6869
read /f 8460284 9
";

/// What these calls are answered.
const LONGEST_TOLD: &str = "2 ok\n2 ok\n2 ok\n2 bytes 00006869\n";

#[test]
fn plain_store_holds_the_longest_file(rt: HostRuntime) {
    let mut volume = fresh(&rt, rt.alloc());
    let calls = calls(&rt, rt.alloc(), LONGEST);
    let answers = volume.run(calls).expect(&rt, "a run");
    expect_answers(&rt, rt.alloc(), 2, answers.as_slice(), LONGEST_TOLD);
}

/// Asserts what a run of the calls answers.
fn expect_run(rt: &impl Abort, alloc: Global, volume: &mut Volume<FlatFiles>) {
    let calls = calls(rt, alloc, CALLS);
    let answers = volume.run(calls).expect(rt, "a run");
    expect_answers(rt, alloc, 2, answers.as_slice(), ANSWERS);
}

/// Asserts what the volume shows behind the run.
fn expect_entered(rt: &impl Abort, volume: &Volume<FlatFiles>) {
    expect_eq(rt, volume.journal().len(), 4);
    expect_eq(rt, volume.journal_limit(), 4);
    expect_eq(rt, volume.level(), Level::Insecure);
    expect_eq(rt, volume.clean_segments(), 1024);
}

#[test]
fn run_answers_each_call_and_enters_it(rt: HostRuntime) {
    let mut volume = fresh(&rt, rt.alloc());
    expect_run(&rt, rt.alloc(), &mut *volume);
    expect_entered(&rt, &*volume);
}

/// User 5 reads `/a`.
const READ: &str = "session 2\nas 5 5\nread /a 0 10\n";

/// That the name isn't there, at component 1 of the path.
const NOT_THERE: Denial = Denial {
    rule: Rule::NameThere,
    path: 0,
    at: 1,
};

/// That the mode doesn't grant reading, at component 1 of the path.
const NOT_GRANTED: Denial = Denial {
    rule: Rule::GrantsRead,
    path: 0,
    at: 1,
};

/// The entry of a call that was denied, as the name isn't there. It lies in memory of its own, as a volume does.
fn entry(rt: &impl Abort, alloc: Global, call: &Call) -> Box<Entry> {
    let request = call.request.try_clone(alloc).expect(rt, "memory");
    let entry = Entry {
        session: call.session,
        cred: call.cred,
        event: Event::User(request, Answer::Denied(NOT_THERE)),
    };
    Box::new(alloc, entry).expect(rt, "memory")
}

/// Sessions and denials, and whether the entry is that of the call in this session, denied so.
const CASES: [(u8, Denial, bool); 3] = [
    (2, NOT_THERE, true),
    (3, NOT_THERE, false),
    (2, NOT_GRANTED, false),
];

/// Whether it is the entry of this call in this session, denied so.
fn is_denied(entry: &Entry, session: u8, call: &Call, denial: Denial) -> bool {
    let answer = Answer::Denied(denial);
    entry.is_call(session, &call.cred, &call.request, &answer)
}

/// Asserts of each case whether the entry is that of the call.
fn expect_cases(rt: &impl Abort, entry: &Entry, call: &Call) {
    for (session, denial, is_call) in CASES {
        expect_eq(rt, is_denied(entry, session, call, denial), is_call);
    }
}

/// Asserts of each case whether the entry of a denied call is that of the call.
fn expect_entry(rt: &impl Abort, alloc: Global, call: &Call) {
    let entry = entry(rt, alloc, call);
    expect_cases(rt, &entry, call);
}

#[test]
fn entry_tells_whether_it_is_a_call(rt: HostRuntime) {
    let calls = calls(&rt, rt.alloc(), READ);
    expect_eq(&rt, calls.len(), 1);
    for call in &calls {
        expect_entry(&rt, rt.alloc(), call);
    }
}
