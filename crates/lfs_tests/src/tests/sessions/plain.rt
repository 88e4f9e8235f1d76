//! What no clause says of a run on threads: that it ends, and is handed out.

use super::gates::assert_in_turn;
use super::watch::Watch;
use super::{BOTH_USERS, CLEANER, assert_answers, expect_run_settled, split};
use crate::tests::unswept::{Unswept, unswept_volume};
use crate::tests::{expect_eq, push, repeated};
use lfs_server::gate::Gate;
use lfs_server::serving::{Closed, serve_over};
use std::alloc::Global;
use std::process::Abort;
use std::sync::Wait;
use std::thread::Threads;

/// Runs a script on a volume over a plain store whose cleaner finds nothing to do. What it leaves lies in memory of its own.
fn serve_plain<R: Abort + Threads + Wait + Sync, G: Gate>(
    rt: &R,
    alloc: Global,
    script: &str,
    gate: &G,
) -> Box<Closed<Unswept>> {
    let (setup, sessions) = split(rt, alloc, script);
    let volume = unswept_volume(rt, alloc, 16, 6_000);
    let closed = serve_over(rt, alloc, volume, setup, sessions, gate);
    Box::new(alloc, closed.expect(rt, "a run")).expect(rt, "memory")
}

/// How many answers the setup had, how many sessions there were, and how many entries the journal has.
fn sizes(closed: &Closed<Unswept>) -> [usize; 3] {
    [
        closed.setup.len(),
        closed.transcripts.len(),
        closed.volume.journal().len(),
    ]
}

#[test]
fn sessions_run_on_threads(rt: HostRuntime) {
    let closed = serve_plain(&rt, rt.alloc(), BOTH_USERS, &());
    expect_eq(&rt, sizes(&closed), [2, 2, 6]);
}

/// A script of session 1, which syncs so often.
fn syncs(rt: &impl Abort, alloc: Global, times: usize) -> String {
    let mut script = String::new(alloc);
    push(rt, &mut script, "session 1\n");
    push(
        rt,
        &mut script,
        repeated(rt, alloc, "sync\n", times).as_str(),
    );
    script
}

#[test]
fn session_of_five_thousand_calls(rt: HostRuntime) {
    let script = syncs(&rt, rt.alloc(), 5_000);
    let closed = serve_plain(&rt, rt.alloc(), script.as_str(), &());
    let wanted = repeated(&rt, rt.alloc(), "1 ok\n", 5_000);
    let transcripts = closed.transcripts.as_slice();
    assert_answers(&rt, rt.alloc(), transcripts, wanted.as_str());
}

/// Notes each call that is begun, and each that is made.
#[derive(Drop)]
struct Noting<'a, R: Wait> {
    begun: Watch<'a, R>,
    made: Watch<'a, R>,
}

impl<'a, R: Wait + Sync> Gate for Noting<'a, R> {
    fn before(&self, session: u8, index: u32) {
        self.begun.note(session, index);
    }

    fn after(&self, session: u8, index: u32) {
        self.made.note(session, index);
    }
}

/// How many calls the setup makes, each session, one without a script, and the cleaner.
const CALLS: [(u8, usize); 5] = [(0, 2), (1, 2), (2, 2), (3, 0), (CLEANER, 1)];

#[test]
fn each_call_passes_the_gate_in_turn(rt: HostRuntime) {
    let gate = Noting {
        begun: Watch::new(&rt, rt.alloc()),
        made: Watch::new(&rt, rt.alloc()),
    };
    serve_plain(&rt, rt.alloc(), BOTH_USERS, &gate);
    assert_in_turn(&rt, &gate.begun, &CALLS);
    assert_in_turn(&rt, &gate.made, &CALLS);
}

/// Holds session 1 until the cleaner has made its one call. Behind that it stands open, but between this call of the session
/// and the next. It notes the calls that it is told of.
#[derive(Drop)]
struct Open<'a, R: Wait> {
    begun: Watch<'a, R>,
    made: Watch<'a, R>,
    held: u32,
}

impl<'a, R: Wait + Sync> Gate for Open<'a, R> {
    fn before(&self, session: u8, index: u32) {
        if session == 1 && index == 0 {
            self.made.wait_for(CLEANER, 0);
        }
        self.begun.note(session, index);
    }

    fn after(&self, session: u8, index: u32) {
        self.made.note(session, index);
    }

    fn is_open(&self, _session: u8, index: u32) -> bool {
        index != self.held
    }
}

/// Calls of session 1, whether a gate was told that each was begun, and calls that it was told are made, or not.
const BEGUN: [(u32, bool); 6] = [
    (0, true),
    (1, false),
    (256, true),
    (261, true),
    (512, true),
    (599, false),
];

const MADE: [(u32, bool); 3] = [(260, true), (598, false), (599, true)];

/// Asserts of calls of session 1 whether they are noted.
fn expect_noted(rt: &impl Abort, watch: &Watch<'_, impl Wait>, calls: &[(u32, bool)]) {
    for (index, is_noted) in calls {
        expect_eq(rt, watch.has(1, *index), *is_noted);
    }
}

#[test]
fn calls_are_made_in_one_holding_where_the_gate_is_open(rt: HostRuntime) {
    let gate = Open {
        begun: Watch::new(&rt, rt.alloc()),
        made: Watch::new(&rt, rt.alloc()),
        held: 260,
    };
    let script = syncs(&rt, rt.alloc(), 600);
    let closed = serve_plain(&rt, rt.alloc(), script.as_str(), &gate);
    expect_eq(&rt, closed.volume.journal().len(), 600);
    expect_noted(&rt, &gate.begun, &BEGUN);
    expect_noted(&rt, &gate.made, &MADE);
}

/// Notes the calls that the cleaner begins.
#[derive(Drop)]
struct Cleanings<'a, R: Wait> {
    watch: Watch<'a, R>,
}

impl<'a, R: Wait + Sync> Gate for Cleanings<'a, R> {
    fn before(&self, session: u8, index: u32) {
        if session == CLEANER {
            self.watch.note(CLEANER, index);
        }
    }

    fn after(&self, _session: u8, _index: u32) {}
}

/// Asserts that the cleaner made one call. It makes one for each ring here, since it is told no ifile: so the ring after
/// the setup was the only one.
fn assert_one_call(rt: &impl Abort, watch: &Watch<'_, impl Wait>) {
    let found = [
        watch.has_failed(),
        watch.has(CLEANER, 0),
        watch.has(CLEANER, 1),
    ];
    expect_eq(rt, found, [false, true, false]);
}

/// One session makes both files.
const ONE_SESSION: &str = "session 1\ncreate /x 0666\ncreate /y 0666\n";

/// Asserts that one session was answered, twice, each time that the file is made, and that this settles.
fn assert_one_session(rt: &impl Abort, alloc: Global, closed: &Closed<Unswept>) {
    assert_answers(rt, alloc, closed.transcripts.as_slice(), "1 ok\n1 ok\n");
    expect_run_settled(rt, alloc, closed, ONE_SESSION, Ok(()));
}

#[test]
fn session_is_run_and_settles(rt: HostRuntime) {
    let gate = Cleanings {
        watch: Watch::new(&rt, rt.alloc()),
    };
    let closed = serve_plain(&rt, rt.alloc(), ONE_SESSION, &gate);
    assert_one_call(&rt, &gate.watch);
    assert_one_session(&rt, rt.alloc(), &closed);
}
