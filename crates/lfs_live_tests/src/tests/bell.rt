//! What no clause says of the doorbell: that a call which leaves few segments clean, and is not refused, has the cleaner at
//! work.

use super::watch::Watch;
use super::{
    SMALL, User, alone, answers, append_answers, calls, expect_lines, plan_of, serve_fresh,
};
use lfs_server::gate::Gate;
use lfs_server::serve::serve;
use std::alloc::Global;
use std::process::Abort;
use std::sync::Wait;
use std::thread::Threads;

/// The session of the cleaner.
pub(super) const CLEANER: u8 = 255;

/// How often a file of 4,096 bytes is written over before three of six segments are clean, as counted by hand.
const ROUNDS: usize = 13;

/// The calls up to there: the file is made, and in each round written and synced.
const HELD: u32 = 27;

/// Holds session 1 until the cleaner's first pass has found no dirty segment, by its one call, and behind its last round
/// until the cleaner has made a call more, for which it has to be rung.
#[derive(Drop)]
struct Bell<'a, R: Wait> {
    watch: Watch<'a, R>,
}

impl<'a, R: Wait + Sync> Gate for Bell<'a, R> {
    fn before(&self, session: u8, index: u32) {
        if session == 1 && index == 0 {
            self.watch.wait_for(CLEANER, 0);
        } else if session == 1 && index == HELD {
            self.watch.wait_for(CLEANER, 1);
        }
    }

    fn after(&self, session: u8, index: u32) {
        if session == CLEANER && index <= 1 {
            self.watch.note(CLEANER, index);
        }
    }
}

/// Appends a text.
pub(super) fn push(rt: &impl Abort, to: &mut String, text: &str) {
    to.push_str(text).expect(rt, "memory");
}

/// Appends a write of the whole file, and a sync.
pub(super) fn push_round(rt: &impl Abort, alloc: Global, to: &mut String) {
    let bytes = "5a".repeat(alloc, 4096).expect(rt, "memory");
    push(rt, to, "write /a at 0 ");
    push(rt, to, bytes.as_str());
    push(rt, to, "\nsync\n");
}

/// The calls, and one more that is held, as session 1.
fn script(rt: &impl Abort, alloc: Global) -> String {
    let mut script = String::new(alloc);
    push(rt, &mut script, "session 1\ncreate /a 0666\n");
    for _ in 0..ROUNDS {
        push_round(rt, alloc, &mut script);
    }
    push(rt, &mut script, "sync\n");
    script
}

/// Asserts that no call was refused.
fn expect_served(rt: &impl Abort, alloc: Global, found: &[u8]) {
    let wanted = "1 ok\n".repeat(alloc, 28).expect(rt, "memory");
    expect_lines(rt, found, wanted.as_str());
}

/// Runs the calls as a session of a script, and gives what it was answered.
fn serve_script<R: Abort + Threads + Wait + Sync>(
    rt: &R,
    alloc: Global,
    gate: &Bell<'_, R>,
) -> Vec<u8> {
    let text = script(rt, alloc);
    let plan = plan_of(rt, alloc, text.as_str());
    let (setup, sessions) = plan.split(alloc).expect(rt, "sessions");
    let closed = serve(rt, alloc, SMALL, setup, sessions, gate).expect(rt, "a run");
    let mut found = Vec::new(alloc);
    for transcript in &closed.transcripts {
        append_answers(rt, &mut found, 1, transcript.as_slice());
    }
    found
}

#[test]
fn few_clean_segments_ring(rt: HostRuntime) {
    let gate = Bell {
        watch: Watch::new(&rt, rt.alloc()),
    };
    let found = serve_script(&rt, rt.alloc(), &gate);
    gate.watch.assert_unfailed(&rt);
    expect_served(&rt, rt.alloc(), found.as_slice());
}

/// Runs the calls as a session of a live server, and gives what it was answered.
fn serve_live<R: Abort + Threads + Wait + Sync>(
    rt: &R,
    alloc: Global,
    gate: &Bell<'_, R>,
) -> Vec<u8> {
    let text = script(rt, alloc);
    let calls = calls(rt, alloc, text.as_str());
    let clients = alone(rt, alloc, User { calls });
    let stopped = serve_fresh(rt, alloc, clients, gate).expect(rt, "a stop");
    answers(rt, alloc, stopped.transcripts.as_slice())
}

#[test]
fn few_clean_segments_ring_at_a_live_server(rt: HostRuntime) {
    let gate = Bell {
        watch: Watch::new(&rt, rt.alloc()),
    };
    let found = serve_live(&rt, rt.alloc(), &gate);
    gate.watch.assert_unfailed(&rt);
    expect_served(&rt, rt.alloc(), found.as_slice());
}
