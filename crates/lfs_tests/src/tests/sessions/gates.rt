//! What no clause says of a run over the log store: that sessions and the cleaner really run beside each other.

use super::log::{BOTH, FIRST, WRITES, assert_served, serve_users};
use super::watch::Watch;
use super::{CLEANER, assert_answers};
use lfs_logstore::LogStore;
use lfs_model::asking::CleanerAct;
use lfs_server::gate::Gate;
use lfs_server::serving::Closed;
use lfs_volume::journal::{CleanerOutcome, Entry, Event};
use std::alloc::Global;
use std::process::Abort;
use std::sync::Wait;
use std::thread::Threads;

/// Holds the first call of each of two sessions until the other's is begun, and the second until the other's first is
/// made.
#[derive(Drop)]
struct Meeting<'a, R: Wait> {
    /// The calls that are begun.
    begun: Watch<'a, R>,
    /// The first calls that are made.
    made: Watch<'a, R>,
}

impl<'a, R: Wait + Sync> Gate for Meeting<'a, R> {
    fn before(&self, session: u8, index: u32) {
        let other = match session {
            1 => 2,
            2 => 1,
            _ => return,
        };
        self.begun.note(session, index);
        if index == 0 {
            self.begun.wait_for(other, 0);
        } else if index == 1 {
            self.made.wait_for(other, 0);
        }
    }

    fn after(&self, session: u8, index: u32) {
        if index == 0 && (session == 1 || session == 2) {
            self.made.note(session, 0);
        }
    }
}

/// Asserts that no wait came to its limit.
pub fn assert_unfailed(rt: &impl Abort, watch: &Watch<'_, impl Wait>) {
    assert!(rt; !watch.has_failed());
}

/// Asserts that of each of these sessions so many calls are noted, with the indices from 0 on, in order.
pub fn assert_in_turn(rt: &impl Abort, watch: &Watch<'_, impl Wait>, counts: &[(u8, usize)]) {
    for (session, count) in counts {
        assert!(rt; watch.are_in_turn(*session, *count));
    }
}

/// Runs both sessions at this gate, and asserts that they were answered as they must be.
fn serve_at_meeting<R: Abort + Threads + Wait + Sync>(
    rt: &R,
    alloc: Global,
    gate: &Meeting<'_, R>,
) {
    let closed = serve_users(rt, alloc, WRITES, BOTH, gate);
    assert_unfailed(rt, &gate.begun);
    assert_unfailed(rt, &gate.made);
    assert_in_turn(rt, &gate.begun, &[(1, 4), (2, 4)]);
    assert_served(rt, alloc, &closed);
}

#[test]
fn two_sessions_meet(rt: HostRuntime) {
    let gate = Meeting {
        begun: Watch::new(&rt, rt.alloc()),
        made: Watch::new(&rt, rt.alloc()),
    };
    serve_at_meeting(&rt, rt.alloc(), &gate);
}

/// Holds the first call of session 2 until that of session 1 is made, and session 1 behind it until session 2's is made too.
#[derive(Drop)]
struct Behind<'a, R: Wait> {
    /// The first calls that are made.
    made: Watch<'a, R>,
}

impl<'a, R: Wait + Sync> Gate for Behind<'a, R> {
    fn before(&self, session: u8, index: u32) {
        if session == 2 && index == 0 {
            self.made.wait_for(1, 0);
        }
    }

    fn after(&self, session: u8, index: u32) {
        if index == 0 && (session == 1 || session == 2) {
            self.made.note(session, 0);
        }
        if index == 0 && session == 1 {
            self.made.wait_for(2, 0);
        }
    }
}

/// Runs both sessions at this gate, and asserts that they were answered as they must be.
fn serve_behind<R: Abort + Threads + Wait + Sync>(rt: &R, alloc: Global, gate: &Behind<'_, R>) {
    let closed = serve_users(rt, alloc, WRITES, BOTH, gate);
    assert_unfailed(rt, &gate.made);
    assert_served(rt, alloc, &closed);
}

#[test]
fn lock_is_free_behind_a_call(rt: HostRuntime) {
    let gate = Behind {
        made: Watch::new(&rt, rt.alloc()),
    };
    serve_behind(&rt, rt.alloc(), &gate);
}

/// Which call of a pass is the first Bmapv.
const BMAPV: u32 = 2;

/// Holds session 1 until the cleaner's first Bmapv is made, and the cleaner behind it until session 1's first call is made.
#[derive(Drop)]
struct Between<'a, R: Wait> {
    watch: Watch<'a, R>,
}

impl<'a, R: Wait + Sync> Gate for Between<'a, R> {
    fn before(&self, session: u8, index: u32) {
        if session == 1 && index == 0 {
            self.watch.wait_for(CLEANER, BMAPV);
        }
    }

    fn after(&self, session: u8, index: u32) {
        if session == 1 && index == 0 {
            self.watch.note(1, 0);
        } else if session == CLEANER && index == BMAPV {
            self.watch.note(CLEANER, BMAPV);
            self.watch.wait_for(1, 0);
        }
    }
}

/// Whether session 1 made its first call between the cleaner's first Bmapv and its first Markv.
fn is_called_between(journal: &[Entry]) -> bool {
    let mut is_located = false;
    let mut is_called = false;
    for entry in journal {
        match &entry.event {
            Event::User(_, _) if entry.session == 1 && !is_located => return false,
            Event::User(_, _) => is_called = is_called || entry.session == 1,
            Event::Cleaner(CleanerAct::Bmapv(_), CleanerOutcome::Done(_)) => is_located = true,
            Event::Cleaner(CleanerAct::Markv(_), CleanerOutcome::Done(_)) => return is_called,
            Event::Cleaner(_, _) => {}
        }
    }
    false
}

/// The answers to the first user.
const FIRST_ANSWERS: &str = "1 ok\n1 ok\n1 bytes 6869\n1 names a\n";

/// Asserts that session 1 called between the cleaner's Bmapv and Markv, and was answered as it must be.
fn assert_called_between(rt: &impl Abort, alloc: Global, closed: &Closed<LogStore>) {
    assert!(rt; is_called_between(closed.volume.journal()));
    assert_answers(rt, alloc, closed.transcripts.as_slice(), FIRST_ANSWERS);
}

/// Runs the first session at this gate, with the file written 25 times before, and asserts that it called between.
fn serve_between<R: Abort + Threads + Wait + Sync>(rt: &R, alloc: Global, gate: &Between<'_, R>) {
    let closed = serve_users(rt, alloc, 25, FIRST, gate);
    assert_unfailed(rt, &gate.watch);
    assert_called_between(rt, alloc, &closed);
}

#[test]
fn write_between_bmapv_and_markv(rt: HostRuntime) {
    let gate = Between {
        watch: Watch::new(&rt, rt.alloc()),
    };
    serve_between(&rt, rt.alloc(), &gate);
}
