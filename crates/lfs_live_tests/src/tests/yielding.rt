//! What no clause says of the lock: that a session gives it up to a cleaner that waits for it.

use super::bell::{CLEANER, push};
use super::watch::{Watch, pause};
use super::{SMALL, plan_of};
use lfs_server::gate::Gate;
use lfs_server::serve::serve;
use std::alloc::Global;
use std::process::Abort;
use std::sync::Wait;
use std::thread::Threads;

/// The call of session 1 behind which its gate waits, under the lock, for the cleaner.
const HELD: u32 = 2;

/// How many calls session 1 makes: no more than may share a holding of the lock.
const CALLS: u32 = 16;

/// Stands open between the calls of session 1, and holds the cleaner's first call until the session has made three in one
/// holding of the lock. Behind the third, and behind each other until the cleaner's call is made, it lets the cleaner come
/// to the lock, for which it then waits.
#[derive(Drop)]
struct Awaited<'a, R: Wait> {
    /// The session's third call, once it is made, and the cleaner's first, once it is begun.
    held: Watch<'a, R>,
    /// The last call of each holding.
    made: Watch<'a, R>,
}

impl<'a, R: Wait + Sync> Gate for Awaited<'a, R> {
    fn before(&self, session: u8, index: u32) {
        if session == CLEANER && index == 0 {
            self.held.wait_for(1, HELD);
            self.held.note(CLEANER, 0);
        }
    }

    fn after(&self, session: u8, index: u32) {
        self.made.note(session, index);
    }

    fn is_open(&self, session: u8, index: u32) -> bool {
        if session == 1 && index == HELD {
            self.held.note(1, HELD);
            self.held.wait_for(CLEANER, 0);
        }
        if session == 1 && index >= HELD && !self.made.has(CLEANER, 0) {
            pause();
        }
        true
    }
}

/// So many syncs of session 1.
fn script(rt: &impl Abort, alloc: Global) -> String {
    let mut script = String::new(alloc);
    push(rt, &mut script, "session 1\n");
    for _ in 0..CALLS {
        push(rt, &mut script, "sync\n");
    }
    script
}

/// Whether a holding of session 1 ended behind its third call, or one behind that, with calls left.
fn is_cut_short(made: &Watch<'_, impl Wait>) -> bool {
    for index in HELD..CALLS - 1 {
        if made.has(1, index) {
            return true;
        }
    }
    false
}

/// Runs the calls at this gate.
fn serve_awaited<R: Abort + Threads + Wait + Sync>(rt: &R, alloc: Global, gate: &Awaited<'_, R>) {
    let text = script(rt, alloc);
    let plan = plan_of(rt, alloc, text.as_str());
    let (setup, sessions) = plan.split(alloc).expect(rt, "sessions");
    let closed = serve(rt, alloc, SMALL, setup, sessions, gate).expect(rt, "a run");
    assert!(rt; closed.volume.journal().len() > CALLS as usize);
}

#[test]
fn session_gives_up_the_lock_to_a_cleaner_that_waits(rt: HostRuntime) {
    let gate = Awaited {
        held: Watch::new(&rt, rt.alloc()),
        made: Watch::new(&rt, rt.alloc()),
    };
    serve_awaited(&rt, rt.alloc(), &gate);
    gate.held.assert_unfailed(&rt);
    assert!(&rt; gate.made.has(1, CALLS - 1) && is_cut_short(&gate.made));
}
