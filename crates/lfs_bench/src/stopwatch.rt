//! A watch that takes the time of sessions' calls on threads.

use anyhow::{Result, bail};
use lfs_server::gate::Gate;
use std::rt::Clock;
use std::sync::{Mutex, Wait};
use std::time::Instant;

/// The last session's number; the first one's is 1.
const LAST_SESSION: u8 = 8;

/// When the sessions began and ended.
#[derive(Clone, Copy)]
struct Times {
    /// When the first call was about to be made.
    start: Option<Instant>,
    /// When the last call that ended a session was made.
    end: Option<Instant>,
}

/// A gate that takes the time from the first call's beginning to the last call's end, over all sessions on threads. It
/// takes its lock at the first and the last call of each session alone.
#[derive(Drop)]
pub(crate) struct Stopwatch<'a, R: Wait> {
    rt: &'a R,
    last: u32,
    times: Mutex<Times>,
}

impl<'a, R: Wait + Clock> Stopwatch<'a, R> {
    /// A watch over sessions whose last calls have this index.
    pub(crate) fn new(rt: &'a R, last: u32) -> Self {
        let times = Mutex::new(Times {
            start: None,
            end: None,
        });
        Stopwatch { rt, last, times }
    }

    /// How many seconds the sessions' calls took.
    pub(crate) fn seconds(&self) -> Result<f64> {
        let Times { start, end } = *self.times.lock(self.rt);
        let (Some(start), Some(end)) = (start, end) else {
            bail!("the sessions were not timed");
        };
        Ok(end.duration_since(start).as_secs_f64())
    }
}

impl<'a, R: Wait + Clock + Sync> Gate for Stopwatch<'a, R> {
    fn before(&self, session: u8, index: u32) {
        if index == 0 && is_user(session) {
            let now = Instant::now(self.rt).ok();
            let mut times = self.times.lock(self.rt);
            times.start = times.start.or(now);
        }
    }

    fn after(&self, session: u8, index: u32) {
        if index == self.last && is_user(session) {
            let now = Instant::now(self.rt).ok();
            self.times.lock(self.rt).end = now;
        }
    }

    fn is_open(&self, _session: u8, _index: u32) -> bool {
        true
    }
}

/// Whether this is a session on a thread of its own, and not the cleaner or the setup.
fn is_user(session: u8) -> bool {
    (1..=LAST_SESSION).contains(&session)
}
