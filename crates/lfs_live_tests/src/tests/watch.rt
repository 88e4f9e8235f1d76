//! What gates note of a run, and how they wait for it.

use std::alloc::Global;
use std::process::Abort;
use std::sync::{Mutex, Wait};
use std::thread;

/// How often a gate that waits looks.
const LOOKS: u32 = 1_000_000;

/// How often one that pauses lets others get on.
const PAUSE: u32 = 200_000;

/// Lets others get on for a while.
pub fn pause() {
    for _ in 0..PAUSE {
        thread::yield_now();
    }
}

/// What gates have noted.
#[derive(Drop)]
struct Noted {
    /// The calls: of each its session, and its index.
    calls: Vec<(u8, u32)>,
    /// Whether a wait came to its limit, or there was no memory for a note.
    failed: bool,
}

/// The calls that gates have noted, shared by the threads, and the handle by which they wait.
#[derive(Drop)]
pub struct Watch<'a, R: Wait> {
    rt: &'a R,
    noted: Mutex<Noted>,
}

impl<'a, R: Wait> Watch<'a, R> {
    pub fn new(rt: &'a R, alloc: Global) -> Self {
        let noted = Noted {
            calls: Vec::new(alloc),
            failed: false,
        };
        Watch {
            rt,
            noted: Mutex::new(noted),
        }
    }

    /// Notes this session's call of this index.
    pub fn note(&self, session: u8, index: u32) {
        let mut noted = self.noted.lock(self.rt);
        if noted.calls.push((session, index)).is_err() {
            noted.failed = true;
        }
    }

    /// Whether that call is noted.
    pub fn has(&self, session: u8, index: u32) -> bool {
        self.noted.lock(self.rt).calls.contains(&(session, index))
    }

    /// Waits until that call is noted, and notes a failure where it is not in so many looks. Between them others get on.
    pub fn wait_for(&self, session: u8, index: u32) {
        for _ in 0..LOOKS {
            if self.has(session, index) {
                return;
            }
            thread::yield_now();
        }
        self.noted.lock(self.rt).failed = true;
    }

    /// Asserts that no wait came to its limit, and each note found memory.
    pub fn assert_unfailed(&self, rt: &impl Abort) {
        assert!(rt; !self.noted.lock(self.rt).failed);
    }
}
