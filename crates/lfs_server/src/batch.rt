//! The calls that a session makes next, some of them in one holding of the lock.

ghost use Rattle.std.specs.Prelude.{◌≡◌, ◌++◌, ◌+◌, ◌<◌, [], OnOk, min};

use crate::gate::{Gate, Turns};
use crate::run::Run;
use lfs_types::answer::Answer;
use lfs_types::cred::Cred;
use lfs_types::request::Request;
use std::alloc::{AllocError, Global};
use std::collections::VecDeque;
use std::sync::atomic::Ordering;

/// The most calls that a session makes in one holding of the lock, which takes a tenth of a millisecond. Passing the lock
/// on moves the volume from one processor's cache to another's, which takes tens of microseconds.
pub const MOST_CALLS: usize = 256;

/// The calls that a session makes next, and the answers that it has had.
#[derive(Drop)]
pub struct Batch {
    /// Its turns at the gate.
    pub turns: Turns,
    /// The calls, each of a copy of what the session's script asks.
    pub calls: VecDeque<(Cred, Request)>,
    /// The answers to those before.
    pub answers: Vec<Answer>,
}

impl Batch {
    /// That of a session that has made no call. Its answers go into this vector.
    pub fn new(session: u8, alloc: Global, answers: Vec<Answer>) -> Result<Batch, AllocError> {
        let calls = VecDeque::with_capacity(alloc, MOST_CALLS)?;
        Ok(Batch {
            turns: Turns::new(session),
            calls,
            answers,
        })
    }

    /// Puts copies of these lines of the session's script behind the calls.
    pub fn take(&mut self, alloc: Global, lines: &[(Cred, Request)]) -> Result<(), AllocError>
        ensures calls { OnOk result (self.new.calls.items ≡ self.old.calls.items ++ lines.now) }
    {
        for (cred, request) in lines {
            self.calls.push_back((*cred, request.try_clone(alloc)?))?;
        }
        Ok(())
    }

    /// Whether the next call is made in the same holding of the lock as the one before it: there is one, the gate is
    /// open and the cleaner doesn't wait. Then the one before it is counted.
    pub fn goes_on<R, G: Gate>(&mut self, run: &Run<'_, R, G>) -> bool
        ensures calls { self.new.calls.items ≡ self.old.calls.items }
        ensures answers { self.new.answers.items ≡ self.old.answers.items }
        ensures session { self.new.turns.session ≡ self.old.turns.session }
    {
        let (session, index) = self.turns.next();
        let goes_on = !self.calls.is_empty()
            && run.gate.is_open(session, index)
            && !run.is_awaited.load(Ordering::SeqCst);
        if goes_on {
            self.turns.step();
        }
        goes_on
    }
}
