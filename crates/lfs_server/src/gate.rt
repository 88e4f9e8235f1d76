//! What is called round each call of a run.

ghost use Rattle.std.specs.Prelude.{◌≡◌, ◌+◌, min};

/// A gate that each call of a run passes, without the lock on the volume. One that waits keeps its own handle. Calls
/// are counted from 0 for each session; 4,294,967,295 also stands for every call behind the one that has it.
pub trait Gate: Sync {
    /// A session is about to make a call.
    fn before(&self, session: u8, index: u32);

    /// A session has made a call.
    fn after(&self, session: u8, index: u32);

    /// Whether nobody waits at the gate between a session's call of this index and its next one. Then the next may be
    /// made in the same holding of the lock, and the gate is told neither that the one is made nor that the next is
    /// begun. It is asked under the lock, so it doesn't wait.
    fn is_open(&self, _session: u8, _index: u32) -> bool {
        false
    }
}

/// The gate that stands open.
impl Gate for () {
    fn before(&self, _session: u8, _index: u32) {}

    fn after(&self, _session: u8, _index: u32) {}

    fn is_open(&self, _session: u8, _index: u32) -> bool {
        true
    }
}

/// The turns of a session at a gate.
#[derive(Drop)]
pub struct Turns {
    /// The session.
    session: u8,
    /// The index of its next call.
    index: u32,
}

impl Turns {
    /// Those of a session that has made no call.
    pub(crate) fn new(session: u8) -> Turns
        ensures { result ≡ record { session = session; index = 0 } }
    {
        Turns { session, index: 0 }
    }

    /// Makes the session's next call between the two halves of the gate.
    pub(crate) fn pass<G: Gate, A: Drop, C: FnOnce() -> A>(&mut self, gate: &G, call: C) -> A
        requires { C.pre call }
        ensures made { C.post call result }
        ensures next { self.new ≡ record
            { session = self.old.session; index = min (self.old.index + 1) 4294967295 } }
    {
        gate.before(self.session, self.index);
        let answer = call();
        gate.after(self.session, self.index);
        self.step();
        answer
    }

    /// The session, and the index of its next call.
    pub(crate) fn next(&self) -> (u8, u32)
        ensures { result ≡ (self.now.session, self.now.index) }
    {
        (self.session, self.index)
    }

    /// The next call is made.
    pub(crate) fn step(&mut self)
        ensures { self.new ≡ record
            { session = self.old.session; index = min (self.old.index + 1) 4294967295 } }
    {
        self.index = self.index.saturating_add(1);
    }
}
