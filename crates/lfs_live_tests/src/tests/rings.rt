//! What no clause says of the doorbell: that each ring is a pass, however many wait.

use super::bell::{CLEANER, push, push_round};
use super::watch::Watch;
use super::{SMALL, plan_of};
use lfs_logstore::LogStore;
use lfs_model::asking::CleanerAct;
use lfs_server::gate::Gate;
use lfs_server::serve::serve;
use lfs_server::serving::Closed;
use lfs_types::answer::{Answer, Resource};
use lfs_volume::journal::{Entry, Event};
use std::alloc::Global;
use std::process::Abort;
use std::sync::Wait;
use std::thread::Threads;

/// How often a file of 4,096 bytes is written over and synced. A round that is served takes ten blocks of the log: eight of
/// the file, one of records and a summary. Six segments have 384, so at most 38 rounds are served.
const ROUNDS: usize = 60;

/// So many Writes are refused at least, each of which rings.
const REFUSED: usize = 22;

/// The index of the last call: the file is made, and in each round written and synced.
const LAST: u32 = 120;

/// Holds the cleaner's first call until session 1 has made its last, so that all rings but the first wait. It stands open
/// between the session's calls, so that those which don't want the cleaner share a holding of the lock.
#[derive(Drop)]
struct Late<'a, R: Wait> {
    watch: Watch<'a, R>,
}

impl<'a, R: Wait + Sync> Gate for Late<'a, R> {
    fn before(&self, session: u8, index: u32) {
        if session == CLEANER && index == 0 {
            self.watch.wait_for(1, LAST);
        }
    }

    fn after(&self, session: u8, index: u32) {
        if session == 1 && index == LAST {
            self.watch.note(1, LAST);
        }
    }

    fn is_open(&self, _session: u8, _index: u32) -> bool {
        true
    }
}

/// The calls, as session 1.
fn script(rt: &impl Abort, alloc: Global) -> String {
    let mut script = String::new(alloc);
    push(rt, &mut script, "session 1\ncreate /a 0666\n");
    for _ in 0..ROUNDS {
        push_round(rt, alloc, &mut script);
    }
    script
}

/// How many answers tell that there was no space.
fn refusals(answers: &[Answer]) -> usize {
    let no_space = |answer: &&Answer| matches!(answer, Answer::Refused(Resource::NoSpace));
    answers.iter().filter(no_space).count()
}

/// How many entries are calls for the ifile: one at the least of each pass, and three at the most.
fn ifiles(journal: &[Entry]) -> usize {
    let is_ifile = |entry: &&Entry| matches!(entry.event, Event::Cleaner(CleanerAct::Ifile, _));
    journal.iter().filter(is_ifile).count()
}

/// Asserts that the calls were refused so often, and that there was a pass for each, and one more for the ring behind the
/// setup.
fn expect_passes(rt: &impl Abort, closed: &Closed<LogStore>) {
    let mut refused = 0usize;
    for transcript in &closed.transcripts {
        refused = refused.saturating_add(refusals(transcript.as_slice()));
    }
    assert!(rt; refused >= REFUSED);
    assert!(rt; ifiles(closed.volume.journal()) > REFUSED);
}

/// Runs the calls at this gate.
fn serve_late<R: Abort + Threads + Wait + Sync>(rt: &R, alloc: Global, gate: &Late<'_, R>) {
    let text = script(rt, alloc);
    let plan = plan_of(rt, alloc, text.as_str());
    let (setup, sessions) = plan.split(alloc).expect(rt, "sessions");
    let closed = serve(rt, alloc, SMALL, setup, sessions, gate).expect(rt, "a run");
    expect_passes(rt, &closed);
}

#[test]
fn each_ring_is_a_pass(rt: HostRuntime) {
    let gate = Late {
        watch: Watch::new(&rt, rt.alloc()),
    };
    serve_late(&rt, rt.alloc(), &gate);
    gate.watch.assert_unfailed(&rt);
}
