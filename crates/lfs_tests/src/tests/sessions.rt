//! Sessions: runs of them on threads, and settling.

mod full;
mod gates;
mod log;
mod plain;
mod settling;
mod soak;
mod watch;

use crate::tests::{append_answers, expect_eq, expect_lines, plan_of};
use lfs_logstore::LogStore;
use lfs_server::gate::Gate;
use lfs_server::serve::serve;
use lfs_server::serving::Closed;
use lfs_server::settle::{Unsettled, settle};
use lfs_types::answer::{Answer, Served};
use lfs_types::payload::Bytes;
use lfs_types::script::Script;
use lfs_types::store::{FileStore, Params};
use lfs_volume::volume::Volume;
use std::alloc::Global;
use std::process::Abort;
use std::sync::Wait;
use std::thread::Threads;

/// The session of the cleaner.
const CLEANER: u8 = 255;

/// The setup makes a file for each of two users, who write two bytes into theirs and read it.
const BOTH_USERS: &str = "\
create /x 0666
create /y 0666
session 1
as 7 7
write /x end 6869
read /x 0 9
session 2
as 8 8
write /y end 6869
read /y 0 9
";

/// What a script asks for in its setup, and in each session.
fn split(rt: &impl Abort, alloc: Global, script: &str) -> (Script, Vec<Script>) {
    let plan = plan_of(rt, alloc, script);
    plan.split(alloc).expect(rt, "sessions")
}

/// Runs a script on a fresh volume over a log. What it leaves lies in memory of its own, as a fresh volume does.
fn serve_log<R: Abort + Threads + Wait + Sync, G: Gate>(
    rt: &R,
    alloc: Global,
    params: Params,
    script: &str,
    gate: &G,
) -> Box<Closed<LogStore>> {
    let (setup, sessions) = split(rt, alloc, script);
    let closed = serve(rt, alloc, params, setup, sessions, gate);
    Box::new(alloc, closed.expect(rt, "a run")).expect(rt, "memory")
}

/// Asserts that sessions were answered so, session 1's lines first.
fn assert_answers(rt: &impl Abort, alloc: Global, transcripts: &[Vec<Answer>], wanted: &str) {
    let mut text = Vec::new(alloc);
    let mut session = 0u8;
    for transcript in transcripts {
        session = session.saturating_add(1);
        append_answers(rt, &mut text, session, transcript.as_slice());
    }
    expect_lines(rt, text.as_slice(), wanted);
}

/// The answer to a Read that gives these bytes.
fn bytes_read(rt: &impl Abort, alloc: Global, bytes: &[u8]) -> Answer {
    let bytes = Vec::from_slice(alloc, bytes).expect(rt, "memory");
    let bytes = Bytes::new(bytes).expect(rt, "memory");
    Answer::Served(Served::Bytes(bytes))
}

/// Asserts that settling says this of a script of at most eight sessions, and of these answers to its setup and to them.
fn expect_settled<F: FileStore + Drop>(
    rt: &impl Abort,
    alloc: Global,
    volume: &Volume<F>,
    script: &str,
    (answers, transcripts): (&[Answer], &[Vec<Answer>]),
    wanted: Result<(), Unsettled>,
) {
    let (setup, scripts) = split(rt, alloc, script);
    let scripts = scripts.as_slice();
    assert!(rt; scripts.len() <= 8 && transcripts.len() <= 8);
    let result = settle(volume, &setup, answers, scripts, transcripts);
    expect_eq(rt, result, wanted);
}

/// Asserts that settling says this of a run of a script.
fn expect_run_settled<F: FileStore + Drop>(
    rt: &impl Abort,
    alloc: Global,
    closed: &Closed<F>,
    script: &str,
    wanted: Result<(), Unsettled>,
) {
    let answers = (closed.setup.as_slice(), closed.transcripts.as_slice());
    expect_settled(rt, alloc, &closed.volume, script, answers, wanted);
}
