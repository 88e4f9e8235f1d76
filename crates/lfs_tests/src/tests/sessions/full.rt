//! Two sessions that write more than the log has room for, with the cleaner at work.

use super::gates::assert_unfailed;
use super::soak::{Holding, assert_cleaned_in_turn, is_cleaned_between, last_round};
use super::watch::Watch;
use super::{expect_run_settled, serve_log};
use crate::tests::{SMALL, calls, expect_answers, push, push_all, repeated};
use lfs_logstore::LogStore;
use lfs_server::serving::Closed;
use lfs_types::answer::{Answer, Resource, Served};
use lfs_types::store::Params;
use std::alloc::Global;
use std::process::Abort;
use std::sync::Wait;
use std::thread::Threads;

/// How many rounds each session has: a Write and a Sync in each.
const ROUNDS: usize = 200;

/// How many calls a session makes in a round: a Write and a Sync.
const CALLS: usize = 2;

/// The superuser makes a file for each session.
const SETUP: &str = "create /a 0666\ncreate /b 0666\n";

/// The numbers of the volume.
const SIZES: Params = Params {
    journal: 100_000,
    ..SMALL
};

/// The byte that a session writes in a round: session 1 the round's number modulo 2, session 2 a 2.
fn byte_in(session: usize, round: usize) -> &'static str {
    match (session, round % 2) {
        (1, 0) => "00",
        (1, _) => "01",
        _ => "02",
    }
}

/// Appends the rounds of a session: 4,096 bytes are written at the start of its file, and a Sync is made.
fn push_rounds(rt: &impl Abort, alloc: Global, script: &mut String, session: usize, file: &str) {
    for round in 0..ROUNDS {
        let bytes = repeated(rt, alloc, byte_in(session, round), 4096);
        push_all(
            rt,
            script,
            &["write ", file, " at 0 ", bytes.as_str(), "\nsync\n"],
        );
    }
}

/// The setup and the sessions.
fn script(rt: &impl Abort, alloc: Global) -> String {
    let mut script = String::new(alloc);
    push_all(rt, &mut script, &[SETUP, "session 1\nas 7 7\n"]);
    push_rounds(rt, alloc, &mut script, 1, "/a");
    push(rt, &mut script, "session 2\nas 8 8\n");
    push_rounds(rt, alloc, &mut script, 2, "/b");
    script
}

/// Which call of its 400 a session makes only after the cleaner was at work. By then it has asked to write more blocks
/// than the log has.
const HELD: u32 = 200;

/// Which of the cleaner's calls is made only after it has cleaned a segment: the ifile where none is dirty, and then at
/// most ten calls for the first that is.
const CLEANED: u32 = 12;

/// Asserts that each answer says that the call is done, or that there was no room.
fn expect_done_or_full(rt: &impl Abort, transcript: &[Answer]) {
    assert!(rt; transcript.len() == 400);
    for answer in transcript {
        let is_one = matches!(
            answer,
            Answer::Served(Served::Done) | Answer::Refused(Resource::NoSpace)
        );
        assert!(rt; is_one);
    }
}

/// Appends the answer to a Read of the file of a session.
fn push_read(
    rt: &impl Abort,
    alloc: Global,
    answers: &mut String,
    session: usize,
    last: Option<usize>,
) {
    match last {
        Some(round) => {
            let bytes = repeated(rt, alloc, byte_in(session, round), 4096);
            push_all(rt, answers, &["0 bytes ", bytes.as_str(), "\n"]);
        }
        None => push(rt, answers, "0 bytes -\n"),
    }
}

/// What the superuser reads where each file has what was last written.
fn last_answers(rt: &impl Abort, alloc: Global, transcripts: &[Vec<Answer>]) -> String {
    let mut answers = String::new(alloc);
    for (index, transcript) in transcripts.iter().enumerate() {
        let session = index.saturating_add(1);
        let last = last_round(transcript.as_slice(), CALLS);
        push_read(rt, alloc, &mut answers, session, last);
    }
    answers
}

/// Asserts that each file has what was last written.
fn expect_kept(rt: &impl Abort, alloc: Global, closed: &mut Closed<LogStore>) {
    let wanted = last_answers(rt, alloc, closed.transcripts.as_slice());
    let reads = calls(rt, alloc, "read /a 0 4096\nread /b 0 4096\n");
    let answers = closed.volume.run(reads).expect(rt, "a run");
    expect_answers(rt, alloc, 0, answers.as_slice(), wanted.as_str());
}

/// Asserts of the run that it settles, that there was room or none, and that the cleaner was at work between.
fn expect_run(rt: &impl Abort, alloc: Global, script: &str, closed: &mut Closed<LogStore>) {
    assert!(rt; closed.transcripts.len() == 2);
    for transcript in &closed.transcripts {
        expect_done_or_full(rt, transcript.as_slice());
    }
    assert!(rt; is_cleaned_between(closed.volume.journal()));
    expect_run_settled(rt, alloc, closed, script, Ok(()));
    expect_kept(rt, alloc, closed);
}

/// Runs the sessions at this gate, and asserts of the run what it must be.
fn fill<R: Abort + Threads + Wait + Sync>(
    rt: &R,
    alloc: Global,
    script: &str,
    gate: &Holding<'_, R>,
) {
    let mut closed = serve_log(rt, alloc, SIZES, script, gate);
    assert_unfailed(rt, &gate.watch);
    assert_cleaned_in_turn(rt, &gate.watch, closed.volume.journal());
    expect_run(rt, alloc, script, &mut closed);
}

#[test]
fn sessions_that_fill_the_log_are_done_or_told_so(rt: HostRuntime) {
    let script = script(&rt, rt.alloc());
    let gate = Holding {
        watch: Watch::new(&rt, rt.alloc()),
        held: HELD,
        cleaned: CLEANED,
    };
    fill(&rt, rt.alloc(), script.as_str(), &gate);
}
