//! What no clause says of settling: that a run that was really made settles.

use super::{BOTH_USERS, bytes_read, expect_settled};
use crate::tests::{calls, repeated};
use lfs_server::settle::Unsettled;
use lfs_types::answer::{Answer, Served};
use lfs_volume::flat_files::FlatFiles;
use lfs_volume::volume::Volume;
use std::alloc::Global;
use std::process::Abort;

/// The calls of both users, which alternate.
const RUN: &str = "\
create /x 0666
create /y 0666
session 2
as 8 8
write /y end 6869
session 1
as 7 7
write /x end 6869
read /x 0 9
session 2
as 8 8
read /y 0 9
";

/// What the first of them asks for, and the setup.
const FIRST_ALONE: &str = "\
create /x 0666
create /y 0666
session 1
as 7 7
write /x end 6869
read /x 0 9
";

/// Makes the calls of a script on a volume over the plain store, in the order of its lines, with this limit of its
/// journal.
fn run(rt: &impl Abort, alloc: Global, script: &str, journal: u32) -> Box<Volume<FlatFiles>> {
    let files = FlatFiles::new(alloc, 16).expect(rt, "a store");
    let mut volume = Volume::new(alloc, files, journal).expect(rt, "a volume");
    volume.run(calls(rt, alloc, script)).expect(rt, "a run");
    Box::new(alloc, volume).expect(rt, "memory")
}

/// So often Done.
fn dones(rt: &impl Abort, alloc: Global, count: usize) -> Vec<Answer> {
    let mut answers = Vec::new(alloc);
    for _ in 0..count {
        let done = Answer::Served(Served::Done);
        answers.push(done).expect(rt, "memory");
    }
    answers
}

/// What is told of this run, and what settling then says.
#[derive(Clone, Copy)]
struct Told {
    /// How many answers the setup had.
    answers: usize,
    /// What the setup and the sessions asked.
    script: &'static str,
    /// What each session read.
    reads: &'static [&'static [u8]],
    want: Result<(), Unsettled>,
}

/// The transcripts of sessions that were answered Done, and read these bytes.
fn transcripts(rt: &impl Abort, alloc: Global, reads: &[&[u8]]) -> Vec<Vec<Answer>> {
    let mut transcripts = Vec::new(alloc);
    for bytes in reads {
        let transcript = transcript(rt, alloc, bytes);
        transcripts.push(transcript).expect(rt, "memory");
    }
    transcripts
}

/// The transcript of such a session.
fn transcript(rt: &impl Abort, alloc: Global, bytes: &[u8]) -> Vec<Answer> {
    let mut answers = dones(rt, alloc, 1);
    let read = bytes_read(rt, alloc, bytes);
    answers.push(read).expect(rt, "memory");
    answers
}

/// Asserts that settling says of the run what it must, told so.
fn settle_as(rt: &impl Abort, alloc: Global, volume: &Volume<FlatFiles>, told: &Told) {
    let answers = dones(rt, alloc, told.answers);
    let transcripts = transcripts(rt, alloc, told.reads);
    let answers = (answers.as_slice(), transcripts.as_slice());
    expect_settled(rt, alloc, volume, told.script, answers, told.want);
}

/// Makes the run, and asserts of each case that settling says what it must.
fn settle_each(rt: &impl Abort, alloc: Global, cases: &[Told]) {
    let volume = run(rt, alloc, RUN, 8);
    for told in cases {
        settle_as(rt, alloc, &volume, told);
    }
}

/// The run as it was, and one in which session 1 read other bytes.
const AS_ANSWERED: [Told; 2] = [
    Told {
        answers: 2,
        script: BOTH_USERS,
        reads: &[b"hi", b"hi"],
        want: Ok(()),
    },
    Told {
        answers: 2,
        script: BOTH_USERS,
        reads: &[b"ho", b"hi"],
        want: Err(Unsettled(1)),
    },
];

#[test]
fn two_sessions_settle(rt: HostRuntime) {
    settle_each(&rt, rt.alloc(), &AS_ANSWERED);
}

/// A setup with too few answers, a script and a transcript without the other, and a session that has neither.
const WITHOUT_A_PART: [Told; 4] = [
    Told {
        answers: 1,
        script: BOTH_USERS,
        reads: &[b"ho", b"ho"],
        want: Err(Unsettled(0)),
    },
    Told {
        answers: 2,
        script: FIRST_ALONE,
        reads: &[b"ho", b"ho"],
        want: Err(Unsettled(1)),
    },
    Told {
        answers: 2,
        script: BOTH_USERS,
        reads: &[b"hi"],
        want: Err(Unsettled(2)),
    },
    Told {
        answers: 2,
        script: FIRST_ALONE,
        reads: &[b"hi"],
        want: Err(Unsettled(255)),
    },
];

#[test]
fn lowest_session_is_named(rt: HostRuntime) {
    settle_each(&rt, rt.alloc(), &WITHOUT_A_PART);
}

/// How many calls each of eight sessions makes.
const CALLS: usize = 12_500;

/// One call of each, of a user.
const ROUND: &str = "\
as 7 7
session 1
sync
session 2
sync
session 3
sync
session 4
sync
session 5
sync
session 6
sync
session 7
sync
session 8
sync
";

/// The answers to eight sessions.
fn eight_transcripts(rt: &impl Abort, alloc: Global) -> Vec<Vec<Answer>> {
    let mut transcripts = Vec::new(alloc);
    for _ in 0..8 {
        let transcript = dones(rt, alloc, CALLS);
        transcripts.push(transcript).expect(rt, "memory");
    }
    transcripts
}

/// Makes the calls of eight sessions in turn, so that a journal has 100,000 entries, and asserts that this settles.
fn settle_long_run(rt: &impl Abort, alloc: Global, script: &str) {
    let volume = run(rt, alloc, script, 100_000);
    let transcripts = eight_transcripts(rt, alloc);
    let none: &[Answer] = &[];
    let answers = (none, transcripts.as_slice());
    expect_settled(rt, alloc, &volume, script, answers, Ok(()));
}

#[test]
fn hundred_thousand_entries_settle(rt: HostRuntime) {
    let script = repeated(&rt, rt.alloc(), ROUND, CALLS);
    settle_long_run(&rt, rt.alloc(), script.as_str());
}
