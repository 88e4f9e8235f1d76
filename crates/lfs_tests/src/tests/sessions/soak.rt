//! Eight sessions on shared and own files of a volume over the log store, with the cleaner at work.

use super::gates::{assert_in_turn, assert_unfailed};
use super::watch::Watch;
use super::{CLEANER, expect_run_settled, serve_log};
use crate::tests::{SMALL, calls, expect_answers, expect_eq, push, push_all};
use lfs_logstore::LogStore;
use lfs_model::asking::CleanerAct;
use lfs_server::gate::Gate;
use lfs_server::serving::Closed;
use lfs_types::answer::Answer;
use lfs_types::store::Params;
use lfs_volume::journal::{CleanerOutcome, Entry, Event};
use std::alloc::Global;
use std::process::Abort;
use std::sync::Wait;
use std::thread::Threads;

/// The numbers of the sessions of a soak.
const NUMBERS: [&str; 8] = ["1", "2", "3", "4", "5", "6", "7", "8"];

/// The rounds in which each session of a soak writes each of its two files, by the byte that it writes.
const ROUNDS: [&str; 12] = [
    "00", "01", "02", "03", "04", "05", "06", "07", "08", "09", "0a", "0b",
];

/// The superuser makes a file for all, and one for each session.
const SETUP: &str = "\
create /all 0666
create /o1 0666
create /o2 0666
create /o3 0666
create /o4 0666
create /o5 0666
create /o6 0666
create /o7 0666
create /o8 0666
";

/// How often a Write of a session into its own file has the session's number and the round's: it has four blocks.
const TIMES: usize = 1_024;

/// How many calls a session makes in a round: a Write, a Read, a Write, a Read, a List and a Sync.
const CALLS: usize = 6;

/// Appends what a session asks in a round: it writes its number and the round's, over and over, into its own file, and once
/// into that for all, reads and lists between, and syncs.
fn push_round(rt: &impl Abort, script: &mut String, number: &str, round: &str) {
    push_all(rt, script, &["write /o", number, " at 0 "]);
    for _ in 0..TIMES {
        push_all(rt, script, &["0", number, round]);
    }
    push_all(rt, script, &["\nread /o", number, " 2046 9\n"]);
    push_all(
        rt,
        script,
        &[
            "write /all at 0 0",
            number,
            round,
            "\nread /all 0 9\nlist /\nsync\n",
        ],
    );
}

/// Appends the lines of a session.
fn push_session(rt: &impl Abort, script: &mut String, number: &str) {
    push_all(
        rt,
        script,
        &["session ", number, "\nas ", number, " ", number, "\n"],
    );
    for round in &ROUNDS {
        push_round(rt, script, number, round);
    }
}

/// The setup and the sessions.
fn script(rt: &impl Abort, alloc: Global) -> String {
    let mut script = String::new(alloc);
    push(rt, &mut script, SETUP);
    for number in &NUMBERS {
        push_session(rt, &mut script, number);
    }
    script
}

/// The sizes of the volume: without the cleaner its log has room for more than half of the Writes. A round of a session that
/// is written by itself takes seven blocks of the log, and what is written together at most 28.
const SIZES: Params = Params {
    segments: 9,
    ..SMALL
};

/// Which of its 72 calls a session makes only after the cleaner was at work. By then, whatever the schedule, so much is
/// written that the cleaner is called: the log has had fewer than four clean segments. For each of nine rounds of eight
/// sessions has written four blocks of its own, and half a block of summaries and records at least.
const HELD: u32 = 54;

/// Which of the cleaner's calls is made only after it has cleaned a segment: it lists the ifile once where none is dirty,
/// and then a pass takes at most six calls for its first segment, and three at least for its second.
const CLEANED: u32 = 8;

/// Holds each session until the cleaner has cleaned a segment: else the schedule alone would say whether it does before
/// the sessions end. It notes the cleaner's calls.
#[derive(Drop)]
pub struct Holding<'a, R: Wait> {
    pub watch: Watch<'a, R>,
    /// The call before which a session is held, and the cleaner's call for which it is.
    pub held: u32,
    pub cleaned: u32,
}

impl<'a, R: Wait + Sync> Gate for Holding<'a, R> {
    fn before(&self, session: u8, index: u32) {
        if session != 0 && session != CLEANER && index == self.held {
            self.watch.wait_for(CLEANER, self.cleaned);
        }
    }

    fn after(&self, session: u8, index: u32) {
        if session == CLEANER {
            self.watch.note(CLEANER, index);
        }
    }
}

/// How many of the entries are the cleaner's.
fn cleanings(journal: &[Entry]) -> usize {
    journal
        .iter()
        .filter(|entry| entry.session == CLEANER)
        .count()
}

/// Asserts that the cleaner's calls, which are those of more than one pass, were counted through.
pub fn assert_cleaned_in_turn(rt: &impl Abort, watch: &Watch<'_, impl Wait>, journal: &[Entry]) {
    assert_in_turn(rt, watch, &[(CLEANER, cleanings(journal))]);
}

/// Whether an answer says that a call was served.
fn is_served(answer: &Answer) -> bool {
    matches!(answer, Answer::Served(_))
}

/// How many Writes a session asked for, and how many of them were served: the first and the third call of each round.
fn writes_of(transcript: &[Answer]) -> (usize, usize) {
    let mut asked = 0usize;
    let mut served = 0usize;
    for answers in transcript.chunks(CALLS) {
        if let [own, _, all, ..] = answers {
            asked = asked.saturating_add(2);
            served = served.saturating_add(usize::from(is_served(own)));
            served = served.saturating_add(usize::from(is_served(all)));
        }
    }
    (asked, served)
}

/// How many Writes all sessions asked for, and how many of them were served.
fn all_writes(transcripts: &[Vec<Answer>]) -> (usize, usize) {
    let mut asked = 0usize;
    let mut served = 0usize;
    for transcript in transcripts {
        let writes = writes_of(transcript.as_slice());
        asked = asked.saturating_add(writes.0);
        served = served.saturating_add(writes.1);
    }
    (asked, served)
}

/// Whether a segment became clean between two calls of sessions.
pub fn is_cleaned_between(journal: &[Entry]) -> bool {
    let mut is_begun = false;
    let mut is_cleaned = false;
    for entry in journal {
        match &entry.event {
            Event::User(_, _) if is_cleaned => return true,
            Event::User(_, _) => is_begun = is_begun || entry.session > 0,
            Event::Cleaner(CleanerAct::Segclean(_) | CleanerAct::Gain, CleanerOutcome::Done(_)) => {
                is_cleaned = is_begun
            }
            Event::Cleaner(_, _) => {}
        }
    }
    false
}

/// The last round, of so many calls, whose first was served.
pub fn last_round(transcript: &[Answer], calls: usize) -> Option<usize> {
    let mut last = None;
    for (round, answers) in transcript.chunks(calls.max(1)).enumerate() {
        if let [Answer::Served(_), ..] = answers {
            last = Some(round);
        }
    }
    last
}

/// The superuser reads the end of each session's file.
const READS: &str = "\
read /o1 2046 9
read /o2 2046 9
read /o3 2046 9
read /o4 2046 9
read /o5 2046 9
read /o6 2046 9
read /o7 2046 9
read /o8 2046 9
";

/// Appends the answer to a Read of a session's file that was last written in this round; none where it never was.
fn push_read(rt: &impl Abort, answers: &mut String, number: &str, last: Option<usize>) {
    match last {
        Some(round) if round < ROUNDS.len() => {
            push_all(rt, answers, &["0 bytes 0", number, ROUNDS[round], "\n"])
        }
        _ => push(rt, answers, "0 bytes -\n"),
    }
}

/// The answers to these Reads where each file has what was last written.
fn last_answers(rt: &impl Abort, alloc: Global, transcripts: &[Vec<Answer>]) -> String {
    let mut answers = String::new(alloc);
    for (number, transcript) in NUMBERS.iter().zip(transcripts) {
        let last = last_round(transcript.as_slice(), CALLS);
        push_read(rt, &mut answers, number, last);
    }
    answers
}

/// Has the superuser read each session's file, and asserts that it has what was last written.
fn assert_kept(rt: &impl Abort, alloc: Global, closed: &mut Closed<LogStore>) {
    let wanted = last_answers(rt, alloc, closed.transcripts.as_slice());
    let answers = closed
        .volume
        .run(calls(rt, alloc, READS))
        .expect(rt, "a run");
    expect_answers(rt, alloc, 0, answers.as_slice(), wanted.as_str());
}

/// Asserts that the journal is not at its limit, that the cleaner was at work, and that all was asked and half of it served.
fn assert_worked(rt: &impl Abort, journal: &[Entry], transcripts: &[Vec<Answer>]) {
    let (asked, served) = all_writes(transcripts);
    assert!(rt; journal.len() < 4000 && is_cleaned_between(journal));
    assert!(rt; asked == 192 && served >= 96);
}

/// Asserts of the run that it settles, and keeps what was written.
fn assert_soaked(rt: &impl Abort, alloc: Global, script: &str, closed: &mut Closed<LogStore>) {
    expect_eq(rt, closed.transcripts.len(), NUMBERS.len());
    expect_run_settled(rt, alloc, closed, script, Ok(()));
    assert_worked(rt, closed.volume.journal(), closed.transcripts.as_slice());
    assert_kept(rt, alloc, closed);
}

/// Runs the sessions at this gate, and asserts that they soaked, and that the cleaner's calls were counted through.
fn soak<R: Abort + Threads + Wait + Sync>(
    rt: &R,
    alloc: Global,
    script: &str,
    gate: &Holding<'_, R>,
) {
    let mut closed = serve_log(rt, alloc, SIZES, script, gate);
    assert_unfailed(rt, &gate.watch);
    assert_cleaned_in_turn(rt, &gate.watch, closed.volume.journal());
    assert_soaked(rt, alloc, script, &mut closed);
}

#[test]
fn eight_sessions_soak(rt: HostRuntime) {
    let script = script(&rt, rt.alloc());
    let gate = Holding {
        watch: Watch::new(&rt, rt.alloc()),
        held: HELD,
        cleaned: CLEANED,
    };
    soak(&rt, rt.alloc(), script.as_str(), &gate);
}
