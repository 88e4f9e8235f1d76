//! `lfsd --journal-out`: each entry's line is written to a file, which may not be there before.

use super::files::Disk;
use super::server::{BY_SESSION, LINE_BY_LINE, PASSED, TURNS};
use super::{Program, end_of, expect_end, expect_refused, has_part, page_of};
use crate::tests::{expect_eq, push};
use std::alloc::Global;
use std::process::Abort;
use std::sync::Wait;
use std::thread::Threads;

/// Words that ask for the journal in the file that can be made, with the least window.
const FILED: &[&[u8]] = &[
    b"lfsd",
    b"--segments=6",
    b"--journal=128",
    b"--journal-out",
    b"journal.out",
];

/// The same with each session on a thread of its own.
const THREADS: &[&[u8]] = &[
    b"lfsd",
    b"--threads",
    b"--segments=6",
    b"--journal-out",
    b"journal.out",
];

/// The lines of the entries of two sessions that take turns.
const ENTRIES: &str = "#1 0 as 0 0 | create /a 0666 | ok\n\
    #2 2 as 7 7 | write /a at 0 6869 | ok\n\
    #3 1 as 7 7 | list / | names a\n";

#[test]
fn server_writes_its_entries_to_a_file(rt: HostRuntime) {
    let wanted = (0, LINE_BY_LINE, "");
    let asked = (Program::Server, FILED);
    let page = page_of(&rt, rt.alloc(), asked, &mut &*TURNS, wanted, 1);
    expect_eq(&rt, page.as_slice(), ENTRIES.as_bytes());
}

/// The line of a Stat, behind its number.
const STAT: &str = " 0 as 0 0 | stat /a | stat 4 file 0 0 0644 00000000 0\n";

/// The lines of a Create and of 999 Stats.
fn thousand_lines(rt: &impl Abort, alloc: Global) -> String {
    let mut text = String::new(alloc);
    push(rt, &mut text, "#1 0 as 0 0 | create /a 0644 | ok\n");
    for number in 2..=1000_u32 {
        push(rt, &mut text, "#");
        push(rt, &mut text, itoa::Buffer::new().format(number));
        push(rt, &mut text, STAT);
    }
    text
}

/// A line, another 999 times, and a third.
fn thousand_of(rt: &impl Abort, alloc: Global, lines: [&str; 3]) -> String {
    let [first, other, last] = lines;
    let mut text = String::new(alloc);
    push(rt, &mut text, first);
    for _ in 0..999 {
        push(rt, &mut text, other);
    }
    push(rt, &mut text, last);
    text
}

/// What is asked, what is answered behind the Create and the Stats, and the report.
const ASKED: [&str; 3] = ["create /a 0644\n", "stat /a\n", ""];

const ANSWERED: [&str; 3] = [
    "0 ok\n",
    "0 stat 4 file 0 0 0644 00000000 0\n",
    "entries 1000\nserved 1000\ndenied 0\nrefused 0\ncleaner 0\n",
];

/// What is written to the file where a file is made and shown 999 times.
fn thousand_entries<S: Abort + Threads + Wait + Sync>(rt: &S, alloc: Global) -> Vec<u8> {
    let script = thousand_of(rt, alloc, ASKED);
    let out = thousand_of(rt, alloc, ANSWERED);
    let wanted = (0, out.as_str(), "");
    let asked = (Program::Server, FILED);
    page_of(rt, alloc, asked, &mut script.as_bytes(), wanted, 1)
}

#[test]
fn file_has_each_of_a_thousand_entries_once(rt: HostRuntime) {
    let page = thousand_entries(&rt, rt.alloc());
    let lines = thousand_lines(&rt, rt.alloc());
    expect_eq(&rt, page.as_slice(), lines.as_bytes());
}

/// What is told of the turns where the file takes no byte: the first call was made by then, and no other is.
const UNWRITTEN: &str = "0 ok\n2 refused JournalFull\n1 refused JournalFull\n\
    entries 1\nserved 1\ndenied 0\nrefused 0\ncleaner 0\nunentered JournalFull 2\n";

/// What is told of such a file.
const NO_ROOM: &str = "lfsd: journal not written: write failed\n";

#[test]
fn server_tells_once_that_the_file_has_no_room(rt: HostRuntime) {
    let alloc = rt.alloc();
    let disk = Disk::new(alloc, true);
    let wanted = (1, UNWRITTEN, NO_ROOM);
    expect_end(&rt, &disk, (Program::Server, FILED), &mut &*TURNS, wanted);
}

/// Words that ask for a file that is there, on the caller's thread and on threads.
const THERE: [&[&[u8]]; 2] = [
    &[b"lfsd", b"--journal-out=there.out"],
    &[b"lfsd", b"--threads", b"--journal-out=there.out"],
];

#[test]
fn file_that_is_there_is_left(rt: HostRuntime) {
    for words in THERE {
        let asked = (Program::Server, words);
        let wanted = (2, "", "lfsd: journal file exists\n");
        page_of(&rt, rt.alloc(), asked, &mut &*TURNS, wanted, 0);
    }
}

#[test]
fn script_with_a_fault_makes_no_file(rt: HostRuntime) {
    for words in [FILED, THREADS] {
        let asked = (Program::Server, words);
        let told = "lfsd: script line 1: Words 'nonsense' at 1: no line begins so\n";
        let mut script = b"nonsense\n".as_slice();
        page_of(&rt, rt.alloc(), asked, &mut script, (1, "", told), 0);
    }
}

/// Asserts that sessions on threads took turns, whether the cleaner was asked to pass or not.
fn expect_turns(rt: &impl Abort, out: &[u8]) {
    let is_known = out == BY_SESSION.as_bytes() || out == PASSED.as_bytes();
    expect_eq(rt, is_known, true);
}

/// Asserts that sessions on threads take turns over the files of a disk, and end with this status and this text.
fn expect_sessions<S: Abort + Threads + Wait + Sync>(
    rt: &S,
    disk: &Disk,
    (status, err): (u8, &str),
) {
    let found = end_of(rt, disk, Program::Server, THREADS, &mut &*TURNS);
    expect_eq(rt, found.status, status);
    expect_eq(rt, found.err.as_slice(), err.as_bytes());
    expect_turns(rt, found.out.as_slice());
}

/// Lines of the entries of both sessions.
const OF_BOTH: [&str; 2] = [
    " 2 as 7 7 | write /a at 0 6869 | ok\n",
    " 1 as 7 7 | list / | names a\n",
];

#[test]
fn sessions_on_threads_have_a_file(rt: HostRuntime) {
    let disk = Disk::new(rt.alloc(), false);
    expect_sessions(&rt, &disk, (0, ""));
    let page = disk.into_page();
    let first = b"#1 0 as 0 0 | create /a 0666 | ok\n#2 ";
    expect_eq(&rt, page.starts_with(first), true);
    for line in OF_BOTH {
        expect_eq(&rt, has_part(page.as_slice(), line), true);
    }
}

#[test]
fn sessions_on_threads_have_a_file_without_room(rt: HostRuntime) {
    let disk = Disk::new(rt.alloc(), true);
    expect_sessions(&rt, &disk, (1, NO_ROOM));
}

#[test]
fn small_window_is_refused(rt: HostRuntime) {
    let words: &[&[u8]] = &[b"lfsd", b"--journal-out=journal.out", b"--journal=127"];
    let part = "--journal-out takes a --journal of at least 128";
    expect_refused(&rt, rt.alloc(), Program::Server, words, part);
}
