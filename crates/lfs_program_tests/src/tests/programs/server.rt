//! `lfsd`: runs, its usage faults, the faults of scripts, its help.

use super::{Program, Refused, Run, expect_each_refused, expect_help, expect_runs, told_of};
use crate::tests::expect_eq;

/// A script in which two sessions take turns, the later first.
pub const TURNS: &[u8] =
    b"create /a 0666\nsession 2\nas 7 7\nwrite /a at 0 6869\nsession 1\nlist /\n";

/// What each of its lines is answered, in order, where it runs line by line.
pub const LINE_BY_LINE: &str =
    "0 ok\n2 ok\n1 names a\nentries 3\nserved 3\ndenied 0\nrefused 0\ncleaner 0\n";

/// A script of the cleaner.
const CLEANING: &[u8] = b"create /a 0666\npass\n";

/// Runs: line by line; of the cleaner where the journal has room for one entry; of two sessions behind a setup that fills the
/// journal; of the cleaner's line on threads; of the script in a file, and of one that isn't there; and versions.
const RUNS: [Run; 8] = [
    Run {
        words: &[b"lfsd"],
        input: TURNS,
        status: 0,
        out: LINE_BY_LINE,
        err: "",
    },
    Run {
        words: &[b"lfsd", b"--segments=6", b"--journal", b"1"],
        input: CLEANING,
        status: 0,
        out: "0 ok\n0 cleaner ifile refused JournalFull\n\
            entries 1\nserved 1\ndenied 0\nrefused 0\ncleaner 0\nunentered JournalFull 1\n",
        err: "",
    },
    Run {
        words: &[b"lfsd", b"--threads", b"--journal=1"],
        input: b"create /a 0644\nsession 1\nstat /a\nsession 2\nstat /a\n",
        status: 0,
        out: "0 ok\n1 refused JournalFull\n2 refused JournalFull\n\
            entries 1\nserved 1\ndenied 0\nrefused 0\ncleaner 0\nunentered JournalFull 2\n",
        err: "",
    },
    Run {
        words: &[b"lfsd", b"--threads"],
        input: CLEANING,
        status: 1,
        out: "",
        err: "lfsd: cleaner line with --threads\n",
    },
    Run {
        words: &[b"lfsd", b"script.lfs"],
        input: b"nonsense\n",
        status: 0,
        out: "0 ok\n0 stat 4 file 0 0 0644 00000000 0\n\
            entries 2\nserved 2\ndenied 0\nrefused 0\ncleaner 0\n",
        err: "",
    },
    Run {
        words: &[b"lfsd", b"none.lfs"],
        input: b"stat /\n",
        status: 2,
        out: "",
        err: "lfsd: none.lfs not opened: entity not found\n",
    },
    Run {
        words: &[b"lfsd", b"--version"],
        input: b"nonsense\n",
        status: 0,
        out: "lfsd 1.0\n",
        err: "",
    },
    Run {
        words: &[b"lfsd", b"-V"],
        input: b"nonsense\n",
        status: 0,
        out: "lfsd 1.0\n",
        err: "",
    },
];

#[test]
fn server_does_as_its_words_say(rt: HostRuntime) {
    expect_runs(&rt, rt.alloc(), Program::Server, &RUNS);
}

/// The same script where each session runs on a thread of its own: the answers of session 1 come first.
pub const BY_SESSION: &str =
    "0 ok\n1 names a\n2 ok\nentries 3\nserved 3\ndenied 0\nrefused 0\ncleaner 0\n";

/// The report where the cleaner was asked to pass once on a volume without dirty segments.
pub const PASSED: &str =
    "0 ok\n1 names a\n2 ok\nentries 4\nserved 3\ndenied 0\nrefused 0\ncleaner 1\n";

#[test]
fn server_runs_sessions_on_threads(rt: HostRuntime) {
    let words: &[&[u8]] = &[b"lfsd", b"--threads"];
    let found = told_of(&rt, rt.alloc(), Program::Server, words, TURNS);
    expect_eq(&rt, found.status, 0);
    expect_eq(&rt, found.err.len(), 0);
    let out = found.out.as_slice();
    let is_known = out == BY_SESSION.as_bytes() || out == PASSED.as_bytes();
    expect_eq(&rt, is_known, true);
}

/// Words that are refused, and a part of what is told.
const REFUSED: [Refused<'static>; 10] = [
    (&[b"lfsd", b"script.lfs", b"another"], "error: "),
    (&[b"lfsd", b"--thread"], "--thread"),
    (&[b"lfsd", b"--threads=1"], "--threads"),
    (&[b"lfsd", b"--segments"], "--segments"),
    (&[b"lfsd", b"--segments", b"5"], "6..=1024"),
    (&[b"lfsd", b"--inodes=4097"], "16..=4096"),
    (&[b"lfsd", b"--frames=x"], "--frames"),
    (&[b"lfsd", b"--journal=100001"], "1..=100000"),
    (
        &[b"lfsd", b"--journal=+1"],
        "--journal takes a number of decimal digits alone, from 1 to 100000",
    ),
    (
        &[b"lfsd", b"--threads", b"\xff"],
        "the arguments must be UTF-8",
    ),
];

#[test]
fn server_refuses_words(rt: HostRuntime) {
    expect_each_refused(&rt, rt.alloc(), Program::Server, &REFUSED);
}

/// Runs of scripts with a fault, of which a line is told. Nothing else is written.
const FAULTS: [Run; 9] = [
    Run {
        words: &[b"lfsd"],
        input: b"stat /\nnonsense\n",
        status: 1,
        out: "",
        err: "lfsd: script line 2: Words 'nonsense' at 1: no line begins so\n",
    },
    Run {
        words: &[b"lfsd"],
        input: b"stat /",
        status: 1,
        out: "",
        err: "lfsd: script line 1: Cut a line ends in a line feed\n",
    },
    Run {
        words: &[b"lfsd", b"--threads"],
        input: b"session 1\nstat /\nstat\n",
        status: 1,
        out: "",
        err: "lfsd: script line 3: Words 'stat' at 1: its form is stat PATH\n",
    },
    Run {
        words: &[b"lfsd"],
        input: b"\n# comment\ncreate /dir rw-\n",
        status: 1,
        out: "",
        err: "lfsd: script line 3: Number 'rw-' at 13: a mode is 1 to 6 octal digits, at most 7777, as 0644\n",
    },
    Run {
        words: &[b"lfsd"],
        input: b"stat  /\n",
        status: 1,
        out: "",
        err: "lfsd: script line 1: Words '' at 6: one space stands between words, none elsewhere\n",
    },
    Run {
        words: &[b"lfsd"],
        input: b"stat\t/\n",
        status: 1,
        out: "",
        err: "lfsd: script line 1: Bytes at 5: a tab, where one space stands between words\n",
    },
    Run {
        words: &[b"lfsd"],
        input: b"stat /\r\n",
        status: 1,
        out: "",
        err: "lfsd: script line 1: Bytes at 7: a carriage return, where a line feed alone ends a line\n",
    },
    Run {
        words: &[b"lfsd"],
        input: b"as 5 5 init\n",
        status: 1,
        out: "",
        err: "lfsd: script line 1: Cred 'init' at 8: init is user 0\n",
    },
    Run {
        words: &[b"lfsd", b"--threads"],
        input: b"stat /\n",
        status: 1,
        out: "",
        err: "lfsd: serve Sessions\n",
    },
];

#[test]
fn server_tells_the_fault_of_a_script(rt: HostRuntime) {
    expect_runs(&rt, rt.alloc(), Program::Server, &FAULTS);
}

/// What its help tells of, among others.
const HELP: &[&str] = &[
    "lfsd",
    "SCRIPT",
    "--version",
    "--threads",
    "6 to 1024",
    "1 to 100000",
    "docs/FORMATS.md",
];

#[test]
fn server_helps(rt: HostRuntime) {
    let words: &[&[u8]] = &[b"lfsd", b"--help"];
    expect_help(&rt, rt.alloc(), Program::Server, words, HELP);
    let words: &[&[u8]] = &[b"lfsd", b"-h"];
    expect_help(&rt, rt.alloc(), Program::Server, words, HELP);
}
