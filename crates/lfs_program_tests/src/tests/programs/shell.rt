//! `lfs_shell`: talks, its usage faults, its help.

use super::{Program, Refused, Run, expect_each_refused, expect_help, expect_runs};

/// Lines, the second of which is none.
const LINES: &[u8] = b"create /a 0644\nnonsense\n.quit\nstat /a\n";

/// What is told of them.
const TOLD: &str =
    "0 ok\nfault Words line 2 'nonsense' at 1: no line begins so\nentries 1\nserved 1\ndenied 0\nrefused 0\ncleaner 0\n";

/// Talks: with a fault, and where that is asked for with status 1 by it, and with 0 without one; of lines in a file, and in one
/// that isn't there; a version; and three calls where the journal has room for one entry, with a report behind the second.
const RUNS: [Run; 7] = [
    Run {
        words: &[b"lfs_shell"],
        input: LINES,
        status: 0,
        out: TOLD,
        err: "",
    },
    Run {
        words: &[b"lfs_shell", b"--strict"],
        input: LINES,
        status: 1,
        out: TOLD,
        err: "lfs_shell: a line has a fault\n",
    },
    Run {
        words: &[b"lfs_shell", b"--strict"],
        input: b"create /a 0644\n",
        status: 0,
        out: "0 ok\nentries 1\nserved 1\ndenied 0\nrefused 0\ncleaner 0\n",
        err: "",
    },
    Run {
        words: &[b"lfs_shell", b"script.lfs"],
        input: b"nonsense\n",
        status: 0,
        out: "0 ok\n0 stat 4 file 0 0 0644 00000000 0\n\
            entries 2\nserved 2\ndenied 0\nrefused 0\ncleaner 0\n",
        err: "",
    },
    Run {
        words: &[b"lfs_shell", b"none.lfs", b"--journal-out=journal.out"],
        input: b"stat /\n",
        status: 2,
        out: "",
        err: "lfs_shell: none.lfs not opened: entity not found\n",
    },
    Run {
        words: &[b"lfs_shell", b"--version"],
        input: b"nonsense\n",
        status: 0,
        out: "lfs_shell 1.0\n",
        err: "",
    },
    Run {
        words: &[b"lfs_shell", b"--journal=1", b"--frames", b"32"],
        input: b"create /a 0644\nstat /a\n.report\nstat /a\n",
        status: 0,
        out: "0 ok\n0 refused JournalFull\n\
            entries 1\nserved 1\ndenied 0\nrefused 0\ncleaner 0\nunentered JournalFull 1\n\
            0 refused JournalFull\n\
            entries 1\nserved 1\ndenied 0\nrefused 0\ncleaner 0\nunentered JournalFull 2\n",
        err: "",
    },
];

#[test]
fn shell_does_as_its_words_say(rt: HostRuntime) {
    expect_runs(&rt, rt.alloc(), Program::Shell, &RUNS);
}

/// Words that are refused, and a part of what is told.
const REFUSED: [Refused<'static>; 7] = [
    (&[b"lfs_shell", b"script.lfs", b"another"], "error: "),
    (&[b"lfs_shell", b"--threads"], "--threads"),
    (&[b"lfs_shell", b"--film"], "--film"),
    (
        &[b"lfs_shell", b"--disk=volume.disk", b"--serials"],
        "cannot be used with",
    ),
    (&[b"lfs_shell", b"--journal=1000001"], "1..=1000000"),
    (
        &[b"lfs_shell", b"--journal=+1"],
        "--journal takes a number of decimal digits alone, from 1 to 1000000",
    ),
    (&[b"lfs_shell", b"\xc3\x28"], "the arguments must be UTF-8"),
];

#[test]
fn shell_refuses_words(rt: HostRuntime) {
    expect_each_refused(&rt, rt.alloc(), Program::Shell, &REFUSED);
}

/// What its help tells of, among others.
const HELP: &[&str] = &[
    "lfs_shell",
    "6 to 1024; by default 64",
    "16 to 4096; by default 256",
    "32 to 1024; by default 64",
    "1 to 1000000; by default 100000",
    "--disk",
    "--film",
    "--strict",
    "--version",
    ".quit",
];

#[test]
fn shell_helps(rt: HostRuntime) {
    let words: &[&[u8]] = &[b"lfs_shell", b"--help"];
    expect_help(&rt, rt.alloc(), Program::Shell, words, HELP);
}
