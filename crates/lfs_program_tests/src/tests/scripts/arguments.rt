//! The program's arguments.

use super::expect_parts;
use crate::tests::expect_eq;
use clap::Error;
use clap::error::ErrorKind;
use lfs_command::words::WordsFault;
use lfs_programs::options::{Options, options_of, shell_options_of};
use lfs_types::store::Params;
use std::alloc::Global;
use std::process::Abort;

/// Words of a command line, and what they ask for.
const TAKEN: [(&[&str], Options<'static>); 3] = [
    (
        &["lfsd"],
        Options {
            params: Params {
                segments: 64,
                inodes: 256,
                frames: 64,
                journal: 4096,
            },
            threads: false,
            journal_out: None,
            script: None,
        },
    ),
    (
        &[
            "lfsd",
            "--inodes",
            "16",
            "--journal",
            "1",
            "--segments",
            "6",
            "--frames",
            "32",
        ],
        Options {
            params: Params {
                segments: 6,
                inodes: 16,
                frames: 32,
                journal: 1,
            },
            threads: false,
            journal_out: None,
            script: None,
        },
    ),
    (
        &[
            "lfsd",
            "--threads",
            "--journal=100000",
            "--inodes=0004096",
            "--segments=1024",
            "a script",
            "--journal-out=entries",
            "--frames=1024",
        ],
        Options {
            params: Params {
                segments: 1024,
                inodes: 4096,
                frames: 1024,
                journal: 100_000,
            },
            threads: true,
            journal_out: Some("entries"),
            script: Some("a script"),
        },
    ),
];

#[test]
fn parameters(rt: HostRuntime) {
    for (words, options) in &TAKEN {
        let found = options_of(rt.alloc(), Ok(*words)).expect(&rt, "options");
        expect_eq(&rt, &found, options);
    }
}

/// The numbers of `lfs_shell` where no word says otherwise.
const SHELL_NUMBERS: Params = Params {
    segments: 64,
    inodes: 256,
    frames: 64,
    journal: 100_000,
};

/// Words of a command line of `lfs_shell`, the numbers and the file of the film that they ask for.
const FILMS: [(&[&str], Params, Option<&str>); 3] = [
    (&["lfs_shell"], SHELL_NUMBERS, None),
    (
        &["lfs_shell", "--film", "page.html", "--inodes=16"],
        Params {
            inodes: 16,
            ..SHELL_NUMBERS
        },
        Some("page.html"),
    ),
    (
        &["lfs_shell", "--film=a b", "--segments", "6", "--frames=32"],
        Params {
            segments: 6,
            frames: 32,
            ..SHELL_NUMBERS
        },
        Some("a b"),
    ),
];

#[test]
fn numbers_and_film_of_the_shell(rt: HostRuntime) {
    for (words, params, film) in &FILMS {
        let found = shell_options_of(rt.alloc(), Ok(*words)).expect(&rt, "options");
        expect_eq(&rt, (found.params, found.film), (*params, *film));
    }
}

/// Words of command lines of `lfs_shell` that are refused.
const NO_FILMS: [&[&str]; 3] = [
    &["lfs_shell", "--film"],
    &["lfs_shell", "--film", "a", "--film", "b"],
    &["lfs_shell", "--threads"],
];

#[test]
fn film_without_a_file_or_with_two_is_refused(rt: HostRuntime) {
    for words in &NO_FILMS {
        let error = shell_options_of(rt.alloc(), Ok(*words))
            .err()
            .expect(&rt, "a fault");
        expect_eq(&rt, error.exit_code(), 2);
    }
}

/// Words of command lines that are refused.
const REFUSED: [&[&str]; 25] = [
    &["lfsd", "--film", "page.html"],
    &["lfsd", "--inodes", "15"],
    &["lfsd", "--inodes", "4097"],
    &["lfsd", "--inodes", "+16"],
    &["lfsd", "--inodes", "-16"],
    &["lfsd", "--inodes=-16"],
    &["lfsd", "--inodes", "0x20"],
    &["lfsd", "--inodes", "4294967312"],
    &["lfsd", "--inodes", ""],
    &["lfsd", "--inodes"],
    &["lfsd", "--journal", "0"],
    &["lfsd", "--journal", "100001"],
    &["lfsd", "--journal=+1"],
    &["lfsd", "script", "another"],
    &["lfsd", "--threads=1"],
    &["lfsd", "--segments", "5"],
    &["lfsd", "--segments", "1025"],
    &["lfsd", "--frames", "31"],
    &["lfsd", "--frames", "1025"],
    &["lfsd", "--segments", "+6"],
    &["lfsd", "--segments=-6"],
    &["lfsd", "--frames", "+32"],
    &["lfsd", "--frames", "-32"],
    &["lfsd", "--journal", "-1"],
    &["lfsd", "--threads", "--segments=+0006"],
];

/// The fault of words that are refused, or a call for help.
fn fault_of(rt: &impl Abort, alloc: Global, words: &[&str]) -> Error {
    options_of(alloc, Ok(words)).err().expect(rt, "a fault")
}

/// Asserts that the program ends with status 2 at these words.
fn expect_refused(rt: &impl Abort, alloc: Global, words: &[&str]) {
    expect_eq(rt, fault_of(rt, alloc, words).exit_code(), 2);
}

/// Asserts that what is told of a fault has each of these parts.
fn expect_told(rt: &impl Abort, alloc: Global, error: &Error, parts: &[&str]) {
    let text = format!(in alloc; "{error}").expect(rt, "memory");
    expect_parts(rt, text.as_str(), parts);
}

#[test]
fn usage_faults(rt: HostRuntime) {
    for words in &REFUSED {
        expect_refused(&rt, rt.alloc(), words);
    }
}

#[test]
fn arguments_that_are_no_text_are_a_usage_fault(rt: HostRuntime) {
    let error = options_of::<&str>(rt.alloc(), Err(WordsFault::NotUtf8))
        .err()
        .expect(&rt, "a fault");
    expect_eq(&rt, error.exit_code(), 2);
    expect_told(&rt, rt.alloc(), &error, &["UTF-8", "--help"]);
}

/// What the help tells of, among others.
const HELP: &[&str] = &[
    "--threads",
    "--segments",
    "6 to 1024; by default 64",
    "--frames",
    "32 to 1024; by default 64",
    "--inodes",
    "16 to 4096; by default 256",
    "--journal",
    "1 to 100000; by default 4096",
    "Example: ",
    "docs/FORMATS.md",
];

/// Asserts that this is a call for help, which is told on standard output.
fn expect_help(rt: &impl Abort, error: &Error) {
    expect_eq(rt, error.kind(), ErrorKind::DisplayHelp);
    expect_eq(rt, error.exit_code(), 0);
    expect_eq(rt, error.use_stderr(), false);
}

#[test]
fn help(rt: HostRuntime) {
    let error = fault_of(&rt, rt.alloc(), &["lfsd", "--help"]);
    expect_help(&rt, &error);
    expect_told(&rt, rt.alloc(), &error, HELP);
}

/// Words that are refused, and how the range is told. A sign is told of with its option.
const RANGES: [(&str, &str); 12] = [
    ("--segments=5", "6..=1024"),
    ("--segments=1025", "6..=1024"),
    ("--inodes=15", "16..=4096"),
    ("--inodes=4097", "16..=4096"),
    ("--frames=31", "32..=1024"),
    ("--frames=1025", "32..=1024"),
    ("--journal=0", "1..=100000"),
    ("--journal=100001", "1..=100000"),
    (
        "--segments=+6",
        "--segments takes a number of decimal digits alone, from 6 to 1024",
    ),
    (
        "--inodes=+16",
        "--inodes takes a number of decimal digits alone, from 16 to 4096",
    ),
    (
        "--frames=+32",
        "--frames takes a number of decimal digits alone, from 32 to 1024",
    ),
    (
        "--journal=+1",
        "--journal takes a number of decimal digits alone, from 1 to 100000",
    ),
];

/// Asserts that the range is told where this word is refused.
fn expect_range(rt: &impl Abort, alloc: Global, word: &str, range: &str) {
    let error = fault_of(rt, alloc, &["lfsd", word]);
    expect_told(rt, alloc, &error, &[range]);
}

#[test]
fn usage_fault_names_the_range(rt: HostRuntime) {
    for (word, range) in &RANGES {
        expect_range(&rt, rt.alloc(), word, range);
    }
}
