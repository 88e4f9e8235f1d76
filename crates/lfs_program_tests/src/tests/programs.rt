//! The two programs: what they write for their arguments and for what they read, and with which status they end.

mod disk;
mod filed;
mod files;
mod film;
mod journal;
mod server;
mod shell;
mod streams;

use self::files::Disk;
use crate::tests::expect_eq;
use lfs_command::streams::Streams;
use lfs_programs::server::lfsd;
use lfs_programs::shell::lfs_shell;
use std::alloc::Global;
use std::env::{Env, FillError};
use std::io::{Read, Write};
use std::process::Abort;
use std::sync::Wait;
use std::thread::Threads;

/// The words of a command line, as bytes.
#[derive(Clone, Copy)]
struct Words<'a> {
    words: &'a [&'a [u8]],
}

impl Env for Words<'_> {
    fn arg(&self, i: usize, buf: &mut [u8]) -> Result<usize, FillError> {
        let Some(word) = self.words.get(i) else {
            return Err(FillError::NotPresent);
        };
        let Some(room) = buf.get_mut(..word.len()) else {
            return Err(FillError::TooLong);
        };
        room.copy_from_slice(word);
        Ok(word.len())
    }

    fn var(&self, _name: &str, _buf: &mut [u8]) -> Result<usize, FillError> {
        Err(FillError::NotPresent)
    }

    fn var_at(&self, _i: usize, _buf: &mut [u8]) -> Result<usize, FillError> {
        Err(FillError::NotPresent)
    }
}

/// Which program is run.
#[derive(Clone, Copy)]
enum Program {
    Server,
    Shell,
}

/// What a program wrote, and its status.
#[derive(Drop)]
struct Ended {
    status: u8,
    out: Vec<u8>,
    err: Vec<u8>,
}

/// Runs a program with these words over the files of a disk and these streams, and gives its status.
fn status_of<S, R, W, D>(
    rt: &S,
    disk: &Disk,
    program: Program,
    words: &[&[u8]],
    streams: &mut Streams<R, W, D>,
) -> u8
where
    S: Threads + Wait + Sync,
    R: Read,
    W: Write,
    D: Write,
{
    let env = (Words { words }, disk.alloc());
    match program {
        Program::Server => lfsd(&env, rt, &disk.files(), streams),
        Program::Shell => lfs_shell(&env, &disk.files(), streams),
    }
}

/// Runs a program with these words, behind its name, over the files of a disk, on this input.
fn end_of<S: Threads + Wait + Sync, R: Read>(
    rt: &S,
    disk: &Disk,
    program: Program,
    words: &[&[u8]],
    stdin: &mut R,
) -> Ended {
    let mut streams = Streams {
        stdin,
        stdout: Vec::new(disk.alloc()),
        stderr: Vec::new(disk.alloc()),
    };
    let status = status_of(rt, disk, program, words, &mut streams);
    Ended {
        status,
        out: streams.stdout,
        err: streams.stderr,
    }
}

/// The same over the files of an empty disk.
fn told_of<S: Threads + Wait + Sync>(
    rt: &S,
    alloc: Global,
    program: Program,
    words: &[&[u8]],
    mut stdin: &[u8],
) -> Ended {
    end_of(rt, &Disk::new(alloc, false), program, words, &mut stdin)
}

/// Asserts that it ends with this status, and writes exactly this.
fn expect_end<S: Abort + Threads + Wait + Sync, R: Read>(
    rt: &S,
    disk: &Disk,
    (program, words): (Program, &[&[u8]]),
    stdin: &mut R,
    wanted: (u8, &str, &str),
) {
    let ended = end_of(rt, disk, program, words, stdin);
    expect_eq(rt, ended.status, wanted.0);
    expect_eq(rt, ended.out.as_slice(), wanted.1.as_bytes());
    expect_eq(rt, ended.err.as_slice(), wanted.2.as_bytes());
}

/// Runs a program over the files of an empty disk, asserts that it ends so and how many files it made, and gives what was
/// written to them.
fn page_of<S: Abort + Threads + Wait + Sync, R: Read>(
    rt: &S,
    alloc: Global,
    asked: (Program, &[&[u8]]),
    stdin: &mut R,
    wanted: (u8, &str, &str),
    made: u32,
) -> Vec<u8> {
    let disk = Disk::new(alloc, false);
    expect_end(rt, &disk, asked, stdin, wanted);
    expect_eq(rt, disk.made(), made);
    disk.into_page()
}

/// A run of a program: its words, what it reads, by which status it ends, and exactly what it writes.
#[derive(Clone, Copy)]
struct Run {
    words: &'static [&'static [u8]],
    input: &'static [u8],
    status: u8,
    out: &'static str,
    err: &'static str,
}

/// Makes these runs of a program, each over files of its own.
fn expect_runs<S: Abort + Threads + Wait + Sync>(
    rt: &S,
    alloc: Global,
    program: Program,
    runs: &[Run],
) {
    for run in runs {
        let disk = Disk::new(alloc, false);
        let wanted = (run.status, run.out, run.err);
        expect_end(rt, &disk, (program, run.words), &mut &*run.input, wanted);
    }
}

/// Whether bytes are text with this part.
fn has_part(bytes: &[u8], part: &str) -> bool {
    match str::from_utf8(bytes) {
        Ok(text) => text.contains(part),
        Err(_) => false,
    }
}

/// Whether bytes are text with one line that begins as the fault of words does.
fn tells_once(bytes: &[u8]) -> bool {
    match str::from_utf8(bytes) {
        Ok(text) => text.starts_with("error: ") && !text.contains("\nerror: "),
        Err(_) => false,
    }
}

/// Asserts that a program refuses these words with status 2, whatever it might read, tells so once with this part on
/// standard error, and writes nothing else.
fn expect_refused<S: Abort + Threads + Wait + Sync>(
    rt: &S,
    alloc: Global,
    program: Program,
    words: &[&[u8]],
    part: &str,
) {
    let ended = told_of(rt, alloc, program, words, b"stat /\n");
    expect_eq(rt, ended.status, 2);
    expect_eq(rt, ended.out.len(), 0);
    expect_eq(rt, has_part(ended.err.as_slice(), part), true);
    expect_eq(rt, tells_once(ended.err.as_slice()), true);
}

/// Words that are refused, and a part of what is told.
type Refused<'a> = (&'a [&'a [u8]], &'a str);

/// Asserts so of each of these words.
fn expect_each_refused<S: Abort + Threads + Wait + Sync>(
    rt: &S,
    alloc: Global,
    program: Program,
    refused: &[Refused<'_>],
) {
    for (words, part) in refused {
        expect_refused(rt, alloc, program, words, part);
    }
}

/// Asserts that a program writes its help with these parts to standard output, and ends with status 0.
fn expect_help<S: Abort + Threads + Wait + Sync>(
    rt: &S,
    alloc: Global,
    program: Program,
    words: &[&[u8]],
    parts: &[&str],
) {
    let ended = told_of(rt, alloc, program, words, b"nonsense\n");
    expect_eq(rt, ended.status, 0);
    expect_eq(rt, ended.err.len(), 0);
    for part in parts {
        expect_eq(rt, has_part(ended.out.as_slice(), part), true);
    }
}
