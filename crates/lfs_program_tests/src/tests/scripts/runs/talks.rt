//! Talks: faults of lines, which are those of scripts, the longest line, many lines, and that each answer is out before the
//! next line is read.

use super::{PARAMS, expect_threads_unwritten, expect_unwritten};
use crate::tests::{expect_eq, push, repeated};
use lfs_audit::fault::{RunFault, ThreadsFault};
use lfs_live::start::run_lines;
use lfs_script::fault::ScriptFault;
use lfs_types::cred::BadCred;
use lfs_types::name::BadName;
use lfs_types::path::BadPath;
use lfs_types::store::Params;
use lfs_words::fault::FaultKind;
use std::alloc::Global;
use std::cell::Cell;
use std::io;
use std::io::{ErrorKind, Read, Write};
use std::process::Abort;
use std::sync::Wait;
use std::thread::Threads;

/// What a talk writes.
fn told(rt: &impl Abort, alloc: Global, mut lines: &[u8], params: Params) -> Vec<u8> {
    let mut out = Vec::new(alloc);
    run_lines(alloc, &mut lines, &mut out, params).expect(rt, "a talk");
    out
}

/// Lines, and the fault of each.
const FAULTS: [(&str, FaultKind); 25] = [
    ("list \u{1f}", FaultKind::Bytes),
    ("nonsense", FaultKind::Words),
    ("stat", FaultKind::Words),
    (
        "markv 1:1:1:1 1:1:1:1 1:1:1:1 1:1:1:1 1:1:1:1 1:1:1:1 1:1:1:1 1:1:1:1 1:1:1:1",
        FaultKind::Many,
    ),
    ("read /a x 1", FaultKind::Number),
    ("chmod /a 8", FaultKind::Number),
    ("chflags /a g", FaultKind::Number),
    ("level -", FaultKind::Number),
    ("session x", FaultKind::Number),
    ("as 5 5,,6", FaultKind::Number),
    ("bmapv 4:0:1", FaultKind::Number),
    ("infos 4294967296", FaultKind::Range),
    ("bmapv 4:0:4294967296:1", FaultKind::Range),
    ("level 3", FaultKind::Range),
    ("session 9", FaultKind::Range),
    ("chmod /a 10000", FaultKind::Range),
    ("chflags /a 8", FaultKind::Range),
    ("as 4294967296 5", FaultKind::Range),
    ("as 5 4294967296", FaultKind::Range),
    ("stat a", FaultKind::Path(BadPath::NotAbsolute)),
    ("stat //", FaultKind::Path(BadPath::Name(1, BadName::Empty))),
    (
        "rename /a /..",
        FaultKind::Path(BadPath::Name(1, BadName::Dot)),
    ),
    ("write /a end 6g", FaultKind::Hex),
    ("as 5 5 init", FaultKind::Cred(BadCred::InitNotRoot)),
    (
        "as 5 0,1,2,3,4,5,6,7,8,9,10,11,12,13,14,15,16",
        FaultKind::Cred(BadCred::TooManyGroups),
    ),
];

/// Asserts that a line has this fault, in a script, in one whose sessions run on threads, and in a talk, which goes on.
fn expect_fault<S: Abort + Threads + Wait + Sync>(
    rt: &S,
    alloc: Global,
    line: &str,
    kind: FaultKind,
) {
    let script = long_line(rt, alloc, line, ("\n", 1));
    expect_fault_of(rt, alloc, script.as_bytes(), kind);
}

/// The same of the line with its end.
fn expect_fault_of<S: Abort + Threads + Wait + Sync>(
    rt: &S,
    alloc: Global,
    line: &[u8],
    kind: FaultKind,
) {
    let fault = RunFault::Script(ScriptFault { line: 1, kind });
    expect_unwritten(rt, alloc, &mut &*line, PARAMS, fault);
    expect_threads_unwritten(rt, alloc, &mut &*line, PARAMS, ThreadsFault::Run(fault));
    expect_told_fault(rt, alloc, line, kind);
}

/// Asserts that a talk of a line tells this fault, and reports no call.
fn expect_told_fault(rt: &impl Abort, alloc: Global, line: &[u8], kind: FaultKind) {
    let out = told(rt, alloc, line, PARAMS);
    let start = format!(in alloc; "fault {kind} ").expect(rt, "memory");
    assert!(rt; out.starts_with(start.as_bytes()));
    assert!(rt; out.ends_with(b"\nentries 0\nserved 0\ndenied 0\nrefused 0\ncleaner 0\n"));
}

#[test]
fn faults_of_lines_are_those_of_scripts(rt: HostRuntime) {
    for (line, kind) in &FAULTS {
        expect_fault(&rt, rt.alloc(), line, *kind);
    }
}

/// A verb, a text so many times behind it, and the fault: a name of 256 bytes, a path of 1,026, and 4,097 bytes to be written.
const LONG_WORDS: [(&str, &str, usize, FaultKind); 3] = [
    (
        "stat /",
        "n",
        256,
        FaultKind::Path(BadPath::Name(1, BadName::Long)),
    ),
    ("stat ", "/n", 513, FaultKind::Path(BadPath::Long)),
    ("write /a end ", "6e", 4097, FaultKind::Range),
];

/// A line of a verb and a text so many times.
fn long_line(rt: &impl Abort, alloc: Global, verb: &str, (text, times): (&str, usize)) -> String {
    let mut line = String::new(alloc);
    push(rt, &mut line, verb);
    push(rt, &mut line, repeated(rt, alloc, text, times).as_str());
    line
}

#[test]
fn word_that_is_too_long_is_a_fault(rt: HostRuntime) {
    for (verb, text, times, kind) in &LONG_WORDS {
        let line = long_line(&rt, rt.alloc(), verb, (*text, *times));
        expect_fault(&rt, rt.alloc(), line.as_str(), *kind);
    }
}

/// A comment of so many bytes, and a call behind it.
fn long_comment(rt: &impl Abort, alloc: Global, count: usize) -> String {
    let mut lines = repeated(rt, alloc, "#", count);
    push(rt, &mut lines, "\nsync\n");
    lines
}

/// The report of one call that was served.
const ONE: &str = "0 ok\nentries 1\nserved 1\ndenied 0\nrefused 0\ncleaner 0\n";

#[test]
fn longest_line_of_a_talk(rt: HostRuntime) {
    let alloc = rt.alloc();
    let lines = long_comment(&rt, alloc, 65_536);
    let out = told(&rt, alloc, lines.as_bytes(), PARAMS);
    expect_eq(&rt, out.as_slice(), ONE.as_bytes());
    let lines = long_comment(&rt, alloc, 65_537);
    let out = told(&rt, alloc, lines.as_bytes(), PARAMS);
    let rest = out
        .strip_prefix(b"fault TooLong line 1\n")
        .expect(&rt, "a fault");
    expect_eq(&rt, rest, ONE.as_bytes());
}

/// A volume whose journal has room for each call of the longest talk here.
const LONG: Params = Params {
    journal: 6_000,
    ..PARAMS
};

#[test]
fn talk_of_five_thousand_lines(rt: HostRuntime) {
    let lines = repeated(&rt, rt.alloc(), "stat /\n", 5_000);
    let mut wanted = repeated(&rt, rt.alloc(), "0 stat 2 dir 0 0 0755 00000000 0\n", 5_000);
    push(
        &rt,
        &mut wanted,
        "entries 5000\nserved 5000\ndenied 0\nrefused 0\ncleaner 0\n",
    );
    let out = told(&rt, rt.alloc(), lines.as_bytes(), LONG);
    expect_eq(&rt, out.as_slice(), wanted.as_bytes());
}

/// A volume of the greatest numbers.
const GREATEST: Params = Params {
    segments: 1024,
    inodes: 4096,
    frames: 1024,
    journal: 4096,
};

/// Its ifile has 12 bytes, 8 for each segment and 12 for each number.
#[test]
fn ifile_of_the_greatest_volume(rt: HostRuntime) {
    let out = told(&rt, rt.alloc(), b"ifile\n", GREATEST);
    assert!(rt; out.starts_with(b"0 cleaner ifile ok 57356\n"));
}

/// Gives lines a byte at a time, and notes whether one is asked for before what is told of the line before it is flushed.
#[derive(Drop)]
struct Waiting<'a> {
    rest: &'a [u8],
    is_flushed: &'a Cell<bool>,
    was_early: bool,
}

impl Read for Waiting<'_> {
    fn read(&mut self, buf: &mut [u8]) -> io::Result<usize> {
        self.was_early |= !self.is_flushed.get();
        match self.rest.split_first() {
            Some((first, rest)) if !buf.is_empty() => {
                buf[0] = *first;
                self.is_flushed.set(*first != b'\n');
                self.rest = rest;
                Ok(1)
            }
            _ => Ok(0),
        }
    }
}

/// Takes all, and notes whether it was flushed behind what it took.
#[derive(Drop)]
struct Flushed<'a> {
    text: Vec<u8>,
    is_flushed: &'a Cell<bool>,
}

impl Write for Flushed<'_> {
    fn write(&mut self, buf: &[u8]) -> io::Result<usize> {
        self.is_flushed.set(false);
        match self.text.extend_from_slice(buf) {
            Ok(()) => Ok(buf.len()),
            Err(_) => Err(io::Error::from(ErrorKind::OutOfMemory)),
        }
    }

    fn flush(&mut self) -> io::Result<()> {
        self.is_flushed.set(true);
        Ok(())
    }
}

/// Lines of which each is told something, and what. The least info of a block is read as any other.
const LINES: &[u8] = b"create /a 0644\nnonsense\n.journal\nbmapv 0:0:0:0\n";

const TOLD: &[u8] =
    b"0 ok\nfault Words line 2 'nonsense' at 1: no line begins so\n0 as 0 0 | create /a 0644 | ok\n\
    0 cleaner bmapv ok 1\nentries 2\nserved 1\ndenied 0\nrefused 0\ncleaner 1\n";

#[test]
fn answer_is_flushed_before_the_next_line_is_read(rt: HostRuntime) {
    let is_flushed = Cell::new(true);
    let mut reader = Waiting {
        rest: LINES,
        is_flushed: &is_flushed,
        was_early: false,
    };
    let mut writer = Flushed {
        text: Vec::new(rt.alloc()),
        is_flushed: &is_flushed,
    };
    run_lines(rt.alloc(), &mut reader, &mut writer, PARAMS).expect(&rt, "a talk");
    expect_eq(&rt, reader.was_early, false);
    expect_eq(&rt, is_flushed.get(), true);
    expect_eq(&rt, writer.text.as_slice(), TOLD);
}
