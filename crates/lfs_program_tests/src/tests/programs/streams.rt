//! Both programs over readers and writers that fail.

use super::files::Disk;
use super::{Program, status_of};
use crate::tests::expect_eq;
use crate::tests::scripts::fakes::{Failing, Full, Shut};
use lfs_command::streams::Streams;
use std::io::{ErrorKind, Read, Write};
use std::process::Abort;
use std::sync::Wait;
use std::thread::Threads;

/// The name of each program, and what it tells of itself before a fault.
const PROGRAMS: [(Program, &[u8], &str); 2] = [
    (Program::Server, b"lfsd", "lfsd: "),
    (Program::Shell, b"lfs_shell", "lfs_shell: "),
];

const INPUT: &[u8] = b"create /a 0644\nstat /a\n";

/// Asserts that a program over this reader and this writer ends with status 1, and tells this line and nothing else on
/// standard error.
fn expect_fault<S: Abort + Threads + Wait + Sync, R: Read + Drop, W: Write + Drop>(
    rt: &S,
    disk: &Disk,
    program: (Program, &[&[u8]], &str),
    (stdin, stdout): (R, W),
    text: &str,
) {
    let (program, words, name) = program;
    let mut streams = Streams {
        stdin,
        stdout,
        stderr: Vec::new(disk.alloc()),
    };
    expect_eq(rt, status_of(rt, disk, program, words, &mut streams), 1);
    let told = streams.stderr.strip_prefix(name.as_bytes());
    expect_eq(rt, told, Some(text.as_bytes()));
}

#[test]
fn programs_over_a_reader_that_fails(rt: HostRuntime) {
    let disk = Disk::new(rt.alloc(), false);
    for (program, name, told) in &PROGRAMS {
        for reads in 0..=INPUT.len() {
            let stdin = Failing {
                rest: INPUT,
                reads,
                kind: ErrorKind::Other,
            };
            let stdout = Vec::new(rt.alloc());
            let words: &[&[u8]] = &[*name];
            let asked = (*program, words, *told);
            expect_fault(&rt, &disk, asked, (stdin, stdout), "read failed\n");
        }
    }
}

#[test]
fn programs_over_a_writer_that_fails(rt: HostRuntime) {
    let disk = Disk::new(rt.alloc(), false);
    for (program, name, told) in &PROGRAMS {
        // The first write fails; or up to nine pass, and the flush fails.
        for (writes, flushes) in [(0, true), (9, false)] {
            let stdout = Full { writes, flushes };
            let words: &[&[u8]] = &[*name];
            let asked = (*program, words, *told);
            expect_fault(&rt, &disk, asked, (INPUT, stdout), "write failed\n");
        }
    }
}

#[test]
fn help_that_can_not_be_written_is_a_fault(rt: HostRuntime) {
    let disk = Disk::new(rt.alloc(), false);
    for (program, name, told) in &PROGRAMS {
        let stdout = Shut { is_asked: false };
        let words: &[&[u8]] = &[*name, b"--help"];
        let asked = (*program, words, *told);
        expect_fault(&rt, &disk, asked, (INPUT, stdout), "write failed\n");
    }
}

/// Words behind a program's name, input, and the status with which it ends.
const STATUSES: [(&[u8], &[u8], u8); 2] = [(b"--none", b"", 2), (b"--journal=1", b"stat /\n", 1)];

/// Asserts that a program that can write nothing ends with this status, and wanted to tell why.
fn expect_status<S: Abort + Threads + Wait + Sync>(
    rt: &S,
    disk: &Disk,
    (program, words): (Program, &[&[u8]]),
    stdin: &[u8],
    status: u8,
) {
    let mut streams = Streams {
        stdin,
        stdout: Shut { is_asked: false },
        stderr: Shut { is_asked: false },
    };
    expect_eq(
        rt,
        status_of(rt, disk, program, words, &mut streams),
        status,
    );
    expect_eq(rt, streams.stderr.is_asked, true);
}

#[test]
fn status_stays_where_nothing_can_be_told(rt: HostRuntime) {
    let disk = Disk::new(rt.alloc(), false);
    for (program, name, _) in &PROGRAMS {
        for (word, stdin, status) in &STATUSES {
            let words: &[&[u8]] = &[*name, *word];
            expect_status(&rt, &disk, (*program, words), stdin, *status);
        }
    }
}
