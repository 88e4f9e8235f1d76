//! Scripts run over readers and writers that fail, never end or take little.

use super::fakes::{Endless, Failing, Full, Slow, Stumbling};
use super::{LONG_READS, PARAMS, WRITERS, expect_end, expect_unwritten};
use crate::tests::expect_eq;
use lfs_audit::fault::RunFault;
use lfs_script::fault::ScriptFault;
use lfs_words::fault::FaultKind;
use std::alloc::Global;
use std::io::ErrorKind;
use std::process::Abort;

const SCRIPT: &[u8] = b"create /a 0644\nwrite /a at 0 616263\nread /a 0 10\nstat /a\n";

/// The script, in a reader that fails once so many reads are done.
fn failing(reads: usize, kind: ErrorKind) -> Failing<'static> {
    Failing {
        rest: SCRIPT,
        reads,
        kind,
    }
}

#[test]
fn reader_that_fails_at_each_read(rt: HostRuntime) {
    let alloc = rt.alloc();
    for reads in 0..=SCRIPT.len() {
        for kind in [ErrorKind::Interrupted, ErrorKind::Other] {
            let mut reader = failing(reads, kind);
            expect_unwritten(&rt, alloc, &mut reader, PARAMS, RunFault::Read);
        }
    }
    let mut reader = failing(SCRIPT.len() + 1, ErrorKind::Other);
    let mut writer = Vec::new(alloc);
    expect_end(&rt, alloc, &mut reader, &mut writer, Ok(()));
}

#[test]
fn reader_that_fails_once(rt: HostRuntime) {
    for reads in 0..=SCRIPT.len() {
        for kind in [ErrorKind::Interrupted, ErrorKind::Other] {
            let mut reader = Stumbling {
                rest: SCRIPT,
                reads,
                has_failed: false,
                kind,
            };
            expect_unwritten(&rt, rt.alloc(), &mut reader, PARAMS, RunFault::Read);
        }
    }
}

#[test]
fn reader_that_never_ends(rt: HostRuntime) {
    let mut reader = Endless {
        byte: b'x',
        reads: 0,
    };
    expect_unwritten(&rt, rt.alloc(), &mut reader, PARAMS, RunFault::TooLong);
    expect_eq(&rt, reader.reads, 1_048_577);
}

/// A script of 1,048,576 bytes, each line a comment, and a byte behind it.
fn comments(rt: &impl Abort, alloc: Global) -> Vec<u8> {
    let mut script = Vec::new(alloc);
    for _ in 0..524_288 {
        script.extend_from_slice(b"#\n").expect(rt, "memory");
    }
    script.push(b'x').expect(rt, "memory");
    script
}

/// The report where no call was made.
const NO_CALLS: &[u8] = b"entries 0\nserved 0\ndenied 0\nrefused 0\ncleaner 0\n";

/// Asserts that a run of this script is done, and prints the report alone.
fn expect_no_calls(rt: &impl Abort, alloc: Global, mut script: &[u8]) {
    let mut writer = Vec::new(alloc);
    expect_end(rt, alloc, &mut script, &mut writer, Ok(()));
    expect_eq(rt, writer.as_slice(), NO_CALLS);
}

/// Asserts that a run of this script ends in this fault, with nothing written.
fn expect_fault(rt: &impl Abort, alloc: Global, mut script: &[u8], fault: RunFault) {
    expect_unwritten(rt, alloc, &mut script, PARAMS, fault);
}

#[test]
fn longest_script(rt: HostRuntime) {
    let mut script = comments(&rt, rt.alloc());
    expect_fault(&rt, rt.alloc(), script.as_slice(), RunFault::TooLong);
    script.truncate(1_048_576);
    expect_no_calls(&rt, rt.alloc(), script.as_slice());
    script.truncate(1_048_575);
    let kind = FaultKind::Cut;
    let line = 524_288;
    let fault = RunFault::Script(ScriptFault { line, kind });
    expect_fault(&rt, rt.alloc(), script.as_slice(), fault);
}

#[test]
fn line_without_line_feed(rt: HostRuntime) {
    let kind = FaultKind::Cut;
    let fault = RunFault::Script(ScriptFault { line: 1, kind });
    expect_fault(&rt, rt.alloc(), b"create /a 0644", fault);
}

#[test]
fn writer_that_fails_at_each_write(rt: HostRuntime) {
    // Without their first line they are lines of session 0.
    let script = LONG_READS.trim_start_matches("session 1\n");
    for (writes, flushes, is_done) in &WRITERS {
        let mut writer = Full {
            writes: *writes,
            flushes: *flushes,
        };
        let end = if *is_done {
            Ok(())
        } else {
            Err(RunFault::Write)
        };
        expect_end(&rt, rt.alloc(), &mut script.as_bytes(), &mut writer, end);
        expect_eq(&rt, writer.writes, 0);
    }
}

#[test]
fn writer_that_takes_a_byte_at_a_time(rt: HostRuntime) {
    let alloc = rt.alloc();
    let mut writer = Slow {
        taken: Vec::new(alloc),
    };
    expect_end(&rt, alloc, &mut &*SCRIPT, &mut writer, Ok(()));
    let expected = b"\
0 ok
0 ok
0 bytes 616263
0 stat 4 file 0 0 0644 00000000 3
entries 4
served 4
denied 0
refused 0
cleaner 0
";
    expect_eq(&rt, writer.taken.as_slice(), expected.as_slice());
}
