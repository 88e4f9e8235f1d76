//! Scripts run on threads over readers and writers that fail, never end or take little.

use super::fakes::{Endless, Failing, Full, Slow, Stumbling};
use super::{LONG_READS, PARAMS, WRITERS, expect_threads_end, expect_threads_unwritten};
use crate::tests::expect_eq;
use lfs_audit::fault::{RunFault, ThreadsFault};
use std::io::ErrorKind;

const SCRIPT: &[u8] = b"create /a 0666\nsession 1\nas 7 7\nwrite /a at 0 616263\nread /a 0 10\n";

/// The script, in a reader that fails once so many reads are done.
fn failing(reads: usize, kind: ErrorKind) -> Failing<'static> {
    Failing {
        rest: SCRIPT,
        reads,
        kind,
    }
}

#[test]
fn reader_on_threads_that_fails_at_each_read(rt: HostRuntime) {
    let alloc = rt.alloc();
    let fault = ThreadsFault::Run(RunFault::Read);
    for reads in 0..=SCRIPT.len() {
        for kind in [ErrorKind::Interrupted, ErrorKind::Other] {
            let mut reader = failing(reads, kind);
            expect_threads_unwritten(&rt, alloc, &mut reader, PARAMS, fault);
        }
    }
    let mut reader = failing(SCRIPT.len() + 1, ErrorKind::Other);
    let mut writer = Vec::new(alloc);
    expect_threads_end(&rt, alloc, &mut reader, &mut writer, Ok(()));
}

#[test]
fn reader_on_threads_that_fails_once(rt: HostRuntime) {
    let fault = ThreadsFault::Run(RunFault::Read);
    for reads in 0..=SCRIPT.len() {
        for kind in [ErrorKind::Interrupted, ErrorKind::Other] {
            let mut reader = Stumbling {
                rest: SCRIPT,
                reads,
                has_failed: false,
                kind,
            };
            expect_threads_unwritten(&rt, rt.alloc(), &mut reader, PARAMS, fault);
        }
    }
}

#[test]
fn reader_on_threads_that_never_ends(rt: HostRuntime) {
    let mut reader = Endless {
        byte: b'\n',
        reads: 0,
    };
    let fault = ThreadsFault::Run(RunFault::TooLong);
    expect_threads_unwritten(&rt, rt.alloc(), &mut reader, PARAMS, fault);
    expect_eq(&rt, reader.reads, 1_048_577);
}

#[test]
fn writer_on_threads_that_fails_at_each_write(rt: HostRuntime) {
    let alloc = rt.alloc();
    for (writes, flushes, is_done) in &WRITERS {
        let mut script = LONG_READS.as_bytes();
        let mut writer = Full {
            writes: *writes,
            flushes: *flushes,
        };
        let end = if *is_done {
            Ok(())
        } else {
            Err(ThreadsFault::Run(RunFault::Write))
        };
        expect_threads_end(&rt, alloc, &mut script, &mut writer, end);
        expect_eq(&rt, writer.writes, 0);
    }
}

#[test]
fn writer_on_threads_that_takes_a_byte_at_a_time(rt: HostRuntime) {
    let alloc = rt.alloc();
    let mut writer = Slow {
        taken: Vec::new(alloc),
    };
    expect_threads_end(&rt, alloc, &mut &*SCRIPT, &mut writer, Ok(()));
    let written = writer.taken.as_slice();
    assert!(rt; written.starts_with(b"0 ok\n1 ok\n1 bytes 616263\nentries "));
    // No session's call runs out of anything, so of the report only the cleaner's calls and the sum vary.
    let counts = b"\nserved 3\ndenied 0\nrefused 0\ncleaner ".as_slice();
    assert!(rt; written.windows(counts.len()).any(|part| part == counts));
}
