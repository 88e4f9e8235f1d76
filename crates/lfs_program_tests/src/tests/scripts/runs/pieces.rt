//! Scripts that are read in several pieces of 32,768 bytes, or byte by byte.

use super::fakes::Failing;
use super::{PARAMS, expect_end, expect_unwritten};
use crate::tests::expect_eq;
use lfs_audit::fault::RunFault;
use lfs_script::fault::ScriptFault;
use lfs_words::fault::FaultKind;
use std::alloc::Global;
use std::io::{ErrorKind, Read};
use std::process::Abort;

const CALLS: &[u8] = b"create /a 0644\nwrite /a at 0 616263\nread /a 0 10\nstat /a\n";

const ANSWERS: &[u8] = b"\
0 ok
0 ok
0 bytes 616263
0 stat 4 file 0 0 0644 00000000 3
entries 4
served 4
denied 0
refused 0
cleaner 0
";

/// A comment of so many bytes, its line feed among them, and these lines behind it.
fn behind_comment(rt: &impl Abort, alloc: Global, bytes: usize, lines: &[u8]) -> Vec<u8> {
    let mut script = vec![in alloc; b'#'; bytes].expect(rt, "memory");
    script.pop();
    script.push(b'\n').expect(rt, "memory");
    script.extend_from_slice(lines).expect(rt, "memory");
    script
}

/// These bytes, in a reader that gives one at each read, and fails once so many reads are done.
fn bytewise(rest: &[u8], reads: usize) -> Failing<'_> {
    Failing {
        rest,
        reads,
        kind: ErrorKind::Other,
    }
}

/// Asserts that a run of the calls is done.
fn expect_calls<R: Read>(rt: &impl Abort, alloc: Global, reader: &mut R) {
    let mut writer = Vec::new(alloc);
    expect_end(rt, alloc, reader, &mut writer, Ok(()));
    expect_eq(rt, writer.as_slice(), ANSWERS);
}

/// The fault of a line.
fn fault(line: u32, kind: FaultKind) -> RunFault {
    RunFault::Script(ScriptFault { line, kind })
}

/// Asserts that a run of this script ends in the fault of this line, also where it is read byte by byte.
fn expect_fault(rt: &impl Abort, alloc: Global, script: &[u8], line: u32, kind: FaultKind) {
    let fault = fault(line, kind);
    expect_unwritten(rt, alloc, &mut &*script, PARAMS, fault);
    expect_unwritten(rt, alloc, &mut bytewise(script, 200_000), PARAMS, fault);
}

#[test]
fn lines_at_the_edges_of_pieces(rt: HostRuntime) {
    let alloc = rt.alloc();
    // The first call's line has fifteen bytes, the calls have 57 together.
    for bytes in [
        2, 32_711, 32_752, 32_753, 32_754, 32_766, 32_767, 32_768, 32_769, 65_521, 65_536, 65_537,
        100_000,
    ] {
        let script = behind_comment(&rt, alloc, bytes, CALLS);
        expect_calls(&rt, alloc, &mut script.as_slice());
        expect_calls(&rt, alloc, &mut bytewise(script.as_slice(), 200_000));
    }
}

#[test]
fn faults_behind_a_line_of_several_pieces(rt: HostRuntime) {
    let alloc = rt.alloc();
    for bytes in [32_764, 32_768, 70_000, 98_304] {
        let shown = behind_comment(&rt, alloc, bytes, b"stat /\nshow\nsession 9\nsync");
        expect_fault(&rt, alloc, shown.as_slice(), 3, FaultKind::Words);
        let cut = behind_comment(&rt, alloc, bytes, b"stat /\nsync");
        expect_fault(&rt, alloc, cut.as_slice(), 3, FaultKind::Cut);
    }
}

#[test]
fn first_fault_of_two_in_different_pieces(rt: HostRuntime) {
    let alloc = rt.alloc();
    let mut script = behind_comment(&rt, alloc, 32_760, b"session 9\n");
    for _ in 0..2 {
        let rest = behind_comment(&rt, alloc, 32_768, b"show\n");
        script
            .extend_from_slice(rest.as_slice())
            .expect(&rt, "memory");
    }
    expect_fault(&rt, alloc, script.as_slice(), 2, FaultKind::Range);
}

#[test]
fn fault_of_a_line_in_a_script_that_is_too_long(rt: HostRuntime) {
    let alloc = rt.alloc();
    let mut script = vec![in alloc; b'x'; 1_048_577].expect(&rt, "memory");
    script[0] = b'\n';
    script[5] = b'\n';
    expect_unwritten(
        &rt,
        alloc,
        &mut script.as_slice(),
        PARAMS,
        RunFault::TooLong,
    );
    script.truncate(1_048_576);
    let fault = fault(2, FaultKind::Words);
    expect_unwritten(&rt, alloc, &mut script.as_slice(), PARAMS, fault);
}

#[test]
fn fault_of_a_line_before_a_read_that_fails(rt: HostRuntime) {
    let alloc = rt.alloc();
    let script = b"sync\nshow\nstat /\n".as_slice();
    for reads in 0..=script.len() {
        let mut reader = bytewise(script, reads);
        expect_unwritten(&rt, alloc, &mut reader, PARAMS, RunFault::Read);
    }
    let mut reader = bytewise(script, script.len() + 1);
    expect_unwritten(&rt, alloc, &mut reader, PARAMS, fault(2, FaultKind::Words));
}
