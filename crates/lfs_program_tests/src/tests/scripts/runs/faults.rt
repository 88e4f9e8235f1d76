//! Which of several faults a run is given, and that nothing is written up to it.

use super::fakes::Failing;
use super::{PARAMS, expect_threads_unwritten, expect_told, expect_unwritten};
use lfs_audit::fault::{RunFault, ThreadsFault};
use lfs_programs::options::DEFAULTS;
use lfs_script::fault::ScriptFault;
use lfs_server::serving::ServeFault;
use lfs_types::fault::FormatFault;
use lfs_types::store::Params;
use lfs_words::fault::FaultKind;
use std::alloc::Global;
use std::io::ErrorKind;
use std::process::Abort;
use std::sync::Wait;
use std::thread::Threads;

/// One segment less than a volume may have.
const TOO_FEW: Params = Params {
    segments: 5,
    ..PARAMS
};

/// One inode number more than a volume may have.
const TOO_MANY: Params = Params {
    inodes: 4097,
    ..PARAMS
};

/// One byte more than a script may have.
fn long_line(rt: &impl Abort, alloc: Global) -> Vec<u8> {
    vec![in alloc; b'x'; 1_048_577].expect(rt, "memory")
}

/// Asserts that a run of these bytes in a reader that fails once so many reads are done ends in this fault, on threads too.
fn expect_fault<S: Abort + Threads + Wait + Sync>(
    rt: &S,
    alloc: Global,
    rest: &[u8],
    reads: usize,
    fault: RunFault,
) {
    let kind = ErrorKind::Other;
    let mut reader = Failing { rest, reads, kind };
    expect_unwritten(rt, alloc, &mut reader, PARAMS, fault);
    let mut reader = Failing { rest, reads, kind };
    let fault = ThreadsFault::Run(fault);
    expect_threads_unwritten(rt, alloc, &mut reader, PARAMS, fault);
}

#[test]
fn reading_ends_at_its_first_fault(rt: HostRuntime) {
    let script = long_line(&rt, rt.alloc());
    for (reads, fault) in [(1_048_576, RunFault::Read), (1_048_577, RunFault::TooLong)] {
        expect_fault(&rt, rt.alloc(), script.as_slice(), reads, fault);
    }
}

/// Scripts, and the fault of a line that each has on threads.
const LINE_FAULTS: [(&[u8], ThreadsFault); 3] = [
    (
        b"show\n",
        ThreadsFault::Run(RunFault::Script(ScriptFault {
            line: 1,
            kind: FaultKind::Words,
        })),
    ),
    (
        b"ifile\nsession 9\n",
        ThreadsFault::Run(RunFault::Script(ScriptFault {
            line: 2,
            kind: FaultKind::Range,
        })),
    ),
    (
        b"session 1\npass\nsync",
        ThreadsFault::Run(RunFault::Script(ScriptFault {
            line: 3,
            kind: FaultKind::Cut,
        })),
    ),
];

/// Why no sessions are served.
const NO_SESSIONS: ThreadsFault = ThreadsFault::Serve(ServeFault::Sessions);

/// Scripts with no such fault, and the fault that each has on threads.
const LATER_FAULTS: [(&[u8], ThreadsFault); 5] = [
    (b"pass\n", ThreadsFault::CleanerLine),
    (b"session 1\nsync\nsegclean 1\n", ThreadsFault::CleanerLine),
    (b"", NO_SESSIONS),
    (b"create /a 0644\nread /a 0 1\n", NO_SESSIONS),
    (b"as 0 0\ncreate /a 0644\nread /a 0 10\n", NO_SESSIONS),
];

/// Asserts that runs of these scripts on threads have these faults.
fn expect_threads_faults<S: Abort + Threads + Wait + Sync>(
    rt: &S,
    alloc: Global,
    params: Params,
    faults: &[(&[u8], ThreadsFault)],
) {
    for (script, fault) in faults {
        expect_threads_unwritten(rt, alloc, &mut &**script, params, *fault);
    }
}

#[test]
fn faults_on_threads_come_in_their_order(rt: HostRuntime) {
    for params in [PARAMS, DEFAULTS, TOO_FEW, TOO_MANY] {
        expect_threads_faults(&rt, rt.alloc(), params, &LINE_FAULTS);
        expect_threads_faults(&rt, rt.alloc(), params, &LATER_FAULTS);
    }
}

/// Calls that would be served, outside a session.
const NO_SESSION: &[u8] = b"\
as 0 0
create /a 0644
write /a at 0 616263
as 5 5
read /a 0 10
write /a at 0 64
";

#[test]
fn threads_without_a_session(rt: HostRuntime) {
    expect_threads_unwritten(&rt, rt.alloc(), &mut &*NO_SESSION, PARAMS, NO_SESSIONS);
    expect_told(&rt, rt.alloc(), NO_SESSIONS, b"lfsd: serve Sessions\n");
}

/// Asserts that runs on a volume of these numbers, of a session, end in this fault.
fn expect_format_fault<S: Abort + Threads + Wait + Sync>(
    rt: &S,
    alloc: Global,
    params: Params,
    fault: FormatFault,
) {
    let script = b"session 1\nsync\n".as_slice();
    let run_fault = RunFault::Format(fault);
    expect_unwritten(rt, alloc, &mut &*script, params, run_fault);
    let fault = ThreadsFault::Serve(ServeFault::Format(fault));
    expect_threads_unwritten(rt, alloc, &mut &*script, params, fault);
}

#[test]
fn faults_of_the_format_come_before_writing(rt: HostRuntime) {
    expect_format_fault(&rt, rt.alloc(), TOO_FEW, FormatFault::TooFew);
    expect_format_fault(&rt, rt.alloc(), TOO_MANY, FormatFault::TooMany);
}

#[test]
fn fault_of_a_line_comes_before_those_of_the_format(rt: HostRuntime) {
    let kind = FaultKind::Words;
    let fault = RunFault::Script(ScriptFault { line: 2, kind });
    let script = b"sync\nshow\n".as_slice();
    for params in [PARAMS, TOO_FEW, TOO_MANY] {
        expect_unwritten(&rt, rt.alloc(), &mut &*script, params, fault);
    }
}
