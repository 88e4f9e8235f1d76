//! The texts of faults.

use super::expect_told;
use lfs_audit::fault::{RunFault, ThreadsFault};
use lfs_script::fault::ScriptFault;
use lfs_server::serving::ServeFault;
use lfs_types::cred::BadCred;
use lfs_types::fault::FormatFault;
use lfs_types::name::BadName;
use lfs_types::path::BadPath;
use lfs_words::fault::FaultKind;

/// Faults of a run, and what is told of each.
const FAULTS: [(ThreadsFault, &[u8]); 8] = [
    (ThreadsFault::Run(RunFault::Read), b"lfsd: read failed\n"),
    (
        ThreadsFault::Run(RunFault::TooLong),
        b"lfsd: script too long\n",
    ),
    (
        ThreadsFault::Run(RunFault::Format(FormatFault::TooFew)),
        b"lfsd: format TooFew\n",
    ),
    (
        ThreadsFault::Run(RunFault::Format(FormatFault::TooMany)),
        b"lfsd: format TooMany\n",
    ),
    (
        ThreadsFault::Run(RunFault::Format(FormatFault::Memory)),
        b"lfsd: format Memory\n",
    ),
    (ThreadsFault::Run(RunFault::Memory), b"lfsd: no memory\n"),
    (ThreadsFault::Run(RunFault::Write), b"lfsd: write failed\n"),
    (
        ThreadsFault::CleanerLine,
        b"lfsd: cleaner line with --threads\n",
    ),
];

#[test]
fn faults(rt: HostRuntime) {
    for (fault, text) in &FAULTS {
        expect_told(&rt, rt.alloc(), *fault, text);
    }
}

/// Faults of serving sessions, and what is told of each.
const SERVE_FAULTS: [(ServeFault, &[u8]); 9] = [
    (ServeFault::Sessions, b"lfsd: serve Sessions\n"),
    (
        ServeFault::Format(FormatFault::TooFew),
        b"lfsd: format TooFew\n",
    ),
    (
        ServeFault::Format(FormatFault::TooMany),
        b"lfsd: format TooMany\n",
    ),
    (
        ServeFault::Format(FormatFault::Memory),
        b"lfsd: format Memory\n",
    ),
    (ServeFault::Memory, b"lfsd: no memory\n"),
    (ServeFault::Unsettled(0), b"lfsd: serve Unsettled\n"),
    (ServeFault::Unsettled(8), b"lfsd: serve Unsettled\n"),
    (ServeFault::Unsettled(255), b"lfsd: serve Unsettled\n"),
    (ServeFault::Thread, b"lfsd: serve Thread\n"),
];

#[test]
fn serve_faults(rt: HostRuntime) {
    for (fault, text) in &SERVE_FAULTS {
        expect_told(&rt, rt.alloc(), ThreadsFault::Serve(*fault), text);
    }
}

/// Faults of line 1,048,576, and what is told of each.
const LINE_FAULTS: [(FaultKind, &[u8]); 10] = [
    (FaultKind::Cut, b"lfsd: script line 1048576: Cut\n"),
    (FaultKind::Bytes, b"lfsd: script line 1048576: Bytes\n"),
    (FaultKind::Words, b"lfsd: script line 1048576: Words\n"),
    (FaultKind::Many, b"lfsd: script line 1048576: Many\n"),
    (FaultKind::Number, b"lfsd: script line 1048576: Number\n"),
    (FaultKind::Range, b"lfsd: script line 1048576: Range\n"),
    (
        FaultKind::Path(BadPath::Name(2, BadName::Empty)),
        b"lfsd: script line 1048576: Path\n",
    ),
    (FaultKind::Hex, b"lfsd: script line 1048576: Hex\n"),
    (
        FaultKind::Cred(BadCred::NoGroup),
        b"lfsd: script line 1048576: Cred\n",
    ),
    (FaultKind::Memory, b"lfsd: script line 1048576: Memory\n"),
];

#[test]
fn script_faults(rt: HostRuntime) {
    for (kind, text) in &LINE_FAULTS {
        let (line, kind) = (1_048_576, *kind);
        let fault = ThreadsFault::Run(RunFault::Script(ScriptFault { line, kind }));
        expect_told(&rt, rt.alloc(), fault, text);
    }
}
