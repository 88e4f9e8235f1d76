//! An audit of a journal: it reads the lines of entries, says whether each is one that the rules allow, and reports who did
//! what.
#![tactic(auto)]

use lfs_auditing::program::lfs_audit_trail;
use lfs_command::streams::Streams;
use std::process::ExitCode;

fn main(rt: HostRuntime) -> ExitCode {
    let mut streams = Streams {
        stdin: rt.stdin(),
        stdout: rt.stdout(),
        stderr: rt.stderr(),
    };
    ExitCode::from(lfs_audit_trail(&rt, &rt, &mut streams))
}
