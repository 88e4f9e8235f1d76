//! Serves a mount to the kernel: messages are read from standard input, and each is answered on standard output before the
//! next is read.
#![tactic(auto)]

use lfs_command::streams::Streams;
use lfs_fuse_talk::program::lfs_fuse;
use std::process::ExitCode;

fn main(rt: HostRuntime) -> ExitCode {
    let mut streams = Streams {
        stdin: rt.stdin(),
        stdout: rt.stdout(),
        stderr: rt.stderr(),
    };
    ExitCode::from(lfs_fuse(&rt, &rt, &mut streams))
}
