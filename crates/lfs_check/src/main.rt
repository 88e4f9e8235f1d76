//! A check of an image: it reads one, says whether it is that of a volume, and how full that is, or what is wrong with
//! it. Or it finds a volume in its blocks alone.
#![tactic(auto)]

use lfs_command::streams::Streams;
use lfs_rescue::program::lfs_check;
use std::process::ExitCode;

fn main(rt: HostRuntime) -> ExitCode {
    let mut streams = Streams {
        stdin: rt.stdin(),
        stdout: rt.stdout(),
        stderr: rt.stderr(),
    };
    ExitCode::from(lfs_check(&rt, &rt, &mut streams))
}
