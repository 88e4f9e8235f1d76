//! A file server that runs a script: it reads lines of calls, from standard input or from a file, and prints the answer to
//! each.
#![tactic(auto)]

ghost use Rattle.std.specs.Process.{exit_status};
ghost use Rattle.lfs_programs.specs.Asked.{IsServerEnd};

use lfs_command::streams::Streams;
use lfs_programs::server::lfsd;
use std::env::Env;
use std::io::{Read, Write};
use std::process::ExitCode;
use std::rt::Files;
use std::sync::Wait;
use std::thread::Threads;

fn main(rt: HostRuntime) -> ExitCode {
    let mut streams = Streams {
        stdin: rt.stdin(),
        stdout: rt.stdout(),
        stderr: rt.stderr(),
    };
    run(&rt, &mut streams)
}

/// Does what the arguments of a host ask for, over these streams, and gives the code with which the program ends.
fn run<H, R, W, D>(host: &H, streams: &mut Streams<R, W, D>) -> ExitCode
where
    H: Env + AllocGlobal + Threads + Wait + Sync + Files,
    R: Read,
    W: Write,
    D: Write,
    ensures { IsServerEnd H.File.contents (R.remaining streams.old.stdin)
        (W.contents streams.old.stdout) (W.contents streams.new.stdout)
        (exit_status result) streams.old.stdin streams.new.stdin
        streams.old.stdout streams.new.stdout streams.old.stderr streams.new.stderr }
{
    ExitCode::from(lfsd(host, host, host, streams))
}
