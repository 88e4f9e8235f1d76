//! A file server to talk to: it reads a line, from standard input or from a file, answers it on standard output, and reads
//! the next. It may write its journal to a file, and a film of its log. On a terminal it prompts, and answers in colours.
#![tactic(auto)]

ghost use Rattle.std.specs.Process.{exit_status};
ghost use Rattle.lfs_programs.specs.Talks.{IsShellEnd};

use lfs_command::streams::Streams;
use lfs_programs::shell::lfs_shell;
use lfs_terminal::painted::Painted;
use lfs_terminal::prompted::Prompted;
use std::env::{Env, FillError};
use std::io::{IsTerminal, Read, Write};
use std::os::unix::fs::FileExt;
use std::process::ExitCode;
use std::rt::Files;

/// What is written before a line is read from a terminal, where a terminal is written to.
const PROMPT: &str = "lfs> ";

fn main(rt: HostRuntime) -> ExitCode {
    let stdin = rt.stdin();
    let stdout = rt.stdout();
    let stderr = rt.stderr();
    if !stdout.is_terminal() {
        let mut streams = Streams {
            stdin,
            stdout,
            stderr,
        };
        return run(&rt, &mut streams);
    }
    let prompt = if stdin.is_terminal() { PROMPT } else { "" };
    let mut streams = Streams {
        stdin: Prompted::new(stdin, rt.stdout(), prompt),
        stdout: Painted::new(stdout, wants_colours(&rt)),
        stderr,
    };
    run(&rt, &mut streams)
}

/// Does what the arguments of a host ask for, over these streams, and gives the code with which the program ends.
fn run<H, R, W, D>(host: &H, streams: &mut Streams<R, W, D>) -> ExitCode
where
    H: Env + AllocGlobal + Files,
    H::File: FileExt,
    R: Read,
    W: Write,
    D: Write,
    ensures { IsShellEnd H.File.contents (R.remaining streams.old.stdin)
        (W.contents streams.old.stdout) (W.contents streams.new.stdout)
        (exit_status result) streams.old.stdin streams.new.stdin
        streams.old.stdout streams.new.stdout streams.old.stderr streams.new.stderr }
{
    ExitCode::from(lfs_shell(host, host, streams))
}

/// Whether the environment lets a terminal have colours: `NO_COLOR` is not there, or empty.
fn wants_colours(env: &impl Env) -> bool {
    let mut value = [0];
    match env.var("NO_COLOR", &mut value) {
        Ok(count) => count == 0,
        Err(FillError::NotPresent) => true,
        Err(_) => false,
    }
}
