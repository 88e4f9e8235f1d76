//! Times calls of the file server over each store, and the frames of its cache, as what may grow grows; and calls of
//! eight sessions on threads against those of one.
//!
//! Over a log what a call changes waits, and is written together with what other calls change. So `write-4k` and
//! `write-small`, which overwrite the blocks of one file, hardly reach it or never; `write-sync` does with each Sync.
//!
//! What the calls were answered is counted on standard output. The times go to standard error, as a table;
//! `docs/speed` keeps some.
#![tactic(auto)]

mod cleaned;
mod counts;
mod frames;
mod measure;
mod options;
mod playing;
mod rows;
mod sessions;
mod stopwatch;
mod store;
mod timing;

use options::{Options, matches_of, options_in};
use std::env::{self, Env};
use std::io;
use std::process::ExitCode;
use std::rt::Clock;
use std::sync::Wait;
use std::thread::Threads;

fn main(rt: HostRuntime) -> anyhow::Result<ExitCode> {
    let words = program_words(&rt)?;
    match matches_of(rt.alloc(), words.as_slice()) {
        Ok(matches) => print_tables(&rt, &options_in(&matches)),
        Err(error) => print_error(&rt, &error),
    }
}

/// Prints what is wrong with the arguments, or the help that they ask for.
fn print_error<R: Print + Eprint>(rt: &R, error: &clap::Error) -> anyhow::Result<ExitCode> {
    error.print(rt)?;
    Ok(ExitCode::from(error.exit_code() as u8))
}

/// Prints the tables of what is asked for.
fn print_tables<R>(rt: &R, options: &Options<'_>) -> anyhow::Result<ExitCode>
where
    R: Threads + Wait + Sync + Clock + AllocGlobal + Print + Eprint,
{
    if options.has_rows() {
        rows::print_rows(rt, options)?;
    }
    if options.has_sessions() {
        sessions::print_sessions(rt, options)?;
    }
    Ok(ExitCode::SUCCESS)
}

/// The words of the command line, the program's name first.
fn program_words<R: Env + Alloc>(rt: &R) -> io::Result<Vec<String<R::A>, R::A>> {
    Ok(env::args(rt)?.collect(rt.alloc())?)
}
