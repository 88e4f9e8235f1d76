//! What a program does that was not asked for a run.

ghost use Rattle.std.specs.Prelude.{◌≡◌};
ghost use Rattle.clap.specs.Values.{kind_of};
ghost use Rattle.lfs_command.specs.Ends.{EndsUnasked, IsRefusal};

use clap::error::ErrorKind;
use clap::{Command, Error};
use lfs_io::output::{WriteFault, flush};
use lfs_io::tell::end;
use std::io::Write;
use thiserror::Error as Fault;

/// Why there is nothing to tell: a growth was refused.
#[derive(Clone, Copy, PartialEq, Eq, Debug, Fault)]
#[error("no memory")]
struct NoMemory;

/// Tells what was asked for in place of a run, which is the help or the version, on standard output, and of words that
/// were refused why, on standard error. Gives the status with which the program of this name ends: 0 for what was asked
/// for, 2 for words that were refused, 1 where memory was wanting or the text was not written.
pub fn refuse<W: Write, D: Write>(
    stdout: &mut W,
    stderr: &mut D,
    program: &str,
    error: &Error,
) -> u8
    ensures { EndsUnasked (kind_of error.now) result stdout.old stdout.new stderr.old stderr.new }
{
    match error.kind() {
        ErrorKind::OutOfMemory => end(stderr, program, Err(NoMemory)),
        ErrorKind::DisplayHelp => end(stderr, program, show(stdout, error)),
        ErrorKind::DisplayVersion => end(stderr, program, show(stdout, error)),
        _ => {
            let _ = write!(stderr, "{error}");
            2
        }
    }
}

/// Writes the help or the version.
fn show<W: Write>(stdout: &mut W, error: &Error) -> Result<(), WriteFault> {
    match write!(stdout, "{error}") {
        Ok(()) => flush(stdout),
        Err(_) => Err(WriteFault),
    }
}

/// The error of a value that a command refuses, with exit code 2; or want of memory.
pub fn wrong_value(command: &mut Command<'_>, message: &str) -> Error
    ensures { IsRefusal (kind_of result) }
{
    match command.error(ErrorKind::ValueValidation, message) {
        Ok(error) => error,
        Err(error) => Error::from(error),
    }
}
