//! The words of a command line.

ghost use Rattle.std.specs.Prelude.{◌≡◌, Err, IfErr, IfOk, IsErrAnd, IsOkAnd};
ghost use Rattle.clap.specs.Values.{kind_of};
ghost use Rattle.lfs_command.specs.Ends.{IsRefusal};

use crate::refusing::wrong_value;
use clap::{ArgMatches, Command, Error};
use std::alloc::AllocError;
use std::convert::AsStr;
use std::env::{self, Env};
use std::io;

/// Why there are no words.
#[derive(Clone, Copy, PartialEq, Eq, Debug)]
pub enum WordsFault {
    /// One is no text.
    NotUtf8,
    /// A growth was refused.
    Memory,
}

impl From<AllocError> for WordsFault {
    fn from(_error: AllocError) -> WordsFault {
        WordsFault::Memory
    }
}

/// The words of a command line; the first is the program's name.
///
/// # Errors
///
/// `NotUtf8`; `Memory`.
pub fn words<E: Env + AllocGlobal>(env: &E) -> Result<Vec<String>, WordsFault> {
    match env::args(env) {
        Ok(words) => Ok(words.collect::<Vec<_>>(env.alloc())?),
        Err(error) if error.kind() == io::ErrorKind::OutOfMemory => Err(WordsFault::Memory),
        Err(_) => Err(WordsFault::NotUtf8),
    }
}

/// The words that were read, as texts.
///
/// # Errors
///
/// As they were read.
pub fn texts(words: &Result<Vec<String>, WordsFault>) -> Result<&[String], WordsFault>
    ensures read { IfOk words.now (λ read. IsOkAnd result (λ texts. texts.now ≡ read.items)) }
    ensures unread { IfErr words.now (λ fault. result ≡ Err fault) }
{
    match words {
        Ok(words) => Ok(words.as_slice()),
        Err(fault) => Err(*fault),
    }
}

/// What the words of a command line ask of a command.
///
/// # Errors
///
/// What the parser tells, with its exit code. Words that are no text are refused, with exit code 2.
pub fn matches_of<'a, S: AsStr>(
    command: &mut Command<'a>,
    words: Result<&'a [S], WordsFault>,
) -> Result<ArgMatches<'a>, Error>
    ensures { IfErr words.entry (λ _. IsErrAnd result (λ error. IsRefusal (kind_of error))) }
{
    match words {
        Ok(words) => command.try_get_matches_from_mut(words),
        Err(WordsFault::NotUtf8) => Err(wrong_value(command, "the arguments must be UTF-8")),
        Err(WordsFault::Memory) => Err(AllocError.into()),
    }
}
