//! The words that a program is given, and how it ends.

use super::expect_eq;
use std::env::{Env, FillError};
use std::process::Abort;

/// The words of a command line, as bytes.
#[derive(Clone, Copy)]
pub struct Words<'a> {
    /// The program's name, and the words behind it.
    pub words: &'a [&'a [u8]],
}

impl Env for Words<'_> {
    fn arg(&self, i: usize, buf: &mut [u8]) -> Result<usize, FillError> {
        let Some(word) = self.words.get(i) else {
            return Err(FillError::NotPresent);
        };
        let Some(room) = buf.get_mut(..word.len()) else {
            return Err(FillError::TooLong);
        };
        room.copy_from_slice(word);
        Ok(word.len())
    }

    fn var(&self, _name: &str, _buf: &mut [u8]) -> Result<usize, FillError> {
        Err(FillError::NotPresent)
    }

    fn var_at(&self, _i: usize, _buf: &mut [u8]) -> Result<usize, FillError> {
        Err(FillError::NotPresent)
    }
}

/// How a program ended.
#[derive(Drop)]
pub struct Ended {
    /// Its status.
    pub status: u8,
    /// What it wrote to standard output.
    pub out: Vec<u8>,
    /// What it wrote to standard error.
    pub err: Vec<u8>,
}

/// Asserts with which status a program ended, and what it wrote.
pub fn expect_ended(rt: &impl Abort, ended: &Ended, wanted: (u8, &str, &str)) {
    expect_eq(rt, ended.status, wanted.0);
    expect_eq(rt, ended.out.as_slice(), wanted.1.as_bytes());
    expect_eq(rt, ended.err.as_slice(), wanted.2.as_bytes());
}
