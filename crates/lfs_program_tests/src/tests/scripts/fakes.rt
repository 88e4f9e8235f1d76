//! Readers and writers that fail, never end or take little.

use std::io;
use std::io::{ErrorKind, Read, Write};

/// Gives this byte at each read, for ever, and counts its reads.
#[derive(Drop)]
pub struct Endless {
    pub byte: u8,
    pub reads: u32,
}

impl Read for Endless {
    fn read(&mut self, buf: &mut [u8]) -> io::Result<usize> {
        self.reads = self.reads.saturating_add(1);
        if buf.is_empty() {
            return Ok(0);
        }
        buf[0] = self.byte;
        Ok(1)
    }
}

/// Gives a byte of `rest` at each read, and fails once `reads` are done.
#[derive(Drop)]
pub struct Failing<'a> {
    pub rest: &'a [u8],
    pub reads: usize,
    pub kind: ErrorKind,
}

impl Read for Failing<'_> {
    fn read(&mut self, buf: &mut [u8]) -> io::Result<usize> {
        if self.reads == 0 {
            return Err(io::Error::from(self.kind));
        }
        self.reads -= 1;
        match self.rest.split_first() {
            Some((first, rest)) if !buf.is_empty() => {
                buf[0] = *first;
                self.rest = rest;
                Ok(1)
            }
            _ => Ok(0),
        }
    }
}

/// Gives a byte of `rest` at each read, but fails once, when `reads` are done, and goes on as if nothing had been.
#[derive(Drop)]
pub struct Stumbling<'a> {
    pub rest: &'a [u8],
    pub reads: usize,
    pub has_failed: bool,
    pub kind: ErrorKind,
}

impl Read for Stumbling<'_> {
    fn read(&mut self, buf: &mut [u8]) -> io::Result<usize> {
        if self.reads == 0 && !self.has_failed {
            self.has_failed = true;
            return Err(io::Error::from(self.kind));
        }
        self.reads = self.reads.saturating_sub(1);
        match self.rest.split_first() {
            Some((first, rest)) if !buf.is_empty() => {
                buf[0] = *first;
                self.rest = rest;
                Ok(1)
            }
            _ => Ok(0),
        }
    }
}

/// Takes so many writes and then fails, and fails its flush where it is told so.
#[derive(Drop)]
pub struct Full {
    pub writes: usize,
    pub flushes: bool,
}

impl Write for Full {
    fn write(&mut self, buf: &[u8]) -> io::Result<usize> {
        if self.writes == 0 {
            return Err(io::Error::from(ErrorKind::StorageFull));
        }
        self.writes -= 1;
        Ok(buf.len())
    }

    fn flush(&mut self) -> io::Result<()> {
        if self.flushes {
            Ok(())
        } else {
            Err(io::Error::from(ErrorKind::StorageFull))
        }
    }
}

/// Fails at each write and each flush, and knows whether it was asked for one.
#[derive(Drop)]
pub struct Shut {
    pub is_asked: bool,
}

impl Write for Shut {
    fn write(&mut self, _buf: &[u8]) -> io::Result<usize> {
        self.is_asked = true;
        Err(io::Error::from(ErrorKind::BrokenPipe))
    }

    fn flush(&mut self) -> io::Result<()> {
        self.is_asked = true;
        Err(io::Error::from(ErrorKind::BrokenPipe))
    }
}

/// Takes one byte at each write.
#[derive(Drop)]
pub struct Slow {
    pub taken: Vec<u8>,
}

impl Write for Slow {
    fn write(&mut self, buf: &[u8]) -> io::Result<usize> {
        let Some(first) = buf.first() else {
            return Ok(0);
        };
        match self.taken.push(*first) {
            Ok(()) => Ok(1),
            Err(_) => Err(io::Error::from(ErrorKind::OutOfMemory)),
        }
    }

    fn flush(&mut self) -> io::Result<()> {
        Ok(())
    }
}
