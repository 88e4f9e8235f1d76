//! What was read and isn't answered yet.

ghost use Rattle.std.specs.Prelude.{◌≡◌, [], List, length, IfOk};
ghost use Rattle.std.specs.Io.KnownBytes.{Consumes};
ghost use Rattle.lfs_fuse_talk.specs.Fronts.{HasRead, IsFront};
ghost use Rattle.lfs_fuse_talk.specs.Inboxes.{IsInbox, unanswered};

use lfs_fuse_wire::framing::Frame;
use std::alloc::{AllocError, Global};
use std::io::Read;

/// A read asks for so many bytes: one message of the kernel, whose writes have 131,072 bytes at most.
pub(crate) const READ_BYTES: usize = 139_264;

/// A buffer for one read, and what was read before and is no whole message yet. A message that one read gave whole is
/// answered where it lies.
#[derive(Drop)]
pub(crate) struct Inbox {
    buffer: Vec<u8>,
    // How many bytes of the buffer aren't answered yet: none where there are others from before.
    fresh: usize,
    pending: Vec<u8>,
}

/// What stands at the front of bytes.
pub(crate) enum First<'a> {
    /// A message, and what is behind it.
    Message(&'a [u8], &'a [u8]),
    /// A part of a message, or nothing.
    Part,
    /// No message.
    Bad,
}

/// What a read gave.
#[derive(Clone, Copy, PartialEq, Eq, Debug)]
pub(crate) enum Reading {
    /// Bytes.
    Bytes,
    /// None: the input is at its end.
    End,
    /// It failed, as it does once a mount is gone.
    Failed,
}

/// What stands at the front of bytes.
pub(crate) fn front<'a>(bytes: &'a [u8]) -> First<'a>
    ensures { IsFront bytes.now result }
{
    match Frame::first(bytes, READ_BYTES) {
        Frame::Whole(size) => First::Message(&bytes[..size], &bytes[size..]),
        Frame::Bad => First::Bad,
        Frame::Partial => First::Part,
    }
}

impl Inbox {
    /// Nothing was read.
    pub(crate) fn new(alloc: Global) -> Result<Inbox, AllocError>
        ensures empty { IfOk result (λ inbox. inbox.pending.items ≡ []) }
        ensures formed { IfOk result IsInbox }
        ensures old { IfOk result (λ inbox. inbox.fresh ≡ 0) }
    {
        let mut buffer = Vec::new(alloc);
        buffer.resize(READ_BYTES, 0)?;
        Ok(Inbox {
            buffer,
            fresh: 0,
            pending: Vec::new(alloc),
        })
    }

    /// What was read and isn't answered yet.
    pub(crate) fn unanswered(&self) -> &[u8]
        requires { IsInbox self.now }
        ensures { result.now ≡ unanswered self.now }
    {
        if self.fresh == 0 {
            self.pending.as_slice()
        } else {
            &self.buffer.as_slice()[..self.fresh]
        }
    }

    /// Keeps this of it, and nothing else.
    pub(crate) fn keep(&mut self, behind: Vec<u8>)
        requires { IsInbox self.old }
        ensures kept { self.new.pending.items ≡ behind.items }
        ensures formed { IsInbox self.new }
        ensures old { self.new.fresh ≡ 0 }
    {
        self.pending = behind;
        self.fresh = 0;
    }

    /// Reads once.
    pub(crate) fn read<R: Read>(&mut self, reader: &mut R) -> Result<Reading, AllocError>
        requires formed { IsInbox self.old }
        requires old { self.old.fresh ≡ 0 }
        ensures read { IfOk result (HasRead self.old.pending.items (unanswered self.new)
            (R.remaining reader.old) (R.remaining reader.new)) }
        ensures formed { IsInbox self.new }
    {
        let Ok(count) = reader.read(self.buffer.as_mut_slice()) else {
            return Ok(Reading::Failed);
        };
        if count == 0 {
            return Ok(Reading::End);
        }
        if self.pending.is_empty() {
            self.fresh = count;
        } else {
            let read = &self.buffer.as_slice()[..count];
            self.pending.extend_from_slice(read)?;
        }
        Ok(Reading::Bytes)
    }
}
