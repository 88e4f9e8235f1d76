//! Messages that open files and directories, and those about what is open, by the handle that the reply gave.

ghost use Rattle.std.specs.Prelude.{◌≡◌, ◌≤◌, IfSome, length};
ghost use Rattle.lfs_fuse_wire.specs.Handles.{
  flush_in,
  fsync_in,
  open_in,
  read_in,
  release_in,
  write_in,
};

use crate::flags::{OPEN_KILL_SUIDGID, OpenFlags};
use crate::numbers::{has, long_at, word_at};

/// The bytes come from the kernel's pages, by a handle that it guessed (WRITE).
const WRITE_CACHE: u32 = 1 << 0;

/// Set-id bits are to go (WRITE).
const WRITE_KILL_SUIDGID: u32 = 1 << 2;

/// What was written is to be flushed (RELEASE).
const RELEASE_FLUSH: u32 = 1 << 0;

/// Locks of flock(2) are to go (RELEASE).
const RELEASE_FLOCK_UNLOCK: u32 = 1 << 1;

/// The bytes alone are to be safe (FSYNC).
const FSYNC_FDATASYNC: u32 = 1 << 0;

/// A file or directory that is to be opened.
#[derive(Clone, Copy, PartialEq, Eq, Debug)]
pub struct Open {
    /// How it is opened.
    pub flags: OpenFlags,
    /// Set-id bits are to go where the file is cut.
    pub kill_set_id: bool,
}

impl Open {
    /// The 8 bytes of an opening.
    pub(crate) fn decode(body: &[u8]) -> Option<Open>
        ensures { result ≡ open_in body.now }
    {
        if body.len() < 8 {
            return None;
        }
        Some(Open {
            flags: OpenFlags::of(word_at(body, 0)),
            kill_set_id: has(word_at(body, 4), OPEN_KILL_SUIDGID),
        })
    }
}

/// Bytes, or entries of a directory, that are asked for.
#[derive(Clone, Copy, PartialEq, Eq, Debug)]
pub struct Read {
    /// The handle.
    pub handle: u64,
    /// Where the bytes begin; of a directory, the last entry's own offset.
    pub offset: u64,
    /// The most bytes that the reply may carry.
    pub size: u32,
}

impl Read {
    /// The 40 bytes of a read.
    pub(crate) fn decode(body: &[u8]) -> Option<Read>
        ensures { result ≡ read_in body.now }
    {
        if body.len() < 40 {
            return None;
        }
        Some(Read {
            handle: long_at(body, 0),
            offset: long_at(body, 8),
            size: word_at(body, 16),
        })
    }
}

/// Where bytes are to be written.
#[derive(Clone, Copy, PartialEq, Eq, Debug)]
pub struct Write {
    /// The handle.
    pub handle: u64,
    /// Where the first byte goes.
    pub offset: u64,
    /// The number of bytes.
    pub size: u32,
    /// The bytes come from the kernel's pages, by a handle that it guessed.
    pub cached: bool,
    /// Set-id bits are to go.
    pub kill_set_id: bool,
    /// How the file is open.
    pub flags: OpenFlags,
}

impl Write {
    /// The 40 bytes before the data.
    pub(crate) fn decode(body: &[u8]) -> Option<Write>
        ensures fields { result ≡ write_in body.now }
        ensures room { IfSome result (λ fields. 40 ≤ length body.now) }
    {
        if body.len() < 40 {
            return None;
        }
        let write_flags = word_at(body, 20);
        Some(Write {
            handle: long_at(body, 0),
            offset: long_at(body, 8),
            size: word_at(body, 16),
            cached: has(write_flags, WRITE_CACHE),
            kill_set_id: has(write_flags, WRITE_KILL_SUIDGID),
            flags: OpenFlags::of(word_at(body, 32)),
        })
    }
}

/// A handle that is given back: nothing uses it any more.
#[derive(Clone, Copy, PartialEq, Eq, Debug)]
pub struct Release {
    /// The handle.
    pub handle: u64,
    /// How the file was open.
    pub flags: OpenFlags,
    /// What was written is to be flushed.
    pub flush: bool,
    /// Locks of flock(2) are to go.
    pub unlock: bool,
    /// Whose locks these are.
    pub lock_owner: u64,
}

impl Release {
    /// The 24 bytes of a release.
    pub(crate) fn decode(body: &[u8]) -> Option<Release>
        ensures { result ≡ release_in body.now }
    {
        if body.len() < 24 {
            return None;
        }
        let release_flags = word_at(body, 12);
        Some(Release {
            handle: long_at(body, 0),
            flags: OpenFlags::of(word_at(body, 8)),
            flush: has(release_flags, RELEASE_FLUSH),
            unlock: has(release_flags, RELEASE_FLOCK_UNLOCK),
            lock_owner: long_at(body, 16),
        })
    }
}

/// A descriptor of an open file that was closed; the handle lives on.
#[derive(Clone, Copy, PartialEq, Eq, Debug)]
pub struct Flush {
    /// The handle.
    pub handle: u64,
    /// Whose POSIX locks are to go.
    pub lock_owner: u64,
}

impl Flush {
    /// The 24 bytes of a flush.
    pub(crate) fn decode(body: &[u8]) -> Option<Flush>
        ensures { result ≡ flush_in body.now }
    {
        if body.len() < 24 {
            return None;
        }
        Some(Flush {
            handle: long_at(body, 0),
            lock_owner: long_at(body, 16),
        })
    }
}

/// A file or directory that is to be safe.
#[derive(Clone, Copy, PartialEq, Eq, Debug)]
pub struct Fsync {
    /// The handle.
    pub handle: u64,
    /// The bytes alone, as fdatasync(2) asks.
    pub data_only: bool,
}

impl Fsync {
    /// The 16 bytes of the demand.
    pub(crate) fn decode(body: &[u8]) -> Option<Fsync>
        ensures { result ≡ fsync_in body.now }
    {
        if body.len() < 16 {
            return None;
        }
        Some(Fsync {
            handle: long_at(body, 0),
            data_only: has(word_at(body, 8), FSYNC_FDATASYNC),
        })
    }
}
