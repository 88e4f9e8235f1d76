//! Messages about a node's attributes: to tell them, to change them, and whether a user may use the node.

ghost use Rattle.std.specs.Prelude.{◌≡◌, ◌+◌, ◌≤◌, length};
ghost use Rattle.lfs_fuse_wire.specs.Attributes.{
  access_asked_in,
  getattr_in,
  new_time,
  setattr_in,
  time_at,
};

use crate::kind::permissions;
use crate::numbers::{has, long_at, word_at};

/// The handle counts (GETATTR).
const GETATTR_FH: u32 = 1 << 0;

/// Which fields of SETATTR count, a bit each.
const FATTR_MODE: u32 = 1 << 0;

const FATTR_UID: u32 = 1 << 1;

const FATTR_GID: u32 = 1 << 2;

const FATTR_SIZE: u32 = 1 << 3;

const FATTR_ATIME: u32 = 1 << 4;

const FATTR_MTIME: u32 = 1 << 5;

const FATTR_FH: u32 = 1 << 6;

const FATTR_ATIME_NOW: u32 = 1 << 7;

const FATTR_MTIME_NOW: u32 = 1 << 8;

const FATTR_CTIME: u32 = 1 << 10;

const FATTR_KILL_SUIDGID: u32 = 1 << 11;

/// What ACCESS asks, a bit each, as access(2) does.
const X_OK: u32 = 1;

const W_OK: u32 = 2;

const R_OK: u32 = 4;

/// A time since 1970 began.
#[derive(Clone, Copy, PartialEq, Eq, Debug)]
pub struct Time {
    /// Whole seconds.
    pub seconds: u64,
    /// Nanoseconds beyond them.
    pub nanoseconds: u32,
}

/// A time that is to be set.
#[derive(Clone, Copy, PartialEq, Eq, Debug)]
pub enum NewTime {
    /// The server's own time.
    Now,
    /// This time.
    At(Time),
}

/// The seconds and the nanoseconds at two places.
fn read_time(body: &[u8], seconds: usize, nanoseconds: usize) -> Time
    requires seconds { seconds + 8 ≤ length body.now }
    requires nanoseconds { nanoseconds + 4 ≤ length body.now }
    ensures { result ≡ time_at body.now seconds nanoseconds }
{
    Time {
        seconds: long_at(body, seconds),
        nanoseconds: word_at(body, nanoseconds),
    }
}

/// The time that is to be set, if one is.
fn set_time(given: bool, now: bool, time: Time) -> Option<NewTime>
    ensures { result ≡ new_time given now time }
{
    match (given, now) {
        (false, _) => None,
        (true, true) => Some(NewTime::Now),
        (true, false) => Some(NewTime::At(time)),
    }
}

/// Attributes that are asked for.
#[derive(Clone, Copy, PartialEq, Eq, Debug)]
pub struct GetAttr {
    /// An open file's handle, where one is given.
    pub handle: Option<u64>,
}

impl GetAttr {
    /// The 16 bytes of the question.
    pub(crate) fn decode(body: &[u8]) -> Option<GetAttr>
        ensures { result ≡ getattr_in body.now }
    {
        if body.len() < 16 {
            return None;
        }
        Some(GetAttr {
            handle: has(word_at(body, 0), GETATTR_FH).then_some(long_at(body, 8)),
        })
    }
}

/// Attributes that are to change, and those alone.
#[derive(Clone, Copy, PartialEq, Eq, Debug)]
pub struct SetAttr {
    /// An open file's handle, where one is given.
    pub handle: Option<u64>,
    /// The new size, in bytes.
    pub size: Option<u64>,
    /// The new permissions, at most 07777.
    pub permissions: Option<u16>,
    /// The new owner.
    pub uid: Option<u32>,
    /// The new group.
    pub gid: Option<u32>,
    /// The time of the last read.
    pub accessed: Option<NewTime>,
    /// The time of the last change of the bytes.
    pub modified: Option<NewTime>,
    /// The time of the last change of the attributes.
    pub changed: Option<Time>,
    /// Set-id bits are to go.
    pub kill_set_id: bool,
}

impl SetAttr {
    /// The 88 bytes of a change of attributes.
    pub(crate) fn decode(body: &[u8]) -> Option<SetAttr>
        ensures { result ≡ setattr_in body.now }
    {
        if body.len() < 88 {
            return None;
        }
        let valid = word_at(body, 0);
        let accessed = read_time(body, 32, 56);
        let modified = read_time(body, 40, 60);
        Some(SetAttr {
            handle: has(valid, FATTR_FH).then_some(long_at(body, 8)),
            size: has(valid, FATTR_SIZE).then_some(long_at(body, 16)),
            permissions: has(valid, FATTR_MODE).then_some(permissions(word_at(body, 68))),
            uid: has(valid, FATTR_UID).then_some(word_at(body, 76)),
            gid: has(valid, FATTR_GID).then_some(word_at(body, 80)),
            accessed: set_time(
                has(valid, FATTR_ATIME),
                has(valid, FATTR_ATIME_NOW),
                accessed,
            ),
            modified: set_time(
                has(valid, FATTR_MTIME),
                has(valid, FATTR_MTIME_NOW),
                modified,
            ),
            changed: has(valid, FATTR_CTIME).then_some(read_time(body, 48, 64)),
            kill_set_id: has(valid, FATTR_KILL_SUIDGID),
        })
    }
}

/// Rights that a user asks about; with none, whether the node is there.
#[derive(Clone, Copy, PartialEq, Eq, Debug)]
pub struct Access {
    /// To read.
    pub read: bool,
    /// To write.
    pub write: bool,
    /// To run, or to search a directory.
    pub execute: bool,
}

impl Access {
    /// The 8 bytes of the question.
    pub(crate) fn decode(body: &[u8]) -> Option<Access>
        ensures { result ≡ access_asked_in body.now }
    {
        if body.len() < 8 {
            return None;
        }
        let mask = word_at(body, 0);
        Some(Access {
            read: has(mask, R_OK),
            write: has(mask, W_OK),
            execute: has(mask, X_OK),
        })
    }
}
