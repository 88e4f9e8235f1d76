//! Control calls of an open file: the flags that chattr(1) and lsattr(1) change and show.

ghost use Rattle.std.specs.Prelude.{◌≡◌, ◌≤◌, IfSome, length};
ghost use Rattle.lfs_fuse_wire.specs.Ioctl.{command_in, fields_in};

use crate::numbers::{has, long_at, word_at};

/// The call is about a directory.
const IOCTL_DIR: u32 = 1 << 4;

/// The flags of the file are asked for: `_IOR('f', 1, long)`. The reply carries 4 bytes.
const FS_IOC_GETFLAGS: u32 = 0x8008_6601;

/// The flags of the file are to change: `_IOW('f', 2, long)`. The message carries 4 bytes.
const FS_IOC_SETFLAGS: u32 = 0x4008_6602;

/// The attributes that the XFS file system began are asked for: `_IOR('X', 31, struct fsxattr)`, 28 bytes.
const FS_IOC_FSGETXATTR: u32 = 0x801c_581f;

/// What a control call asks.
#[derive(Clone, Copy, PartialEq, Eq, Debug)]
pub enum Command {
    /// The file's flags, as FS_IOC_GETFLAGS tells them.
    GetFlags,
    /// These flags are to be the file's (FS_IOC_SETFLAGS).
    SetFlags(u32),
    /// The file's flags, as FS_IOC_FSGETXATTR tells them.
    GetExtended,
    /// Something else, by its number.
    Other(u32),
}

/// A control call.
#[derive(Clone, Copy, PartialEq, Eq, Debug)]
pub struct Ioctl {
    /// The handle.
    pub handle: u64,
    /// The handle is a directory's.
    pub directory: bool,
    /// What is asked.
    pub command: Command,
    /// The most bytes that the reply may carry behind its own fields.
    pub out_size: u32,
}

/// A control call's fields, apart from the bytes that it carries.
#[derive(Clone, Copy)]
pub(crate) struct Fields {
    /// The handle.
    pub(crate) handle: u64,
    /// The handle is a directory's.
    pub(crate) directory: bool,
    /// What is asked, by its number.
    pub(crate) number: u32,
    /// How many bytes the message carries behind the fields.
    pub(crate) in_size: u32,
    /// The most bytes that the reply may carry behind its own.
    pub(crate) out_size: u32,
}

impl Fields {
    /// The 32 bytes before the bytes that the call carries.
    pub(crate) fn decode(body: &[u8]) -> Option<Fields>
        ensures fields { result ≡ fields_in body.now }
        ensures room { IfSome result (λ fields. 32 ≤ length body.now) }
    {
        if body.len() < 32 {
            return None;
        }
        Some(Fields {
            handle: long_at(body, 0),
            directory: has(word_at(body, 8), IOCTL_DIR),
            number: word_at(body, 12),
            in_size: word_at(body, 24),
            out_size: word_at(body, 28),
        })
    }
}

impl Command {
    /// What a number asks, with the bytes that the call carries.
    pub(crate) fn of(number: u32, carried: &[u8]) -> Command
        ensures { result ≡ command_in number carried.now }
    {
        match number {
            FS_IOC_GETFLAGS => Command::GetFlags,
            FS_IOC_SETFLAGS if carried.len() >= 4 => Command::SetFlags(word_at(carried, 0)),
            FS_IOC_FSGETXATTR => Command::GetExtended,
            _ => Command::Other(number),
        }
    }
}
