//! How a file is opened: the flags of open(2), as the kernel of Linux numbers them.

ghost use Rattle.std.specs.Prelude.{◌≡◌};
ghost use Rattle.lfs_fuse_wire.specs.Flags.{access_in, open_flags_in};

use crate::numbers::has;

/// The bits that tell the access mode.
const O_ACCMODE: u32 = 3;

/// The file must not be there yet.
const O_EXCL: u32 = 0o200;

/// The file is cut to no bytes.
const O_TRUNC: u32 = 0o1000;

/// Each write goes to the end.
const O_APPEND: u32 = 0o2000;

/// The file is opened to run it, which the kernel says by a bit of its own.
const FMODE_EXEC: u32 = 0x20;

/// Set-id bits are to go where the file is cut: in a word of its own of OPEN and CREATE.
pub(crate) const OPEN_KILL_SUIDGID: u32 = 1;

/// What an open file is for.
#[derive(Clone, Copy, PartialEq, Eq, Debug)]
pub enum AccessMode {
    /// O_RDONLY.
    ReadOnly,
    /// O_WRONLY.
    WriteOnly,
    /// O_RDWR.
    ReadWrite,
    /// Linux's own fourth mode: the rights of O_RDWR are asked for, and neither is used.
    Neither,
}

/// The flags of open(2) that a file server acts on.
#[derive(Clone, Copy, PartialEq, Eq, Debug)]
pub struct OpenFlags {
    /// What the file is for.
    pub access: AccessMode,
    /// Each write goes to the end (O_APPEND).
    pub append: bool,
    /// The file is cut to no bytes (O_TRUNC).
    pub truncate: bool,
    /// The file must not be there yet (O_EXCL).
    pub exclusive: bool,
    /// The file is opened to run it.
    pub exec: bool,
}

impl AccessMode {
    /// The access mode of flags.
    pub fn of(flags: u32) -> AccessMode
        ensures { result ≡ access_in flags }
    {
        match flags & O_ACCMODE {
            0 => AccessMode::ReadOnly,
            1 => AccessMode::WriteOnly,
            2 => AccessMode::ReadWrite,
            _ => AccessMode::Neither,
        }
    }
}

impl OpenFlags {
    /// What a number of flags says. Flags that are not named here are not looked at.
    pub fn of(flags: u32) -> OpenFlags
        ensures { result ≡ open_flags_in flags }
    {
        OpenFlags {
            access: AccessMode::of(flags),
            append: has(flags, O_APPEND),
            truncate: has(flags, O_TRUNC),
            exclusive: has(flags, O_EXCL),
            exec: has(flags, FMODE_EXEC),
        }
    }
}
