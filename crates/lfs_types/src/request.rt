//! What a user asks.

ghost use Rattle.std.specs.Prelude.{◌≡◌, IfOk, IsErr};
ghost use Rattle.lfs_types.specs.Copying.{HoldsPath};

use crate::file_flags::FileFlags;
use crate::level::Level;
use crate::mode::Mode;
use crate::path::Path;
use crate::payload::Payload;
use std::alloc::{AllocError, Global};

/// Where a Write puts its bytes.
#[derive(Clone, Copy, PartialEq, Eq, Debug)]
pub enum Place {
    /// At this byte, counted from 0.
    At(u64),
    /// At the end of the file.
    End,
}

/// A user's call. It names files by path, and opens, acts and closes in one step.
#[derive(Drop, PartialEq, Eq, Debug)]
pub enum Request {
    /// Shows a file's number and attributes.
    Stat {
        /// The file.
        path: Path,
    },
    /// Reads at most `len` bytes, and at most 4,096, from byte `off` on.
    Read {
        /// The file.
        path: Path,
        /// The first byte, counted from 0.
        off: u64,
        /// How many bytes at most.
        len: u32,
    },
    /// Puts bytes into a file; a gap before them is filled with zeros.
    Write {
        /// The file.
        path: Path,
        /// Where the bytes go.
        place: Place,
        /// The bytes.
        bytes: Payload,
    },
    /// Lists the names in a directory, in byte order.
    List {
        /// The directory.
        path: Path,
    },
    /// Cuts a file, or adds zeros to it.
    SetLength {
        /// The file.
        path: Path,
        /// How many bytes it gets.
        len: u64,
    },
    /// Makes an empty file.
    Create {
        /// The file's path, of which all but the last name is there.
        path: Path,
        /// The file's mode.
        mode: Mode,
    },
    /// Makes an empty directory.
    Mkdir {
        /// The directory's path, of which all but the last name is there.
        path: Path,
        /// The directory's mode.
        mode: Mode,
    },
    /// Removes a file.
    Unlink {
        /// The file.
        path: Path,
    },
    /// Removes an empty directory.
    Rmdir {
        /// The directory.
        path: Path,
    },
    /// Gives a file or a directory another name, in the same directory or in another.
    Rename {
        /// Its path.
        from: Path,
        /// Its new path, of which all but the last name is there.
        to: Path,
    },
    /// Sets the mode of a file or a directory.
    Chmod {
        /// The file.
        path: Path,
        /// Its new mode.
        mode: Mode,
    },
    /// Sets the owner and the group of a file or a directory.
    Chown {
        /// The file.
        path: Path,
        /// Its new owner.
        uid: u32,
        /// Its new group.
        gid: u32,
    },
    /// Sets the flags of a file or a directory.
    Chflags {
        /// The file.
        path: Path,
        /// All its new flags.
        flags: FileFlags,
    },
    /// Sets the securelevel.
    SetLevel {
        /// The new level.
        level: Level,
    },
    /// Writes what waits to be written (4.4BSD's sync(2)).
    Sync,
}

impl Request {
    /// A request equal to this one. Only a path and bytes take memory.
    pub fn try_clone(&self, alloc: Global) -> Result<Request, AllocError>
        ensures copy { IfOk result (λ copy. copy ≡ self.now) }
        ensures memory { IsErr result → HoldsPath self.now }
    {
        Ok(match self {
            Request::Stat { path } => Request::Stat {
                path: path.try_clone(alloc)?,
            },
            Request::Read { path, off, len } => Request::Read {
                path: path.try_clone(alloc)?,
                off: *off,
                len: *len,
            },
            Request::Write { path, place, bytes } => copied_write(alloc, path, *place, bytes)?,
            Request::List { path } => Request::List {
                path: path.try_clone(alloc)?,
            },
            Request::SetLength { path, len } => Request::SetLength {
                path: path.try_clone(alloc)?,
                len: *len,
            },
            Request::Create { path, mode } => Request::Create {
                path: path.try_clone(alloc)?,
                mode: *mode,
            },
            Request::Mkdir { path, mode } => Request::Mkdir {
                path: path.try_clone(alloc)?,
                mode: *mode,
            },
            Request::Unlink { path } => Request::Unlink {
                path: path.try_clone(alloc)?,
            },
            Request::Rmdir { path } => Request::Rmdir {
                path: path.try_clone(alloc)?,
            },
            Request::Rename { from, to } => copied_rename(alloc, from, to)?,
            Request::Chmod { path, mode } => Request::Chmod {
                path: path.try_clone(alloc)?,
                mode: *mode,
            },
            Request::Chown { path, uid, gid } => Request::Chown {
                path: path.try_clone(alloc)?,
                uid: *uid,
                gid: *gid,
            },
            Request::Chflags { path, flags } => Request::Chflags {
                path: path.try_clone(alloc)?,
                flags: *flags,
            },
            Request::SetLevel { level } => Request::SetLevel { level: *level },
            Request::Sync => Request::Sync,
        })
    }
}

/// A Write of copies of a path and bytes.
fn copied_write(
    alloc: Global,
    path: &Path,
    place: Place,
    bytes: &Payload,
) -> Result<Request, AllocError>
    ensures { IfOk result (λ copy. copy ≡ Request.Write path.now place bytes.now) }
{
    Ok(Request::Write {
        path: path.try_clone(alloc)?,
        place,
        bytes: bytes.try_clone(alloc)?,
    })
}

/// A Rename of copies of two paths.
fn copied_rename(alloc: Global, from: &Path, to: &Path) -> Result<Request, AllocError>
    ensures { IfOk result (λ copy. copy ≡ Request.Rename from.now to.now) }
{
    Ok(Request::Rename {
        from: from.try_clone(alloc)?,
        to: to.try_clone(alloc)?,
    })
}
