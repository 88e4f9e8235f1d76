//! The attributes of a file.

ghost use Rattle.std.specs.Prelude.{◌≡◌};
ghost use Rattle.lfs_types.specs.Kinds.{is_directory_kind};

use crate::file_flags::FileFlags;
use crate::mode::Mode;

/// What a file is.
#[derive(Clone, Copy, PartialEq, Eq, Debug)]
pub enum Kind {
    /// A regular file.
    File,
    /// A directory.
    Directory,
}

impl Kind {
    /// Whether it is a directory.
    pub fn is_directory(self) -> bool
        ensures { result ≡ is_directory_kind self }
    {
        match self {
            Kind::File => false,
            Kind::Directory => true,
        }
    }
}

/// The attributes of a file (4.4BSD's stat(2), as far as this server has them).
#[derive(Clone, Copy, PartialEq, Eq, Debug)]
pub struct Attrs {
    /// How many bytes it has.
    pub size: u64,
    /// The user who owns it.
    pub uid: u32,
    /// The group that the mode's group bits judge.
    pub gid: u32,
    /// Its flags.
    pub flags: FileFlags,
    /// Its mode.
    pub mode: Mode,
    /// A file or a directory.
    pub kind: Kind,
}

/// What a caller wants to do to a file: a right, for which the mode has one bit in each of its three classes.
#[derive(Clone, Copy, PartialEq, Eq, Debug)]
pub enum Bit {
    /// To read its bytes, or the names of a directory.
    Read,
    /// To change its bytes, or the names of a directory.
    Write,
    /// To go through a directory to one of its names.
    Search,
}
