//! Kinds of files, and permissions, as the mode of stat(2) tells them.

ghost use Rattle.std.specs.Prelude.{◌≡◌};
ghost use Rattle.lfs_fuse_wire.specs.Kinds.{kind_in, permissions_in};

/// The bits of a mode that tell the kind.
const S_IFMT: u32 = 0o170000;

/// A regular file's kind.
const S_IFREG: u32 = 0o100000;

/// A directory's kind.
const S_IFDIR: u32 = 0o040000;

/// The bits of a mode that tell permissions, set-id bits and the sticky bit.
const PERMISSIONS: u32 = 0o7777;

/// A kind of file that is served. A mode may tell others: links, devices, pipes and sockets.
#[derive(Clone, Copy, PartialEq, Eq, Debug)]
pub enum FileKind {
    /// A file of bytes.
    Regular,
    /// A directory.
    Directory,
}

impl FileKind {
    /// The kind that a mode tells, if it is one of these.
    pub fn of(mode: u32) -> Option<FileKind>
        ensures { result ≡ kind_in mode }
    {
        match mode & S_IFMT {
            S_IFREG => Some(FileKind::Regular),
            S_IFDIR => Some(FileKind::Directory),
            _ => None,
        }
    }
}

/// The bits of a mode below its kind, at most 07777.
pub(crate) fn permissions(mode: u32) -> u16
    ensures { result ≡ permissions_in mode }
{
    (mode & PERMISSIONS) as u16
}
