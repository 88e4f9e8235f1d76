//! Messages that make, move or take away names: their fields, which stand before the names.

ghost use Rattle.std.specs.Prelude.{◌≡◌, ◌≤◌, IfSome, length};
ghost use Rattle.lfs_fuse_wire.specs.Naming.{
  create_in,
  mkdir_in,
  mknod_in,
  move_in,
  rename2_in,
  rename_in,
};

use crate::flags::{OPEN_KILL_SUIDGID, OpenFlags};
use crate::kind::{FileKind, permissions};
use crate::numbers::{has, long_at, word_at};

/// A file that is to be made.
#[derive(Clone, Copy, PartialEq, Eq, Debug)]
pub struct Mknod {
    /// The kind, if it is one that is served.
    pub kind: Option<FileKind>,
    /// The permissions, at most 07777, from which the kernel has taken the mask.
    pub permissions: u16,
    /// The mask of the process.
    pub umask: u16,
}

impl Mknod {
    /// The 16 bytes before the name.
    pub(crate) fn decode(body: &[u8]) -> Option<Mknod>
        ensures fields { result ≡ mknod_in body.now }
        ensures room { IfSome result (λ fields. 16 ≤ length body.now) }
    {
        if body.len() < 16 {
            return None;
        }
        let mode = word_at(body, 0);
        Some(Mknod {
            kind: FileKind::of(mode),
            permissions: permissions(mode),
            umask: permissions(word_at(body, 8)),
        })
    }
}

/// A directory that is to be made.
#[derive(Clone, Copy, PartialEq, Eq, Debug)]
pub struct Mkdir {
    /// The permissions, at most 07777, from which the kernel has taken the mask.
    pub permissions: u16,
    /// The mask of the process.
    pub umask: u16,
}

impl Mkdir {
    /// The 8 bytes before the name.
    pub(crate) fn decode(body: &[u8]) -> Option<Mkdir>
        ensures fields { result ≡ mkdir_in body.now }
        ensures room { IfSome result (λ fields. 8 ≤ length body.now) }
    {
        if body.len() < 8 {
            return None;
        }
        Some(Mkdir {
            permissions: permissions(word_at(body, 0)),
            umask: permissions(word_at(body, 4)),
        })
    }
}

/// A file that is to be made and opened, or opened where it is there.
#[derive(Clone, Copy, PartialEq, Eq, Debug)]
pub struct Create {
    /// How it is opened.
    pub flags: OpenFlags,
    /// The permissions, at most 07777, from which the kernel has taken the mask.
    pub permissions: u16,
    /// The mask of the process.
    pub umask: u16,
    /// Set-id bits are to go where the file is cut.
    pub kill_set_id: bool,
}

impl Create {
    /// The 16 bytes before the name.
    pub(crate) fn decode(body: &[u8]) -> Option<Create>
        ensures fields { result ≡ create_in body.now }
        ensures room { IfSome result (λ fields. 16 ≤ length body.now) }
    {
        if body.len() < 16 {
            return None;
        }
        Some(Create {
            flags: OpenFlags::of(word_at(body, 0)),
            permissions: permissions(word_at(body, 4)),
            umask: permissions(word_at(body, 8)),
            kill_set_id: has(word_at(body, 12), OPEN_KILL_SUIDGID),
        })
    }
}

/// What becomes of an entry that has the new name.
#[derive(Clone, Copy, PartialEq, Eq, Debug)]
pub enum RenameMode {
    /// It is replaced.
    Replace,
    /// There must be none (RENAME_NOREPLACE).
    NoReplace,
    /// It takes the old name (RENAME_EXCHANGE).
    Exchange,
    /// Something else, which is not served.
    Other,
}

impl RenameMode {
    /// The mode that the flags of renameat2(2) say.
    pub fn of(flags: u32) -> RenameMode
        ensures { result ≡ move_in flags }
    {
        match flags {
            0 => RenameMode::Replace,
            1 => RenameMode::NoReplace,
            2 => RenameMode::Exchange,
            _ => RenameMode::Other,
        }
    }
}

/// Where an entry is moved.
#[derive(Clone, Copy, PartialEq, Eq, Debug)]
pub struct Rename {
    /// The node of the new directory.
    pub directory: u64,
    /// What becomes of an entry that has the new name.
    pub mode: RenameMode,
}

impl Rename {
    /// The 8 bytes before the names, of the message without flags.
    pub(crate) fn decode(body: &[u8]) -> Option<Rename>
        ensures fields { result ≡ rename_in body.now }
        ensures room { IfSome result (λ fields. 8 ≤ length body.now) }
    {
        if body.len() < 8 {
            return None;
        }
        Some(Rename {
            directory: long_at(body, 0),
            mode: RenameMode::Replace,
        })
    }

    /// The 16 bytes before the names, of the message with flags.
    pub(crate) fn decode_with_flags(body: &[u8]) -> Option<Rename>
        ensures fields { result ≡ rename2_in body.now }
        ensures room { IfSome result (λ fields. 16 ≤ length body.now) }
    {
        if body.len() < 16 {
            return None;
        }
        Some(Rename {
            directory: long_at(body, 0),
            mode: RenameMode::of(word_at(body, 8)),
        })
    }
}
