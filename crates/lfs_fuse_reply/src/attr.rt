//! Attributes of a file or directory, and the entry that leads to one.

ghost use Rattle.std.specs.Prelude.{◌≡◌, ◌++◌, OnOk};
ghost use Rattle.lfs_fuse_reply.specs.Attrs.{attr_bytes, entry_bytes, mode_of, times_bytes};

use crate::writing::{push_longs, push_words};
use lfs_fuse_wire::attributes::Time;
use lfs_fuse_wire::kind::FileKind;
use std::alloc::AllocError;

/// The attributes of a file or directory, as stat(2) shows them.
#[derive(Clone, Copy, PartialEq, Eq, Debug)]
pub struct Attr {
    /// The inode number.
    pub inode: u64,
    /// The size, in bytes.
    pub size: u64,
    /// The room that it takes, in units of 512 bytes.
    pub blocks: u64,
    /// The time of the last read.
    pub accessed: Time,
    /// The time of the last change of the bytes.
    pub modified: Time,
    /// The time of the last change of the attributes.
    pub changed: Time,
    /// The kind.
    pub kind: FileKind,
    /// The permissions, at most 07777: higher bits are not told.
    pub permissions: u16,
    /// The number of its names.
    pub links: u32,
    /// The owner.
    pub uid: u32,
    /// The group.
    pub gid: u32,
    /// The bytes that are best read at once.
    pub block_size: u32,
}

/// An entry of a directory that was found or made. The kernel keeps neither the name nor the attributes.
#[derive(Clone, Copy, PartialEq, Eq, Debug)]
pub struct Entry {
    /// The id by which the kernel calls the node from now on.
    pub node: u64,
    /// Which of the nodes that had this id it is.
    pub generation: u64,
    /// Its attributes.
    pub attr: Attr,
}

/// The mode of stat(2): the kind and the permissions.
fn mode(kind: FileKind, permissions: u16) -> u32
    ensures { result ≡ mode_of kind permissions }
{
    let kind: u32 = match kind {
        FileKind::Regular => 0o100000,
        FileKind::Directory => 0o040000,
    };
    kind + u32::from(permissions % 0o10000)
}

/// Adds the 88 bytes of attributes.
pub(crate) fn push_attr(out: &mut Vec<u8>, attr: &Attr) -> Result<(), AllocError>
    ensures { OnOk result (out.new.items ≡ out.old.items ++ attr_bytes attr.now) }
{
    push_longs(out, &[attr.inode, attr.size, attr.blocks])?;
    push_times(out, attr)?;
    let mode = mode(attr.kind, attr.permissions);
    push_words(out, &[mode, attr.links, attr.uid, attr.gid])?;
    push_words(out, &[0, attr.block_size, 0])
}

/// Adds the seconds of the three times, then their nanoseconds.
fn push_times(out: &mut Vec<u8>, attr: &Attr) -> Result<(), AllocError>
    ensures { OnOk result (out.new.items ≡ out.old.items ++ times_bytes attr.now) }
{
    let (accessed, modified, changed) = (attr.accessed, attr.modified, attr.changed);
    push_longs(out, &[accessed.seconds, modified.seconds, changed.seconds])?;
    push_words(
        out,
        &[
            accessed.nanoseconds,
            modified.nanoseconds,
            changed.nanoseconds,
        ],
    )
}

/// Adds the 128 bytes of an entry: the name and the attributes are kept for no time.
pub(crate) fn push_entry(out: &mut Vec<u8>, entry: &Entry) -> Result<(), AllocError>
    ensures { OnOk result (out.new.items ≡ out.old.items ++ entry_bytes entry.now) }
{
    push_longs(out, &[entry.node, entry.generation, 0, 0])?;
    push_words(out, &[0, 0])?;
    push_attr(out, &entry.attr)
}
