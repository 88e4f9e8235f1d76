//! What a kernel is told of a file's attributes.

ghost use Rattle.std.specs.Prelude.{◌≡◌};
ghost use Rattle.lfs_fuse_calls.specs.Attrs.{attr_of, blocks_told, kind_told, links_told};

use lfs_fuse_reply::attr::Attr;
use lfs_fuse_wire::attributes::Time;
use lfs_fuse_wire::kind::FileKind;
use lfs_types::attrs::{Attrs, Kind};

/// No time is kept.
const NO_TIME: Time = Time {
    seconds: 0,
    nanoseconds: 0,
};

/// The units in which stat(2) tells the room of a file, in bytes.
const UNIT: u64 = 512;

/// The kind, as the kernel is told it.
fn kind_told(kind: Kind) -> FileKind
    ensures { result ≡ kind_told kind }
{
    match kind {
        Kind::File => FileKind::Regular,
        Kind::Directory => FileKind::Directory,
    }
}

/// How many names the kernel is told of: 1 of a file, 2 of a directory.
fn links_told(kind: Kind) -> u32
    ensures { result ≡ links_told kind }
{
    match kind {
        Kind::File => 1,
        Kind::Directory => 2,
    }
}

/// How many units of 512 bytes so many bytes take, the last one begun.
fn blocks_told(size: u64) -> u64
    ensures { result ≡ blocks_told size }
{
    let begun = if size % UNIT == 0 { 0 } else { 1 };
    size / UNIT + begun
}

/// The attributes that a Stat shows, as the kernel is told them. All times are 0.
pub fn attr(number: u32, attrs: &Attrs) -> Attr
    ensures { result ≡ attr_of number attrs.now }
{
    Attr {
        inode: u64::from(number),
        size: attrs.size,
        blocks: blocks_told(attrs.size),
        accessed: NO_TIME,
        modified: NO_TIME,
        changed: NO_TIME,
        kind: kind_told(attrs.kind),
        permissions: attrs.mode.bits(),
        links: links_told(attrs.kind),
        uid: attrs.uid,
        gid: attrs.gid,
        block_size: 4_096,
    }
}
