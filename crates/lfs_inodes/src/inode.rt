//! Inodes.

ghost use Rattle.std.specs.Prelude.{◌≡◌, ◌≤◌, ◌<◌, length};
ghost use Rattle.lfs_types.specs.FlagNumbers.{IsKnown};
ghost use Rattle.lfs_inodes.specs.declared.inode.TheConstants.{DIRECT_COUNT};
ghost use Rattle.lfs_inodes.specs.Facts.{IsInodeNumber, IsSizeOf, AreDirect, IsDouble, IsSingle};

use lfs_types::attrs::Kind;
use lfs_types::file_flags::FileFlags;
use lfs_types::limits::{MOST_SEGMENTS, SEGMENT_BLOCKS};
use lfs_types::mode::Mode;

/// The number of blocks whose addresses stand in the record itself (this project's profile).
pub const DIRECT_COUNT: usize = 12;

/// The number of addresses in an indirect block (this project's profile).
pub const ENTRY_COUNT: usize = 128;

/// The first block under the double indirect block: those before it stand in the record or in the
/// single indirect block.
pub const SINGLE_END: usize = DIRECT_COUNT + ENTRY_COUNT;

/// The place among the addresses of the record where that of the double indirect block stands, behind
/// that of the single one.
pub const DOUBLE_PLACE: usize = DIRECT_COUNT + 1;

/// The number of addresses in the record: those of its first blocks, then those of the single and of
/// the double indirect block.
pub const ROOT_COUNT: usize = DOUBLE_PLACE + 1;

/// Addresses lie below this number, 65,536: those of the blocks of the largest volume.
pub const ADDRESS_LIMIT: u32 = MOST_SEGMENTS * SEGMENT_BLOCKS;

/// What the log keeps of a file or a directory beside its blocks: its attributes, and the addresses
/// of its first blocks. A block without an address reads as zeros (this project's profile).
#[derive(Clone, Copy, PartialEq, Eq, Debug)]
pub struct Inode {
    /// File or directory.
    pub kind: Kind,
    /// The inode number: 2 for the root, else 4 to 4,095.
    pub number: u32,
    /// How often the number has been given out, at least 1.
    pub version: u32,
    /// The owner's user number.
    pub owner: u32,
    /// The group number.
    pub group: u32,
    /// The permission, set-id and sticky bits.
    pub mode: Mode,
    /// The file flags.
    pub flags: FileFlags,
    /// The number of bytes, at most `FILE_BYTES`; for a directory a multiple of 512.
    pub size: u64,
    /// The addresses of data blocks 0 to 11, each below 65,536; 0 is none.
    pub direct: [u32; DIRECT_COUNT],
    /// The address of the single indirect block, below 65,536; 0 is none.
    pub single: u32,
    /// The address of the double indirect block, below 65,536; 0 is none.
    pub double: u32,
    ghost numbered: { IsInodeNumber number },
    ghost versioned: { 1 ≤ version },
    ghost permitted: { mode < 4096 },
    ghost flagged: { IsKnown flags },
    ghost sized: { IsSizeOf kind size },
    ghost whole: { length direct ≡ DIRECT_COUNT },
    ghost addressed: { AreDirect size direct },
    ghost indirect: { IsSingle size single },
    ghost doubled: { IsDouble size double },
}
