//! What the cleaner asks of the log, and what it is told.

ghost use Rattle.std.specs.Prelude.{◌≡◌, ◌<◌, ◌≤◌, ◌↔◌, [], ◌∷◌, ◌++◌, length, IsSome, IfSome};

use arrayvec::ArrayVec;
use std::marker::Model;
use thiserror::Error;

/// The greatest number of infos of a list: a segment names no more (this project's profile).
pub const INFO_LIMIT: usize = 248;

/// The greatest number of infos that one Markv takes (this project's profile).
pub const MARK_LIMIT: usize = 8;

/// The logical block that stands for an inode (this project's profile).
pub const INODE_BLOCK: u32 = 0xffff_ffff;

/// The logical block that stands for a single indirect block (this project's profile).
pub const SINGLE_BLOCK: u32 = 0x8000_0000;

/// A block of a file, or an inode, and where it lies (4.4BSD's `BLOCK_INFO`).
#[derive(Clone, Copy, PartialEq, Eq, Debug, Default)]
pub struct BlockInfo {
    /// The inode number.
    pub ino: u32,
    /// The version of the number: how often it has been given out.
    pub version: u32,
    /// The logical block: n for data block n, 2147483648 (`SINGLE_BLOCK`) for the single indirect block, 2147483649 for
    /// the double one, 2147483904 + k for its child k, 4294967295 (`INODE_BLOCK`) for the inode.
    pub lbn: u32,
    /// The address; 0 is none.
    pub addr: u32,
}

/// At most `LIMIT` infos, which lie in the value itself.
#[derive(Drop, Debug)]
pub struct BlockInfos<const LIMIT: usize> {
    items: ArrayVec<BlockInfo, LIMIT>,
}

/// The infos of a segment: at most 248.
pub type InfoList = BlockInfos<INFO_LIMIT>;

/// The infos of blocks that are to be written again: at most 8.
pub type MarkList = BlockInfos<MARK_LIMIT>;

impl<const LIMIT: usize> Model for BlockInfos<LIMIT> {
    ghost use Rattle.std.specs.Prelude.{List, ◌≤◌, length};
    ghost use Rattle.lfs_types.specs.declared.cleaner.BlockInfo.{BlockInfo};

    ghost Value = { List BlockInfo };

    ghost view = { λ l. l.items.items };

    ghost invariant = { λ l. length l.items.items ≤ LIMIT };
}

impl<const LIMIT: usize> BlockInfos<LIMIT> {
    /// The list of these infos, where it takes as many.
    pub fn new(infos: &[BlockInfo]) -> Option<Self>
        ensures fits { IsSome result ↔ (length infos.now ≤ LIMIT) }
        ensures items { IfSome result (λ list. list ≡ infos.now) }
    {
        match ArrayVec::try_from(infos) {
            Ok(items) => Some(BlockInfos { items }),
            Err(_) => None,
        }
    }

    /// A list of no infos.
    pub fn empty() -> Self
        ensures { result ≡ [] }
    {
        BlockInfos {
            items: ArrayVec::new(),
        }
    }

    /// The infos, in order.
    pub fn items(&self) -> &[BlockInfo]
        ensures items { result.now ≡ self.now }
        ensures fits { length self.now ≤ LIMIT }
    {
        self.items.as_slice()
    }

    /// Adds an info behind the others. There must be room.
    pub fn push(&mut self, info: BlockInfo)
        requires { length self.old < LIMIT }
        ensures { self.new ≡ self.old ++ info ∷ [] }
    {
        self.items.push(info);
    }

    /// The infos as a vector of fixed capacity.
    pub fn into_items(self) -> ArrayVec<BlockInfo, LIMIT>
        ensures items { result.items ≡ self.entry }
        ensures fits { length self.entry ≤ LIMIT }
    {
        self.items
    }
}

impl<const LIMIT: usize> From<ArrayVec<BlockInfo, LIMIT>> for BlockInfos<LIMIT> {
    ghost from_gives = { λ items list. list ≡ items.items };

    fn from(items: ArrayVec<BlockInfo, LIMIT>) -> Self {
        BlockInfos { items }
    }
}

/// Why a cleaner's call did nothing: of each call the first that holds, in this order (this project's
/// profile).
#[derive(Clone, Copy, PartialEq, Eq, Debug, Error)]
pub enum CleanFault {
    /// The volume has no such segment.
    #[error("no such segment")]
    NoSuchSegment,
    /// The segment is the one that is written.
    #[error("the segment is active")]
    Active,
    /// The segment is clean.
    #[error("the segment is not dirty")]
    NotDirty,
    /// The segment has this many live bytes, more than none.
    #[error("the segment has {0} live bytes")]
    Live(u32),
    /// There is no room to write blocks again.
    #[error("no space")]
    NoSpace,
    /// No segment that could be cleaned in the room there is would give back more than that takes.
    #[error("no segment is gainful")]
    NotGainful,
}

/// A call of the cleaner (4.4BSD's lfs_bmapv(2), lfs_markv(2) and lfs_segclean(2), two that read what its cleaner reads
/// of the ifile and of a segment's summaries, and, in this project's profile, one for room where a pass finds none).
#[derive(Drop, Debug)]
pub enum CleanerCall {
    /// The bytes of the ifile.
    Ifile,
    /// The infos of a dirty segment.
    Infos(u32),
    /// The present addresses of blocks.
    Bmapv(InfoList),
    /// Blocks to be written again at the end of the log, where their address is still the one given.
    Markv(MarkList),
    /// A dirty segment without live bytes becomes clean.
    Segclean(u32),
    /// A segment is cleaned where that gains room.
    Gain,
}
