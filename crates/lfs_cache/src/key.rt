//! The name of a block.
ghost use Rattle.std.specs.Prelude.{◌≡◌};
ghost use Rattle.lfs_cache.specs.Keys.{same_key};

/// A block of a file as its key has it: 0 the record, 1 the single indirect block, 2 the double one, 3 + k its child k, and
/// behind them the data blocks (`FileBlock::code` of `lfs_bmap`; this project's profile). It is no logical block number,
/// which summaries and the cleaner's infos have.
#[derive(Clone, Copy, PartialEq, Eq, Debug)]
pub struct BlockCode(pub u32);

/// A block of a file: the file's number, the version of that number, and which of its blocks it is.
#[derive(Clone, Copy, PartialEq, Eq, Debug)]
pub struct Key {
    /// The inode number.
    pub ino: u32,
    /// The version of the inode number.
    pub version: u32,
    /// Which of the file's blocks.
    pub lbn: BlockCode,
}

pub(crate) fn same(a: Key, b: Key) -> bool
    ensures { result ≡ same_key a b }
{
    a == b
}
