//! The blocks of a file that hold addresses: which ones these are, how far from the record, and in
//! which turn each block is written.

ghost use Rattle.std.specs.Prelude.{◌≡◌, ◌≤◌, ◌<◌, ◌↔◌, ℕ, length};
ghost use Rattle.lfs_types.specs.declared.limits.TheConstants.{FILE_BLOCKS};
ghost use Rattle.lfs_bmap.specs.Blocks.{IsFileBlock, first_under, table_of, way_to};
ghost use Rattle.lfs_bmap.specs.Tables.{rank_of, tables_between};
ghost use Rattle.lfs_bmap.specs.declared.blocks.FileBlock.TheVariants.{Data};

use crate::blocks::{DIRECT_BLOCKS, FIRST_CHILD_CODE, FIRST_DATA_CODE, FileBlock, TABLE_CELLS};
use lfs_inodes::inode::SINGLE_END;
use std::ops::Range;

/// The first data block whose address doesn't stand in the record or in the single indirect block.
const FIRST_FAR_BLOCK: u32 = SINGLE_END as u32;

/// The greatest number of blocks that lead from the record to a block, itself among them.
pub const MOST_DEPTH: usize = 3;

/// In how many turns blocks are written, each before what holds its address.
pub const RANKS: u32 = 3;

/// The turn in which the block with a code is written, from 0: data blocks, then the children of a
/// double indirect block, then the other indirect blocks.
#[tactic(auto, unfolding(crate::specs::Tables::rank_of))]
pub fn rank(code: u32) -> u32
    ensures { result ≡ rank_of code }
{
    if code >= FIRST_DATA_CODE {
        0
    } else if code >= FIRST_CHILD_CODE {
        1
    } else {
        2
    }
}

/// How many indirect blocks lead to the data blocks from `first` to `last`.
pub fn tables_between(first: u32, last: u32) -> usize
    requires ordered { first ≤ last }
    requires bounded { last < FILE_BLOCKS }
    ensures { result ≡ tables_between first last }
{
    let from = FileBlock::Data(first).table();
    let to = FileBlock::Data(last).table();
    (to.code() - from.code()) as usize + from.depth()
}

impl FileBlock {
    /// The data blocks whose addresses stand in the block itself; none for a data block and for the
    /// double indirect block.
    pub fn data_run(self) -> Range<u32>
        requires { IsFileBlock self }
        ensures own { (k : ℕ) → k < FILE_BLOCKS
            → (table_of (Data k) ≡ self) ↔ ((result.start ≤ k) × (k < result.end)) }
        ensures start { result.start ≡ first_under self }
        ensures ordered { result.start ≤ result.end }
    {
        match self {
            FileBlock::Record => 0..DIRECT_BLOCKS,
            FileBlock::Single => DIRECT_BLOCKS..FIRST_FAR_BLOCK,
            FileBlock::Double => FIRST_FAR_BLOCK..FIRST_FAR_BLOCK,
            FileBlock::Child(index) => {
                let start = FIRST_FAR_BLOCK + TABLE_CELLS * u32::from(index);
                start..start + TABLE_CELLS
            }
            FileBlock::Data(index) => index..index,
        }
    }

    /// How many blocks lead from the record to the block, itself among them: 0 for the record.
    pub fn depth(self) -> usize
        requires { IsFileBlock self }
        ensures way { result ≡ length (way_to self) }
        ensures few { result ≤ MOST_DEPTH }
    {
        match self.cell() {
            Some(cell) => cell.table.depth() + 1,
            None => 0,
        }
    }
}
