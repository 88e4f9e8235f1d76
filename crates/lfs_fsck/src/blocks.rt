//! Where the blocks of a file lie.

ghost use Rattle.std.specs.Prelude.{◌≡◌, ◌↔◌, ◌*◌, ◌<◌, ℕ, List, IsTrue};
ghost use Rattle.lfs_types.specs.declared.limits.TheConstants.{FILE_BYTES};
ghost use Rattle.lfs_bmap.specs.declared.blocks.TheConstants.{BLOCK_CODES};
ghost use Rattle.lfs_bmap.specs.Blocks.{IsFileBlock, code_of, way_to};
ghost use Rattle.lfs_bmap.specs.Reading.{address, bytes_via};
ghost use Rattle.lfs_parts.specs.Store.{IsWithin};
ghost use Rattle.lfs_parts.specs.View.{tree_of};
ghost use Rattle.lfs_fsck.specs.Checks.{IsRecordOf, LieBelow};
ghost use Rattle.lfs_fsck.specs.Stored.{flushed};

use lfs_bmap::blocks::{Cell, FIRST_CHILD_CODE, FIRST_DATA_CODE, FileBlock};
use lfs_inodes::addresses::{entry, root_address};
use lfs_inodes::inode::{DIRECT_COUNT, ENTRY_COUNT, Inode, SINGLE_END};
use lfs_log::Log;
use lfs_types::block::{BLOCK_SIZE, Block, ZERO_BLOCK};

/// The bytes of a block that has this address; zeros where it has none.
pub(crate) fn bytes_at(log: &Log, address: u32) -> &Block
    requires { address < log.now.memory.segments * 64 }
    ensures { (number : ℕ) (way : List ℕ)
        → result.now ≡ bytes_via (tree_of (flushed log.now) number) way address }
{
    if address == 0 {
        &ZERO_BLOCK
    } else {
        log.block(address)
    }
}

/// The address of a block of a file, 0 where it has none. The record has none.
pub(crate) fn address_of(log: &Log, inode: &Inode, block: FileBlock) -> u32
    requires own { IsRecordOf log.now inode.now }
    requires can { IsFileBlock block }
    requires inside { LieBelow log.now inode.now.number (code_of block) }
    ensures { result ≡ address (tree_of (flushed log.now) inode.now.number) (way_to block) }
{
    let Some(Cell { table, index }) = block.cell() else {
        return 0;
    };
    match table {
        FileBlock::Record => root_address(inode, index as usize),
        FileBlock::Single | FileBlock::Double | FileBlock::Child(_) | FileBlock::Data(_) => {
            let address = address_of(log, inode, table);
            entry(bytes_at(log, address), index as usize)
        }
    }
}

/// Whether a file of this size may have the block: it leads to a data block below the size.
pub(crate) fn within(block: FileBlock, size: u64) -> bool
    ensures { IsTrue result ↔ IsWithin block size }
{
    let first = match block {
        FileBlock::Record => 0,
        FileBlock::Single => DIRECT_COUNT as u64,
        FileBlock::Double => SINGLE_END as u64,
        FileBlock::Child(index) => SINGLE_END as u64 + ENTRY_COUNT as u64 * u64::from(index),
        FileBlock::Data(index) => u64::from(index),
    };
    first * (BLOCK_SIZE as u64) < size
}

/// The block with a code.
pub(crate) fn block_with(code: u32) -> FileBlock
    requires { code < BLOCK_CODES }
    ensures can { IsFileBlock result }
    ensures coded { code_of result ≡ code }
{
    match code {
        0 => FileBlock::Record,
        1 => FileBlock::Single,
        2 => FileBlock::Double,
        code if code < FIRST_DATA_CODE => FileBlock::Child((code - FIRST_CHILD_CODE) as u8),
        code => FileBlock::Data(code - FIRST_DATA_CODE),
    }
}
