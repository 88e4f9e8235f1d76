//! Where blocks lie now.

ghost use Rattle.std.specs.Prelude.{◌≡◌, ◌<◌, true, length};
ghost use Rattle.lfs_segments.specs.declared.entry.LogicalBlock.{LogicalBlock};
ghost use Rattle.lfs_segments.specs.Entry.{IsLogicalBlock, block_number};
ghost use Rattle.lfs_ifile.specs.Tables.{row_of};
ghost use Rattle.lfs_bmap.specs.Blocks.{IsFileBlock, code_of, file_block_of, way_to};
ghost use Rattle.lfs_bmap.specs.Moves.{present_address};
ghost use Rattle.lfs_parts.specs.Keys.{log_state};
ghost use Rattle.lfs_parts.specs.Store.{IsStore};
ghost use Rattle.lfs_parts.specs.View.{tree_of};
ghost use Rattle.lfs_bmap.specs.Reading.{address};

use crate::parts::Parts;
use lfs_bmap::blocks::FileBlock;
use lfs_segments::entry::LogicalBlock;
use lfs_types::cleaner::BlockInfo;

impl Parts {
    /// The present address of the block that an info names: 0 where the number isn't in use or has
    /// another version, where no file can have such a block, or where the block has no address.
    pub fn present_address(&self, info: &BlockInfo) -> u32
        requires { IsStore self.now }
        ensures known { (block : LogicalBlock) → IsLogicalBlock block
            → block_number block ≡ info.now.lbn
            → result ≡ present_address (log_state self.now) info.now.ino info.now.version
            (code_of (file_block_of block)) }
        ensures unknown { ((block : LogicalBlock) → IsLogicalBlock block
            → block_number block ≡ info.now.lbn → ⊥) → result ≡ 0 }
    {
        match LogicalBlock::from_number(info.lbn) {
            Some(block) => self.address_at(info.ino, info.version, FileBlock::from_logical(block)),
            None => 0,
        }
    }

    /// The present address of a block of a number at a version.
    fn address_at(&self, ino: u32, version: u32, block: FileBlock) -> u32
        requires store { IsStore self.now }
        requires block { IsFileBlock block }
        ensures { result ≡ present_address (log_state self.now) ino version (code_of block) }
    {
        if ino >= self.log.inodes() {
            return 0;
        }
        match self.log.place(ino) {
            Some(place) if place.version == version => match block {
                FileBlock::Record => place.addr,
                FileBlock::Single | FileBlock::Double | FileBlock::Child(_) | FileBlock::Data(_) =>
                    self.address_in(ino, block),
            },
            _ => 0,
        }
    }

    /// The address of a block of a number in use, which isn't its record.
    fn address_in(&self, ino: u32, block: FileBlock) -> u32
        requires store { IsStore self.now }
        requires in_range { ino < length self.now.log.tables.rows }
        requires block { IsFileBlock block }
        requires in_use { (row_of self.now.log.tables ino).used ≡ true }
        ensures { result ≡ address (tree_of self.now ino) (way_to block) }
    {
        match self.record(ino) {
            Some(inode) => self.address_of(&inode, block),
            None => 0,
        }
    }
}
