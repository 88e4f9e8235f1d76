//! Staging: what a call changes waits over the log, with its parents, until it is written.

ghost use Rattle.std.specs.Prelude.{◌≡◌, ◌≢◌, ◌+◌, ◌<◌, ◌≤◌, ◌⊎◌, ◌↔◌, ℕ, IsTrue, Some, length, true};
ghost use Rattle.lfs_types.specs.declared.limits.TheConstants.{FILE_BLOCKS};
ghost use Rattle.lfs_ifile.specs.Tables.{row_of};
ghost use Rattle.lfs_inodes.specs.Facts.{block_count};
ghost use Rattle.lfs_inodes.specs.Reading.{fields_of};
ghost use Rattle.lfs_cache.specs.declared.cache.TheConstants.{LOCKED_LIMIT};
ghost use Rattle.lfs_cache.specs.Contents.{IsLocked};
ghost use Rattle.lfs_log.specs.Parts.{IsParts};
ghost use Rattle.lfs_bmap.specs.Blocks.{IsFileBlock, code_of, table_of, way_to};
ghost use Rattle.lfs_bmap.specs.Reading.{read};
ghost use Rattle.lfs_bmap.specs.Ways.{codes_on, data_way};
ghost use Rattle.lfs_parts.specs.declared.records.TheConstants.{WAITING_LIMIT};
ghost use Rattle.lfs_staging.specs.Staging.{HasFrames, IsStaged, IsZeroPast, MayStage, StagesBlock, StagesData, StagesOwnRecord, StagesParents, StagesRecord, StagesTable};
ghost use Rattle.lfs_parts.specs.Store.{AreFiles};
ghost use Rattle.lfs_parts.specs.View.{LiesIn, blocks_of, key_of, record_of, tree_of, version_of};
ghost use Rattle.lfs_parts.specs.Waiting.{without};

use lfs_bmap::blocks::FileBlock;
use lfs_cache::{BlockCode, Key};
use lfs_inodes::inode::Inode;
use lfs_parts::parts::{Parts, key_of};
use lfs_types::block::Block;

/// Has a record wait, in place of the one that its number had.
pub fn stage_record(parts: &mut Parts, inode: Inode)
    requires in_use { (row_of parts.old.log.tables inode.number).used ≡ true }
    requires room { length (without inode.number parts.old.waiting) < WAITING_LIMIT }
    requires parts { IsParts parts.old.log }
    ensures { StagesRecord inode parts.old parts.new }
{
    parts.waiting.put(inode);
}

/// Has bytes wait for a block of a file, which isn't its record.
pub fn stage_block(parts: &mut Parts, inode: &Inode, block: FileBlock, bytes: &Block)
    requires block { IsFileBlock block }
    requires other { code_of block ≢ 0 }
    requires version { inode.now.version ≡ version_of parts.old inode.now.number }
    requires room { IsLocked (key_of inode.now.number inode.now.version (code_of block))
        parts.old.cache
        ⊎ (length parts.old.cache.locked < LOCKED_LIMIT) }
    ensures { StagesBlock inode.now.number block bytes.now parts.old parts.new }
{
    let key = Key {
        ino: inode.number,
        version: inode.version,
        lbn: BlockCode(block.code()),
    };
    parts.cache.write(key, bytes);
}

/// Has bytes wait for a data block of a file, and its parents too.
pub fn stage_data(parts: &mut Parts, inode: &Inode, index: u32, bytes: &Block)
    requires may { MayStage parts.old inode.now }
    requires room { HasFrames parts.old inode.now.number (codes_on (data_way index)) }
    requires block { index < FILE_BLOCKS }
    requires within { index < block_count inode.now.size }
    requires zeros { IsZeroPast inode.now.size index bytes.now }
    ensures staged { StagesData inode.now.number index bytes.now parts.old parts.new }
    // Another block of the file may wait, and what holds in the middle of a call is kept.
    ensures again { MayStage parts.new inode.now }
    ensures kept { (spare : ℕ) → IsStaged parts.old spare → IsStaged parts.new spare }
{
    let block = FileBlock::Data(index);
    stage_parents(parts, inode, block);
    stage_block(parts, inode, block, bytes);
}

/// Has the parents of a block wait, with what they have: the record of the file, and the blocks
/// that lead from it to the block. Where what holds its address waits, they all do.
pub fn stage_parents(parts: &mut Parts, inode: &Inode, block: FileBlock)
    requires may { MayStage parts.old inode.now }
    requires block { IsFileBlock block }
    requires room { HasFrames parts.old inode.now.number (codes_on (way_to (table_of block))) }
    ensures { StagesParents inode.now.number block parts.old parts.new }
{
    let table = block.table();
    match table {
        FileBlock::Record => stage_own_record(parts, inode),
        FileBlock::Single | FileBlock::Double | FileBlock::Child(_) | FileBlock::Data(_) => {
            if waits(parts, inode, table) {
                return;
            }
            stage_parents(parts, inode, table);
            stage_table(parts, inode, table);
        }
    }
}

/// Has the record of a file wait, with what it has. Where it waits already, nothing is done.
pub(crate) fn stage_own_record(parts: &mut Parts, inode: &Inode)
    requires may { MayStage parts.old inode.now }
    ensures { StagesOwnRecord inode.now.number parts.old parts.new }
{
    if parts.waiting(inode.number).is_some() {
        return;
    }
    stage_record(parts, *inode);
}

/// Has a block of a file that isn't its record wait, with what it has, and its parents too.
pub fn stage_with_parents(parts: &mut Parts, inode: &Inode, block: FileBlock)
    requires may { MayStage parts.old inode.now }
    requires block { IsFileBlock block }
    requires other { code_of block ≢ 0 }
    requires room { HasFrames parts.old inode.now.number (codes_on (way_to block)) }
    ensures { StagesTable inode.now.number block parts.old parts.new }
{
    stage_parents(parts, inode, block);
    stage_table(parts, inode, block);
}

/// Whether a block of a file waits.
pub(crate) fn waits(parts: &Parts, inode: &Inode, block: FileBlock) -> bool
    requires { IsFileBlock block }
    ensures { IsTrue result
        ↔ IsLocked (key_of inode.now.number inode.now.version (code_of block)) parts.now.cache }
{
    parts.cache.dirty(key_of(inode, block)).is_some()
}

/// Has a block of a file that isn't its record wait, with what it has. Where it waits already,
/// nothing is done.
pub fn stage_table(parts: &mut Parts, inode: &Inode, table: FileBlock)
    requires files { AreFiles parts.old }
    requires inside { LiesIn (blocks_of parts.old) (tree_of parts.old inode.now.number) }
    requires here { record_of parts.old inode.now.number ≡ Some (fields_of inode.now) }
    requires block { IsFileBlock table }
    requires other { code_of table ≢ 0 }
    requires room { IsLocked (key_of inode.now.number (version_of parts.old inode.now.number)
        (code_of table))
        parts.old.cache ⊎ (length parts.old.cache.locked < LOCKED_LIMIT) }
    ensures { StagesBlock inode.now.number table
        (read (tree_of parts.old inode.now.number) (way_to table)) parts.old parts.new }
{
    if waits(parts, inode, table) {
        return;
    }
    let bytes = *parts.block_of(inode, table);
    stage_block(parts, inode, table, &bytes);
}
