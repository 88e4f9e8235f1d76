//! Changing what waits: the length of a file.

ghost use Rattle.std.specs.Prelude.{◌≡◌, ◌+◌, ◌/◌, ◌<◌, ◌≤◌, ◌↔◌, IsTrue, Some, length, true};
ghost use Rattle.lfs_cache.specs.declared.cache.TheConstants.{LOCKED_LIMIT};
ghost use Rattle.lfs_staging.specs.declared.cutting.TheConstants.{CUT_FRAMES};
ghost use Rattle.lfs_types.specs.declared.block.TheConstants.{BLOCK_SIZE};
ghost use Rattle.lfs_ifile.specs.Tables.{row_of};
ghost use Rattle.lfs_inodes.specs.Facts.{IsSizeOf, block_count};
ghost use Rattle.lfs_inodes.specs.Reading.{Fields};
ghost use Rattle.lfs_bmap.specs.Blocks.{IsFileBlock, first_under, way_to};
ghost use Rattle.lfs_bmap.specs.Ways.{codes_on, data_way};
ghost use Rattle.lfs_staging.specs.Changing.{StaysInLog, frames_of_length, length_codes};
ghost use Rattle.lfs_staging.specs.Cutting.{ClearsBlock, ClearsBlocks, ClearsTable, CutsBlock, CutsFile, CutsLast, DropsBlocks, DropsDown, DropsTable, IsGone, MayClear, MayClearBetween, MayClearTable, MayDrop, MayDropAll, MayShorten, Shortens, with_length};
ghost use Rattle.lfs_parts.specs.Files.{content_of};
ghost use Rattle.lfs_staging.specs.Addressing.{IsWaiting};
ghost use Rattle.lfs_staging.specs.Staging.{HasFrames, IsStaged, MayStage, TakesOnly};
ghost use Rattle.lfs_parts.specs.View.{record_of, version_of};
ghost use Rattle.lfs_parts.specs.Waiting.{KeepsOtherRecords, without};
ghost use Rattle.lfs_parts.specs.declared.records.TheConstants.{WAITING_LIMIT};

use crate::addressing::set_address;
use crate::staging::{stage_data, stage_own_record, stage_record, stage_with_parents, waits};
use lfs_bmap::blocks::FileBlock;
use lfs_bmap::pieces::cut_piece;
use lfs_cache::{BlockCode, Key};
use lfs_inodes::addresses::entry;
use lfs_inodes::inode::Inode;
use lfs_parts::parts::{Parts, key_of};
use lfs_types::block::BLOCK_SIZE;

/// The greatest number of frames that a cut takes while it goes on: for the last block that is left and
/// what holds its address, and for what leads to the blocks that go.
pub const CUT_FRAMES: usize = 4;

/// Cuts a file in use, or adds zeros to it, so that it has this many bytes. The blocks past them
/// are given back: they have no address and wait no more.
pub fn set_length(parts: &mut Parts, ino: u32, len: u64)
    requires staged { IsStaged parts.old 0 }
    requires in_range { ino < length parts.old.log.tables.rows }
    requires in_use { (row_of parts.old.log.tables ino).used ≡ true }
    requires sized { (f : Fields) → record_of parts.old ino ≡ Some f
        → IsSizeOf f.attributes.kind len }
    requires frames { length parts.old.cache.locked + CUT_FRAMES ≤ LOCKED_LIMIT }
    requires records { length parts.old.waiting < WAITING_LIMIT }
    ensures staged { IsStaged parts.new 0 }
    ensures content { content_of parts.new ≡ with_length ino len (content_of parts.old) }
    ensures size { (f : Fields) → record_of parts.new ino ≡ Some f → f.attributes.size ≡ len }
    ensures log { StaysInLog parts.old parts.new }
    ensures rows { parts.new.log.tables.rows ≡ parts.old.log.tables.rows }
    ensures frames { length parts.new.cache.locked
        ≤ length parts.old.cache.locked + frames_of_length len }
    ensures waiting { length parts.new.waiting ≤ length parts.old.waiting + 1 }
    // No more records of other numbers wait than records waited.
    ensures others { length (without ino parts.new.waiting) ≤ length parts.old.waiting }
    // What waits more is what the length ends in and what leads there, and the file's record.
    ensures only { TakesOnly ino (version_of parts.old ino) (length_codes len)
        parts.old.cache parts.new.cache }
    ensures other_records { KeepsOtherRecords ino parts.old.waiting parts.new.waiting }
{
    let inode = parts.record_in_use(ino);
    if len < inode.size {
        cut(parts, &inode, len);
    } else {
        stage_record(parts, inode.grown(len));
    }
}

/// Gives back a block of a file whose record waits: its address is none, its live bytes go, and it
/// waits no more.
fn clear(parts: &mut Parts, inode: &Inode, block: FileBlock)
    requires is { IsWaiting parts.old inode.now }
    requires may { MayClear parts.old inode.now.number block }
    ensures { ClearsBlock inode.now.number block parts.old parts.new }
{
    let from = parts.address_of(inode, block);
    set_address(parts, inode, block, 0);
    parts.log.move_live(block, from, 0);
    parts.cache.forget(Key {
        ino: inode.number,
        version: inode.version,
        lbn: BlockCode(block.code()),
    });
}

/// Gives back a block of a file in use whose record waits.
fn clear_block(parts: &mut Parts, ino: u32, block: FileBlock)
    requires { MayClear parts.old ino block }
    ensures { ClearsBlock ino block parts.old parts.new }
{
    let inode = parts.record_in_use(ino);
    clear(parts, &inode, block);
}

/// Gives back the data blocks of a file from `first` to before `end`.
fn clear_blocks(parts: &mut Parts, ino: u32, first: u32, end: u32)
    requires may { MayClearBetween parts.old ino first end }
    requires ordered { first ≤ end }
    ensures { ClearsBlocks ino first end parts.old parts.new }
{
    for index in first..end {
        clear_block(parts, ino, FileBlock::Data(index));
    }
}

/// Gives back an indirect block of a file that waits, whose record waits too, and the data blocks to
/// before `end` whose addresses stand in it. It is read once, and stays as it is until it goes.
fn clear_whole(parts: &mut Parts, inode: &Inode, table: FileBlock, end: u32)
    requires is { IsWaiting parts.old inode.now }
    requires may { MayClearTable parts.old inode.now.number table end }
    requires ordered { first_under table ≤ end }
    ensures { ClearsTable inode.now.number table end parts.old parts.new }
{
    let place = parts.address_of(inode, table);
    let held = *parts.block_of(inode, table);
    let start = table.data_run().start;
    for index in start..end {
        let block = FileBlock::Data(index);
        let from = entry(&held, (index - start) as usize);
        parts.log.move_live(block, from, 0);
        parts.cache.forget(key_of(inode, block));
    }
    set_address(parts, inode, table, 0);
    parts.log.move_live(table, place, 0);
    parts.cache.forget(key_of(inode, table));
}

/// Gives back an indirect block that waits of a file in use, and the data blocks to before `end`
/// whose addresses stand in it.
fn clear_table(parts: &mut Parts, ino: u32, table: FileBlock, end: u32)
    requires may { MayClearTable parts.old ino table end }
    requires ordered { first_under table ≤ end }
    ensures { ClearsTable ino table end parts.old parts.new }
{
    let inode = parts.record_in_use(ino);
    clear_whole(parts, &inode, table, end);
}

/// Whether a block of a file has no address and doesn't wait.
fn is_gone(parts: &Parts, inode: &Inode, block: FileBlock) -> bool
    requires may { MayStage parts.now inode.now }
    requires block { IsFileBlock block }
    ensures { IsTrue result ↔ IsGone parts.now inode.now.number (way_to block) }
{
    parts.address_of(inode, block) == 0 && !waits(parts, inode, block)
}

/// Gives back the data blocks of a file from `left` on whose addresses stand in an indirect block,
/// of as many as the file has, and the block where no block is left that it leads to. Where it has
/// no address and doesn't wait, there is nothing to give back.
fn drop_table(parts: &mut Parts, ino: u32, table: FileBlock, left: u32, blocks: u32)
    requires { MayDrop parts.old ino table left blocks }
    ensures { DropsTable ino table left parts.old parts.new }
{
    let inode = parts.record_in_use(ino);
    let run = table.data_run();
    if run.start < left && run.end <= left {
        return;
    }
    if is_gone(parts, &inode, table) {
        return;
    }
    stage_with_parents(parts, &inode, table);
    let end = blocks.min(run.end);
    if left <= run.start {
        clear_table(parts, ino, table, end);
    } else {
        clear_blocks(parts, ino, left, end);
    }
}

/// Gives back what indirect blocks of a file lead to from data block `left` on, of as many as the
/// file has: one block after another, the last first, as far as one may lead there.
fn drop_tables(parts: &mut Parts, ino: u32, left: u32, blocks: u32)
    requires { MayDropAll parts.old ino left blocks }
    ensures { DropsDown ino left 1 parts.old parts.new }
{
    let first = FileBlock::Data(left.saturating_sub(1)).table().code();
    let last = FileBlock::Data(blocks - 1).table().code();
    for code in (first.max(1)..last + 1).rev() {
        if let Some(table) = FileBlock::from_code(code) {
            drop_table(parts, ino, table, left, blocks);
        }
    }
}

/// Gives back the data blocks of a file from `left` on, of as many as it has, and the indirect
/// blocks that lead to no other ones.
fn drop_blocks(parts: &mut Parts, ino: u32, left: u32, blocks: u32)
    requires { MayDropAll parts.old ino left blocks }
    ensures { DropsBlocks ino left parts.old parts.new }
{
    drop_tables(parts, ino, left, blocks);
    let direct = FileBlock::Record.data_run().end;
    clear_blocks(parts, ino, left.min(direct), blocks.min(direct));
}

/// Zeroes what a data block of a file has past a length, which isn't more than the size.
fn cut_block(parts: &mut Parts, inode: &Inode, index: u32, len: u64)
    requires may { MayStage parts.old inode.now }
    requires staged { IsStaged parts.old 0 }
    requires room { HasFrames parts.old inode.now.number (codes_on (data_way index)) }
    requires within { index < block_count inode.now.size }
    requires less { len ≤ inode.now.size }
    ensures { CutsBlock inode.now.number index len parts.old parts.new }
{
    let mut block = *parts.block_of(inode, FileBlock::Data(index));
    cut_piece(&mut block, index, len);
    stage_data(parts, inode, index, &block);
}

/// Zeroes what the last block of a length has past it, where the length ends within a block.
fn cut_last(parts: &mut Parts, inode: &Inode, len: u64)
    requires may { MayStage parts.old inode.now }
    requires staged { IsStaged parts.old 0 }
    requires less { len < inode.now.size }
    requires room { HasFrames parts.old inode.now.number (codes_on (data_way (len / BLOCK_SIZE))) }
    ensures { CutsLast inode.now.number len parts.old parts.new }
{
    if !len.is_multiple_of(BLOCK_SIZE as u64) {
        cut_block(parts, inode, (len / BLOCK_SIZE as u64) as u32, len);
    }
}

/// Has the record of a file wait with a size that isn't more than it has.
fn shorten(parts: &mut Parts, ino: u32, len: u64)
    requires { MayShorten parts.old ino len }
    ensures { Shortens ino len parts.old parts.new }
{
    let inode = parts.record_in_use(ino);
    stage_record(parts, inode.cut(len));
}

/// Cuts a file with this record to fewer bytes than it has.
fn cut(parts: &mut Parts, inode: &Inode, len: u64)
    requires may { MayStage parts.old inode.now }
    requires staged { IsStaged parts.old 0 }
    requires less { len < inode.now.size }
    requires sized { IsSizeOf inode.now.kind len }
    requires frames { length parts.old.cache.locked + CUT_FRAMES ≤ LOCKED_LIMIT }
    ensures { CutsFile inode.now.number len parts.old parts.new }
{
    let blocks = inode.blocks();
    stage_own_record(parts, inode);
    cut_last(parts, inode, len);
    drop_blocks(parts, inode.number, inode.cut(len).blocks(), blocks);
    shorten(parts, inode.number, len);
}
