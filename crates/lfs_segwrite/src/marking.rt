//! Blocks that are written again at the log's end, as a cleaner asks.

ghost use Rattle.std.specs.Prelude.{◌≡◌, ◌≢◌, ◌⊎◌, ◌+◌, ◌<◌, ◌≤◌, ◌↔◌, All, Contains, IfOk, IsTrue, OnErr, OnOk, Some, false, length, true};
ghost use Rattle.lfs_ifile.specs.declared.segment.SegState.TheVariants.{Clean};
ghost use Rattle.lfs_log.specs.Parts.{state_of};
ghost use Rattle.lfs_segments.specs.Memory.{room_of};
ghost use Rattle.lfs_found.specs.Written.{IsRecoverable};
ghost use Rattle.lfs_segwrite.specs.Gaining.{ExceedsRoom};
ghost use Rattle.lfs_segwrite.specs.Ordered.{IsOrdered};
ghost use Rattle.lfs_segwrite.specs.Room.{KeepsFiles};
ghost use Rattle.lfs_types.specs.declared.cleaner.TheConstants.{MARK_LIMIT};
ghost use Rattle.lfs_types.specs.declared.limits.TheConstants.{SEGMENT_BLOCKS};
ghost use Rattle.lfs_cache.specs.declared.cache.TheConstants.{LOCKED_LIMIT};
ghost use Rattle.lfs_bmap.specs.Blocks.{IsFileBlock, code_of, way_to};
ghost use Rattle.lfs_bmap.specs.declared.tables.TheConstants.{MOST_DEPTH};
ghost use Rattle.lfs_bmap.specs.Reading.{address, read};
ghost use Rattle.lfs_bmap.specs.Ways.{codes_on};
ghost use Rattle.lfs_segwrite.specs.Applying.{HasRoom, WritesWaiting};
ghost use Rattle.lfs_parts.specs.Files.{content_of};
ghost use Rattle.lfs_parts.specs.Keys.{log_state};
ghost use Rattle.lfs_segwrite.specs.Finishing.{HasRoomToMark, LacksRoomFor, LacksRoomToMark, MarksAgain, SomeIsFinishable};
ghost use Rattle.lfs_segwrite.specs.Marking.{AddsNamed, AreNamed, IsNamed, MarksFlushed, StagesAgain, StagesNamed, code_named};
ghost use Rattle.lfs_staging.specs.Staging.{HasFrames, IsStaged, MayStage, StagesTable};
ghost use Rattle.lfs_parts.specs.Store.{IsFlushed, IsStore, IsWithin};
ghost use Rattle.lfs_parts.specs.View.{blocks_of, tree_from, tree_of};
ghost use Rattle.lfs_parts.specs.declared.records.TheConstants.{WAITING_LIMIT};

use crate::counting::{blocks_to_mark, code_named};
use crate::finishing::has_finishable;
use crate::flushing::flush;
use crate::room::{RoomFault, make_room};
use crate::writing::write_waiting;
use lfs_bmap::blocks::FileBlock;
use lfs_bmap::tables::MOST_DEPTH;
use lfs_inodes::inode::Inode;
use lfs_parts::parts::Parts;
use lfs_staging::staging::{stage_block, stage_parents};
use lfs_types::block::Block;
use lfs_types::cleaner::{BlockInfo, MarkList};

/// Whether an info stands in a list.
fn has(infos: &[BlockInfo], info: &BlockInfo) -> bool
    ensures { IsTrue result ↔ Contains infos.now info.now }
{
    infos.contains(info)
}

/// Whether so few segments are clean that the cleaner may be refused.
fn has_few_clean(parts: &Parts) -> bool
    requires { IsStore parts.now }
    ensures { IsTrue result ↔ (parts.now.log.clean ≤ 1) }
{
    parts.log.clean() <= 1
}

/// Writes what waits, and then writes again, at the log's end, each block that an info of a list of at
/// most 8 names. Says how many these are. Where at most one segment was clean, this is refused unless a
/// dirty segment can be finished behind these blocks: what each takes is counted then, until one can. With
/// more clean segments nothing is counted.
pub fn mark(parts: &mut Parts, marks: &[BlockInfo]) -> Result<u32, RoomFault>
    requires store { IsStore parts.old }
    requires room { HasRoom parts.old }
    requires few { length marks.now ≤ MARK_LIMIT }
    ensures store { IsStore parts.new }
    ensures flushed { IsFlushed parts.new }
    ensures content { content_of parts.new ≡ content_of parts.old }
    ensures marked { IfOk result (λ count. MarksAgain marks.now count parts.old parts.new) }
    ensures few { IfOk result (λ count. count ≤ length marks.now) }
    ensures refused { OnErr result (WritesWaiting parts.old parts.new) }
    ensures lacking { OnErr result (LacksRoomFor marks.now parts.new) }
    ensures reserved { OnErr result (parts.old.log.clean ≤ 1) }
    // What recovery found it finds, and what was written too.
    ensures whole { IsRecoverable parts.old.log.memory → IsRecoverable parts.new.log.memory }
    ensures ordered { IsRecoverable parts.old.log.memory → IsOrdered parts.old.log
        → IsOrdered parts.new.log }
{
    let careful = has_few_clean(parts);
    write_waiting(parts);
    mark_flushed(parts, marks, careful)
}

/// Writes again, at the log's end, each block that an info of a list of at most 8 names: its
/// address is not 0, and is the block's present one. Says how many these are; an info that stands
/// twice counts once. With care nothing is written where no dirty segment could be finished behind it.
pub(crate) fn mark_flushed(
    parts: &mut Parts,
    marks: &[BlockInfo],
    careful: bool,
) -> Result<u32, RoomFault>
    requires store { IsStore parts.old }
    requires flushed { IsFlushed parts.old }
    requires few { length marks.now ≤ MARK_LIMIT }
    ensures store { IsStore parts.new }
    ensures flushed { IsFlushed parts.new }
    ensures content { content_of parts.new ≡ content_of parts.old }
    ensures marked { IfOk result (λ count. MarksFlushed marks.now count parts.old parts.new) }
    ensures last { IfOk result (λ count. careful ≡ true → 0 < count
        → HasRoomToMark marks.now parts.old) }
    ensures few { IfOk result (λ count. count ≤ length marks.now) }
    ensures refused { OnErr result (parts.new ≡ parts.old) }
    ensures lacking { OnErr result (LacksRoomFor marks.now parts.old) }
    ensures reserved { OnErr result ((careful ≡ true) ⊎ (parts.old.log.clean ≡ 0)) }
    ensures exceeds { OnErr result (careful ≡ false → ExceedsRoom marks.now parts.old) }
{
    let named = named(parts, marks);
    let infos = named.items();
    if infos.is_empty() {
        return Ok(0);
    }
    make_room_to_mark(parts, infos, blocks_to_mark(infos), careful)?;
    stage_named(parts, infos);
    flush(parts);
    Ok(infos.len() as u32)
}

/// Makes room for the blocks of some infos, so many, that are written for the cleaner, in a segment that is opened where
/// the active one has too little left. With care there is none where no dirty segment could be finished behind them.
fn make_room_to_mark(
    parts: &mut Parts,
    infos: &[BlockInfo],
    blocks: u32,
    careful: bool,
) -> Result<(), RoomFault>
    requires store { IsStore parts.old }
    requires few { blocks ≤ 27 }
    ensures store { IsStore parts.new }
    ensures files { KeepsFiles parts.old parts.new }
    ensures room { OnOk result (blocks ≤ room_of parts.new.log.memory) }
    ensures enough { blocks ≤ room_of parts.old.log.memory → parts.new ≡ parts.old }
    ensures opened { OnOk result (room_of parts.old.log.memory < blocks
        → (parts.new.log.clean + 1 ≡ parts.old.log.clean)
        × (state_of parts.old.log.tables parts.new.log.memory.active ≡ Clean)) }
    ensures fresh { OnOk result (room_of parts.old.log.memory < blocks
        → SEGMENT_BLOCKS ≤ room_of parts.new.log.memory + 1) }
    ensures last { OnOk result (careful ≡ true → SomeIsFinishable infos.now blocks parts.old) }
    ensures refused { OnErr result (parts.new ≡ parts.old) }
    ensures lacking { OnErr result (LacksRoomToMark infos.now blocks parts.old) }
    ensures reserved { OnErr result ((careful ≡ true) ⊎ (parts.old.log.clean ≡ 0)) }
    ensures short { OnErr result (careful ≡ false → room_of parts.old.log.memory < blocks) }
{
    if careful && !has_finishable(parts, infos, blocks) {
        return Err(RoomFault);
    }
    make_room(parts, blocks)
}

/// The infos of a list that name a block, each once.
fn named(parts: &Parts, marks: &[BlockInfo]) -> MarkList
    requires store { IsStore parts.now }
    requires few { length marks.now ≤ MARK_LIMIT }
    ensures named { AreNamed (log_state parts.now) marks.now result }
    ensures few { length result ≤ length marks.now }
{
    let mut named = MarkList::empty();
    for info in marks {
        add_named(parts, &mut named, info);
    }
    named
}

/// Adds an info to a list where it names a block and is not there.
fn add_named(parts: &Parts, named: &mut MarkList, info: &BlockInfo)
    requires store { IsStore parts.now }
    requires room { length named.old < MARK_LIMIT }
    ensures { AddsNamed (log_state parts.now) info.now named.old named.new }
{
    if is_named(parts, info) && !has(named.items(), info) {
        named.push(*info);
    }
}

/// Whether an info names a block.
pub(crate) fn is_named(parts: &Parts, info: &BlockInfo) -> bool
    requires { IsStore parts.now }
    ensures { IsTrue result ↔ IsNamed (log_state parts.now) info.now }
{
    info.addr != 0 && parts.present_address(info) == info.addr
}

/// Has the blocks that some infos name wait with what they have.
fn stage_named(parts: &mut Parts, named: &[BlockInfo])
    requires staged { IsStaged parts.old 0 }
    requires flushed { IsFlushed parts.old }
    requires named { All (IsNamed (log_state parts.old)) named.now }
    requires few { length named.now ≤ MARK_LIMIT }
    ensures { StagesNamed named.now parts.old parts.new }
{
    for info in named {
        stage_info(parts, info);
    }
}

/// Has the block that an info names wait with what it has.
fn stage_info(parts: &mut Parts, info: &BlockInfo)
    requires staged { IsStaged parts.old 0 }
    requires named { IsNamed (log_state parts.old) info.now }
    requires frames { length parts.old.cache.locked + MOST_DEPTH ≤ LOCKED_LIMIT }
    requires records { length parts.old.waiting < WAITING_LIMIT }
    ensures staged { IsStaged parts.new 0 }
    ensures again { StagesAgain info.now.ino (code_named info.now.lbn) parts.old parts.new }
{
    let inode = parts.record_in_use(info.ino);
    match FileBlock::from_code(code_named(info.lbn)) {
        Some(block) => stage_again(parts, &inode, block, info.addr),
        // Never: by `named`.
        None => unreachable!(),
    }
}

/// Has a block of a file, which the log has at this address, wait with what it has, and its parents too.
fn stage_again(parts: &mut Parts, inode: &Inode, block: FileBlock, addr: u32)
    requires staged { IsStaged parts.old 0 }
    requires may { MayStage parts.old inode.now }
    requires block { IsFileBlock block }
    requires within { code_of block ≢ 0 → IsWithin block inode.now.size }
    requires here { code_of block ≢ 0
        → address (tree_of parts.old inode.now.number) (way_to block) ≡ addr }
    requires frames { length parts.old.cache.locked + MOST_DEPTH ≤ LOCKED_LIMIT }
    ensures staged { IsStaged parts.new 0 }
    ensures again { StagesAgain inode.now.number (code_of block) parts.old parts.new }
{
    match block {
        FileBlock::Record => stage_parents(parts, inode, block),
        _ => stage_moved(parts, inode, block, addr),
    }
}

/// Has a block of a file that isn't its record wait with what it has, and its parents too. The log has
/// it at this address.
fn stage_moved(parts: &mut Parts, inode: &Inode, block: FileBlock, addr: u32)
    requires may { MayStage parts.old inode.now }
    requires block { IsFileBlock block }
    requires other { code_of block ≢ 0 }
    requires here { address (tree_of parts.old inode.now.number) (way_to block) ≡ addr }
    requires room { HasFrames parts.old inode.now.number (codes_on (way_to block)) }
    ensures { StagesTable inode.now.number block parts.old parts.new }
{
    let bytes = bytes_to_move(parts, inode, block, addr);
    stage_parents(parts, inode, block);
    stage_block(parts, inode, block, &bytes);
}

/// The present bytes of a block of a file: those that wait, else those at its address in the log.
fn bytes_to_move(parts: &Parts, inode: &Inode, block: FileBlock, addr: u32) -> Block
    requires block { IsFileBlock block }
    requires inside { addr < blocks_of parts.now }
    requires here { address (tree_from parts.now inode.now) (way_to block) ≡ addr }
    ensures { result ≡ read (tree_from parts.now inode.now) (way_to block) }
{
    *parts.bytes_via(inode, block, addr)
}
