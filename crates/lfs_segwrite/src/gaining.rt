//! What it takes to clean a segment, counted exactly, and how a segment is emptied where that gains room.

ghost use Rattle.std.specs.Prelude.{◌≡◌, ◌⊎◌, ◌+◌, ◌*◌, ◌/◌, ◌<◌, ◌≤◌, ◌↔◌, ℕ, All, IsTrue, MatchOption, length};
ghost use Rattle.lfs_types.specs.declared.cleaner.BlockInfo.{BlockInfo};
ghost use Rattle.lfs_types.specs.declared.cleaner.TheConstants.{INFO_LIMIT, MARK_LIMIT};
ghost use Rattle.lfs_types.specs.declared.limits.TheConstants.{SEGMENT_BLOCKS};
ghost use Rattle.lfs_segments.specs.Memory.{room_of};
ghost use Rattle.lfs_bmap.specs.Moves.{DirtyIn};
ghost use Rattle.lfs_segwrite.specs.Gaining.{Empties, IsGainful, IsWorth, MovesEights, NoneIsGainful, blocks_by_eights, eight, eights, live_infos, pass_blocks, widest, widest_eight};
ghost use Rattle.lfs_segwrite.specs.Marking.{MarksFlushed, blocks_to_mark};
ghost use Rattle.lfs_parts.specs.Files.{content_of};
ghost use Rattle.lfs_parts.specs.Keys.{log_state};
ghost use Rattle.lfs_parts.specs.Store.{IsFlushed, IsStore};

use crate::counting::blocks_to_mark;
use crate::marking::{is_named, mark_flushed};
use crate::room::WHOLE;
use lfs_ifile::SegState;
use lfs_parts::parts::Parts;
use lfs_types::cleaner::{BlockInfo, InfoList, MARK_LIMIT};

/// What it takes to clean a segment.
#[derive(Clone, Copy, PartialEq, Eq, Debug)]
pub struct PassCost {
    /// The blocks that are written, with each summary and each block of records.
    pub blocks: u32,
    /// The most of them that are written at once.
    pub widest: u32,
}

/// The infos of a segment that name a block with its present address, in the log's order.
pub(crate) fn live_infos(parts: &Parts, segment: u32) -> InfoList
    requires store { IsStore parts.now }
    requires inside { segment < parts.now.log.memory.segments }
    ensures { result ≡ live_infos parts.now segment }
{
    let infos = parts.log.infos(segment);
    let mut live = InfoList::empty();
    for info in infos.items() {
        if is_named(parts, info) {
            live.push(*info);
        }
    }
    live
}

/// How many eights some infos have.
fn eights(infos: &[BlockInfo]) -> usize
    requires { length infos.now ≤ INFO_LIMIT }
    ensures { result ≡ eights infos.now }
{
    infos.len().div_ceil(MARK_LIMIT)
}

/// Of some infos the eight with a number, counted from 0; the last may have fewer.
fn eight(infos: &[BlockInfo], k: usize) -> &[BlockInfo]
    requires { MARK_LIMIT * k ≤ length infos.now }
    ensures eight { result.now ≡ eight infos.now k }
    ensures few { length result.now ≤ MARK_LIMIT }
{
    let rest = &infos[MARK_LIMIT * k..];
    let count = rest.len().min(MARK_LIMIT);
    &rest[..count]
}

/// What it takes to write the blocks of some infos again, eight by eight.
pub(crate) fn cost_by_eights(infos: &[BlockInfo]) -> PassCost
    requires { length infos.now ≤ INFO_LIMIT }
    ensures blocks { result.blocks ≡ blocks_by_eights infos.now }
    ensures widest { result.widest ≡ widest_eight infos.now }
    ensures few { result.blocks ≤ 837 }
    ensures narrow { result.widest ≤ 27 }
{
    let mut cost = PassCost {
        blocks: 0,
        widest: 0,
    };
    for k in 0..eights(infos) {
        let blocks = blocks_to_mark(eight(infos, k));
        cost.blocks += blocks;
        cost.widest = cost.widest.max(blocks);
    }
    cost
}

/// What it takes to clean a segment of a store in which nothing waits: its live blocks are written again by eights, in the
/// log's order, each eight with its summary and records. What several blocks of an eight share counts once.
pub fn pass_cost(parts: &Parts, segment: u32) -> PassCost
    requires store { IsStore parts.now }
    requires inside { segment < parts.now.log.memory.segments }
    ensures blocks { result.blocks ≡ pass_blocks parts.now segment }
    ensures widest { result.widest ≡ widest parts.now segment }
    ensures few { result.blocks ≤ 837 }
    ensures narrow { result.widest ≤ 27 }
{
    let infos = live_infos(parts, segment);
    cost_by_eights(infos.items())
}

/// Whether what it takes can be written for less than a segment.
fn is_worth(parts: &Parts, cost: PassCost) -> bool
    requires store { IsStore parts.now }
    requires few { cost.blocks ≤ 837 }
    requires narrow { cost.widest ≤ 27 }
    ensures { IsTrue result ↔ IsWorth cost.blocks cost.widest parts.now }
{
    let opens = parts.log.clean() > 0 && cost.blocks + cost.widest <= WHOLE;
    cost.blocks < WHOLE && (cost.blocks <= parts.log.room() || opens)
}

/// Whether a segment is dirty.
pub(crate) fn is_dirty(parts: &Parts, segment: u32) -> bool
    requires store { IsStore parts.now }
    requires inside { segment < parts.now.log.memory.segments }
    ensures { IsTrue result ↔ DirtyIn (log_state parts.now) segment }
{
    match parts.log.usage(segment).state {
        SegState::Dirty => true,
        SegState::Active | SegState::Clean => false,
    }
}

/// Whether a segment is gainful.
fn is_gainful(parts: &Parts, segment: u32) -> bool
    requires store { IsStore parts.now }
    requires inside { segment < parts.now.log.memory.segments }
    ensures { IsTrue result ↔ IsGainful parts.now segment }
{
    is_dirty(parts, segment) && is_worth(parts, pass_cost(parts, segment))
}

/// A gainful segment, if there is one: cleaning it can be done, and gains room.
pub fn gainful(parts: &Parts) -> Option<u32>
    requires { IsStore parts.now }
    ensures { MatchOption result (NoneIsGainful parts.now) (IsGainful parts.now) }
{
    for segment in 0..parts.log.segments() {
        if is_gainful(parts, segment) {
            return Some(segment);
        }
    }
    None
}

/// Writes again the blocks that some infos name, for which there is room.
fn mark_eight(parts: &mut Parts, marks: &[BlockInfo])
    requires store { IsStore parts.old }
    requires flushed { IsFlushed parts.old }
    requires few { length marks.now ≤ MARK_LIMIT }
    requires room { (0 < parts.old.log.clean)
        ⊎ (blocks_to_mark marks.now ≤ room_of parts.old.log.memory) }
    ensures store { IsStore parts.new }
    ensures flushed { IsFlushed parts.new }
    ensures content { content_of parts.new ≡ content_of parts.old }
    ensures marked { (count : ℕ) × MarksFlushed marks.now count parts.old parts.new }
{
    match mark_flushed(parts, marks, false) {
        Ok(_) => {}
        // Never: there is room, as is required.
        Err(_) => unreachable!(),
    }
}

/// Writes again, eight by eight, the blocks that some infos of dirty segments name, which is worth it.
fn mark_by_eights(parts: &mut Parts, infos: &[BlockInfo])
    requires store { IsStore parts.old }
    requires flushed { IsFlushed parts.old }
    requires few { length infos.now ≤ INFO_LIMIT }
    requires dirty { All (λ (info : BlockInfo). DirtyIn (log_state parts.old)
        (info.addr / SEGMENT_BLOCKS)
        × (info.addr / SEGMENT_BLOCKS < parts.old.log.memory.segments)) infos.now }
    requires worth { IsWorth (blocks_by_eights infos.now) (widest_eight infos.now) parts.old }
    ensures { MovesEights infos.now (eights infos.now) parts.old parts.new }
{
    let count = eights(infos);
    for k in 0..count {
        mark_eight(parts, eight(infos, k));
    }
}

/// Empties a gainful segment: writes its live blocks again, eight by eight, elsewhere.
pub fn empty_segment(parts: &mut Parts, segment: u32)
    requires store { IsStore parts.old }
    requires flushed { IsFlushed parts.old }
    requires gainful { IsGainful parts.old segment }
    ensures { Empties segment parts.old parts.new }
{
    let infos = live_infos(parts, segment);
    mark_by_eights(parts, infos.items());
}
