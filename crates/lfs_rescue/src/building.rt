//! The log that is built of what is found.

ghost use Rattle.std.specs.Prelude.{◌≡◌, ◌+◌, ◌*◌, ◌/◌, ◌<◌, ◌≤◌, ℕ, All, IfOk, [], length};
ghost use Rattle.std.specs.Prelude.{slice_index, slice_index_or};
ghost use Rattle.lfs_types.specs.declared.block.TheConstants.{BLOCK_SIZE};
ghost use Rattle.lfs_types.specs.Ranges.{least_frames, most_frames};
ghost use Rattle.lfs_segments.specs.Memory.{IsLaidOut};
ghost use Rattle.lfs_ifile.specs.declared.segment.SegState.TheVariants.{Clean};
ghost use Rattle.lfs_recovery.specs.Logs.{IsLogged};
ghost use Rattle.lfs_fsck.specs.Stored.{IsStored, stored};
ghost use Rattle.lfs_rescue.specs.Building.{AreTold, IsBlockFrom, IsBuilt, IsFoundOf, state_told};
ghost use Rattle.lfs_rescue.specs.Recovering.{EndsBehind, last_serial};

use crate::ifile::ifile_of;
use crate::rows::rows_of;
use crate::wiping::zeros_from;
use lfs_ifile::SegState;
use lfs_log::Log;
use lfs_logstore::LogStore;
use lfs_parts::parts::Parts;
use lfs_recovery::{PartialSegment, RecordPlace};
use lfs_segments::segments::Segments;
use lfs_types::block::{Block, ZERO_BLOCK};
use lfs_types::limits::SEGMENT_BLOCKS;
use std::alloc::{AllocError, Global};

/// What was found of a volume.
#[derive(Clone, Copy)]
pub(crate) struct Found<'a> {
    /// Its blocks.
    pub(crate) memory: &'a Segments,
    /// The partial segment of the highest serial.
    pub(crate) last: PartialSegment,
    /// Where the newest record of each number stands.
    pub(crate) places: &'a [Option<RecordPlace>],
    /// For each number whether names lead to it.
    pub(crate) marks: &'a [bool],
    /// How many inode numbers the label tells.
    pub(crate) inodes: u32,
}

/// The log of what was found, with these live bytes of its segments: one is clean where it has none, but for the active
/// one.
pub(crate) fn log_of(alloc: Global, found: Found<'_>, live: &[u32]) -> Result<Log, AllocError>
    requires found { IsFoundOf found.memory.now found.last found.places.now found.marks.now
        found.inodes }
    requires many { length live.now ≡ found.memory.now.segments }
    requires few { (s : ℕ) → slice_index live.now s ≤ 32768 }
    ensures { IfOk result (IsBuilt found.entry.memory.now found.entry.last
        found.entry.places.now found.entry.marks.now found.entry.inodes live.now) }
{
    let active = found.last.address / SEGMENT_BLOCKS;
    let segments = segments_of(alloc, found.memory, &found.last, live)?;
    let states = states_of(alloc, live, active)?;
    let rows = rows_of(alloc, found)?;
    let ifile = ifile_of(alloc, live, &states, &rows)?;
    let Some(log) = Log::over(segments, ifile) else {
        // Never: by `states_of`.
        unreachable!()
    };
    Ok(log)
}

/// The memory that ends behind a partial segment, and goes on with the serial behind its. Zeros stand behind the logs of
/// segments without live bytes.
fn segments_of(
    alloc: Global,
    memory: &Segments,
    last: &PartialSegment,
    live: &[u32],
) -> Result<Segments, AllocError>
    requires laid_out { IsLaidOut memory.now }
    requires logged { IsLogged memory.now last.now }
    requires inside { last.now.address / 64 < memory.now.segments }
    requires end { last.now.address + last.now.count < (last.now.address / 64 + 1) * 64 }
    requires counted { last.now.serial < last_serial }
    requires many { length live.now ≡ memory.now.segments }
    ensures laid_out { IfOk result IsLaidOut }
    ensures segments { IfOk result (λ segments. segments.segments ≡ memory.now.segments) }
    ensures ends { IfOk result (EndsBehind last.now) }
    ensures told { IfOk result (AreTold memory.now last.now live.now) }
{
    let from = zeros_from(alloc, memory, last, live)?;
    let blocks = blocks_of(alloc, memory, &from)?;
    let active = last.address / SEGMENT_BLOCKS;
    let fill = last.address + last.count + 1 - active * SEGMENT_BLOCKS;
    let Some(segments) = Segments::over_as(blocks, active, fill, Some(last.serial + 1)) else {
        // Never: by `inside` and `end`.
        unreachable!()
    };
    Ok(segments)
}

/// The blocks, with zeros in each segment from an address on.
fn blocks_of(alloc: Global, memory: &Segments, from: &[u32]) -> Result<Vec<Block>, AllocError>
    requires { length from.now ≡ memory.now.segments }
    ensures many { IfOk result (λ blocks. length blocks.items ≡ memory.now.segments * 64) }
    ensures each { IfOk result (λ blocks.
        All (λ block. length block ≡ BLOCK_SIZE) blocks.items) }
    ensures told { IfOk result (λ blocks. (a : ℕ) → a < memory.now.segments * 64
        → IsBlockFrom memory.now (slice_index from.now (a / 64)) a
        (slice_index_or blocks.items a [])) }
{
    let mut blocks = Vec::new(alloc);
    for address in 0..memory.segments() * SEGMENT_BLOCKS {
        let zeros = from[(address / SEGMENT_BLOCKS) as usize];
        blocks.push(block_from(memory, zeros, address))?;
    }
    Ok(blocks)
}

/// The block at an address, of zeros from another one on.
fn block_from(memory: &Segments, from: u32, address: u32) -> Block
    requires { address < memory.now.segments * 64 }
    ensures told { IsBlockFrom memory.now from address result }
    ensures long { length result ≡ BLOCK_SIZE }
{
    if from <= address {
        return ZERO_BLOCK;
    }
    *memory.block(address)
}

/// The states of segments with these live bytes, where one is active.
fn states_of(alloc: Global, live: &[u32], active: u32) -> Result<Vec<SegState>, AllocError>
    ensures many { IfOk result (λ states. length states.items ≡ length live.now) }
    ensures told { IfOk result (λ states. (s : ℕ) → s < length live.now
        → slice_index_or states.items s Clean ≡ state_told active s (slice_index live.now s)) }
{
    let mut states = vec![in alloc; SegState::Clean; live.len()]?;
    for segment in 0..live.len() {
        states[segment] = state_told(active as usize, segment, live[segment]);
    }
    Ok(states)
}

/// The state of a segment with so many live bytes, where one is active.
fn state_told(active: usize, segment: usize, live: u32) -> SegState
    ensures { result ≡ state_told active segment live }
{
    if segment == active {
        SegState::Active
    } else if live == 0 {
        SegState::Clean
    } else {
        SegState::Dirty
    }
}

/// The store over a log on which one may stand, with so many frames, all empty.
pub(crate) fn store_over(alloc: Global, log: Log, frames: u32) -> Result<LogStore, AllocError>
    requires stored { IsStored log }
    requires at_least { least_frames ≤ frames }
    requires at_most { frames ≤ most_frames }
    ensures { IfOk result (λ store. store ≡ stored frames log) }
{
    let parts = Parts::over(alloc, log, frames)?;
    Ok(LogStore::over(parts))
}
