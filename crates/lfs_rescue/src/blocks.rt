//! A volume found again from the bytes of its blocks.

ghost use Rattle.std.specs.Prelude.{◌≡◌, ◌*◌, ◌≤◌, IfErr, IfOk, length};
ghost use Rattle.lfs_types.specs.Ranges.{least_frames, least_segments, most_frames, most_segments};
ghost use Rattle.lfs_calls.specs.Volumes.{HasWorld};
ghost use Rattle.lfs_logstore.specs.States.{state_of};
ghost use Rattle.lfs_fsck.specs.Stored.{IsStored, stored};
ghost use Rattle.lfs_image.specs.Image.{IsLabelled};
ghost use Rattle.lfs_rescue.specs.declared.fault.RecoverFault.TheVariants.{Length, Memory};
ghost use Rattle.lfs_rescue.specs.Blocks.{FindsAllIn, IsBlocksFaultOf, IsFindableIn, IsFoundIn, IsLeftOfNoneIn};
ghost use Rattle.lfs_rescue.specs.Blocks.{IsMemoryOf};

use crate::fault::RecoverFault;
use crate::recovering::recover;
use lfs_image::read_blocks;
use lfs_logstore::LogStore;
use lfs_segments::segments::Segments;
use lfs_types::limits::{LEAST_SEGMENTS, MOST_SEGMENTS, SEGMENT_BLOCKS};
use std::alloc::Global;

/// The bytes of a segment.
const SEGMENT_BYTES: usize = 32_768;

/// The store of the volume whose blocks some bytes are, from address 0 on, whoever made them: as `recover` gives it.
///
/// # Errors
///
/// `Length` where they are no 6 to 1,024 whole segments; else those of `recover`.
pub fn recover_blocks(alloc: Global, bytes: &[u8], frames: u32) -> Result<LogStore, RecoverFault>
    requires at_least { least_frames ≤ frames }
    requires at_most { frames ≤ most_frames }
    ensures found { IfOk result (λ store. IsFoundIn bytes.now store.log) }
    ensures labelled { IfOk result (λ store. IsLabelled store.log) }
    ensures stored { IfOk result (λ store. IsStored store.log) }
    ensures flushed { IfOk result (λ store. store ≡ stored frames store.log) }
    ensures world { IfOk result (λ store. HasWorld (state_of store)) }
    ensures content { IfOk result (FindsAllIn bytes.now) }
    ensures findable { IfOk result (IsFindableIn bytes.now) }
    ensures fault { IfErr result (IsBlocksFaultOf bytes.now) }
    // Of what a crash left of a store that lay in its log, and showed a tree, a volume is found, but for want of memory.
    ensures none { IfErr result (λ fault. (fault ≡ Memory → ⊥) → IsLeftOfNoneIn bytes.now) }
{
    let memory = memory_of(alloc, bytes)?;
    match recover(alloc, &memory, frames) {
        Ok(store) => Ok(store),
        Err(fault) => Err(fault),
    }
}

/// The memory of these blocks.
fn memory_of(alloc: Global, bytes: &[u8]) -> Result<Segments, RecoverFault>
    ensures memory { IfOk result (IsMemoryOf bytes.now) }
    ensures fault { IfErr result (IsBlocksFaultOf bytes.now) }
    ensures none { IfErr result (λ fault. (fault ≡ Memory → ⊥) → IsLeftOfNoneIn bytes.now) }
{
    let segments = segments_in(bytes)?;
    let blocks = read_blocks(alloc, bytes, segments * SEGMENT_BLOCKS)?;
    let Some(memory) = Segments::over(blocks, 0, 1) else {
        // Never: by `segments_in`.
        unreachable!()
    };
    Ok(memory)
}

/// How many segments some bytes are.
fn segments_in(bytes: &[u8]) -> Result<u32, RecoverFault>
    ensures whole { IfOk result (λ segments. length bytes.now ≡ 32768 * segments) }
    ensures at_least { IfOk result (λ segments. least_segments ≤ segments) }
    ensures at_most { IfOk result (λ segments. segments ≤ most_segments) }
    ensures long { IfErr result (λ fault. fault ≡ Length) }
    ensures fault { IfErr result (IsBlocksFaultOf bytes.now) }
{
    let segments = bytes.len() / SEGMENT_BYTES;
    if segments < LEAST_SEGMENTS as usize {
        return Err(RecoverFault::Length);
    }
    if segments > MOST_SEGMENTS as usize {
        return Err(RecoverFault::Length);
    }
    if segments * SEGMENT_BYTES != bytes.len() {
        return Err(RecoverFault::Length);
    }
    Ok(segments as u32)
}
