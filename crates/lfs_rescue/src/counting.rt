//! The live bytes of segments, counted over the log that is built.

ghost use Rattle.std.specs.Prelude.{◌≡◌, ◌<◌, ◌≤◌, ℕ, [], IfErr, IfOk, OnOk, length, slice_index};
ghost use Rattle.lfs_segments.specs.Log.{Expects};
ghost use Rattle.lfs_log.specs.Parts.{LogParts};
ghost use Rattle.lfs_fsck.specs.Checks.{AreChecked, IsCounted};
ghost use Rattle.lfs_fsck.specs.Stored.{IsStored, flushed};
ghost use Rattle.lfs_rescue.specs.Building.{IsBuildFault, IsBuilt, IsFilesFault, IsFoundOf};
ghost use Rattle.lfs_rescue.specs.Contents.{FindsAllOf};

use crate::building::{Found, log_of};
use crate::fault::RecoverFault;
use lfs_checking::fault::VolumeFault;
use lfs_fsck::{LogFault, count_live};
use lfs_image::ImageFault;
use lfs_log::Log;
use std::alloc::{AllocError, Global};

/// The bytes of a segment.
const SEGMENT_BYTES: u32 = 32_768;

/// The live bytes of each segment, with which a store may stand on the log. They are counted over a draft of it, in which
/// all segments count as full, so that none is clean.
///
/// # Errors
///
/// What is wrong with the files or the end of the log; or there is no memory.
pub(crate) fn live_of(alloc: Global, found: Found<'_>) -> Result<Vec<u32>, RecoverFault>
    requires found { IsFoundOf found.memory.now found.last found.places.now found.marks.now
        found.inodes }
    ensures many { IfOk result (λ live. length live.items ≡ found.entry.memory.now.segments) }
    ensures few { IfOk result (λ live. (s : ℕ) → slice_index live.items s ≤ 32768) }
    ensures stored { IfOk result (λ live. (l : LogParts)
        → IsBuilt found.entry.memory.now found.entry.last
        found.entry.places.now found.entry.marks.now found.entry.inodes live.items l
        → IsStored l) }
    ensures content { IfOk result (λ live. (l : LogParts)
        → IsBuilt found.entry.memory.now found.entry.last
        found.entry.places.now found.entry.marks.now found.entry.inodes live.items l
        → FindsAllOf found.entry.memory.now (flushed l)) }
    ensures fault { IfErr result (IsBuildFault found.entry.memory.now) }
{
    let full = vec![in alloc; SEGMENT_BYTES; found.memory.segments() as usize]?;
    let draft = log_of(alloc, found, &full)?;
    let counts = counts_of(alloc, &draft)?;
    let live = narrowed(alloc, &counts)?;
    Ok(live)
}

/// The bytes of each segment that the files of a log have there.
fn counts_of(alloc: Global, draft: &Log) -> Result<Vec<u64>, RecoverFault>
    ensures end { OnOk result (Expects draft.now.memory []) }
    ensures counted { IfOk result (λ counts.
        IsCounted draft.now (length draft.now.tables.rows) 0 counts.items) }
    ensures files { OnOk result (AreChecked draft.now (length draft.now.tables.rows)) }
    ensures fault { IfErr result (IsFilesFault draft.now) }
{
    match count_live(alloc, draft) {
        Ok(counts) => Ok(counts),
        Err(LogFault::Memory) => Err(RecoverFault::Memory),
        Err(fault) => {
            let fault = ImageFault::Log { fault };
            Err(RecoverFault::Volume {
                fault: VolumeFault::Image { fault },
            })
        }
    }
}

/// Counts of no more bytes than a segment has, in four bytes each.
fn narrowed(alloc: Global, counts: &[u64]) -> Result<Vec<u32>, AllocError>
    requires { (s : ℕ) → slice_index counts.now s ≤ 32768 }
    ensures { IfOk result (λ live. live.items ≡ counts.now) }
{
    let mut live = vec![in alloc; 0; counts.len()]?;
    for segment in 0..counts.len() {
        live[segment] = counts[segment] as u32;
    }
    Ok(live)
}
