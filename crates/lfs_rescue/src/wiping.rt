//! From where on a segment has zeros in the log that is built.

ghost use Rattle.std.specs.Prelude.{◌≡◌, ◌≢◌, ◌+◌, ◌*◌, ◌/◌, ◌<◌, ◌≤◌, ◌⊎◌, ℕ, List, IfOk, OnOk, length};
ghost use Rattle.std.specs.Prelude.{slice_index};
ghost use Rattle.lfs_segments.specs.Memory.{IsLaidOut, SegmentMemory};
ghost use Rattle.lfs_recovery.specs.Logs.{AreLogs, IsLogged, log_place};
ghost use Rattle.lfs_rescue.specs.Building.{IsLogEnd, IsZerosFrom};

use lfs_recovery::{PartialSegment, partial_segments};
use lfs_segments::segments::{Segments, log_start};
use lfs_types::limits::SEGMENT_BLOCKS;
use std::alloc::{AllocError, Global};

/// For each segment, with these live bytes, the address from which on it has zeros: behind a partial segment in that
/// one's, which is active; behind its log in another one without live bytes, where a crash may have torn something; and
/// nowhere in one that has some.
pub(crate) fn zeros_from(
    alloc: Global,
    memory: &Segments,
    last: &PartialSegment,
    live: &[u32],
) -> Result<Vec<u32>, AllocError>
    requires logged { IsLogged memory.now last.now }
    requires many { length live.now ≡ memory.now.segments }
    ensures long { IfOk result (λ from. length from.items ≡ memory.now.segments) }
    ensures zeros { IfOk result (λ from. (s : ℕ) → s < memory.now.segments
        → IsZerosFrom memory.now last.now live.now s (slice_index from.items s)) }
{
    let ends = log_ends(alloc, memory)?;
    let mut from = Vec::new(alloc);
    for segment in 0..memory.segments() {
        let place = segment as usize;
        from.push(zeros_in(segment, last, live[place], ends[place]))?;
    }
    Ok(from)
}

/// The same of one segment, whose log ends there.
fn zeros_in(segment: u32, last: &PartialSegment, live: u32, log_end: u32) -> u32
    requires end { last.now.address + last.now.count < 65536 }
    requires segment { segment < 1024 }
    ensures { (m : SegmentMemory) (lives : List ℕ) → slice_index lives segment ≡ live
        → IsLogEnd m segment log_end → IsZerosFrom m last.now lives segment result }
{
    if segment == last.address / SEGMENT_BLOCKS {
        last.address + last.count + 1
    } else if live == 0 {
        log_end
    } else {
        (segment + 1) * SEGMENT_BLOCKS
    }
}

/// Where the log of each segment ends.
fn log_ends(alloc: Global, memory: &Segments) -> Result<Vec<u32>, AllocError>
    ensures long { IfOk result (λ ends. length ends.items ≡ memory.now.segments) }
    ensures ends { IfOk result (λ ends. (s : ℕ) → s < memory.now.segments
        → IsLogEnd memory.now s (slice_index ends.items s)) }
{
    let partials = partial_segments(alloc, memory)?;
    let mut ends = starts(alloc, memory)?;
    raise_all(memory, &mut ends, &partials);
    Ok(ends)
}

/// Moves the ends of logs from where they begin to behind these partial segments.
fn raise_all(memory: &Segments, ends: &mut [u32], partials: &[PartialSegment])
    requires logs { AreLogs memory.now partials.now }
    requires laid_out { IsLaidOut memory.now }
    requires long { length ends.old ≡ memory.now.segments }
    requires starts { (s : ℕ) → s < memory.now.segments → slice_index ends.old s ≡ log_place s }
    ensures long { length ends.new ≡ memory.now.segments }
    ensures ends { (s : ℕ) → s < memory.now.segments
        → IsLogEnd memory.now s (slice_index ends.new s) }
{
    for index in 0..partials.len() {
        raise(ends, &partials[index]);
    }
}

/// Moves the end of a log behind a partial segment, unless it is there or behind.
fn raise(ends: &mut [u32], partial: &PartialSegment)
    requires inside { partial.now.address / 64 < length ends.old }
    requires end { partial.now.address + partial.now.count < 65536 }
    ensures long { length ends.new ≡ length ends.old }
    ensures above { slice_index ends.old (partial.now.address / 64)
        ≤ slice_index ends.new (partial.now.address / 64) }
    ensures behind { partial.now.address + partial.now.count + 1
        ≤ slice_index ends.new (partial.now.address / 64) }
    ensures one { (slice_index ends.new (partial.now.address / 64)
        ≡ slice_index ends.old (partial.now.address / 64))
        ⊎ (slice_index ends.new (partial.now.address / 64)
        ≡ partial.now.address + partial.now.count + 1) }
    ensures others { (s : ℕ) → s ≢ partial.now.address / 64
        → slice_index ends.new s ≡ slice_index ends.old s }
{
    let segment = (partial.address / SEGMENT_BLOCKS) as usize;
    let end = partial.address + partial.count + 1;
    if ends[segment] < end {
        ends[segment] = end;
    }
}

/// Where the log of each segment begins.
fn starts(alloc: Global, memory: &Segments) -> Result<Vec<u32>, AllocError>
    ensures long { IfOk result (λ starts. length starts.items ≡ memory.now.segments) }
    ensures starts { IfOk result (λ starts. (s : ℕ) → s < memory.now.segments
        → slice_index starts.items s ≡ log_place s) }
    ensures laid_out { OnOk result (IsLaidOut memory.now) }
{
    let mut starts = Vec::new(alloc);
    for segment in 0..memory.segments() {
        starts.push(segment * SEGMENT_BLOCKS + log_start(segment))?;
    }
    Ok(starts)
}
