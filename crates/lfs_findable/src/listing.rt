//! Whether each summary of a log begins a partial segment that recovery finds.

ghost use Rattle.std.specs.Prelude.{◌≡◌, ◌*◌, ◌<◌, ◌↔◌, All, IfOk, IsTrue, length};
ghost use Rattle.lfs_types.specs.declared.limits.TheConstants.{SEGMENT_BLOCKS};
ghost use Rattle.lfs_segments.specs.Memory.{IsLaidOut};
ghost use Rattle.lfs_findable.specs.Judging.{AreFirstMarked, AreListed, IsMarkedOrNone, IsNextMarked, IsProper, MarksOf};

use lfs_recovery::PartialSegment;
use lfs_segments::segments::{Segments, log_start};
use lfs_segments::serial::SerialSummary;
use lfs_types::limits::SEGMENT_BLOCKS;
use std::alloc::{AllocError, Global};

/// Whether each summary that the log of a segment expects begins one of the partial segments that recovery finds.
pub(crate) fn are_listed(
    alloc: Global,
    memory: &Segments,
    partials: &[PartialSegment],
) -> Result<bool, AllocError>
    requires { All (IsProper memory.now) partials.now }
    ensures { IfOk result (λ are. IsTrue are ↔ AreListed memory.now partials.now) }
{
    let marks = marks_of(alloc, memory, partials)?;
    if !are_first_marked(memory, &marks) {
        return Ok(false);
    }
    Ok(are_next_marked(memory, &marks, partials))
}

/// A mark at each address at which one of some partial segments begins.
fn marks_of(
    alloc: Global,
    memory: &Segments,
    partials: &[PartialSegment],
) -> Result<Vec<bool>, AllocError>
    requires { All (IsProper memory.now) partials.now }
    ensures long { IfOk result
        (λ marks. length marks.items ≡ memory.now.segments * SEGMENT_BLOCKS) }
    ensures marks { IfOk result (λ marks. MarksOf partials.now marks.items) }
    ensures laid_out { IsLaidOut memory.now }
{
    let mut marks = vec![in alloc; false; (memory.segments() * SEGMENT_BLOCKS) as usize]?;
    for index in 0..partials.len() {
        marks[partials[index].address as usize] = true;
    }
    Ok(marks)
}

/// Whether no summary stands where the log of a segment begins, or a mark is there.
fn are_first_marked(memory: &Segments, marks: &[bool]) -> bool
    requires { length marks.now ≡ memory.now.segments * SEGMENT_BLOCKS }
    ensures { IsTrue result ↔ AreFirstMarked memory.now marks.now }
{
    for segment in 0..memory.segments() {
        if !is_marked_or_none(memory, marks, segment * SEGMENT_BLOCKS + log_start(segment)) {
            return false;
        }
    }
    true
}

/// Whether no summary stands behind a partial segment, or a mark is there.
fn are_next_marked(memory: &Segments, marks: &[bool], partials: &[PartialSegment]) -> bool
    requires long { length marks.now ≡ memory.now.segments * SEGMENT_BLOCKS }
    requires proper { All (IsProper memory.now) partials.now }
    requires laid_out { IsLaidOut memory.now }
    ensures { IsTrue result ↔ All (IsNextMarked memory.now marks.now) partials.now }
{
    for index in 0..partials.len() {
        if !is_next_marked(memory, marks, &partials[index]) {
            return false;
        }
    }
    true
}

/// Whether no summary stands behind a partial segment in its segment, or a mark is there.
fn is_next_marked(memory: &Segments, marks: &[bool], partial: &PartialSegment) -> bool
    requires long { length marks.now ≡ memory.now.segments * SEGMENT_BLOCKS }
    requires proper { IsProper memory.now partial.now }
    requires laid_out { IsLaidOut memory.now }
    ensures { IsTrue result ↔ IsNextMarked memory.now marks.now partial.now }
{
    let end = partial.address + partial.count + 1;
    if end / SEGMENT_BLOCKS != partial.address / SEGMENT_BLOCKS {
        return true;
    }
    is_marked_or_none(memory, marks, end)
}

/// Whether no summary stands at an address, or a mark is there.
fn is_marked_or_none(memory: &Segments, marks: &[bool], address: u32) -> bool
    requires long { length marks.now ≡ memory.now.segments * SEGMENT_BLOCKS }
    requires inside { address < memory.now.segments * SEGMENT_BLOCKS }
    ensures { IsTrue result ↔ IsMarkedOrNone memory.now marks.now address }
{
    if marks[address as usize] {
        return true;
    }
    match SerialSummary::decode(memory.block(address)) {
        Some(_) => false,
        None => true,
    }
}
