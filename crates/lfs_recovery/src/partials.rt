//! The whole partial segments.

ghost use Rattle.std.specs.Prelude.{◌≡◌, ◌++◌, All, IfOk, OnOk};
ghost use Rattle.lfs_recovery.specs.Course.{listed};
ghost use Rattle.lfs_recovery.specs.Logs.{AreLogs};
ghost use Rattle.lfs_recovery.specs.Whole.{IsWhole};

use crate::places::PartialSegment;
use crate::reader::Reader;
use lfs_segments::segments::Segments;
use lfs_types::limits::SEGMENT_BLOCKS;
use std::alloc::{AllocError, Global};

/// The partial segments of the logs of all segments, in the order of their addresses.
pub fn partial_segments(alloc: Global, memory: &Segments) -> Result<Vec<PartialSegment>, AllocError>
    ensures logs { IfOk result (λ list. AreLogs memory.now list.items) }
    ensures whole { IfOk result (λ list. All (IsWhole memory.now) list.items) }
{
    let mut list = Vec::new(alloc);
    let mut reader = Reader::idle();
    for address in 0..memory.segments() * SEGMENT_BLOCKS {
        reader.enter(address);
        keep(&mut list, reader.step(memory, address))?;
    }
    Ok(list)
}

/// Adds a partial segment, if there is one.
fn keep(list: &mut Vec<PartialSegment>, partial: Option<PartialSegment>) -> Result<(), AllocError>
    ensures { OnOk result (list.new.items ≡ list.old.items ++ listed partial) }
{
    if let Some(partial) = partial {
        list.push(partial)?;
    }
    Ok(())
}
