//! Which entry the log has for each address.

ghost use Rattle.std.specs.Prelude.{◌≡◌, ◌+◌, ◌*◌, ◌-◌, ◌<◌, ◌≤◌, OnOk, IfOk};
ghost use Rattle.lfs_segments.specs.Log.{entry_at, expected, first_of, log_block};
ghost use Rattle.lfs_segments.specs.Memory.{IsLaidOut, has_serials};
ghost use Rattle.lfs_fsck.specs.Names.{AreNames};

use crate::reader::Reader;
use lfs_log::Log;
use lfs_segments::entry::SummaryEntry;
use lfs_types::limits::SEGMENT_BLOCKS;
use std::alloc::{AllocError, Global};

/// For each address of the volume the entry that the log of its segment has for it.
pub(crate) fn names(alloc: Global, log: &Log) -> Result<Vec<Option<SummaryEntry>>, AllocError>
    ensures { IfOk result
        (λ names. AreNames log.now.memory (log.now.memory.segments * 64) names.items) }
{
    let mut names = Vec::with_capacity(alloc, (log.segments() * SEGMENT_BLOCKS) as usize)?;
    for segment in 0..log.segments() {
        name_segment(log, segment, &mut names)?;
    }
    Ok(names)
}

/// Adds the entries of a segment's addresses.
fn name_segment(
    log: &Log,
    segment: u32,
    names: &mut Vec<Option<SummaryEntry>>,
) -> Result<(), AllocError>
    requires laid_out { IsLaidOut log.now.memory }
    requires inside { segment < log.now.memory.segments }
    requires before { AreNames log.now.memory (segment * 64) names.old.items }
    ensures { OnOk result (AreNames log.now.memory (segment * 64 + 64) names.new.items) }
{
    let mut reader = Reader::start();
    let first = segment * SEGMENT_BLOCKS;
    for address in first..first + SEGMENT_BLOCKS {
        names.push(name_at(log, &mut reader, segment, address))?;
    }
    Ok(())
}

/// The entry of the next address of a segment.
fn name_at(log: &Log, reader: &mut Reader, segment: u32, address: u32) -> Option<SummaryEntry>
    requires from { segment * 64 ≤ address }
    requires below { address < segment * 64 + 64 }
    requires inside { segment < log.now.memory.segments }
    requires read { reader.old ≡ expected (has_serials log.now.memory)
        (log_block log.now.memory segment) (address - first_of segment) }
    ensures named { result ≡ entry_at log.now.memory address }
    ensures read { reader.new ≡ expected (has_serials log.now.memory)
        (log_block log.now.memory segment) (address + 1 - first_of segment) }
{
    if address == 0 {
        return None;
    }
    reader.pass(log.block(address), log.has_serials())
}
