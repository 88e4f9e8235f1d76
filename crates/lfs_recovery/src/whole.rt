//! Whether a partial segment is whole.

ghost use Rattle.std.specs.Prelude.{◌≡◌, ◌*◌, ◌<◌, ◌+◌, option_map};
ghost use Rattle.lfs_types.specs.declared.limits.TheConstants.{SEGMENT_BLOCKS};
ghost use Rattle.lfs_segments.specs.Reading.{named_by};
ghost use Rattle.lfs_segments.specs.Serial.{told_by};
ghost use Rattle.lfs_recovery.specs.Whole.{ends_in_inodes, has_record, is_inodes, is_next, whole_at};

use lfs_inodes::inode::Inode;
use lfs_inodes::slots::slot;
use lfs_segments::entry::LogicalBlock;
use lfs_segments::segments::Segments;
use lfs_segments::serial::SerialSummary;
use lfs_segments::summary::Summary;
use lfs_types::limits::SEGMENT_BLOCKS;

/// The summary at an address, where it begins a whole partial segment with a serial above another.
pub(crate) fn whole_at(memory: &Segments, address: u32, above: u32) -> Option<SerialSummary>
    requires { address < memory.now.segments * SEGMENT_BLOCKS }
    ensures { option_map told_by result ≡ whole_at memory.now address above }
{
    match SerialSummary::decode(memory.block(address)) {
        Some(told) => {
            if is_next(memory, address, above, &told) {
                Some(told)
            } else {
                None
            }
        }
        None => None,
    }
}

/// Whether a summary says that it stands here, has a serial above another, and all its blocks are there.
fn is_next(memory: &Segments, address: u32, above: u32, told: &SerialSummary) -> bool
    requires { address < memory.now.segments * SEGMENT_BLOCKS }
    ensures { result ≡ is_next memory.now address above (told_by told.now) }
{
    if told.summary.segment != address / SEGMENT_BLOCKS {
        return false;
    }
    if told.summary.offset != address % SEGMENT_BLOCKS {
        return false;
    }
    if told.serial <= above {
        return false;
    }
    if !ends_in_inodes(&told.summary) {
        return false;
    }
    has_record(memory, address + told.summary.count)
}

/// Whether the last block of a partial segment is to be an inode block.
fn ends_in_inodes(summary: &Summary) -> bool
    ensures { result ≡ ends_in_inodes (named_by summary.now) }
{
    is_inodes(summary.entries[summary.count as usize - 1].block)
}

/// Whether a block is an inode block, as an entry says.
pub(crate) fn is_inodes(block: LogicalBlock) -> bool
    ensures { result ≡ is_inodes block }
{
    match block {
        LogicalBlock::Inodes => true,
        LogicalBlock::Data(_)
        | LogicalBlock::Single
        | LogicalBlock::Double
        | LogicalBlock::Child(_) => false,
    }
}

/// Whether a record stands in slot 0 of the block at an address.
fn has_record(memory: &Segments, address: u32) -> bool
    requires { address < memory.now.segments * SEGMENT_BLOCKS }
    ensures { result ≡ has_record memory.now address }
{
    match Inode::decode(&slot(memory.block(address), 0)) {
        Some(_) => true,
        None => false,
    }
}
