//! Blocks that are written to a disk, those of a log so that the first lands behind all others.

ghost use Rattle.std.specs.Prelude.{◌≡◌, ◌⊎◌, ◌+◌, ◌*◌, ◌<◌, ◌≤◌, [], OnErr, OnOk, length, slice_index_or, slice_set, true};
ghost use Rattle.lfs_types.specs.declared.limits.TheConstants.{SEGMENT_BLOCKS};
ghost use Rattle.lfs_types.specs.Blocks.{zero_block};
ghost use Rattle.lfs_segments.specs.Log.{first_of};
ghost use Rattle.lfs_segments.specs.Memory.{next_address};
ghost use Rattle.lfs_disk.specs.Disk.{LeavesOnly, Only};
ghost use Rattle.lfs_disk.specs.Writing.{HasOthers, IsLeftBut, IsOnTheWay, IsSameBut};

use crate::disk::BlockDisk;
use crate::fault::DiskFault;
use lfs_segments::segments::{Segments, log_start};
use lfs_types::block::{Block, ZERO_BLOCK};
use lfs_types::limits::SEGMENT_BLOCKS;

/// Writes the blocks of a memory at addresses from one up to another.
fn write_blocks<D: BlockDisk>(
    disk: &mut D,
    memory: &Segments,
    start: u32,
    end: u32,
) -> Result<(), DiskFault>
    requires ordered { start ≤ end }
    requires inside { end ≤ memory.now.segments * SEGMENT_BLOCKS }
    requires long { length (D.seen disk.old) ≡ memory.now.segments * SEGMENT_BLOCKS }
    ensures written { OnOk result (HasOthers memory.now.blocks start end (D.seen disk.old)
        (D.seen disk.new)) }
    ensures crash { LeavesOnly D.time D.left_since disk.old disk.new
        (IsLeftBut start end (D.may_leave disk.old)) }
    ensures cause { OnErr result (D.has_failed disk.new ≡ true) }
    ensures failed { D.has_failed disk.old ≡ true → D.has_failed disk.new ≡ true }
{
    for address in start..end {
        disk.write(address, memory.block(address))?;
    }
    Ok(())
}

/// Writes all blocks of a memory to a disk that has as many, and waits until they have landed. A crash in the call
/// leaves any of them.
///
/// # Errors
///
/// The disk's, where it fails.
pub fn lay_out<D: BlockDisk>(disk: &mut D, memory: &Segments) -> Result<(), DiskFault>
    requires long { length (D.seen disk.old) ≡ memory.now.segments * SEGMENT_BLOCKS }
    ensures written { OnOk result (D.seen disk.new ≡ memory.now.blocks) }
    ensures synced { OnOk result (Only (D.seen disk.new) (D.may_leave disk.new)) }
    ensures cause { OnErr result (D.has_failed disk.new ≡ true) }
    ensures failed { D.has_failed disk.old ≡ true → D.has_failed disk.new ≡ true }
{
    write_blocks(disk, memory, 0, memory.segments() * SEGMENT_BLOCKS)?;
    disk.sync()?;
    Ok(())
}

/// Writes some blocks of a memory, and waits until they have landed.
fn put_blocks<D: BlockDisk>(
    disk: &mut D,
    memory: &Segments,
    start: u32,
    end: u32,
) -> Result<(), DiskFault>
    requires synced { Only (D.seen disk.old) (D.may_leave disk.old) }
    requires ordered { start ≤ end }
    requires inside { end ≤ memory.now.segments * SEGMENT_BLOCKS }
    requires long { length (D.seen disk.old) ≡ memory.now.segments * SEGMENT_BLOCKS }
    ensures written { OnOk result (HasOthers memory.now.blocks start end (D.seen disk.old)
        (D.seen disk.new)) }
    ensures synced { OnOk result (Only (D.seen disk.new) (D.may_leave disk.new)) }
    ensures crash { LeavesOnly D.time D.left_since disk.old disk.new
        (IsSameBut start end (D.seen disk.old)) }
    ensures cause { OnErr result (D.has_failed disk.new ≡ true) }
    ensures failed { D.has_failed disk.old ≡ true → D.has_failed disk.new ≡ true }
{
    write_blocks(disk, memory, start, end)?;
    disk.sync()?;
    Ok(())
}

/// Writes one block, and waits until it has landed.
fn put_block<D: BlockDisk>(disk: &mut D, address: u32, block: &Block) -> Result<(), DiskFault>
    requires synced { Only (D.seen disk.old) (D.may_leave disk.old) }
    requires inside { address < length (D.seen disk.old) }
    ensures written { OnOk result (D.seen disk.new
        ≡ slice_set (D.seen disk.old) address block.now) }
    ensures synced { OnOk result (Only (D.seen disk.new) (D.may_leave disk.new)) }
    ensures crash { LeavesOnly D.time D.left_since disk.old disk.new
        (λ c. (c ≡ D.seen disk.old) ⊎ (c ≡ slice_set (D.seen disk.old) address block.now)) }
    ensures cause { OnErr result (D.has_failed disk.new ≡ true) }
    ensures failed { D.has_failed disk.old ≡ true → D.has_failed disk.new ≡ true }
{
    disk.write(address, block)?;
    disk.sync()?;
    Ok(())
}

/// Writes the blocks of a memory from the first up to an end, where zeros stand in the first one's place: all others,
/// and when they have landed the first.
fn put_log<D: BlockDisk>(
    disk: &mut D,
    memory: &Segments,
    first: u32,
    end: u32,
) -> Result<(), DiskFault>
    requires synced { Only (D.seen disk.old) (D.may_leave disk.old) }
    requires some { first < end }
    requires inside { end ≤ memory.now.segments * SEGMENT_BLOCKS }
    requires long { length (D.seen disk.old) ≡ memory.now.segments * SEGMENT_BLOCKS }
    requires zeros { slice_index_or (D.seen disk.old) first [] ≡ zero_block }
    requires same { IsSameBut first end (D.seen disk.old) memory.now.blocks }
    ensures written { OnOk result (D.seen disk.new ≡ memory.now.blocks) }
    ensures synced { OnOk result (Only (D.seen disk.new) (D.may_leave disk.new)) }
    ensures crash { LeavesOnly D.time D.left_since disk.old disk.new
        (IsOnTheWay first end (D.seen disk.old) memory.now.blocks) }
    ensures cause { OnErr result (D.has_failed disk.new ≡ true) }
    ensures failed { D.has_failed disk.old ≡ true → D.has_failed disk.new ≡ true }
{
    put_blocks(disk, memory, first + 1, end)?;
    put_block(disk, first, memory.block(first))?;
    Ok(())
}

/// Writes the blocks of a memory from an address up to its log's end, where zeros stand if it isn't the end.
pub(crate) fn write_behind<D: BlockDisk>(
    disk: &mut D,
    memory: &Segments,
    first: u32,
) -> Result<(), DiskFault>
    requires synced { Only (D.seen disk.old) (D.may_leave disk.old) }
    requires ordered { first ≤ next_address memory.now }
    requires zeros { first < next_address memory.now
        → slice_index_or (D.seen disk.old) first [] ≡ zero_block }
    requires same { IsSameBut first (next_address memory.now) (D.seen disk.old) memory.now.blocks }
    ensures written { OnOk result (D.seen disk.new ≡ memory.now.blocks) }
    ensures synced { OnOk result (Only (D.seen disk.new) (D.may_leave disk.new)) }
    ensures crash { LeavesOnly D.time D.left_since disk.old disk.new
        (IsOnTheWay first (next_address memory.now) (D.seen disk.old) memory.now.blocks) }
    ensures cause { OnErr result (D.has_failed disk.new ≡ true) }
    ensures failed { D.has_failed disk.old ≡ true → D.has_failed disk.new ≡ true }
{
    let end = memory.next_address();
    if first == end {
        return Ok(());
    }
    put_log(disk, memory, first, end)
}

/// Writes the log of the active segment of a memory, up to the segment's end. First zeros land where it begins, so that
/// nothing that stood there counts.
pub(crate) fn write_opened<D: BlockDisk>(disk: &mut D, memory: &Segments) -> Result<(), DiskFault>
    requires synced { Only (D.seen disk.old) (D.may_leave disk.old) }
    requires same { let active = memory.now.active in IsSameBut (first_of active)
        (active * SEGMENT_BLOCKS + SEGMENT_BLOCKS) (D.seen disk.old) memory.now.blocks }
    ensures written { OnOk result (D.seen disk.new ≡ memory.now.blocks) }
    ensures synced { OnOk result (Only (D.seen disk.new) (D.may_leave disk.new)) }
    ensures crash { let active = memory.now.active in LeavesOnly D.time D.left_since disk.old disk.new
        (IsOnTheWay (first_of active) (active * SEGMENT_BLOCKS + SEGMENT_BLOCKS) (D.seen disk.old)
        memory.now.blocks) }
    ensures cause { OnErr result (D.has_failed disk.new ≡ true) }
    ensures failed { D.has_failed disk.old ≡ true → D.has_failed disk.new ≡ true }
{
    let active = memory.active();
    let segment = active * SEGMENT_BLOCKS;
    let first = segment + log_start(active);
    put_block(disk, first, &ZERO_BLOCK)?;
    put_log(disk, memory, first, segment + SEGMENT_BLOCKS)?;
    Ok(())
}
