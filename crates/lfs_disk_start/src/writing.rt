//! Blocks that a memory has and its disk has not.

ghost use Rattle.std.specs.Prelude.{◌≡◌, ◌↔◌, ◌<◌, IsTrue, OnErr, OnOk, [], length, slice_index_or, slice_set, true};
ghost use Rattle.lfs_disk.specs.Disk.{LeavesOnly, Only};
ghost use Rattle.lfs_disk_start.specs.Mixing.{IsMixtureOf, IsWithOrWithout};

use lfs_disk::{BlockDisk, DiskFault};
use lfs_segments::segments::Segments;
use lfs_types::block::Block;
use lfs_types::limits::SEGMENT_BLOCKS;

/// Writes the blocks of a memory to a disk that has those of another one, where the two differ, and waits until they
/// have landed.
///
/// # Errors
///
/// The disk's, where it fails.
pub(crate) fn write_back<D: BlockDisk>(
    disk: &mut D,
    old: &Segments,
    new: &Segments,
) -> Result<(), DiskFault>
    requires blocks { D.seen disk.old ≡ old.now.blocks }
    requires synced { Only (D.seen disk.old) (D.may_leave disk.old) }
    requires segments { new.now.segments ≡ old.now.segments }
    ensures written { OnOk result (D.seen disk.new ≡ new.now.blocks) }
    ensures synced { OnOk result (Only (D.seen disk.new) (D.may_leave disk.new)) }
    // A crash at any moment leaves each block as it was, or as it is written.
    ensures crash { LeavesOnly D.time D.left_since disk.old disk.new
        (IsMixtureOf old.now.blocks new.now.blocks) }
    ensures cause { OnErr result (D.has_failed disk.new ≡ true) }
    ensures failed { D.has_failed disk.old ≡ true → D.has_failed disk.new ≡ true }
{
    put_others(disk, old, new)?;
    disk.sync()?;
    Ok(())
}

/// Writes those blocks.
fn put_others<D: BlockDisk>(disk: &mut D, old: &Segments, new: &Segments) -> Result<(), DiskFault>
    requires blocks { D.seen disk.old ≡ old.now.blocks }
    requires synced { Only (D.seen disk.old) (D.may_leave disk.old) }
    requires segments { new.now.segments ≡ old.now.segments }
    ensures written { OnOk result (D.seen disk.new ≡ new.now.blocks) }
    ensures crash { LeavesOnly D.time D.left_since disk.old disk.new
        (IsMixtureOf old.now.blocks new.now.blocks) }
    ensures cause { OnErr result (D.has_failed disk.new ≡ true) }
    ensures failed { D.has_failed disk.old ≡ true → D.has_failed disk.new ≡ true }
{
    for address in 0..old.segments() * SEGMENT_BLOCKS {
        put_other(disk, address, old.block(address), new.block(address))?;
    }
    Ok(())
}

/// Writes a block at an address, if it isn't the one that stands there.
fn put_other<D: BlockDisk>(
    disk: &mut D,
    address: u32,
    old: &Block,
    new: &Block,
) -> Result<(), DiskFault>
    requires inside { address < length (D.seen disk.old) }
    requires there { slice_index_or (D.seen disk.old) address [] ≡ old.now }
    ensures written { OnOk result
        (D.seen disk.new ≡ slice_set (D.seen disk.old) address new.now) }
    ensures crash { LeavesOnly D.time D.left_since disk.old disk.new
        (IsWithOrWithout address new.now (D.may_leave disk.old)) }
    ensures cause { OnErr result (D.has_failed disk.new ≡ true) }
    ensures failed { D.has_failed disk.old ≡ true → D.has_failed disk.new ≡ true }
{
    if is_same(old, new) {
        return Ok(());
    }
    disk.write(address, new)
}

/// Whether two blocks are the same.
fn is_same(one: &Block, other: &Block) -> bool
    ensures { IsTrue result ↔ (one.now ≡ other.now) }
{
    one == other
}
