//! A store found again on the disk that has its blocks.

ghost use Rattle.std.specs.Prelude.{◌≡◌, ◌<◌, ◌≤◌, ℕ, All, IfErr, IfOk, List, None, OnOk};
ghost use Rattle.std.specs.Prelude.{false, length, slice_index_or, true};
ghost use Rattle.lfs_types.specs.declared.block.TheConstants.{BLOCK_SIZE};
ghost use Rattle.lfs_types.specs.Ranges.{least_frames, most_frames};
ghost use Rattle.lfs_disk.specs.Disk.{LeavesOnly, Only};
ghost use Rattle.lfs_durable_store.specs.Keeping.{settled};
ghost use Rattle.lfs_disk_start.specs.Finding.{IsFindFaultOf, IsFoundOf, IsOnTheWayBack, IsReadFaultOf};
ghost use Rattle.lfs_disk_start.specs.Finding.{LeavesDisk, memory_of};
ghost use Rattle.lfs_disk_start.specs.Starting.{IsFoundOn};

use crate::fault::StartFault;
use crate::writing::write_back;
use lfs_disk::BlockDisk;
use lfs_disk_store::DiskStore;
use lfs_durable_store::DurableStore;
use lfs_findable::can_be_found;
use lfs_logstore::LogStore;
use lfs_rescue::{RecoverFault, recover};
use lfs_segments::segments::Segments;
use lfs_types::block::Block;
use std::alloc::Global;

/// The store of the volume that is found in the blocks of a disk, which were read from it, with a cache of so many
/// frames, 32 to 1,024. Where the store has other blocks, zeros in place of what a crash tore, they are written to
/// the disk, and have landed.
///
/// # Errors
///
/// `Length` where they are no 6 to 1,024 whole segments; `Recovery` as `recover` of `lfs_rescue` refuses them; `Lost`
/// where what is found could not be found again: then the disk is as it was. `Disk` where it fails.
#[tactic(auto, using(crate::proofs::FoundLemmas::way_still, crate::proofs::FoundLemmas::way_mixed, crate::proofs::FoundLemmas::whichever, crate::proofs::FoundLemmas::untouched, crate::proofs::FoundLemmas::found_at))]
pub fn find<D: BlockDisk>(
    alloc: Global,
    blocks: Vec<Block>,
    disk: &mut D,
    frames: u32,
) -> Result<DurableStore, StartFault>
    requires at_least { least_frames ≤ frames }
    requires at_most { frames ≤ most_frames }
    requires seen { D.seen disk.old ≡ blocks.items }
    requires synced { Only (D.seen disk.old) (D.may_leave disk.old) }
    ensures found { IfOk result (λ s. IsFoundOf (memory_of blocks.items) frames s.store) }
    ensures own { IfOk result (λ s. s ≡ settled false s.store) }
    ensures written { IfOk result (λ s. D.seen disk.new ≡ s.store.log.memory.blocks) }
    ensures synced { OnOk result (Only (D.seen disk.new) (D.may_leave disk.new)) }
    // A crash at any moment leaves the blocks as they were, or some of the store's in their place.
    ensures crash { LeavesOnly D.time D.left_since disk.old disk.new
        (IsOnTheWayBack blocks.items frames) }
    ensures fault { IfErr result (IsFindFaultOf (memory_of blocks.items)
        (D.has_failed disk.new)) }
    ensures still { IfErr result (LeavesDisk disk.old disk.new) }
    ensures failed { D.has_failed disk.old ≡ true → D.has_failed disk.new ≡ true }
{
    look(&blocks);
    let Some(memory) = Segments::over(blocks, 0, 1) else {
        return Err(StartFault::Length);
    };
    let store = match found_in(alloc, &memory, frames) {
        Ok(store) => store,
        Err(fault) => return Err(fault),
    };
    match write_back(disk, &memory, store.parts().log.memory()) {
        Ok(()) => Ok(DurableStore::over(store)),
        Err(fault) => Err(StartFault::Disk(fault)),
    }
}

/// That each block has its bytes, as its type says. Only proofs look at it.
fn look(blocks: &[Block])
    ensures { All (λ block. length block ≡ BLOCK_SIZE) blocks.now }
{
    for index in 0..blocks.len() {
        look_at(blocks, index);
    }
}

/// That one of them has.
fn look_at(blocks: &[Block], index: usize)
    requires { index < length blocks.now }
    ensures { (d : List ℕ) → length (slice_index_or blocks.now index d) ≡ BLOCK_SIZE }
{
    let _block = blocks[index];
}

/// The store of the volume that is found in the blocks of a disk, on that disk, as `find` has it.
pub(crate) fn stand<D: BlockDisk + Drop>(
    alloc: Global,
    blocks: Vec<Block>,
    disk: D,
    frames: u32,
) -> Result<DiskStore<D>, StartFault>
    requires at_least { least_frames ≤ frames }
    requires at_most { frames ≤ most_frames }
    requires seen { D.seen disk ≡ blocks.items }
    requires synced { Only (D.seen disk) (D.may_leave disk) }
    ensures sound { IfOk result (λ s. s.fault ≡ None) }
    ensures own { IfOk result (λ s. s.store ≡ settled false s.store.store) }
    ensures found { IfOk result (IsFoundOn D.seen D.may_leave D.time D.left_since frames) }
    ensures fault { IfErr result (IsReadFaultOf (memory_of blocks.items)) }
{
    let mut disk = disk;
    let store = find(alloc, blocks, &mut disk, frames)?;
    Ok(DiskStore::over(store, disk))
}

/// The log store of the volume that is found in a memory, if it could be found again.
#[tactic(auto, using(crate::proofs::FoundLemmas::found_of, crate::proofs::FoundLemmas::lost_of, crate::proofs::FoundLemmas::no_memory))]
fn found_in(alloc: Global, memory: &Segments, frames: u32) -> Result<LogStore, StartFault>
    requires at_least { least_frames ≤ frames }
    requires at_most { frames ≤ most_frames }
    ensures found { IfOk result (IsFoundOf memory.now frames) }
    ensures fault { IfErr result (IsFindFaultOf memory.now false) }
{
    let store = match recover(alloc, memory, frames) {
        Ok(store) => store,
        Err(fault) => return Err(StartFault::Recovery(fault)),
    };
    match can_be_found(alloc, &store) {
        Ok(true) => Ok(store),
        Ok(false) => Err(StartFault::Lost),
        Err(_) => Err(StartFault::Recovery(RecoverFault::Memory)),
    }
}
