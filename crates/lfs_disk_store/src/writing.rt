//! What a store has and its disk has not goes out.

ghost use Rattle.std.specs.Prelude.{◌≡◌, None, true, IsSome};
ghost use Rattle.lfs_parts.specs.Store.{IsStore};
ghost use Rattle.lfs_disk.specs.Disk.{LeavesOnly};
ghost use Rattle.lfs_disk.specs.Mirroring.{IsOldOrNew, disk_of, memory_of};
ghost use Rattle.lfs_durable_store.specs.Keeping.{IsKept};
ghost use Rattle.lfs_disk_store.specs.Keeping.{IsAhead, IsFollowed};

use lfs_disk::{BlockDisk, DiskFault, Mirror};
use lfs_durable_store::DurableStore;

/// What holds of a durable store, and of its log store. It does nothing: only proofs look at it.
pub(crate) fn look(store: &DurableStore)
    ensures kept { IsKept store.now }
    ensures store { IsStore store.now.store }
{
    store.log().parts();
}

/// Writes out what a store has and its disk has not, unless the disk has failed.
pub(crate) fn write_out<D: BlockDisk>(
    store: &DurableStore,
    mirror: &mut Mirror<D>,
    fault: &mut Option<DiskFault>,
)
    requires ahead { fault.old ≡ None → IsAhead D.seen D.may_leave store.now mirror.old }
    requires failed { IsSome fault.old → D.has_failed (disk_of mirror.old) ≡ true }
    ensures followed { IsFollowed D.seen D.may_leave D.has_failed store.now mirror.new fault.new }
    ensures crash { fault.old ≡ None → LeavesOnly D.time D.left_since (disk_of mirror.old)
        (disk_of mirror.new) (IsOldOrNew (memory_of mirror.old) store.now.store.log.memory) }
    ensures stays { IsSome fault.old → mirror.new ≡ mirror.old }
    ensures first { IsSome fault.old → fault.new ≡ fault.old }
    ensures kept { IsKept store.now }
    ensures store { IsStore store.now.store }
{
    let memory = store.log().parts().log.memory();
    if fault.is_some() {
        return;
    }
    if let Err(cause) = mirror.write_out(memory) {
        *fault = Some(cause);
    }
}
