//! The store.

ghost use Rattle.std.specs.Prelude.{◌≡◌, ℕ, List, None, true, IsSome};
ghost use Rattle.lfs_disk.specs.Disk.{Only};
ghost use Rattle.lfs_durable.specs.Runs.{IsCounted, ShowsTree};
ghost use Rattle.lfs_durable_store.specs.Keeping.{IsKept};
ghost use Rattle.lfs_durable_store.specs.Surviving.{Survives};
ghost use Rattle.lfs_disk_store.specs.Finding.{FindsBase};

use lfs_disk::{BlockDisk, DiskFault, Mirror};
use lfs_durable_store::DurableStore;
use lfs_logstore::LogStore;
use std::marker::Model;

/// A durable store whose blocks go out to a disk behind each flush. Once the disk has failed nothing is written to it any
/// more, and changes and Syncs are refused with `NoSpace`. The changes of the call in which it fails are made, in memory: a
/// Sync behind them says whether they are on the disk. Contracts see the store, the disk, and its first fault.
#[derive(Drop)]
pub struct DiskStore<D: BlockDisk> {
    pub(crate) store: DurableStore,
    pub(crate) mirror: Mirror<D>,
    pub(crate) fault: Option<DiskFault>,
}

impl<D: BlockDisk> Model for DiskStore<D> {
    ghost use Rattle.lfs_disk_store.specs.Keeping.{IsFollowed, OnDisk, on_disk};

    ghost Value = { OnDisk D };

    ghost view = { λ s. on_disk s.store s.mirror s.fault };

    ghost invariant = { λ s. IsFollowed D.seen D.may_leave D.has_failed s.store s.mirror s.fault };
}

impl<D: BlockDisk> DiskStore<D> {
    /// The store over a disk that has its blocks, all of which have landed.
    pub fn over(store: DurableStore, disk: D) -> DiskStore<D>
        requires blocks { D.seen disk ≡ store.store.log.memory.blocks }
        requires synced { Only (D.seen disk) (D.may_leave disk) }
        ensures over { result ≡ record { store = store; disk = disk; fault = None } }
    {
        let mirror = Mirror::over(disk, store.log().parts().log.memory());
        DiskStore {
            store,
            mirror,
            fault: None,
        }
    }

    /// The log store, to be looked at.
    pub fn log(&self) -> &LogStore
        ensures log { result.now ≡ self.now.store.store }
        ensures kept { IsKept self.now.store }
        ensures survives { Survives self.now.store }
    {
        self.store.log()
    }

    /// The disk. Without a fault it has the blocks of the store's memory, and a crash leaves nothing else: blocks in which
    /// what is found contains what the base contains, behind a Sync all that the store contains.
    pub fn disk(&self) -> &D
        ensures disk { result.now ≡ self.now.disk }
        ensures seen { self.now.fault ≡ None
            → D.seen self.now.disk ≡ self.now.store.store.log.memory.blocks }
        ensures synced { self.now.fault ≡ None
            → Only (D.seen self.now.disk) (D.may_leave self.now.disk) }
        ensures found { self.now.fault ≡ None → IsCounted self.now.store.store
            → ShowsTree self.now.store.base
            → (c : List (List ℕ)) → D.may_leave self.now.disk c → FindsBase self.now.store c }
    {
        self.store.log();
        self.mirror.disk()
    }

    /// The first fault of the disk, if any. Then the disk lacks what was written since, and is to be read anew.
    pub fn fault(&self) -> Option<DiskFault>
        ensures fault { result ≡ self.now.fault }
        // It comes only where the disk failed.
        ensures cause { IsSome result → D.has_failed self.now.disk ≡ true }
    {
        self.fault
    }
}
