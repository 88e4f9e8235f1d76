//! The store's files.

ghost use Rattle.std.specs.Prelude.{◌≡◌, [], length, IfErr, IsSome, OnErr, OnOk};
ghost use Rattle.std.specs.FinMap.{get};
ghost use Rattle.lfs_types.specs.Changes.{CanApply};
ghost use Rattle.lfs_types.specs.StoreStates.{Applies};
ghost use Rattle.lfs_types.specs.Stored.{Reads, bytes_of, slice_of};
ghost use Rattle.lfs_disk_store.specs.Answering.{ComesTo, FillsFrames, Syncs};
ghost use Rattle.lfs_disk_store.specs.Keeping.{IsOnDisk, disk_state};

use crate::store::DiskStore;
use crate::writing::{look, write_out};
use lfs_disk::BlockDisk;
use lfs_types::attrs::Attrs;
use lfs_types::store::{Change, FileStore, Reserve, StoreRefusal};

impl<D: BlockDisk> FileStore for DiskStore<D> {
    ghost use Rattle.lfs_disk_store.specs.Answering.{ComesTo};
    ghost use Rattle.lfs_disk_store.specs.Keeping.{IsOnDisk, disk_state};

    ghost state = { disk_state };

    ghost is_flushed = { IsOnDisk };

    ghost made = { ComesTo D.time D.left_since };

    fn attrs(&self, ino: u32) -> Option<Attrs> {
        self.store.attrs(ino)
    }

    fn read(&mut self, ino: u32, off: u64, into: &mut [u8]) -> usize
        requires { IsSome (get (disk_state self.old).content ino) }
        ensures reads { Reads
            (slice_of (bytes_of (disk_state self.old).content ino) off (length into.old))
            result into.old into.new }
        ensures state { disk_state self.new ≡ disk_state self.old }
        ensures fills { FillsFrames self.old self.new }
    {
        self.store.read(ino, off, into)
    }

    fn least_free(&self) -> Option<u32> {
        self.store.least_free()
    }

    fn clean_segments(&self) -> u32 {
        self.store.clean_segments()
    }

    /// Makes all the changes, in order, or none, as a durable store does. What is written goes out to the disk behind each
    /// flush: of what waited, and of what waits behind the changes. Once the disk has failed they are refused with
    /// `NoSpace`.
    fn apply(&mut self, changes: &[Change<'_>], by: Reserve) -> Result<(), StoreRefusal>
        requires { CanApply (disk_state self.old).shape.numbers changes.now
            (disk_state self.old).content }
        ensures applies { Applies (disk_state self.old) changes.now result (disk_state self.new) }
        ensures made { ComesTo D.time D.left_since self.old changes.now by result self.new }
    {
        if self.fault.is_some() {
            return Err(StoreRefusal::NoSpace);
        }
        look(&self.store);
        self.store.make_way(changes);
        write_out(&self.store, &mut self.mirror, &mut self.fault);
        let made = self.store.make_changes(changes, by);
        write_out(&self.store, &mut self.mirror, &mut self.fault);
        made
    }

    /// Writes what waits, and out to the disk. It always has room, and opens no segment. It is refused with `NoSpace` where
    /// the disk fails, and does nothing once it has failed: so it is done only where the disk has all that the store
    /// contains.
    fn sync(&mut self) -> Result<(), StoreRefusal>
        ensures applies { Applies (disk_state self.old) [] result (disk_state self.new) }
        ensures flushed { OnOk result (IsOnDisk self.new) }
        ensures comes { Syncs D.time D.left_since self.old self.new }
        ensures failed { OnErr result (IsSome self.new.fault) }
        ensures cause { IfErr result (λ refusal. refusal ≡ StoreRefusal.NoSpace) }
    {
        if self.fault.is_some() {
            return Err(StoreRefusal::NoSpace);
        }
        look(&self.store);
        let _synced = self.store.sync();
        write_out(&self.store, &mut self.mirror, &mut self.fault);
        if self.fault.is_some() {
            return Err(StoreRefusal::NoSpace);
        }
        Ok(())
    }
}
