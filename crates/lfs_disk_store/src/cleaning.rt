//! The cleaner's calls.

ghost use Rattle.std.specs.Prelude.{◌≡◌, ◌<◌, false, length};
ghost use Rattle.lfs_types.specs.declared.cleaner.TheConstants.{MARK_LIMIT};
ghost use Rattle.lfs_parts.specs.Keys.{log_state};
ghost use Rattle.lfs_segwrite.specs.Gaining.{IsGainful, names_block};
ghost use Rattle.lfs_durable_store.specs.Keeping.{settled};
ghost use Rattle.lfs_disk_store.specs.CleanerCalls.{MarksEights};
ghost use Rattle.lfs_disk_store.specs.Keeping.{OnDisk};

use crate::store::DiskStore;
use crate::writing::{look, write_out};
use lfs_disk::BlockDisk;
use lfs_segwrite::gaining::gainful;
use lfs_types::cleaned::CleanedStore;
use lfs_types::cleaner::{BlockInfo, CleanFault, InfoList, MARK_LIMIT, MarkList};
use lfs_types::store::FileStore;
use std::alloc::AllocError;

impl<D: BlockDisk> CleanedStore for DiskStore<D> {
    ghost use Rattle.lfs_disk_store.specs.CleanerCalls.{disk_calls};

    ghost cleaner = { disk_calls D.time D.left_since };

    fn ifile_bytes(&self) -> Result<Vec<u8>, AllocError> {
        self.store.ifile_bytes()
    }

    fn infos(&self, segment: u32, infos: &mut InfoList) -> Result<(), CleanFault> {
        self.store.infos(segment, infos)
    }

    fn bmapv(&self, infos: &mut [BlockInfo]) {
        self.store.bmapv(infos);
    }

    /// Writes what waits, and out to the disk, then the blocks again, and these out. Once the disk has failed that is refused
    /// with `NoSpace`.
    fn markv(&mut self, marks: &MarkList) -> Result<u32, CleanFault> {
        if self.fault.is_some() {
            return Err(CleanFault::NoSpace);
        }
        look(&self.store);
        let _synced = self.store.sync();
        write_out(&self.store, &mut self.mirror, &mut self.fault);
        let marked = self.store.markv(marks);
        write_out(&self.store, &mut self.mirror, &mut self.fault);
        marked
    }

    fn segclean(&mut self, segment: u32) -> Result<(), CleanFault> {
        self.store.segclean(segment)
    }

    /// Writes what waits, and cleans a segment where that gains room: its live blocks are written again, eight at a time,
    /// each eight goes out to the disk, and the segment becomes clean. Where any of these calls is refused, as once the disk
    /// has failed, no room is gained.
    fn gain_room(&mut self) -> Result<(), CleanFault> {
        let _synced = self.sync();
        if self.fault.is_some() {
            return Err(CleanFault::NotGainful);
        }
        let Some(segment) = gainful(self.store.log().parts()) else {
            return Err(CleanFault::NotGainful);
        };
        if !empty_segment(self, segment) {
            return Err(CleanFault::NotGainful);
        }
        match self.segclean(segment) {
            Ok(()) => Ok(()),
            Err(_) => Err(CleanFault::NotGainful),
        }
    }
}

/// Writes again the live blocks of a segment, eight by eight, and says whether none of these calls was refused.
fn empty_segment<D: BlockDisk>(store: &mut DiskStore<D>, segment: u32) -> bool
    requires settled { store.old.store ≡ settled store.old.store.mark.turn store.old.store.store }
    requires gainful { IsGainful store.old.store.store segment }
    ensures { (e : MarksEights D.time D.left_since store.old store.new) × (0 < e.turns) }
{
    let mut infos = InfoList::empty();
    match store.infos(segment, &mut infos) {
        Ok(()) => mark_by_eights(store, infos.items()),
        // Never: a gainful segment is dirty.
        Err(_) => unreachable!(),
    }
}

/// Writes again, eight by eight, the blocks that some infos name, and says whether none of these calls was refused.
fn mark_by_eights<D: BlockDisk>(store: &mut DiskStore<D>, infos: &[BlockInfo]) -> bool
    requires { store.old.store ≡ settled store.old.store.mark.turn store.old.store.store }
    ensures { (e : MarksEights D.time D.left_since store.old store.new) × (0 < e.turns) }
{
    let mut marks = MarkList::empty();
    for info in infos {
        if !mark_where_full(store, &mut marks) {
            return false;
        }
        if is_named(store, info) {
            marks.push(*info);
        }
    }
    store.markv(&marks).is_ok()
}

/// Writes again the blocks that a list of infos names where it takes no more, and empties it. Says whether the call wasn't
/// refused.
fn mark_where_full<D: BlockDisk>(store: &mut DiskStore<D>, marks: &mut MarkList) -> bool
    ensures room { length marks.new < MARK_LIMIT }
    ensures turns { (first : OnDisk D) → MarksEights D.time D.left_since first store.old
        → MarksEights D.time D.left_since first store.new }
    ensures refused { result ≡ false → (first : OnDisk D)
        → MarksEights D.time D.left_since first store.old
        → (e : MarksEights D.time D.left_since first store.new) × (0 < e.turns) }
{
    if marks.items().len() < MARK_LIMIT {
        return true;
    }
    let marked = store.markv(marks);
    *marks = MarkList::empty();
    marked.is_ok()
}

/// Whether an info names a block with its present address.
fn is_named<D: BlockDisk>(store: &DiskStore<D>, info: &BlockInfo) -> bool
    ensures { result ≡ names_block (log_state store.now.store.store) info.now }
{
    let mut present = [*info];
    store.bmapv(&mut present);
    info.addr != 0 && present[0].addr == info.addr
}
