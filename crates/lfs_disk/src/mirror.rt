//! A disk that follows the segments of a log store.

ghost use Rattle.std.specs.Prelude.{◌≡◌, OnErr, OnOk, true};
ghost use Rattle.lfs_disk.specs.Disk.{LeavesOnly, Only};
ghost use Rattle.lfs_disk.specs.Mirroring.{FollowsOn, IsBlankBehind, IsMirror, IsOldOrNew, disk_of, memory_of};

use crate::disk::BlockDisk;
use crate::fault::DiskFault;
use crate::writing::{write_behind, write_opened};
use lfs_segments::segments::Segments;
use std::snapshot::Snapshot;

/// A disk that has the blocks of a memory, as it was when it was last written to the disk, and where its log ended.
#[derive(Drop)]
pub struct Mirror<D: BlockDisk> {
    pub(crate) disk: D,
    pub(crate) active: u32,
    pub(crate) next: u32,
    /// That memory. It takes no bytes: only proofs look at it.
    pub(crate) memory: Snapshot<Segments>,
}

impl<D: BlockDisk> Mirror<D> {
    /// The mirror of a memory whose blocks a disk has, all of which have landed.
    pub fn over(disk: D, memory: &Segments) -> Mirror<D>
        requires blocks { D.seen disk ≡ memory.now.blocks }
        requires synced { Only (D.seen disk) (D.may_leave disk) }
        ensures mirror { IsMirror D.seen D.may_leave result }
        ensures memory { memory_of result ≡ memory.now }
        ensures disk { disk_of result ≡ disk }
    {
        Mirror {
            disk,
            active: memory.active(),
            next: memory.next_address(),
            memory: Snapshot::of(memory),
        }
    }

    /// The disk.
    pub fn disk(&self) -> &D
        ensures disk { result.now ≡ disk_of self.now }
    {
        &self.disk
    }

    /// Gives the disk back.
    pub fn into_disk(self) -> D
        ensures disk { result ≡ disk_of self }
    {
        self.disk
    }

    /// Writes to the disk what a memory has and that of before has not: what was written behind its log's end, or the
    /// log of another segment, where one was opened.
    ///
    /// # Errors
    ///
    /// The disk's, where it fails. Then a crash leaves what it might have left in the call, and the mirror is to be
    /// used no more.
    pub fn write_out(&mut self, memory: &Segments) -> Result<(), DiskFault>
        requires mirror { IsMirror D.seen D.may_leave self.old }
        requires blank { IsBlankBehind (memory_of self.old) }
        requires goes_on { FollowsOn (memory_of self.old) memory.now }
        ensures mirror { OnOk result (IsMirror D.seen D.may_leave self.new) }
        ensures memory { OnOk result (memory_of self.new ≡ memory.now) }
        // A crash at any moment of the call leaves the memory's blocks, or what a crash leaves of the store of before.
        ensures crash { LeavesOnly D.time D.left_since (disk_of self.old) (disk_of self.new)
            (IsOldOrNew (memory_of self.old) memory.now) }
        // It fails only where the disk does.
        ensures cause { OnErr result (D.has_failed (disk_of self.new) ≡ true) }
        ensures failed { D.has_failed (disk_of self.old) ≡ true → D.has_failed (disk_of self.new) ≡ true }
    {
        self.write_log(memory)?;
        self.active = memory.active();
        self.next = memory.next_address();
        self.memory = Snapshot::of(memory);
        Ok(())
    }

    /// Writes to the disk what the memory has and that of before has not.
    fn write_log(&mut self, memory: &Segments) -> Result<(), DiskFault>
        requires mirror { IsMirror D.seen D.may_leave self.old }
        requires blank { IsBlankBehind (memory_of self.old) }
        requires goes_on { FollowsOn (memory_of self.old) memory.now }
        ensures written { OnOk result (D.seen (disk_of self.new) ≡ memory.now.blocks) }
        ensures synced { OnOk result (Only (D.seen (disk_of self.new)) (D.may_leave (disk_of self.new))) }
        ensures crash { LeavesOnly D.time D.left_since (disk_of self.old) (disk_of self.new)
            (IsOldOrNew (memory_of self.old) memory.now) }
        ensures cause { OnErr result (D.has_failed (disk_of self.new) ≡ true) }
        ensures failed { D.has_failed (disk_of self.old) ≡ true → D.has_failed (disk_of self.new) ≡ true }
    {
        if memory.active() == self.active {
            write_behind(&mut self.disk, memory, self.next)
        } else {
            write_opened(&mut self.disk, memory)
        }
    }
}
