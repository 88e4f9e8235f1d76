//! A disk of blocks over a file of the host.

ghost use Rattle.std.specs.Prelude.{◌≡◌, ◌++◌, ◌∷◌, [], IfErr, OnErr, OnOk, false, true};
ghost use Rattle.lfs_disk.specs.declared.calls.Call.TheVariants.{Synced, Written};

use crate::host::HostFile;
use lfs_disk::{BlockDisk, DiskFault};
use lfs_types::block::{BLOCK_SIZE, Block};
use std::fs::OpenFile;
use std::os::unix::fs::FileExt;
use std::snapshot::Snapshot;

/// A file of the host, in which the block of each address stands 512 times that address behind the file's beginning.
///
/// What is seen, and what a crash may leave, is by the blocks that the file had at first and the calls of the host since,
/// which are remembered by what only contracts read. That a file of the host is such a disk no contract can say, so it
/// is trusted:
///
/// - that a read gives the block that was last written at its address, and no one else writes the file;
/// - that a block of 512 bytes, written at a multiple of 512, lands whole or not at all, and no other block with it;
/// - that behind `sync_all` all that was written has landed.
#[derive(Drop)]
pub struct FileDisk<F: FileExt + OpenFile + Drop> {
    pub(crate) host: HostFile<F>,
    pub(crate) first: Snapshot<Vec<Block>>,
}

impl<F: FileExt + OpenFile + Drop> FileDisk<F> {
    ghost use Rattle.lfs_file_disk.specs.File.{calls_of, gave_up};

    /// Has the file write a block at its place. Once a call has failed the file is told nothing any more, as what it has is
    /// not known.
    fn put(&mut self, address: u32, block: &Block) -> Result<(), DiskFault>
        ensures told { gave_up self.old ≡ false
            → calls_of self.new ≡ calls_of self.old ++ Written address block.now ∷ [] }
        ensures still { gave_up self.old ≡ true → calls_of self.new ≡ calls_of self.old }
        ensures first { self.new.first ≡ self.old.first }
        ensures well { OnOk result (gave_up self.old ≡ false) }
        ensures cause { OnErr result (gave_up self.new ≡ true) }
        ensures failed { gave_up self.old ≡ true → gave_up self.new ≡ true }
        ensures fault { IfErr result (λ fault. fault ≡ DiskFault.Write) }
    {
        if self.host.has_failed() {
            return Err(DiskFault::Write);
        }
        let offset = BLOCK_SIZE as u64 * u64::from(address);
        match self.host.put(offset, block) {
            Ok(()) => Ok(()),
            Err(_) => Err(DiskFault::Write),
        }
    }

    /// Has the file wait until all that was written has landed, if no call has failed.
    fn settle(&mut self) -> Result<(), DiskFault>
        ensures told { OnOk result (calls_of self.new ≡ calls_of self.old ++ Synced ∷ []) }
        ensures still { OnErr result (calls_of self.new ≡ calls_of self.old) }
        ensures first { self.new.first ≡ self.old.first }
        ensures well { OnOk result (gave_up self.old ≡ false) }
        ensures cause { OnErr result (gave_up self.new ≡ true) }
        ensures failed { gave_up self.old ≡ true → gave_up self.new ≡ true }
        ensures fault { IfErr result (λ fault. fault ≡ DiskFault.Sync) }
    {
        if self.host.has_failed() {
            return Err(DiskFault::Sync);
        }
        match self.host.sync() {
            Ok(()) => Ok(()),
            Err(_) => Err(DiskFault::Sync),
        }
    }
}

impl<F: FileExt + OpenFile + Drop> BlockDisk for FileDisk<F> {
    ghost use Rattle.std.specs.Prelude.{length};
    ghost use Rattle.lfs_disk.specs.Calls.{LeftSince, counts_last, only_last};
    ghost use Rattle.lfs_file_disk.specs.File.{calls_of, first_blocks, gave_up, left_of, seen_of};

    ghost seen = { λ d. seen_of d };

    ghost may_leave = { λ d. left_of d };

    ghost time = { λ d. length (calls_of d) };

    ghost left_since = { λ d. LeftSince (first_blocks d) (calls_of d) };

    ghost has_failed = { λ d. gave_up d };

    ghost counts_now = { λ d t c. counts_last (first_blocks d) (calls_of d) t c };

    ghost only_now = { λ d c. only_last (first_blocks d) (calls_of d) c };

    fn write(&mut self, address: u32, block: &Block) -> Result<(), DiskFault> {
        self.put(address, block)
    }

    fn sync(&mut self) -> Result<(), DiskFault> {
        self.settle()
    }
}
