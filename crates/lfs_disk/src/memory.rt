//! A disk in memory, of which a crash leaves all that the contract of a disk allows.

ghost use Rattle.std.specs.Prelude.{◌≡◌, ◌<◌, [], IfOk, length, slice_index_or};
ghost use Rattle.lfs_disk.specs.Calls.{behind_call, seen_after};
ghost use Rattle.lfs_disk.specs.Disk.{Only};

use crate::calls::Call;
use crate::disk::{BlockDisk, ReadableDisk};
use crate::fault::DiskFault;
use lfs_segments::segments::Segments;
use lfs_types::block::Block;
use lfs_types::limits::SEGMENT_BLOCKS;
use std::alloc::{AllocError, Global};

/// The blocks of a disk as they were at first, and the calls since, which say what a crash may leave at each moment.
#[derive(Drop)]
pub struct MemoryDisk {
    first: Vec<Block>,
    calls: Vec<Call>,
    has_failed: bool,
}

impl MemoryDisk {
    ghost use Rattle.lfs_disk.specs.Memory.{calls_of, left_of, seen_of};

    /// A disk that has a memory's blocks.
    ///
    /// # Errors
    ///
    /// Where a growth is refused.
    pub fn holding(alloc: Global, memory: &Segments) -> Result<MemoryDisk, AllocError>
        ensures seen { IfOk result (λ disk. seen_of disk ≡ memory.now.blocks) }
        ensures synced { IfOk result (λ disk. Only (seen_of disk) (left_of disk)) }
        ensures calls { IfOk result (λ disk. calls_of disk ≡ []) }
    {
        let count = memory.segments() * SEGMENT_BLOCKS;
        let mut first = Vec::new(alloc);
        for address in 0..count {
            first.push(*memory.block(address))?;
        }
        Ok(MemoryDisk {
            first,
            calls: Vec::new(alloc),
            has_failed: false,
        })
    }

    /// What it was told.
    pub fn calls(&self) -> &[Call]
        ensures { result.now ≡ calls_of self.now }
    {
        &self.calls
    }
}

/// The block that is seen at an address behind calls.
fn block_behind<'a>(first: &'a [Block], calls: &'a [Call], address: u32) -> &'a Block
    requires inside { address < length first.now }
    ensures block { result.now ≡ slice_index_or (seen_after first.now calls.now) address [] }
{
    let mut seen = &first[address as usize];
    for call in calls {
        seen = behind_call(call, address, seen);
    }
    seen
}

/// The block that is seen at an address behind a call, by the one that was before.
fn behind_call<'a>(call: &'a Call, address: u32, before: &'a Block) -> &'a Block
    ensures { result.now ≡ behind_call call.now address before.now }
{
    match call {
        Call::Written { address: at, block } => { if *at == address { block } else { before } }
        Call::Synced => before,
    }
}

impl BlockDisk for MemoryDisk {
    ghost use Rattle.std.specs.Prelude.{length};
    ghost use Rattle.lfs_disk.specs.Calls.{LeftSince, counts_last, only_last};
    ghost use Rattle.lfs_disk.specs.Memory.{calls_of, first_blocks, gave_up, left_of, seen_of};

    ghost seen = { λ d. seen_of d };

    ghost may_leave = { λ d. left_of d };

    ghost time = { λ d. length (calls_of d) };

    ghost left_since = { λ d. LeftSince (first_blocks d) (calls_of d) };

    ghost has_failed = { λ d. gave_up d };

    ghost counts_now = { λ d t c. counts_last (first_blocks d) (calls_of d) t c };

    ghost only_now = { λ d c. only_last (first_blocks d) (calls_of d) c };

    fn write(&mut self, address: u32, block: &Block) -> Result<(), DiskFault> {
        let call = Call::Written {
            address,
            block: *block,
        };
        match self.calls.push(call) {
            Ok(()) => Ok(()),
            Err(_) => {
                self.has_failed = true;
                Err(DiskFault::Write)
            }
        }
    }

    fn sync(&mut self) -> Result<(), DiskFault> {
        match self.calls.push(Call::Synced) {
            Ok(()) => Ok(()),
            Err(_) => {
                self.has_failed = true;
                Err(DiskFault::Sync)
            }
        }
    }
}

impl ReadableDisk for MemoryDisk {
    fn read(&mut self, address: u32) -> Result<Block, DiskFault> {
        Ok(*block_behind(&self.first, &self.calls, address))
    }
}
