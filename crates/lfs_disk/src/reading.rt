//! Blocks that are read from a disk, as behind a restart.

ghost use Rattle.std.specs.Prelude.{◌≡◌, IfOk, length};
ghost use Rattle.lfs_disk.specs.Disk.{LeavesOnly};

use crate::disk::ReadableDisk;
use crate::fault::DiskFault;
use lfs_types::block::Block;
use std::alloc::Global;

/// Reads all blocks of a disk that has so many.
///
/// # Errors
///
/// `Read` where the disk fails; `Memory` where a growth is refused.
pub fn read_all<D: ReadableDisk>(
    alloc: Global,
    disk: &mut D,
    count: u32,
) -> Result<Vec<Block>, DiskFault>
    requires count { count ≡ length (D.seen disk.old) }
    ensures blocks { IfOk result (λ blocks. blocks.items ≡ D.seen disk.old) }
    ensures seen { D.seen disk.new ≡ D.seen disk.old }
    // A crash leaves what it might have left before.
    ensures crash { LeavesOnly D.time D.left_since disk.old disk.new (D.may_leave disk.old) }
{
    let mut blocks = Vec::new(alloc);
    for address in 0..count {
        let block = disk.read(address)?;
        if blocks.push(block).is_err() {
            return Err(DiskFault::Memory);
        }
    }
    Ok(blocks)
}
