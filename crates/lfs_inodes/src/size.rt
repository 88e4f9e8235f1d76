//! The size of an inode, and the blocks that it takes.

ghost use Rattle.std.specs.Prelude.{◌≡◌, ◌≤◌, if◌then◌else◌};
ghost use Rattle.lfs_inodes.specs.Addresses.{addresses, kept_roots, zeroed_from};
ghost use Rattle.lfs_inodes.specs.Attributes.{attributes};
ghost use Rattle.lfs_inodes.specs.Facts.{IsSizeOf, block_count};

use crate::fields::blocks;
use crate::inode::{DIRECT_COUNT, Inode, SINGLE_END};
use lfs_types::limits::FILE_BLOCKS;

impl Inode {
    /// The number of data blocks that the size takes, at most `FILE_BLOCKS`. Those from it on have no
    /// address.
    pub fn blocks(&self) -> u32
        ensures count { result ≡ block_count self.now.size }
        ensures bounded { result ≤ FILE_BLOCKS }
    {
        blocks(self.size) as u32
    }

    /// The inode with this size, which is not less than the size it has. Its blocks stay, and those
    /// that come in have no address: they read as zeros.
    pub fn grown(&self, size: u64) -> Inode
        requires more { self.now.size ≤ size }
        requires sized { IsSizeOf self.now.kind size }
        ensures attributes { attributes result ≡ record (attributes self.now) { size = size } }
        ensures addresses { addresses result ≡ addresses self.now }
    {
        let mut changed = *self;
        changed.size = size;
        changed
    }

    /// The inode with this size, which is not more than the size it has. The addresses of the blocks
    /// past the size go, with 12 blocks or fewer that of the single indirect block too, and with 140 or
    /// fewer that of the double one.
    pub fn cut(&self, size: u64) -> Inode
        requires less { size ≤ self.now.size }
        requires sized { IsSizeOf self.now.kind size }
        ensures attributes { attributes result ≡ record (attributes self.now) { size = size } }
        ensures addresses { addresses result ≡ kept_roots (block_count size) (addresses self.now) }
    {
        let count = blocks(size);
        let mut kept = *self;
        kept.size = size;
        kept.direct = cut_direct(&self.direct, count);
        kept.single = kept_if(count > DIRECT_COUNT as u64, self.single);
        kept.double = kept_if(count > SINGLE_END as u64, self.double);
        kept
    }
}

/// The direct addresses without those from a place on.
fn cut_direct(direct: &[u32; DIRECT_COUNT], count: u64) -> [u32; DIRECT_COUNT]
    ensures { result ≡ zeroed_from count direct.now }
{
    let mut kept = *direct;
    if count < DIRECT_COUNT as u64 {
        kept[count as usize..].fill(0);
    }
    kept
}

/// The address where it is kept, else none.
fn kept_if(is_kept: bool, address: u32) -> u32
    ensures { result ≡ (if is_kept then address else 0) }
{
    if is_kept { address } else { 0 }
}
