//! Where an inode's blocks lie.

ghost use Rattle.std.specs.Prelude.{◌≡◌, ◌<◌, ◌≤◌, ◌-◌, ◌%◌, ◌&&◌, ◌⊎◌, ◌==◌, ℕ, List, length, if◌then◌else◌, nat_le, nat_lt, slice_index, slice_set};
ghost use Rattle.lfs_types.specs.Blocks.{zero_block};
ghost use Rattle.lfs_inodes.specs.Bytes.{AreBytes};
ghost use Rattle.lfs_inodes.specs.Facts.{IsDouble, IsSingle, block_count};
ghost use Rattle.lfs_inodes.specs.Addresses.{SameChild, addresses, cells, address_of, first_at};
ghost use Rattle.lfs_inodes.specs.Attributes.{attributes};

use crate::bytes::{put_u32, u32_at};
use crate::inode::{
    ADDRESS_LIMIT, DIRECT_COUNT, DOUBLE_PLACE, ENTRY_COUNT, Inode, ROOT_COUNT, SINGLE_END,
};
use lfs_types::block::{BLOCK_SIZE, Block};

/// The address of block `n`, which lies below the size; 0 where it has none. Blocks 12 to 139 stand in
/// the single indirect block, those from 140 on in the child of the double indirect block that leads to
/// them; neither is looked at for the others (this project's profile).
pub fn address(inode: &Inode, single: &Block, child: &Block, n: u32) -> u32
    requires { n < block_count inode.now.size }
    ensures { result ≡ address_of inode.now single.now child.now n }
{
    let n = n as usize;
    if n < DIRECT_COUNT {
        inode.direct[n]
    } else if n < SINGLE_END {
        entry(single, n - DIRECT_COUNT)
    } else {
        entry(child, (n - SINGLE_END) % ENTRY_COUNT)
    }
}

/// The inode, its single indirect block and the child of the double one that leads to block `n`, with
/// this address for block `n`, which lies below the size.
pub fn with_address(
    inode: &Inode,
    single: &Block,
    child: &Block,
    n: u32,
    address: u32,
) -> (Inode, Block, Block)
    requires within { n < block_count inode.now.size }
    requires in_volume { address < ADDRESS_LIMIT }
    ensures attributes { attributes result.0 ≡ attributes inode.now }
    ensures record { addresses result.0 ≡ (if nat_lt n DIRECT_COUNT
        then slice_set (addresses inode.now) n address else addresses inode.now) }
    ensures single { cells result.1 ≡ (if nat_le DIRECT_COUNT n && nat_lt n SINGLE_END
        then slice_set (cells single.now) (n - DIRECT_COUNT) address else cells single.now) }
    ensures child { cells result.2 ≡ (if nat_le SINGLE_END n
        then slice_set (cells child.now) ((n - SINGLE_END) % ENTRY_COUNT) address
        else cells child.now) }
    // An indirect block is its cells.
    ensures only_single { (block : List ℕ) → length block ≡ BLOCK_SIZE → AreBytes block
        → cells block ≡ cells result.1 → block ≡ result.1 }
    ensures only_child { (block : List ℕ) → length block ≡ BLOCK_SIZE → AreBytes block
        → cells block ≡ cells result.2 → block ≡ result.2 }
    ensures same_record { DIRECT_COUNT ≤ n → result.0 ≡ inode.now }
    ensures same_single { (n < DIRECT_COUNT) ⊎ (SINGLE_END ≤ n) → result.1 ≡ single.now }
    ensures same_child { n < SINGLE_END → result.2 ≡ child.now }
    ensures reads { (m : ℕ) → m < block_count inode.now.size → SameChild m n
        → address_of result.0 result.1 result.2 m
        ≡ (if m == n then address else address_of inode.now single.now child.now m) }
{
    let n = n as usize;
    if n < DIRECT_COUNT {
        (inode.with_direct(n, address), *single, *child)
    } else if n < SINGLE_END {
        (
            *inode,
            with_entry(single, n - DIRECT_COUNT, address),
            *child,
        )
    } else {
        (
            *inode,
            *single,
            with_entry(child, (n - SINGLE_END) % ENTRY_COUNT, address),
        )
    }
}

/// The address of the double indirect block; 0 is none.
pub fn double_address(inode: &Inode) -> u32
    ensures { result ≡ slice_index (addresses inode.now) DOUBLE_PLACE }
{
    inode.double
}

/// The address at a place of the record, 0 to 13: those of blocks 0 to 11, then those of the single
/// and of the double indirect block.
pub fn root_address(inode: &Inode, place: usize) -> u32
    requires { place < ROOT_COUNT }
    ensures { result ≡ slice_index (addresses inode.now) place }
{
    if place < DIRECT_COUNT {
        inode.direct[place]
    } else if place < DOUBLE_PLACE {
        inode.single
    } else {
        inode.double
    }
}

impl Inode {
    /// The inode with this address at a place of the record; 0 is none. It leads to blocks below the
    /// size.
    pub fn with_root(&self, place: usize, address: u32) -> Inode
        requires place { place < ROOT_COUNT }
        requires within { first_at place < block_count self.now.size }
        requires in_volume { address < ADDRESS_LIMIT }
        ensures attributes { attributes result ≡ attributes self.now }
        ensures addresses { addresses result ≡ slice_set (addresses self.now) place address }
    {
        if place < DIRECT_COUNT {
            self.with_direct(place, address)
        } else if place < DOUBLE_PLACE {
            self.with_single(address)
        } else {
            self.with_double(address)
        }
    }

    /// The inode with this address for block `n`, 0 to 11, which lies below the size.
    pub fn with_direct(&self, n: usize, address: u32) -> Inode
        requires direct { n < DIRECT_COUNT }
        requires within { n < block_count self.now.size }
        requires in_volume { address < ADDRESS_LIMIT }
        ensures attributes { attributes result ≡ attributes self.now }
        ensures addresses { addresses result ≡ slice_set (addresses self.now) n address }
    {
        let mut changed = *self;
        changed.direct[n] = address;
        changed
    }

    /// The inode with this address for its single indirect block; 0 is none. With 12 blocks or fewer it
    /// has none.
    pub fn with_single(&self, address: u32) -> Inode
        requires { IsSingle self.now.size address }
        ensures attributes { attributes result ≡ attributes self.now }
        ensures addresses { addresses result ≡ slice_set (addresses self.now) DIRECT_COUNT address }
    {
        let mut changed = *self;
        changed.single = address;
        changed
    }

    /// The inode with this address for its double indirect block; 0 is none. With 140 blocks or fewer
    /// it has none.
    pub fn with_double(&self, address: u32) -> Inode
        requires { IsDouble self.now.size address }
        ensures attributes { attributes result ≡ attributes self.now }
        ensures addresses { addresses result ≡ slice_set (addresses self.now) DOUBLE_PLACE address }
    {
        let mut changed = *self;
        changed.double = address;
        changed
    }
}

/// Address `i` of an indirect block, 0 to 127: that of data block `12 + i` in the single indirect block,
/// of child `i` in the double one, of data block `140 + 128 * k + i` in its child `k`.
pub fn entry(block: &Block, i: usize) -> u32
    requires { i < ENTRY_COUNT }
    ensures read { result ≡ slice_index (cells block.now) i }
    ensures none { block.now ≡ zero_block → result ≡ 0 }
{
    u32_at(block, 4 * i)
}

/// The indirect block with address `i`, 0 to 127, replaced.
pub fn with_entry(block: &Block, i: usize, address: u32) -> Block
    requires { i < ENTRY_COUNT }
    ensures bytes { AreBytes result }
    ensures cells { cells result ≡ slice_set (cells block.now) i address }
    // An indirect block is its cells.
    ensures only { (other : List ℕ) → length other ≡ BLOCK_SIZE → AreBytes other
        → cells other ≡ cells result → other ≡ result }
{
    let mut changed = *block;
    put_u32(&mut changed, 4 * i, address);
    changed
}
