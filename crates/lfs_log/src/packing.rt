//! Inode records in the log: up to four of them share a block.

ghost use Rattle.std.specs.Prelude.{◌≡◌, ◌≤◌, ◌<◌, ℕ, List, Some, length};
ghost use Rattle.std.specs.List.{slice_get};
ghost use Rattle.std.specs.Option.{option_map};
ghost use Rattle.lfs_inodes.specs.declared.inode.Inode.{Inode};
ghost use Rattle.lfs_inodes.specs.Reading.{AreFields, Fields, fields_in, fields_of};
ghost use Rattle.lfs_inodes.specs.Slots.{slot_of};
ghost use Rattle.lfs_log.specs.Names.{inode_key, record_in};
ghost use Rattle.lfs_log.specs.Packing.{IsInodeBlock};
ghost use Rattle.lfs_log.specs.declared.packing.TheConstants.{SLOT_COUNT};

use lfs_inodes::inode::Inode;
use lfs_inodes::slots::{slot, with_slot};
use lfs_types::block::{Block, ZERO_BLOCK};

/// The number of inode records that a block has room for (this project's profile).
pub const SLOT_COUNT: usize = 4;

/// The block of the records of up to four inodes, in order from slot 0. A slot that is not used is
/// zeros.
pub fn packed(inodes: &[Inode]) -> Block
    requires { length inodes.now ≤ SLOT_COUNT }
    ensures block { IsInodeBlock result inodes.now }
    // Each slot is read as the inode that was packed there.
    ensures reading { (k : ℕ) → k < SLOT_COUNT
        → fields_in (slot_of result k) ≡ option_map fields_of (slice_get inodes.now k) }
    ensures records { (k : ℕ) → k < SLOT_COUNT
        → record_in result k ≡ option_map inode_key (slice_get inodes.now k) }
{
    let mut block = ZERO_BLOCK;
    for k in 0..inodes.len() {
        block = with_slot(&block, k, &inodes[k].encode());
    }
    block
}

/// The inode whose record stands in a slot of an inode block, 0 to 3; `None` where none does.
pub fn inode_in(block: &Block, index: usize) -> Option<Inode>
    requires { index < SLOT_COUNT }
    ensures reading { option_map fields_of result ≡ fields_in (slot_of block.now index) }
    ensures bounds { (f : Fields) → fields_in (slot_of block.now index) ≡ Some f → AreFields f }
    ensures record { option_map inode_key result ≡ record_in block.now index }
    // What was packed is read back.
    ensures packed { (inodes : List Inode) → IsInodeBlock block.now inodes
        → result ≡ slice_get inodes index }
{
    Inode::decode(&slot(block, index))
}
