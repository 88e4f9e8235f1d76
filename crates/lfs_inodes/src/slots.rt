//! Inode blocks: four slots of 128 bytes, each a record or, if unused, zeros.

ghost use Rattle.std.specs.Prelude.{◌≡◌, ◌<◌, None, replicate, slice_set};
ghost use Rattle.lfs_types.specs.Blocks.{zero_block};
ghost use Rattle.lfs_inodes.specs.Reading.{fields_in};
ghost use Rattle.lfs_inodes.specs.Slots.{slot_of, slots};

use crate::record::RECORD_SIZE;
use lfs_types::block::Block;

/// The bytes of a slot, 0 to 3 (this project's profile).
pub fn slot(block: &Block, index: usize) -> [u8; 128]
    requires { index < 4 }
    ensures bytes { result ≡ slot_of block.now index }
    ensures unused { block.now ≡ zero_block → result ≡ replicate 128 0 }
    ensures none { block.now ≡ zero_block → fields_in result ≡ None }
{
    let mut record = [0; RECORD_SIZE];
    record.copy_from_slice(&block[RECORD_SIZE * index..RECORD_SIZE * (index + 1)]);
    record
}

/// The block with these bytes in a slot, 0 to 3.
pub fn with_slot(block: &Block, index: usize, bytes: &[u8; 128]) -> Block
    requires { index < 4 }
    ensures { slots result ≡ slice_set (slots block.now) index bytes.now }
{
    let mut changed = *block;
    changed[RECORD_SIZE * index..RECORD_SIZE * (index + 1)].copy_from_slice(bytes);
    changed
}
