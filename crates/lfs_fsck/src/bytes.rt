//! Blocks of zeros.

ghost use Rattle.std.specs.Prelude.{◌≡◌, ◌↔◌, ◌≤◌, ◌<◌, ℕ, IsTrue, slice_index};
ghost use Rattle.lfs_types.specs.Blocks.{zero_block};

use lfs_types::block::{BLOCK_SIZE, Block};

/// Whether each byte of a block from a place on is zero.
pub(crate) fn is_zero_from(block: &Block, start: usize) -> bool
    requires { start ≤ 512 }
    ensures { IsTrue result ↔ ((k : ℕ) → start ≤ k → k < 512 → slice_index block.now k ≡ 0) }
{
    for k in start..BLOCK_SIZE {
        if block[k] != 0 {
            return false;
        }
    }
    true
}

/// Whether a block is zeros.
pub(crate) fn is_zeros(block: &Block) -> bool
    ensures { IsTrue result ↔ block.now ≡ zero_block }
{
    is_zero_from(block, 0)
}
