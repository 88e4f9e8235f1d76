//! A file as its blocks: which blocks some of its bytes fall into, and which bytes of a block.

ghost use Rattle.std.specs.Prelude.{◌≡◌, ℕ, ◌+◌, ◌-◌, ◌*◌, ◌/◌, ◌<◌, ◌≤◌, ◌^◌, min, length};
ghost use Rattle.lfs_bmap.specs.Pieces.{Touches, IsPut, IsBlockCut, IsGot};

use lfs_types::block::{BLOCK_SIZE, Block};
use std::ops::Range;

/// The bytes of one block that lie within some bytes of its file.
#[derive(Clone, Copy, PartialEq, Eq, Debug)]
pub struct Piece {
    /// The first one's place in the block, or 512.
    pub from: usize,
    /// The place in the block behind the last one, at most 512.
    pub to: usize,
}

/// The blocks of a file into which the bytes from `start` to before `end` fall.
pub fn blocks_touched(start: u64, end: u64) -> Range<u32>
    requires { end ≤ 2 ^ 40 }
    ensures touched { (n : ℕ) → Touches start end n → (result.start ≤ n) × (n < result.end) }
    ensures only { (n : ℕ) → result.start ≤ n → n < result.end → Touches start end n }
    ensures some { start < end → (result.start ≡ start / 512) × (result.end ≡ (end - 1) / 512 + 1) }
    ensures none { end ≤ start → result.start ≡ result.end }
{
    if start >= end {
        return 0..0;
    }
    let size = BLOCK_SIZE as u64;
    (start / size) as u32..((end - 1) / size + 1) as u32
}

/// The bytes of block `index` that lie from `start` to before `end` of its file.
pub fn piece_of(index: u32, start: u64, end: u64) -> Piece
    ensures from { result.from ≡ min (start - 512 * index) 512 }
    ensures to { result.to ≡ min (end - 512 * index) 512 }
{
    let first = BLOCK_SIZE as u64 * u64::from(index);
    Piece {
        from: start.saturating_sub(first).min(BLOCK_SIZE as u64) as usize,
        to: end.saturating_sub(first).min(BLOCK_SIZE as u64) as usize,
    }
}

/// Copies into block `index` what falls into it of `bytes` put at byte `start` of the file.
pub fn put_piece(block: &mut Block, index: u32, start: u64, bytes: &[u8])
    requires { start + length bytes.now < 2 ^ 64 }
    ensures { IsPut index start bytes.now block.old block.new }
{
    let Piece { from, to } = piece_of(index, start, start + bytes.len() as u64);
    if from < to {
        let first = (BLOCK_SIZE as u64 * u64::from(index) + from as u64 - start) as usize;
        block[from..to].copy_from_slice(&bytes[first..first + (to - from)]);
    }
}

/// Zeroes what block `index` has at and past `size` of its file.
pub fn cut_piece(block: &mut Block, index: u32, size: u64)
    ensures { IsBlockCut index size block.old block.new }
{
    let kept = piece_of(index, 0, size).to;
    block[kept..].fill(0);
}

/// Copies into `buffer`, which the bytes of a file from `start` on are to fill, those that stand in
/// block `index`.
pub fn get_piece(block: &Block, index: u32, start: u64, buffer: &mut [u8])
    requires { start + length buffer.old < 2 ^ 64 }
    ensures { IsGot index start block.now buffer.old buffer.new }
{
    let Piece { from, to } = piece_of(index, start, start + buffer.len() as u64);
    if from < to {
        let first = (BLOCK_SIZE as u64 * u64::from(index) + from as u64 - start) as usize;
        buffer[first..first + (to - from)].copy_from_slice(&block[from..to]);
    }
}
