//! Numbers in a block, the highest byte first.

ghost use Rattle.std.specs.Prelude.{◌≡◌, ℕ, ◌+◌, ◌<◌, ◌≤◌, ◌↔◌, IsTrue, EachIndex, slice_index};
ghost use Rattle.lfs_segments.specs.Bytes.{IsBlock, half_at, word_at};

use byteorder::{BigEndian, ByteOrder};
use lfs_types::block::Block;

/// The number in the four bytes from a place.
pub fn word(block: &Block, place: usize) -> u32
    requires { place + 4 ≤ 512 }
    ensures { result ≡ word_at block.now place }
{
    u32::from_be_bytes([
        block[place],
        block[place + 1],
        block[place + 2],
        block[place + 3],
    ])
}

/// The number in the two bytes from a place.
pub fn half(block: &Block, place: usize) -> u32
    requires { place + 2 ≤ 512 }
    ensures { result ≡ half_at block.now place }
{
    u32::from(u16::from_be_bytes([block[place], block[place + 1]]))
}

/// Writes a number into the four bytes from a place.
pub fn put_word(block: &mut Block, place: usize, number: u32)
    requires { place + 4 ≤ 512 }
    ensures bytes { IsBlock block.new }
    ensures written { word_at block.new place ≡ number }
    ensures before { (i : ℕ) → i < place → slice_index block.new i ≡ slice_index block.old i }
    ensures after { (i : ℕ) → place + 4 ≤ i → slice_index block.new i ≡ slice_index block.old i }
{
    BigEndian::write_u32(&mut block[place..place + 4], number);
}

/// Writes a number into the two bytes from a place.
pub fn put_half(block: &mut Block, place: usize, number: u16)
    requires { place + 2 ≤ 512 }
    ensures bytes { IsBlock block.new }
    ensures written { half_at block.new place ≡ number }
    ensures before { (i : ℕ) → i < place → slice_index block.new i ≡ slice_index block.old i }
    ensures after { (i : ℕ) → place + 2 ≤ i → slice_index block.new i ≡ slice_index block.old i }
{
    BigEndian::write_u16(&mut block[place..place + 2], number);
}

/// Whether every byte is zero.
pub fn is_zero(bytes: &[u8]) -> bool
    ensures { IsTrue result ↔ EachIndex bytes.now (λ i. slice_index bytes.now i ≡ 0) }
{
    bytes.iter().all(|byte| *byte == 0)
}
