//! Blocks with an entry more or less, or with another number.

ghost use Rattle.std.specs.Prelude.{◌≡◌, ℕ, ◌+◌, ◌-◌, ◌<◌, ◌≤◌, ◌++◌, ◌∷◌, ◌↔◌, [], None, false, drop, take, length, replicate, IfSome, IsSome, IsTrue, MatchOption, is_some, slice_index_or};
ghost use Rattle.lfs_dirs.specs.Directory.{IsDirectoryBlock, IsEntry, entry_bytes, number_in, renumbered, used_of, with_number, without};
ghost use Rattle.lfs_dirs.specs.Reading.{entries_of};

use crate::reading::{HEAD_SIZE, are_zeros, behind, entries};
use byteorder::{BigEndian, ByteOrder};
use lfs_types::block::{BLOCK_SIZE, Block};
use lfs_types::name::Name;

/// The block with an entry more at the end of its list, or None exactly where five bytes and the name
/// don't fit behind the entries.
pub fn added(block: &Block, name: &Name, number: u32) -> Option<Block>
    requires directory { IsDirectoryBlock block.now (entries_of block.now) }
    requires above { 0 < number }
    requires new_name { number_in name.now (entries_of block.now) ≡ None }
    ensures fits { IsSome result ↔ (used_of (entries_of block.now) + 5 + length name.now ≤ 512) }
    ensures block { IfSome result (λ b. IsDirectoryBlock b
        (entries_of block.now ++ (number, name.now) ∷ [])) }
    ensures listed { IfSome result (λ b. entries_of b
        ≡ entries_of block.now ++ (number, name.now) ∷ []) }
{
    let mut longer = *block;
    if add(&mut longer, name, number) {
        Some(longer)
    } else {
        None
    }
}

/// Puts an entry at the end of a block's list, and says whether five bytes and the name fit behind the entries. Where
/// they don't, the block stays.
pub fn add(block: &mut Block, name: &Name, number: u32) -> bool
    requires directory { IsDirectoryBlock block.old (entries_of block.old) }
    requires above { 0 < number }
    requires new_name { number_in name.now (entries_of block.old) ≡ None }
    ensures fits { IsTrue result
        ↔ (used_of (entries_of block.old) + 5 + length name.now ≤ 512) }
    ensures block { IsTrue result → IsDirectoryBlock block.new
        (entries_of block.old ++ (number, name.now) ∷ []) }
    ensures listed { IsTrue result → entries_of block.new
        ≡ entries_of block.old ++ (number, name.now) ∷ [] }
    ensures stays { result ≡ false → block.new ≡ block.old }
{
    let name = name.as_bytes();
    let size = HEAD_SIZE + name.len();
    // A block that is nearly full is known by the bytes at its end, with no walk along its entries.
    if !are_zeros(&block[BLOCK_SIZE - size..]) {
        return false;
    }
    let end = used(block);
    if BLOCK_SIZE - end < size {
        return false;
    }
    push_entry(block, end, number, name);
    true
}

/// The block without the entry of this name, closed up; None where it has none.
pub fn removed(block: &Block, name: &Name) -> Option<Block>
    requires { IsDirectoryBlock block.now (entries_of block.now) }
    ensures found { MatchOption result (number_in name.now (entries_of block.now) ≡ None)
        (λ b. IsSome (number_in name.now (entries_of block.now))) }
    ensures block { IfSome result (λ b. IsDirectoryBlock b
        (without name.now (entries_of block.now))) }
    ensures listed { IfSome result (λ b. entries_of b ≡ without name.now (entries_of block.now)) }
{
    let mut closed = *block;
    if remove(&mut closed, name) {
        Some(closed)
    } else {
        None
    }
}

/// Takes the entry of this name out of a block, which is closed up, and says whether there was one.
pub fn remove(block: &mut Block, name: &Name) -> bool
    requires { IsDirectoryBlock block.old (entries_of block.old) }
    ensures found { result ≡ is_some (number_in name.now (entries_of block.old)) }
    ensures block { IsDirectoryBlock block.new (without name.now (entries_of block.old)) }
    ensures listed { entries_of block.new ≡ without name.now (entries_of block.old) }
{
    let unwanted = name.as_bytes();
    let Some(rest) = behind(block, unwanted) else {
        return false;
    };
    let left = rest.len();
    let at = BLOCK_SIZE - left - HEAD_SIZE - unwanted.len();
    close_up(block, at, left);
    true
}

/// Moves the last `left` bytes of a block to place `at`, with zeros behind them.
fn close_up(block: &mut Block, at: usize, left: usize)
    requires { at + left ≤ 512 }
    ensures { block.new ≡ take at block.old ++ (drop (512 - left) block.old
        ++ replicate (512 - at - left) 0) }
{
    block.copy_within(BLOCK_SIZE - left.., at);
    block[at + left..].fill(0);
}

/// The block with another number in the entry of this name.
pub fn replaced(block: &Block, name: &Name, number: u32) -> Block
    requires directory { IsDirectoryBlock block.now (entries_of block.now) }
    requires listed { IsSome (number_in name.now (entries_of block.now)) }
    requires above { 0 < number }
    ensures block { IsDirectoryBlock result (renumbered name.now number (entries_of block.now)) }
    ensures listed { entries_of result ≡ renumbered name.now number (entries_of block.now) }
{
    let wanted = name.as_bytes();
    let mut other = [0; BLOCK_SIZE];
    let mut end = 0;
    for (old, name) in entries(block) {
        let given = number_for(name, wanted, old, number);
        end = push_entry(&mut other, end, given, name);
    }
    other
}

/// The number of an entry of this name, where the entry of the name wanted gets another.
fn number_for(name: &[u8], wanted: &[u8], old: u32, number: u32) -> u32
    ensures { result ≡ (with_number wanted.now number (old, name.now)).0 }
{
    if name == wanted { number } else { old }
}

/// How many bytes the entries of a directory block take: those before the zeros at its end, as no name ends in a zero.
fn used(block: &Block) -> usize
    requires { IsDirectoryBlock block.now (entries_of block.now) }
    ensures value { result ≡ used_of (entries_of block.now) }
    ensures small { result ≤ 512 }
{
    without_zeros(without_groups(block)).len()
}

/// The bytes before as many groups of eight zeros as stand at the end. A group is read as one number.
fn without_groups(bytes: &[u8]) -> &[u8]
    ensures { (n : ℕ) × (bytes.now ≡ result.now ++ replicate n 0) }
{
    let mut front = bytes;
    while let Some((rest, group)) = front.split_last_chunk::<8>() {
        if u64::from_be_bytes(*group) != 0 {
            return front;
        }
        front = rest;
    }
    front
}

/// The bytes before the zeros at the end.
fn without_zeros(bytes: &[u8]) -> &[u8]
    ensures zeros { (n : ℕ) × (bytes.now ≡ result.now ++ replicate n 0) }
    ensures last { 0 < slice_index_or result.now (length result.now - 1) 1 }
{
    let mut front = bytes;
    while let Some((last, rest)) = front.split_last() {
        if *last != 0 {
            return front;
        }
        front = rest;
    }
    front
}

/// Writes an entry behind the entries of a directory block, which end at `end`. Returns where they end
/// then.
fn push_entry(block: &mut Block, end: usize, number: u32, name: &[u8]) -> usize
    requires directory { IsDirectoryBlock block.old (entries_of block.old) }
    requires at_end { end ≡ used_of (entries_of block.old) }
    requires room { end + 5 + length name.now ≤ 512 }
    requires entry { IsEntry (number, name.now) }
    requires new_name { number_in name.now (entries_of block.old) ≡ None }
    ensures block { IsDirectoryBlock block.new (entries_of block.old ++ (number, name.now) ∷ []) }
    ensures listed { entries_of block.new ≡ entries_of block.old ++ (number, name.now) ∷ [] }
    ensures end { result ≡ end + 5 + length name.now }
{
    write_entry(&mut block[end..], number, name);
    end + HEAD_SIZE + name.len()
}

/// Writes the bytes of an entry over the front of others.
fn write_entry(out: &mut [u8], number: u32, name: &[u8])
    requires room { 5 + length name.now ≤ length out.old }
    requires short { length name.now < 256 }
    ensures { out.new ≡ entry_bytes (number, name.now) ++ drop (5 + length name.now) out.old }
{
    BigEndian::write_u32(out, number);
    out[HEAD_SIZE - 1] = name.len() as u8;
    out[HEAD_SIZE..HEAD_SIZE + name.len()].copy_from_slice(name);
}
