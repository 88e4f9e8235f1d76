//! The entries of a block, and whether it is a directory block.

ghost use Rattle.std.specs.Prelude.{◌≡◌, ℕ, ◌≤◌, ◌↔◌, List, [], All, None, IsTrue, MatchOption, length};
ghost use Rattle.std.specs.Str.{bytes_eq};
ghost use Rattle.lfs_types.specs.Naming.{name_fault};
ghost use Rattle.lfs_dirs.specs.Directory.{IsDirectoryBlock, number_in};
ghost use Rattle.lfs_dirs.specs.Reading.{StandsBehind, StandsFirst, entries_of};

use lfs_types::block::Block;
use lfs_types::name::{NAME_MAX, Name};
use std::marker::Model;

/// The bytes of an entry before those of its name: the number and the name's length.
pub(crate) const HEAD_SIZE: usize = 5;

/// The entries of a block that are left, each as its number, above 0, and the 1 to 255 bytes of its name.
#[derive(Debug, Drop)]
pub struct BlockEntries<'a> {
    rest: &'a [u8],
}

impl<'a> Model for BlockEntries<'a> {
    ghost use Rattle.std.specs.Prelude.{List, ℕ};
    ghost use Rattle.lfs_dirs.specs.Reading.{entries_of};

    ghost Value = { List (ℕ × List ℕ) };

    ghost view = { λ e. entries_of e.rest.now };
}

impl<'a> Iterator for BlockEntries<'a> {
    type Item = (u32, &'a [u8]);

    ghost use Rattle.std.specs.Iterator.{YieldsFirstBy, item_count};

    ghost next_gives = { YieldsFirstBy (λ e. (e.0, e.1.now)) (λ s. s) };

    ghost remaining = { item_count (λ s. s) };

    fn next(&mut self) -> Option<(u32, &'a [u8])> {
        let (number, name, rest) = first_entry(self.rest)?;
        self.rest = rest;
        Some((number, name))
    }
}

/// The entries of a block in order, up to the first place that is no entry: where fewer than five bytes
/// are left, the number is 0, the name's length is 0 or the name runs over the end. The names of a block
/// that is no directory block may be any bytes.
pub fn entries(block: &Block) -> BlockEntries<'_>
    ensures value { result ≡ entries_of block.now }
    // An entry takes at least six bytes.
    ensures few { length result ≤ 85 }
{
    BlockEntries { rest: block }
}

/// The number of the first entry of this name, among those that `entries` gives.
pub fn find(block: &Block, name: &Name) -> Option<u32>
    ensures { result ≡ number_in name.now (entries_of block.now) }
{
    number_among(entries(block), name.as_bytes())
}

/// Whether the block is a directory block (this project's profile): entries with names of which none
/// stands twice, one behind the other, and zeros after them.
pub fn is_directory_block(block: &Block) -> bool
    ensures test { IsTrue result ↔ IsDirectoryBlock block.now (entries_of block.now) }
    // A block has one list of entries, and a list has one block.
    ensures one_list { (es : List (ℕ × List ℕ)) → IsDirectoryBlock block.now es
        → entries_of block.now ≡ es }
    ensures one_block { IsTrue result → (other : List ℕ)
        → IsDirectoryBlock other (entries_of block.now) → other ≡ block.now }
{
    let mut rest: &[u8] = block;
    while let Some((_, name, others)) = first_entry(rest) {
        if !is_name(name) || number_among(BlockEntries { rest: others }, name).is_some() {
            return false;
        }
        rest = others;
    }
    are_zeros(rest)
}

/// The entry that the bytes begin with, as its number and its name, and the bytes after it.
fn first_entry(bytes: &[u8]) -> Option<(u32, &[u8], &[u8])>
    ensures { MatchOption result (entries_of bytes.now ≡ [])
        (λ e. StandsFirst bytes.now (e.0, e.1.now) e.2.now) }
{
    let (head, rest) = bytes.split_first_chunk::<HEAD_SIZE>()?;
    let [a, b, c, d, name_length] = *head;
    let number = u32::from_be_bytes([a, b, c, d]);
    let name_length = usize::from(name_length);
    if number == 0 || name_length == 0 || rest.len() < name_length {
        return None;
    }
    let (name, rest) = rest.split_at(name_length);
    Some((number, name, rest))
}

/// The bytes behind the first entry of this name.
pub(crate) fn behind<'a>(block: &'a Block, name: &[u8]) -> Option<&'a [u8]>
    ensures { MatchOption result (number_in name.now (entries_of block.now) ≡ None)
        (λ rest. StandsBehind block.now name.now rest.now) }
{
    let mut rest: &[u8] = block;
    while let Some((_, found, others)) = first_entry(rest) {
        if is_same(found, name) {
            return Some(others);
        }
        rest = others;
    }
    None
}

/// The number of the first of the entries that has this name.
fn number_among(mut entries: BlockEntries<'_>, name: &[u8]) -> Option<u32>
    ensures { result ≡ number_in name.now entries.entry }
{
    let (number, _) = entries.find(|entry| is_same(entry.1, name))?;
    Some(number)
}

/// Whether two names are the same. Names that are made one after the other often differ in their last bytes alone, so
/// these are compared first.
fn is_same(found: &[u8], name: &[u8]) -> bool
    ensures { result ≡ bytes_eq found.now name.now }
{
    found.len() == name.len() && found.last() == name.last() && found == name
}

/// Whether the bytes are a name.
fn is_name(bytes: &[u8]) -> bool
    ensures { IsTrue result ↔ (name_fault bytes.now ≡ None) }
{
    if bytes.is_empty() || bytes.len() > NAME_MAX || bytes.contains(&b'/') || bytes.contains(&0) {
        return false;
    }
    !matches!(bytes, [b'.'] | [b'.', b'.'])
}

/// Whether all bytes are 0.
pub(crate) fn are_zeros(bytes: &[u8]) -> bool
    ensures { IsTrue result ↔ All (λ b. b ≡ 0) bytes.now }
{
    bytes.iter().all(|byte| *byte == 0)
}
