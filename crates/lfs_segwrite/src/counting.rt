//! How many blocks of the log it takes to write some blocks again. What several of them share counts once.

ghost use Rattle.std.specs.Prelude.{◌≡◌, ◌+◌, ◌<◌, ◌≤◌, ◌↔◌, ◌++◌, [], ◌∷◌, Any, IsTrue, length, map};
ghost use Rattle.lfs_types.specs.declared.cleaner.BlockInfo.{BlockInfo};
ghost use Rattle.lfs_types.specs.declared.cleaner.TheConstants.{MARK_LIMIT};
ghost use Rattle.lfs_bmap.specs.Blocks.{IsFileBlock, way_to};
ghost use Rattle.lfs_bmap.specs.Ways.{codes_on};
ghost use Rattle.lfs_bmap.specs.declared.tables.TheConstants.{MOST_DEPTH};
ghost use Rattle.lfs_segwrite.specs.Counting.{AddsKeys};
ghost use Rattle.lfs_segwrite.specs.Marking.{blocks_to_mark, code_named, frames_to_mark, keys_to_mark, records_to_mark};
ghost use Rattle.lfs_segwrite.specs.declared.counting.TheConstants.{KEY_LIMIT};
ghost use Rattle.lfs_parts.specs.View.{key_of};

use crate::collecting::inode_blocks;
use lfs_bmap::blocks::{BLOCK_CODES, FileBlock};
use lfs_bmap::tables::MOST_DEPTH;
use lfs_cache::{BlockCode, Key};
use lfs_segments::entry::LogicalBlock;
use lfs_types::cleaner::{BlockInfo, MARK_LIMIT};
use std::marker::Model;

/// The greatest number of blocks on the ways to those that one call names.
const KEY_LIMIT: usize = MARK_LIMIT * MOST_DEPTH;

/// What stands in a place that holds no key.
const NO_KEY: Key = Key {
    ino: 0,
    version: 0,
    lbn: BlockCode(0),
};

/// At most 24 keys, which lie in the value itself.
#[derive(Drop)]
struct KeyList {
    keys: [Key; KEY_LIMIT],
    count: usize,
}

impl Model for KeyList {
    ghost use Rattle.std.specs.Prelude.{List, ◌≡◌, ◌≤◌, length, take};
    ghost use Rattle.lfs_cache.specs.declared.key.Key.{Key};

    ghost Value = { List Key };

    ghost view = { λ l. take l.count l.keys };

    ghost invariant = { λ l. (length l.keys ≡ 24) × (l.count ≤ 24) };
}

impl KeyList {
    /// A list of no keys.
    fn empty() -> KeyList
        ensures { result ≡ [] }
    {
        KeyList {
            keys: [NO_KEY; KEY_LIMIT],
            count: 0,
        }
    }

    /// The keys, in order.
    fn keys(&self) -> &[Key]
        ensures keys { result.now ≡ self.now }
        ensures fits { length self.now ≤ KEY_LIMIT }
    {
        &self.keys[..self.count]
    }

    /// Adds a key behind the others. There must be room.
    fn push(&mut self, key: Key)
        requires { length self.old < KEY_LIMIT }
        ensures { self.new ≡ self.old ++ key ∷ [] }
    {
        self.keys[self.count] = key;
        self.count += 1;
    }

    /// Adds a key where it isn't there.
    fn add(&mut self, key: Key)
        requires room { length self.old < KEY_LIMIT }
        ensures { AddsKeys (key ∷ []) self.old self.new }
    {
        if !self.keys().contains(&key) {
            self.push(key);
        }
    }

    /// Adds the keys of the blocks that lead from the record of a number to a block, itself among them.
    fn add_way(&mut self, ino: u32, version: u32, block: FileBlock)
        requires block { IsFileBlock block }
        requires room { length self.old + length (way_to block) ≤ KEY_LIMIT }
        ensures { AddsKeys (map (key_of ino version) (codes_on (way_to block))) self.old self.new }
    {
        if let Some(cell) = block.cell() {
            let lbn = block.code();
            self.add(Key {
                ino,
                version,
                lbn: BlockCode(lbn),
            });
            self.add_way(ino, version, cell.table);
        }
    }

    /// Adds those of the block that an info names.
    fn add_info(&mut self, info: &BlockInfo)
        requires room { length self.old + MOST_DEPTH ≤ KEY_LIMIT }
        ensures { AddsKeys (keys_to_mark info.now) self.old self.new }
    {
        if let Some(block) = FileBlock::from_code(code_named(info.lbn)) {
            self.add_way(info.ino, info.version, block);
        }
    }
}

/// The code of the block that a logical block number names; `BLOCK_CODES` where no file can have such
/// a block.
pub(crate) fn code_named(lbn: u32) -> u32
    ensures { result ≡ code_named lbn }
{
    match LogicalBlock::from_number(lbn) {
        Some(block) => FileBlock::from_logical(block).code(),
        None => BLOCK_CODES,
    }
}

/// How many frames the blocks that some infos name take at most: one for each block on the ways to them.
fn frames_to_mark(named: &[BlockInfo]) -> usize
    requires { length named.now ≤ MARK_LIMIT }
    ensures frames { result ≡ frames_to_mark named.now }
    ensures few { result ≤ KEY_LIMIT }
{
    let mut keys = KeyList::empty();
    for info in named {
        keys.add_info(info);
    }
    keys.keys().len()
}

/// Whether an info has a number.
fn has_number(infos: &[BlockInfo], number: u32) -> bool
    ensures { IsTrue result ↔ Any (λ (info : BlockInfo). info.ino ≡ number) infos.now }
{
    infos.iter().any(|info| info.ino == number)
}

/// How many records these blocks take at most: one for each number.
fn records_to_mark(named: &[BlockInfo]) -> usize
    ensures records { result ≡ records_to_mark named.now }
    ensures few { result ≤ length named.now }
{
    let mut records = 0;
    for index in 0..named.len() {
        if !has_number(&named[..index], named[index].ino) {
            records += 1;
        }
    }
    records
}

/// How many blocks of the log the blocks of some infos take at most, with their summary and the
/// records that lead to them.
pub(crate) fn blocks_to_mark(named: &[BlockInfo]) -> u32
    requires { length named.now ≤ MARK_LIMIT }
    ensures blocks { result ≡ blocks_to_mark named.now }
    ensures few { result ≤ 27 }
    ensures frames { frames_to_mark named.now ≤ 24 }
{
    (frames_to_mark(named) + inode_blocks(records_to_mark(named)) + 1) as u32
}
