//! What waits to be written, in the order in which it is written.

ghost use Rattle.std.specs.Prelude.{◌≡◌, ◌≤◌, ◌+◌, ◌++◌, ◌↔◌, All, length, map, replicate};
ghost use Rattle.std.specs.List.{filter};
ghost use Rattle.lfs_cache.specs.Contents.{keys_of};
ghost use Rattle.lfs_segments.specs.Entry.{IsEntry};
ghost use Rattle.lfs_segments.specs.declared.summary.TheConstants.{ENTRY_LIMIT};
ghost use Rattle.lfs_segwrite.specs.Collecting.{AreLocked, blocks_of_entries, entries_of, entry_of, in_order, inode_blocks, is_of};
ghost use Rattle.lfs_parts.specs.Opening.{inodes_entry};
ghost use Rattle.lfs_parts.specs.Store.{AreFiles, IsBlockCode, IsFlushed};
ghost use Rattle.lfs_cache.specs.declared.key.Key.{Key};
ghost use Rattle.lfs_parts.specs.declared.records.TheConstants.{WAITING_LIMIT};

use arrayvec::ArrayVec;
use lfs_bmap::blocks::FileBlock;
use lfs_bmap::tables::{RANKS, rank};
use lfs_cache::Key;
use lfs_log::packing::SLOT_COUNT;
use lfs_parts::parts::Parts;
use lfs_segments::entry::{LogicalBlock, SummaryEntry};
use lfs_segments::summary::ENTRY_LIMIT;

/// At most 40 entries, which lie in the value itself.
pub type EntryList = ArrayVec<SummaryEntry, ENTRY_LIMIT>;

/// Adds the entries of the blocks among some keys that are written in a turn.
fn push_keys(list: &mut EntryList, keys: &[Key], turn: u32)
    requires coded { All (λ (key : Key). IsBlockCode key.lbn.0) keys.now }
    requires room { length list.old.items + length (filter (is_of turn) keys.now) ≤ ENTRY_LIMIT }
    ensures { list.new.items ≡ list.old.items ++ map entry_of (filter (is_of turn) keys.now) }
{
    for key in keys {
        if rank(key.lbn.0) == turn {
            list.push(entry_of(key));
        }
    }
}

/// Adds so many entries of inode blocks.
fn push_inodes(list: &mut EntryList, blocks: usize)
    requires { length list.old.items + blocks ≤ ENTRY_LIMIT }
    ensures { list.new.items ≡ list.old.items ++ replicate blocks inodes_entry }
{
    for _ in 0..blocks {
        list.push(SummaryEntry {
            number: 0,
            version: 0,
            block: LogicalBlock::Inodes,
        });
    }
}

/// How many inode blocks so many records take.
pub(crate) fn inode_blocks(records: usize) -> usize
    requires { records ≤ WAITING_LIMIT }
    ensures { result ≡ inode_blocks records }
{
    records.div_ceil(SLOT_COUNT)
}

/// What a summary says of the block of a key.
fn entry_of(key: &Key) -> SummaryEntry
    requires { IsBlockCode key.now.lbn.0 }
    ensures { result ≡ entry_of key.now }
{
    match FileBlock::from_code(key.lbn.0) {
        Some(block) => SummaryEntry {
            number: key.ino,
            version: key.version,
            block: block.logical(),
        },
        // Never: the code is a block's, as is required.
        None => unreachable!(),
    }
}

/// The entries of all that waits to be written, in the order in which it is written: data blocks,
/// then the indirect blocks, each before what holds its address, then an inode block for each four
/// records.
pub fn to_land(parts: &Parts) -> EntryList
    requires files { AreFiles parts.now }
    requires few { length parts.now.waiting ≤ WAITING_LIMIT }
    ensures entries { result.items ≡ entries_of parts.now }
    ensures valid { All IsEntry result.items }
    ensures fits { length result.items ≤ ENTRY_LIMIT }
    // The blocks are those that wait, each once.
    ensures blocks { AreLocked (in_order (keys_of parts.now.cache.locked)) parts.now.cache }
{
    let keys = parts.cache.locked();
    let mut list = EntryList::new();
    for turn in 0..RANKS {
        push_keys(&mut list, keys, turn);
    }
    push_inodes(&mut list, inode_blocks(parts.waiting.len()));
    list
}

/// How many blocks of the log what waits takes, its summary among them: none where nothing waits.
pub fn blocks_to_write(parts: &Parts) -> u32
    requires few { length parts.now.waiting ≤ WAITING_LIMIT }
    ensures blocks { result ≡ blocks_of_entries (entries_of parts.now) }
    ensures at_most { result ≤ ENTRY_LIMIT + 1 }
    ensures none { (result ≡ 0) ↔ IsFlushed parts.now }
{
    let blocks = parts.cache.locked_count() + inode_blocks(parts.waiting.len());
    if blocks == 0 { 0 } else { blocks as u32 + 1 }
}
