//! Writing all that waits into the log.

ghost use Rattle.std.specs.Prelude.{◌≡◌, ◌≢◌, ◌+◌, ◌<◌, ◌≤◌, ◌∷◌, [], ℕ, All, List, length, replicate, false, true, ◌-◌};
ghost use Rattle.lfs_cache.specs.declared.key.Key.{Key};
ghost use Rattle.lfs_cache.specs.Contents.{IsLocked};
ghost use Rattle.lfs_cache.specs.Keys.{same_key};
ghost use Rattle.lfs_segments.specs.declared.entry.SummaryEntry.{SummaryEntry};
ghost use Rattle.lfs_segments.specs.declared.summary.TheConstants.{ENTRY_LIMIT};
ghost use Rattle.lfs_segments.specs.Entry.{IsEntry};
ghost use Rattle.lfs_segments.specs.Log.{Expects, Extends};
ghost use Rattle.lfs_segments.specs.Memory.{block_at, next_address, room_of};
ghost use Rattle.lfs_segments.specs.Serial.{IsSummaryWith};
ghost use Rattle.lfs_recovery.specs.Whole.{has_record};
ghost use Rattle.lfs_bmap.specs.Blocks.{IsFileBlock, code_of, way_to};
ghost use Rattle.lfs_bmap.specs.Ways.{way_of};
ghost use Rattle.lfs_segwrite.specs.Collecting.{blocks_of_entries, entries_of, inode_blocks};
ghost use Rattle.lfs_segwrite.specs.Flushing.{Flushes};
ghost use Rattle.lfs_segwrite.specs.Landing.{ExpectsBlock};
ghost use Rattle.lfs_parts.specs.Opening.{inodes_entry};
ghost use Rattle.lfs_segwrite.specs.Recording.{Advances, AreNoted, entry_at_version};
ghost use Rattle.lfs_staging.specs.Staging.{IsStaged};
ghost use Rattle.lfs_parts.specs.Store.{IsFlushed};
ghost use Rattle.lfs_parts.specs.View.{key_of, version_of};

use crate::collecting::{blocks_to_write, to_land};
use crate::landing::land_block;
use crate::records::land_records;
use lfs_bmap::blocks::FileBlock;
use lfs_parts::parts::Parts;
use lfs_segments::entry::SummaryEntry;

/// Writes all that waits at the log's end, as one partial segment: the data blocks, the children of
/// double indirect blocks, the single and the double indirect blocks, then the records, four to a
/// block. The active segment must have room for it. Where nothing waits, nothing is written.
pub fn flush(parts: &mut Parts)
    requires staged { IsStaged parts.old 0 }
    requires ready { Expects parts.old.log.memory [] }
    requires room { blocks_of_entries (entries_of parts.old) ≤ room_of parts.old.log.memory }
    ensures { Flushes parts.old parts.new }
{
    if blocks_to_write(parts) == 0 {
        return;
    }
    let list = to_land(parts);
    begin_partial(parts, list.as_slice());
    land_blocks(parts, list.as_slice());
    land_all_records(parts);
}

/// Begins a partial segment of the blocks of some entries, 1 to 40 of them, for which there is
/// room: writes their summary at the log's end.
fn begin_partial(parts: &mut Parts, entries: &[SummaryEntry])
    requires staged { IsStaged parts.old 0 }
    requires ready { Expects parts.old.log.memory [] }
    requires some { 0 < length entries.now }
    requires at_most { length entries.now ≤ ENTRY_LIMIT }
    requires fit { length entries.now < room_of parts.old.log.memory }
    requires named { All IsEntry entries.now }
    ensures staged { IsStaged parts.new 0 }
    ensures advances { (from : ℕ) → from ≤ next_address parts.old.log.memory
        → Advances from parts.old parts.new }
    ensures expects { Expects parts.new.log.memory entries.now }
    ensures next { next_address parts.new.log.memory ≡ next_address parts.old.log.memory + 1 }
    ensures cache { parts.new.cache ≡ parts.old.cache }
    ensures waiting { parts.new.waiting ≡ parts.old.waiting }
    ensures extends { Extends parts.old.log.memory parts.new.log.memory }
    ensures summary { IsSummaryWith parts.old.log.memory.serial
        (block_at parts.new.log.memory (next_address parts.old.log.memory))
        parts.old.log.memory.active parts.old.log.memory.fill entries.now }
{
    parts.log.begin(entries);
}

/// Writes the data blocks and the indirect blocks that wait, of which these are the entries, in
/// their order.
fn land_blocks(parts: &mut Parts, entries: &[SummaryEntry])
    requires staged { IsStaged parts.old 0 }
    requires all { entries.now ≡ entries_of parts.old }
    requires expected { Expects parts.old.log.memory (entries_of parts.old) }
    ensures staged { IsStaged parts.new 0 }
    ensures advances { (from : ℕ) → from ≤ next_address parts.old.log.memory
        → Advances from parts.old parts.new }
    ensures no_frame { parts.new.cache.locked ≡ [] }
    ensures waiting { length parts.new.waiting ≡ length parts.old.waiting }
    ensures next { next_address parts.new.log.memory
        ≡ next_address parts.old.log.memory + length parts.old.cache.locked }
    ensures expects { Expects parts.new.log.memory
        (replicate (inode_blocks (length parts.new.waiting)) inodes_entry) }
{
    let blocks = parts.cache.locked_count();
    for entry in &entries[..blocks] {
        land_waiting(parts, entry.number, FileBlock::from_logical(entry.block));
    }
}

/// Writes a block of a file that waits at the log's end, which expects it. A block that holds
/// addresses is written when none of the blocks waits any more that have them.
fn land_waiting(parts: &mut Parts, number: u32, block: FileBlock)
    requires staged { IsStaged parts.old 0 }
    requires block { IsFileBlock block }
    requires other { code_of block ≢ 0 }
    requires waits { IsLocked (key_of number (version_of parts.old number) (code_of block))
        parts.old.cache }
    requires free { (key : Key) → IsLocked key parts.old.cache → key.ino ≡ number
        → (i : ℕ) → way_of key.lbn.0 ≡ i ∷ way_to block → ⊥ }
    requires expected { ExpectsBlock parts.old.log.memory
        (entry_at_version parts.old number block) }
    ensures staged { IsStaged parts.new 0 }
    ensures advances { (from : ℕ) → from ≤ next_address parts.old.log.memory
        → Advances from parts.old parts.new }
    ensures expects { (rest : List SummaryEntry)
        → Expects parts.old.log.memory (entry_at_version parts.old number block ∷ rest)
        → Expects parts.new.log.memory rest }
    // It waits no more, and what else waits still does.
    ensures gone { IsLocked (key_of number (version_of parts.old number) (code_of block))
        parts.new.cache → ⊥ }
    ensures others { (key : Key)
        → same_key (key_of number (version_of parts.old number) (code_of block)) key ≡ false
        → IsLocked key parts.old.cache → IsLocked key parts.new.cache }
    ensures only { (key : Key) → IsLocked key parts.new.cache → IsLocked key parts.old.cache }
    ensures waiting { length parts.new.waiting ≡ length parts.old.waiting }
    ensures next { next_address parts.new.log.memory ≡ next_address parts.old.log.memory + 1 }
{
    let inode = parts.record_in_use(number);
    land_block(parts, &inode, block);
}

/// Writes the records that wait, four to a block.
fn land_all_records(parts: &mut Parts)
    requires staged { IsStaged parts.old 0 }
    requires no_frame { parts.old.cache.locked ≡ [] }
    requires expected { Expects parts.old.log.memory
        (replicate (inode_blocks (length parts.old.waiting)) inodes_entry) }
    ensures staged { IsStaged parts.new 0 }
    ensures flushed { IsFlushed parts.new }
    ensures advances { (from : ℕ) → from ≤ next_address parts.old.log.memory
        → Advances from parts.old parts.new }
    ensures ready { Expects parts.new.log.memory [] }
    ensures next { next_address parts.new.log.memory
        ≡ next_address parts.old.log.memory + inode_blocks (length parts.old.waiting) }
    ensures last { 0 < length parts.old.waiting
        → has_record parts.new.log.memory (next_address parts.new.log.memory - 1) ≡ true }
    ensures noted { AreNoted parts.new (next_address parts.old.log.memory) }
{
    while !parts.waiting.is_empty() {
        land_records(parts);
    }
}
