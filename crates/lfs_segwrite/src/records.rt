//! Writing the records that wait into the log.

ghost use Rattle.std.specs.Prelude.{◌≡◌, ◌+◌, ◌-◌, ◌<◌, ◌≤◌, ◌∷◌, ◌++◌, [], ℕ, List, length, take, true};
ghost use Rattle.lfs_inodes.specs.declared.inode.Inode.{Inode};
ghost use Rattle.lfs_segments.specs.declared.entry.SummaryEntry.{SummaryEntry};
ghost use Rattle.lfs_segments.specs.Log.{Expects};
ghost use Rattle.lfs_segments.specs.Memory.{next_address};
ghost use Rattle.lfs_recovery.specs.Whole.{has_record};
ghost use Rattle.lfs_segwrite.specs.Landing.{ExpectsBlock};
ghost use Rattle.lfs_parts.specs.Opening.{inodes_entry};
ghost use Rattle.lfs_segwrite.specs.Recording.{Advances, AreNoted, StandsAt};
ghost use Rattle.lfs_staging.specs.Staging.{IsStaged};

use crate::landing::append_block;
use lfs_log::packing::{SLOT_COUNT, packed};
use lfs_parts::parts::Parts;

/// Takes the last record that waits off the list. The log has it in a slot of the block at an
/// address, and that is its place now.
fn note_landed(parts: &mut Parts, address: u32, slot: u16)
    requires staged { IsStaged parts.old 128 }
    requires no_frame { parts.old.cache.locked ≡ [] }
    requires some { 0 < length parts.old.waiting }
    requires stands { (front : List Inode) (v : Inode)
        → parts.old.waiting ≡ front ++ v ∷ [] → StandsAt parts.old v address slot }
    ensures staged { (spare : ℕ) → IsStaged parts.old (spare + 128) → IsStaged parts.new spare }
    ensures advances { (from : ℕ) → from ≤ address → Advances from parts.old parts.new }
    ensures waiting { parts.new.waiting
        ≡ take (length parts.old.waiting - 1) parts.old.waiting }
    ensures cache { parts.new.cache ≡ parts.old.cache }
    ensures memory { parts.new.log.memory ≡ parts.old.log.memory }
{
    let inode = parts.waiting.pop();
    parts.log.place_record(inode.number, address, slot);
}

/// Writes the last of the records that wait, at most four, into one block at the log's end, which
/// expects it. They wait no more.
pub(crate) fn land_records(parts: &mut Parts)
    requires staged { IsStaged parts.old 0 }
    requires no_frame { parts.old.cache.locked ≡ [] }
    requires some { 0 < length parts.old.waiting }
    requires expected { ExpectsBlock parts.old.log.memory inodes_entry }
    ensures staged { IsStaged parts.new 0 }
    ensures advances { (from : ℕ) → from ≤ next_address parts.old.log.memory
        → Advances from parts.old parts.new }
    ensures waiting { length parts.new.waiting ≡ length parts.old.waiting - 4 }
    ensures cache { parts.new.cache ≡ parts.old.cache }
    ensures next { next_address parts.new.log.memory ≡ next_address parts.old.log.memory + 1 }
    ensures expects { (rest : List SummaryEntry)
        → Expects parts.old.log.memory (inodes_entry ∷ rest) → Expects parts.new.log.memory rest }
    ensures first { has_record parts.new.log.memory (next_address parts.old.log.memory) ≡ true }
    ensures noted { AreNoted parts.new (next_address parts.old.log.memory) }
{
    let first = parts.waiting.len().saturating_sub(SLOT_COUNT);
    let oldest = parts.waiting.oldest();
    let block = packed(oldest.as_slice());
    let address = append_block(parts, &block);
    while parts.waiting.len() > first {
        let slot = parts.waiting.len() - 1 - first;
        note_landed(parts, address, slot as u16);
    }
}
