//! Numbers that are given out and taken back, and the empty file of a new one.

ghost use Rattle.std.specs.Prelude.{◌≡◌, ◌==◌, ◌+◌, ◌<◌, ◌≤◌, ℕ, [], Some, if◌then◌else◌, length, true, false};
ghost use Rattle.std.specs.FinMap.{insert, remove};
ghost use Rattle.lfs_cache.specs.Contents.{IsLocked};
ghost use Rattle.lfs_cache.specs.declared.cache.TheConstants.{LOCKED_LIMIT};
ghost use Rattle.lfs_cache.specs.declared.key.Key.{Key};
ghost use Rattle.lfs_ifile.specs.Inode.{raised_version};
ghost use Rattle.lfs_ifile.specs.Tables.{row_of};
ghost use Rattle.lfs_inodes.specs.Reading.{Fields};
ghost use Rattle.lfs_staging.specs.Changing.{StaysInLog};
ghost use Rattle.lfs_parts.specs.Files.{content_of};
ghost use Rattle.lfs_staging.specs.Staging.{IsStaged};
ghost use Rattle.lfs_parts.specs.View.{record_of, version_of};
ghost use Rattle.lfs_parts.specs.Waiting.{KeepsOtherRecords, without};
ghost use Rattle.lfs_staging.specs.declared.cutting.TheConstants.{CUT_FRAMES};
ghost use Rattle.lfs_parts.specs.declared.records.TheConstants.{WAITING_LIMIT};
ghost use Rattle.lfs_types.specs.Tree.{file_of};
ghost use Rattle.lfs_types.specs.declared.limits.TheConstants.{FIRST_INODE};

use crate::cutting::set_length;
use crate::staging::stage_record;
use lfs_inodes::inode::Inode;
use lfs_parts::parts::Parts;
use lfs_types::attrs::Attrs;

/// Gives a free number, at least 4, to an empty file of these attributes. Its record waits.
pub fn make(parts: &mut Parts, ino: u32, attrs: &Attrs)
    requires staged { IsStaged parts.old 0 }
    requires least { FIRST_INODE ≤ ino }
    requires in_range { ino < length parts.old.log.tables.rows }
    requires free { (row_of parts.old.log.tables ino).used ≡ false }
    requires records { length parts.old.waiting < WAITING_LIMIT }
    ensures staged { IsStaged parts.new 0 }
    ensures content { content_of parts.new
        ≡ insert (content_of parts.old) ino (file_of attrs.now []) }
    ensures log { StaysInLog parts.old parts.new }
    ensures versions { (n : ℕ) → version_of parts.new n ≡ (if n == ino
        then raised_version (version_of parts.old n) else version_of parts.old n) }
    ensures cache { parts.new.cache ≡ parts.old.cache }
    ensures waiting { length parts.new.waiting ≤ length parts.old.waiting + 1 }
    ensures others { KeepsOtherRecords ino parts.old.waiting parts.new.waiting }
{
    let version = parts.log.give_out(ino);
    stage_record(parts, Inode::new(ino, version, attrs));
}

/// Takes a number in use back: its file is gone, and nothing of it waits.
pub fn remove(parts: &mut Parts, ino: u32)
    requires staged { IsStaged parts.old 0 }
    requires in_range { ino < length parts.old.log.tables.rows }
    requires in_use { (row_of parts.old.log.tables ino).used ≡ true }
    requires frames { length parts.old.cache.locked + CUT_FRAMES ≤ LOCKED_LIMIT }
    requires records { length parts.old.waiting < WAITING_LIMIT }
    ensures staged { IsStaged parts.new 0 }
    ensures content { content_of parts.new ≡ remove (content_of parts.old) ino }
    ensures log { StaysInLog parts.old parts.new }
    ensures versions { (n : ℕ) → version_of parts.new n ≡ version_of parts.old n }
    ensures frames { length parts.new.cache.locked ≤ length parts.old.cache.locked }
    ensures waiting { length parts.new.waiting ≤ length parts.old.waiting }
    // No block waits that didn't, and no other file's record.
    ensures only { (key : Key) → IsLocked key parts.new.cache → IsLocked key parts.old.cache }
    ensures others { KeepsOtherRecords ino parts.old.waiting parts.new.waiting }
{
    if parts.record_in_use(ino).size > 0 {
        set_length(parts, ino, 0);
    }
    give_back(parts, ino);
}

/// Takes back a number in use that has no block: its record waits no more, and its place is given
/// up.
fn give_back(parts: &mut Parts, ino: u32)
    requires staged { IsStaged parts.old 0 }
    requires in_range { ino < length parts.old.log.tables.rows }
    requires in_use { (row_of parts.old.log.tables ino).used ≡ true }
    requires empty { (f : Fields) → record_of parts.old ino ≡ Some f → f.attributes.size ≡ 0 }
    ensures staged { IsStaged parts.new 0 }
    ensures content { content_of parts.new ≡ remove (content_of parts.old) ino }
    ensures log { StaysInLog parts.old parts.new }
    ensures versions { (n : ℕ) → version_of parts.new n ≡ version_of parts.old n }
    ensures cache { parts.new.cache ≡ parts.old.cache }
    ensures waiting { parts.new.waiting ≡ without ino parts.old.waiting }
{
    parts.waiting.remove(ino);
    parts.log.place_record(ino, 0, 0);
    parts.log.release(ino);
}
