//! Writing what waits into the log.

ghost use Rattle.std.specs.Prelude.{◌≡◌, ◌+◌, ◌*◌, ◌≤◌, ◌∷◌, ℕ, length, List, Some, false};
ghost use Rattle.lfs_inodes.specs.declared.inode.Inode.{Inode};
ghost use Rattle.lfs_cache.specs.declared.key.Key.{Key};
ghost use Rattle.lfs_cache.specs.Contents.{IsLocked, block_in};
ghost use Rattle.lfs_cache.specs.Keys.{same_key};
ghost use Rattle.lfs_segments.specs.declared.entry.SummaryEntry.{SummaryEntry};
ghost use Rattle.lfs_segments.specs.Log.{Expects, Extends, entry_at};
ghost use Rattle.lfs_segments.specs.Memory.{next_address};
ghost use Rattle.lfs_log.specs.Parts.{IsParts};
ghost use Rattle.lfs_bmap.specs.Log.{IsLog};
ghost use Rattle.lfs_parts.specs.Keys.{log_state};
ghost use Rattle.lfs_bmap.specs.Blocks.{code_of};
ghost use Rattle.lfs_parts.specs.Files.{content_of};
ghost use Rattle.lfs_staging.specs.Addressing.{StaysWaiting};
ghost use Rattle.lfs_segwrite.specs.Landing.{ExpectsBlock, ExpectsSome, LandsBlock, MayLand, AppendsBlock, GetsPlace, entry_of};
ghost use Rattle.lfs_parts.specs.Store.{AreFiles};
ghost use Rattle.lfs_parts.specs.View.{key_of};

use lfs_bmap::blocks::FileBlock;
use lfs_cache::{BlockCode, Key};
use lfs_inodes::inode::Inode;
use lfs_parts::parts::Parts;
use lfs_segments::entry::SummaryEntry;
use lfs_staging::addressing::set_address;
use lfs_types::block::Block;

/// Writes a block that waits at the log's end, which expects one, and gives its address.
fn append_waiting(parts: &mut Parts, key: Key) -> u32
    requires parts { IsParts parts.old.log }
    requires log { IsLog (log_state parts.old) 0 }
    requires expected { ExpectsSome parts.old.log.memory }
    requires waits { IsLocked key parts.old.cache }
    ensures put { (bytes : List ℕ) → block_in key parts.old.cache.locked ≡ Some bytes
        → AppendsBlock parts.old parts.new result bytes }
    ensures named { (entry : SummaryEntry) (rest : List SummaryEntry)
        → Expects parts.old.log.memory (entry ∷ rest)
        → entry_at parts.new.log.memory result ≡ Some entry }
    ensures next { next_address parts.new.log.memory ≡ next_address parts.old.log.memory + 1 }
    ensures extends { Extends parts.old.log.memory parts.new.log.memory }
    ensures expects { (entry : SummaryEntry) (rest : List SummaryEntry)
        → Expects parts.old.log.memory (entry ∷ rest) → Expects parts.new.log.memory rest }
    ensures kept { IsParts parts.new.log }
{
    match parts.cache.dirty(key) {
        Some(bytes) => parts.log.put(bytes),
        // Never: by `waits`.
        None => unreachable!(),
    }
}

/// Writes a block at the log's end, which expects one, and gives its address.
pub(crate) fn append_block(parts: &mut Parts, bytes: &Block) -> u32
    requires parts { IsParts parts.old.log }
    requires log { IsLog (log_state parts.old) 0 }
    requires expected { ExpectsSome parts.old.log.memory }
    ensures put { AppendsBlock parts.old parts.new result bytes.now }
    ensures named { (entry : SummaryEntry) (rest : List SummaryEntry)
        → Expects parts.old.log.memory (entry ∷ rest)
        → entry_at parts.new.log.memory result ≡ Some entry }
    ensures next { next_address parts.new.log.memory ≡ next_address parts.old.log.memory + 1 }
    ensures extends { Extends parts.old.log.memory parts.new.log.memory }
    ensures expects { (entry : SummaryEntry) (rest : List SummaryEntry)
        → Expects parts.old.log.memory (entry ∷ rest) → Expects parts.new.log.memory rest }
    ensures kept { IsParts parts.new.log }
{
    parts.log.put(bytes)
}

/// Writes a block of a file that waits to the log's end, which expects it, and gives its address.
/// The address is set in what holds it, the live bytes move, and the block waits no more: its frame
/// stays, clean.
pub fn land_block(parts: &mut Parts, inode: &Inode, block: FileBlock) -> u32
    requires files { AreFiles parts.old }
    requires log { IsLog (log_state parts.old) 0 }
    requires may_land { MayLand parts.old inode.now block }
    requires expected { ExpectsBlock parts.old.log.memory (entry_of inode.now block) }
    ensures address { result ≡ next_address parts.old.log.memory }
    ensures landed { LandsBlock parts.old parts.new inode.now block result }
    ensures place { GetsPlace parts.old parts.new inode.now.number (code_of block) result
        (4 * result) }
    ensures log { IsLog (log_state parts.new) 0 }
    ensures expects { (rest : List SummaryEntry)
        → Expects parts.old.log.memory (entry_of inode.now block ∷ rest)
        → Expects parts.new.log.memory rest }
    ensures waiting { StaysWaiting parts.old parts.new inode.now }
    ensures files { AreFiles parts.new }
    ensures content { content_of parts.new ≡ content_of parts.old }
    // What else waits still does.
    ensures frames { (key : Key) → same_key (key_of inode.now.number inode.now.version
        (code_of block)) key ≡ false → IsLocked key parts.old.cache → IsLocked key parts.new.cache }
    ensures only { (key : Key) → IsLocked key parts.new.cache → IsLocked key parts.old.cache }
    ensures fewer { length parts.new.cache.locked ≤ length parts.old.cache.locked }
{
    let from = parts.address_of(inode, block);
    let key = Key {
        ino: inode.number,
        version: inode.version,
        lbn: BlockCode(block.code()),
    };
    let to = append_waiting(parts, key);
    set_address(parts, inode, block, to);
    parts.log.move_live(block, from, to);
    parts.cache.settle(key);
    to
}
