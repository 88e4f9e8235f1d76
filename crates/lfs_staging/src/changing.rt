//! Changing what waits: bytes put into a file.

ghost use Rattle.std.specs.Prelude.{◌≡◌, ◌+◌, ◌*◌, ◌-◌, ◌/◌, ◌<◌, ◌≤◌, ◌^◌, ℕ, List, max, length, IfNone, IfSome, Some};
ghost use Rattle.lfs_bmap.specs.Pieces.{IsPut};
ghost use Rattle.lfs_bmap.specs.Reading.{address};
ghost use Rattle.lfs_bmap.specs.Ways.{IsBlockWay, codes_on, data_way};
ghost use Rattle.lfs_parts.specs.View.{record_of, tree_of, version_of};
ghost use Rattle.lfs_parts.specs.Waiting.{KeepsOtherRecords};
ghost use Rattle.lfs_types.specs.declared.limits.TheConstants.{FILE_BLOCKS};
ghost use Rattle.lfs_cache.specs.declared.cache.TheConstants.{LOCKED_LIMIT};
ghost use Rattle.lfs_inodes.specs.Reading.{Fields};
ghost use Rattle.lfs_inodes.specs.Facts.{IsSizeOf, block_count};
ghost use Rattle.lfs_staging.specs.Putting.{Covers, GrowsTo, MayChange, MayPut, PutsBlock, PutsBytes, TakesPut, frames_of_put, with_attrs, with_put};
ghost use Rattle.lfs_parts.specs.Files.{content_of};
ghost use Rattle.lfs_staging.specs.Staging.{HasFrames, IsStaged, MayStage};

use crate::staging::{stage_data, stage_record};
use lfs_bmap::blocks::FileBlock;
use lfs_bmap::pieces::{blocks_touched, put_piece};
use lfs_inodes::inode::Inode;
use lfs_parts::parts::Parts;
use lfs_types::attrs::Attrs;
use lfs_types::block::{BLOCK_SIZE, Block};

/// A data block of a file, where all of it is among bytes put at byte `off` of the file.
fn whole_of<'a>(index: u32, off: u64, bytes: &'a [u8]) -> Option<&'a Block>
    requires { off + length bytes.now < 2 ^ 64 }
    ensures whole { IfSome result (λ block. (old : List ℕ)
        → IsPut index off bytes.now old block.now) }
    ensures part { IfNone result (Covers index off bytes.now → ⊥) }
{
    let first = BLOCK_SIZE as u64 * u64::from(index);
    let end = off + bytes.len() as u64;
    if first < off || end < first + BLOCK_SIZE as u64 {
        return None;
    }
    let from = (first - off) as usize;
    match <&Block>::try_from(&bytes[from..from + BLOCK_SIZE]) {
        Ok(block) => Some(block),
        // Never: all 512 bytes are there, by the tests above.
        Err(_) => unreachable!(),
    }
}

/// Puts bytes, at least one, into a file in use at byte `off`: they wait, with the record and the
/// indirect blocks, up to two for each, that lead to them. The file grows where they reach past its size, and between
/// its size and `off` it has zeros.
pub fn put(parts: &mut Parts, ino: u32, off: u64, bytes: &[u8])
    requires may { MayChange parts.old ino }
    requires fits { MayPut parts.old ino off bytes.now }
    requires room { length parts.old.cache.locked + frames_of_put off (length bytes.now)
        ≤ LOCKED_LIMIT }
    ensures content { content_of parts.new ≡ with_put ino off bytes.now (content_of parts.old) }
    ensures log { parts.new.log ≡ parts.old.log }
    ensures addresses { (n : ℕ) (way : List ℕ) → IsBlockWay way
        → address (tree_of parts.new n) way ≡ address (tree_of parts.old n) way }
    ensures frames { length parts.new.cache.locked
        ≤ length parts.old.cache.locked + frames_of_put off (length bytes.now) }
    ensures waiting { length parts.new.waiting ≤ length parts.old.waiting + 1 }
    // What waits more is what the bytes fall into and what leads there, and the file's record.
    ensures only { TakesPut ino (version_of parts.old ino) off (length bytes.now)
        parts.old.cache parts.new.cache }
    ensures others { KeepsOtherRecords ino parts.old.waiting parts.new.waiting }
    // What holds in the middle of a call is kept.
    ensures kept { (spare : ℕ) → IsStaged parts.old spare → IsStaged parts.new spare }
{
    let inode = parts.record_in_use(ino);
    let inode = grow(parts, &inode, off + bytes.len() as u64);
    put_blocks(parts, &inode, off, bytes);
}

/// Has other attributes of a file in use wait, of its kind. Its size stays, whatever theirs is.
pub fn set_attrs(parts: &mut Parts, ino: u32, attrs: &Attrs)
    requires may { MayChange parts.old ino }
    requires kind { (f : Fields) → record_of parts.old ino ≡ Some f
        → attrs.now.kind ≡ f.attributes.kind }
    ensures content { content_of parts.new ≡ with_attrs ino attrs.now (content_of parts.old) }
    ensures log { parts.new.log ≡ parts.old.log }
    ensures cache { parts.new.cache ≡ parts.old.cache }
    ensures addresses { (n : ℕ) → tree_of parts.new n ≡ tree_of parts.old n }
    ensures waiting { length parts.new.waiting ≤ length parts.old.waiting + 1 }
    ensures others { KeepsOtherRecords ino parts.old.waiting parts.new.waiting }
    // What holds in the middle of a call is kept.
    ensures kept { (spare : ℕ) → IsStaged parts.old spare → IsStaged parts.new spare }
{
    let inode = parts.record_in_use(ino);
    let changed = inode.with_attrs(attrs);
    stage_record(parts, changed);
}

/// Puts into a data block of a file what falls into it of bytes put at byte `off` of the file, all
/// below its size. A block that is overwritten whole isn't read.
fn put_block(parts: &mut Parts, inode: &Inode, index: u32, off: u64, bytes: &[u8])
    requires may { MayStage parts.old inode.now }
    requires room { HasFrames parts.old inode.now.number (codes_on (data_way index)) }
    requires block { index < FILE_BLOCKS }
    requires within { index < block_count inode.now.size }
    requires below { off + length bytes.now ≤ inode.now.size }
    ensures { PutsBlock inode.now index off bytes.now parts.old parts.new }
{
    match whole_of(index, off, bytes) {
        Some(block) => stage_data(parts, inode, index, block),
        None => put_part(parts, inode, index, off, bytes),
    }
}

/// Puts it over what the block has.
fn put_part(parts: &mut Parts, inode: &Inode, index: u32, off: u64, bytes: &[u8])
    requires may { MayStage parts.old inode.now }
    requires room { HasFrames parts.old inode.now.number (codes_on (data_way index)) }
    requires block { index < FILE_BLOCKS }
    requires within { index < block_count inode.now.size }
    requires below { off + length bytes.now ≤ inode.now.size }
    ensures { PutsBlock inode.now index off bytes.now parts.old parts.new }
{
    let mut block = *parts.block_of(inode, FileBlock::Data(index));
    put_piece(&mut block, index, off, bytes);
    stage_data(parts, inode, index, &block);
}

/// Puts bytes into a file at byte `off`, all below its size: they wait.
fn put_blocks(parts: &mut Parts, inode: &Inode, off: u64, bytes: &[u8])
    requires may { MayStage parts.old inode.now }
    requires some { 0 < length bytes.now }
    requires below { off + length bytes.now ≤ inode.now.size }
    requires room { length parts.old.cache.locked + frames_of_put off (length bytes.now)
        ≤ LOCKED_LIMIT }
    ensures { PutsBytes inode.now off bytes.now parts.old parts.new }
{
    let touched = blocks_touched(off, off + bytes.len() as u64);
    for index in touched.start..touched.end {
        put_block(parts, inode, index, off, bytes);
    }
}

/// Has the record of a file wait with a size of at least so many bytes, and gives it.
fn grow(parts: &mut Parts, inode: &Inode, size: u64) -> Inode
    requires may { MayStage parts.old inode.now }
    requires sized { IsSizeOf inode.now.kind (max inode.now.size size) }
    ensures { GrowsTo inode.now result size parts.old parts.new }
{
    let size = size.max(inode.size);
    let grown = inode.grown(size);
    let staged = grown;
    stage_record(parts, staged);
    grown
}
