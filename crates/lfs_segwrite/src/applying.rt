//! Changes of a store's content, which wait. Where more would wait than may, what waits is written
//! first.

ghost use Rattle.std.specs.Prelude.{◌≡◌, ◌+◌, ◌<◌, ◌≤◌, ◌↔◌, All, IsTrue, OnErr, OnOk, length, nat_lt, true};
ghost use Rattle.lfs_inodes.specs.Facts.{block_count};
ghost use Rattle.lfs_types.specs.Changes.{CanApply, CanChange, CanChangeAll};
ghost use Rattle.lfs_types.specs.declared.store.Change.TheVariants.{Put};
ghost use Rattle.lfs_types.specs.declared.limits.TheConstants.{FILE_BYTES};
ghost use Rattle.lfs_segwrite.specs.Applying.{HasRoom, HasRoomFor, HasRoomForBlocks, HasRoomToGive, HasRoomToTake, IsInReach, MakesChanges, MakesWay, StagesAll, StagesChange, frames_of_all, give_back, gives_back, may_use_reserve, needs_of, passes_limits, peak_of, peak_of_all, records_of_all, spare_of, unlock, unlocks};
ghost use Rattle.lfs_cache.specs.declared.cache.TheConstants.{LOCKED_LIMIT};
ghost use Rattle.lfs_parts.specs.declared.records.TheConstants.{WAITING_LIMIT};
ghost use Rattle.lfs_staging.specs.Changing.{frames_of, frames_of_length, records_of};
ghost use Rattle.lfs_staging.specs.Putting.{frames_of_put};
ghost use Rattle.lfs_parts.specs.Files.{content_of};
ghost use Rattle.lfs_staging.specs.Staging.{IsStaged};
ghost use Rattle.lfs_parts.specs.Store.{IsStore};
ghost use Rattle.lfs_segwrite.specs.declared.applying.TheConstants.{APPLIED_FRAMES, APPLIED_RECORDS};

use crate::collecting::{blocks_to_write, inode_blocks};
use crate::giving::leaves_some;
use crate::room::{RoomFault, SPARE, USERS_SPARE};
use crate::writing::write_waiting;
use lfs_bmap::blocks::FileBlock;
use lfs_bmap::pieces::blocks_touched;
use lfs_bmap::tables::tables_between;
use lfs_cache::LOCKED_LIMIT;
use lfs_parts::parts::Parts;
use lfs_parts::records::WAITING_LIMIT;
use lfs_staging::cutting::{self, CUT_FRAMES};
use lfs_staging::{changing, making};
use lfs_types::block::BLOCK_SIZE;
use lfs_types::store::{Change, Reserve};

/// The greatest number of frames that the changes of one call take.
pub const APPLIED_FRAMES: usize = 20;

/// The greatest number of records that they have wait: one for each change.
pub const APPLIED_RECORDS: usize = 4;

/// How many segments stay clean when one is opened for changes that may not use what is kept back.
const RESERVE: u32 = 2;

/// How many frames so many bytes put at byte `off` of a file take at most.
fn frames_of_put(off: u64, count: usize) -> usize
    requires some { 0 < count }
    requires within { off + count ≤ FILE_BYTES }
    ensures { result ≡ frames_of_put off count }
{
    let end = off + count as u64;
    let touched = blocks_touched(off, end);
    (touched.end - touched.start) as usize + tables_between(touched.start, touched.end - 1)
}

/// How many frames a length of a file takes at most.
fn frames_of_length(len: u64) -> usize
    requires { len ≤ FILE_BYTES }
    ensures { result ≡ frames_of_length len }
{
    let last = if len % BLOCK_SIZE as u64 == 0 { 0 } else { 1 };
    let blocks = len.div_ceil(BLOCK_SIZE as u64) as u32;
    last + FileBlock::Data(blocks.saturating_sub(1)).table().depth()
}

/// How many frames a change takes at most.
fn frames_of(change: &Change<'_>) -> usize
    requires { IsInReach change.now }
    ensures { result ≡ frames_of change.now }
{
    match *change {
        Change::Make { .. } | Change::Remove { .. } | Change::SetAttrs { .. } => 0,
        Change::Put { off, bytes, .. } => {
            if bytes.is_empty() {
                0
            } else {
                frames_of_put(off, bytes.len())
            }
        }
        Change::SetLength { len, .. } => frames_of_length(len),
    }
}

/// How many frames a change takes at most while it is staged.
fn peak_of(change: &Change<'_>) -> usize
    requires { IsInReach change.now }
    ensures { result ≡ peak_of change.now }
{
    match *change {
        Change::Make { .. } | Change::SetAttrs { .. } => 0,
        Change::Remove { .. } | Change::SetLength { .. } => CUT_FRAMES,
        Change::Put { off, bytes, .. } => {
            if bytes.is_empty() {
                0
            } else {
                frames_of_put(off, bytes.len())
            }
        }
    }
}

/// How many frames changes take at most while they are staged, one after another.
fn peak_of_all(changes: &[Change<'_>]) -> usize
    requires reach { All IsInReach changes.now }
    requires few { peak_of_all changes.now ≤ LOCKED_LIMIT }
    ensures { result ≡ peak_of_all changes.now }
{
    let mut taken = 0;
    let mut peak = 0;
    for change in changes {
        peak = peak.max(taken + peak_of(change));
        taken += frames_of(change);
    }
    peak
}

/// Whether changes could have more wait than may wait.
fn passes_limits(parts: &Parts, changes: &[Change<'_>]) -> bool
    requires store { IsStore parts.now }
    requires reach { All IsInReach changes.now }
    requires frames { peak_of_all changes.now ≤ LOCKED_LIMIT }
    requires few { length changes.now ≤ APPLIED_RECORDS }
    ensures { result ≡ passes_limits parts.now changes.now }
{
    parts.cache.locked_count() + peak_of_all(changes) > LOCKED_LIMIT
        || parts.waiting.len() + changes.len() > WAITING_LIMIT
}

/// How many records a change has wait at most.
fn records_of(change: &Change<'_>) -> usize
    ensures { result ≡ records_of change.now }
{
    match *change {
        Change::Remove { .. } => 0,
        Change::Put { bytes, .. } => usize::from(!bytes.is_empty()),
        Change::Make { .. } | Change::SetAttrs { .. } | Change::SetLength { .. } => 1,
    }
}

/// How many frames changes take at most.
fn frames_of_all(changes: &[Change<'_>]) -> usize
    requires reach { All IsInReach changes.now }
    requires few { frames_of_all changes.now ≤ APPLIED_FRAMES }
    ensures { result ≡ frames_of_all changes.now }
{
    let mut frames = 0;
    for change in changes {
        frames += frames_of(change);
    }
    frames
}

/// How many records changes have wait at most.
fn records_of_all(changes: &[Change<'_>]) -> usize
    requires { records_of_all changes.now ≤ APPLIED_RECORDS }
    ensures { result ≡ records_of_all changes.now }
{
    let mut records = 0;
    for change in changes {
        records += records_of(change);
    }
    records
}

/// How many blocks of the log changes take at most, with the summary before them: none where nothing
/// is to be written.
fn needs(changes: &[Change<'_>]) -> u32
    requires reach { All IsInReach changes.now }
    requires frames { frames_of_all changes.now ≤ APPLIED_FRAMES }
    requires records { records_of_all changes.now ≤ APPLIED_RECORDS }
    ensures { result ≡ needs_of changes.now }
{
    let blocks = frames_of_all(changes) + inode_blocks(records_of_all(changes));
    if blocks == 0 { 0 } else { blocks as u32 + 1 }
}

/// Whether so many bytes of a file take fewer blocks than so many others.
fn takes_fewer_blocks(len: u64, size: u64) -> bool
    ensures { result ≡ nat_lt (block_count len) (block_count size) }
{
    len.div_ceil(BLOCK_SIZE as u64) < size.div_ceil(BLOCK_SIZE as u64)
}

/// Whether a change gives blocks back: it removes a file, or cuts one to fewer blocks.
fn gives_back(parts: &Parts, change: &Change<'_>) -> bool
    requires { IsStore parts.now }
    ensures { result ≡ gives_back (content_of parts.now) change.now }
{
    match *change {
        Change::Remove { .. } => true,
        Change::SetLength { ino, len } => match parts.attrs(ino) {
            Some(attrs) => takes_fewer_blocks(len, attrs.size),
            None => false,
        },
        Change::Make { .. } | Change::SetAttrs { .. } | Change::Put { .. } => false,
    }
}

/// Whether changes give blocks back.
fn give_back(parts: &Parts, changes: &[Change<'_>]) -> bool
    requires { IsStore parts.now }
    ensures { result ≡ give_back (content_of parts.now) changes.now }
{
    for change in changes {
        if gives_back(parts, change) {
            return true;
        }
    }
    false
}

/// Whether a change takes flags away from a file, and gives it none.
fn unlocks(parts: &Parts, change: &Change<'_>) -> bool
    requires { IsStore parts.now }
    ensures { result ≡ unlocks (content_of parts.now) change.now }
{
    match *change {
        Change::SetAttrs { ino, attrs } => match parts.attrs(ino) {
            Some(old) => attrs.flags.is_part_of(old.flags),
            None => false,
        },
        Change::Make { .. }
        | Change::Remove { .. }
        | Change::Put { .. }
        | Change::SetLength { .. } => false,
    }
}

/// Whether changes take flags away from a file.
fn unlock(parts: &Parts, changes: &[Change<'_>]) -> bool
    requires { IsStore parts.now }
    ensures { result ≡ unlock (content_of parts.now) changes.now }
{
    for change in changes {
        if unlocks(parts, change) {
            return true;
        }
    }
    false
}

/// Whether changes may use the room that is kept back: they give blocks back, or are the superuser's and take flags away.
fn may_use_reserve(parts: &Parts, changes: &[Change<'_>], by: Reserve) -> bool
    requires { IsStore parts.now }
    ensures { result ≡ may_use_reserve by (content_of parts.now) changes.now }
{
    match by {
        Reserve::Users => give_back(parts, changes),
        Reserve::Superuser => give_back(parts, changes) || unlock(parts, changes),
    }
}

/// Has bytes wait that are put into a file in use; no bytes change nothing.
fn put_some(parts: &mut Parts, ino: u32, off: u64, bytes: &[u8])
    requires staged { IsStaged parts.old 0 }
    requires can { CanChange (length parts.old.log.tables.rows) (Put ino off bytes)
        (content_of parts.old) }
    requires reach { IsInReach (Put ino off bytes) }
    requires frames { length parts.old.cache.locked + peak_of (Put ino off bytes)
        ≤ LOCKED_LIMIT }
    requires records { length parts.old.waiting < WAITING_LIMIT }
    ensures { StagesChange (Put ino off bytes.entry) parts.old parts.new }
{
    if !bytes.is_empty() {
        changing::put(parts, ino, off, bytes);
    }
}

/// Has a change wait.
fn stage_change(parts: &mut Parts, change: &Change<'_>)
    requires staged { IsStaged parts.old 0 }
    requires can { CanChange (length parts.old.log.tables.rows) change.now
        (content_of parts.old) }
    requires reach { IsInReach change.now }
    requires frames { length parts.old.cache.locked + peak_of change.now ≤ LOCKED_LIMIT }
    requires records { length parts.old.waiting < WAITING_LIMIT }
    ensures { StagesChange change.now parts.old parts.new }
{
    match *change {
        Change::Make { ino, attrs } => making::make(parts, ino, &attrs),
        Change::Remove { ino } => making::remove(parts, ino),
        Change::SetAttrs { ino, attrs } => changing::set_attrs(parts, ino, &attrs),
        Change::Put { ino, off, bytes } => put_some(parts, ino, off, bytes),
        Change::SetLength { ino, len } => cutting::set_length(parts, ino, len),
    }
}

/// Has changes wait, in order.
fn stage_changes(parts: &mut Parts, changes: &[Change<'_>])
    requires staged { IsStaged parts.old 0 }
    requires can { CanChangeAll (length parts.old.log.tables.rows) changes.now
        (content_of parts.old) }
    requires reach { All IsInReach changes.now }
    requires frames { length parts.old.cache.locked + peak_of_all changes.now
        ≤ LOCKED_LIMIT }
    requires records { length parts.old.waiting + length changes.now ≤ WAITING_LIMIT }
    ensures { StagesAll changes.now parts.old parts.new }
{
    for change in changes {
        stage_change(parts, change);
    }
}

/// Whether there is room for so many blocks that are to be written for any changes.
fn has_room_to_take(parts: &Parts, blocks: u32) -> bool
    requires { IsStore parts.now }
    ensures given { IsTrue result ↔ HasRoomToTake blocks parts.now }
    ensures many { 2 < parts.now.log.clean → result ≡ true }
{
    let clean = parts.log.clean();
    clean > RESERVE || (clean == RESERVE && blocks <= parts.log.room())
}

/// How many blocks stay to spare behind changes that use what is kept back.
fn spare_of(by: Reserve) -> u32
    ensures spare { result ≡ spare_of by }
    ensures few { result ≤ 32 }
{
    match by {
        Reserve::Users => USERS_SPARE,
        Reserve::Superuser => SPARE,
    }
}

/// Whether there is room for so many blocks that are to be written for changes that may use what is kept back.
fn has_room_to_give(parts: &Parts, changes: &[Change<'_>], by: Reserve, blocks: u32) -> bool
    requires store { IsStore parts.now }
    requires few { blocks ≤ 80 }
    ensures { IsTrue result ↔ HasRoomToGive by changes.now blocks parts.now }
{
    parts.log.clean() > 1 || leaves_some(parts, changes, spare_of(by), blocks)
}

/// Whether there is room for so many blocks that are to be written for changes.
fn has_room_for(parts: &Parts, changes: &[Change<'_>], by: Reserve, blocks: u32) -> bool
    requires store { IsStore parts.now }
    requires few { blocks ≤ 80 }
    ensures given { IsTrue result ↔ HasRoomForBlocks by changes.now blocks parts.now }
    ensures many { 2 < parts.now.log.clean → result ≡ true }
{
    has_room_to_take(parts, blocks)
        || (may_use_reserve(parts, changes, by) && has_room_to_give(parts, changes, by, blocks))
}

/// Whether there is room for what waits and for changes.
fn check_room(parts: &Parts, changes: &[Change<'_>], by: Reserve) -> Result<(), RoomFault>
    requires store { IsStore parts.now }
    requires reach { All IsInReach changes.now }
    requires frames { frames_of_all changes.now ≤ APPLIED_FRAMES }
    requires records { records_of_all changes.now ≤ APPLIED_RECORDS }
    ensures has { OnOk result (HasRoomFor by changes.now parts.now) }
    ensures lacking { OnErr result (HasRoomFor by changes.now parts.now → ⊥) }
    ensures short { OnErr result (parts.now.log.clean ≤ 2) }
{
    let blocks = blocks_to_write(parts) + needs(changes);
    if has_room_for(parts, changes, by, blocks) {
        Ok(())
    } else {
        Err(RoomFault)
    }
}

/// Writes what waits where changes could have more wait than may.
fn make_way(parts: &mut Parts, changes: &[Change<'_>])
    requires store { IsStore parts.old }
    requires room { HasRoom parts.old }
    requires reach { All IsInReach changes.now }
    requires frames { peak_of_all changes.now ≤ LOCKED_LIMIT }
    requires few { length changes.now ≤ APPLIED_RECORDS }
    ensures { MakesWay changes.now parts.old parts.new }
{
    if passes_limits(parts, changes) {
        write_waiting(parts);
    }
}

/// Makes changes, in order: all of them, or none where there is no room. They wait; where more would
/// wait than may, what waits is written first.
pub fn apply(parts: &mut Parts, changes: &[Change<'_>], by: Reserve) -> Result<(), RoomFault>
    requires store { IsStore parts.old }
    requires room { HasRoom parts.old }
    requires can { CanApply (length parts.old.log.tables.rows) changes.now
        (content_of parts.old) }
    ensures made { OnOk result (MakesChanges by changes.now parts.old parts.new) }
    ensures fits { OnOk result (HasRoomFor by changes.now parts.old) }
    ensures refused { OnErr result (parts.new ≡ parts.old) }
    ensures lacking { OnErr result (HasRoomFor by changes.now parts.old → ⊥) }
    // Which is never so with more than two clean segments.
    ensures short { OnErr result (parts.old.log.clean ≤ 2) }
{
    check_room(parts, changes, by)?;
    make_way(parts, changes);
    stage_changes(parts, changes);
    Ok(())
}
