//! Whether a dirty segment can be finished behind changes that use what is kept back.

ghost use Rattle.std.specs.Prelude.{◌≡◌, ◌+◌, ◌<◌, ◌≤◌, ◌↔◌, ℕ, IsTrue};
ghost use Rattle.lfs_segwrite.specs.Giving.{HaveRoom, LeavesFinishable, are_removing, removes, staying_blocks, staying_infos, staying_widest};
ghost use Rattle.lfs_parts.specs.Store.{IsStore};

use crate::gaining::{PassCost, cost_by_eights, is_dirty, live_infos};
use crate::room::WHOLE;
use lfs_parts::parts::Parts;
use lfs_types::cleaner::InfoList;
use lfs_types::store::Change;

/// Whether so many blocks, of which so many are written at once at most, have room.
pub(crate) fn have_room(parts: &Parts, blocks: u32, most: u32) -> bool
    requires store { IsStore parts.now }
    requires few { blocks ≤ 1000 }
    requires narrow { most ≤ 80 }
    ensures { IsTrue result ↔ HaveRoom blocks most parts.now }
{
    let room = parts.log.room();
    let opens = parts.log.clean() > 0;
    blocks <= room || (opens && (blocks <= WHOLE || blocks + most <= room + WHOLE))
}

/// Whether a change removes the file with a number.
fn removes(change: &Change<'_>, number: u32) -> bool
    ensures { result ≡ removes number change.now }
{
    match *change {
        Change::Remove { ino } => ino == number,
        Change::Make { .. }
        | Change::SetAttrs { .. }
        | Change::Put { .. }
        | Change::SetLength { .. } => false,
    }
}

/// Whether one of some changes does.
fn are_removing(changes: &[Change<'_>], number: u32) -> bool
    ensures { result ≡ are_removing changes.now number }
{
    for change in changes {
        if removes(change, number) {
            return true;
        }
    }
    false
}

/// The infos of a segment's live blocks that stay behind changes, in the log's order: those of files that they don't
/// remove.
fn staying_infos(parts: &Parts, changes: &[Change<'_>], segment: u32) -> InfoList
    requires store { IsStore parts.now }
    requires inside { segment < parts.now.log.memory.segments }
    ensures { result ≡ staying_infos parts.now changes.now segment }
{
    let live = live_infos(parts, segment);
    let mut staying = InfoList::empty();
    for info in live.items() {
        if !are_removing(changes, info.ino) {
            staying.push(*info);
        }
    }
    staying
}

/// What it takes to write again what stays of a segment behind changes.
fn staying_cost(parts: &Parts, changes: &[Change<'_>], segment: u32) -> PassCost
    requires store { IsStore parts.now }
    requires inside { segment < parts.now.log.memory.segments }
    ensures blocks { result.blocks ≡ staying_blocks parts.now changes.now segment }
    ensures widest { result.widest ≡ staying_widest parts.now changes.now segment }
    ensures few { result.blocks ≤ 837 }
    ensures narrow { result.widest ≤ 27 }
{
    let infos = staying_infos(parts, changes, segment);
    cost_by_eights(infos.items())
}

/// Whether a dirty segment can be finished behind changes, for which so many blocks are written first, with so many to
/// spare.
fn leaves_finishable(
    parts: &Parts,
    changes: &[Change<'_>],
    spare: u32,
    blocks: u32,
    segment: u32,
) -> bool
    requires store { IsStore parts.now }
    requires spare { spare ≤ 32 }
    requires few { blocks ≤ 80 }
    requires inside { segment < parts.now.log.memory.segments }
    ensures { IsTrue result ↔ LeavesFinishable spare changes.now blocks parts.now segment }
{
    if !is_dirty(parts, segment) {
        return false;
    }
    let cost = staying_cost(parts, changes, segment);
    let behind = cost.blocks + blocks;
    have_room(parts, behind, cost.widest.max(blocks)) && have_room(parts, behind + spare, 0)
}

/// Whether some segment can be. What each takes is counted until one can.
pub(crate) fn leaves_some(parts: &Parts, changes: &[Change<'_>], spare: u32, blocks: u32) -> bool
    requires store { IsStore parts.now }
    requires spare { spare ≤ 32 }
    requires few { blocks ≤ 80 }
    ensures { IsTrue result
        ↔ ((s : ℕ) × LeavesFinishable spare changes.now blocks parts.now s) }
{
    for segment in 0..parts.log.segments() {
        if leaves_finishable(parts, changes, spare, blocks, segment) {
            return true;
        }
    }
    false
}
