//! Whether a dirty segment can be finished behind blocks that are written for the cleaner.

ghost use Rattle.std.specs.Prelude.{◌⊎◌, ◌+◌, ◌<◌, ◌≤◌, ◌↔◌, IsTrue, max};
ghost use Rattle.lfs_segwrite.specs.Finishing.{IsFinishable, LieIn, SomeIsFinishable};
ghost use Rattle.lfs_segwrite.specs.Gaining.{pass_blocks, widest};
ghost use Rattle.lfs_segwrite.specs.Giving.{HaveRoom};
ghost use Rattle.lfs_parts.specs.Store.{IsStore};

use crate::gaining::{is_dirty, pass_cost};
use crate::giving::have_room;
use lfs_parts::parts::Parts;
use lfs_types::cleaner::BlockInfo;
use lfs_types::limits::SEGMENT_BLOCKS;

/// Whether the blocks of all these infos lie in a segment.
fn lie_in(segment: u32, infos: &[BlockInfo]) -> bool
    ensures { IsTrue result ↔ LieIn segment infos.now }
{
    infos
        .iter()
        .all(|info| info.addr / SEGMENT_BLOCKS == segment)
}

/// Whether what it takes to clean a segment has room behind the blocks of some infos, so many.
fn has_room_behind(parts: &Parts, infos: &[BlockInfo], blocks: u32, segment: u32) -> bool
    requires store { IsStore parts.now }
    requires few { blocks ≤ 27 }
    requires inside { segment < parts.now.log.memory.segments }
    ensures { IsTrue result
        ↔ ((LieIn segment infos.now × HaveRoom (pass_blocks parts.now segment)
        (max (widest parts.now segment) blocks) parts.now)
        ⊎ HaveRoom (pass_blocks parts.now segment + blocks)
        (max (widest parts.now segment) blocks) parts.now) }
{
    let cost = pass_cost(parts, segment);
    let most = cost.widest.max(blocks);
    (lie_in(segment, infos) && have_room(parts, cost.blocks, most))
        || have_room(parts, cost.blocks + blocks, most)
}

/// Whether a segment can be finished where the blocks of some infos, so many, are written first.
fn is_finishable(parts: &Parts, infos: &[BlockInfo], blocks: u32, segment: u32) -> bool
    requires store { IsStore parts.now }
    requires few { blocks ≤ 27 }
    requires inside { segment < parts.now.log.memory.segments }
    ensures { IsTrue result ↔ IsFinishable infos.now blocks parts.now segment }
{
    is_dirty(parts, segment) && has_room_behind(parts, infos, blocks, segment)
}

/// Whether some segment can be.
pub(crate) fn has_finishable(parts: &Parts, infos: &[BlockInfo], blocks: u32) -> bool
    requires store { IsStore parts.now }
    requires few { blocks ≤ 27 }
    ensures { IsTrue result ↔ SomeIsFinishable infos.now blocks parts.now }
{
    for segment in 0..parts.log.segments() {
        if is_finishable(parts, infos, blocks, segment) {
            return true;
        }
    }
    false
}
