//! How many blocks the directories of a table have follows the changes of a content.

ghost use Rattle.std.specs.Prelude.{◌≡◌, ℕ, Some, IfSome, IsSome, length};
ghost use Rattle.lfs_types.specs.Changes.{applied, changed};
ghost use Rattle.lfs_types.specs.Tree.{Content};
ghost use Rattle.lfs_known.specs.Says.{SaysTheSame, says};
ghost use Rattle.lfs_known.specs.Spots.{AreSized, IsGrown};

use crate::slots::Slots;
use lfs_types::block::BLOCK_SIZE;
use lfs_types::store::Change;

/// Follows changes, in order: how many blocks directories have.
pub(crate) fn follow_sizes(whole: &mut Slots<u64>, changes: &[Change<'_>])
    ensures sized { (c : Content) → AreSized whole.old c
        → AreSized whole.new (applied changes.now c) }
    ensures fewer { (d : ℕ) → IsSome (says whole.new d) → IsSome (says whole.old d) }
{
    for change in changes {
        follow_size(whole, change);
    }
}

/// Follows a change.
fn follow_size(whole: &mut Slots<u64>, change: &Change<'_>)
    ensures sized { (c : Content) → AreSized whole.old c
        → AreSized whole.new (changed change.now c) }
    ensures fewer { (d : ℕ) → IsSome (says whole.new d) → IsSome (says whole.old d) }
{
    match *change {
        Change::Make { ino, .. } => whole.forget(ino),
        Change::Remove { ino } => whole.forget(ino),
        Change::SetAttrs { .. } => {}
        Change::Put { ino, off, bytes } => put_size(whole, ino, off, bytes),
        Change::SetLength { ino, .. } => whole.forget(ino),
    }
}

/// Bytes were put into a file: where they are a block of a directory that is known, over another or behind the last one,
/// its size is known still.
pub(crate) fn put_size(whole: &mut Slots<u64>, ino: u32, off: u64, bytes: &[u8])
    ensures known { IfSome (says whole.new ino) (λ now. (blocks : ℕ)
        × ((says whole.old ino ≡ Some blocks) × IsGrown blocks off (length bytes.now) now)) }
    ensures others { SaysTheSame whole.old whole.new ino }
{
    let Some(blocks) = whole.look(ino) else {
        return;
    };
    let k = off / BLOCK_SIZE as u64;
    let is_block = bytes.len() == BLOCK_SIZE && off % BLOCK_SIZE as u64 == 0;
    if is_block && 0 < blocks && k <= blocks {
        let now = if k == blocks { k + 1 } else { blocks };
        whole.enter(ino, now);
    } else {
        whole.forget(ino);
    }
}
