//! Hints follow the changes of a content.

ghost use Rattle.std.specs.Prelude.{◌≡◌, ◌≤◌, ◌*◌, Some, IfSome};
ghost use Rattle.lfs_types.specs.Changes.{applied, changed};
ghost use Rattle.lfs_types.specs.Tree.{Content};
ghost use Rattle.lfs_types.specs.declared.block.TheConstants.{BLOCK_SIZE};
ghost use Rattle.lfs_known.specs.Says.{SaysTheSame, says};
ghost use Rattle.lfs_known.specs.declared.hints.Hint.{Hint};
ghost use Rattle.lfs_known.specs.Full.{AreFull, IsLowered};

use crate::hints::{DirHints, Hint};
use lfs_types::block::BLOCK_SIZE;
use lfs_types::store::Change;

/// Follows changes that were made, in order: hints that are true of a content are so of that with the changes.
pub fn follow_hints(hints: &mut DirHints, changes: &[Change<'_>])
    ensures { (c : Content) → AreFull hints.old c → AreFull hints.new (applied changes.now c) }
{
    for change in changes {
        follow_one(hints, change);
    }
}

/// Follows a change.
fn follow_one(hints: &mut DirHints, change: &Change<'_>)
    ensures { (c : Content) → AreFull hints.old c → AreFull hints.new (changed change.now c) }
{
    match *change {
        Change::Make { ino, .. } => hints.forget(ino),
        Change::Remove { ino } => hints.forget(ino),
        Change::SetAttrs { .. } => {}
        Change::Put { ino, off, .. } => lower(hints, ino, off),
        Change::SetLength { ino, .. } => hints.forget(ino),
    }
}

/// Bytes were put from `off` on, so that nothing is known of the block there and of those behind it.
fn lower(hints: &mut DirHints, ino: u32, off: u64)
    ensures lowered { IfSome (says hints.new ino) (λ hint. (old : Hint)
        × ((says hints.old ino ≡ Some old) × IsLowered old hint
        × (BLOCK_SIZE * hint.block ≤ off))) }
    ensures others { SaysTheSame hints.old hints.new ino }
{
    let block = off / BLOCK_SIZE as u64;
    if let Some(hint) = hints.look(ino)
        && block < hint.block
    {
        hints.enter(ino, Hint { block, ..hint });
    }
}
