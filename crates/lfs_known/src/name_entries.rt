//! A table of where names stand follows changes of which it is known what they name.

ghost use Rattle.lfs_types.specs.Changes.{applied};
ghost use Rattle.lfs_types.specs.Tree.{Content};
ghost use Rattle.lfs_known.specs.Spots.{ArePlaced, ArePlacedIn, StandsBesides};

use crate::name_sizes::follow_sizes;
use crate::name_table::NameTable;
use lfs_types::name::Name;
use lfs_types::store::Change;

/// Follows changes that were made, in order, behind which names stand in blocks of directories where they stood before, but
/// for one name, which may stand in block `k` of a directory besides: what a table says of a content is so of that with
/// the changes. No block is read. A table that is full is dropped.
pub fn follow_name(
    table: &mut Option<NameTable>,
    changes: &[Change<'_>],
    dir: u32,
    name: &Name,
    k: u64,
)
    ensures { (c : Content) → ArePlacedIn table.old c
        → StandsBesides c (applied changes.now c) dir name.now k
        → ArePlacedIn table.new (applied changes.now c) }
{
    if let Some(known) = table {
        follow_besides(known, changes, dir, name, k);
        if known.is_full() {
            *table = None;
        }
    }
}

/// Follows such changes.
fn follow_besides(table: &mut NameTable, changes: &[Change<'_>], dir: u32, name: &Name, k: u64)
    ensures { (c : Content) → ArePlaced table.old c
        → StandsBesides c (applied changes.now c) dir name.now k
        → ArePlaced table.new (applied changes.now c) }
{
    table.enter_name(dir, name, k);
    follow_sizes(&mut table.whole, changes);
}
