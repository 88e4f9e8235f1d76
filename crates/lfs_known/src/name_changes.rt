//! A table of where names stand follows the changes of a content.

ghost use Rattle.std.specs.Prelude.{◌≡◌, ◌<◌, ◌%◌, ℕ, List, None, Some, IfSome, length};
ghost use Rattle.lfs_types.specs.declared.block.TheConstants.{BLOCK_SIZE};
ghost use Rattle.lfs_types.specs.Changes.{applied, changed};
ghost use Rattle.lfs_types.specs.Splicing.{splice};
ghost use Rattle.lfs_types.specs.Tree.{Content};
ghost use Rattle.lfs_known.specs.Says.{SaysTheSame, says};
ghost use Rattle.lfs_known.specs.Spots.{ArePlaced, ArePlacedIn, IsPlaced, MayStand};

use crate::name_table::NameTable;
use lfs_types::block::{BLOCK_SIZE, Block};
use lfs_types::store::Change;

/// Follows changes that were made, in order: what a table says of a content is so of that with the changes. A table that
/// is full is dropped.
pub fn follow_names(table: &mut Option<NameTable>, changes: &[Change<'_>])
    ensures { (c : Content) → ArePlacedIn table.old c
        → ArePlacedIn table.new (applied changes.now c) }
{
    if let Some(known) = table {
        follow_all(known, changes);
        if known.is_full() {
            *table = None;
        }
    }
}

/// Follows changes, in order.
fn follow_all(table: &mut NameTable, changes: &[Change<'_>])
    ensures { (c : Content) → ArePlaced table.old c → ArePlaced table.new (applied changes.now c) }
{
    for change in changes {
        follow_one(table, change);
    }
}

/// Follows a change.
fn follow_one(table: &mut NameTable, change: &Change<'_>)
    ensures { (c : Content) → ArePlaced table.old c → ArePlaced table.new (changed change.now c) }
{
    match *change {
        Change::Make { ino, .. } => forget(table, ino),
        Change::Remove { ino } => forget(table, ino),
        Change::SetAttrs { .. } => {}
        Change::Put { ino, off, bytes } => put(table, ino, off, bytes),
        Change::SetLength { ino, .. } => forget(table, ino),
    }
}

/// A directory is known no more.
fn forget(table: &mut NameTable, dir: u32)
    ensures forgotten { says table.new.whole dir ≡ None }
    ensures others { SaysTheSame table.old.whole table.new.whole dir }
    ensures keeps { (d : ℕ) (name : List ℕ) (j : ℕ) → MayStand table.old.spots.items d name j
        → MayStand table.new.spots.items d name j }
{
    table.whole.forget(dir);
}

/// Bytes were put into a file: where they are a block of a directory that is known, its names are entered.
fn put(table: &mut NameTable, ino: u32, off: u64, bytes: &[u8])
    ensures known { IfSome (says table.new.whole ino) (λ now. (blocks : ℕ)
        × ((says table.old.whole ino ≡ Some blocks) × (0 < blocks)
        × ((old : List ℕ) → IsPlaced table.old.spots.items ino old blocks
        → IsPlaced table.new.spots.items ino (splice old off bytes.now) now))) }
    ensures others { SaysTheSame table.old.whole table.new.whole ino }
    ensures keeps { (d : ℕ) (name : List ℕ) (j : ℕ) → MayStand table.old.spots.items d name j
        → MayStand table.new.spots.items d name j }
{
    let Some(blocks) = table.whole.look(ino) else {
        return;
    };
    let k = off / BLOCK_SIZE as u64;
    match whole_block(off, bytes) {
        Some(block) if 0 < blocks && k <= blocks => {
            let now = if k == blocks { k + 1 } else { blocks };
            table.puts = table.puts.saturating_add(1);
            table.whole.enter(ino, now);
            table.enter_block(ino, k, block);
        }
        _ => table.whole.forget(ino),
    }
}

/// The block that bytes put from `off` on are, if they are one.
fn whole_block(off: u64, bytes: &[u8]) -> Option<&Block>
    ensures { IfSome result (λ block. (block.now ≡ bytes.now) × (length bytes.now ≡ BLOCK_SIZE)
        × (off % BLOCK_SIZE ≡ 0)) }
{
    if bytes.len() != BLOCK_SIZE || off % BLOCK_SIZE as u64 != 0 {
        return None;
    }
    let (block, _) = bytes.split_first_chunk::<BLOCK_SIZE>()?;
    Some(block)
}
