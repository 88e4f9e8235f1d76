//! Whether what a store contains shows a tree.

ghost use Rattle.std.specs.Prelude.{◌≡◌, length, IfErr, OnOk};
ghost use Rattle.lfs_calls.specs.Volumes.{HasWorld};
ghost use Rattle.lfs_trees.specs.declared.fault.TreeFault.TheVariants.{Memory};
ghost use Rattle.lfs_trees.specs.Faults.{IsBelow, IsTreeFaultOf};
ghost use Rattle.lfs_trees.specs.Walks.{HasAll, IsLeftOut};

use crate::fault::TreeFault;
use crate::files::{check_files, check_root};
use crate::reading::reach_all;
use crate::walk::Walk;
use lfs_types::store::FileStore;
use std::alloc::Global;

/// Ok where what a store contains shows a tree, and otherwise what is wrong. Each number in use is below `numbers`, as
/// in every store of so many. It reads each block of each directory once at most, and takes memory for the numbers and
/// for the names of one directory; Memory says that there was none, and nothing of the store.
pub fn check_tree<F: FileStore>(alloc: Global, store: &mut F, numbers: u32) -> Result<(), TreeFault>
    requires { IsBelow numbers (F.state store.old).content }
    ensures ok { OnOk result (HasWorld (F.state store.new)) }
    ensures fault { IfErr result (IsTreeFaultOf (F.state store.old).content) }
    ensures no_world { IfErr result (λ fault. (fault ≡ Memory → ⊥) → HasWorld (F.state store.old) → ⊥) }
    ensures state { F.state store.new ≡ F.state store.old }
{
    check_root(store)?;
    check_files(store, numbers)?;
    let walk = reach_all(alloc, store, numbers)?;
    check_reached(store, &walk, numbers)
}

/// Unreached at the first of the numbers that is in use and that a walk didn't reach.
fn check_reached<F: FileStore>(store: &F, walk: &Walk, numbers: u32) -> Result<(), TreeFault>
    requires bounded { IsBelow numbers (F.state store.now).content }
    requires marked { length walk.now.marks.items ≡ numbers }
    ensures all { OnOk result (HasAll (F.state store.now).content walk.now) }
    ensures fault { IfErr result (IsLeftOut (F.state store.now).content walk.now) }
{
    for number in 0..numbers {
        match store.attrs(number) {
            Some(_) if !walk.has(number) => return Err(TreeFault::Unreached { number }),
            _ => {}
        }
    }
    Ok(())
}
