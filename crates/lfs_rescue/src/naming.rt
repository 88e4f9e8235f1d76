//! Whether the names of what is found show a tree.

ghost use Rattle.std.specs.Prelude.{◌≡◌, ◌≤◌, ℕ, IfErr, OnOk, length, slice_index};
ghost use Rattle.lfs_calls.specs.Volumes.{HasWorld};
ghost use Rattle.lfs_log.specs.Parts.{LogParts};
ghost use Rattle.lfs_logstore.specs.States.{state_of};
ghost use Rattle.lfs_parts.specs.Files.{content_of};
ghost use Rattle.lfs_trees.specs.Faults.{IsBelow};
ghost use Rattle.lfs_fsck.specs.Stored.{IsStored, flushed};
ghost use Rattle.lfs_rescue.specs.Building.{IsBuildFault, IsBuilt, IsFoundOf, IsNamesFault};
ghost use Rattle.lfs_rescue.specs.Contents.{FindsAllOf};

use crate::building::{Found, log_of, store_over};
use crate::fault::RecoverFault;
use lfs_checking::fault::VolumeFault;
use lfs_logstore::LogStore;
use lfs_trees::checking::check_tree;
use lfs_trees::fault::TreeFault;
use lfs_types::limits::LEAST_FRAMES;
use std::alloc::Global;

/// What is wrong with the names of a store on the log with these live bytes. A walk over them fills a cache, so that
/// store is let go.
pub(crate) fn check_names(alloc: Global, found: Found<'_>, live: &[u32]) -> Result<(), RecoverFault>
    requires found { IsFoundOf found.memory.now found.last found.places.now found.marks.now
        found.inodes }
    requires many { length live.now ≡ found.memory.now.segments }
    requires few { (s : ℕ) → slice_index live.now s ≤ 32768 }
    requires stored { (l : LogParts) → IsBuilt found.memory.now found.last found.places.now
        found.marks.now found.inodes live.now l → IsStored l }
    requires content { (l : LogParts) → IsBuilt found.memory.now found.last found.places.now
        found.marks.now found.inodes live.now l → FindsAllOf found.memory.now (flushed l) }
    ensures world { OnOk result ((l : LogParts)
        → IsBuilt found.entry.memory.now found.entry.last
        found.entry.places.now found.entry.marks.now found.entry.inodes live.now l
        → HasWorld (state_of (flushed l))) }
    ensures fault { IfErr result (IsBuildFault found.entry.memory.now) }
{
    let log = log_of(alloc, found, live)?;
    let mut store = store_over(alloc, log, LEAST_FRAMES)?;
    match walk(alloc, &mut store, found.inodes) {
        Ok(()) => Ok(()),
        Err(fault) => Err(fault),
    }
}

/// What is wrong with the names of a store, each of whose numbers is below one.
fn walk(alloc: Global, store: &mut LogStore, numbers: u32) -> Result<(), RecoverFault>
    requires { IsBelow numbers (content_of store.old) }
    ensures world { OnOk result (HasWorld (state_of store.old)) }
    ensures fault { IfErr result (IsNamesFault (state_of store.old)) }
{
    match check_tree(alloc, store, numbers) {
        Ok(()) => Ok(()),
        Err(TreeFault::Memory) => Err(RecoverFault::Memory),
        Err(fault) => Err(RecoverFault::Volume {
            fault: VolumeFault::Tree { fault },
        }),
    }
}
