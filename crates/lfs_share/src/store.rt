//! The store.

ghost use Rattle.std.specs.Prelude.{◌≡◌, ◌+◌, ◌^◌, ◌<◌, ◌≤◌, ◌⊎◌, ◌↔◌, IfNone, IfOk, IfSome, IsErrOf, IsFalse, IsTrue};
ghost use Rattle.lfs_types.specs.Changes.{CanApply, applied};
ghost use Rattle.lfs_parts.specs.Opening.{IsOpening, IsTooFew, IsTooMany};
ghost use Rattle.lfs_parts.specs.Store.{IsFlushed};
ghost use Rattle.lfs_segwrite.specs.Applying.{MakesChanges};
ghost use Rattle.lfs_logstore.specs.States.{opening_state, state_of};
ghost use Rattle.lfs_share.specs.Answering.{MakesRoom, WritesThenCleans, shared_state, with_share};
ghost use Rattle.lfs_share.specs.Share.{IsWithinShare, KeepsOne, share_of, taken};

use crate::growing::taken;
use crate::restoring::{ENOUGH, restore};
use crate::taking::share_of;
use lfs_logstore::LogStore;
use lfs_types::fault::FormatFault;
use lfs_types::store::{Change, FileStore, Params, Reserve};
use std::alloc::Global;
use std::marker::Model;

/// A log store whose files take no more than its share, and of which a segment stays clean once what waits is written:
/// so cleaning makes room again whenever it is asked to. Contracts see the log store's parts.
#[derive(Drop)]
pub struct SharedStore {
    pub(crate) store: LogStore,
    /// No less than the files take, and no more than the share.
    pub(crate) most: u64,
}

impl Model for SharedStore {
    ghost use Rattle.std.specs.Prelude.{◌≤◌};
    ghost use Rattle.lfs_parts.specs.declared.parts.Parts.{Parts};
    ghost use Rattle.lfs_logstore.specs.States.{state_of};
    ghost use Rattle.lfs_share.specs.Share.{KeepsOne, share_of, taken};

    ghost Value = { Parts };

    ghost view = { λ s. s.store };

    ghost invariant = { λ s. KeepsOne s.store
        × (taken (state_of s.store).shape.numbers (state_of s.store).content ≤ s.most)
        × (s.most ≤ share_of (state_of s.store).shape.segments) };
}

/// Whether the files may take so much more. Where that isn't sure, what they take is counted anew.
pub(crate) fn may_grow(store: &LogStore, most: &mut u64, growth: u64) -> bool
    requires few { growth ≤ 280000 }
    requires least { taken (state_of store.now).shape.numbers (state_of store.now).content
        ≤ most.old }
    requires within { most.old ≤ share_of (state_of store.now).shape.segments }
    ensures least { taken (state_of store.now).shape.numbers (state_of store.now).content
        ≤ most.new }
    ensures may { IsTrue result
        → most.new + growth ≤ share_of (state_of store.now).shape.segments }
    ensures within { most.new ≤ share_of (state_of store.now).shape.segments }
    ensures fits { IsTrue result → most.new + growth < 2 ^ 64 }
    ensures not { IsFalse result → share_of (state_of store.now).shape.segments
        < taken (state_of store.now).shape.numbers (state_of store.now).content + growth }
{
    let share = share_of(store.parts().log.segments());
    if *most + growth <= share {
        return true;
    }
    *most = taken(store);
    *most + growth <= share
}

/// Makes three segments clean where fewer are.
pub(crate) fn make_way(store: &mut LogStore)
    requires share { IsWithinShare (state_of store.old) }
    requires kept { KeepsOne store.old }
    ensures { MakesRoom store.old store.new }
{
    if store.clean_segments() >= ENOUGH {
        return;
    }
    match restore(store) {
        Ok(()) => {}
        // Never: by `share` and `kept`.
        Err(_) => unreachable!(),
    }
}

/// Makes changes, where three segments are clean.
pub(crate) fn apply_behind(store: &mut LogStore, changes: &[Change<'_>], by: Reserve)
    requires can { CanApply (state_of store.old).shape.numbers changes.now
        (state_of store.old).content }
    requires clean { ENOUGH ≤ store.old.log.clean }
    ensures applied { (state_of store.new).content
        ≡ applied changes.now (state_of store.old).content }
    ensures shape { (state_of store.new).shape ≡ (state_of store.old).shape }
    ensures kept { KeepsOne store.new }
    ensures makes { MakesChanges by changes.now store.old store.new }
{
    match store.apply(changes, by) {
        Ok(()) => {}
        // Never: three segments are clean (`clean`).
        Err(_) => unreachable!(),
    }
}

impl SharedStore {
    /// A store with the root directory alone, over a log store of these numbers: `LogStore::format`.
    ///
    /// # Errors
    ///
    /// `TooFew` and `TooMany` for the first of the numbers that is out of its range; `Memory` where a growth is
    /// refused.
    pub fn format(alloc: Global, params: Params) -> Result<SharedStore, FormatFault>
        ensures too_few { IsErrOf result FormatFault.TooFew
            ↔ IsTooFew params.segments params.inodes params.frames }
        ensures too_many { IsErrOf result FormatFault.TooMany
            ↔ IsTooMany params.segments params.inodes params.frames }
        ensures opening { IfOk result (λ shared. shared_state shared
            ≡ with_share (opening_state params.segments params.inodes)) }
        ensures laid_out { IfOk result (IsOpening params.segments params.inodes params.frames) }
    {
        let store = LogStore::format(alloc, params)?;
        match SharedStore::over(store) {
            Some(shared) => Ok(shared),
            // Never: by `opening_within` a fresh store is within its share.
            None => unreachable!(),
        }
    }

    /// The store over a log store, where its files take no more than the share and two segments are clean.
    pub fn over(store: LogStore) -> Option<SharedStore>
        ensures some { IfSome result (λ shared. shared ≡ store) }
        ensures within { IfSome result (λ shared. IsWithinShare (shared_state shared)) }
        ensures none { IfNone result ((store.log.clean ≤ 1)
            ⊎ (share_of store.log.memory.segments < taken (state_of store).shape.numbers (state_of store).content)) }
    {
        if store.clean_segments() < 2 {
            return None;
        }
        let most = taken(&store);
        if most > share_of(store.parts().log.segments()) {
            return None;
        }
        Some(SharedStore { store, most })
    }

    /// Writes what waits, and cleans segments until three are clean: none, where they are already.
    pub fn restore(&mut self)
        ensures clean { ENOUGH ≤ (shared_state self.new).clean }
        ensures idle { WritesThenCleans self.old self.new }
        ensures flushed { IsFlushed self.new }
        ensures content { (shared_state self.new).content ≡ (shared_state self.old).content }
        ensures shape { (shared_state self.new).shape ≡ (shared_state self.old).shape }
        ensures within { IsWithinShare (shared_state self.new) }
    {
        match restore(&mut self.store) {
            Ok(()) => {}
            // Never: it is within its share by its type.
            Err(_) => unreachable!(),
        }
    }

    /// The log store, to be looked at.
    pub fn log(&self) -> &LogStore
        ensures log { result.now ≡ self.now }
        ensures within { IsWithinShare (shared_state self.now) }
    {
        &self.store
    }
}
