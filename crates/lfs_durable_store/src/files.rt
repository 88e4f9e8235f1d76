//! The store's files.

ghost use Rattle.std.specs.Prelude.{◌≡◌, [], length, IsSome, OnErr, OnOk};
ghost use Rattle.std.specs.FinMap.{get};
ghost use Rattle.lfs_types.specs.Changes.{CanApply};
ghost use Rattle.lfs_types.specs.StoreStates.{Applies};
ghost use Rattle.lfs_types.specs.Stored.{Reads, bytes_of, slice_of};
ghost use Rattle.lfs_durable_store.specs.Answering.{ComesTo, FillsFrames, SettlesIfPast, SettlesInPlace, WritesFirst};
ghost use Rattle.lfs_durable_store.specs.Keeping.{Durably, IsSettled, durable_state};

use crate::fitting::{fits, fits_with};
use crate::store::{DurableStore, settle};
use lfs_logstore::LogStore;
use lfs_types::attrs::Attrs;
use lfs_types::store::{Change, FileStore, Reserve, StoreRefusal};
use std::snapshot::Snapshot;

impl DurableStore {
    /// Writes what waits where with changes it might not fit the active segment: the first part of `apply`, for a caller
    /// that has something to do behind each flush.
    pub fn make_way(&mut self, changes: &[Change<'_>])
        requires { CanApply (durable_state self.old).shape.numbers changes.now
            (durable_state self.old).content }
        ensures { WritesFirst changes.now self.old self.new }
    {
        if !fits_with(self.store.parts(), changes) {
            settle(&mut self.store, &mut self.base);
            self.mark = self.mark.turned();
        }
    }

    /// Makes changes for which way was made, all of them, in order, or none: the rest of `apply`. What waits is written
    /// behind them where it doesn't fit the active segment.
    ///
    /// # Errors
    ///
    /// Those of `apply`.
    pub fn make_changes(&mut self, changes: &[Change<'_>], by: Reserve) -> Result<(), StoreRefusal>
        requires can { CanApply (durable_state self.old).shape.numbers changes.now
            (durable_state self.old).content }
        requires way { (before : Durably) × WritesFirst changes.now before self.old }
        ensures applies { (before : Durably) → WritesFirst changes.now before self.old
            → Applies (durable_state before) changes.now result (durable_state self.new) }
        ensures made { (before : Durably) → WritesFirst changes.now before self.old
            → (c : ComesTo before changes.now by result self.new) × (c.before ≡ self.old) }
    {
        match self.store.apply(changes, by) {
            Ok(()) => {}
            Err(refusal) => return Err(refusal),
        }
        self.mark.is_whole = settle_if_past(&mut self.store, &mut self.base);
        Ok(())
    }
}

/// Writes what waits where it doesn't fit the active segment, and says whether it did.
fn settle_if_past(store: &mut LogStore, base: &mut Snapshot<LogStore>) -> bool
    ensures { SettlesIfPast store.old base.old.value result store.new base.new.value }
{
    if fits(store.parts()) {
        return false;
    }
    settle(store, base);
    true
}

impl FileStore for DurableStore {
    ghost use Rattle.lfs_durable_store.specs.Answering.{ComesTo};
    ghost use Rattle.lfs_durable_store.specs.Keeping.{IsSettled, durable_state};

    ghost state = { durable_state };

    ghost is_flushed = { IsSettled };

    ghost made = { ComesTo };

    fn attrs(&self, ino: u32) -> Option<Attrs> {
        self.store.attrs(ino)
    }

    fn read(&mut self, ino: u32, off: u64, into: &mut [u8]) -> usize
        requires { IsSome (get (durable_state self.old).content ino) }
        ensures reads { Reads
            (slice_of (bytes_of (durable_state self.old).content ino) off (length into.old))
            result into.old into.new }
        ensures state { durable_state self.new ≡ durable_state self.old }
        ensures fills { FillsFrames self.old self.new }
    {
        self.store.read(ino, off, into)
    }

    fn least_free(&self) -> Option<u32> {
        self.store.least_free()
    }

    fn clean_segments(&self) -> u32 {
        self.store.clean_segments()
    }

    /// Makes all the changes, in order, or none, as a log store does. So that no segment is opened while something waits
    /// from before, what waits is written first where with them it might not fit the active segment, and behind them
    /// where it doesn't.
    fn apply(&mut self, changes: &[Change<'_>], by: Reserve) -> Result<(), StoreRefusal>
        requires { CanApply (durable_state self.old).shape.numbers changes.now
            (durable_state self.old).content }
        ensures applies { Applies (durable_state self.old) changes.now result
            (durable_state self.new) }
        ensures made { ComesTo self.old changes.now by result self.new }
    {
        self.make_way(changes);
        self.make_changes(changes, by)
    }

    /// Writes what waits. It always has room, and opens no segment.
    fn sync(&mut self) -> Result<(), StoreRefusal>
        ensures applies { Applies (durable_state self.old) [] result (durable_state self.new) }
        ensures flushed { OnOk result (IsSettled self.new) }
        ensures settles { SettlesInPlace self.old self.new }
        ensures never { OnErr result ⊥ }
    {
        settle(&mut self.store, &mut self.base);
        self.mark = self.mark.whole();
        Ok(())
    }
}
