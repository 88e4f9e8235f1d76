//! The store.

ghost use Rattle.std.specs.Prelude.{◌≡◌, ◌↔◌, IfOk, IsErrOf, Some, false};
ghost use Rattle.lfs_parts.specs.Opening.{IsOpeningWith, IsTooFew, IsTooMany};
ghost use Rattle.lfs_parts.specs.Store.{IsFlushed, IsStore};
ghost use Rattle.lfs_segwrite.specs.Applying.{WritesWaiting};
ghost use Rattle.lfs_logstore.specs.States.{opening_state, state_of};
ghost use Rattle.lfs_durable.specs.Kept.{CanBeFound};
ghost use Rattle.lfs_durable_store.specs.Keeping.{IsKept, settled};
ghost use Rattle.lfs_durable_store.specs.Surviving.{Survives};

use crate::mark::Mark;
use lfs_logstore::LogStore;
use lfs_types::fault::FormatFault;
use lfs_types::store::{FileStore, Params};
use std::alloc::Global;
use std::marker::Model;
use std::snapshot::Snapshot;

/// A log store of which a crash, at rest or in the flush of what waits, leaves what its base contains. Contracts see the
/// log store's parts as they are, and as they were at the base.
#[derive(Drop)]
pub struct DurableStore {
    pub(crate) store: LogStore,
    /// The log store when last nothing waited. It takes no bytes: only proofs look at it.
    pub(crate) base: Snapshot<LogStore>,
    pub(crate) mark: Mark,
}

impl Model for DurableStore {
    ghost use Rattle.lfs_durable_store.specs.Keeping.{Durably, IsKept};

    ghost Value = { Durably };

    ghost view = { λ s. record { store = s.store; base = s.base.value; mark = s.mark } };

    ghost invariant = { λ s. IsKept
        (record { store = s.store; base = s.base.value; mark = s.mark }) };
}

/// The base that a log store is, where nothing waits.
pub(crate) fn base_of(store: &LogStore) -> Snapshot<LogStore>
    ensures base { result.value ≡ store.now }
    ensures store { IsStore store.now }
{
    store.parts();
    Snapshot::of(store)
}

/// Writes what waits, and takes the store for its base.
pub(crate) fn settle(store: &mut LogStore, base: &mut Snapshot<LogStore>)
    ensures written { WritesWaiting store.old store.new }
    ensures base { base.new.value ≡ store.new }
{
    match store.sync() {
        Ok(()) => {}
        // Never: a log store's `sync` is never refused (`never`).
        Err(_) => unreachable!(),
    }
    *base = base_of(store);
}

impl DurableStore {
    /// A store with the root directory alone, over a log store of these numbers whose summaries have serials:
    /// `LogStore::format_with_serials`.
    ///
    /// # Errors
    ///
    /// `TooFew` and `TooMany` for the first of the numbers that is out of its range; `Memory` where a growth is
    /// refused.
    pub fn format(alloc: Global, params: Params) -> Result<DurableStore, FormatFault>
        ensures too_few { IsErrOf result FormatFault.TooFew
            ↔ IsTooFew params.segments params.inodes params.frames }
        ensures too_many { IsErrOf result FormatFault.TooMany
            ↔ IsTooMany params.segments params.inodes params.frames }
        ensures opening { IfOk result (λ s. state_of s.store
            ≡ opening_state params.segments params.inodes) }
        ensures laid_out { IfOk result (λ s. IsOpeningWith (Some 1) params.segments params.inodes
            params.frames s.store) }
        ensures base { IfOk result (λ s. s ≡ settled false s.store) }
    {
        let store = LogStore::format_with_serials(alloc, params)?;
        Ok(DurableStore::over(store))
    }

    /// The store over a log store that can be found, and in which nothing waits.
    pub fn over(store: LogStore) -> DurableStore
        requires found { CanBeFound store }
        requires flushed { IsFlushed store }
        ensures settled { result ≡ settled false store }
        ensures kept { IsKept result }
    {
        let base = base_of(&store);
        DurableStore {
            store,
            base,
            mark: Mark::first(),
        }
    }

    /// What it tells of its base.
    pub fn mark(&self) -> Mark
        ensures mark { result ≡ self.now.mark }
        ensures kept { IsKept self.now }
    {
        self.mark
    }

    /// The log store, to be looked at.
    pub fn log(&self) -> &LogStore
        ensures log { result.now ≡ self.now.store }
        ensures kept { IsKept self.now }
        // A crash, at rest or in the flush of what waits, leaves what the base contains.
        ensures survives { Survives self.now }
    {
        &self.store
    }
}
