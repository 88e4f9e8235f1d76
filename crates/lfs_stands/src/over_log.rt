//! A store on a log store.

ghost use Rattle.std.specs.Prelude.{◌≡◌, ◌≤◌, Bool, IfErr, IfOk};
ghost use Rattle.lfs_types.specs.declared.store.Params.{Params};
ghost use Rattle.lfs_found.specs.Written.{IsRecoverable};
ghost use Rattle.lfs_parts.specs.Store.{IsFlushed};
ghost use Rattle.lfs_parts.specs.declared.parts.Parts.{Parts};
ghost use Rattle.lfs_segwrite.specs.Ordered.{IsOrdered};
ghost use Rattle.lfs_logstore.specs.States.{opening_state, state_of};
ghost use Rattle.lfs_checking.specs.Files.{IsFreshStore};
ghost use Rattle.lfs_stands.specs.declared.unfit.Unfit.{Unfit};
ghost use Rattle.lfs_stands.specs.Stands.{Stand};

use crate::unfit::Unfit;
use lfs_checking::standing::ChecksLog;
use lfs_disk::BlockDisk;
use lfs_disk_store::DiskStore;
use lfs_durable_store::DurableStore;
use lfs_findable::can_be_found;
use lfs_logstore::LogStore;
use lfs_share::SharedStore;
use lfs_types::cleaned::CleanedStore;
use lfs_view::shows::ShowsLog;
use std::alloc::{AllocError, Global};

/// A store that stands on a log store: a film shows that log, and a file gets its image.
pub trait OnLog: CleanedStore + ShowsLog + ChecksLog {
    /// How it stands on a log store.
    ghost stand: { Stand Self };

    /// The log store, to be looked at.
    fn log_store(&self) -> &LogStore
        ensures { result.now ≡ stand.parts self.now };

    /// It contains what its log store contains.
    ghost contains: { (s : Self) → (Self.state s).content ≡ (state_of (stand.parts s)).content };
    /// Where nothing waits in it, nothing waits in its log store.
    ghost rests: { (s : Self) → Self.is_flushed s → IsFlushed (stand.parts s) };
}

/// A store that can be made of a log store alone.
pub trait OverLog: OnLog {
    /// The store over a log store in which nothing waits, or why it may not stand on that.
    ///
    /// # Errors
    ///
    /// A growth was refused.
    fn over_log(alloc: Global, store: LogStore) -> Result<Result<Self, Unfit>, AllocError>
    where
        Self: Sized,
        requires { IsFlushed store }
        ensures fit { IfOk result (λ made. IfOk made (λ over. Self.stand.parts over ≡ store)) }
        ensures within { IfOk result (λ made. IfOk made Self.stand.within) }
        ensures unfit { IfOk result (λ made. IfErr made (λ why. Self.stand.refuses why store)) };

    /// It may stand on one that was just laid out, with serials or without as it takes them.
    ghost opens: { (params : Params) (serials : Bool) (p : Parts) (why : Unfit) → Self.stand.takes serials
        → IsFreshStore serials params p → IsRecoverable p.log.memory → IsOrdered p.log
        → state_of p ≡ opening_state params.segments params.inodes → 6 ≤ params.segments
        → Self.stand.refuses why p → ⊥ };
}

impl OnLog for LogStore {
    ghost use Rattle.std.specs.Prelude.{refl};
    ghost use Rattle.lfs_stands.specs.Stands.{log_stand};

    ghost stand = { log_stand };

    ghost contains = { λ s. refl };

    ghost rests = { λ s flushed. flushed };

    fn log_store(&self) -> &LogStore {
        self
    }
}

impl OverLog for LogStore {
    ghost opens = { λ params serials p why takes fresh whole ordered same enough refused. refused };

    fn over_log(_alloc: Global, store: LogStore) -> Result<Result<LogStore, Unfit>, AllocError> {
        Ok(Ok(store))
    }
}

impl OnLog for SharedStore {
    ghost use Rattle.std.specs.Prelude.{refl};
    ghost use Rattle.lfs_stands.specs.Stands.{share_stand};

    ghost stand = { share_stand };

    ghost contains = { λ s. refl };

    ghost rests = { λ s flushed. flushed };

    fn log_store(&self) -> &LogStore {
        self.log()
    }
}

impl OverLog for SharedStore {
    ghost use Rattle.lfs_share.proofs.OpeningLemmas.{opening_within};

    ghost opens = { λ params serials p why takes fresh whole ordered same enough refused.
        opening_within params.segments params.inodes p same enough refused.1 };

    fn over_log(_alloc: Global, store: LogStore) -> Result<Result<SharedStore, Unfit>, AllocError> {
        match SharedStore::over(store) {
            Some(over) => Ok(Ok(over)),
            None => Ok(Err(Unfit::PastShare)),
        }
    }
}

impl OnLog for DurableStore {
    ghost use Rattle.std.specs.Prelude.{refl};
    ghost use Rattle.lfs_stands.specs.Stands.{durable_stand};

    ghost stand = { durable_stand };

    ghost contains = { λ s. refl };

    ghost rests = { λ s settled. settled.flushed };

    fn log_store(&self) -> &LogStore {
        self.log()
    }
}

impl OverLog for DurableStore {
    ghost use Rattle.std.proofs.Common.{subst};
    ghost use Rattle.lfs_durable.proofs.KeptLemmas.{fresh_can_be_found};

    ghost opens = { λ params serials p why takes fresh whole ordered same enough refused.
        refused.1 (fresh_can_be_found p params.segments params.inodes params.frames
        (subst (λ b. IsFreshStore b params p) takes fresh) whole ordered) };

    fn over_log(alloc: Global, store: LogStore) -> Result<Result<DurableStore, Unfit>, AllocError> {
        if can_be_found(alloc, &store)? {
            Ok(Ok(DurableStore::over(store)))
        } else {
            Ok(Err(Unfit::Lost))
        }
    }
}

impl<D: BlockDisk> OnLog for DiskStore<D> {
    ghost use Rattle.std.specs.Prelude.{refl};
    ghost use Rattle.lfs_stands.specs.Stands.{disk_stand};

    ghost stand = { disk_stand };

    ghost contains = { λ s. refl };

    ghost rests = { λ s on_disk. on_disk.settled.flushed };

    fn log_store(&self) -> &LogStore {
        self.log()
    }
}
