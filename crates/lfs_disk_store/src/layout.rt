//! How a store is laid out on a disk.

ghost use Rattle.std.specs.Prelude.{◌≡◌, ◌*◌, ◌↔◌, IfErr, IfOk, None, Some, false, length, true};
ghost use Rattle.lfs_types.specs.declared.limits.TheConstants.{SEGMENT_BLOCKS};
ghost use Rattle.lfs_parts.specs.Opening.{IsOpeningWith, IsTooFew, IsTooMany};
ghost use Rattle.lfs_durable_store.specs.Keeping.{settled};
ghost use Rattle.lfs_disk_store.specs.Layout.{IsNotLaidOut};

use crate::store::DiskStore;
use lfs_disk::{BlockDisk, DiskFault, lay_out};
use lfs_durable_store::DurableStore;
use lfs_types::fault::FormatFault;
use lfs_types::store::Params;
use std::alloc::Global;
use thiserror::Error;

/// Why a store isn't laid out on a disk.
#[derive(Clone, Copy, PartialEq, Eq, Debug, Error)]
pub enum LayoutFault {
    /// No store has these numbers, or a growth was refused.
    #[error("{0}")]
    Format(FormatFault),
    /// The disk failed.
    #[error("disk: {0}")]
    Disk(DiskFault),
}

/// A disk on which no store was laid out, and why.
#[derive(Drop)]
pub struct NotLaidOut<D> {
    /// Why.
    pub fault: LayoutFault,
    /// The disk. Any of its blocks may be others now.
    pub disk: D,
}

impl<D: BlockDisk> DiskStore<D> {
    /// A store with the root directory alone, laid out on a disk of as many segments: all its blocks are written, and have
    /// landed.
    ///
    /// # Errors
    ///
    /// `Format` as `DurableStore::format` refuses these numbers; `Disk` where the disk fails. The disk comes back.
    pub fn format(alloc: Global, params: Params, disk: D) -> Result<DiskStore<D>, NotLaidOut<D>>
        requires long { length (D.seen disk) ≡ params.segments * SEGMENT_BLOCKS }
        ensures laid_out { IfOk result (λ s. IsOpeningWith (Some 1) params.segments params.inodes
            params.frames s.store.store) }
        ensures base { IfOk result (λ s. s.store ≡ settled false s.store.store) }
        ensures sound { IfOk result (λ s. s.fault ≡ None) }
        ensures cause { IfErr result (λ not. IsNotLaidOut params.segments params.inodes params.frames
            (D.has_failed not.disk) not.fault) }
        ensures too_few { IsTooFew params.segments params.inodes params.frames → IfOk result (λ _. ⊥) }
        ensures too_many { IsTooMany params.segments params.inodes params.frames
            → IfOk result (λ _. ⊥) }
    {
        let mut disk = disk;
        let store = match DurableStore::format(alloc, params) {
            Ok(store) => store,
            Err(fault) => {
                return Err(NotLaidOut {
                    fault: LayoutFault::Format(fault),
                    disk,
                });
            }
        };
        match lay_out(&mut disk, store.log().parts().log.memory()) {
            Ok(()) => Ok(DiskStore::over(store, disk)),
            Err(fault) => Err(NotLaidOut {
                fault: LayoutFault::Disk(fault),
                disk,
            }),
        }
    }
}
