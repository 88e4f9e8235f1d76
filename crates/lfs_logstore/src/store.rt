//! A store over a log, and how it is laid out.

ghost use Rattle.std.specs.Prelude.{◌≡◌, ◌↔◌, IfOk, IsErrOf, Some};
ghost use Rattle.lfs_segments.specs.Memory.{IsNextSerial};
ghost use Rattle.lfs_segments.specs.Rising.{IsRising};
ghost use Rattle.lfs_found.specs.Written.{IsRecoverable};
ghost use Rattle.lfs_parts.specs.Opening.{IsOpening, IsOpeningWith, IsTooFew, IsTooMany};
ghost use Rattle.lfs_parts.specs.Store.{IsFlushed, IsStore};
ghost use Rattle.lfs_segwrite.specs.Ordered.{IsOrdered};
ghost use Rattle.lfs_logstore.specs.States.{opening_state};

use lfs_parts::parts::Parts;
use lfs_types::fault::FormatFault;
use lfs_types::store::{FileStore, Params};
use std::alloc::Global;
use std::marker::Model;

/// A file store over a log of segments. Contracts see its parts. What waits to be written always has room.
#[derive(Drop)]
pub struct LogStore {
    pub(crate) parts: Parts,
}

impl Model for LogStore {
    ghost use Rattle.lfs_parts.specs.declared.parts.Parts.{Parts};
    ghost use Rattle.lfs_segwrite.specs.Applying.{HasRoom};
    ghost use Rattle.lfs_parts.specs.Store.{IsStore};

    ghost Value = { Parts };

    ghost view = { λ s. s.parts };

    ghost invariant = { λ s. IsStore s.parts × HasRoom s.parts };
}

impl LogStore {
    /// A store of 6 to 1,024 segments, 16 to 4,096 inode numbers and 32 to 1,024 frames, with the root directory alone:
    /// else `TooFew` or `TooMany` for the first of the three that is out of its range. `Memory` where a growth is
    /// refused; of the later calls only that for the ifile's bytes takes memory. Summaries have no serials.
    pub fn format(alloc: Global, params: Params) -> Result<LogStore, FormatFault>
        ensures too_few { IsErrOf result FormatFault.TooFew
            ↔ IsTooFew params.segments params.inodes params.frames }
        ensures too_many { IsErrOf result FormatFault.TooMany
            ↔ IsTooMany params.segments params.inodes params.frames }
        ensures opening { IfOk result (λ store. ⟦<LogStore as FileStore>⟧.state store
            ≡ opening_state params.segments params.inodes) }
        // Its log: a summary at address 1, and at 2 the block with the root's record alone.
        ensures laid_out { IfOk result (IsOpening params.segments params.inodes params.frames) }
        ensures rising { IfOk result (λ store. IsRising store.log.memory) }
        ensures whole { IfOk result (λ store. IsRecoverable store.log.memory) }
        ensures ordered { IfOk result (λ store. IsOrdered store.log) }
    {
        LogStore::format_as(alloc, params, None)
    }

    /// Such a store whose summaries have serials, the first 1.
    pub fn format_with_serials(alloc: Global, params: Params) -> Result<LogStore, FormatFault>
        ensures too_few { IsErrOf result FormatFault.TooFew
            ↔ IsTooFew params.segments params.inodes params.frames }
        ensures too_many { IsErrOf result FormatFault.TooMany
            ↔ IsTooMany params.segments params.inodes params.frames }
        ensures opening { IfOk result (λ store. ⟦<LogStore as FileStore>⟧.state store
            ≡ opening_state params.segments params.inodes) }
        ensures laid_out { IfOk result
            (IsOpeningWith (Some 1) params.segments params.inodes params.frames) }
        // Serials rise, and stay so: `rising` of `WritesAhead` and `MovesBlocks`.
        ensures rising { IfOk result (λ store. IsRising store.log.memory) }
        // Partial segments are whole, and stay so: `whole` of each call.
        ensures whole { IfOk result (λ store. IsRecoverable store.log.memory) }
        // Each number's latest record stands where the inode map has it, and stays so: `ordered` of each call.
        ensures ordered { IfOk result (λ store. IsOrdered store.log) }
    {
        LogStore::format_as(alloc, params, Some(1))
    }

    /// Such a store whose first summary has this serial, where there is one; else summaries have none.
    fn format_as(
        alloc: Global,
        params: Params,
        serial: Option<u32>,
    ) -> Result<LogStore, FormatFault>
        requires { IsNextSerial serial }
        ensures too_few { IsErrOf result FormatFault.TooFew
            ↔ IsTooFew params.segments params.inodes params.frames }
        ensures too_many { IsErrOf result FormatFault.TooMany
            ↔ IsTooMany params.segments params.inodes params.frames }
        ensures opening { IfOk result (λ store. ⟦<LogStore as FileStore>⟧.state store
            ≡ opening_state params.segments params.inodes) }
        ensures laid_out { IfOk result
            (IsOpeningWith serial params.segments params.inodes params.frames) }
        ensures rising { IfOk result (λ store. IsRising store.log.memory) }
    {
        let parts = Parts::format_as(alloc, params.segments, params.inodes, params.frames, serial)?;
        Ok(LogStore { parts })
    }

    /// The store over these parts, of which nothing waits, whoever made them.
    pub fn over(parts: Parts) -> LogStore
        requires store { IsStore parts }
        requires flushed { IsFlushed parts }
        ensures { result ≡ parts }
    {
        LogStore { parts }
    }
}
