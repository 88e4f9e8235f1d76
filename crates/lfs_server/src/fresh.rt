//! A fresh volume over the log store.

ghost use Rattle.std.specs.Prelude.{◌≡◌, [], IfErr, IfOk, OnOk};
ghost use Rattle.lfs_types.specs.Tree.{opening_world};
ghost use Rattle.lfs_logstore.specs.States.{state_of};
ghost use Rattle.lfs_volume.specs.Journals.{Begins};
ghost use Rattle.lfs_server.specs.Fresh.{IsFormatFault, IsFreshLog};
ghost use Rattle.lfs_server.specs.Serving.{IsInRange};

use lfs_logstore::LogStore;
use lfs_types::fault::FormatFault;
use lfs_types::store::Params;
use lfs_volume::volume::Volume;
use std::alloc::Global;

/// A fresh volume over the log store: the opening tree, and no entries. Its journal begins over the very store that was
/// laid out.
///
/// # Errors
///
/// `TooFew` and `TooMany` for numbers out of their ranges; `Memory` where a growth was refused.
pub fn fresh_volume(alloc: Global, params: Params) -> Result<Volume<LogStore>, FormatFault>
    ensures fresh { IfOk result (λ volume. (volume.journal ≡ []) × (volume.limit ≡ params.journal)
        × IsFreshLog params.segments params.inodes params.frames volume.store) }
    ensures since { IfOk result (λ volume. volume.since ≡ volume.store) }
    ensures begins { IfOk result (λ volume.
        Begins (state_of volume.since) volume.since_level opening_world) }
    ensures ranges { OnOk result (IsInRange params.segments params.inodes params.frames) }
    ensures fault { IfErr result (IsFormatFault params.segments params.inodes params.frames) }
{
    let store = LogStore::format(alloc, params)?;
    Ok(Volume::new(alloc, store, params.journal)?)
}
