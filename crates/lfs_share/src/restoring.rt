//! Room is made again, segment by segment.

ghost use Rattle.std.specs.Prelude.{◌≡◌, ◌<◌, ◌≤◌, OnErr, OnOk};
ghost use Rattle.lfs_segwrite.specs.Applying.{WritesWaiting};
ghost use Rattle.lfs_parts.specs.Store.{IsFlushed};
ghost use Rattle.lfs_logstore.specs.States.{state_of};
ghost use Rattle.lfs_share.specs.Answering.{WritesThenCleans};
ghost use Rattle.lfs_share.specs.Share.{IsWithinShare, KeepsOne, LacksShare};

use lfs_logstore::{GainFault, LogStore};
use lfs_types::store::FileStore;

/// The clean segments behind which any change has room.
pub const ENOUGH: u32 = 3;

/// No segment is clean, or more bytes are live than the share of the volume.
#[derive(Clone, Copy, PartialEq, Eq, Debug)]
pub struct ShareFault;

/// Writes what waits.
pub(crate) fn flush(store: &mut LogStore)
    ensures { WritesWaiting store.old store.new }
{
    match store.sync() {
        Ok(()) => {}
        // Never: a log store's `sync` is never refused (`never`).
        Err(_) => unreachable!(),
    }
}

/// Writes what waits, and cleans segments until three are clean. `ShareFault` where no segment is clean to begin with,
/// or where more bytes are live than those of the share: never where the files take no more than the share, and a
/// segment stays clean once what waits is written. Where three are clean already, it cleans none.
pub fn restore(store: &mut LogStore) -> Result<(), ShareFault>
    ensures restored { OnOk result (ENOUGH ≤ store.new.log.clean) }
    ensures past { OnErr result (LacksShare store.new) }
    ensures few { OnErr result (store.new.log.clean < ENOUGH) }
    ensures always { IsWithinShare (state_of store.old) → KeepsOne store.old
        → OnErr result ⊥ }
    ensures idle { WritesThenCleans store.old store.new }
    ensures flushed { IsFlushed store.new }
    ensures content { (state_of store.new).content ≡ (state_of store.old).content }
    ensures shape { (state_of store.new).shape ≡ (state_of store.old).shape }
{
    flush(store);
    while store.clean_segments() < ENOUGH {
        match store.gain() {
            Ok(()) => {}
            Err(GainFault) => return Err(ShareFault),
        }
    }
    Ok(())
}
