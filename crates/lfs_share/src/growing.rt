//! By how much changes make files take more.

ghost use Rattle.std.specs.Prelude.{◌≡◌, ◌*◌, ◌≤◌, All, length};
ghost use Rattle.std.specs.FinMap.{get};
ghost use Rattle.lfs_types.specs.declared.limits.TheConstants.{FILE_BYTES};
ghost use Rattle.lfs_segwrite.specs.Applying.{IsInReach};
ghost use Rattle.lfs_parts.specs.Store.{IsStore};
ghost use Rattle.lfs_logstore.specs.States.{state_of};
ghost use Rattle.lfs_share.specs.Growing.{growth_of, growth_of_all, growth_to};
ghost use Rattle.lfs_share.specs.Share.{taken, units_of_file};

use crate::taking::units_of_length;
use lfs_logstore::LogStore;
use lfs_types::store::{Change, FileStore};

/// What the file of a number takes at most, in units: 0 where there is none.
fn units_of(store: &LogStore, ino: u32) -> u64
    ensures { result ≡ units_of_file (get (state_of store.now).content ino) }
{
    match store.attrs(ino) {
        Some(attrs) => units_of_length(attrs.size),
        None => 0,
    }
}

/// What all files take at most, in units.
pub(crate) fn taken(store: &LogStore) -> u64
    ensures taken { result
        ≡ taken (state_of store.now).shape.numbers (state_of store.now).content }
{
    let numbers = store.parts().log.inodes();
    let mut units = 0;
    for ino in 0..numbers {
        units += units_of(store, ino);
    }
    units
}

/// By how much the file of a number takes more where it gets at least this length, in units.
fn growth_to(store: &LogStore, ino: u32, len: u64) -> u64
    ensures { result ≡ growth_to (state_of store.now).content ino len }
{
    units_of_length(len).saturating_sub(units_of(store, ino))
}

/// By how much a change makes files take more at most, in units.
fn growth_of(store: &LogStore, change: &Change<'_>) -> u64
    requires { IsInReach change.now }
    ensures { result ≡ growth_of (state_of store.now).content change.now }
{
    match *change {
        Change::Make { .. } => units_of_length(0),
        Change::Remove { .. } | Change::SetAttrs { .. } => 0,
        Change::Put { ino, off, bytes } => {
            if bytes.is_empty() {
                0
            } else {
                growth_to(store, ino, off + bytes.len() as u64)
            }
        }
        Change::SetLength { ino, len } => growth_to(store, ino, len),
    }
}

/// By how much changes do, in units.
pub(crate) fn growth_of_all(store: &LogStore, changes: &[Change<'_>]) -> u64
    requires reach { All IsInReach changes.now }
    requires few { growth_of_all (state_of store.now).content changes.now ≤ 280000 }
    ensures { result ≡ growth_of_all (state_of store.now).content changes.now }
{
    let mut growth = 0;
    for change in changes {
        growth += growth_of(store, change);
    }
    growth
}
