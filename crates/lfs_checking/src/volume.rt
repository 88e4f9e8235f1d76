//! Whether bytes are the image of a volume, and the volume.

ghost use Rattle.std.specs.Prelude.{◌≡◌, ◌++◌, ◌≤◌, IfErr, IfOk, OnOk, codes};
ghost use Rattle.lfs_types.specs.declared.level.Level.{Level};
ghost use Rattle.lfs_calls.specs.Volumes.{HasWorld};
ghost use Rattle.lfs_log.specs.Parts.{LogParts};
ghost use Rattle.lfs_logstore.specs.States.{state_of};
ghost use Rattle.lfs_view.specs.SpaceText.{space_text};
ghost use Rattle.lfs_fsck.specs.Stored.{IsStored, flushed, stored};
ghost use Rattle.lfs_types.specs.Ranges.{least_frames, most_frames};
ghost use Rattle.lfs_image.specs.Image.{IsImageOf, IsLabelled};
ghost use Rattle.lfs_checking.specs.declared.fault.VolumeFault.TheVariants.{Memory};
ghost use Rattle.lfs_checking.specs.Volumes.{IsTold, IsVolume, IsVolumeFaultOf};

use crate::fault::VolumeFault;
use lfs_image::{ImageFault, load};
use lfs_logstore::LogStore;
use lfs_trees::checking::check_tree;
use lfs_trees::fault::TreeFault;
use lfs_types::level::Level;
use lfs_types::limits::LEAST_FRAMES;
use lfs_view::shows::ShowsLog;
use std::alloc::{AllocError, Global};

/// What is told of the volume whose image these bytes are, whoever made them: that it is well, and how full it is. Else
/// what is wrong with them, or `Memory`. Each directory of the volume is read, and each block that a file has.
pub fn check_volume(alloc: Global, bytes: &[u8]) -> Result<Vec<u8>, VolumeFault>
    ensures told { IfOk result (λ text. IsTold bytes.now text.items) }
    ensures fault { IfErr result (IsVolumeFaultOf bytes.now) }
    // Where there is a fault, but for want of memory, they are the image of no volume.
    ensures none { IfErr result (λ fault. (fault ≡ Memory → ⊥) → (l : LogParts) (level : Level)
        → IsVolume bytes.now l level → ⊥) }
{
    volume_text(alloc, bytes)
}

/// What `check_volume` gives.
fn volume_text(alloc: Global, bytes: &[u8]) -> Result<Vec<u8>, VolumeFault>
    ensures told { IfOk result (λ text. IsTold bytes.now text.items) }
    ensures fault { IfErr result (IsVolumeFaultOf bytes.now) }
{
    let (mut store, level) = store_in(alloc, bytes, LEAST_FRAMES)?;
    let text = well_text(alloc, &store)?;
    check_names(alloc, &mut store, level, bytes)?;
    Ok(text)
}

/// The store and the securelevel of the volume whose image these bytes are, whoever made them, with a cache of so many
/// frames, 32 to 1,024, all empty: else what is wrong with them, or `Memory`. Nothing waits in the store. The bytes are
/// read twice: once to look at the names, which fills the cache, and once for what is given.
pub fn load_volume(
    alloc: Global,
    bytes: &[u8],
    frames: u32,
) -> Result<(LogStore, Level), VolumeFault>
    requires at_least { least_frames ≤ frames }
    requires at_most { frames ≤ most_frames }
    ensures volume { IfOk result (λ both. IsVolume bytes.now both.0.log both.1) }
    ensures flushed { IfOk result (λ both. both.0 ≡ stored frames both.0.log) }
    ensures world { IfOk result (λ both. HasWorld (state_of both.0)) }
    ensures fault { IfErr result (IsVolumeFaultOf bytes.now) }
{
    let text = check_volume(alloc, bytes)?;
    drop(text);
    let both = store_in(alloc, bytes, frames)?;
    Ok(both)
}

/// The store and the securelevel whose image these bytes are, with so many frames.
fn store_in(alloc: Global, bytes: &[u8], frames: u32) -> Result<(LogStore, Level), VolumeFault>
    requires at_least { least_frames ≤ frames }
    requires at_most { frames ≤ most_frames }
    ensures image { IfOk result (λ both. IsImageOf bytes.now both.0.log both.1) }
    ensures stored { IfOk result (λ both. IsStored both.0.log) }
    ensures flushed { IfOk result (λ both. both.0 ≡ stored frames both.0.log) }
    ensures labelled { IfOk result (λ both. IsLabelled both.0.log) }
    ensures fault { IfErr result (IsVolumeFaultOf bytes.now) }
{
    match load(alloc, bytes, frames) {
        Ok(both) => Ok(both),
        Err(ImageFault::Memory) => Err(VolumeFault::Memory),
        Err(fault) => Err(VolumeFault::Image { fault }),
    }
}

/// What is told of the volume of a store: that it is well, and how full it is.
///
/// # Errors
///
/// A growth was refused.
pub fn well_text(alloc: Global, store: &LogStore) -> Result<Vec<u8>, AllocError>
    ensures { IfOk result (λ text. text.items ≡ codes "ok\n" ++ space_text store.now) }
{
    let mut text = Vec::new(alloc);
    text.extend_from_slice(b"ok\n")?;
    store.push_space(&mut text)?;
    Ok(text)
}

/// What is wrong with the names of the store whose image some bytes are.
fn check_names(
    alloc: Global,
    store: &mut LogStore,
    level: Level,
    bytes: &[u8],
) -> Result<(), VolumeFault>
    requires image { IsImageOf bytes.now store.old.log level }
    requires flushed { store.old ≡ flushed store.old.log }
    ensures world { OnOk result (HasWorld (state_of (flushed store.old.log))) }
    ensures fault { IfErr result (IsVolumeFaultOf bytes.now) }
{
    let numbers = store.parts().log.inodes();
    match check_tree(alloc, store, numbers) {
        Ok(()) => Ok(()),
        Err(TreeFault::Memory) => Err(VolumeFault::Memory),
        Err(fault) => Err(VolumeFault::Tree { fault }),
    }
}
