//! The volume of a mount: fresh, or that of an image's file, in which it is kept at the end.

ghost use Rattle.std.specs.Prelude.{◌≡◌, ◌⊎◌, IfErr, IfOk, IfSome, IsSome, OnOk};
ghost use Rattle.lfs_checking.specs.Files.{IsLoaded};
ghost use Rattle.lfs_fuse_talk.specs.Ends.{IsUnbegun, IsUnloaded};
ghost use Rattle.lfs_fuse_talk.specs.Images.{HasBegun, IsKept};
ghost use Rattle.lfs_fuse_talk.specs.declared.fault.TalkFault.TheVariants.{Memory, Save};

use crate::fault::TalkFault;
use crate::options::Options;
use lfs_checking::fault::{CheckFault, KeepFault};
use lfs_checking::fresh::fresh_store;
use lfs_checking::keeping::{load_file, save_file};
use lfs_fuse_wire::attributes::Time;
use lfs_logstore::LogStore;
use lfs_mount::mount::{Mount, Sizes};
use lfs_stands::OverLog;
use lfs_types::fault::FormatFault;
use lfs_types::level::Level;
use lfs_types::limits::LEAST_FRAMES;
use lfs_volume::volume::Volume;
use std::alloc::Global;
use std::rt::Files;

/// A mount of the volume whose image the named file has, and of a fresh one where none is named, or there is no such
/// file, over a kind of store that takes serials where they are asked for.
///
/// # Errors
///
/// `Format` where the volume can't have so many segments, inode numbers or frames; `Read` where the file can't be read,
/// `Image` where what it has is the image of no volume, `Unfit` where the store may not stand on its log; `Memory`.
pub(crate) fn mounted<F: OverLog + Drop, S: Files>(
    files: &S,
    alloc: Global,
    options: &Options<'_>,
    now: Time,
) -> Result<Mount<F>, TalkFault>
    requires { F.stand.takes options.now.serials }
    ensures begun { IfOk result (λ mount. HasBegun F.state F.stand options.now mount.tree.volume) }
    ensures fault { IfErr result (IsUnbegun F.stand.refuses options.now) }
{
    let Some(path) = options.image else {
        return fresh(alloc, options, now);
    };
    match load_file(files, alloc, path, options.params.frames) {
        Ok(Some((store, level))) => over(alloc, store, level, options, now),
        Ok(None) => fresh(alloc, options, now),
        Err(fault) => Err(unloaded(fault, options.params.frames)),
    }
}

/// A mount of a fresh volume, whose root is made now; its summaries have serials where that is asked for.
fn fresh<F: OverLog + Drop>(
    alloc: Global,
    options: &Options<'_>,
    now: Time,
) -> Result<Mount<F>, TalkFault>
    requires { F.stand.takes options.now.serials }
    ensures begun { IfOk result (λ mount. HasBegun F.state F.stand options.now mount.tree.volume) }
    ensures fault { IfErr result (IsUnbegun F.stand.refuses options.now) }
{
    let params = options.params;
    let store = fresh_store(alloc, params, options.serials)?;
    let store = match F::over_log(alloc, store)? {
        Ok(store) => store,
        // Never: by `opens` of `OverLog`.
        Err(_) => unreachable!(),
    };
    let volume = Volume::new(alloc, store, params.journal)?;
    let sizes = Sizes {
        segments: params.segments,
        inodes: params.inodes,
    };
    Ok(Mount::new(alloc, volume, sizes, now)?)
}

/// A mount of the volume of an image.
///
/// # Errors
///
/// `Unfit` where a store of the kind that is asked for may not stand on its log; `Memory`.
fn over<F: OverLog + Drop>(
    alloc: Global,
    store: LogStore,
    level: Level,
    options: &Options<'_>,
    now: Time,
) -> Result<Mount<F>, TalkFault>
    requires image { IsSome options.now.image }
    requires loaded { IsLoaded options.now.params.frames store level }
    ensures begun { IfOk result (λ mount. HasBegun F.state F.stand options.now mount.tree.volume) }
    ensures fault { IfErr result (IsUnbegun F.stand.refuses options.now) }
{
    let log = &store.parts().log;
    let sizes = Sizes {
        segments: log.segments(),
        inodes: log.inodes(),
    };
    let store = match F::over_log(alloc, store)? {
        Ok(store) => store,
        Err(why) => return Err(TalkFault::Unfit(why)),
    };
    let volume = Volume::over(alloc, store, level, options.params.journal)?;
    Ok(Mount::new(alloc, volume, sizes, now)?)
}

/// Why a volume is not loaded with so many frames.
fn unloaded(fault: KeepFault, frames: u32) -> TalkFault
    ensures { IsUnloaded result }
{
    match fault {
        KeepFault::Read(fault) => TalkFault::Read(fault),
        KeepFault::Image(fault) => TalkFault::Image(fault),
        KeepFault::Frames if frames < LEAST_FRAMES => TalkFault::Format(FormatFault::TooFew),
        KeepFault::Frames => TalkFault::Format(FormatFault::TooMany),
        KeepFault::Memory => TalkFault::Memory,
        // No file is saved where one is loaded.
        KeepFault::Save => TalkFault::Read(CheckFault::Open),
    }
}

/// Keeps the volume that a talk left in the image's file, where one is named.
///
/// # Errors
///
/// `Save` where what waits or a file was not written, or got no name; `Memory`.
pub(crate) fn keep<F: OverLog + Drop, S: Files>(
    files: &S,
    alloc: Global,
    mount: &mut Mount<F>,
    options: &Options<'_>,
) -> Result<(), TalkFault>
    ensures kept { OnOk result (IfSome options.now.image
        (λ _. IsKept S.File.contents F.state mount.old.tree.volume)) }
    ensures fault { IfErr result (λ fault. (fault ≡ Memory)
        ⊎ ((fault ≡ Save) × IsSome options.now.image)) }
{
    let Some(path) = options.image else {
        return Ok(());
    };
    match save(files, alloc, mount, path) {
        Ok(()) => Ok(()),
        Err(KeepFault::Memory) => Err(TalkFault::Memory),
        Err(_) => Err(TalkFault::Save),
    }
}

/// Writes what waits, and saves the volume in a file.
fn save<F: OverLog + Drop, S: Files>(
    files: &S,
    alloc: Global,
    mount: &mut Mount<F>,
    path: &str,
) -> Result<(), KeepFault>
    ensures { OnOk result (IsKept S.File.contents F.state mount.old.tree.volume) }
{
    if !mount.flush(alloc)? {
        return Err(KeepFault::Save);
    }
    save_file(files, alloc, mount.store().log_store(), mount.level(), path)
}
