//! The volume of a talk: fresh, or that of an image's file, in which it is kept at the end.

ghost use Rattle.std.specs.Prelude.{◌≡◌, false, true, IfErr, IfOk, IfSome, IsSome, OnOk};
ghost use Rattle.lfs_checking.specs.Files.{IsLoaded};
ghost use Rattle.lfs_server.specs.Fresh.{IsFormatFault};
ghost use Rattle.lfs_programs.specs.Talks.{IsToBeKept};
ghost use Rattle.lfs_programs.specs.Volumes.{HasSaved, IsBegun, IsFresh, IsUnbegun, IsWritten};
ghost use Rattle.lfs_volume.specs.Cleanings.{cleaner_of};

use crate::fault::{ShellFault, UnkeptFault};
use crate::filming::NAME;
use crate::options::ShellOptions;
use lfs_audit::fault::RunFault;
use lfs_checking::fault::KeepFault;
use lfs_checking::fresh::fresh_store;
use lfs_checking::keeping::{load_file, save_file};
use lfs_io::tell::tell;
use lfs_live::tended::Tended;
use lfs_logstore::LogStore;
use lfs_sinks::sink::JournalSink;
use lfs_stands::{OnLog, OverLog};
use lfs_types::fault::FormatFault;
use lfs_types::level::Level;
use lfs_volume::volume::Volume;
use std::alloc::{AllocError, Global};
use std::io::Write;
use std::rt::Files;

/// The volume that a talk begins with: that of the image's file, where one is asked for and there is such a file, and
/// else a fresh one.
///
/// # Errors
///
/// `Talk` with a fault of the format, or `Memory`; `Image` of a file that can't be read, or is the image of no volume;
/// `Unfit` of one on whose log a store of the kind that is asked for may not stand.
pub(crate) fn begin<S: OverLog + Drop, F: Files>(
    files: &F,
    alloc: Global,
    options: &ShellOptions<'_>,
) -> Result<Volume<S>, ShellFault>
    requires { S.stand.takes options.now.serials }
    ensures begun { IfOk result (IsBegun S.state S.stand options.now) }
    ensures fault { IfErr result (IsUnbegun S.stand.refuses options.now) }
{
    let Some(path) = options.image else {
        return fresh(alloc, options);
    };
    match load_file(files, alloc, path, options.params.frames) {
        Ok(Some((store, level))) => over(alloc, store, level, options),
        Ok(None) => fresh(alloc, options),
        Err(fault) => Err(ShellFault::Image(fault)),
    }
}

/// A fresh volume.
fn fresh<S: OverLog + Drop>(
    alloc: Global,
    options: &ShellOptions<'_>,
) -> Result<Volume<S>, ShellFault>
    requires { S.stand.takes options.now.serials }
    ensures begun { IfOk result (IsBegun S.state S.stand options.now) }
    ensures fault { IfErr result (IsUnbegun S.stand.refuses options.now) }
{
    match laid_out(alloc, options) {
        Ok(volume) => Ok(volume),
        Err(fault) => Err(ShellFault::Talk(RunFault::Format(fault))),
    }
}

/// A volume over a store that is laid out anew, whose summaries have serials where they are asked for.
fn laid_out<S: OverLog + Drop>(
    alloc: Global,
    options: &ShellOptions<'_>,
) -> Result<Volume<S>, FormatFault>
    requires { S.stand.takes options.now.serials }
    ensures within { IfOk result (λ volume. S.stand.within volume.store) }
    ensures begun { IfOk result (IsFresh S.state S.stand options.now.serials options.now) }
    ensures fault { IfErr result (IsFormatFault
        options.now.params.segments options.now.params.inodes options.now.params.frames) }
{
    let store = fresh_store(alloc, options.params, options.serials)?;
    let made = S::over_log(alloc, store)?;
    let store = match made {
        Ok(store) => store,
        // Never: by `opens` of `OverLog`.
        Err(_) => unreachable!(),
    };
    let volume = Volume::new(alloc, store, options.params.journal)?;
    Ok(volume)
}

/// A volume over the store of an image.
///
/// # Errors
///
/// `Unfit` where a store of the kind that is asked for may not stand on it; `Talk` with `Memory`.
fn over<S: OverLog + Drop>(
    alloc: Global,
    store: LogStore,
    level: Level,
    options: &ShellOptions<'_>,
) -> Result<Volume<S>, ShellFault>
    requires image { IsSome options.now.image }
    requires loaded { IsLoaded options.now.params.frames store level }
    ensures begun { IfOk result (IsBegun S.state S.stand options.now) }
    ensures fault { IfErr result (IsUnbegun S.stand.refuses options.now) }
{
    let made = match S::over_log(alloc, store) {
        Ok(made) => made,
        Err(AllocError) => return Err(ShellFault::Talk(RunFault::Memory)),
    };
    let store = match made {
        Ok(store) => store,
        Err(why) => return Err(ShellFault::Unfit(why)),
    };
    match Volume::over(alloc, store, level, options.params.journal) {
        Ok(volume) => Ok(volume),
        Err(AllocError) => Err(ShellFault::Talk(RunFault::Memory)),
    }
}

/// Keeps the volume that a talk left in the image's file, where one is asked for, and on its disk, where it has one. Whether
/// it is kept there; why not is told.
pub(crate) fn keep<S: OnLog + Drop, F: Files, J: JournalSink + Drop, V: Drop, D: Write>(
    files: &F,
    alloc: Global,
    teller: &mut D,
    tended: &mut Tended<S, J, V>,
    options: &ShellOptions<'_>,
) -> bool
    ensures saved { result ≡ true
        → IfSome options.now.image (λ _. HasSaved F.File.contents S.state tended.old.volume) }
    ensures written { let cleaner = cleaner_of S.state S.is_flushed S.made S.cleaner in
        result ≡ true → IfSome options.now.disk
        (λ _. IsWritten cleaner tended.old.volume tended.new.volume) }
    ensures silent { result ≡ true → teller.new ≡ teller.old }
    ensures asked { result ≡ false → IsToBeKept options.now }
    ensures same { tended.new ≡ record tended.old { volume = tended.new.volume } }
{
    if options.image.is_none() && options.disk.is_none() {
        return true;
    }
    match save(files, alloc, tended, options) {
        Ok(()) => true,
        Err(fault) => {
            let _ = tell(teller, NAME, &fault);
            false
        }
    }
}

/// Writes what waits, and saves the volume in the image's file, where one is asked for.
fn save<S: OnLog + Drop, F: Files, J: JournalSink + Drop, V: Drop>(
    files: &F,
    alloc: Global,
    tended: &mut Tended<S, J, V>,
    options: &ShellOptions<'_>,
) -> Result<(), UnkeptFault>
    ensures saved { OnOk result (IfSome options.now.image
        (λ _. HasSaved F.File.contents S.state tended.old.volume)) }
    ensures written { let cleaner = cleaner_of S.state S.is_flushed S.made S.cleaner in
        OnOk result (IsWritten cleaner tended.old.volume tended.new.volume) }
    ensures same { tended.new ≡ record tended.old { volume = tended.new.volume } }
{
    match tended.flush() {
        Ok(true) => {}
        Ok(false) => return Err(unwritten(options)),
        Err(AllocError) => return Err(UnkeptFault::Memory),
    }
    let Some(path) = options.image else {
        return Ok(());
    };
    let level = tended.level();
    match save_file(files, alloc, tended.store().log_store(), level, path) {
        Ok(()) => Ok(()),
        Err(fault) => Err(UnkeptFault::Image(fault)),
    }
}

/// Why a volume is not kept whose last Sync was refused.
fn unwritten(options: &ShellOptions<'_>) -> UnkeptFault {
    if options.disk.is_some() {
        UnkeptFault::Disk
    } else {
        UnkeptFault::Image(KeepFault::Save)
    }
}
