//! The volume of a talk on a disk: laid out there, or found.

ghost use Rattle.std.specs.Prelude.{◌≡◌, IfErr, IfOk, IsSome, true};
ghost use Rattle.lfs_disk_start.specs.Starting.{IsFoundOn, IsLaidOutBy, IsStarted};
ghost use Rattle.lfs_disk_store.specs.Keeping.{disk_state};
ghost use Rattle.lfs_stands.specs.Stands.{disk_stand};
ghost use Rattle.lfs_programs.specs.Volumes.{IsBegun, IsFresh, IsOfDisk, IsUnbegun, disk_kind};

use crate::fault::ShellFault;
use crate::options::ShellOptions;
use lfs_audit::fault::RunFault;
use lfs_disk::BlockDisk;
use lfs_disk_start::{Started, start};
use lfs_disk_store::DiskStore;
use lfs_file_disk::FileDisk;
use lfs_types::level::Level;
use lfs_volume::volume::Volume;
use std::alloc::{AllocError, Global};
use std::os::unix::fs::FileExt;
use std::rt::Files;

/// The volume that a talk on the disk of this file begins with: a fresh one, where there is no such file, and else what is
/// found in its blocks.
///
/// # Errors
///
/// `Disk` as `start` of `lfs_disk_start` refuses the file or the numbers; `Talk` with `Memory`.
pub(crate) fn begin_on<F: Files>(
    files: &F,
    alloc: Global,
    path: &str,
    options: &ShellOptions<'_>,
) -> Result<Volume<DiskStore<FileDisk<F::File>>>, ShellFault>
where
    F::File: FileExt,
    requires { IsSome options.now.disk }
    ensures begun { IfOk result (IsBegun disk_state disk_stand options.now) }
    ensures fault { let kind = disk_kind F.File.contents in
        IfErr result (IsUnbegun kind.stand.refuses options.now) }
{
    let started = match start(files, alloc, path, options.params) {
        Ok(started) => started,
        Err(fault) => return Err(ShellFault::Disk(fault)),
    };
    match stand(alloc, started, options) {
        Ok(volume) => Ok(volume),
        Err(AllocError) => Err(ShellFault::Talk(RunFault::Memory)),
    }
}

/// The volume over a store that started on its disk.
fn stand<D: BlockDisk + Drop>(
    alloc: Global,
    started: Started<D>,
    options: &ShellOptions<'_>,
) -> Result<Volume<DiskStore<D>>, AllocError>
    requires disk { IsSome options.now.disk }
    requires started { IsStarted D.seen D.may_leave D.time D.left_since options.now.params
        started.is_found started.store }
    ensures begun { IfOk result (IsBegun disk_state disk_stand options.now) }
{
    let Started { store, is_found } = started;
    store.log();
    if is_found {
        stand_found(alloc, store, options)
    } else {
        stand_fresh(alloc, store, options)
    }
}

/// The volume over a store that was laid out on its disk.
fn stand_fresh<D: BlockDisk + Drop>(
    alloc: Global,
    store: DiskStore<D>,
    options: &ShellOptions<'_>,
) -> Result<Volume<DiskStore<D>>, AllocError>
    requires { IsLaidOutBy options.now.params store.store }
    ensures store { IfOk result (λ volume. volume.store ≡ store) }
    ensures fresh { IfOk result (IsFresh disk_state disk_stand true options.now) }
{
    Volume::new(alloc, store, options.params.journal)
}

/// The volume over a store that was found on its disk. Blocks have no securelevel: so it is the highest, which init may
/// lower.
fn stand_found<D: BlockDisk + Drop>(
    alloc: Global,
    store: DiskStore<D>,
    options: &ShellOptions<'_>,
) -> Result<Volume<DiskStore<D>>, AllocError>
    requires { IsFoundOn D.seen D.may_leave D.time D.left_since options.now.params.frames store }
    ensures store { IfOk result (λ volume. volume.store ≡ store) }
    ensures found { IfOk result (IsOfDisk disk_stand options.now) }
{
    Volume::over(alloc, store, Level::HighlySecure, options.params.journal)
}
