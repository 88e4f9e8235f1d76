//! The store of a talk, on a disk's file.

ghost use Rattle.std.specs.Prelude.{◌≡◌, ◌≤◌, IfErr, IfOk, OnOk};
ghost use Rattle.lfs_types.specs.Ranges.{least_frames, most_frames};
ghost use Rattle.lfs_disk_store.specs.Layout.{IsFormatFault};
ghost use Rattle.lfs_disk_start.specs.Starting.{IsStartedOn, IsStartFaultOf};

use crate::fault::StartFault;
use crate::finding::stand;
use lfs_disk::{BlockDisk, lay_out};
use lfs_disk_store::DiskStore;
use lfs_durable_store::DurableStore;
use lfs_file_disk::{FileDisk, FileFault};
use lfs_types::fault::FormatFault;
use lfs_types::limits::{
    LEAST_FRAMES, LEAST_INODES, LEAST_SEGMENTS, MOST_FRAMES, MOST_INODES, MOST_SEGMENTS,
    SEGMENT_BLOCKS,
};
use lfs_types::store::Params;
use std::alloc::Global;
use std::fs::{File, OpenFile};
use std::io::{ErrorKind, Read};
use std::os::unix::fs::FileExt;
use std::rt::Files;

/// A store on its disk, as it starts.
#[derive(Drop)]
pub struct Started<D: BlockDisk> {
    /// The store.
    pub store: DiskStore<D>,
    /// Whether it was found on the disk, and not laid out.
    pub is_found: bool,
}

/// The store on the disk that the file of this path is. Where there is no such file, one is made, with a store that
/// is laid out by these parameters. Where there is one, it is the store of the volume that is found in it, with so
/// many frames, whatever the other parameters are.
///
/// # Errors
///
/// `Format` where no store has these numbers, before anything is looked for or made; `File` where the file can't be
/// made, or read; `Length`, `Recovery` and `Lost` where no volume is found in it, or none that could be found again:
/// then it is left as it is; `Disk` where it fails as blocks are written.
pub fn start<F: FileExt + OpenFile + Read + Drop, S: Files<File = F>>(
    files: &S,
    alloc: Global,
    path: &str,
    params: Params,
) -> Result<Started<FileDisk<F>>, StartFault>
    ensures started { IfOk result (λ started.
        IsStartedOn params started.is_found started.store) }
    ensures fault { IfErr result (IsStartFaultOf params) }
{
    check(params)?;
    if is_there(files, path)? {
        open(files, alloc, path, params)
    } else {
        make(files, alloc, path, params)
    }
}

/// Looks whether a store may have these numbers.
fn check(params: Params) -> Result<(), FormatFault>
    ensures at_least { OnOk result (least_frames ≤ params.frames) }
    ensures at_most { OnOk result (params.frames ≤ most_frames) }
    ensures fault { IfErr result
        (IsFormatFault params.segments params.inodes params.frames) }
{
    if params.segments < LEAST_SEGMENTS {
        return Err(FormatFault::TooFew);
    }
    if params.segments > MOST_SEGMENTS {
        return Err(FormatFault::TooMany);
    }
    if params.inodes < LEAST_INODES {
        return Err(FormatFault::TooFew);
    }
    if params.inodes > MOST_INODES {
        return Err(FormatFault::TooMany);
    }
    if params.frames < LEAST_FRAMES {
        return Err(FormatFault::TooFew);
    }
    if params.frames > MOST_FRAMES {
        return Err(FormatFault::TooMany);
    }
    Ok(())
}

/// Whether there is a file of this path.
fn is_there<S: Files>(files: &S, path: &str) -> Result<bool, FileFault> {
    match File::open(files, path) {
        Ok(_) => Ok(true),
        Err(error) if error.kind() == ErrorKind::NotFound => Ok(false),
        Err(_) => Err(FileFault::Unopened),
    }
}

/// The store of the volume that is found in the file of this path.
fn open<F: FileExt + OpenFile + Read + Drop, S: Files<File = F>>(
    files: &S,
    alloc: Global,
    path: &str,
    params: Params,
) -> Result<Started<FileDisk<F>>, StartFault>
    requires at_least { least_frames ≤ params.frames }
    requires at_most { params.frames ≤ most_frames }
    ensures started { IfOk result (λ started.
        IsStartedOn params started.is_found started.store) }
    ensures fault { IfErr result (IsStartFaultOf params) }
{
    let (disk, blocks) = FileDisk::open(files, alloc, path)?;
    let store = stand(alloc, blocks, disk, params.frames)?;
    Ok(Started {
        store,
        is_found: true,
    })
}

/// A store on a file of this path, which is made.
fn make<F: FileExt + OpenFile + Drop, S: Files<File = F>>(
    files: &S,
    alloc: Global,
    path: &str,
    params: Params,
) -> Result<Started<FileDisk<F>>, StartFault>
    ensures started { IfOk result (λ started.
        IsStartedOn params started.is_found started.store) }
    ensures fault { IfErr result (IsStartFaultOf params) }
{
    let store = DurableStore::format(alloc, params)?;
    let memory = store.log().parts().log.memory();
    let count = memory.segments() * SEGMENT_BLOCKS;
    let mut disk = FileDisk::create(files, alloc, path, count)?;
    lay_out(&mut disk, memory)?;
    Ok(Started {
        store: DiskStore::over(store, disk),
        is_found: false,
    })
}
