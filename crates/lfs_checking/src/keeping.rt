//! A volume in a file: loaded from its image, and kept as one.

ghost use Rattle.std.specs.Prelude.{IfOk, IfSome, OnOk};
ghost use Rattle.lfs_parts.specs.Store.{IsFlushed};
ghost use Rattle.lfs_checking.specs.Files.{HasImage, IsLoaded};

use crate::fault::{CheckFault, KeepFault};
use crate::reading::read_image;
use crate::saving::save_volume;
use crate::volume::load_volume;
use lfs_logstore::LogStore;
use lfs_types::level::Level;
use lfs_types::limits::{LEAST_FRAMES, MOST_FRAMES};
use std::alloc::Global;
use std::fs::{self, File, OpenFile, OpenOptions};
use std::io::ErrorKind;
use std::os::unix::fs::OpenOptionsExt;
use std::rt::Files;

/// Who may read and write an image, which has all users' bytes: its owner.
const OWNERS: u32 = 0o600;

/// The store and the securelevel of the volume whose image the file of this path has, with so many frames, 32 to 1,024;
/// `None` where there is no such file.
///
/// # Errors
///
/// `Frames`; `Read` where the file can't be read, `Image` where what it has is the image of no volume; `Memory`.
pub fn load_file<S: Files>(
    files: &S,
    alloc: Global,
    path: &str,
    frames: u32,
) -> Result<Option<(LogStore, Level)>, KeepFault>
    ensures { IfOk result (λ found. IfSome found (λ both. IsLoaded frames both.0 both.1)) }
{
    if frames < LEAST_FRAMES || frames > MOST_FRAMES {
        return Err(KeepFault::Frames);
    }
    match bytes_in(files, alloc, path)? {
        Some(bytes) => {
            let both = load_volume(alloc, bytes.as_slice(), frames)?;
            Ok(Some(both))
        }
        None => Ok(None),
    }
}

/// The bytes of an image's file; `None` where there is no such file.
fn bytes_in<S: Files>(files: &S, alloc: Global, path: &str) -> Result<Option<Vec<u8>>, CheckFault> {
    match File::open(files, path) {
        Ok(mut file) => Ok(Some(read_image(alloc, &mut file)?)),
        Err(error) if error.kind() == ErrorKind::NotFound => Ok(None),
        Err(_) => Err(CheckFault::Open),
    }
}

/// Keeps a volume, of whose store nothing waits, in the file of this path: its image is written up to the disk, to a
/// file of this name with `.new` behind it, which is made anew, for its owner alone, and which then gets the name. So
/// the file has the image that it had, or the whole new one.
///
/// # Errors
///
/// `Save` where a file was not written, or got no name; `Memory`.
pub fn save_file<S: Files>(
    files: &S,
    alloc: Global,
    store: &LogStore,
    level: Level,
    path: &str,
) -> Result<(), KeepFault>
    requires { IsFlushed store.now }
    ensures { OnOk result (HasImage S.File.contents store.now.log level) }
{
    let new = format!(in alloc; "{path}.new")?;
    write(files, alloc, store, level, new.as_str())?;
    match fs::rename(files, new.as_str(), path) {
        Ok(()) => Ok(()),
        Err(_) => Err(KeepFault::Save),
    }
}

/// Writes the image of a store and a securelevel to the file of this path, up to the disk. What has the name goes,
/// and the file is made anew: so it is its owner's alone, and no link is followed.
fn write<S: Files>(
    files: &S,
    alloc: Global,
    store: &LogStore,
    level: Level,
    path: &str,
) -> Result<(), KeepFault>
    requires { IsFlushed store.now }
    ensures { OnOk result (HasImage S.File.contents store.now.log level) }
{
    let _ = fs::remove_file(files, path);
    let mut options = OpenOptions::new();
    options.write(true).create_new(true).mode(OWNERS);
    let Ok(mut file) = options.open(files, path) else {
        return Err(KeepFault::Save);
    };
    if save_volume(alloc, store, level, &mut file).is_err() {
        return Err(KeepFault::Save);
    }
    match file.sync_all() {
        Ok(()) => Ok(()),
        Err(_) => Err(KeepFault::Save),
    }
}
