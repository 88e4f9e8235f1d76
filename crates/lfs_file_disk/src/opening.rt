//! A disk's file, made anew or opened as it is.

ghost use Rattle.std.specs.Prelude.{◌≡◌, IfOk, IfSome, [], length, replicate, false};
ghost use Rattle.std.specs.Io.{StartsWith};
ghost use Rattle.std.specs.Io.KnownBytes.{Consumes};
ghost use Rattle.std.specs.List.{flat_map};
ghost use Rattle.lfs_types.specs.Blocks.{zero_block};
ghost use Rattle.lfs_disk.specs.Disk.{Only};
ghost use Rattle.lfs_file_disk.specs.File.{gave_up, left_of, seen_of};

use crate::disk::FileDisk;
use crate::fault::FileFault;
use crate::host::HostFile;
use lfs_types::block::{BLOCK_SIZE, Block, ZERO_BLOCK};
use lfs_types::limits::{MOST_SEGMENTS, SEGMENT_BLOCKS};
use std::alloc::Global;
use std::fs::{File, OpenFile, OpenOptions};
use std::io::{ErrorKind, Read};
use std::os::unix::fs::{FileExt, OpenOptionsExt};
use std::path::Path;
use std::rt::Files;
use std::snapshot::Snapshot;

/// Who may read and write a disk's file, which has all users' bytes: its owner.
const OWNERS: u32 = 0o600;

/// The most blocks of a volume.
const MOST_BLOCKS: u32 = MOST_SEGMENTS * SEGMENT_BLOCKS;

impl<F: FileExt + OpenFile + Drop> FileDisk<F> {
    /// Makes a file of this path, for its owner alone, and in it a disk of so many blocks of zeros, all of which have
    /// landed.
    ///
    /// # Errors
    ///
    /// `Exists` where there is a file, which is left as it is; `Unmade` where none could be made; `Write` and `Sync` where
    /// it takes no blocks, or not for sure, and may have some of them; `Memory`.
    pub fn create<S: Files<File = F>>(
        files: &S,
        alloc: Global,
        path: &str,
        count: u32,
    ) -> Result<FileDisk<F>, FileFault>
        ensures seen { IfOk result (λ disk. seen_of disk ≡ replicate count zero_block) }
        ensures synced { IfOk result (λ disk. Only (seen_of disk) (left_of disk)) }
        ensures well { IfOk result (λ disk. gave_up disk ≡ false) }
    {
        let mut how = OpenOptions::new();
        how.write(true).create_new(true).mode(OWNERS);
        let file = match how.open(files, path) {
            Ok(file) => file,
            Err(error) if error.kind() == ErrorKind::AlreadyExists => return Err(FileFault::Exists),
            Err(_) => return Err(FileFault::Unmade),
        };
        let disk = blank(alloc, file, count)?;
        sync_folder(files, path)?;
        Ok(disk)
    }

    /// Opens the file of this path as the disk that it is, and reads its blocks.
    ///
    /// # Errors
    ///
    /// `Unopened` where there is no such file, or it can't be opened; else those of `over`.
    pub fn open<S: Files<File = F>>(
        files: &S,
        alloc: Global,
        path: &str,
    ) -> Result<(FileDisk<F>, Vec<Block>), FileFault>
    where
        F: Read,
        ensures seen { IfOk result (λ opened. seen_of opened.0 ≡ opened.1.items) }
        ensures synced { IfOk result (λ opened. Only (seen_of opened.0) (left_of opened.0)) }
        ensures well { IfOk result (λ opened. gave_up opened.0 ≡ false) }
    {
        let mut how = OpenOptions::new();
        how.read(true).write(true);
        let Ok(file) = how.open(files, path) else {
            return Err(FileFault::Unopened);
        };
        FileDisk::over(alloc, file)
    }

    /// The disk that an open file is, and its blocks, which are what a reader gives from here on, where it was before its
    /// first byte. Before they are read all that was written to it has landed.
    ///
    /// # Errors
    ///
    /// `Length` where it has no whole number of blocks, or more than 65,536, those of 1,024 segments; `Read` and `Sync`
    /// where the file fails; `Memory`.
    pub fn over(alloc: Global, file: F) -> Result<(FileDisk<F>, Vec<Block>), FileFault>
    where
        F: Read,
        ensures seen { IfOk result (λ opened. seen_of opened.0 ≡ opened.1.items) }
        ensures synced { IfOk result (λ opened. Only (seen_of opened.0) (left_of opened.0)) }
        ensures well { IfOk result (λ opened. gave_up opened.0 ≡ false) }
        ensures read { IfSome (F.remaining file) (λ bytes. IfOk result
            (λ opened. StartsWith bytes (flat_map (λ block. block) opened.1.items))) }
    {
        let mut file = file;
        let count = count_blocks(&file)?;
        if file.sync_all().is_err() {
            return Err(FileFault::Sync);
        }
        let blocks = read_blocks(alloc, &mut file, count)?;
        let disk = disk_of(file, &blocks);
        Ok((disk, blocks))
    }
}

/// How many blocks a file has.
fn count_blocks<F: OpenFile>(file: &F) -> Result<u32, FileFault> {
    let Ok(metadata) = file.metadata() else {
        return Err(FileFault::Read);
    };
    let size = BLOCK_SIZE as u64;
    let length = metadata.len();
    if length % size != 0 || length / size > u64::from(MOST_BLOCKS) {
        return Err(FileFault::Length);
    }
    Ok((length / size) as u32)
}

/// The next blocks that a reader gives, so many.
fn read_blocks<R: Read>(alloc: Global, reader: &mut R, count: u32) -> Result<Vec<Block>, FileFault>
    ensures many { IfOk result (λ blocks. length blocks.items ≡ count) }
    ensures read { IfOk result (λ blocks. Consumes (R.remaining reader.old) (R.remaining reader.new)
        (flat_map (λ block. block) blocks.items)) }
{
    let mut blocks = Vec::new(alloc);
    for _ in 0..count {
        let mut block = ZERO_BLOCK;
        if reader.read_exact(&mut block).is_err() {
            return Err(FileFault::Read);
        }
        if blocks.push(block).is_err() {
            return Err(FileFault::Memory);
        }
    }
    Ok(blocks)
}

/// Has the host make sure that the name of a new file stays, which its folder has.
fn sync_folder<S: Files>(files: &S, path: &str) -> Result<(), FileFault> {
    let folder = match Path::new(path).parent() {
        Some(folder) if !folder.as_str().is_empty() => folder.as_str(),
        _ => ".",
    };
    let Ok(folder) = File::open(files, folder) else {
        return Err(FileFault::Sync);
    };
    match folder.sync_all() {
        Ok(()) => Ok(()),
        Err(_) => Err(FileFault::Sync),
    }
}

/// The disk of so many blocks of zeros, which are written to an empty file, and have landed.
fn blank<F: FileExt + OpenFile + Drop>(
    alloc: Global,
    file: F,
    count: u32,
) -> Result<FileDisk<F>, FileFault>
    ensures seen { IfOk result (λ disk. seen_of disk ≡ replicate count zero_block) }
    ensures synced { IfOk result (λ disk. Only (seen_of disk) (left_of disk)) }
    ensures well { IfOk result (λ disk. gave_up disk ≡ false) }
{
    let mut host = HostFile::new(file);
    let mut blocks = Vec::new(alloc);
    for address in 0..count {
        let offset = BLOCK_SIZE as u64 * u64::from(address);
        if host.put(offset, &ZERO_BLOCK).is_err() {
            return Err(FileFault::Write);
        }
        match blocks.push(ZERO_BLOCK) {
            Ok(()) => {}
            Err(_) => return Err(FileFault::Memory),
        }
    }
    if host.sync().is_err() {
        return Err(FileFault::Sync);
    }
    Ok(disk_of(host.into_file(), &blocks))
}

/// The disk that a file is which has these blocks, all of which have landed.
fn disk_of<F: FileExt + OpenFile + Drop>(file: F, blocks: &Vec<Block>) -> FileDisk<F>
    ensures seen { seen_of result ≡ blocks.now.items }
    ensures synced { Only (seen_of result) (left_of result) }
    ensures well { gave_up result ≡ false }
{
    FileDisk {
        host: HostFile::new(file),
        first: Snapshot::of(blocks),
    }
}
