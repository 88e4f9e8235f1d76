//! What stands in a file behind the calls of its disk, and what a file is told.

use crate::{FileDisk, FileFault};
use lfs_disk::{BlockDisk, DiskFault, Mirror, lay_out};
use lfs_io::read::read_script;
use lfs_segments::segments::Segments;
use lfs_types::block::{BLOCK_SIZE, Block, ZERO_BLOCK};
use std::alloc::{AllocError, Global};
use std::cell::Cell;
use std::fs::{self, File, Metadata, OpenFile};
use std::io::{self, ErrorKind, Read};
use std::os::unix::fs::FileExt;
use std::test::Fail;

/// The folder of a test, and the file of its disk.
const FOLDER: &str = "lfs_file_disk_test";

const PATH: &str = "lfs_file_disk_test/blocks";

/// Those of another.
const OTHERS: &str = "lfs_file_disk_others";

const ODD: &str = "lfs_file_disk_others/odd";

const BLANK: &str = "lfs_file_disk_others/blank";

const SUMMARY: Block = [1; BLOCK_SIZE];

const DATA: Block = [2; BLOCK_SIZE];

/// The bytes of six segments in which a summary and two blocks of data stand behind the label.
fn expected(alloc: Global) -> Result<Vec<u8>, AllocError> {
    let mut label = ZERO_BLOCK;
    label[..4].copy_from_slice(b"LFS1");
    label[7] = 6;
    label[11] = 16;
    let mut bytes = Vec::new(alloc);
    bytes.extend_from_slice(&label)?;
    bytes.extend_from_slice(&SUMMARY)?;
    bytes.extend_from_slice(&DATA)?;
    bytes.extend_from_slice(&DATA)?;
    bytes.resize(196_608, 0)?;
    Ok(bytes)
}

#[test]
fn blocks_stand_at_their_places(rt: HostRuntime) -> Result<(), Fail> {
    let alloc = rt.alloc();
    let _ = fs::remove_dir_all(&rt, FOLDER);
    fs::create_dir(&rt, FOLDER)?;
    let mut memory = Segments::format(alloc, 6, 16)?;
    let mut disk = FileDisk::create(&rt, alloc, PATH, 384)?;
    lay_out(&mut disk, &memory)?;
    let mut mirror = Mirror::over(disk, &memory);
    memory.append(&[SUMMARY, DATA, DATA]);
    mirror.write_out(&memory)?;
    drop(mirror);
    let bytes = read_script(alloc, &mut File::open(&rt, PATH)?)?;
    let wanted = expected(alloc)?;
    assert!(rt; bytes == wanted);
    let (_disk, blocks) = FileDisk::open(&rt, alloc, PATH)?;
    assert!(rt; blocks.len() == 384);
    assert!(rt; blocks.get(1) == Some(&SUMMARY));
    assert!(rt; blocks.get(3) == Some(&DATA));
    assert!(rt; blocks.get(4) == Some(&ZERO_BLOCK));
    fs::remove_dir_all(&rt, FOLDER)?;
    Ok(())
}

#[test]
fn file_is_made_of_zeros_or_left_as_it_is(rt: HostRuntime) -> Result<(), Fail> {
    let alloc = rt.alloc();
    let _ = fs::remove_dir_all(&rt, OTHERS);
    fs::create_dir(&rt, OTHERS)?;
    let none = FileDisk::open(&rt, alloc, ODD);
    assert!(rt; matches!(none, Err(FileFault::Unopened)));
    fs::write(&rt, ODD, b"odd".as_slice())?;
    let odd = FileDisk::open(&rt, alloc, ODD);
    assert!(rt; matches!(odd, Err(FileFault::Length)));
    let made = FileDisk::create(&rt, alloc, ODD, 384);
    assert!(rt; matches!(made, Err(FileFault::Exists)));
    assert!(rt; fs::read(&rt, ODD)?.as_slice() == b"odd".as_slice());
    let blank = FileDisk::create(&rt, alloc, BLANK, 3)?;
    drop(blank);
    assert!(rt; fs::read(&rt, BLANK)?.as_slice() == [0; 1_536].as_slice());
    fs::remove_dir_all(&rt, OTHERS)?;
    Ok(())
}

/// What a file was told, and how many writes it takes before it fails.
#[derive(Drop)]
struct Tally {
    writes: Cell<u32>,
    syncs: Cell<u32>,
    offset: Cell<u64>,
    length: Cell<usize>,
    takes: u32,
}

/// A file of zeros, which counts what it is told.
#[derive(Clone, Copy)]
struct Counted<'a>(&'a Tally);

impl Read for Counted<'_> {
    fn read(&mut self, buf: &mut [u8]) -> io::Result<usize> {
        buf.fill(0);
        Ok(buf.len())
    }
}

impl FileExt for Counted<'_> {
    fn read_at(&self, _buf: &mut [u8], _offset: u64) -> io::Result<usize> {
        Err(io::Error::from(ErrorKind::Unsupported))
    }

    fn write_at(&self, buf: &[u8], offset: u64) -> io::Result<usize> {
        let writes = self.0.writes.get().saturating_add(1);
        self.0.writes.set(writes);
        if writes > self.0.takes {
            return Err(io::Error::from(ErrorKind::StorageFull));
        }
        self.0.offset.set(offset);
        self.0.length.set(buf.len());
        Ok(buf.len())
    }
}

impl OpenFile for Counted<'_> {
    fn metadata(&self) -> io::Result<Metadata> {
        Ok(Metadata::of_file(196_608))
    }

    fn set_len(&self, _size: u64) -> io::Result<()> {
        Err(io::Error::from(ErrorKind::Unsupported))
    }

    fn sync_all(&self) -> io::Result<()> {
        self.0.syncs.set(self.0.syncs.get().saturating_add(1));
        Ok(())
    }

    fn sync_data(&self) -> io::Result<()> {
        Err(io::Error::from(ErrorKind::Unsupported))
    }
}

#[test]
fn file_that_failed_is_told_nothing_more(rt: HostRuntime) -> Result<(), Fail> {
    let tally = Tally {
        writes: Cell::new(0),
        syncs: Cell::new(0),
        offset: Cell::new(0),
        length: Cell::new(0),
        takes: 1,
    };
    let (mut disk, blocks) = FileDisk::over(rt.alloc(), Counted(&tally))?;
    assert!(rt; blocks.len() == 384);
    assert!(rt; tally.syncs.get() == 1);
    disk.write(5, &DATA)?;
    assert!(rt; tally.offset.get() == 2_560);
    assert!(rt; tally.length.get() == 512);
    disk.sync()?;
    assert!(rt; tally.syncs.get() == 2);
    assert!(rt; disk.write(6, &DATA) == Err(DiskFault::Write));
    assert!(rt; tally.writes.get() == 2);
    assert!(rt; disk.sync() == Err(DiskFault::Sync));
    assert!(rt; tally.writes.get() == 2);
    assert!(rt; tally.syncs.get() == 2);
    Ok(())
}
