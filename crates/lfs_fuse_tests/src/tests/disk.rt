//! Files in memory: a journal's and an image's can be made, and one is there.

use std::alloc::{Allocator, Global};
use std::cell::{Cell, RefCell};
use std::fs::{Metadata, OpenFile, OpenOptions};
use std::io;
use std::io::{ErrorKind, Read, Seek, SeekFrom, Write};
use std::os::unix::fs::FileExt;
use std::rt::Files;
use std::time::{Clock, Duration};

/// The path of the file that can be made for a journal.
const JOURNAL: &str = "journal.out";

/// That of a file that is there.
const THERE: &str = "there.out";

/// The paths of an image, and of the file in which it is written first.
const IMAGE: &str = "volume.lfs";

const NEW_IMAGE: &str = "volume.lfs.new";

/// What was written in order: to the journal's file, and to one that writes beside it; and whether an image got its name.
#[derive(Drop)]
pub struct Disk {
    written: RefCell<Vec<u8>>,
    is_saved: Cell<bool>,
    is_full: bool,
}

impl Disk {
    /// Nothing is written. Where it is full, the journal's file takes no byte.
    pub fn new(alloc: Global, is_full: bool) -> Disk {
        Disk {
            written: RefCell::new(Vec::new(alloc)),
            is_saved: Cell::new(false),
            is_full,
        }
    }

    /// Its files.
    pub fn files(&self) -> Shelf<'_> {
        Shelf {
            disk: self,
            kind: Kind::Beside,
        }
    }

    /// Whether an image got its name.
    pub fn is_saved(&self) -> bool {
        self.is_saved.get()
    }

    /// What was written.
    pub fn into_written(self) -> Vec<u8> {
        let Disk {
            written,
            is_saved: _,
            is_full: _,
        } = self;
        written.into_inner()
    }
}

/// Which file is open.
#[derive(Clone, Copy, PartialEq, Eq, Debug)]
enum Kind {
    Journal,
    Image,
    Beside,
}

/// The files of a disk, one of them that is open, or a writer beside them.
#[derive(Clone, Copy)]
pub struct Shelf<'a> {
    disk: &'a Disk,
    kind: Kind,
}

/// What no program asks for.
fn unsupported<T>() -> io::Result<T> {
    Err(io::Error::from(ErrorKind::Unsupported))
}

impl Read for Shelf<'_> {
    fn read(&mut self, _buf: &mut [u8]) -> io::Result<usize> {
        Err(io::Error::from(ErrorKind::Unsupported))
    }
}

impl Write for Shelf<'_> {
    fn write(&mut self, buf: &[u8]) -> io::Result<usize> {
        if self.kind == Kind::Image {
            return Ok(buf.len());
        }
        if self.kind == Kind::Journal && self.disk.is_full {
            return Err(io::Error::from(ErrorKind::StorageFull));
        }
        let Ok(mut written) = self.disk.written.try_borrow_mut() else {
            return Err(io::Error::from(ErrorKind::Unsupported));
        };
        match written.extend_from_slice(buf) {
            Ok(()) => Ok(buf.len()),
            Err(_) => Err(io::Error::from(ErrorKind::OutOfMemory)),
        }
    }

    fn flush(&mut self) -> io::Result<()> {
        Ok(())
    }
}

impl Seek for Shelf<'_> {
    fn seek(&mut self, _to: SeekFrom) -> io::Result<u64> {
        unsupported()
    }
}

impl FileExt for Shelf<'_> {
    fn read_at(&self, _buf: &mut [u8], _offset: u64) -> io::Result<usize> {
        Err(io::Error::from(ErrorKind::Unsupported))
    }

    fn write_at(&self, _buf: &[u8], _offset: u64) -> io::Result<usize> {
        Err(io::Error::from(ErrorKind::Unsupported))
    }
}

impl OpenFile for Shelf<'_> {
    fn metadata(&self) -> io::Result<Metadata> {
        unsupported()
    }

    fn set_len(&self, _size: u64) -> io::Result<()> {
        unsupported()
    }

    fn sync_all(&self) -> io::Result<()> {
        Ok(())
    }

    fn sync_data(&self) -> io::Result<()> {
        unsupported()
    }
}

impl<'a> Files for Shelf<'a> {
    type File = Shelf<'a>;

    type Dir = Shelf<'a>;

    fn open_file(&self, _how: &OpenOptions, path: &str) -> io::Result<Shelf<'a>> {
        let kind = match path {
            JOURNAL => Kind::Journal,
            NEW_IMAGE => Kind::Image,
            THERE => return Err(io::Error::from(ErrorKind::AlreadyExists)),
            _ => return Err(io::Error::from(ErrorKind::NotFound)),
        };
        Ok(Shelf {
            disk: self.disk,
            kind,
        })
    }

    fn open_dir(&self, _path: &str) -> io::Result<Shelf<'a>> {
        unsupported()
    }

    fn metadata(&self, _path: &str) -> io::Result<Metadata> {
        unsupported()
    }

    fn symlink_metadata(&self, _path: &str) -> io::Result<Metadata> {
        unsupported()
    }

    fn copy(&self, _from: &str, _to: &str) -> io::Result<u64> {
        unsupported()
    }

    fn rename(&self, from: &str, to: &str) -> io::Result<()> {
        if from != NEW_IMAGE || to != IMAGE {
            return unsupported();
        }
        self.disk.is_saved.set(true);
        Ok(())
    }

    fn remove_file(&self, _path: &str) -> io::Result<()> {
        unsupported()
    }

    fn create_dir(&self, _path: &str) -> io::Result<()> {
        unsupported()
    }

    fn remove_dir(&self, _path: &str) -> io::Result<()> {
        unsupported()
    }

    fn remove_dir_all<B: Allocator>(&self, _alloc: B, _path: &str) -> io::Result<()> {
        unsupported()
    }
}

impl Clock for Shelf<'_> {
    fn monotonic(&self) -> io::Result<Duration> {
        unsupported()
    }

    fn since_1970(&self) -> io::Result<Duration> {
        unsupported()
    }
}
