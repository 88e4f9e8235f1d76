//! Files in memory, of which one of two can be made, and one that is there can be read, each opened in its own way alone.

use std::alloc::{Allocator, Global};
use std::cell::{Cell, RefCell};
use std::fs::{Metadata, OpenFile, OpenOptions};
use std::io;
use std::io::{ErrorKind, Read, Seek, SeekFrom, Write};
use std::os::unix::fs::FileExt;
use std::rt::Files;

/// The paths of the files that can be made, a film's and a journal's, of which a program makes one.
const FILM: &str = "film.html.part";

const JOURNAL: &str = "journal.out";

/// The name that the film can get.
const RENAMED: &str = "film.html";

/// The path of a script, and what it is.
const SCRIPT: &str = "script.lfs";

const LINES: &[u8] = b"create /a 0644\nstat /a\n";

/// The path of a file that is there.
const THERE: &str = "there.out";

/// How a file is opened that is made where there is none, and cut where there is one.
const CUT: &[u8] =
    b"OpenOptions { read: false, write: true, append: false, truncate: true, create: true, \
    create_new: false, mode: 438 }";

/// How one is opened that may not be there.
const NEW: &[u8] =
    b"OpenOptions { read: false, write: true, append: false, truncate: false, create: false, \
    create_new: true, mode: 438 }";

/// How one is opened that is read.
const READ: &[u8] =
    b"OpenOptions { read: true, write: false, append: false, truncate: false, create: false, \
    create_new: false, mode: 438 }";

/// How the file of a path is opened, where there is such a file.
fn way_of(path: &str) -> Option<&'static [u8]> {
    match path {
        FILM => Some(CUT),
        JOURNAL | THERE => Some(NEW),
        SCRIPT => Some(READ),
        _ => None,
    }
}

/// How often the file was made, and what was written to it.
#[derive(Drop)]
pub struct Disk {
    alloc: Global,
    /// Whether its files take no byte.
    is_full: bool,
    made: Cell<u32>,
    renamed: Cell<bool>,
    page: RefCell<Vec<u8>>,
}

impl Disk {
    /// No file. Where it is full, its files take no byte.
    pub fn new(alloc: Global, is_full: bool) -> Disk {
        Disk {
            alloc,
            is_full,
            made: Cell::new(0),
            renamed: Cell::new(false),
            page: RefCell::new(Vec::new(alloc)),
        }
    }

    /// The memory of what is written.
    pub fn alloc(&self) -> Global {
        self.alloc
    }

    /// Its files.
    pub fn files(&self) -> Shelf<'_> {
        Shelf {
            disk: self,
            rest: &[],
        }
    }

    /// Whether the film got its name.
    pub fn is_renamed(&self) -> bool {
        self.renamed.get()
    }

    /// How often the file was made.
    pub fn made(&self) -> u32 {
        self.made.get()
    }

    /// What was written to the file.
    pub fn into_page(self) -> Vec<u8> {
        let Disk {
            alloc: _,
            is_full: _,
            made: _,
            renamed: _,
            page,
        } = self;
        page.into_inner()
    }
}

/// The files of a disk, and one of them that is open.
#[derive(Clone, Copy)]
pub struct Shelf<'a> {
    disk: &'a Disk,
    /// What is left to be read of it.
    rest: &'static [u8],
}

/// What no program asks for.
fn unsupported<T>() -> io::Result<T> {
    Err(io::Error::from(ErrorKind::Unsupported))
}

impl Read for Shelf<'_> {
    fn read(&mut self, buf: &mut [u8]) -> io::Result<usize> {
        self.rest.read(buf)
    }
}

impl Write for Shelf<'_> {
    fn write(&mut self, buf: &[u8]) -> io::Result<usize> {
        if self.disk.is_full {
            return Err(io::Error::from(ErrorKind::StorageFull));
        }
        let Ok(mut page) = self.disk.page.try_borrow_mut() else {
            return Err(io::Error::from(ErrorKind::Unsupported));
        };
        match page.extend_from_slice(buf) {
            Ok(()) => Ok(buf.len()),
            Err(_) => Err(io::Error::from(ErrorKind::OutOfMemory)),
        }
    }

    fn flush(&mut self) -> io::Result<()> {
        Ok(())
    }
}

impl Seek for Shelf<'_> {
    fn seek(&mut self, _to: SeekFrom) -> io::Result<u64> {
        unsupported()
    }
}

impl OpenFile for Shelf<'_> {
    fn metadata(&self) -> io::Result<Metadata> {
        unsupported()
    }

    fn set_len(&self, _size: u64) -> io::Result<()> {
        unsupported()
    }

    fn sync_all(&self) -> io::Result<()> {
        unsupported()
    }

    fn sync_data(&self) -> io::Result<()> {
        unsupported()
    }
}

impl FileExt for Shelf<'_> {
    fn read_at(&self, _buf: &mut [u8], _offset: u64) -> io::Result<usize> {
        Err(io::Error::from(ErrorKind::Unsupported))
    }

    fn write_at(&self, _buf: &[u8], _offset: u64) -> io::Result<usize> {
        Err(io::Error::from(ErrorKind::Unsupported))
    }
}

impl<'a> Files for Shelf<'a> {
    type File = Shelf<'a>;

    type Dir = Shelf<'a>;

    fn open_file(&self, how: &OpenOptions, path: &str) -> io::Result<Shelf<'a>> {
        let Some(wanted) = way_of(path) else {
            return Err(io::Error::from(ErrorKind::NotFound));
        };
        let mut way = Vec::new(self.disk.alloc);
        write!(way, "{how:?}")?;
        if way.as_slice() != wanted {
            return Err(io::Error::from(ErrorKind::InvalidInput));
        }
        if path == THERE {
            return Err(io::Error::from(ErrorKind::AlreadyExists));
        }
        if path == SCRIPT {
            let mut script = *self;
            script.rest = LINES;
            return Ok(script);
        }
        self.disk.made.set(self.disk.made.get().saturating_add(1));
        Ok(*self)
    }

    fn open_dir(&self, _path: &str) -> io::Result<Shelf<'a>> {
        unsupported()
    }

    fn metadata(&self, _path: &str) -> io::Result<Metadata> {
        unsupported()
    }

    fn symlink_metadata(&self, _path: &str) -> io::Result<Metadata> {
        unsupported()
    }

    fn copy(&self, _from: &str, _to: &str) -> io::Result<u64> {
        unsupported()
    }

    fn rename(&self, from: &str, to: &str) -> io::Result<()> {
        if from != FILM || to != RENAMED {
            return unsupported();
        }
        self.disk.renamed.set(true);
        Ok(())
    }

    fn remove_file(&self, _path: &str) -> io::Result<()> {
        unsupported()
    }

    fn create_dir(&self, _path: &str) -> io::Result<()> {
        unsupported()
    }

    fn remove_dir(&self, _path: &str) -> io::Result<()> {
        unsupported()
    }

    fn remove_dir_all<B: Allocator>(&self, _alloc: B, _path: &str) -> io::Result<()> {
        unsupported()
    }
}
