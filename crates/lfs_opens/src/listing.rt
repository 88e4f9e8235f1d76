//! Directories that are open, each with its names as they were when it was opened.

ghost use Rattle.std.specs.Prelude.{
  ◌≡◌,
  ◌≢◌,
  ◌<◌,
  ℕ,
  IfOk,
  IfSome,
  None,
  OnOk,
  Some,
  length,
  option_copied,
};
ghost use Rattle.std.specs.List.{slice_get};
ghost use Rattle.lfs_opens.specs.Listing.{
  AreKept,
  AreSame,
  IsClosed,
  KeepsNames,
  KeepsShown,
  TellsEntries,
  all_names,
  kind_at,
  listing_of,
  names_at,
  names_in,
  spare_in,
};

use lfs_fuse_calls::told::Told;
use lfs_fuse_reply::errno::Errno;
use lfs_fuse_reply::listing::DirEntry;
use lfs_fuse_reply::reply::Opened;
use lfs_fuse_wire::handles::Read;
use lfs_fuse_wire::kind::FileKind;
use lfs_types::answer::{Answer, Served};
use lfs_types::payload::Names;
use std::alloc::{AllocError, Global};
use std::collections::HashMap;

/// The inode number of an entry that isn't known.
const UNKNOWN: u64 = 0xffff_ffff;

/// The names of each open directory, by its handle.
#[derive(Drop)]
pub struct Listings {
    names: HashMap<u64, Names>,
    next: u64,
}

impl Listings {
    /// None is open.
    pub fn new(alloc: Global) -> Listings
        ensures { (handle : ℕ) → names_at result handle ≡ None }
    {
        Listings {
            names: HashMap::new(alloc),
            next: 1,
        }
    }

    /// Takes room for the names of one directory more.
    fn reserve(&mut self) -> Result<(), AllocError>
        ensures same { AreSame self.old self.new }
        ensures room { OnOk result (0 < spare_in self.new) }
    {
        self.names.reserve(1)
    }

    /// Keeps names by a handle.
    fn put(&mut self, handle: u64, names: Names)
        requires { 0 < spare_in self.old }
        ensures { AreKept names handle self.old self.new }
    {
        let put: Result<_, _> = self.names.insert(handle, names);
        let _ = put.unwrap();
    }

    /// Keeps the names of a directory that is opened, and tells its handle.
    fn keep(&mut self, names: Names) -> Told
        ensures { KeepsNames names self.old self.new result }
    {
        if self.reserve().is_err() {
            return Told::Error(Errno::ENOMEM);
        }
        let handle = self.next;
        self.put(handle, names);
        self.next = handle.wrapping_add(1);
        Told::Open(Opened {
            handle,
            direct_io: false,
        })
    }

    /// Keeps the names that a List shows.
    pub fn open(&mut self, answers: Vec<Answer>) -> Told
        ensures { KeepsShown (names_in answers.items) self.old self.new result }
    {
        match first_names(answers) {
            Some(names) => self.keep(names),
            None => Told::Error(Errno::EIO),
        }
    }

    /// Forgets the names of a directory that is closed.
    pub fn close(&mut self, handle: u64) -> Told
        ensures told { result ≡ Told.Done }
        ensures closed { IsClosed handle self.old self.new }
    {
        let _ = self.names.remove(&handle);
        Told::Done
    }

    /// The names of the directory that is open by a handle.
    fn get(&self, handle: u64) -> Option<&Names>
        ensures { option_copied result ≡ names_at self.now handle }
    {
        self.names.get(&handle)
    }

    /// The entries of an open directory from an offset on, as many as fit.
    pub fn told(&self, alloc: Global, wanted: &Read) -> Told
        ensures { TellsEntries (names_at self.now wanted.now.handle) wanted.now result }
    {
        let Some(names) = self.get(wanted.handle) else {
            return Told::Error(Errno::EBADF);
        };
        match entries(alloc, names, wanted.offset, wanted.size as usize) {
            Ok(bytes) => Told::Bytes(bytes),
            Err(AllocError) => Told::Error(Errno::ENOMEM),
        }
    }
}

/// The names that the first List among answers shows.
fn first_names(answers: Vec<Answer>) -> Option<Names>
    ensures { result ≡ names_in answers.items }
{
    for answer in answers {
        if let Answer::Served(Served::Names(names)) = answer {
            return Some(names);
        }
    }
    None
}

/// The name at a place of a listing: the directory itself, the one above it, and then its names.
fn name_at<'a>(names: &'a Names, place: usize) -> Option<&'a [u8]>
    ensures name { option_copied result ≡ slice_get (all_names names.now) place }
    ensures short { IfSome result (λ name. length name.now < 256) }
{
    match place {
        0 => Some(b"."),
        1 => Some(b".."),
        _ => Some(names.as_slice().get(place - 2)?.as_bytes()),
    }
}

/// The kind of the entry at a place, if it is known.
fn kind_at(place: usize) -> Option<FileKind>
    ensures { result ≡ kind_at place }
{
    if place < 2 {
        Some(FileKind::Directory)
    } else {
        None
    }
}

/// The entries from an offset on, in at most so many bytes.
fn entries(alloc: Global, names: &Names, offset: u64, most: usize) -> Result<Vec<u8>, AllocError>
    ensures { IfOk result (λ bytes. bytes.items ≡ listing_of names.now offset most) }
{
    let mut listing = Vec::new(alloc);
    let end = names.as_slice().len().checked_add(2).ok_or(AllocError)?;
    let start = offset.min(end as u64) as usize;
    for place in start..end {
        let Some(name) = name_at(names, place) else {
            return Ok(listing);
        };
        let entry = DirEntry {
            inode: UNKNOWN,
            offset: place as u64 + 1,
            kind: kind_at(place),
            name,
        };
        if !entry.append(&mut listing, most)? {
            return Ok(listing);
        }
    }
    Ok(listing)
}
