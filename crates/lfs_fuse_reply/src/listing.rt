//! Entries of a listing, which the reply to READDIR or READDIRPLUS carries behind one another, as many as the kernel
//! asked bytes for. One that does not fit is left for the next message.

ghost use Rattle.std.specs.Prelude.{◌≡◌, ◌+◌, ◌++◌, ◌<◌, length, nat_le, IfOk, OnOk};
ghost use Rattle.lfs_fuse_reply.specs.Listings.{
  dirent_bytes,
  dirent_type,
  fits_in,
  listed,
  looked_up_bytes,
  missing,
  plus_bytes,
};

use crate::attr::{Entry, push_entry};
use crate::writing::{push_longs, push_words, push_zeros};
use lfs_fuse_wire::kind::FileKind;
use std::alloc::AllocError;

/// An entry of a directory.
#[derive(Clone, Copy)]
pub struct DirEntry<'a> {
    /// The inode number.
    pub inode: u64,
    /// Where a listing goes on behind this entry: the offset of the next message.
    pub offset: u64,
    /// The kind, if it is known.
    pub kind: Option<FileKind>,
    /// The name, of at most 255 bytes.
    pub name: &'a [u8],
}

/// An entry of a directory, looked up: the kernel counts it as a look-up of its node.
#[derive(Clone, Copy)]
pub struct DirEntryPlus<'a> {
    /// The node and its attributes; `None` is no look-up.
    pub entry: Option<Entry>,
    /// The entry of the directory.
    pub dirent: DirEntry<'a>,
}

impl DirEntry<'_> {
    /// Adds the entry to a listing of at most so many bytes, and says whether it fits. One that does not fit adds
    /// nothing.
    pub fn append(&self, listing: &mut Vec<u8>, most: usize) -> Result<bool, AllocError>
        requires { length self.now.name.now < 256 }
        ensures fits { IfOk result (λ fits. fits
            ≡ fits_in most listing.old.items (dirent_bytes self.now)) }
        ensures entry { OnOk result (listing.new.items
            ≡ listed most listing.old.items (dirent_bytes self.now)) }
    {
        if !has_room(listing, self.size(), most) {
            return Ok(false);
        }
        self.push(listing)?;
        Ok(true)
    }

    /// The number of bytes that the entry takes.
    fn size(&self) -> usize
        requires { length self.now.name.now < 256 }
        ensures bytes { result ≡ length (dirent_bytes self.now) }
        ensures bound { result < 512 }
    {
        24 + self.name.len() + padding(self.name.len())
    }

    /// Adds the entry, and zero bytes up to a multiple of eight.
    fn push(&self, listing: &mut Vec<u8>) -> Result<(), AllocError>
        requires { length self.now.name.now < 256 }
        ensures { OnOk result (listing.new.items ≡ listing.old.items ++ dirent_bytes self.now) }
    {
        push_longs(listing, &[self.inode, self.offset])?;
        push_words(listing, &[self.name.len() as u32, type_number(self.kind)])?;
        listing.extend_from_slice(self.name)?;
        push_zeros(listing, padding(self.name.len()))
    }
}

impl DirEntryPlus<'_> {
    /// Adds the entry to a listing of at most so many bytes, and says whether it fits. One that does not fit adds
    /// nothing.
    pub fn append(&self, listing: &mut Vec<u8>, most: usize) -> Result<bool, AllocError>
        requires { length self.now.dirent.name.now < 256 }
        ensures fits { IfOk result (λ fits. fits
            ≡ fits_in most listing.old.items (plus_bytes self.now)) }
        ensures entry { OnOk result (listing.new.items
            ≡ listed most listing.old.items (plus_bytes self.now)) }
    {
        if !has_room(listing, self.size(), most) {
            return Ok(false);
        }
        push_looked_up(listing, &self.entry)?;
        self.dirent.push(listing)?;
        Ok(true)
    }

    /// The number of bytes that the entry takes.
    fn size(&self) -> usize
        requires { length self.now.dirent.name.now < 256 }
        ensures bytes { result ≡ length (plus_bytes self.now) }
        ensures bound { result < 640 }
    {
        128 + self.dirent.size()
    }
}

/// Whether so many bytes more fit.
fn has_room(listing: &Vec<u8>, size: usize, most: usize) -> bool
    requires { size < 640 }
    ensures { result ≡ nat_le (length listing.now.items + size) most }
{
    listing.len() + size <= most
}

/// Adds the node of an entry, or 128 zero bytes.
fn push_looked_up(listing: &mut Vec<u8>, entry: &Option<Entry>) -> Result<(), AllocError>
    ensures { OnOk result (listing.new.items ≡ listing.old.items ++ looked_up_bytes entry.now) }
{
    match entry {
        Some(entry) => push_entry(listing, entry),
        None => push_longs(listing, &[0; 16]),
    }
}

/// How a listing numbers a kind (readdir(3)); 0 is unknown.
fn type_number(kind: Option<FileKind>) -> u32
    ensures { result ≡ dirent_type kind }
{
    match kind {
        Some(FileKind::Directory) => 4,
        Some(FileKind::Regular) => 8,
        None => 0,
    }
}

/// How many bytes are missing to a multiple of eight.
fn padding(size: usize) -> usize
    ensures count { result ≡ missing size }
    ensures bound { result < 8 }
{
    (8 - size % 8) % 8
}
