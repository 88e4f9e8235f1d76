//! A place of the plain store, for one inode number.

ghost use Rattle.std.specs.Prelude.{◌≡◌, ◌+◌, ◌-◌, ◌≤◌, ◌++◌, [], None, Some, length, take, drop, replicate, option_map, is_some, IsSome, OnOk};
ghost use Rattle.std.specs.Vec.{vec_capacity, vec_len};
ghost use Rattle.lfs_types.specs.declared.limits.TheConstants.{FILE_BYTES};
ghost use Rattle.lfs_types.specs.Tree.{attrs_of, file_of};
ghost use Rattle.lfs_types.specs.Splicing.{splice};
ghost use Rattle.lfs_types.specs.Stored.{Reads, bytes_of_file, slice_of};
ghost use Rattle.lfs_flatfiles.specs.FlatFiles.{file_at, end_of, with_attrs, with_bytes, with_length};

use lfs_types::attrs::Attrs;
use std::alloc::{AllocError, Global};

/// A place for a file. Without attributes no file is there, and the bytes are mere room.
#[derive(Drop, Debug)]
pub struct Place {
    /// The attributes of the file, if there is one. Their size counts for nothing: it is the count of the bytes.
    attrs: Option<Attrs>,
    /// The file's bytes.
    bytes: Vec<u8>,
}

impl Place {
    /// A place with no file.
    pub fn unused(alloc: Global) -> Place
        ensures { file_at result ≡ None }
    {
        Place {
            attrs: None,
            bytes: Vec::new(alloc),
        }
    }

    /// Whether a file is there.
    pub fn is_used(&self) -> bool
        ensures { result ≡ is_some (file_at self.now) }
    {
        self.attrs.is_some()
    }

    /// The attributes of the file, if there is one.
    pub fn attrs(&self) -> Option<Attrs>
        ensures { result ≡ option_map attrs_of (file_at self.now) }
    {
        let attrs = self.attrs?;
        Some(Attrs {
            size: self.bytes.len() as u64,
            ..attrs
        })
    }

    /// Reads bytes from `off` on, as many as there are and the buffer takes, and says how many.
    pub fn read(&self, off: u64, into: &mut [u8]) -> usize
        ensures { Reads (slice_of self.now.bytes.items off (length into.old))
            result into.old into.new }
    {
        let bytes = self.bytes.as_slice();
        let start = bytes.len().min(off as usize);
        let count = into.len().min(bytes.len() - start);
        into[..count].copy_from_slice(&bytes[start..start + count]);
        count
    }

    /// The bytes of the file, none where no file is there.
    pub fn bytes(&self) -> &[u8]
        ensures { result.now ≡ bytes_of_file (file_at self.now) }
    {
        match self.attrs {
            Some(_) => self.bytes.as_slice(),
            None => &[],
        }
    }

    /// Makes room for this many bytes in all. No file changes.
    pub fn make_room(&mut self, len: usize) -> Result<(), AllocError>
        ensures same { file_at self.new ≡ file_at self.old }
        ensures grows { vec_capacity self.old.bytes ≤ vec_capacity self.new.bytes }
        ensures room { OnOk result (len ≤ vec_capacity self.new.bytes) }
    {
        let more = len.saturating_sub(self.bytes.len());
        self.bytes.reserve(more)
    }

    /// Puts an empty file there.
    pub fn make(&mut self, attrs: Attrs)
        ensures file { file_at self.new ≡ Some (file_of attrs []) }
        ensures grows { vec_capacity self.old.bytes ≤ vec_capacity self.new.bytes }
    {
        self.attrs = Some(attrs);
        self.bytes.clear();
    }

    /// Takes the file away, if there is one. Its memory stays, as room.
    pub fn remove(&mut self)
        ensures file { file_at self.new ≡ None }
        ensures grows { vec_capacity self.old.bytes ≤ vec_capacity self.new.bytes }
    {
        self.attrs = None;
    }

    /// Gives the file these attributes. Its bytes stay.
    pub fn set_attrs(&mut self, attrs: Attrs)
        requires { IsSome (file_at self.old) }
        ensures file { file_at self.new ≡ option_map (with_attrs attrs) (file_at self.old) }
        ensures grows { vec_capacity self.old.bytes ≤ vec_capacity self.new.bytes }
    {
        self.attrs = Some(attrs);
    }

    /// Puts bytes into the file, where there is room for them.
    pub fn put(&mut self, off: u64, bytes: &[u8])
        requires reach { end_of off bytes.now ≤ FILE_BYTES }
        requires room { end_of off bytes.now ≤ vec_capacity self.old.bytes }
        ensures file { file_at self.new ≡ option_map (with_bytes off bytes.now) (file_at self.old) }
        ensures grows { vec_capacity self.old.bytes ≤ vec_capacity self.new.bytes }
    {
        splice(&mut self.bytes, off, bytes);
    }

    /// Cuts the file to this length, or adds zeros up to it, where there is room for them.
    pub fn set_length(&mut self, len: usize)
        requires { len ≤ vec_capacity self.old.bytes }
        ensures file { file_at self.new ≡ option_map (with_length len) (file_at self.old) }
        ensures grows { vec_capacity self.old.bytes ≤ vec_capacity self.new.bytes }
    {
        self.bytes.truncate(len);
        fill_up(&mut self.bytes, len);
    }
}

/// Where bytes that are put at a place end, 0 if there are none.
pub fn end_of(off: u64, bytes: &[u8]) -> usize
    requires { end_of off bytes.now ≤ FILE_BYTES }
    ensures { result ≡ end_of off bytes.now }
{
    if bytes.is_empty() {
        return 0;
    }
    off as usize + bytes.len()
}

/// Puts bytes into others, where there is room for them; a gap before them is filled with zeros.
fn splice(old: &mut Vec<u8>, off: u64, bytes: &[u8])
    requires reach { end_of off bytes.now ≤ FILE_BYTES }
    requires room { end_of off bytes.now ≤ vec_capacity old.old }
    ensures spliced { old.new.items ≡ splice old.old.items off bytes.now }
    ensures grows { vec_capacity old.old ≤ vec_capacity old.new }
{
    if bytes.is_empty() {
        return;
    }
    let start = off as usize;
    fill_up(old, start + bytes.len());
    overwrite(old, start, bytes);
}

/// Adds zeros up to this length, where there is room for them.
fn fill_up(bytes: &mut Vec<u8>, len: usize)
    requires { len ≤ vec_capacity bytes.old }
    ensures filled { bytes.new.items ≡ bytes.old.items
        ++ replicate (len - length bytes.old.items) 0 }
    ensures grows { vec_capacity bytes.old ≤ vec_capacity bytes.new }
{
    if bytes.len() < len {
        let Ok(()) = bytes.resize(len, 0) else {
            // Never: the room is there, as is required.
            unreachable!()
        };
    }
}

/// Writes bytes over as many others.
fn overwrite(old: &mut Vec<u8>, start: usize, bytes: &[u8])
    requires { start + length bytes.now ≤ vec_len old.old }
    ensures written { old.new.items ≡ take start old.old.items ++ bytes.now
        ++ drop (start + length bytes.now) old.old.items }
    ensures same { vec_capacity old.new ≡ vec_capacity old.old }
{
    old[start..start + bytes.len()].copy_from_slice(bytes);
}
