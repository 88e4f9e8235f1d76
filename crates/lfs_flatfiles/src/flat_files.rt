//! The plain store: files in memory, by number.

ghost use Rattle.std.specs.Prelude.{◌≡◌, ℕ, ◌<◌, ◌≤◌, ◌↔◌, [], length, is_some, IsSome, IsFalse, All, OnOk, IfOk, IsErrOf, None};
ghost use Rattle.std.specs.FinMap as map;
ghost use Rattle.std.specs.Vec.{vec_len};
ghost use Rattle.lfs_types.specs.Changes.{CanChange, CanChangeAll, changed, changed_at, applied};
ghost use Rattle.lfs_types.specs.Tree.{attrs_of, fresh_root, file_of};
ghost use Rattle.lfs_types.specs.Ranges.{least_inodes, most_inodes};
ghost use Rattle.lfs_types.specs.Stored.{bytes_of};
ghost use Rattle.lfs_flatfiles.specs.FlatFiles.{content_of, file_in, room_in, end_of, with_attrs, with_bytes, with_length, opening_state, IsInReach, HasRoom, KeepsRoom, CanHold, HasFile};

mod place;

use lfs_types::attrs::{Attrs, Kind};
use lfs_types::fault::FormatFault;
use lfs_types::file_flags::FileFlags;
use lfs_types::limits::{FIRST_INODE, LEAST_INODES, MOST_INODES, MOST_SEGMENTS, ROOT_INODE};
use lfs_types::mode::Mode;
use lfs_types::store::{Change, FileStore, Reserve, StoreRefusal};
use place::{Place, end_of};
use std::alloc::{AllocError, Global};

/// The number of the root directory, as a place.
const ROOT: usize = ROOT_INODE as usize;

/// The least number that a new file may get, as a place.
const FIRST_FILE: usize = FIRST_INODE as usize;

/// A store of files in memory, with a place for each inode number (this project's profile). A change touches
/// its own file alone.
#[derive(Drop, Debug)]
pub struct FlatFiles {
    places: Vec<Place>,
    /// The least number from 4 up whose place is free, or the number of places if none is.
    least_free: usize,
    ghost bounded: { vec_len places ≤ most_inodes },
    ghost reserved: { 4 ≤ least_free },
    ghost within: { least_free ≤ vec_len places },
    ghost used: { (ino : ℕ) → 4 ≤ ino → ino < least_free → IsSome (file_in places.items ino) },
    ghost free: { least_free < vec_len places
        → IsFalse (is_some (file_in places.items least_free)) },
}

impl FlatFiles {
    /// A store with this many inode numbers, 16 to 4,096, and the root directory alone: else TooFew or TooMany.
    /// Memory where a growth is refused.
    pub fn new(alloc: Global, inodes: u32) -> Result<FlatFiles, FormatFault>
        ensures opening { IfOk result (λ store. ⟦<FlatFiles as FileStore>⟧.state store
            ≡ opening_state inodes) }
        ensures too_few { IsErrOf result FormatFault.TooFew ↔ (inodes < least_inodes) }
        ensures too_many { IsErrOf result FormatFault.TooMany ↔ (most_inodes < inodes) }
        ensures memory_in_range { IsErrOf result FormatFault.Memory
            → (least_inodes ≤ inodes) × (inodes ≤ most_inodes) }
    {
        if inodes < LEAST_INODES {
            return Err(FormatFault::TooFew);
        }
        if inodes > MOST_INODES {
            return Err(FormatFault::TooMany);
        }
        let mut places = unused_places(alloc, inodes as usize)?;
        places[ROOT].make(root_attrs());
        Ok(FlatFiles {
            places,
            least_free: FIRST_FILE,
        })
    }

    /// The bytes of a number's file, none where it has no file.
    pub fn bytes(&self, ino: u32) -> &[u8]
        ensures { result.now ≡ bytes_of (content_of self.now.places.items) ino }
    {
        match self.places.get(ino as usize) {
            Some(place) => place.bytes(),
            None => &[],
        }
    }

    /// Makes room for what changes put. No file changes.
    fn make_room(&mut self, changes: &[Change<'_>]) -> Result<(), AllocError>
        requires { All (IsInReach (vec_len self.old.places)) changes.now }
        ensures content { content_of self.new.places.items ≡ content_of self.old.places.items }
        ensures numbers { vec_len self.new.places ≡ vec_len self.old.places }
        ensures room { OnOk result (All (HasRoom self.new.places.items) changes.now) }
    {
        for change in changes {
            self.make_room_for(change)?;
        }
        Ok(())
    }

    /// Makes room for what a change puts. No file changes.
    fn make_room_for(&mut self, change: &Change<'_>) -> Result<(), AllocError>
        requires { IsInReach (vec_len self.old.places) change.now }
        ensures content { content_of self.new.places.items ≡ content_of self.old.places.items }
        ensures numbers { vec_len self.new.places ≡ vec_len self.old.places }
        ensures grows { KeepsRoom self.old.places.items self.new.places.items }
        ensures room { OnOk result (HasRoom self.new.places.items change.now) }
    {
        match *change {
            Change::Make { .. } | Change::Remove { .. } | Change::SetAttrs { .. } => Ok(()),
            Change::Put { ino, off, bytes } => self.make_room_at(ino as usize, end_of(off, bytes)),
            Change::SetLength { ino, len } => self.make_room_at(ino as usize, len as usize),
        }
    }

    /// Makes room for this many bytes at a number. No file changes.
    fn make_room_at(&mut self, ino: usize, len: usize) -> Result<(), AllocError>
        requires { ino < vec_len self.old.places }
        ensures content { content_of self.new.places.items ≡ content_of self.old.places.items }
        ensures numbers { vec_len self.new.places ≡ vec_len self.old.places }
        ensures grows { KeepsRoom self.old.places.items self.new.places.items }
        ensures room { OnOk result (len ≤ room_in self.new.places.items ino) }
    {
        self.places[ino].make_room(len)
    }

    /// Makes changes, in order, that may be asked for and have room.
    fn make_changes(&mut self, changes: &[Change<'_>])
        requires can { CanChangeAll (vec_len self.old.places) changes.now
            (content_of self.old.places.items) }
        requires room { All (HasRoom self.old.places.items) changes.now }
        ensures content { content_of self.new.places.items
            ≡ applied changes.now (content_of self.old.places.items) }
        ensures numbers { vec_len self.new.places ≡ vec_len self.old.places }
    {
        for change in changes {
            self.make_change(change);
        }
    }

    /// Makes a change that may be asked for and has room.
    fn make_change(&mut self, change: &Change<'_>)
        requires can { CanChange (vec_len self.old.places) change.now
            (content_of self.old.places.items) }
        requires room { HasRoom self.old.places.items change.now }
        ensures content { content_of self.new.places.items
            ≡ changed change.now (content_of self.old.places.items) }
        ensures numbers { vec_len self.new.places ≡ vec_len self.old.places }
        ensures grows { KeepsRoom self.old.places.items self.new.places.items }
    {
        match *change {
            Change::Make { ino, attrs } => self.make(ino as usize, attrs),
            Change::Remove { ino } => self.remove(ino as usize),
            Change::SetAttrs { ino, attrs } => self.set_attrs(ino as usize, attrs),
            Change::Put { ino, off, bytes } => self.put(ino as usize, off, bytes),
            Change::SetLength { ino, len } => self.set_length(ino as usize, len as usize),
        }
    }

    /// Puts an empty file at a free number.
    fn make(&mut self, ino: usize, attrs: Attrs)
        requires named { 4 ≤ ino }
        requires within { ino < vec_len self.old.places }
        requires free { file_in self.old.places.items ino ≡ None }
        ensures content { content_of self.new.places.items
            ≡ map.insert (content_of self.old.places.items) ino (file_of attrs []) }
        ensures numbers { vec_len self.new.places ≡ vec_len self.old.places }
        ensures grows { KeepsRoom self.old.places.items self.new.places.items }
    {
        self.places[ino].make(attrs);
        if ino == self.least_free {
            self.least_free = first_free(self.places.as_slice(), ino + 1);
        }
    }

    /// Takes away the file of a number, which becomes free.
    fn remove(&mut self, ino: usize)
        requires { HasFile (vec_len self.old.places) self.old.places.items ino }
        ensures content { content_of self.new.places.items
            ≡ map.remove (content_of self.old.places.items) ino }
        ensures numbers { vec_len self.new.places ≡ vec_len self.old.places }
        ensures grows { KeepsRoom self.old.places.items self.new.places.items }
    {
        self.places[ino].remove();
        if ino >= FIRST_FILE {
            self.least_free = self.least_free.min(ino);
        }
    }

    /// Gives the file of a number so many bytes, for which there is room.
    fn set_length(&mut self, ino: usize, len: usize)
        requires { CanHold (vec_len self.old.places) self.old.places.items ino len }
        ensures content { let old = content_of self.old.places.items in
            content_of self.new.places.items
            ≡ changed_at (map.get old ino) ino (with_length len) old }
        ensures numbers { vec_len self.new.places ≡ vec_len self.old.places }
        ensures grows { KeepsRoom self.old.places.items self.new.places.items }
    {
        self.places[ino].set_length(len);
    }

    /// Gives the file of a number these attributes.
    fn set_attrs(&mut self, ino: usize, attrs: Attrs)
        requires { HasFile (vec_len self.old.places) self.old.places.items ino }
        ensures content { let old = content_of self.old.places.items in
            content_of self.new.places.items
            ≡ changed_at (map.get old ino) ino (with_attrs attrs) old }
        ensures numbers { vec_len self.new.places ≡ vec_len self.old.places }
        ensures grows { KeepsRoom self.old.places.items self.new.places.items }
    {
        self.places[ino].set_attrs(attrs);
    }

    /// Puts bytes into the file of a number, where there is room for them.
    fn put(&mut self, ino: usize, off: u64, bytes: &[u8])
        requires { CanHold (vec_len self.old.places) self.old.places.items ino
            (end_of off bytes.now) }
        ensures content { let old = content_of self.old.places.items in
            content_of self.new.places.items
            ≡ changed_at (map.get old ino) ino (with_bytes off bytes.now) old }
        ensures numbers { vec_len self.new.places ≡ vec_len self.old.places }
        ensures grows { KeepsRoom self.old.places.items self.new.places.items }
    {
        self.places[ino].put(off, bytes);
    }
}

impl FileStore for FlatFiles {
    ghost use Rattle.std.specs.Prelude.{⊤};
    ghost use Rattle.std.specs.Vec.{vec_len};
    ghost use Rattle.lfs_types.specs.StoreStates.{Applies};
    ghost use Rattle.lfs_flatfiles.specs.FlatFiles.{state_of};

    ghost is_flushed = { λ _. ⊤ };

    ghost state = { λ store. state_of (vec_len store.places) store.places.items };

    ghost made = { λ old changes by result new.
        Applies (state_of (vec_len old.places) old.places.items) changes result
        (state_of (vec_len new.places) new.places.items) };

    fn attrs(&self, ino: u32) -> Option<Attrs> {
        self.places.get(ino as usize)?.attrs()
    }

    fn read(&mut self, ino: u32, off: u64, into: &mut [u8]) -> usize {
        self.places[ino as usize].read(off, into)
    }

    fn least_free(&self) -> Option<u32> {
        if self.least_free < self.places.len() {
            Some(self.least_free as u32)
        } else {
            None
        }
    }

    /// The plain store stands for as many segments as a volume may have, all of them clean.
    fn clean_segments(&self) -> u32 {
        MOST_SEGMENTS
    }

    fn apply(&mut self, changes: &[Change<'_>], _by: Reserve) -> Result<(), StoreRefusal> {
        // What may be refused comes first, and changes no file.
        if self.make_room(changes).is_err() {
            return Err(StoreRefusal::NoMemory);
        }
        self.make_changes(changes);
        Ok(())
    }

    /// Nothing ever waits.
    fn sync(&mut self) -> Result<(), StoreRefusal> {
        Ok(())
    }
}

/// The attributes of the root directory of a fresh volume.
fn root_attrs() -> Attrs
    ensures { result ≡ attrs_of fresh_root }
{
    let Some(mode) = Mode::new(0o755) else {
        // Never: the number is a mode.
        unreachable!()
    };
    Attrs {
        kind: Kind::Directory,
        uid: 0,
        gid: 0,
        mode,
        flags: FileFlags::none(),
        size: 0,
    }
}

/// This many places with no file.
fn unused_places(alloc: Global, count: usize) -> Result<Vec<Place>, AllocError>
    ensures none { IfOk result (λ places. (ino : ℕ) → file_in places.items ino ≡ None) }
    ensures count { IfOk result (λ places. vec_len places ≡ count) }
{
    let mut places = Vec::with_capacity(alloc, count)?;
    for _index in 0..count {
        places.push(Place::unused(alloc))?;
    }
    Ok(places)
}

/// The least number from `start` on whose place is free, or the number of places if none is.
fn first_free(places: &[Place], start: usize) -> usize
    requires { start ≤ length places.now }
    ensures from_start { start ≤ result }
    ensures within { result ≤ length places.now }
    ensures used { (ino : ℕ) → start ≤ ino → ino < result → IsSome (file_in places.now ino) }
    ensures free { result < length places.now → IsFalse (is_some (file_in places.now result)) }
{
    let mut ino = start;
    while ino < places.len() && places[ino].is_used() {
        ino += 1;
    }
    ino
}
