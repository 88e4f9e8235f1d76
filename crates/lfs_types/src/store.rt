//! The trait of a file store: files by number, with no names and no permissions.

ghost use Rattle.std.specs.Prelude.{◌≡◌, [], length, IsSome, List, OnOk, Result};
ghost use Rattle.std.specs.FinMap.{get};
ghost use Rattle.lfs_types.specs.Changes.{CanApply};
ghost use Rattle.lfs_types.specs.Reserves.{reserve_of};
ghost use Rattle.lfs_types.specs.StoreStates.{Applies, StoreState};
ghost use Rattle.lfs_types.specs.Stored.{shown_attrs, bytes_of, slice_of, Reads, IsLeastFree};

use crate::attrs::Attrs;
use crate::cred::Cred;
use thiserror::Error;

/// One change of a store's content. A directory's bytes are its blocks.
#[derive(Clone, Copy)]
pub enum Change<'a> {
    /// A free number gets an empty file of these attributes; their size counts for nothing.
    Make {
        /// The number, at least 4.
        ino: u32,
        /// Its kind, owner, group, mode and flags.
        attrs: Attrs,
    },
    /// A number becomes free, and its file is gone.
    Remove {
        /// The number that was in use.
        ino: u32,
    },
    /// A file gets these attributes; its bytes and its size stay.
    SetAttrs {
        /// The file's number.
        ino: u32,
        /// The attributes, of the same kind.
        attrs: Attrs,
    },
    /// Bytes are put into a file; a gap before them is filled with zeros.
    Put {
        /// The file's number.
        ino: u32,
        /// Where the first byte goes, counted from 0.
        off: u64,
        /// The bytes.
        bytes: &'a [u8],
    },
    /// A file is cut, or zeros are added to it.
    SetLength {
        /// The file's number.
        ino: u32,
        /// How many bytes it gets.
        len: u64,
    },
}

/// On whose behalf changes are made, and so which of them may use the room that a store keeps back.
#[derive(Clone, Copy, PartialEq, Eq, Debug)]
pub enum Reserve {
    /// A user's: those that give blocks back.
    Users,
    /// The superuser's: those that give blocks back, and those that only take flags away.
    Superuser,
}

impl Reserve {
    /// That of a caller.
    pub fn of(cred: &Cred) -> Reserve
        ensures { result ≡ reserve_of cred.now }
    {
        if cred.is_superuser() {
            Reserve::Superuser
        } else {
            Reserve::Users
        }
    }
}

/// Why a store did not make changes.
#[derive(Clone, Copy, PartialEq, Eq, Debug, Error)]
pub enum StoreRefusal {
    /// There is no room. It comes only with at most two clean segments, or past the share of a store that has one.
    #[error("no space")]
    NoSpace,
    /// A growth was refused.
    #[error("no memory")]
    NoMemory,
}

/// A store of files by number. Contracts see one state of it: its content as a finite map, however it is kept,
/// the number of its clean segments, and what no call changes.
pub trait FileStore {
    ghost use Rattle.lfs_types.specs.declared.store.Change.{Change};
    ghost use Rattle.lfs_types.specs.declared.store.Reserve.{Reserve};
    ghost use Rattle.lfs_types.specs.declared.store.StoreRefusal.{StoreRefusal};

    /// The state that contracts see.
    ghost state: { Self → StoreState };
    /// Nothing waits to be written.
    ghost is_flushed: { Self → Type 0 };
    /// Changes that were asked for on somebody's behalf came to this result, and left the store so. Each store says it by a
    /// relation of its own, and only `apply` gives it: so it says that the store was asked.
    ghost made: { Self → List Change → Reserve → Result (Unit {0}) StoreRefusal → Self → Type 0 };

    /// The attributes of a number, if it is in use.
    fn attrs(&self, ino: u32) -> Option<Attrs>
        ensures { result ≡ shown_attrs (state self.now).content ino };

    /// Reads a file's bytes from `off` on, as many as there are and the buffer takes, and says how many.
    fn read(&mut self, ino: u32, off: u64, into: &mut [u8]) -> usize
        requires { IsSome (get (state self.old).content ino) }
        ensures reads { Reads
            (slice_of (bytes_of (state self.old).content ino) off (length into.old))
            result into.old into.new }
        ensures state { state self.new ≡ state self.old };

    /// The least free number from 4 up, if there is one below the number of inode numbers.
    fn least_free(&self) -> Option<u32>
        ensures { IsLeastFree (state self.now).shape.numbers (state self.now).content result };

    /// How many segments are clean.
    fn clean_segments(&self) -> u32
        ensures { result ≡ (state self.now).clean };

    /// Makes all the changes, in order, or none of them. On whose behalf says only which may be refused for want of room.
    fn apply(&mut self, changes: &[Change<'_>], by: Reserve) -> Result<(), StoreRefusal>
        requires { CanApply (state self.old).shape.numbers changes.now (state self.old).content }
        ensures applies { Applies (state self.old) changes.now result (state self.new) }
        ensures made { made self.old changes.now by result self.new };

    /// Writes what waits to be written. The content stays.
    fn sync(&mut self) -> Result<(), StoreRefusal>
        ensures applies { Applies (state self.old) [] result (state self.new) }
        ensures flushed { OnOk result (is_flushed self.new) };
}

/// The numbers with which a volume is laid out.
#[derive(Clone, Copy, PartialEq, Eq, Debug)]
pub struct Params {
    /// How many segments: 6 to 1,024.
    pub segments: u32,
    /// How many inode numbers: 16 to 4,096.
    pub inodes: u32,
    /// How many frames the block cache has: 32 to 1,024.
    pub frames: u32,
    /// How many entries the journal may have: the program takes 1 to 100,000, the shell up to 1,000,000.
    pub journal: u32,
}
