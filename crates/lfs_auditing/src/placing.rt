//! At which place of a journal a tree stands.

ghost use Rattle.std.specs.Prelude.{◌≡◌, ◌<◌, ℕ, IfOk, IsSome, OnOk, None};
ghost use Rattle.std.specs.FinMap as map;
ghost use Rattle.lfs_types.specs.Tree.{World};
ghost use Rattle.lfs_logstore.specs.States.{state_of};
ghost use Rattle.lfs_calls.specs.Volumes.{HasWorld, IsVolume};
ghost use Rattle.lfs_trace.specs.Checking.{StandsAt, numbers_of};
ghost use Rattle.lfs_auditing.specs.Audits.{HasReadNone, IsOfSame, NotesOnly};
ghost use Rattle.lfs_auditing.specs.Places.{HasLooked, HasPlaced, IsPlaced, IsToldAs};

use crate::audit::{Audit, Stop};
use crate::fault::AuditFault;
use lfs_logstore::LogStore;
use lfs_trace::errors::Denials;
use lfs_types::limits::ROOT_INODE;
use lfs_types::store::FileStore;
use std::alloc::Global;
use std::io::{BufReader, Read};

/// At which place of a journal a tree stands.
#[derive(Drop)]
pub enum Place {
    /// All its entries are legal, and behind the first so many of them, and behind no more, the tree is this one.
    Behind {
        /// How many entries lead to it.
        entries: u32,
        /// How many there are.
        of: u32,
    },
    /// All its entries are legal, and no number of them leads to this tree.
    Nowhere {
        /// How many there are.
        of: u32,
    },
    /// A line tells no legal entry: which, and why, as lines of text.
    Stopped(Vec<u8>),
}

/// How a journal was read, and behind how many of its legal entries, at most, the tree is the one that was looked for.
#[derive(Drop)]
pub(crate) struct Placed {
    /// Where the reading ended.
    stop: Stop,
    /// How many entries lead to the tree, if any number of them does.
    behind: Option<u32>,
    /// How many were read.
    of: u32,
}

/// A search for the place at which a tree stands.
#[derive(Clone, Copy)]
struct Search {
    /// Behind how many entries so far, at most, the tree was the one that is looked for.
    behind: Option<u32>,
    /// A number at which it differed last.
    differs: u32,
}

/// The place of a journal at which the tree stands that a store shows. The journal is that of a volume with the store's
/// numbers, and begins when the volume was fresh.
///
/// # Errors
///
/// `Read` where the reader fails; `TooMany`; `Memory`.
pub fn place_of<R: Read>(
    alloc: Global,
    store: &mut LogStore,
    reader: &mut R,
) -> Result<Place, AuditFault>
    requires { HasWorld (state_of store.old) }
    ensures placed { IfOk result (IsPlaced (R.remaining reader.old) (state_of store.old)) }
    ensures state { state_of store.new ≡ state_of store.old }
{
    match BufReader::new(alloc, reader) {
        Ok(mut reader) => place_buffered(alloc, store, &mut reader),
        Err(_) => Err(AuditFault::Memory),
    }
}

/// The same of a reader that takes no longer for a byte than for many.
fn place_buffered<R: Read>(
    alloc: Global,
    store: &mut LogStore,
    reader: &mut R,
) -> Result<Place, AuditFault>
    requires { HasWorld (state_of store.old) }
    ensures placed { IfOk result (IsPlaced (R.remaining reader.old) (state_of store.old)) }
    ensures state { state_of store.new ≡ state_of store.old }
{
    let numbers = store.parts().log.inodes();
    let segments = store.parts().log.segments();
    let mut audit = Audit::new(alloc, numbers, segments, Denials::Whole)?;
    let placed = audit.find_place(reader, store)?;
    told_place(&mut audit, &placed)
}

/// What is told of a place.
fn told_place(audit: &mut Audit, placed: &Placed) -> Result<Place, AuditFault>
    ensures { IfOk result (IsToldAs placed.now.stop placed.now.behind placed.now.of) }
{
    match &placed.stop {
        Stop::End => Ok(place_at_end(placed)),
        Stop::Illegal(_) | Stop::Unread(_) => {
            let text = audit.tell_stop(&placed.stop)?;
            Ok(Place::Stopped(text))
        }
    }
}

/// The same where the journal was read to its end.
fn place_at_end(placed: &Placed) -> Place
    requires { placed.now.stop ≡ Stop.End }
    ensures { IsToldAs placed.now.stop placed.now.behind placed.now.of result }
{
    let of = placed.of;
    match placed.behind {
        Some(entries) => Place::Behind { entries, of },
        None => Place::Nowhere { of },
    }
}

impl Audit {
    /// Reads lines as `read_journal` does, and finds behind how many of the entries, at most, the tree is the one that a
    /// store shows. The audit has read nothing yet.
    ///
    /// # Errors
    ///
    /// `Read` where the reader fails; `TooMany`; `Memory`.
    pub(crate) fn find_place<R: Read, F: FileStore>(
        &mut self,
        reader: &mut R,
        store: &mut F,
    ) -> Result<Placed, AuditFault>
        requires fresh { (from : World) × HasReadNone from self.old }
        requires world { HasWorld (F.state store.old) }
        requires within { (n : ℕ) → IsSome (map.get (F.state store.old).content n)
            → n < numbers_of self.old.checker }
        ensures placed { IfOk result (λ placed. (from : World) → HasReadNone from self.old
            → HasPlaced (R.remaining reader.old) (R.remaining reader.new)
            from (F.state store.old) self.new placed) }
        ensures same { IsOfSame self.old self.new }
        ensures state { F.state store.new ≡ F.state store.old }
    {
        let mut search = Search::new();
        search.look(self, store)?;
        let mut line = Vec::new(self.alloc);
        for _ in 0..u64::MAX {
            match self.next(reader, &mut line)? {
                None => search.look(self, store)?,
                Some(stop) => {
                    return Ok(Placed {
                        stop,
                        behind: search.behind,
                        of: self.entries,
                    });
                }
            }
        }
        Err(AuditFault::Read)
    }
}

impl Search {
    /// A search that has looked nowhere.
    fn new() -> Search
        ensures { result.behind ≡ None }
    {
        Search {
            behind: None,
            differs: ROOT_INODE,
        }
    }

    /// Looks whether the tree where an audit stands is the one that a store shows: at the number first at which it
    /// differed last.
    fn look<F: FileStore>(&mut self, audit: &mut Audit, store: &mut F) -> Result<(), AuditFault>
        requires world { HasWorld (F.state store.old) }
        requires within { (n : ℕ) → IsSome (map.get (F.state store.old).content n)
            → n < numbers_of audit.old.checker }
        ensures looked { OnOk result ((w v : World) → StandsAt audit.old.checker w
            → IsVolume (F.state store.old) v
            → HasLooked w v audit.old.entries self.old.behind self.new.behind) }
        ensures audit { NotesOnly audit.old audit.new }
        ensures state { F.state store.new ≡ F.state store.old }
    {
        match audit.checker.difference(store, self.differs)? {
            Some(number) => self.differs = number,
            None => self.behind = Some(audit.entries),
        }
        Ok(())
    }
}
