//! What is done between messages: room for entries is made, and the cleaner passes.

ghost use Rattle.std.specs.Prelude.{◌≡◌, ◌≤◌, [], if◌then◌else◌, IfOk, OnErr, OnOk};
ghost use Rattle.std.specs.Vec.{vec_capacity};
ghost use Rattle.lfs_volume.specs.Journals.{AtPresent, Begins};
ghost use Rattle.lfs_mount.specs.Runs.{GoesOn, IsRun, LeadTo};
ghost use Rattle.lfs_mount.specs.Tending.{HasRoomFor, closed, let_go};

use crate::mount::Mount;
use crate::sweeping::few_of;
use lfs_cleaner::pass::Pass;
use lfs_cleaner::wanting::superuser;
use lfs_model::journal::Entry;
use lfs_types::cleaned::CleanedStore;
use lfs_types::store::FileStore;
use std::alloc::{AllocError, Global};

/// A message and what is done behind it make fewer calls than this.
const ROOM: usize = 512;

/// The session of the cleaner, which is none of a user.
pub(crate) const CLEANER: u8 = 255;

/// So few clean segments call for the cleaner.
const FEW_CLEAN: u32 = 3;

impl<F: FileStore + Drop> Mount<F> {
    /// How many segments of the store are clean.
    pub fn clean_segments(&self) -> u32
        ensures { result ≡ (F.state self.now.tree.volume.store).clean }
    {
        self.tree.volume.clean_segments()
    }

    /// The entries of the journal, since they were let go last: a legal run from the tree that was
    /// shown then to the one that is shown now.
    pub fn journal(&self) -> &[Entry]
        ensures entries { result.now ≡ self.now.tree.volume.journal }
        ensures legal { IsRun F.state self.now.tree.volume }
    {
        self.tree.volume.journal()
    }

    /// How many entries the journal may have.
    pub fn journal_limit(&self) -> u32
        ensures { result ≡ self.now.tree.volume.limit }
    {
        self.tree.volume.journal_limit()
    }

    /// Takes no more entries: each call is refused `JournalFull` from here on, and changes nothing.
    pub fn close_journal(&mut self)
        ensures closed { self.new.tree.volume ≡ closed self.old.tree.volume }
        ensures nodes { self.new.tree.nodes ≡ self.old.tree.nodes }
        ensures beside { self.new.beside ≡ self.old.beside }
        ensures sizes { self.new.sizes ≡ self.old.sizes }
    {
        self.tree.volume.close_journal();
    }

    /// Hands the entries of the journal out, which goes on without them from the present tree, with
    /// the room that is handed in. They are a legal run from where their journal began to the tree
    /// that store and level show.
    pub fn hand_out(&mut self, room: Vec<Entry>) -> Vec<Entry>
        requires empty { room.items ≡ [] }
        requires room { self.old.tree.volume.limit ≤ vec_capacity room }
        ensures handed { result.items ≡ self.old.tree.volume.journal }
        ensures legal { LeadTo F.state self.old.tree.volume result.items self.old.tree.volume }
        ensures let_go { self.new.tree.volume ≡ let_go self.old.tree.volume }
        ensures shown { AtPresent F.state self.old.tree.volume
            (Begins (F.state self.old.tree.volume.store) self.old.tree.volume.level) }
        ensures nodes { self.new.tree.nodes ≡ self.old.tree.nodes }
        ensures beside { self.new.beside ≡ self.old.beside }
        ensures sizes { self.new.sizes ≡ self.old.sizes }
    {
        self.tree.volume.drain(room)
    }

    /// Lets the entries of the journal go, where there is room for fewer than 512 more. Whether it
    /// did.
    ///
    /// # Errors
    ///
    /// Memory ran out for the room of a journal, and the entries are still there.
    pub fn make_room(&mut self, alloc: Global) -> Result<bool, AllocError>
        ensures let_go { IfOk result (λ did. self.new.tree.volume
            ≡ (if did then let_go self.old.tree.volume else self.old.tree.volume)) }
        ensures room { OnOk result (HasRoomFor 512 self.new.tree.volume) }
        ensures failed { OnErr result (self.new.tree.volume ≡ self.old.tree.volume) }
        ensures nodes { self.new.tree.nodes ≡ self.old.tree.nodes }
        ensures beside { self.new.beside ≡ self.old.beside }
        ensures sizes { self.new.sizes ≡ self.old.sizes }
    {
        self.make_room_for(alloc, ROOM)
    }

    /// The same, where there is room for fewer than so many. Store and level show the tree that the
    /// journal led to.
    pub(crate) fn make_room_for(&mut self, alloc: Global, wanted: usize) -> Result<bool, AllocError>
        ensures let_go { IfOk result (λ did. self.new.tree.volume
            ≡ (if did then let_go self.old.tree.volume else self.old.tree.volume)) }
        ensures room { OnOk result (HasRoomFor wanted self.new.tree.volume) }
        ensures shown { AtPresent F.state self.old.tree.volume
            (Begins (F.state self.old.tree.volume.store) self.old.tree.volume.level) }
        ensures failed { OnErr result (self.new.tree.volume ≡ self.old.tree.volume) }
        ensures nodes { self.new.tree.nodes ≡ self.old.tree.nodes }
        ensures beside { self.new.beside ≡ self.old.beside }
        ensures sizes { self.new.sizes ≡ self.old.sizes }
    {
        let limit = self.tree.volume.journal_limit() as usize;
        let used = self.tree.volume.journal().len();
        if limit.saturating_sub(used) >= wanted {
            return Ok(false);
        }
        let room = Vec::with_capacity(alloc, limit)?;
        let _ = self.hand_out(room);
        Ok(true)
    }
}

impl<F: CleanedStore + Drop> Mount<F> {
    #[tactic(auto, using(crate::proofs::TendingLemmas::cleaned_goes, crate::proofs::TendingLemmas::goes_on_again))]
    /// Makes a pass of the cleaner. No file changes.
    pub(crate) fn pass(&mut self)
        ensures content { (F.state self.new.tree.volume.store).content
            ≡ (F.state self.old.tree.volume.store).content }
        ensures level { self.new.tree.volume.level ≡ self.old.tree.volume.level }
        ensures journal { GoesOn F.state self.old.tree.volume self.new.tree.volume }
        ensures nodes { self.new.tree.nodes ≡ self.old.tree.nodes }
        ensures beside { self.new.beside ≡ self.old.beside }
        ensures sizes { self.new.sizes ≡ self.old.sizes }
    {
        let cleaner = superuser();
        let mut pass = Pass::new();
        let mut last = None;
        while let Some(call) = pass.next(last.as_ref()) {
            last = Some(self.tree.volume.clean(CLEANER, &cleaner, call));
        }
    }

    #[tactic(auto, using(crate::proofs::TendingLemmas::goes_on_none))]
    /// Has the cleaner look for room where fewer than three segments are clean, so that room that
    /// was given back is found, or few and more than that before. No file changes.
    pub fn tend(&mut self, before: u32)
        ensures content { (F.state self.new.tree.volume.store).content
            ≡ (F.state self.old.tree.volume.store).content }
        ensures level { self.new.tree.volume.level ≡ self.old.tree.volume.level }
        ensures journal { GoesOn F.state self.old.tree.volume self.new.tree.volume }
        ensures nodes { self.new.tree.nodes ≡ self.old.tree.nodes }
        ensures beside { self.new.beside ≡ self.old.beside }
        ensures sizes { self.new.sizes ≡ self.old.sizes }
    {
        let after = self.tree.volume.clean_segments();
        if after < FEW_CLEAN || (after <= few_of(self.sizes.segments) && after < before) {
            self.find_room();
        }
    }
}
