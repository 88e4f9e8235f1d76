//! A volume over a durable store, and how many entries of its journal a crash would leave.

ghost use Rattle.std.specs.Prelude.{◌≡◌, ◌++◌, ◌≤◌, [], false, true, length, IfErr, IfOk, OnOk};
ghost use Rattle.std.specs.Vec.{vec_capacity};
ghost use Rattle.lfs_model.specs.Runs.{kept_cleaning, kept_entry};
ghost use Rattle.lfs_volume.specs.Journals.{IsJournal, Since};
ghost use Rattle.lfs_durable_store.specs.Keeping.{IsKept, durable_state};
ghost use Rattle.lfs_logged.specs.Calls.{IsLoggedCall, IsLoggedCleaning};
ghost use Rattle.lfs_logged.specs.Keeping.{KeepsCount, LeavesAll, LeavesKept, ShowsFirst, drained};
ghost use Rattle.lfs_logged.specs.Keeping.{kept_behind};

use lfs_durable_store::{DurableStore, Mark};
use lfs_model::journal::{CleanerAnswer, Entry};
use lfs_types::answer::{Answer, Served};
use lfs_types::cleaner::CleanerCall;
use lfs_types::cred::Cred;
use lfs_types::request::Request;
use lfs_volume::volume::Volume;
use std::marker::Model;

/// A volume over a durable store, and how many entries of its journal a crash would leave. Its type keeps that what a crash
/// would leave is the tree that so many of its first entries lead to.
#[derive(Drop)]
pub struct Logged {
    volume: Volume<DurableStore>,
    kept: u32,
}

impl Model for Logged {
    ghost use Rattle.lfs_logged.specs.Keeping.{IsCounting, LoggedVolume};

    ghost Value = { LoggedVolume };

    ghost view = { λ l. record { volume = l.volume; kept = l.kept } };

    ghost invariant = { λ l. IsCounting (record { volume = l.volume; kept = l.kept }) };
}

impl Logged {
    /// That of a volume whose store tells that its base is whole: a crash would leave all entries.
    pub fn over(volume: Volume<DurableStore>) -> Logged
        requires { volume.store.mark.is_whole ≡ true }
        ensures { result ≡ record { volume = volume; kept = length volume.journal } }
    {
        let kept = Look::at(&volume).entries;
        Logged { volume, kept }
    }

    /// How many entries of the journal a crash would leave, counted from the first: behind a Sync, all that there are.
    pub fn durable(&self) -> u32
        ensures kept { result ≡ self.now.kept }
        ensures within { result ≤ length self.now.volume.journal }
        // A crash, at rest or in the flush of what waits, leaves the tree that so many entries lead to.
        ensures survives { LeavesKept self.now }
        // A crash before or in a later flush of the next call leaves the tree that all of them lead to.
        ensures later { LeavesAll self.now }
    {
        self.kept
    }

    /// Makes a user's call, as `Volume::call` does. Behind a served Sync a crash would leave all entries.
    pub fn call(&mut self, session: u8, cred: &Cred, request: Request) -> Answer
        ensures call { IsLoggedCall self.old.volume cred.now request result self.new.volume }
        ensures entered { self.new.volume.journal ≡ self.old.volume.journal
            ++ kept_entry session cred.now request result }
        ensures since { self.new.volume.since ≡ self.old.volume.since }
        ensures since_level { self.new.volume.since_level ≡ self.old.volume.since_level }
        ensures limit { self.new.volume.limit ≡ self.old.volume.limit }
        ensures synced { request ≡ Request.Sync → result ≡ Answer.Served Served.Done
            → self.new.kept ≡ length self.new.volume.journal }
        ensures counted { KeepsCount self.old self.new }
    {
        let before = Look::at(&self.volume);
        let answer = self.volume.call(session, cred, request);
        self.kept = before.kept_behind(Look::at(&self.volume), self.kept);
        answer
    }

    /// Makes a call of the cleaner, as `Volume::clean` does.
    pub fn clean(&mut self, session: u8, cred: &Cred, call: CleanerCall) -> CleanerAnswer
        ensures call { IsLoggedCleaning self.old.volume cred.now call result self.new.volume }
        ensures entered { self.new.volume.journal ≡ self.old.volume.journal
            ++ kept_cleaning session cred.now call result }
        ensures since { self.new.volume.since ≡ self.old.volume.since }
        ensures since_level { self.new.volume.since_level ≡ self.old.volume.since_level }
        ensures limit { self.new.volume.limit ≡ self.old.volume.limit }
        ensures counted { KeepsCount self.old self.new }
    {
        let before = Look::at(&self.volume);
        let answer = self.volume.clean(session, cred, call);
        self.kept = before.kept_behind(Look::at(&self.volume), self.kept);
        answer
    }

    /// Hands out all entries, as `Volume::drain` does, where the store tells that a crash would leave each of them, as
    /// behind a Sync. The journal goes on from the present tree, with this room.
    ///
    /// # Errors
    ///
    /// The store doesn't tell so. Nothing is done, and the room comes back.
    pub fn drain(&mut self, room: Vec<Entry>) -> Result<Vec<Entry>, Vec<Entry>>
        requires empty { room.items ≡ [] }
        requires room { self.old.volume.limit ≤ vec_capacity room }
        ensures handed { IfOk result (λ entries. entries.items ≡ self.old.volume.journal) }
        ensures legal { IfOk result (λ entries. Since (durable_state self.old.volume.since)
            self.old.volume.since_level (λ from. IsJournal from (durable_state self.new.volume.since)
            self.new.volume.since_level entries.items self.old.volume.limit)) }
        ensures drained { OnOk result (self.new ≡ drained self.old) }
        ensures whole { OnOk result (self.old.volume.store.mark.is_whole ≡ true) }
        ensures waits { IfErr result (λ back. (back ≡ room) × ((self.new ≡ self.old)
            × (self.old.volume.store.mark.is_whole ≡ false))) }
    {
        if !self.volume.store().mark().is_whole {
            return Err(room);
        }
        let entries = self.volume.drain(room);
        self.kept = 0;
        Ok(entries)
    }

    /// The volume, to be looked at.
    pub fn volume(&self) -> &Volume<DurableStore>
        ensures { result.now ≡ self.now.volume }
    {
        &self.volume
    }
}

/// What is seen of a volume: how many entries its journal has, and what its store tells of its base.
#[derive(Clone, Copy)]
struct Look {
    entries: u32,
    mark: Mark,
}

impl Look {
    /// What is seen now.
    fn at(volume: &Volume<DurableStore>) -> Look
        ensures entries { result.entries ≡ length volume.now.journal }
        ensures mark { result.mark ≡ volume.now.store.mark }
        ensures all { ShowsFirst volume.now (length volume.now.journal) volume.now.store.store }
        ensures store { IsKept volume.now.store }
    {
        // A journal is no longer than its limit, which a u32 counts.
        let entries = volume.journal().len().min(volume.journal_limit() as usize);
        Look {
            entries: entries as u32,
            mark: volume.store().mark(),
        }
    }

    /// How many entries are kept behind a call, of which so many were kept before it, when this was seen.
    fn kept_behind(self, now: Look, kept: u32) -> u32
        ensures { result ≡ kept_behind self.mark now.mark self.entries now.entries kept }
    {
        if now.mark.is_whole {
            now.entries
        } else if now.mark.turn == self.mark.turn {
            kept
        } else {
            self.entries
        }
    }
}
