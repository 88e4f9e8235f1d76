//! A volume: a file store under the rules, and the journal of what was answered.

ghost use Rattle.std.specs.Prelude.{◌≡◌, ◌↔◌, ◌-◌, ◌^◌, ◌<◌, ◌≤◌, [], ◌∷◌, ◌++◌, length, vec_len, false, ⊤, IfOk, IfErr, MatchOption, None, true};
ghost use Rattle.std.specs.Vec.{vec_capacity};
ghost use Rattle.lfs_types.specs.Stored.{shown_attrs};
ghost use Rattle.lfs_types.specs.StoreStates.{Follows, MovesBase};
ghost use Rattle.lfs_types.specs.Tree.{opening_world};
ghost use Rattle.lfs_types.specs.declared.level.Level.TheVariants.{Insecure};
ghost use Rattle.lfs_model.specs.Counts.{counts_of};
ghost use Rattle.lfs_model.specs.Rules.{rule_table};
ghost use Rattle.lfs_model.specs.Runs.{IsUnserved, kept, kept_cleaning, kept_entry, kept_step, kept_steps};
ghost use Rattle.lfs_model.specs.Steps.{world_after};
ghost use Rattle.lfs_calls.specs.Asked.{IsAsked};
ghost use Rattle.lfs_calls.specs.Calls.{LooksOn, OnUnasked};
ghost use Rattle.lfs_calls.specs.Content.{Shows};
ghost use Rattle.lfs_calls.specs.Entries.{LeavesEntries, OnServed};
ghost use Rattle.lfs_calls.specs.Outcomes.{IsOutcome};
ghost use Rattle.lfs_calls.specs.Reaches.{EndsAlike};
ghost use Rattle.lfs_calls.specs.Volumes.{HasWorld, IsVolume};
ghost use Rattle.lfs_explain.specs.Asked.{asked};
ghost use Rattle.lfs_explain.specs.Trails.{IsTrail, first_names, second_names};
ghost use Rattle.lfs_volume.specs.CallRuns.{AreCallsAsked};
ghost use Rattle.lfs_volume.specs.Cleanings.{CleansOnly, IsCleanerAnswer, cleaner_of, reclaim_answer};
ghost use Rattle.lfs_volume.specs.Copies.{is_lack_of_memory};
ghost use Rattle.lfs_volume.specs.Journals.{AtPresent, Begins, IsAnswered, IsJournal, Since, Stays, StaysJournal};
ghost use Rattle.lfs_volume.specs.StepRuns.{AreLegalAlone, AreSteps, IsActMade};

use crate::cleaning::{cleaned, outcome, reclaimed};
use lfs_calls::cached_store::CachedStore;
use lfs_calls::call_fault::answered;
use lfs_calls::reading::read;
use lfs_calls::serving::serve;
use lfs_calls::walking::ends_alike;
use lfs_explain::explain::{Explanation, explain};
use lfs_model::asking::CleanerAct;
use lfs_model::counts::Counts;
use lfs_model::journal::{Call, CleanerAnswer, CleanerOutcome, Entry, Event};
use lfs_model::steps::{Act, Step, StepAnswer};
use lfs_types::answer::{Answer, Resource, Served};
use lfs_types::attrs::Attrs;
use lfs_types::cleaned::CleanedStore;
use lfs_types::cleaner::CleanerCall;
use lfs_types::cred::Cred;
use lfs_types::level::Level;
use lfs_types::path::Path;
use lfs_types::request::Request;
use lfs_types::store::FileStore;
use std::alloc::{AllocError, Global};
use std::marker::Model;
use std::snapshot::Snapshot;
use thiserror::Error;

/// A volume over a file store. It remembers the store and the level as they were when its journal began. Its type keeps
/// that they showed a tree, that its journal is a legal run from there to the tree that its store and its level show,
/// and that its counts are those over its journal.
#[derive(Drop)]
pub struct Volume<F: FileStore + Drop> {
    store: CachedStore<F>,
    level: Level,
    since: Snapshot<F>,
    since_level: Level,
    journal: Vec<Entry>,
    counts: Counts,
    limit: u32,
}

impl<F: FileStore + Drop> Model for Volume<F> {
    ghost use Rattle.std.specs.Prelude.{◌≤◌};
    ghost use Rattle.std.specs.Vec.{vec_capacity};
    ghost use Rattle.lfs_volume.specs.Seen.{Seen};

    ghost Value = { Seen F };

    ghost use Rattle.std.specs.Prelude.{◌≡◌};
    ghost use Rattle.lfs_model.specs.Counts.{counts_of};
    ghost use Rattle.lfs_volume.specs.Journals.{HasBegun, IsJournal, Since};

    ghost view = { λ v. record {
      store = v.store;
      level = v.level;
      since = v.since.value;
      since_level = v.since_level;
      journal = v.journal.items;
      limit = v.limit;
    } };

    ghost invariant = { λ v. HasBegun (F.state v.since.value) v.since_level
        × Since (F.state v.since.value) v.since_level
        (λ from. IsJournal from (F.state v.store) v.level v.journal.items v.limit)
        × (v.limit ≤ vec_capacity v.journal) × (v.counts ≡ counts_of v.journal.items) };
}

impl<F: FileStore + Drop> Volume<F> {
    /// A volume over a store that shows the tree of a fresh volume, in whatever blocks, with room for `journal_limit`
    /// entries and for the names and the attributes that it will know.
    pub fn new(alloc: Global, store: F, journal_limit: u32) -> Result<Volume<F>, AllocError>
        requires { Shows (F.state store).content opening_world }
        ensures fresh { IfOk result (λ v. v ≡ record {
          store = store;
          level = Insecure;
          since = store;
          since_level = Insecure;
          journal = [];
          limit = journal_limit;
        }) }
        ensures opening { IfOk result (λ v. Begins (F.state v.since) v.since_level opening_world) }
    {
        Volume::over(alloc, store, Level::Insecure, journal_limit)
    }

    /// A volume over a store that shows a tree, at a securelevel: its journal begins there.
    pub fn over(
        alloc: Global,
        store: F,
        level: Level,
        journal_limit: u32,
    ) -> Result<Volume<F>, AllocError>
        requires { HasWorld (F.state store) }
        ensures { IfOk result (λ v. v ≡ record {
          store = store;
          level = level;
          since = store;
          since_level = level;
          journal = [];
          limit = journal_limit;
        }) }
    {
        let since = Snapshot::of(&store);
        let store = CachedStore::new(alloc, store)?;
        let journal = Vec::with_capacity(alloc, journal_limit as usize)?;
        Ok(Volume {
            store,
            level,
            since,
            since_level: level,
            journal,
            counts: Counts::none(),
            limit: journal_limit,
        })
    }

    /// Makes a user's call: judges it by the rules on the tree that the journal leads to, does it, and enters it. A
    /// served call leaves the entries of directories in their places, and a Sync nothing waiting in the store. A call
    /// that looks, that a rule denies, or that wants a number or room for a name leaves the store's state as it was.
    /// One that changes files is served, or refused for want of space or memory, as the store says to the changes that
    /// make it, and does no more than they do. A store that tells its base has it then as it was, or as what the store
    /// contained before the call, or contains now.
    pub fn call(&mut self, session: u8, cred: &Cred, request: Request) -> Answer
        ensures full { (result ≡ Answer.Refused Resource.JournalFull)
            ↔ (length self.old.journal ≡ self.old.limit) }
        ensures at_limit { length self.old.journal ≡ self.old.limit → self.new ≡ self.old }
        ensures shown { AtPresent F.state self.old (IsVolume (F.state self.old.store)) }
        ensures outcome { length self.old.journal < self.old.limit → AtPresent F.state self.old
            (λ w. IsOutcome (F.state self.old.store) w cred.now request result) }
        ensures entered { self.new.journal ≡ self.old.journal
            ++ kept_entry session cred.now request result }
        ensures legal { Since (F.state self.new.since) self.new.since_level (λ from. IsJournal from
            (F.state self.new.store) self.new.level self.new.journal self.new.limit) }
        ensures entries { AtPresent F.state self.old (λ w. OnServed result (LeavesEntries request
            (F.state self.old.store).content (F.state self.new.store).content w.rows)) }
        ensures unserved { IsUnserved result
            → Stays (F.state self.old.store) (F.state self.new.store)
            self.old.level self.new.level }
        ensures looks { LooksOn request (F.state self.old.store) (F.state self.new.store) }
        ensures unasked { OnUnasked result (F.state self.new.store ≡ F.state self.old.store) }
        ensures synced { request ≡ Request.Sync → result ≡ Answer.Served Served.Done
            → F.is_flushed self.new.store }
        ensures asked { IsAsked F.state F.made self.old.store cred.now request result
            self.new.store }
        ensures base { MovesBase (F.state self.old.store) (F.state self.new.store) }
        ensures since { self.new.since ≡ self.old.since }
        ensures since_level { self.new.since_level ≡ self.old.since_level }
        ensures limit { self.new.limit ≡ self.old.limit }
        ensures follows { Follows (F.state self.old.store) (F.state self.new.store) }
    {
        if self.journal.len() >= self.limit as usize {
            // Left to the return, it would be dropped variant by variant, which takes the prover long.
            drop(request);
            return Answer::Refused(Resource::JournalFull);
        }
        self.answer_and_enter(session, cred, request)
    }

    /// Makes a user's call for whose entry the journal has room. The proofs of `call`'s clauses are this one's.
    fn answer_and_enter(&mut self, session: u8, cred: &Cred, request: Request) -> Answer
        requires room { length self.old.journal < self.old.limit }
        requires few { length self.old.journal < 2 ^ 32 - 1 }
        ensures outcome { AtPresent F.state self.old
            (λ w. IsOutcome (F.state self.old.store) w cred.now request result) }
        ensures entered { self.new.journal ≡ self.old.journal
            ++ kept_entry session cred.now request result }
        ensures legal { Since (F.state self.new.since) self.new.since_level (λ from. IsJournal from
            (F.state self.new.store) self.new.level self.new.journal self.new.limit) }
        ensures entries { AtPresent F.state self.old (λ w. OnServed result (LeavesEntries request
            (F.state self.old.store).content (F.state self.new.store).content w.rows)) }
        ensures unserved { IsUnserved result
            → Stays (F.state self.old.store) (F.state self.new.store)
            self.old.level self.new.level }
        ensures looks { LooksOn request (F.state self.old.store) (F.state self.new.store) }
        ensures unasked { OnUnasked result (F.state self.new.store ≡ F.state self.old.store) }
        ensures synced { request ≡ Request.Sync → result ≡ Answer.Served Served.Done
            → F.is_flushed self.new.store }
        ensures asked { IsAsked F.state F.made self.old.store cred.now request result
            self.new.store }
        ensures base { MovesBase (F.state self.old.store) (F.state self.new.store) }
        ensures since { self.new.since ≡ self.old.since }
        ensures since_level { self.new.since_level ≡ self.old.since_level }
        ensures limit { self.new.limit ≡ self.old.limit }
        ensures follows { Follows (F.state self.old.store) (F.state self.new.store) }
    {
        let answers = answer_twice(&mut self.store, &mut self.level, cred, &request);
        let Some((answer, copy)) = answers else {
            drop(request);
            return Answer::Refused(Resource::NoMemory);
        };
        let event = Event::User(request, copy);
        enter(&mut self.journal, &mut self.counts, session, cred, event);
        answer
    }

    /// Makes calls one after another, each as `call` does, on the store that the one before it left. Room for the
    /// answers is asked for before the first.
    pub fn run(&mut self, calls: Vec<Call>) -> Result<Vec<Answer>, RunMemory>
        ensures each { IfOk result (λ answers. Since (F.state self.old.since) self.old.since_level
            (λ from. AreCallsAsked F.state F.is_flushed F.made self.old.limit from
            self.old.journal self.old.store calls.items answers.items self.new.store)) }
        ensures entered { IfOk result (λ answers. self.new.journal
            ≡ self.old.journal ++ kept calls.items answers.items) }
        ensures legal { Since (F.state self.new.since) self.new.since_level (λ from. IsJournal from
            (F.state self.new.store) self.new.level self.new.journal self.new.limit) }
        ensures refused { IfErr result (λ _. self.new ≡ self.old) }
        ensures since { self.new.since ≡ self.old.since }
        ensures since_level { self.new.since_level ≡ self.old.since_level }
        ensures limit { self.new.limit ≡ self.old.limit }
        ensures follows { Follows (F.state self.old.store) (F.state self.new.store) }
    {
        let Ok(mut answers) = Vec::with_capacity(*self.journal.allocator(), calls.len()) else {
            return Err(RunMemory);
        };
        for Call {
            session,
            cred,
            request,
        } in calls {
            let answer = self.call(session, &cred, request);
            push_within(&mut answers, answer);
        }
        Ok(answers)
    }

    /// Why a call would be allowed or denied now, on the tree that the journal leads to, without making it: nothing is
    /// entered. An error where memory runs out.
    pub fn explain(&mut self, cred: &Cred, request: &Request) -> Result<Explanation, AllocError>
        ensures checks { AtPresent F.state self.old (λ w. IfOk result (λ explanation.
            explanation.checks.items ≡ asked (rule_table w cred.now request.now))) }
        ensures first { AtPresent F.state self.old (λ w. IfOk result (λ explanation.
            IsTrail w.rows (first_names request.now) explanation.first)) }
        ensures second { AtPresent F.state self.old (λ w. IfOk result (λ explanation.
            IsTrail w.rows (second_names request.now) explanation.second)) }
        ensures state { F.state self.new.store ≡ F.state self.old.store }
        ensures level { self.new.level ≡ self.old.level }
        ensures journal { self.new.journal ≡ self.old.journal }
        ensures since { self.new.since ≡ self.old.since }
        ensures since_level { self.new.since_level ≡ self.old.since_level }
        ensures limit { self.new.limit ≡ self.old.limit }
    {
        let alloc = *self.journal.allocator();
        explain(alloc, &mut self.store, self.level, cred, request)
    }

    /// What a Read would be answered now, on the tree that the journal leads to, without making it: nothing is entered,
    /// and the store stays in its state.
    pub fn show(&mut self, cred: &Cred, path: &Path, off: u64, len: u32) -> Answer
        ensures outcome { AtPresent F.state self.old (λ w. IsOutcome (F.state self.old.store) w
            cred.now (Request.Read path.now off len) result) }
        ensures state { F.state self.new.store ≡ F.state self.old.store }
        ensures others { self.new ≡ record self.old { store = self.new.store } }
    {
        answered(read(&mut self.store, cred, path, off, len))
    }

    /// Whether the walk along a path is sure to end alike for every caller of a user, whatever his groups are, on the tree
    /// that the journal leads to.
    pub fn ends_alike(&self, uid: u32, path: &Path) -> bool
        ensures { result ≡ true
            → AtPresent F.state self.now (λ w. EndsAlike w.rows uid path.now) }
    {
        ends_alike(&self.store, uid, path.names())
    }

    /// The attributes that the store shows of a number, if it is in use; they are looked up among those that are known
    /// first.
    pub fn attrs(&self, number: u32) -> Option<Attrs>
        ensures attrs { result ≡ shown_attrs (F.state self.now.store).content number }
        ensures legal { Since (F.state self.now.since) self.now.since_level (λ from. IsJournal from
            (F.state self.now.store) self.now.level self.now.journal self.now.limit) }
    {
        self.store.attrs(number)
    }

    /// Hands out the entries, and goes on from the present tree with an empty journal, whose room is handed in. The
    /// entries are a legal run from where their journal began to where the next one begins. The counts begin anew.
    pub fn drain(&mut self, room: Vec<Entry>) -> Vec<Entry>
        requires empty { room.items ≡ [] }
        requires room { self.old.limit ≤ vec_capacity room }
        ensures handed { result.items ≡ self.old.journal }
        ensures legal { Since (F.state self.old.since) self.old.since_level (λ from. IsJournal from
            (F.state self.new.since) self.new.since_level result.items self.old.limit) }
        ensures begins { AtPresent F.state self.old
            (Begins (F.state self.new.since) self.new.since_level) }
        ensures drained { self.new ≡ record self.old
            { since = self.old.store; since_level = self.old.level; journal = [] } }
    {
        self.since = Snapshot::of(self.store.store());
        self.since_level = self.level;
        self.counts = Counts::none();
        std::mem::replace(&mut self.journal, room)
    }

    /// The journal may have so many entries from here on: no fewer than it has, and no more than it might have.
    pub fn limit_journal(&mut self, limit: u32)
        requires within { length self.old.journal ≤ limit }
        requires lower { limit ≤ self.old.limit }
        ensures { self.new ≡ record self.old { limit = limit } }
    {
        self.limit = limit;
    }

    /// Takes no more entries: the journal may have as many as it has, so that each call is refused `JournalFull` from
    /// here on and changes nothing.
    pub fn close_journal(&mut self)
        ensures { self.new ≡ record self.old { limit = length self.old.journal } }
    {
        self.limit = self.journal.len() as u32;
    }

    /// What was called and answered, in order, since the journal began.
    pub fn journal(&self) -> &[Entry]
        ensures entries { result.now ≡ self.now.journal }
        ensures within { length self.now.journal ≤ self.now.limit }
        ensures legal { Since (F.state self.now.since) self.now.since_level (λ from. IsJournal from
            (F.state self.now.store) self.now.level result.now self.now.limit) }
    {
        self.journal.as_slice()
    }

    /// How the calls of the journal were answered.
    pub fn counts(&self) -> &Counts
        ensures counted { result.now ≡ counts_of self.now.journal }
        ensures legal { Since (F.state self.now.since) self.now.since_level (λ from. IsJournal from
            (F.state self.now.store) self.now.level self.now.journal self.now.limit) }
    {
        &self.counts
    }

    /// How many entries the journal may have.
    pub fn journal_limit(&self) -> u32
        ensures { result ≡ self.now.limit }
    {
        self.limit
    }

    /// The securelevel.
    pub fn level(&self) -> Level
        ensures { result ≡ self.now.level }
    {
        self.level
    }

    /// The store, to be read.
    pub fn store(&self) -> &F
        ensures { result.now ≡ self.now.store }
    {
        self.store.store()
    }

    /// How many segments of the store are clean.
    pub fn clean_segments(&self) -> u32
        ensures { result ≡ (F.state self.now.store).clean }
    {
        self.store.clean_segments()
    }
}

impl<F: CleanedStore + Drop> Volume<F> {
    /// Makes a call of the cleaner, and enters it, with what it hands in and what came of it. It is denied to all but
    /// the superuser, and changes no file. Only a copy of the infos that it hands in, for the entry, and the bytes of
    /// the ifile may want memory; without it nothing is done.
    pub fn clean(&mut self, session: u8, cred: &Cred, call: CleanerCall) -> CleanerAnswer
        ensures full { (result ≡ CleanerAnswer.Refused Resource.JournalFull)
            ↔ (length self.old.journal ≡ self.old.limit) }
        ensures at_limit { length self.old.journal ≡ self.old.limit → self.new ≡ self.old }
        ensures shown { AtPresent F.state self.old (IsVolume (F.state self.old.store)) }
        ensures answered { length self.old.journal < self.old.limit → IsCleanerAnswer
            (cleaner_of F.state F.is_flushed F.made F.cleaner)
            self.old.store cred.now call result self.new.store }
        ensures entered { self.new.journal ≡ self.old.journal
            ++ kept_cleaning session cred.now call result }
        ensures legal { Since (F.state self.new.since) self.new.since_level (λ from. IsJournal from
            (F.state self.new.store) self.new.level self.new.journal self.new.limit) }
        ensures stays { Stays (F.state self.old.store) (F.state self.new.store)
            self.old.level self.new.level }
        ensures cleans { CleansOnly result (F.state self.old.store) (F.state self.new.store) }
        ensures base { MovesBase (F.state self.old.store) (F.state self.new.store) }
        ensures since { self.new.since ≡ self.old.since }
        ensures since_level { self.new.since_level ≡ self.old.since_level }
        ensures limit { self.new.limit ≡ self.old.limit }
    {
        if self.journal.len() == self.limit as usize {
            return CleanerAnswer::Refused(Resource::JournalFull);
        }
        let Ok(act) = CleanerAct::of(*self.journal.allocator(), &call) else {
            return CleanerAnswer::Refused(Resource::NoMemory);
        };
        let answer = cleaned(&mut self.store, cred, call);
        let Some(outcome) = outcome(&answer) else {
            return answer;
        };
        let cleaning = Event::Cleaner(act, outcome);
        enter(&mut self.journal, &mut self.counts, session, cred, cleaning);
        answer
    }

    /// Has a segment become clean, as `clean` does by a Segclean, and gives what the journal tells of its answer;
    /// `None` where the journal has no room, and then nothing is done. No list of infos is moved for it.
    pub fn reclaim(&mut self, session: u8, cred: &Cred, segment: u32) -> Option<CleanerOutcome>
        ensures full { (result ≡ None) ↔ (length self.old.journal ≡ self.old.limit) }
        ensures at_limit { length self.old.journal ≡ self.old.limit → self.new ≡ self.old }
        ensures shown { AtPresent F.state self.old (IsVolume (F.state self.old.store)) }
        ensures answered { length self.old.journal < self.old.limit → IsCleanerAnswer
            (cleaner_of F.state F.is_flushed F.made F.cleaner)
            self.old.store cred.now (CleanerCall.Segclean segment) (reclaim_answer result)
            self.new.store }
        ensures entered { self.new.journal ≡ self.old.journal
            ++ kept_cleaning session cred.now (CleanerCall.Segclean segment) (reclaim_answer result) }
        ensures legal { Since (F.state self.new.since) self.new.since_level (λ from. IsJournal from
            (F.state self.new.store) self.new.level self.new.journal self.new.limit) }
        ensures stays { Stays (F.state self.old.store) (F.state self.new.store)
            self.old.level self.new.level }
        ensures cleans { CleansOnly (reclaim_answer result) (F.state self.old.store)
            (F.state self.new.store) }
        ensures base { MovesBase (F.state self.old.store) (F.state self.new.store) }
        ensures since { self.new.since ≡ self.old.since }
        ensures since_level { self.new.since_level ≡ self.old.since_level }
        ensures limit { self.new.limit ≡ self.old.limit }
    {
        let is_full = self.journal.len() == self.limit as usize;
        if is_full {
            return None;
        }
        let outcome = reclaimed(&mut self.store, cred, segment);
        let reclaiming = Event::Cleaner(CleanerAct::Segclean(segment), outcome);
        enter(
            &mut self.journal,
            &mut self.counts,
            session,
            cred,
            reclaiming,
        );
        Some(outcome)
    }

    /// Makes steps one after another, each as `call` or `clean` does. Room for the answers is asked for before the
    /// first. Without the cleaner's steps the users' would have the same answers.
    pub fn run_steps(&mut self, steps: Vec<Step>) -> Result<Vec<StepAnswer>, RunMemory>
        ensures each { IfOk result (λ answers. Since (F.state self.old.since) self.old.since_level
            (λ from. AreSteps (cleaner_of F.state F.is_flushed F.made F.cleaner) self.old.limit from
            self.old.journal self.old.store steps.items answers.items self.new.store)) }
        ensures entered { IfOk result (λ answers. self.new.journal
            ≡ self.old.journal ++ kept_steps steps.items answers.items) }
        ensures legal { Since (F.state self.new.since) self.new.since_level (λ from. IsJournal from
            (F.state self.new.store) self.new.level self.new.journal self.new.limit) }
        ensures users_alone { IfOk result (λ answers. let shape = (F.state self.old.store).shape in
            Since (F.state self.old.since) self.old.since_level
            (λ from. AreLegalAlone shape (kept_steps steps.items answers.items)
            (world_after shape.numbers self.old.journal from)
            (world_after shape.numbers self.new.journal from))) }
        ensures refused { IfErr result (λ _. self.new ≡ self.old) }
        ensures since { self.new.since ≡ self.old.since }
        ensures since_level { self.new.since_level ≡ self.old.since_level }
        ensures limit { self.new.limit ≡ self.old.limit }
        ensures shape { (F.state self.new.store).shape ≡ (F.state self.old.store).shape }
    {
        let mut answers = match Vec::with_capacity(*self.journal.allocator(), steps.len()) {
            Ok(answers) => answers,
            Err(_) => return Err(RunMemory),
        };
        for step in steps {
            let answered = self.make(step);
            push_within(&mut answers, answered);
        }
        Ok(answers)
    }

    /// Makes one step, as `call` or `clean` does.
    fn make(&mut self, step: Step) -> StepAnswer
        ensures made { Since (F.state self.old.since) self.old.since_level (λ from. IsActMade
            (cleaner_of F.state F.is_flushed F.made F.cleaner)
            self.old.limit from self.old.journal self.old.store
            step.cred step.act result self.new.store) }
        ensures entered { self.new.journal ≡ self.old.journal ++ kept_step step result }
        ensures legal { Since (F.state self.new.since) self.new.since_level (λ from. IsJournal from
            (F.state self.new.store) self.new.level self.new.journal self.new.limit) }
        ensures since { self.new.since ≡ self.old.since }
        ensures since_level { self.new.since_level ≡ self.old.since_level }
        ensures limit { self.new.limit ≡ self.old.limit }
        ensures shape { (F.state self.new.store).shape ≡ (F.state self.old.store).shape }
    {
        let Step { session, cred, act } = step;
        match act {
            Act::User(request) => StepAnswer::User(self.call(session, &cred, request)),
            Act::Cleaner(call) => StepAnswer::Cleaner(self.clean(session, &cred, call)),
        }
    }
}

/// There was no memory for the answers of a run. Nothing was called.
#[derive(Clone, Copy, PartialEq, Eq, Debug, Error)]
#[error("no memory for the answers")]
pub struct RunMemory;

/// Enters an event of a session into a journal that has room for it, and counts it.
#[inline(always)]
fn enter(journal: &mut Vec<Entry>, counts: &mut Counts, session: u8, cred: &Cred, event: Event)
    requires room { vec_len journal.old < vec_capacity journal.old }
    requires few { length journal.old.items < 2 ^ 32 - 1 }
    requires counted { counts.old ≡ counts_of journal.old.items }
    ensures entered { journal.new.items
        ≡ journal.old.items ++ record { session = session; cred = cred.now; event = event } ∷ [] }
    ensures legal { StaysJournal journal.old.items journal.new.items cred.now event }
    ensures room { vec_capacity journal.old ≤ vec_capacity journal.new }
    ensures counted { counts.new ≡ counts_of journal.new.items }
{
    counts.add(&event);
    let entry = Entry {
        session,
        cred: *cred,
        event,
    };
    push_within(journal, entry);
}

/// Pushes an item onto a vector that has room for it.
fn push_within<T: Drop>(items: &mut Vec<T>, item: T)
    requires { vec_len items.old < vec_capacity items.old }
    ensures pushed { items.new.items ≡ items.old.items ++ item ∷ [] }
    ensures room { vec_capacity items.old ≤ vec_capacity items.new }
{
    match items.push(item) {
        Ok(()) => (),
        // Never: the journal has room, as is required.
        Err(_) => unreachable!(),
    }
}

/// Whether a call was refused for want of memory.
fn lacks_memory(answer: &Answer) -> bool
    ensures { result ≡ is_lack_of_memory answer.now }
{
    matches!(answer, Answer::Refused(Resource::NoMemory))
}

/// The answer to a call, which is done, and a copy of it; none where the call or the copy wants memory.
fn answer_twice<F: FileStore>(
    store: &mut CachedStore<F>,
    level: &mut Level,
    cred: &Cred,
    request: &Request,
) -> Option<(Answer, Answer)>
    requires { HasWorld (F.state store.old) }
    ensures answered { MatchOption result
        (IsAnswered (F.state store.old) (F.state store.new)
        level.old level.new cred.now request.now (Answer.Refused Resource.NoMemory))
        (λ both. (both.1 ≡ both.0) × (is_lack_of_memory both.0 ≡ false)
        × IsAnswered (F.state store.old) (F.state store.new)
        level.old level.new cred.now request.now both.0) }
    ensures synced { MatchOption result ⊤
        (λ both. request.now ≡ Request.Sync → both.0 ≡ Answer.Served Served.Done
        → F.is_flushed store.new) }
    ensures asked { MatchOption result
        (IsAsked F.state F.made store.old cred.now request.now
        (Answer.Refused Resource.NoMemory) store.new)
        (λ both. IsAsked F.state F.made store.old cred.now request.now both.0 store.new) }
    ensures base { MovesBase (F.state store.old) (F.state store.new) }
{
    let answer = answer(store, level, cred, request);
    if lacks_memory(&answer) {
        return None;
    }
    match answer.try_clone() {
        Ok(copy) => Some((answer, copy)),
        Err(AllocError) => None,
    }
}

/// The answer to a call by the rules, and its effect on the store and the securelevel.
fn answer<F: FileStore>(
    store: &mut CachedStore<F>,
    level: &mut Level,
    cred: &Cred,
    request: &Request,
) -> Answer
    requires { HasWorld (F.state store.old) }
    ensures answered { IsAnswered (F.state store.old) (F.state store.new)
        level.old level.new cred.now request.now result }
    ensures synced { request.now ≡ Request.Sync → result ≡ Answer.Served Served.Done
        → F.is_flushed store.new }
    ensures asked { IsAsked F.state F.made store.old cred.now request.now result store.new }
    ensures base { MovesBase (F.state store.old) (F.state store.new) }
{
    answered(serve(store, level, cred, request))
}
