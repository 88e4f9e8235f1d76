//! A trace checked entry by entry, over a plain store that each legal entry's call is made on.

ghost use Rattle.std.specs.Prelude.{◌≡◌, ◌↔◌, ◌<◌, Ok, Err, IfOk, IsErrOf, IsSome, IsTrue, IsFalse, MatchOption, MatchResult, None, ℕ, is_some, if◌then◌else◌};
ghost use Rattle.lfs_types.specs.Tree.{World, opening_world};
ghost use Rattle.lfs_types.specs.Ranges.{least_inodes, most_inodes};
ghost use Rattle.std.specs.FinMap as map;
ghost use Rattle.lfs_model.specs.Rules.{decide, first_failing, rule_table};
ghost use Rattle.lfs_model.specs.Steps.{AllUsed, LacksInodes};
ghost use Rattle.lfs_calls.specs.Volumes.{HasWorld, InWorld};
ghost use Rattle.lfs_explain.specs.Asked.{asked};
ghost use Rattle.lfs_explain.specs.Trails.{IsTrail, first_names, second_names};
ghost use Rattle.lfs_trace.specs.Alike.{TellsDifference};
ghost use Rattle.lfs_trace.specs.Checking.{IsChecked, IsLooking, IsPlain, IsRowAt, IsRuled, IsSameStanding, MayShow, StandsAt, numbers_of, plain_state, standing};
ghost use Rattle.lfs_types.specs.declared.attrs.Attrs.{Attrs};
ghost use Rattle.lfs_who.specs.Who.{IsWho};
ghost use Rattle.lfs_who.specs.WhoText.{IsWhoTold};

use crate::alike::difference;
use crate::answers::{may_be_refused, one_answer, wants_number};
use crate::cleaning::is_cleaning;
use crate::copying::copy_of;
use crate::fault::EntryFault;
use lfs_calls::cached_store::CachedStore;
use lfs_calls::call_fault::{CallFault, answered};
use lfs_calls::reading::stat;
use lfs_calls::serving::serve;
use lfs_explain::explain::{Explanation, explain};
use lfs_explain::trail::ShownRow;
use lfs_flatfiles::flat_files::FlatFiles;
use lfs_model::journal::{Entry, Event};
use lfs_types::answer::{Answer, Resource, Served};
use lfs_types::cred::Cred;
use lfs_types::fault::FormatFault;
use lfs_types::level::Level;
use lfs_types::path::Path;
use lfs_types::request::Request;
use lfs_types::rule::Denial;
use lfs_types::store::FileStore;
use lfs_who::act::Act;
use lfs_who::telling::tell_who;
use lfs_who::who::{Who, who_could};
use std::alloc::{AllocError, Global};
use std::marker::Model;

/// A checker of a trace: a plain store and a securelevel, which are those that the entries so far lead to from the tree
/// of a fresh volume. Its memory is that of the tree, however many entries it is shown.
#[derive(Drop)]
pub struct Checker {
    alloc: Global,
    store: CachedStore<FlatFiles>,
    level: Level,
    numbers: u32,
    segments: u32,
}

impl Model for Checker {
    ghost use Rattle.std.specs.Prelude.{◌≡◌, vec_len};
    ghost use Rattle.lfs_types.specs.Tree.{World};
    ghost use Rattle.lfs_trace.specs.Checking.{Standing, StandsAt};

    ghost Value = { Standing };

    ghost view = { λ c. record { store = c.store; level = c.level; segments = c.segments } };

    ghost invariant = { λ c. (c.numbers ≡ vec_len c.store.places) × (w : World)
        × StandsAt (record { store = c.store; level = c.level; segments = c.segments }) w };
}

impl Checker {
    /// A checker of the trace of a volume with so many inode numbers, 16 to 4,096, and segments. It stands at the tree
    /// of a fresh volume.
    pub fn new(alloc: Global, numbers: u32, segments: u32) -> Result<Checker, FormatFault>
        ensures opening { IfOk result (λ checker. StandsAt checker opening_world) }
        ensures numbers { IfOk result (λ checker. numbers_of checker ≡ numbers) }
        ensures segments { IfOk result (λ checker. checker.segments ≡ segments) }
        ensures too_few { IsErrOf result FormatFault.TooFew ↔ (numbers < least_inodes) }
        ensures too_many { IsErrOf result FormatFault.TooMany ↔ (most_inodes < numbers) }
    {
        let files = FlatFiles::new(alloc, numbers)?;
        let store = CachedStore::new(alloc, files)?;
        Ok(Checker {
            alloc,
            store,
            level: Level::Insecure,
            numbers,
            segments,
        })
    }

    /// A checker of the trace that a volume with so many inode numbers and segments goes on with, at this securelevel,
    /// from the tree that its store shows. It stands there, over a copy of what the store contains.
    pub fn over<F: FileStore>(
        alloc: Global,
        store: &mut F,
        level: Level,
        numbers: u32,
        segments: u32,
    ) -> Result<Checker, FormatFault>
        requires world { HasWorld (F.state store.old) }
        requires within { (n : ℕ) → IsSome (map.get (F.state store.old).content n) → n < numbers }
        ensures stands { IfOk result (λ checker. InWorld (F.state store.old) (λ w.
            w.level ≡ level → StandsAt checker w)) }
        ensures numbers { IfOk result (λ checker. numbers_of checker ≡ numbers) }
        ensures segments { IfOk result (λ checker. checker.segments ≡ segments) }
        ensures state { F.state store.new ≡ F.state store.old }
    {
        let files = copy_of(alloc, store, numbers)?;
        let cached = CachedStore::new(alloc, files)?;
        Ok(Checker {
            alloc,
            store: cached,
            level,
            numbers,
            segments,
        })
    }

    /// Checks the next entry, and goes on behind it if it is legal; else the checker stays where it stood.
    ///
    /// # Errors
    ///
    /// `Illegal` where the rules don't allow the entry; `Memory`.
    pub fn entry(&mut self, entry: &Entry) -> Result<(), EntryFault>
        ensures { IsChecked self.old self.new entry.now.cred entry.now.event result }
    {
        match &entry.event {
            Event::User(request, answer) => self.answer(entry, request, answer),
            Event::Cleaner(act, outcome) => {
                let (numbers, segments) = (self.numbers, self.segments);
                legal_if(is_cleaning(numbers, segments, &entry.cred, act.kind(), *outcome))
            }
        }
    }

    /// Checks an entry by what a user was answered.
    fn answer(
        &mut self,
        entry: &Entry,
        request: &Request,
        answer: &Answer,
    ) -> Result<(), EntryFault>
        requires { entry.now.event ≡ Event.User request.now answer.now }
        ensures { IsChecked self.old self.new
            entry.now.cred (Event.User request.now answer.now) result }
    {
        match answer {
            Answer::Served(shown) => self.served(entry, request, shown),
            Answer::Denied(denial) => self.denied(&entry.cred, request, *denial),
            Answer::Refused(resource) => self.refused(&entry.cred, request, *resource),
        }
    }

    /// Checks the entry of a call that was served, and showed this, by making it.
    fn served(&mut self, entry: &Entry, request: &Request, shown: &Served) -> Result<(), EntryFault>
        requires { entry.now.event ≡ Event.User request.now (Answer.Served shown.now) }
        ensures { IsChecked self.old self.new
            entry.now.cred (Event.User request.now (Answer.Served shown.now)) result }
    {
        if !may_show(request, shown) {
            return Err(EntryFault::Illegal);
        }
        make(&mut self.store, &mut self.level, entry, request)
    }

    /// Checks that a call was denied so.
    fn denied(&mut self, cred: &Cred, request: &Request, denial: Denial) -> Result<(), EntryFault>
        ensures { IsChecked self.old self.new
            cred.now (Event.User request.now (Answer.Denied denial)) result }
    {
        let explanation = self.explain(cred, request)?;
        legal_if(explanation.verdict() == Some(denial))
    }

    /// Checks that a resource was wanting to a call.
    fn refused(
        &mut self,
        cred: &Cred,
        request: &Request,
        resource: Resource,
    ) -> Result<(), EntryFault>
        ensures { IsChecked self.old self.new
            cred.now (Event.User request.now (Answer.Refused resource)) result }
    {
        is_plain(&self.store);
        let is_number_left = is_number_left(&self.store);
        let is_allowed = self.explain(cred, request)?.verdict().is_none();
        legal_if(may_be_refused(request, is_allowed, is_number_left, resource))
    }

    /// Why a call would be allowed or denied where the checker stands, without making it.
    pub fn explain(&mut self, cred: &Cred, request: &Request) -> Result<Explanation, AllocError>
        ensures checks { IfOk result (λ explanation. (w : World) → StandsAt self.old w
            → explanation.checks.items ≡ asked (rule_table w cred.now request.now)) }
        ensures verdict { IfOk result (λ explanation. (w : World) → StandsAt self.old w
            → first_failing explanation.checks.items ≡ decide w cred.now request.now) }
        ensures first { IfOk result (λ explanation. (w : World) → StandsAt self.old w
            → IsTrail w.rows (first_names request.now) explanation.first) }
        ensures second { IfOk result (λ explanation. (w : World) → StandsAt self.old w
            → IsTrail w.rows (second_names request.now) explanation.second) }
        ensures same { IsSameStanding self.old self.new }
    {
        explain(self.alloc, &mut self.store, self.level, cred, request)
    }

    /// What the rules answer to a call where the checker stands, without making it.
    pub fn ruled(&mut self, cred: &Cred, request: &Request) -> Result<Answer, AllocError>
        ensures ruled { IfOk result (λ answer. (w : World) → StandsAt self.old w
            → IsRuled (numbers_of self.old) w cred.now request.now answer) }
        ensures same { IsSameStanding self.old self.new }
    {
        match self.explain(cred, request)?.verdict() {
            Some(denial) => Ok(Answer::Denied(denial)),
            None => self.allowed(cred, request),
        }
    }

    /// What the rules answer to a call that they allow.
    fn allowed(&mut self, cred: &Cred, request: &Request) -> Result<Answer, AllocError>
        requires { (w : World) → StandsAt self.old w → decide w cred.now request.now ≡ None }
        ensures ruled { IfOk result (λ answer. (w : World) → StandsAt self.old w
            → IsRuled (numbers_of self.old) w cred.now request.now answer) }
        ensures same { IsSameStanding self.old self.new }
    {
        if lacks_number(request, &self.store) {
            return Ok(Answer::Refused(Resource::NoInodes));
        }
        if is_looking(request) {
            return self.looked(cred, request);
        }
        Ok(Answer::Served(Served::Done))
    }

    /// The answer to a call that only looks.
    fn looked(&mut self, cred: &Cred, request: &Request) -> Result<Answer, AllocError>
        requires { IsLooking request.now }
        ensures ruled { IfOk result (λ answer. (w : World) → StandsAt self.old w
            → IsRuled (numbers_of self.old) w cred.now request.now answer) }
        ensures same { IsSameStanding self.old self.new }
    {
        is_plain(&self.store);
        // A call that looks sets none.
        let mut level = self.level;
        enough(answered(serve(&mut self.store, &mut level, cred, request)))
    }

    /// What a path leads to where the checker stands, whoever may search it.
    pub fn row(&mut self, path: &Path) -> Option<ShownRow>
        ensures row { (w : World) → StandsAt self.old w → IsRowAt w path.now result }
        ensures same { IsSameStanding self.old self.new }
    {
        let Ok(superuser) = Cred::new(0, &[0], false) else {
            // Never: one group is no more than 16.
            unreachable!()
        };
        row_of(&stat(&mut self.store, &superuser, path))
    }

    /// Who could act by a path where the checker stands, over all callers.
    pub fn who(&mut self, act: Act, path: &Path) -> Result<Who, AllocError>
        ensures who { IfOk result (λ who. (w : World) → StandsAt self.old w
            → IsWho w act path.now who) }
        ensures same { IsSameStanding self.old self.new }
    {
        who_could(self.alloc, &mut self.store, self.level, act, path)
    }

    /// Who could make a call where the checker stands, over all callers, as lines of text.
    pub fn tell_who(&mut self, request: &Request) -> Result<Vec<u8>, AllocError>
        ensures told { IfOk result (λ text. (w : World) → StandsAt self.old w
            → IsWhoTold w request.now text.items) }
        ensures same { IsSameStanding self.old self.new }
    {
        tell_who(self.alloc, &mut self.store, self.level, request)
    }

    /// A number at which the tree where the checker stands differs from the one that a store shows, or none where they
    /// are the same. It is looked for from a number on, round once.
    pub fn difference<F: FileStore>(
        &mut self,
        store: &mut F,
        from: u32,
    ) -> Result<Option<u32>, AllocError>
        requires world { HasWorld (F.state store.old) }
        requires within { (n : ℕ) → IsSome (map.get (F.state store.old).content n)
            → n < numbers_of self.old }
        ensures tells { IfOk result (TellsDifference self.old (F.state store.old)) }
        ensures same { IsSameStanding self.old self.new }
        ensures state { F.state store.new ≡ F.state store.old }
    {
        is_plain(&self.store);
        difference(self.alloc, &mut self.store, store, self.numbers, from)
    }

    /// Whether a number has a file where the checker stands.
    pub fn is_used(&self, number: u32) -> bool
        ensures { (w : World) → StandsAt self.now w → result ≡ is_some (map.get w.rows number) }
    {
        self.store.attrs(number).is_some()
    }
}

/// The row that a Stat tells.
fn row_of(stat: &Result<Served, CallFault>) -> Option<ShownRow>
    ensures { MatchOption result
        ((number : ℕ) (attrs : Attrs) → ¬ (stat.now ≡ Ok (Served.Stat number attrs)))
        (λ row. stat.now ≡ Ok (Served.Stat row.number row.attrs)) }
{
    match stat {
        Ok(Served::Stat(number, attrs)) => Some(ShownRow {
            number: *number,
            attrs: *attrs,
        }),
        _ => None,
    }
}

/// Nothing is said against what is legal.
pub(crate) fn legal_if(is_legal: bool) -> Result<(), EntryFault>
    ensures { result ≡ if is_legal then Ok tt else Err EntryFault.Illegal }
{
    if is_legal {
        Ok(())
    } else {
        Err(EntryFault::Illegal)
    }
}

/// Makes the call of an entry on a store at a securelevel, and sets that where the call does, if it is served and shows
/// what the entry tells. Else the store shows what it showed.
fn make(
    store: &mut CachedStore<FlatFiles>,
    level: &mut Level,
    entry: &Entry,
    request: &Request,
) -> Result<(), EntryFault>
    requires world { HasWorld (plain_state store.old) }
    ensures { (segments : ℕ) (shown : Served) → MayShow request.now shown
        → entry.now.event ≡ Event.User request.now (Answer.Served shown)
        → IsChecked (standing store.old level.old segments) (standing store.new level.new segments)
        entry.now.cred (Event.User request.now (Answer.Served shown)) result }
{
    is_plain(store);
    one_answer();
    let mut left = *level;
    let made = answered(serve(store, &mut left, &entry.cred, request));
    match legal_as(entry, request, &made) {
        Ok(()) => {
            *level = left;
            Ok(())
        }
        Err(fault) => Err(fault),
    }
}

/// Whether the answer that the rules gave to the call of an entry is the one that the entry tells, which is that the
/// call is served; nothing is said where memory was wanting.
fn legal_as(entry: &Entry, request: &Request, made: &Answer) -> Result<(), EntryFault>
    ensures { (shown : Served) → entry.now.event ≡ Event.User request.now (Answer.Served shown)
        → MatchResult result
        (λ _. made.now ≡ Answer.Served shown)
        (λ fault. (¬ (made.now ≡ Answer.Served shown))
        × (fault ≡ EntryFault.Illegal → ¬ (made.now ≡ Answer.Refused Resource.NoMemory))) }
{
    if entry.is_call(entry.session, &entry.cred, request, made) {
        return Ok(());
    }
    match made {
        Answer::Refused(Resource::NoMemory) => Err(EntryFault::Memory),
        _ => Err(EntryFault::Illegal),
    }
}

/// An answer, or an error where it tells of want of memory.
fn enough(answer: Answer) -> Result<Answer, AllocError>
    ensures { IfOk result (λ same. (same ≡ answer) × ¬ (same ≡ Answer.Refused Resource.NoMemory)) }
{
    match answer {
        Answer::Refused(Resource::NoMemory) => Err(AllocError),
        answer => Ok(answer),
    }
}

/// Whether a call may show this at all.
fn may_show(request: &Request, shown: &Served) -> bool
    ensures { IsTrue result ↔ MayShow request.now shown.now }
{
    is_looking(request) || matches!(shown, Served::Done)
}

/// Whether a call only looks.
fn is_looking(request: &Request) -> bool
    ensures { IsTrue result ↔ IsLooking request.now }
{
    matches!(
        request,
        Request::Stat { .. } | Request::Read { .. } | Request::List { .. }
    )
}

/// Whether a call wants an inode number, and none is left.
fn lacks_number(request: &Request, store: &CachedStore<FlatFiles>) -> bool
    ensures { InWorld (plain_state store.now) (λ w. IsTrue result
        ↔ LacksInodes (plain_state store.now).shape.numbers w request.now) }
{
    wants_number(request) && !is_number_left(store)
}

/// Whether an inode number is left.
fn is_number_left(store: &CachedStore<FlatFiles>) -> bool
    ensures left { InWorld (plain_state store.now) (λ w. IsTrue result
        → ¬ (AllUsed (plain_state store.now).shape.numbers w.rows)) }
    ensures none { InWorld (plain_state store.now) (λ w. IsFalse result
        → AllUsed (plain_state store.now).shape.numbers w.rows) }
{
    store.store().least_free().is_some()
}

/// A plain store has few numbers and much room.
fn is_plain(store: &CachedStore<FlatFiles>)
    ensures { IsPlain (plain_state store.now) }
{
    // Its type keeps what is said of it.
    let _store = store;
}
