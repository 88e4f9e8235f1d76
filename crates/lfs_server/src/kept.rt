//! The volume as it stands behind the lock: its type keeps what no call changes.

ghost use Rattle.std.specs.Prelude.{◌≡◌, ◌↔◌, ◌<◌, ◌≤◌, ◌++◌, ◌⊎◌, IsTrue, OnOk, length};
ghost use Rattle.lfs_model.specs.Runs.{kept_cleaning, kept_entry};
ghost use Rattle.lfs_calls.specs.Outcomes.{IsOutcome};
ghost use Rattle.lfs_volume.specs.Cleanings.{IsCleanerAnswer, cleaner_of};
ghost use Rattle.lfs_volume.specs.Journals.{AtPresent};
ghost use Rattle.lfs_server.specs.Serving.{superuser};
ghost use Rattle.lfs_server.specs.Telling.{AreMade, HasRoom, IsTold};

use crate::batch::Batch;
use crate::gate::Gate;
use crate::run::Run;
use crate::telling::keep;
use lfs_cleaner::wanting::{is_wanted, superuser};
use lfs_model::journal::CleanerAnswer;
use lfs_settle::entries::CLEANER;
use lfs_settle::transcripts::Transcript;
use lfs_types::answer::{Answer, Resource};
use lfs_types::cleaned::CleanedStore;
use lfs_types::cleaner::CleanerCall;
use lfs_types::cred::Cred;
use lfs_types::request::Request;
use lfs_types::store::FileStore;
use lfs_volume::volume::Volume;
use std::alloc::AllocError;
use std::marker::{Brand, Model, PhantomData};

/// What no call changes of a volume over a store of type `F`, as a type.
pub trait Sizes<F> {
    ghost use Rattle.std.specs.Prelude.{ℕ};
    ghost use Rattle.lfs_types.specs.StoreStates.{Shape};
    ghost use Rattle.lfs_types.specs.declared.level.Level.{Level};

    /// How many inode numbers and segments its store has, and whether changes of it take memory.
    ghost shape: { Shape };
    /// How many entries its journal may have.
    ghost limit: { ℕ };
    /// Holds of its store as that was when its journal began.
    ghost since: { F → Type 0 };
    /// The securelevel when its journal began.
    ghost since_level: { Level };
}

impl<F> Sizes<F> for Brand {
    ghost use Rattle.std.specs.Prelude.{false};
    ghost use Rattle.lfs_types.specs.declared.level.Level.TheVariants.{Insecure};

    ghost shape = { record { numbers = 0; segments = 0; can_lack_memory = false; has_share = false } };

    ghost limit = { 0 };

    ghost since = { λ store. Unit {0} };

    ghost since_level = { Insecure };
}

/// A volume of these sizes. Contracts see the volume alone.
#[derive(Drop)]
pub struct Kept<S: Sizes<F>, F: FileStore + Drop> {
    volume: Volume<F>,
    sizes: PhantomData<S>,
}

impl<S: Sizes<F>, F: FileStore + Drop> Model for Kept<S, F> {
    ghost use Rattle.std.specs.Prelude.{◌≡◌};
    ghost use Rattle.lfs_volume.specs.Seen.{Seen};

    ghost Value = { Seen F };

    ghost view = { λ k. k.volume };

    ghost invariant = { λ k. ((F.state k.volume.store).shape ≡ S.shape) × (k.volume.limit ≡ S.limit)
        × S.since k.volume.since × (k.volume.since_level ≡ S.since_level) };
}

impl<S: Sizes<F>, F: FileStore + Drop> Kept<S, F> {
    /// This volume.
    pub fn new(volume: Volume<F>) -> Kept<S, F>
        requires shaped { (F.state volume.store).shape ≡ S.shape }
        requires limited { volume.limit ≡ S.limit }
        requires begun { S.since volume.since }
        requires begun_level { volume.since_level ≡ S.since_level }
        ensures { result ≡ volume }
    {
        let sizes = PhantomData;
        Kept { volume, sizes }
    }

    /// The volume.
    pub fn into_volume(self) -> Volume<F>
        ensures volume { result ≡ self }
        ensures shaped { (F.state result.store).shape ≡ S.shape }
        ensures limited { result.limit ≡ S.limit }
        ensures begun { S.since result.since }
        ensures begun_level { result.since_level ≡ S.since_level }
    {
        let Kept { volume, sizes: _ } = self;
        volume
    }

    /// Makes a user's call, and says whether the cleaner is wanted after it: it was refused for want of space, or it
    /// lowered the clean segments to three or fewer.
    pub fn call(&mut self, session: u8, cred: &Cred, request: Request) -> (Answer, bool)
        ensures full { (result.0 ≡ Answer.Refused Resource.JournalFull)
            ↔ (length self.old.journal ≡ self.old.limit) }
        ensures outcome { length self.old.journal < self.old.limit → AtPresent F.state self.old
            (λ w. IsOutcome (F.state self.old.store) w cred.now request result.0) }
        ensures entered { self.new.journal ≡ self.old.journal
            ++ kept_entry session cred.now request result.0 }
        ensures wanted { IsTrue result.1 ↔ ((result.0 ≡ Answer.Refused Resource.NoSpace)
            ⊎ (((F.state self.new.store).clean < (F.state self.old.store).clean)
            × ((F.state self.new.store).clean ≤ 3))) }
    {
        let before = self.volume.clean_segments();
        let answer = self.volume.call(session, cred, request);
        let wants_cleaner = is_wanted(&answer, before, self.volume.clean_segments());
        (answer, wants_cleaner)
    }

    /// Makes the next calls of a session, in order: one at least, if there is one, and no other behind one that wants
    /// the cleaner, or that is not to be followed in this holding of the lock. Says whether the cleaner is wanted.
    ///
    /// # Errors
    ///
    /// Where an answer finds no memory.
    pub fn call_each<R, G: Gate>(
        &mut self,
        run: &Run<'_, R, G>,
        batch: &mut Batch,
    ) -> Result<bool, AllocError>
        ensures made { OnOk result
            (AreMade self.old.journal self.new.journal batch.old batch.new) }
        ensures some { OnOk result (0 < length batch.old.calls.items
            → length batch.new.calls.items < length batch.old.calls.items) }
    {
        while let Some((cred, request)) = batch.calls.pop_front() {
            let (session, _) = batch.turns.next();
            let (answer, wants_cleaner) = self.call(session, &cred, request);
            batch.answers.push(answer)?;
            if wants_cleaner || !batch.goes_on(run) {
                return Ok(wants_cleaner);
            }
        }
        Ok(false)
    }

    /// Makes the next call of a session, of a copy of what it asks, and keeps it with its answer in the session's
    /// transcript, which has room for both. Says whether the cleaner is wanted after it.
    pub fn tell(
        &mut self,
        transcript: &mut Transcript,
        call: (Cred, Request),
        copy: Request,
    ) -> bool
        requires copy { copy ≡ call.1 }
        requires room { HasRoom transcript.old }
        ensures told { IsTold self.old.journal self.new.journal call transcript.old transcript.new }
    {
        let (answer, wants_cleaner) = self.call(transcript.session, &call.0, copy);
        keep(transcript, call, answer);
        wants_cleaner
    }
}

impl<S: Sizes<F>, F: CleanedStore + Drop> Kept<S, F> {
    /// Makes a call of the cleaner, in its session and as user 0 with group 0 alone.
    pub fn clean(&mut self, call: CleanerCall) -> CleanerAnswer
        ensures full { (result ≡ CleanerAnswer.Refused Resource.JournalFull)
            ↔ (length self.old.journal ≡ self.old.limit) }
        ensures answered { length self.old.journal < self.old.limit → IsCleanerAnswer
            (cleaner_of F.state F.is_flushed F.made F.cleaner)
            self.old.store superuser call result self.new.store }
        ensures entered { self.new.journal ≡ self.old.journal
            ++ kept_cleaning 255 superuser call result }
    {
        self.volume.clean(CLEANER, &superuser(), call)
    }
}
