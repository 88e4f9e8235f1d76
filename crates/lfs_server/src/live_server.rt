//! The server as its sessions find it: a volume behind its lock, and the transcripts of the sessions that have begun.

ghost use Rattle.std.specs.Prelude.{◌≡◌, ◌≤◌, ◌+◌, [], IfOk, IfSome};
ghost use Rattle.lfs_server.specs.Telling.{Adds, HasRoom};
ghost use Rattle.lfs_types.specs.declared.answer.Answer.{Answer};

use crate::doorbell::Button;
use crate::gate::{Gate, Turns};
use crate::kept::{Kept, Sizes};
use crate::live::{BeginFault, Live};
use crate::run::Run;
use lfs_settle::transcripts::Transcript;
use lfs_types::cleaned::CleanedStore;
use lfs_types::cred::Cred;
use lfs_types::request::Request;
use lfs_types::store::FileStore;
use std::alloc::{AllocError, Global};
use std::sync::{Mutex, Wait};

/// The greatest number of a session.
const LAST_SESSION: u8 = 254;

/// The transcripts of the sessions that have begun, session 1's first: empty while a session runs.
#[derive(Drop)]
pub struct Told {
    transcripts: Vec<Transcript>,
}

impl Told {
    /// No session has begun.
    pub fn none(alloc: Global) -> Told {
        Told {
            transcripts: Vec::new(alloc),
        }
    }

    /// Begins a session: an empty transcript with a number of its own. A second one stands here in its place.
    fn begin(&mut self, alloc: Global) -> Result<Transcript, BeginFault>
        ensures { IfOk result (λ t. (1 ≤ t.session) × (t.session ≤ 254)
            × (t.calls.items ≡ []) × (t.answers.items ≡ [])) }
    {
        let session = next_session(self.transcripts.len())?;
        self.transcripts.push(empty(alloc, session))?;
        Ok(empty(alloc, session))
    }

    /// Puts the transcript of a session into its place.
    fn end(&mut self, transcript: Transcript) {
        let place = usize::from(transcript.session).saturating_sub(1);
        if let Some(slot) = self.transcripts.as_mut_slice().get_mut(place) {
            *slot = transcript;
        }
    }

    /// The transcripts.
    pub fn into_transcripts(self) -> Vec<Transcript>
        ensures { result ≡ self.transcripts }
    {
        self.transcripts
    }
}

/// The number of the session behind so many, if there is one.
fn next_session(begun: usize) -> Result<u8, BeginFault>
    ensures { IfOk result (λ session. (session ≡ begun + 1) × (session ≤ 254)) }
{
    match u8::try_from(begun) {
        Ok(last) if last < LAST_SESSION => Ok(last + 1),
        _ => Err(BeginFault::UsedUp),
    }
}

/// An empty transcript of a session.
fn empty(alloc: Global, session: u8) -> Transcript
    ensures session { result.session ≡ session }
    ensures calls { result.calls.items ≡ [] }
    ensures answers { result.answers.items ≡ [] }
{
    Transcript {
        session,
        calls: Vec::new(alloc),
        answers: Vec::new(alloc),
    }
}

/// A server over a volume of these sizes.
#[derive(Drop)]
pub struct Server<'s, S: Sizes<F>, R, F: FileStore + Drop, G> {
    /// What its threads share beside the volume.
    pub run: &'s Run<'s, R, G>,
    /// The volume.
    pub volume: &'s Mutex<Kept<S, F>>,
    /// The sessions that have begun.
    pub told: &'s Mutex<Told>,
    /// With which it calls the cleaner.
    pub button: Button,
}

impl<'s, S: Sizes<F>, R, F: FileStore + Drop, G> Server<'s, S, R, F, G> {
    /// Another server over the same volume, with a button of its own.
    pub(crate) fn try_clone(&self) -> Result<Server<'s, S, R, F, G>, AllocError> {
        Ok(Server {
            run: self.run,
            volume: self.volume,
            told: self.told,
            button: self.button.try_clone()?,
        })
    }
}

impl<'s, S: Sizes<F>, R: Wait, F: CleanedStore + Drop, G: Gate> Live for Server<'s, S, R, F, G> {
    fn begin(&self) -> Result<Transcript, BeginFault> {
        self.told.lock(self.run.rt).begin(self.run.alloc)
    }

    fn call(
        &self,
        turns: &mut Turns,
        transcript: &mut Transcript,
        call: (Cred, Request),
        copy: Request,
    ) {
        let (session, index) = turns.next();
        self.run.gate.before(session, index);
        let wants_cleaner = self.volume.lock(self.run.rt).tell(transcript, call, copy);
        self.run.gate.after(session, index);
        turns.step();
        if wants_cleaner {
            self.button.ring(self.run.rt);
        }
    }

    fn end(&self, transcript: Transcript) {
        self.told.lock(self.run.rt).end(transcript);
    }
}
