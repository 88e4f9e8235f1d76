//! A server whose sessions come and go while it runs; what they leave is settled.

ghost use Rattle.std.specs.Prelude.{◌≡◌, ◌≤◌, [], IfErr, IfOk};
ghost use Rattle.lfs_settle.specs.Settled.{Differs, IsInterleavingOf};
ghost use Rattle.lfs_volume.specs.Journals.{IsJournal, Since};
ghost use Rattle.lfs_server.specs.Serving.{IsRunFault};
ghost use Rattle.lfs_server.specs.Telling.{Adds, HasRoom};
ghost use Rattle.lfs_server.specs.Unserved.{NamesUnsettled, OnLeft, fault_of};
ghost use Rattle.lfs_types.specs.declared.answer.Answer.{Answer};

use crate::gate::{Gate, Turns};
use crate::run::Run;
use crate::running::serve_kept;
use crate::unserved::Unserved;
use lfs_settle::transcripts::Transcript;
use lfs_types::cleaned::CleanedStore;
use lfs_types::cred::Cred;
use lfs_types::request::Request;
use lfs_types::store::FileStore;
use lfs_volume::volume::Volume;
use std::alloc::{AllocFailed, Global};
use std::marker::Brand;
use std::sync::Wait;
use std::sync::atomic::AtomicBool;
use std::thread::Threads;
use thiserror::Error;

/// Why a session does not begin.
#[derive(Clone, Copy, PartialEq, Eq, Debug, Error)]
pub enum BeginFault {
    /// All numbers of sessions are used up: 254 have begun.
    #[error("no session is left")]
    UsedUp,
    /// A growth was refused.
    #[error("no memory")]
    Memory,
}

impl<T: Drop> From<AllocFailed<T>> for BeginFault {
    ghost use Rattle.std.specs.Prelude.{◌≡◌};
    ghost use Rattle.lfs_server.specs.declared.live.BeginFault.TheVariants.{Memory};

    ghost from_gives = { λ _ fault. fault ≡ Memory };

    fn from(_refused: AllocFailed<T>) -> BeginFault {
        BeginFault::Memory
    }
}

/// A server that runs, as its clients find it. `Session` calls these, and clients call `Session`. No
/// clause says what another thread's call did before or behind: that the journal stays legal is kept by the type behind
/// the lock, and that it has what the sessions were answered is settled when the server stops.
pub trait Live {
    /// Begins a session: an empty transcript with a number of its own, 1 to 254.
    fn begin(&self) -> Result<Transcript, BeginFault>
        ensures { IfOk result (λ t. (1 ≤ t.session) × (t.session ≤ 254)
            × (t.calls.items ≡ []) × (t.answers.items ≡ [])) };

    /// Makes the next call of a session, of a copy of what it asks, as one holding of the lock on the volume, and keeps
    /// it with its answer in the session's transcript.
    fn call(
        &self,
        turns: &mut Turns,
        transcript: &mut Transcript,
        call: (Cred, Request),
        copy: Request,
    )
        requires copy { copy ≡ call.1 }
        requires room { HasRoom transcript.old }
        ensures { (answer : Answer) × Adds call answer transcript.old transcript.new };

    /// Ends a session.
    fn end(&self, transcript: Transcript);
}

/// One who uses a server while it runs, on a thread of its own.
pub trait Client {
    /// Begins sessions, makes calls and ends them. A session that has made a call and isn't
    /// ended is not settled.
    fn run<L: Live + Sync>(self, server: &L);
}

/// What a server leaves.
#[derive(Drop)]
pub struct Stopped<F: FileStore + Drop> {
    /// The volume.
    pub volume: Volume<F>,
    /// What each session asked and was answered, session 1's first.
    pub transcripts: Vec<Transcript>,
}

/// Lets clients use a server over a volume with an empty journal, each on a thread of its own, with the cleaner beside
/// them on one more, as session 255 and user 0, and hands out what they leave once all threads have ended. A call is
/// one holding of the lock on the volume; for nothing else a session waits for another.
///
/// # Errors
///
/// `Memory` and `Thread` come only after all threads have ended, of which some may have made calls; `Unsettled` names a
/// session whose calls and answers are not those of the journal, as of one that wasn't ended, beside what was left.
pub fn serve_clients<R, F, C, G>(
    rt: &R,
    alloc: Global,
    volume: Volume<F>,
    clients: Vec<C>,
    gate: &G,
) -> Result<Stopped<F>, Unserved<Stopped<F>>>
where
    R: Threads + Wait + Sync,
    F: CleanedStore + Send + Drop,
    C: Client + Send + Drop,
    G: Gate,
    requires { volume.journal ≡ [] }
    ensures settled { IfOk result (λ stopped. IsInterleavingOf
        stopped.volume.journal stopped.volume.limit stopped.transcripts.items) }
    ensures unsettled { IfErr result (NamesUnsettled (λ session stopped. Differs
        stopped.volume.journal stopped.volume.limit stopped.transcripts.items session)) }
    ensures limit { OnLeft result (λ stopped. stopped.volume.limit ≡ volume.limit) }
    ensures shape { OnLeft result (λ stopped.
        (F.state stopped.volume.store).shape ≡ (F.state volume.store).shape) }
    ensures since { OnLeft result (λ stopped. stopped.volume.since ≡ volume.since) }
    ensures since_level { OnLeft result (λ stopped.
        stopped.volume.since_level ≡ volume.since_level) }
    ensures legal { OnLeft result (λ stopped.
        Since (F.state stopped.volume.since) stopped.volume.since_level (λ from. IsJournal from
        (F.state stopped.volume.store) stopped.volume.level
        stopped.volume.journal stopped.volume.limit)) }
    ensures fault { IfErr result (λ unserved. IsRunFault (fault_of unserved)) }
{
    let is_awaited = AtomicBool::new(false);
    let run = Run {
        rt,
        alloc,
        gate,
        is_awaited: &is_awaited,
    };
    serve_kept::<Brand, R, F, C, G>(&run, volume, clients)
}
