//! A run: the setup, then sessions on threads and the cleaner beside them, over one volume; settled before it is handed
//! out.

ghost use Rattle.std.specs.Prelude.{◌≡◌, ◌⊎◌, ◌<◌, ◌≤◌, ◌+◌, IfErr, IfOk, OnOk, vec_len, length};
ghost use Rattle.lfs_settle.specs.Interleaving.{IsInterleaving, IsLowestToDiffer, run_of};
ghost use Rattle.lfs_volume.specs.Journals.{IsJournal, Since};
ghost use Rattle.lfs_server.specs.Serving.{IsFaultOf, IsRunFault, IsThreadFault};
ghost use Rattle.lfs_server.specs.Unserved.{NamesUnsettled, OnLeft, fault_of};
ghost use Rattle.lfs_server.specs.declared.serving.ServeFault.TheVariants.{Memory, Sessions};

use crate::cleaner::run_cleaner;
use crate::doorbell::{Button, Rings, doorbell};
use crate::gate::{Gate, Turns};
use crate::kept::{Kept, Sizes};
use crate::run::Run;
use crate::session::{Session, run_session};
use crate::settle::{Unsettled, settle};
use crate::unserved::Unserved;
use lfs_types::answer::Answer;
use lfs_types::cleaned::CleanedStore;
use lfs_types::fault::FormatFault;
use lfs_types::script::Script;
use lfs_types::store::FileStore;
use lfs_volume::volume::Volume;
use std::alloc::{AllocError, AllocFailed, Global};
use std::marker::Brand;
use std::sync::atomic::AtomicBool;
use std::sync::{Mutex, Wait};
use std::thread;
use std::thread::{JoinHandle, Scope, Threads};
use thiserror::Error;

/// The greatest number of sessions.
pub(crate) const MOST_SESSIONS: usize = 8;

/// The thread of a session, which gives its answers; `None` where it could not be started.
type SessionThread = Option<JoinHandle<Result<Vec<Answer>, AllocError>>>;

/// What a run leaves: the volume, and the answers in script order.
#[derive(Drop)]
pub struct Closed<F: FileStore + Drop> {
    /// The volume.
    pub volume: Volume<F>,
    /// The answers to the setup.
    pub setup: Vec<Answer>,
    /// The answers to each session's script, session 1's first.
    pub transcripts: Vec<Vec<Answer>>,
}

/// Why a run was not made, or is not handed out.
#[derive(Clone, Copy, PartialEq, Eq, Debug, Error)]
pub enum ServeFault {
    /// There are no sessions, or more than eight.
    #[error("serve Sessions")]
    Sessions,
    /// The volume could not be made.
    #[error("format {0}")]
    Format(FormatFault),
    /// A growth was refused.
    #[error("no memory")]
    Memory,
    /// The journal is not as this session was answered: 0 is the setup; 255 says that an entry is of no session.
    #[error("serve Unsettled")]
    Unsettled(u8),
    /// A thread could not be started.
    #[error("serve Thread")]
    Thread,
}

impl<T: Drop> From<AllocFailed<T>> for ServeFault {
    ghost from_gives = { λ _ fault. fault ≡ Memory };

    fn from(_error: AllocFailed<T>) -> ServeFault {
        ServeFault::Memory
    }
}

impl From<FormatFault> for ServeFault {
    ghost use Rattle.lfs_server.specs.Serving.{served_fault};

    ghost from_gives = { λ fault served. served ≡ served_fault fault };

    fn from(fault: FormatFault) -> ServeFault {
        match fault {
            FormatFault::TooFew | FormatFault::TooMany => ServeFault::Format(fault),
            FormatFault::Memory => ServeFault::Memory,
        }
    }
}

impl From<AllocError> for ServeFault {
    ghost from_gives = { λ _ fault. fault ≡ Memory };

    fn from(_error: AllocError) -> ServeFault {
        ServeFault::Memory
    }
}

/// Runs the setup as session 0 and then each script as a session on a thread of its own, session 1 to 8, with the
/// cleaner on one more, as session 255 and user 0. In one holding of the lock on the volume a session makes 64 calls at
/// most, those between which the gate is open, and none more once the cleaner waits or is wanted. Faults of memory and
/// threads come only after all threads have ended.
pub fn serve_over<R, F, G>(
    rt: &R,
    alloc: Global,
    volume: Volume<F>,
    setup: Script,
    sessions: Vec<Script>,
    gate: &G,
) -> Result<Closed<F>, Unserved<Closed<F>>>
where
    R: Threads + Wait + Sync,
    F: CleanedStore + Send + Drop,
    G: Gate,
    ensures settled { IfOk result (λ closed. IsInterleaving
        (run_of closed.volume.journal closed.volume.limit
        setup closed.setup.items sessions.items closed.transcripts.items)) }
    ensures unsettled { IfErr result (NamesUnsettled (λ session closed. IsLowestToDiffer
        (run_of closed.volume.journal closed.volume.limit
        setup closed.setup.items sessions.items closed.transcripts.items) session)) }
    ensures count { OnLeft result (λ closed. vec_len closed.transcripts ≡ vec_len sessions) }
    ensures limit { OnLeft result (λ closed. closed.volume.limit ≡ volume.limit) }
    ensures shape { OnLeft result (λ closed.
        (F.state closed.volume.store).shape ≡ (F.state volume.store).shape) }
    ensures since { OnLeft result (λ closed. closed.volume.since ≡ volume.since) }
    ensures since_level { OnLeft result (λ closed.
        closed.volume.since_level ≡ volume.since_level) }
    ensures legal { OnLeft result (λ closed.
        Since (F.state closed.volume.since) closed.volume.since_level (λ from. IsJournal from
        (F.state closed.volume.store) closed.volume.level
        closed.volume.journal closed.volume.limit)) }
    ensures sessions { OnOk result ((0 < vec_len sessions) × (vec_len sessions ≤ 8)) }
    ensures fault { IfErr result (λ unserved. IsFaultOf (vec_len sessions) (fault_of unserved)) }
{
    check_sessions(sessions.len())?;
    let is_awaited = AtomicBool::new(false);
    let run = Run {
        rt,
        alloc,
        gate,
        is_awaited: &is_awaited,
    };
    run_kept::<Brand, R, F, G>(&run, volume, &setup, sessions.as_slice())
}

/// Asks that there be so many sessions: at least one, and at most eight.
pub(crate) fn check_sessions(count: usize) -> Result<(), ServeFault>
    ensures count { OnOk result ((0 < count) × (count ≤ 8)) }
    ensures fault { IfErr result (λ fault. (fault ≡ Sessions) × ((count ≡ 0) ⊎ (8 < count))) }
{
    if count == 0 || count > MOST_SESSIONS {
        return Err(ServeFault::Sessions);
    }
    Ok(())
}

/// Runs the setup and then the sessions, of which there are at most eight, over a volume of these sizes, and hands out
/// what they left.
fn run_kept<S, R, F, G>(
    run: &Run<'_, R, G>,
    volume: Volume<F>,
    setup: &Script,
    sessions: &[Script],
) -> Result<Closed<F>, Unserved<Closed<F>>>
where
    S: Sizes<F> + Send,
    R: Threads + Wait + Sync,
    F: CleanedStore + Send + Drop,
    G: Gate,
    requires few { length sessions.now ≤ 8 }
    requires shape { (F.state volume.store).shape ≡ S.shape }
    requires limit { volume.limit ≡ S.limit }
    requires since { S.since volume.since }
    requires since_level { volume.since_level ≡ S.since_level }
    ensures settled { IfOk result (λ closed. IsInterleaving
        (run_of closed.volume.journal closed.volume.limit
        setup.now closed.setup.items sessions.now closed.transcripts.items)) }
    ensures unsettled { IfErr result (NamesUnsettled (λ session closed. IsLowestToDiffer
        (run_of closed.volume.journal closed.volume.limit
        setup.now closed.setup.items sessions.now closed.transcripts.items) session)) }
    ensures count { OnLeft result (λ closed. vec_len closed.transcripts ≡ length sessions.now) }
    ensures limit { OnLeft result (λ closed. closed.volume.limit ≡ S.limit) }
    ensures shape { OnLeft result (λ closed. (F.state closed.volume.store).shape ≡ S.shape) }
    ensures since { OnLeft result (λ closed. S.since closed.volume.since) }
    ensures since_level { OnLeft result (λ closed. closed.volume.since_level ≡ S.since_level) }
    ensures legal { OnLeft result (λ closed.
        Since (F.state closed.volume.since) closed.volume.since_level (λ from. IsJournal from
        (F.state closed.volume.store) closed.volume.level
        closed.volume.journal closed.volume.limit)) }
    ensures fault { IfErr result (λ unserved. IsRunFault (fault_of unserved)) }
{
    let mut kept = Kept::<S, F>::new(volume);
    let answers = run_setup(run, &mut kept, setup)?;
    let (kept, transcripts) = run_sessions(run, kept, sessions)?;
    close(kept.into_volume(), setup, answers, sessions, transcripts)
}

/// The sessions of these scripts, and the doorbell, which is rung once.
fn prepare<'a, R: Wait, G>(
    run: &Run<'_, R, G>,
    scripts: &'a [Script],
) -> Result<(Vec<Session<'a>>, Rings), AllocError>
    ensures { IfOk result (λ both. vec_len both.0 ≡ length scripts.now) }
{
    let (button, rings) = doorbell(run.alloc)?;
    let jobs = jobs(run.alloc, scripts, &button)?;
    button.ring(run.rt);
    Ok((jobs, rings))
}

/// Runs the sessions and the cleaner, and gives the volume back with the answers of each session.
fn run_sessions<S, R, F, G>(
    run: &Run<'_, R, G>,
    volume: Kept<S, F>,
    scripts: &[Script],
) -> Result<(Kept<S, F>, Vec<Vec<Answer>>), ServeFault>
where
    S: Sizes<F> + Send,
    R: Threads + Wait + Sync,
    F: CleanedStore + Send + Drop,
    G: Gate,
    ensures count { IfOk result (λ both. vec_len both.1 ≡ length scripts.now) }
    ensures fault { IfErr result IsThreadFault }
{
    let (jobs, rings) = prepare(run, scripts)?;
    let shared = Mutex::new(volume);
    let transcripts = run_threads(run, &shared, jobs, &rings)?;
    Ok((shared.into_inner(), transcripts))
}

/// The sessions of these scripts, with room for their answers.
fn jobs<'a>(
    alloc: Global,
    scripts: &'a [Script],
    button: &Button,
) -> Result<Vec<Session<'a>>, AllocError>
    ensures { IfOk result (λ jobs. vec_len jobs ≡ length scripts.now) }
{
    let mut jobs = Vec::with_capacity(alloc, scripts.len())?;
    let mut number = 0u8;
    for script in scripts {
        number = number.saturating_add(1);
        jobs.push(Session::new(number, alloc, script, button)?)?;
    }
    Ok(jobs)
}

/// Makes the calls of the setup, each of a copy of what it asks, and gives the answers.
fn run_setup<S: Sizes<F>, R, F: FileStore + Drop, G: Gate>(
    run: &Run<'_, R, G>,
    volume: &mut Kept<S, F>,
    setup: &Script,
) -> Result<Vec<Answer>, AllocError> {
    let mut answers = Vec::with_capacity(run.alloc, setup.as_slice().len())?;
    let mut turns = Turns::new(0);
    for (cred, request) in setup.as_slice() {
        let copy = request.try_clone(run.alloc)?;
        let (answer, _) = turns.pass(run.gate, || volume.call(0, cred, copy));
        answers.push(answer)?;
    }
    Ok(answers)
}

/// Runs the sessions and the cleaner, each on a thread of its own, and gives the answers of each session once all
/// threads have ended.
fn run_threads<S, R, F, G>(
    run: &Run<'_, R, G>,
    volume: &Mutex<Kept<S, F>>,
    jobs: Vec<Session<'_>>,
    rings: &Rings,
) -> Result<Vec<Vec<Answer>>, ServeFault>
where
    S: Sizes<F> + Send,
    R: Threads + Wait + Sync,
    F: CleanedStore + Send + Drop,
    G: Gate,
    ensures count { IfOk result (λ transcripts. vec_len transcripts ≡ vec_len jobs.entry) }
    ensures fault { IfErr result IsThreadFault }
{
    thread::scope(
        thread::scope_env(),
        run.rt,
        move |scope| -> Result<Vec<Vec<Answer>>, ServeFault>
            ensures count { IfOk result (λ transcripts. vec_len transcripts ≡ vec_len jobs.entry) }
            ensures fault { IfErr result IsThreadFault }
        {
            let threads = Vec::with_capacity(run.alloc, jobs.len())?;
            start_cleaner(scope, run, volume, rings)?;
            let threads = start(scope, run, volume, jobs, threads)?;
            joined(run, threads)
        },
    )
}

/// Starts the cleaner on a thread of its own.
pub(crate) fn start_cleaner<'s, E, S, R, F, G>(
    scope: &Scope<'s, E>,
    run: &'s Run<'s, R, G>,
    volume: &'s Mutex<Kept<S, F>>,
    rings: &'s Rings,
) -> Result<(), ServeFault>
where
    S: Sizes<F> + Send,
    R: Threads + Wait + Sync,
    F: CleanedStore + Send + Drop,
    G: Gate,
    ensures { IfErr result IsThreadFault }
{
    match scope.spawn(move || run_cleaner(run, volume, rings)) {
        Ok(_) => Ok(()),
        Err(_) => Err(ServeFault::Thread),
    }
}

/// Starts each session on a thread of its own, and puts the threads behind the others.
fn start<'s, E, S, R, F, G>(
    scope: &Scope<'s, E>,
    run: &'s Run<'s, R, G>,
    volume: &'s Mutex<Kept<S, F>>,
    jobs: Vec<Session<'s>>,
    mut threads: Vec<SessionThread>,
) -> Result<Vec<SessionThread>, AllocError>
where
    S: Sizes<F> + Send,
    R: Threads + Wait + Sync,
    F: CleanedStore + Send + Drop,
    G: Gate,
    ensures { IfOk result (λ all. vec_len all ≡ vec_len threads + vec_len jobs.entry) }
{
    for session in jobs {
        let thread = scope.spawn(move || run_session(run, volume, session));
        threads.push(thread.ok())?;
    }
    Ok(threads)
}

/// What the threads of the sessions gave, in order, if all were started and none lacked memory.
fn joined<R: Threads, G>(
    run: &Run<'_, R, G>,
    threads: Vec<SessionThread>,
) -> Result<Vec<Vec<Answer>>, ServeFault>
    ensures count { IfOk result (λ transcripts. vec_len transcripts ≡ vec_len threads) }
    ensures fault { IfErr result IsThreadFault }
{
    let mut transcripts = Vec::with_capacity(run.alloc, threads.len())?;
    for thread in threads {
        transcripts.push(answers_of(run.rt, thread)?)?;
    }
    Ok(transcripts)
}

/// What the thread of a session gave, if it was started and didn't lack memory.
fn answers_of<R: Threads>(rt: &R, thread: SessionThread) -> Result<Vec<Answer>, ServeFault>
    ensures { IfErr result IsThreadFault }
{
    match thread {
        Some(thread) => Ok(thread.join(rt)?),
        None => Err(ServeFault::Thread),
    }
}

/// Hands out what a run left, as settled where its journal is an interleaving of what was asked and answered.
fn close<F: FileStore + Drop>(
    volume: Volume<F>,
    setup: &Script,
    answers: Vec<Answer>,
    sessions: &[Script],
    transcripts: Vec<Vec<Answer>>,
) -> Result<Closed<F>, Unserved<Closed<F>>>
    requires sessions { length sessions.now ≤ 8 }
    requires transcripts { vec_len transcripts ≤ 8 }
    ensures settled { IfOk result (λ closed. IsInterleaving
        (run_of closed.volume.journal closed.volume.limit
        setup.now closed.setup.items sessions.now closed.transcripts.items)) }
    ensures unsettled { IfErr result (NamesUnsettled (λ session closed. IsLowestToDiffer
        (run_of closed.volume.journal closed.volume.limit
        setup.now closed.setup.items sessions.now closed.transcripts.items) session)) }
    ensures volume { OnLeft result (λ closed. closed.volume ≡ volume) }
    ensures count { OnLeft result (λ closed. vec_len closed.transcripts ≡ vec_len transcripts) }
    ensures legal { OnLeft result (λ closed.
        Since (F.state closed.volume.since) closed.volume.since_level (λ from. IsJournal from
        (F.state closed.volume.store) closed.volume.level
        closed.volume.journal closed.volume.limit)) }
    ensures fault { IfErr result (λ unserved. IsRunFault (fault_of unserved)) }
{
    let settled = settle(
        &volume,
        setup,
        answers.as_slice(),
        sessions,
        transcripts.as_slice(),
    );
    let closed = Closed {
        volume,
        setup: answers,
        transcripts,
    };
    match settled {
        Ok(()) => Ok(closed),
        Err(Unsettled(session)) => Err(Unserved::Unsettled(session, closed)),
    }
}
