//! `lfsd --journal-out FILE`: the entries of a run go to a file.

ghost use Rattle.std.specs.Prelude.{◌≡◌, ◌≤◌, false, true, IfErr, IsSome, OnOk};
ghost use Rattle.lfs_programs.specs.Asked.{HasGotFiled, IsBroken};

use crate::fault::ServerFault;
use crate::journal::make_journal;
use crate::options::{LEAST_WINDOW, Options};
use crate::server::NAME;
use lfs_audit::filing::FiledVolume;
use lfs_audit::run::read_plan;
use lfs_audit::threads::{SessionPlan, read_sessions, run_sessions};
use lfs_io::tell::tell;
use lfs_server::fresh::fresh_volume;
use lfs_sinks::sink::LineSink;
use lfs_types::store::Params;
use std::alloc::Global;
use std::io::{Read, Write};
use std::rt::Files;
use std::sync::Wait;
use std::thread::Threads;

/// A run that is asked for with a file for its entries.
#[derive(Clone, Copy)]
pub(crate) struct FiledRun<'a> {
    pub(crate) alloc: Global,
    pub(crate) options: Options<'a>,
    /// The file, which may not be there.
    pub(crate) path: &'a str,
}

/// Reads a script and runs it as was asked, with a file for the entries, which is made once the script has no fault. Why
/// it doesn't take all entries is told. The first line that has a fault is put into `faulty`.
pub(crate) fn run_filed<S, F, R, W, D>(
    rt: &S,
    files: &F,
    run: FiledRun<'_>,
    reader: &mut R,
    faulty: &mut Vec<u8>,
    stdout: &mut W,
    stderr: &mut D,
) -> Result<(), ServerFault>
where
    S: Threads + Wait + Sync,
    F: Files,
    R: Read,
    W: Write,
    D: Write,
    ensures done { OnOk result (HasGotFiled F.File.contents run.entry.options true
        (R.remaining reader.old) (W.contents stdout.old) (W.contents stdout.new)
        × (stderr.new ≡ stderr.old)) }
    ensures failed { IfErr result (λ fault. IsSome run.entry.options.journal_out
        → IsBroken F.File.contents run.entry.options (R.remaining reader.old)
        (W.contents stdout.old) (W.contents stdout.new) stdout.old stdout.new fault) }
{
    if run.options.threads {
        run_together(rt, files, run, reader, faulty, stdout, stderr)
    } else {
        run_alone(files, run, reader, faulty, stdout, stderr)
    }
}

/// Reads a script and runs it on the caller's thread: the file gets the entries of each line before its answers are
/// written.
fn run_alone<F, R, W, D>(
    files: &F,
    run: FiledRun<'_>,
    reader: &mut R,
    faulty: &mut Vec<u8>,
    stdout: &mut W,
    stderr: &mut D,
) -> Result<(), ServerFault>
where
    F: Files,
    R: Read,
    W: Write,
    D: Write,
    requires { run.options.threads ≡ false }
    ensures done { OnOk result (HasGotFiled F.File.contents run.entry.options true
        (R.remaining reader.old) (W.contents stdout.old) (W.contents stdout.new)
        × (stderr.new ≡ stderr.old)) }
    ensures failed { IfErr result (λ fault. IsSome run.entry.options.journal_out
        → IsBroken F.File.contents run.entry.options (R.remaining reader.old)
        (W.contents stdout.old) (W.contents stdout.new) stdout.old stdout.new fault) }
{
    let FiledRun {
        alloc,
        options,
        path,
    } = run;
    let plan = read_plan(alloc, reader, faulty)?;
    let volume = fresh_volume(alloc, with_window(options.params))?;
    let file = make_journal(files, path)?;
    let mut filed = FiledVolume::new(alloc, volume, LineSink::new(alloc, file), NAME);
    if filed.run_plan(alloc, plan.into_steps(), stdout, stderr)? {
        Ok(())
    } else {
        Err(ServerFault::Journal)
    }
}

/// Reads a script and runs it with its sessions on threads: the file gets all entries before the answers are written.
fn run_together<S, F, R, W, D>(
    rt: &S,
    files: &F,
    run: FiledRun<'_>,
    reader: &mut R,
    faulty: &mut Vec<u8>,
    stdout: &mut W,
    stderr: &mut D,
) -> Result<(), ServerFault>
where
    S: Threads + Wait + Sync,
    F: Files,
    R: Read,
    W: Write,
    D: Write,
    requires { run.options.threads ≡ true }
    ensures done { OnOk result (HasGotFiled F.File.contents run.entry.options true
        (R.remaining reader.old) (W.contents stdout.old) (W.contents stdout.new)
        × (stderr.new ≡ stderr.old)) }
    ensures failed { IfErr result (λ fault. IsSome run.entry.options.journal_out
        → IsBroken F.File.contents run.entry.options (R.remaining reader.old)
        (W.contents stdout.old) (W.contents stdout.new) stdout.old stdout.new fault) }
{
    let FiledRun {
        alloc,
        options,
        path,
    } = run;
    let sessions = read_sessions(alloc, reader, faulty)?;
    let file = make_journal(files, path)?;
    let mut sink = LineSink::new(alloc, file);
    let (setup, scripts) = sessions;
    let sessions = SessionPlan {
        params: options.params,
        setup,
        scripts,
    };
    match run_sessions(rt, alloc, sessions, &mut sink, stdout)? {
        None => Ok(()),
        Some(fault) => {
            let _ = tell(stderr, NAME, &fault);
            Err(ServerFault::Journal)
        }
    }
}

/// The parameters with room in the journal for what a line may ask for, at least.
fn with_window(params: Params) -> Params
    ensures segments { result.segments ≡ params.segments }
    ensures inodes { result.inodes ≡ params.inodes }
    ensures frames { result.frames ≡ params.frames }
    ensures journal { 128 ≤ result.journal }
{
    Params {
        journal: params.journal.max(LEAST_WINDOW),
        ..params
    }
}
