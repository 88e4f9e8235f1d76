//! `lfsd`: a script is read, from standard input or from a file, and run, with its sessions on threads where that is
//! asked for.

ghost use Rattle.std.specs.Prelude.{◌≡◌, ℕ, List, IfErr, IfOk, IfSome, OnOk};
ghost use Rattle.std.specs.Io.KnownBytes.{Appends, Keeps};
ghost use Rattle.clap.specs.Values.{kind_of};
ghost use Rattle.lfs_command.specs.Ends.{EndsUnasked};
ghost use Rattle.lfs_audit.specs.Scripts.{IsLogOutput};
ghost use Rattle.lfs_audit.specs.Threads.{MayHaveWrittenThreads};
ghost use Rattle.lfs_programs.specs.Asked.{EndsRun, EndsServer, IsAloneFault, IsAskedFault};
ghost use Rattle.lfs_programs.specs.Asked.{IsBroken, IsServerEnd, HasGotText, HasRun};

use crate::fault::ServerFault;
use crate::filed::{FiledRun, run_filed};
use crate::options::{Options, options_of};
use crate::script::open_script;
use crate::telling::tell_fault;
use clap::Error;
use lfs_audit::fault::ThreadsFault;
use lfs_audit::run::run_script_noting;
use lfs_audit::threads::run_threads_noting;
use lfs_command::means::Means;
use lfs_command::refusing::refuse;
use lfs_command::streams::Streams;
use lfs_command::words::{texts, words};
use lfs_io::tell::tell;
use lfs_types::store::Params;
use std::alloc::Global;
use std::env::Env;
use std::io::{Read, Write};
use std::rt::Files;
use std::sync::Wait;
use std::thread::Threads;

/// The program's name.
pub(crate) const NAME: &str = "lfsd";

/// Does what the arguments of an environment ask `lfsd` for, and gives the status with which it ends: 0 for a run that
/// is done, for help and for the version, 1 for a fault, told in a line on standard error, 2 for words that are
/// refused, for a script's file that is not opened and for a file of the journal that is not made.
pub fn lfsd<E, S, F, R, W, D>(env: &E, rt: &S, files: &F, streams: &mut Streams<R, W, D>) -> u8
where
    E: Env + AllocGlobal,
    S: Threads + Wait + Sync,
    F: Files,
    R: Read,
    W: Write,
    D: Write,
    ensures { IsServerEnd F.File.contents (R.remaining streams.old.stdin)
        (W.contents streams.old.stdout) (W.contents streams.new.stdout)
        result streams.old.stdin streams.new.stdin streams.old.stdout streams.new.stdout
        streams.old.stderr streams.new.stderr }
{
    let alloc = env.alloc();
    let words = words(env);
    let asked = options_of(alloc, texts(&words));
    serve(rt, files, alloc, asked, streams)
}

/// Does what was asked for, or tells why that is nothing.
pub fn serve<S, F, R, W, D>(
    rt: &S,
    files: &F,
    alloc: Global,
    asked: Result<Options<'_>, Error>,
    streams: &mut Streams<R, W, D>,
) -> u8
where
    S: Threads + Wait + Sync,
    F: Files,
    R: Read,
    W: Write,
    D: Write,
    ensures run { IfOk asked.entry (λ options. EndsServer F.File.contents options
        (R.remaining streams.old.stdin)
        (W.contents streams.old.stdout) (W.contents streams.new.stdout)
        result streams.old.stdin streams.new.stdin streams.old.stdout streams.new.stdout
        streams.old.stderr streams.new.stderr) }
    ensures not_run { IfErr asked.entry (λ error. (streams.new.stdin ≡ streams.old.stdin)
        × EndsUnasked (kind_of error) result streams.old.stdout streams.new.stdout
        streams.old.stderr streams.new.stderr) }
{
    match asked {
        Ok(options) => {
            let means = Means {
                files,
                alloc,
                options,
            };
            serve_asked(rt, &means, streams)
        }
        Err(error) => refuse(&mut streams.stdout, &mut streams.stderr, NAME, &error),
    }
}

/// Runs the script of the file that was asked for, or else of standard input. Gives the status with which the program
/// ends.
fn serve_asked<S, F, R, W, D>(
    rt: &S,
    means: &Means<'_, F, Options<'_>>,
    streams: &mut Streams<R, W, D>,
) -> u8
where
    S: Threads + Wait + Sync,
    F: Files,
    R: Read,
    W: Write,
    D: Write,
    ensures { EndsServer F.File.contents means.now.options (R.remaining streams.old.stdin)
        (W.contents streams.old.stdout) (W.contents streams.new.stdout)
        result streams.old.stdin streams.new.stdin streams.old.stdout streams.new.stdout
        streams.old.stderr streams.new.stderr }
{
    let Streams {
        stdin,
        stdout,
        stderr,
    } = streams;
    match open_script(means.files, means.options.script) {
        Ok(Some(mut script)) => run_from(rt, means, &mut script, stdout, stderr),
        Ok(None) => run_from(rt, means, stdin, stdout, stderr),
        Err(fault) => {
            let _ = tell(stderr, NAME, &fault);
            2
        }
    }
}

/// Reads a script, runs it as was asked, and tells its fault. Gives the status with which the program ends.
fn run_from<S, F, R, W, D>(
    rt: &S,
    means: &Means<'_, F, Options<'_>>,
    reader: &mut R,
    stdout: &mut W,
    stderr: &mut D,
) -> u8
where
    S: Threads + Wait + Sync,
    F: Files,
    R: Read,
    W: Write,
    D: Write,
    ensures { EndsRun F.File.contents means.now.options
        (R.remaining reader.old) (W.contents stdout.old) (W.contents stdout.new)
        result stdout.old stdout.new stderr.old stderr.new }
{
    let mut faulty = Vec::new(means.alloc);
    match run_asked(rt, means, reader, &mut faulty, stdout, stderr) {
        Ok(()) => 0,
        Err(ServerFault::Run(fault)) => {
            tell_fault(means.alloc, faulty.as_slice(), fault, stderr);
            1
        }
        Err(ServerFault::Open(fault)) => {
            let _ = tell(stderr, NAME, &fault);
            2
        }
        Err(ServerFault::Journal) => 1,
    }
}

/// Reads a script and runs it as was asked, with a file of its entries or without one. The first line that has a fault
/// is put into `faulty`.
fn run_asked<S, F, R, W, D>(
    rt: &S,
    means: &Means<'_, F, Options<'_>>,
    reader: &mut R,
    faulty: &mut Vec<u8>,
    stdout: &mut W,
    stderr: &mut D,
) -> Result<(), ServerFault>
where
    S: Threads + Wait + Sync,
    F: Files,
    R: Read,
    W: Write,
    D: Write,
    ensures done { OnOk result (HasRun F.File.contents means.now.options
        (R.remaining reader.old) (W.contents stdout.old) (W.contents stdout.new)
        × (stderr.new ≡ stderr.old)) }
    ensures failed { IfErr result (IsBroken F.File.contents means.now.options (R.remaining reader.old)
        (W.contents stdout.old) (W.contents stdout.new) stdout.old stdout.new) }
{
    let Means {
        files,
        alloc,
        options,
    } = *means;
    match options.journal_out {
        Some(path) => {
            let run = FiledRun {
                alloc,
                options,
                path,
            };
            run_filed(rt, files, run, reader, faulty, stdout, stderr)
        }
        None => match run(rt, alloc, options, reader, faulty, stdout) {
            Ok(()) => Ok(()),
            Err(fault) => Err(ServerFault::Run(fault)),
        },
    }
}

/// Reads a script and runs it as was asked.
fn run<S, R, W>(
    rt: &S,
    alloc: Global,
    options: Options<'_>,
    reader: &mut R,
    faulty: &mut Vec<u8>,
    stdout: &mut W,
) -> Result<(), ThreadsFault>
where
    S: Threads + Wait + Sync,
    R: Read,
    W: Write,
    ensures written { OnOk result (HasGotText options.entry
        (R.remaining reader.old) (W.contents stdout.old) (W.contents stdout.new)) }
    ensures fault { IfErr result (IsAskedFault options.entry (R.remaining reader.old)) }
    ensures unwritten { IfErr result (λ fault. (MayHaveWrittenThreads fault → ⊥)
        → Keeps (W.contents stdout.old) (W.contents stdout.new)) }
{
    if options.threads {
        match run_threads_noting(rt, alloc, reader, stdout, options.params, faulty) {
            Ok(()) => Ok(()),
            Err(undone) => Err(undone.fault()),
        }
    } else {
        run_alone(alloc, options.params, reader, faulty, stdout)
    }
}

/// Reads a script and runs it on the caller's thread.
fn run_alone<R: Read, W: Write>(
    alloc: Global,
    params: Params,
    reader: &mut R,
    faulty: &mut Vec<u8>,
    stdout: &mut W,
) -> Result<(), ThreadsFault>
    ensures written { OnOk result (IfSome (R.remaining reader.old) (λ script. (text : List ℕ)
        × IsLogOutput script params.segments params.inodes params.frames params.journal text
        × Appends (W.contents stdout.old) (W.contents stdout.new) text)) }
    ensures fault { IfErr result (IsAloneFault (R.remaining reader.old) params) }
    ensures unwritten { IfErr result (λ fault. (MayHaveWrittenThreads fault → ⊥)
        → Keeps (W.contents stdout.old) (W.contents stdout.new)) }
{
    match run_script_noting(alloc, reader, stdout, params, faulty) {
        Ok(()) => Ok(()),
        Err(fault) => Err(ThreadsFault::Run(fault)),
    }
}
