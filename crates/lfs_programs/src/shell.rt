//! `lfs_shell`: a line is read, from standard input or from a file, and answered on standard output before the next is
//! read.

ghost use Rattle.std.specs.Prelude.{◌≡◌, false, true, IfErr, IfOk, IsSome, MatchResult, is_some};
ghost use Rattle.clap.specs.Values.{kind_of as error_kind};
ghost use Rattle.lfs_command.specs.Ends.{EndsUnasked};
ghost use Rattle.lfs_audit.specs.declared.fault.RunFault.TheVariants.{Read as Failed};
ghost use Rattle.lfs_live.specs.Faults.{IsTalkFault};
ghost use Rattle.lfs_live.specs.Talkers.{texts_of};
ghost use Rattle.lfs_programs.specs.Volumes.{IsBegun, disk_kind, kind_of};
ghost use Rattle.lfs_programs.specs.Talks.{EndsAsked, EndsShell, EndsTalk, HasTalked, HasTalkedSoFar};
ghost use Rattle.lfs_programs.specs.Talks.{IsShellEnd, IsToBeKept};
ghost use Rattle.lfs_volume.specs.Cleanings.{cleaner_of};

use crate::fault::{OpenFault, ShellFault};
use crate::filming::{Heard, NAME, Outset, finish, hear};
use crate::journal::make_journal;
use crate::on_disk::begin_on;
use crate::options::{ShellOptions, shell_options_of};
use crate::script::open_script;
use crate::volume::begin;
use clap::Error;
use lfs_audit::fault::RunFault;
use lfs_command::means::Means;
use lfs_command::refusing::refuse;
use lfs_command::streams::Streams;
use lfs_command::words::{texts, words};
use lfs_durable_store::DurableStore;
use lfs_io::tell::{end, tell};
use lfs_logstore::LogStore;
use lfs_share::SharedStore;
use lfs_stands::{OnLog, OverLog};
use lfs_volume::volume::Volume;
use std::alloc::Global;
use std::env::Env;
use std::io::{BufReader, Read, Write};
use std::os::unix::fs::FileExt;
use std::rt::Files;

/// Does what the arguments of an environment ask `lfs_shell` for, and gives the status with which it ends: 0 for a talk
/// that has its end, with its film written where one is asked for, for help and for the version; 1 for a fault, told in
/// a line on standard error; 2 for words that are refused, and for a file of the journal or of the lines that is not
/// opened.
pub fn lfs_shell<E, F, R, W, D>(env: &E, files: &F, streams: &mut Streams<R, W, D>) -> u8
where
    E: Env + AllocGlobal,
    F: Files,
    F::File: FileExt,
    R: Read,
    W: Write,
    D: Write,
    ensures { IsShellEnd F.File.contents (R.remaining streams.old.stdin)
        (W.contents streams.old.stdout) (W.contents streams.new.stdout)
        result streams.old.stdin streams.new.stdin streams.old.stdout streams.new.stdout
        streams.old.stderr streams.new.stderr }
{
    let alloc = env.alloc();
    let words = words(env);
    let asked = shell_options_of(alloc, texts(&words));
    converse(files, alloc, asked, streams)
}

/// Does what was asked for, or tells why that is nothing.
pub fn converse<F, R, W, D>(
    files: &F,
    alloc: Global,
    asked: Result<ShellOptions<'_>, Error>,
    streams: &mut Streams<R, W, D>,
) -> u8
where
    F: Files,
    F::File: FileExt,
    R: Read,
    W: Write,
    D: Write,
    ensures talk { IfOk asked.entry (λ options. EndsShell F.File.contents options
        (R.remaining streams.old.stdin)
        (W.contents streams.old.stdout) (W.contents streams.new.stdout)
        result streams.old.stdin streams.new.stdin streams.old.stdout streams.new.stdout
        streams.old.stderr streams.new.stderr) }
    ensures not_run { IfErr asked.entry (λ error. (streams.new.stdin ≡ streams.old.stdin)
        × EndsUnasked (error_kind error) result streams.old.stdout streams.new.stdout
        streams.old.stderr streams.new.stderr) }
{
    match asked {
        Ok(options) => {
            let means = Means {
                files,
                alloc,
                options,
            };
            talk_of(&means, streams)
        }
        Err(error) => refuse(&mut streams.stdout, &mut streams.stderr, NAME, &error),
    }
}

/// Answers the lines of the file that was asked for, or else of standard input, and gives the status with which the
/// program ends.
fn talk_of<F, R, W, D>(means: &Means<'_, F, ShellOptions<'_>>, streams: &mut Streams<R, W, D>) -> u8
where
    F: Files,
    F::File: FileExt,
    R: Read,
    W: Write,
    D: Write,
    ensures { EndsShell F.File.contents means.now.options (R.remaining streams.old.stdin)
        (W.contents streams.old.stdout) (W.contents streams.new.stdout)
        result streams.old.stdin streams.new.stdin streams.old.stdout streams.new.stdout
        streams.old.stderr streams.new.stderr }
{
    let Streams {
        stdin,
        stdout,
        stderr,
    } = streams;
    match open_script(means.files, means.options.script) {
        Ok(Some(mut lines)) => talk_over(means, &mut lines, stdout, stderr),
        Ok(None) => talk_over(means, stdin, stdout, stderr),
        Err(fault) => {
            let _ = tell(stderr, NAME, &fault);
            2
        }
    }
}

/// Answers the lines of a reader as was asked, over the kind of store that was asked for, and gives the status with
/// which the program ends.
fn talk_over<F, R, W, D>(
    means: &Means<'_, F, ShellOptions<'_>>,
    reader: &mut R,
    stdout: &mut W,
    stderr: &mut D,
) -> u8
where
    F: Files,
    F::File: FileExt,
    R: Read,
    W: Write,
    D: Write,
    ensures { EndsAsked F.File.contents (is_some means.now.options.disk) means.now.options.shares
        means.now.options.serials means.now.options
        (R.remaining reader.old) (W.contents stdout.old) (W.contents stdout.new)
        result reader.old reader.new stdout.old stdout.new stderr.old stderr.new }
{
    if let Some(path) = means.options.disk {
        talk_on_disk(means, path, reader, stdout, stderr)
    } else if means.options.shares {
        talk_in::<SharedStore, F, R, W, D>(means, reader, stdout, stderr)
    } else if means.options.serials {
        talk_in::<DurableStore, F, R, W, D>(means, reader, stdout, stderr)
    } else {
        talk_in::<LogStore, F, R, W, D>(means, reader, stdout, stderr)
    }
}

/// The same on the disk that the file of this path is.
fn talk_on_disk<F, R, W, D>(
    means: &Means<'_, F, ShellOptions<'_>>,
    path: &str,
    reader: &mut R,
    stdout: &mut W,
    stderr: &mut D,
) -> u8
where
    F: Files,
    F::File: FileExt,
    R: Read,
    W: Write,
    D: Write,
    requires { IsSome means.now.options.disk }
    ensures { EndsTalk F.File.contents (disk_kind F.File.contents) means.now.options
        (R.remaining reader.old) (W.contents stdout.old) (W.contents stdout.new)
        result reader.old reader.new stdout.old stdout.new stderr.old stderr.new }
{
    match begin_on(means.files, means.alloc, path, &means.options) {
        Ok(volume) => talk_on(means, volume, reader, stdout, stderr),
        Err(fault) => end_talk(stderr, Err(fault)),
    }
}

/// The same over a kind of store, which takes serials where they are asked for.
fn talk_in<S, F, R, W, D>(
    means: &Means<'_, F, ShellOptions<'_>>,
    reader: &mut R,
    stdout: &mut W,
    stderr: &mut D,
) -> u8
where
    S: OverLog + Drop,
    F: Files,
    R: Read,
    W: Write,
    D: Write,
    requires { S.stand.takes means.now.options.serials }
    ensures { let kind = kind_of F.File.contents
        (cleaner_of S.state S.is_flushed S.made S.cleaner)
        (texts_of S.map_text S.segment_text S.space_text) S.checked S.stand in
        EndsTalk F.File.contents kind means.now.options
        (R.remaining reader.old) (W.contents stdout.old) (W.contents stdout.new)
        result reader.old reader.new stdout.old stdout.new stderr.old stderr.new }
{
    match begin::<S, F>(means.files, means.alloc, &means.options) {
        Ok(volume) => talk_on(means, volume, reader, stdout, stderr),
        Err(fault) => end_talk(stderr, Err(fault)),
    }
}

/// The same on a volume.
fn talk_on<S, F, R, W, D>(
    means: &Means<'_, F, ShellOptions<'_>>,
    volume: Volume<S>,
    reader: &mut R,
    stdout: &mut W,
    stderr: &mut D,
) -> u8
where
    S: OnLog + Drop,
    F: Files,
    R: Read,
    W: Write,
    D: Write,
    requires { IsBegun S.state S.stand means.now.options volume }
    ensures { let kind = kind_of F.File.contents
        (cleaner_of S.state S.is_flushed S.made S.cleaner)
        (texts_of S.map_text S.segment_text S.space_text) S.checked S.stand in
        EndsTalk F.File.contents kind means.now.options
        (R.remaining reader.old) (W.contents stdout.old) (W.contents stdout.new)
        result reader.old reader.new stdout.old stdout.new stderr.old stderr.new }
{
    match open_journal(means.files, means.options.journal_out) {
        Ok(journal) => {
            let outset = Outset { volume, journal };
            let heard = run(means, outset, reader, stdout, stderr);
            let outcome = finish(means, heard);
            end_talk(stderr, outcome)
        }
        Err(fault) => {
            let _ = tell(stderr, NAME, &fault);
            2
        }
    }
}

/// Makes the file of the journal, where one is asked for.
///
/// # Errors
///
/// It is there already, or could not be made.
fn open_journal<F: Files>(files: &F, path: Option<&str>) -> Result<Option<F::File>, OpenFault>
    ensures opened { IfOk result (λ journal. is_some journal ≡ is_some path.entry) }
    ensures asked { IfErr result (λ _. IsSome path.entry) }
{
    let Some(path) = path else {
        return Ok(None);
    };
    match make_journal(files, path) {
        Ok(file) => Ok(Some(file)),
        Err(fault) => Err(fault),
    }
}

/// The status of a talk, whose fault is told, but for one of the journal's file or of what keeps the volume, which was told
/// by then.
fn end_talk<D: Write>(stderr: &mut D, outcome: Result<(), ShellFault>) -> u8
    ensures status { MatchResult outcome (λ _. result ≡ 0) (λ _. result ≡ 1) }
    ensures silent { IfOk outcome (λ _. stderr.new ≡ stderr.old) }
{
    match outcome {
        Err(ShellFault::Journal | ShellFault::Unsaved) => 1,
        outcome => end(stderr, NAME, outcome),
    }
}

/// Reads lines, in large pieces, and answers each, with the journal's file that is asked for.
///
/// # Errors
///
/// The talk's fault; `Memory` where there is none for the pieces.
fn run<S: OnLog + Drop, F: Files, R: Read, W: Write, D: Write>(
    means: &Means<'_, F, ShellOptions<'_>>,
    outset: Outset<S, F::File>,
    reader: &mut R,
    stdout: &mut W,
    stderr: &mut D,
) -> Result<Heard, RunFault>
    requires begun { IsBegun S.state S.stand means.now.options outset.volume }
    requires filed { is_some outset.journal ≡ is_some means.now.options.journal_out }
    ensures talked { let kind = kind_of F.File.contents
        (cleaner_of S.state S.is_flushed S.made S.cleaner)
        (texts_of S.map_text S.segment_text S.space_text) S.checked S.stand in
        IfOk result (λ heard. HasTalked F.File.contents kind means.now.options heard.ending
        (R.remaining reader.old) (W.contents stdout.old) (W.contents stdout.new)) }
    ensures silent { IfOk result (λ heard. heard.ending.is_kept ≡ true
        → heard.ending.is_saved ≡ true → stderr.new ≡ stderr.old) }
    ensures kept { IfOk result (λ heard. heard.ending.is_kept ≡ false
        → IsSome means.now.options.journal_out) }
    ensures saved { IfOk result (λ heard. heard.ending.is_saved ≡ false
        → IsToBeKept means.now.options) }
    ensures so_far { let kind = kind_of F.File.contents
        (cleaner_of S.state S.is_flushed S.made S.cleaner)
        (texts_of S.map_text S.segment_text S.space_text) S.checked S.stand in
        IfErr result (λ fault. fault ≡ Failed
        → HasTalkedSoFar F.File.contents kind means.now.options
        (R.remaining reader.old) (W.contents stdout.old) (W.contents stdout.new)) }
    ensures fault { IfErr result IsTalkFault }
{
    match BufReader::new(means.alloc, reader) {
        Ok(mut pieces) => hear(means, outset, &mut pieces, stdout, stderr),
        Err(_) => Err(RunFault::Memory),
    }
}
