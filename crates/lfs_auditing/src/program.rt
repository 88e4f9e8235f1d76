//! `lfs_audit_trail`: a journal is read, from standard input or from a file, and what is found is told.

ghost use Rattle.std.specs.Prelude.{◌≡◌, IfOk, MatchResult};
ghost use Rattle.lfs_types.specs.Tree.{World};
ghost use Rattle.lfs_trace.specs.Checking.{numbers_of};
ghost use Rattle.lfs_auditing.specs.Audits.{HasReadNone, IsAudited, status_of};
ghost use Rattle.lfs_auditing.specs.Beginnings.{IsAuditedAsAsked, IsAuditedBy};
ghost use Rattle.lfs_auditing.specs.Ends.{IsTrailEnd};

use crate::audit::{Audit, Stop};
use crate::beginning::begin;
use crate::fault::AuditFault;
use crate::options::{Options, options_of};
use lfs_command::refusing::refuse;
use lfs_command::streams::Streams;
use lfs_command::words::{texts, words};
use lfs_io::output::{flush, write_text};
use lfs_io::tell::tell;
use std::alloc::{AllocError, Global};
use std::env::Env;
use std::fs::File;
use std::io::{BufReader, Read, Write};
use std::rt::Files;

/// The program's name.
const NAME: &str = "lfs_audit_trail";

/// Does what the arguments of an environment ask `lfs_audit_trail` for, and gives the status with which it ends: 0 for
/// a journal that is legal, and for help; 1 for one that isn't, for a line that tells no entry, and for a fault, told
/// in a line on standard error; 2 for words that are refused.
pub fn lfs_audit_trail<E, F, R, W, D>(env: &E, files: &F, streams: &mut Streams<R, W, D>) -> u8
where
    E: Env + AllocGlobal,
    F: Files,
    R: Read,
    W: Write,
    D: Write,
    ensures { IsTrailEnd F.File.remaining (R.remaining streams.old.stdin)
        result streams.old.stdin streams.new.stdin streams.old.stdout streams.new.stdout
        streams.old.stderr streams.new.stderr }
{
    let alloc = env.alloc();
    let words = words(env);
    let Streams {
        stdin,
        stdout,
        stderr,
    } = streams;
    match options_of(alloc, texts(&words)) {
        Ok(options) => end(stderr, run(files, alloc, &options, stdin, stdout)),
        Err(error) => refuse(stdout, stderr, NAME, &error),
    }
}

/// The status that an audit gave, or that of its fault, which is told.
fn end<D: Write>(stderr: &mut D, outcome: Result<u8, AuditFault>) -> u8
    ensures { MatchResult outcome (λ status. (result ≡ status) × (stderr.new ≡ stderr.old))
        (λ _. result ≡ 1) }
{
    match outcome {
        Ok(status) => status,
        Err(fault) => {
            let _ = tell(stderr, NAME, &fault);
            1
        }
    }
}

/// Audits the journal of the file that is named, or that of standard input. Gives the status with which the program
/// ends.
fn run<F: Files, R: Read, W: Write>(
    files: &F,
    alloc: Global,
    options: &Options<'_>,
    stdin: &mut R,
    stdout: &mut W,
) -> Result<u8, AuditFault>
    ensures { IfOk result (IsAuditedAsAsked F.File.remaining options.now (R.remaining stdin.old)) }
{
    match options.journal {
        Some(path) => match File::open(files, path) {
            Ok(mut file) => audit(files, alloc, options, &mut file, stdout),
            Err(_) => Err(AuditFault::Open),
        },
        None => audit(files, alloc, options, stdin, stdout),
    }
}

/// Audits the journal of a reader from where it is asked to begin, and writes what is found.
pub fn audit<F: Files, R: Read, W: Write>(
    files: &F,
    alloc: Global,
    options: &Options<'_>,
    reader: &mut R,
    writer: &mut W,
) -> Result<u8, AuditFault>
    ensures { IfOk result (IsAuditedBy F.File.remaining options.now (R.remaining reader.old)) }
{
    match BufReader::new(alloc, reader) {
        Ok(mut reader) => audit_buffered(files, alloc, options, &mut reader, writer),
        Err(_) => Err(AuditFault::Memory),
    }
}

/// The same of a reader that takes no longer for a byte than for many.
fn audit_buffered<F: Files, R: Read, W: Write>(
    files: &F,
    alloc: Global,
    options: &Options<'_>,
    reader: &mut R,
    writer: &mut W,
) -> Result<u8, AuditFault>
    ensures { IfOk result (IsAuditedBy F.File.remaining options.now (R.remaining reader.old)) }
{
    let mut audit = begin(files, alloc, options)?;
    audit_lines(&mut audit, options, reader, writer)
}

/// Audits the lines of a reader by an audit that has read nothing, and writes what is found.
fn audit_lines<R: Read, W: Write>(
    audit: &mut Audit,
    options: &Options<'_>,
    reader: &mut R,
    writer: &mut W,
) -> Result<u8, AuditFault>
    requires { (from : World) × HasReadNone from audit.old }
    ensures { IfOk result (λ status. (from : World) → HasReadNone from audit.old
        → IsAudited (R.remaining reader.old) audit.old.denials from
        (numbers_of audit.old.checker) audit.old.checker.segments status) }
{
    let stop = audit.read_journal(reader)?;
    let status = status_of(&stop);
    let text = told(audit, &stop, options);
    // Left to the return, it would be dropped variant by variant, which takes the prover long.
    drop(stop);
    write_text(writer, text?.as_slice())?;
    flush(writer)?;
    Ok(status)
}

/// What an audit that stopped there tells: lines, or JSON where that is asked for.
fn told(audit: &mut Audit, stop: &Stop, options: &Options<'_>) -> Result<Vec<u8>, AllocError> {
    if options.json {
        audit.tell_json(stop, &options.who)
    } else {
        audit.tell(stop, &options.who)
    }
}

/// The status behind an audit that stopped there.
fn status_of(stop: &Stop) -> u8
    ensures { result ≡ status_of stop.now }
{
    match stop {
        Stop::End => 0,
        Stop::Illegal(_) | Stop::Unread(_) => 1,
    }
}
