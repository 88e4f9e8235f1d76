//! `lfs_fuse`: messages of a kernel are read from standard input, and answered on standard output.

ghost use Rattle.std.specs.Prelude.{◌≡◌, ℕ, List, Option, true, IfErr, IfOk, MatchResult, OnOk};
ghost use Rattle.clap.specs.Values.{kind_of};
ghost use Rattle.lfs_fuse_wire.specs.declared.framing.Frame.TheVariants.{Partial};
ghost use Rattle.lfs_command.specs.Ends.{EndsUnasked};
ghost use Rattle.lfs_fuse_talk.specs.Ends.{EndsMount, EndsOver, EndsServing, IsBroken, IsFuseEnd, IsUnserved, status_of};
ghost use Rattle.lfs_fuse_talk.specs.Serving.{BeginsServing, HasServed, kind_with, server_of};

use crate::fault::TalkFault;
use crate::filing::{Ledger, NAME, open_journal};
use crate::options::{Options, options_of};
use crate::outside::{Outside, Recording, System};
use crate::served::Served;
use crate::talk::{Talked, talk};
use crate::volume::{keep, mounted};
use clap::Error;
use lfs_command::refusing::refuse;
use lfs_command::streams::Streams;
use lfs_command::words::{texts, words};
use lfs_durable_store::DurableStore;
use lfs_io::tell::tell;
use lfs_logstore::LogStore;
use lfs_stands::OverLog;
use std::alloc::Global;
use std::env::Env;
use std::io::{Read, Write};
use std::os::unix::fs::FileExt;
use std::rt::Files;
use std::time::Clock;

/// Does what the arguments of an environment ask `lfs_fuse` for, and gives the status with which it ends: 0 for a talk
/// that has its end, behind which a file of the journal that is asked for has each entry, and the volume is kept where
/// an image is asked for, and for help; 1 for a fault, told in a line on standard error; 2 for words that are refused,
/// and for a file of the journal that is not made.
pub fn lfs_fuse<E, S, R, W, D>(env: &E, system: &S, streams: &mut Streams<R, W, D>) -> u8
where
    E: Env + AllocGlobal,
    S: Files + Clock,
    S::File: FileExt,
    R: Read,
    W: Write,
    D: Write,
    ensures { IsFuseEnd S S.Dir S.File.contents
        (R.remaining streams.old.stdin) (R.remaining streams.new.stdin)
        (W.contents streams.old.stdout) (W.contents streams.new.stdout)
        result streams.old.stdin streams.new.stdin streams.old.stdout streams.new.stdout
        streams.old.stderr streams.new.stderr }
{
    let alloc = env.alloc();
    let words = words(env);
    let asked = options_of(alloc, texts(&words));
    serve_asked(system, alloc, asked, streams)
}

/// Does what was asked for, or tells why that is nothing.
fn serve_asked<S, R, W, D>(
    system: &S,
    alloc: Global,
    asked: Result<Options<'_>, Error>,
    streams: &mut Streams<R, W, D>,
) -> u8
where
    S: Files + Clock,
    S::File: FileExt,
    R: Read,
    W: Write,
    D: Write,
    ensures mount { IfOk asked.entry (λ options. EndsMount S S.Dir S.File.contents options
        (R.remaining streams.old.stdin) (R.remaining streams.new.stdin)
        (W.contents streams.old.stdout) (W.contents streams.new.stdout)
        result streams.old.stdin streams.new.stdin streams.old.stdout streams.new.stdout
        streams.old.stderr streams.new.stderr) }
    ensures not_run { IfErr asked.entry (λ error. (streams.new.stdin ≡ streams.old.stdin)
        × EndsUnasked (kind_of error) result streams.old.stdout streams.new.stdout
        streams.old.stderr streams.new.stderr) }
{
    match asked {
        Ok(options) => run(system, alloc, &options, streams),
        Err(error) => refuse(&mut streams.stdout, &mut streams.stderr, NAME, &error),
    }
}

/// Answers messages of a kernel, or of a recording, and gives the status with which the program ends.
fn run<S, R, W, D>(
    system: &S,
    alloc: Global,
    options: &Options<'_>,
    streams: &mut Streams<R, W, D>,
) -> u8
where
    S: Files + Clock,
    S::File: FileExt,
    R: Read,
    W: Write,
    D: Write,
    ensures { EndsMount S S.Dir S.File.contents options.now
        (R.remaining streams.old.stdin) (R.remaining streams.new.stdin)
        (W.contents streams.old.stdout) (W.contents streams.new.stdout)
        result streams.old.stdin streams.new.stdin streams.old.stdout streams.new.stdout
        streams.old.stderr streams.new.stderr }
{
    if options.recorded {
        mount(Recording::new(), system, alloc, options, streams)
    } else {
        mount(System::of(alloc, system), system, alloc, options, streams)
    }
}

/// Answers messages in a world outside, over the kind of store that is asked for, and gives the status with which the
/// program ends.
fn mount<P, S, R, W, D>(
    outside: P,
    files: &S,
    alloc: Global,
    options: &Options<'_>,
    streams: &mut Streams<R, W, D>,
) -> u8
where
    P: Outside + Drop,
    S: Files,
    R: Read,
    W: Write,
    D: Write,
    ensures { EndsOver S.File.contents P.time P.groups options.now
        (R.remaining streams.old.stdin) (R.remaining streams.new.stdin)
        (W.contents streams.old.stdout) (W.contents streams.new.stdout)
        result streams.old.stdin streams.new.stdin streams.old.stdout streams.new.stdout
        streams.old.stderr streams.new.stderr }
{
    if options.serials {
        mount_over::<DurableStore, P, S, R, W, D>(outside, files, alloc, options, streams)
    } else {
        mount_over::<LogStore, P, S, R, W, D>(outside, files, alloc, options, streams)
    }
}

/// The same over a kind of store, which takes serials where they are asked for.
fn mount_over<F, P, S, R, W, D>(
    outside: P,
    files: &S,
    alloc: Global,
    options: &Options<'_>,
    streams: &mut Streams<R, W, D>,
) -> u8
where
    F: OverLog + Drop,
    P: Outside + Drop,
    S: Files,
    R: Read,
    W: Write,
    D: Write,
    requires { F.stand.takes options.now.serials }
    ensures { let kind = kind_with (server_of F.state F.is_flushed P.time P.groups) F.stand in
        EndsServing S.File.contents kind options.now
        (R.remaining streams.old.stdin) (R.remaining streams.new.stdin)
        (W.contents streams.old.stdout) (W.contents streams.new.stdout)
        result streams.old.stdin streams.new.stdin streams.old.stdout streams.new.stdout
        streams.old.stderr streams.new.stderr }
{
    match begin::<F, P, S>(outside, files, alloc, options) {
        Ok(served) => {
            let outcome = serve(served, files, alloc, options, streams);
            finish(&mut streams.stderr, outcome)
        }
        Err(fault) => finish(&mut streams.stderr, Err(fault)),
    }
}

/// A mount in a world outside, and the file of its journal, where one is asked for.
///
/// # Errors
///
/// Those of `mounted`, before a file is made; `Open`.
fn begin<F: OverLog + Drop, P: Outside + Drop, S: Files>(
    outside: P,
    files: &S,
    alloc: Global,
    options: &Options<'_>,
) -> Result<Served<F, P, S::File>, TalkFault>
    requires { F.stand.takes options.now.serials }
    ensures begun { let kind = kind_with (server_of F.state F.is_flushed P.time P.groups) F.stand in
        IfOk result (λ served. (first : Option (List ℕ))
        × BeginsServing S.File.contents kind options.now first served) }
    ensures fault { IfErr result (IsUnserved F.stand.refuses options.now) }
{
    let mut outside = outside;
    let now = outside.now();
    let mount = mounted(files, alloc, options, now)?;
    let file = open_journal(files, options.journal_out)?;
    let ledger = Ledger::new(alloc, file);
    let served = Served::new(mount, outside, ledger);
    Ok(served)
}

/// Answers messages on a mount, whose volume is kept behind them where a file is named for it, also where the talk had
/// a fault, or the file of its journal took no more.
fn serve<F, P, S, R, W, D>(
    served: Served<F, P, S::File>,
    files: &S,
    alloc: Global,
    options: &Options<'_>,
    streams: &mut Streams<R, W, D>,
) -> Result<Talked, TalkFault>
where
    F: OverLog + Drop,
    P: Outside + Drop,
    S: Files,
    R: Read,
    W: Write,
    D: Write,
    requires { let kind = kind_with (server_of F.state F.is_flushed P.time P.groups) F.stand in
        (first : Option (List ℕ)) × BeginsServing S.File.contents kind options.now first served }
    ensures served { let kind = kind_with (server_of F.state F.is_flushed P.time P.groups) F.stand in
        IfOk result (λ talked. HasServed S.File.contents kind options.now
        (R.remaining streams.old.stdin) (R.remaining streams.new.stdin)
        (W.contents streams.old.stdout) (W.contents streams.new.stdout)
        Partial talked.is_whole true true) }
    ensures silent { OnOk result (streams.new.stderr ≡ streams.old.stderr) }
    ensures broken { let kind = kind_with (server_of F.state F.is_flushed P.time P.groups) F.stand in
        IfErr result (IsBroken kind.stand.refuses options.now ⊥
        (HasServed S.File.contents kind options.now
        (R.remaining streams.old.stdin) (R.remaining streams.new.stdin)
        (W.contents streams.old.stdout) (W.contents streams.new.stdout))) }
{
    let Streams {
        stdin,
        stdout,
        stderr,
    } = streams;
    let mut served = served;
    let talked = talk(alloc, &mut served, stdin, stdout, stderr);
    let is_kept = served.is_open();
    let mut mount = served.into_mount();
    let saved = keep(files, alloc, &mut mount, options);
    let talked = talked?;
    saved?;
    if is_kept {
        Ok(talked)
    } else {
        Err(TalkFault::Journal)
    }
}

/// Tells how a talk ended, and gives the status: a reply that was not written is told, and is no fault of the talk.
fn finish<D: Write>(stderr: &mut D, outcome: Result<Talked, TalkFault>) -> u8
    ensures { MatchResult outcome
        (λ talked. (result ≡ 0) × (talked.is_whole ≡ true → stderr.new ≡ stderr.old))
        (λ fault. result ≡ status_of fault) }
{
    match outcome {
        Ok(talked) => {
            if !talked.is_whole {
                let _ = tell(stderr, NAME, &TalkFault::Reply);
            }
            0
        }
        // It was told when it came.
        Err(TalkFault::Journal) => 1,
        Err(fault) => {
            let _ = tell(stderr, NAME, &fault);
            status_of(fault)
        }
    }
}

/// The status of a mount that ended in a fault.
fn status_of(fault: TalkFault) -> u8
    ensures { result ≡ status_of fault }
{
    match fault {
        TalkFault::Open(_) => 2,
        _ => 1,
    }
}
