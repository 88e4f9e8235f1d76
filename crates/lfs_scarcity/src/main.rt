//! Does one thing after so many allocations as its first line says, and prints what came of it: for runs in which
//! one allocation fails. The first line is `SPEND WORD`; the script that a word wants that runs or parses one stands
//! behind it. Nothing here knows which allocation fails. Where a call is refused for want of memory it is made
//! again.
#![tactic(auto)]

mod asked;
mod formats;
mod looking;
mod parses;
mod sessions;
mod shows;
mod texts;
mod told;
mod volumes;
mod word;

use lfs_audit::run::run_script;
use lfs_types::store::Params;
use std::alloc::{AllocError, Global};
use std::io::{Read, Write};
use std::process::ExitCode;
use std::sync::Wait;
use std::thread::Threads;
use told::tell_end;
use word::{Word, first_line};

/// The numbers of the volume.
const PARAMS: Params = Params {
    segments: 6,
    inodes: 64,
    frames: 32,
    journal: 64,
};

/// The most allocations that are spent: that many fit the vector that keeps them.
const SPEND_MAX: u32 = 4_096;

fn main(rt: HostRuntime) -> ExitCode {
    let alloc = rt.alloc();
    let mut stdin = rt.stdin();
    let mut stdout = rt.stdout();
    let Some((count, word)) = first_line(&mut stdin) else {
        let _ = stdout.write(b"no word\n");
        return ExitCode::from(2);
    };
    let Ok(kept) = spend(alloc, count) else {
        let _ = stdout.write(b"spent\n");
        return ExitCode::from(3);
    };
    do_word(&rt, alloc, word, &mut stdin, &mut stdout);
    drop(kept);
    ExitCode::SUCCESS
}

/// So many allocations, 4,096 at most, in a vector whose room is taken before.
fn spend(alloc: Global, count: u32) -> Result<Vec<Vec<u8>>, AllocError> {
    let mut kept = Vec::with_capacity(alloc, SPEND_MAX as usize)?;
    for _ in 0..count.min(SPEND_MAX) {
        let one = Vec::with_capacity(alloc, 16)?;
        kept.push(one)?;
    }
    Ok(kept)
}

/// Does what a word says.
fn do_word<S, R, W>(rt: &S, alloc: Global, word: Word, reader: &mut R, writer: &mut W)
where
    S: Threads + Wait + Sync,
    R: Read,
    W: Write,
{
    match word {
        Word::Run => run(alloc, reader, writer),
        Word::Threads => sessions::threads(rt, alloc, reader, writer),
        Word::Serve => sessions::serve_and_settle(rt, alloc, reader, writer),
        Word::Frames => formats::frames(alloc, writer),
        Word::Cache => formats::cache(alloc, writer),
        Word::Formats => formats::formats(alloc, writer),
        Word::Opens => formats::opens(alloc, writer),
        Word::Names => parses::names(alloc, writer),
        Word::Paths => parses::paths(alloc, writer),
        Word::Script => parses::script(alloc, reader, writer),
        Word::Copies => texts::copies(alloc, writer),
        Word::Volume => volumes::volumes(alloc, writer),
        Word::Shows => shows::shows(alloc, writer),
        Word::Plain => shows::changes(alloc, writer),
        Word::Texts => texts::texts(alloc, writer),
    }
}

/// Runs a script over a writer whose room is taken before, and prints what was written and how the run ended.
fn run<R: Read, W: Write>(alloc: Global, reader: &mut R, writer: &mut W) {
    let Ok(mut written) = Vec::with_capacity(alloc, 4_096) else {
        let _ = writer.write(b"no writer\n");
        return;
    };
    let outcome = run_script(alloc, reader, &mut written, PARAMS);
    let _ = writer.write_all(written.as_slice());
    tell_end(writer, outcome);
}
