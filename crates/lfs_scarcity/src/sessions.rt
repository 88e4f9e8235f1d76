//! Sessions on threads: as a script is run, and as a library's caller serves and settles them.

ghost use Rattle.std.specs.Prelude.{◌≤◌, length};

use crate::told::tell_end;
use lfs_audit::fault::{RunFault, ThreadsFault};
use lfs_audit::print::append_answer;
use lfs_audit::script::parse_script;
use lfs_audit::threads::run_threads;
use lfs_io::read::read_script;
use lfs_logstore::LogStore;
use lfs_server::serve::serve;
use lfs_server::serving::Closed;
use lfs_server::settle::settle;
use lfs_types::answer::Answer;
use lfs_types::script::Script;
use lfs_types::store::{FileStore, Params};
use lfs_volume::volume::Volume;
use std::alloc::Global;
use std::io::{Read, Write};
use std::sync::Wait;
use std::thread::Threads;

/// The numbers of the volume.
const PARAMS: Params = Params {
    segments: 6,
    inodes: 64,
    frames: 32,
    journal: 4096,
};

/// The most bytes that are written, room for which is taken before the run.
const ROOM: usize = 16_384;

/// The most sessions of a run.
const SESSIONS_MAX: usize = 8;

/// Runs a script with its sessions on threads, over a writer whose room is taken before, and prints what was written
/// and how the run ended.
pub(crate) fn threads<S, R, W>(rt: &S, alloc: Global, reader: &mut R, writer: &mut W)
where
    S: Threads + Wait + Sync,
    R: Read,
    W: Write,
{
    let Ok(mut written) = Vec::with_capacity(alloc, ROOM) else {
        let _ = writer.write(b"no writer\n");
        return;
    };
    let outcome = match run_threads(rt, alloc, reader, &mut written, PARAMS) {
        Ok(()) => Ok(()),
        Err(undone) => Err(undone.fault()),
    };
    let _ = writer.write_all(written.as_slice());
    tell_end(writer, outcome);
}

/// Serves the sessions of a script, settles what they leave, and prints the answers.
pub(crate) fn serve_and_settle<S, R, W>(rt: &S, alloc: Global, reader: &mut R, writer: &mut W)
where
    S: Threads + Wait + Sync,
    R: Read,
    W: Write,
{
    let Ok(mut written) = Vec::with_capacity(alloc, ROOM) else {
        let _ = writer.write(b"no writer\n");
        return;
    };
    let outcome = serve_script(rt, alloc, reader, &mut written);
    let _ = writer.write_all(written.as_slice());
    tell_end(writer, outcome);
}

/// Serves a script's sessions, and appends the answers to a text, and then whether what the sessions leave is
/// settled with the same calls and answers. The script is parsed once more for that, as `serve` takes the calls.
fn serve_script<S, R>(
    rt: &S,
    alloc: Global,
    reader: &mut R,
    written: &mut Vec<u8>,
) -> Result<(), ThreadsFault>
where
    S: Threads + Wait + Sync,
    R: Read,
{
    let script = match read_script(alloc, reader) {
        Ok(script) => script,
        Err(fault) => return Err(ThreadsFault::Run(RunFault::from(fault))),
    };
    let closed = serve_calls(rt, alloc, script.as_slice())?;
    append_closed(alloc, script.as_slice(), &closed, written)
}

/// Serves the sessions of a script.
fn serve_calls<S>(rt: &S, alloc: Global, script: &[u8]) -> Result<Closed<LogStore>, ThreadsFault>
where
    S: Threads + Wait + Sync,
    requires { length script.now ≤ 1048576 }
{
    let (setup, scripts) = calls_of(alloc, script)?;
    Ok(serve(rt, alloc, PARAMS, setup, scripts, &())?)
}

/// The calls of the setup of a script, and those of each session.
fn calls_of(alloc: Global, script: &[u8]) -> Result<(Script, Vec<Script>), ThreadsFault>
    requires { length script.now ≤ 1048576 }
{
    let plan = match parse_script(alloc, script) {
        Ok(plan) => plan,
        Err(fault) => return Err(ThreadsFault::Run(RunFault::Script(fault))),
    };
    Ok(plan.split(alloc)?)
}

/// Appends the answers to the setup and to each session of a script, and whether they are settled.
fn append_closed<F: FileStore + Drop>(
    alloc: Global,
    script: &[u8],
    closed: &Closed<F>,
    out: &mut Vec<u8>,
) -> Result<(), ThreadsFault>
    requires { length script.now ≤ 1048576 }
{
    let (setup, scripts) = calls_of(alloc, script)?;
    let answers = closed.setup.as_slice();
    let transcripts = closed.transcripts.as_slice();
    append_transcripts(out, answers, transcripts)?;
    if is_settled(
        &closed.volume,
        &setup,
        answers,
        scripts.as_slice(),
        transcripts,
    ) {
        append(out, b"settled\n")?;
    }
    Ok(())
}

/// Appends the lines of the answers to the setup and to each session.
fn append_transcripts(
    out: &mut Vec<u8>,
    answers: &[Answer],
    transcripts: &[Vec<Answer>],
) -> Result<(), RunFault> {
    append_answers(out, 0, answers)?;
    let mut session = 0u8;
    for transcript in transcripts {
        session = session.saturating_add(1);
        append_answers(out, session, transcript.as_slice())?;
    }
    Ok(())
}

/// Appends the lines of answers to a session.
fn append_answers(out: &mut Vec<u8>, session: u8, answers: &[Answer]) -> Result<(), RunFault> {
    for answer in answers {
        append_answer(out, session, answer)?;
    }
    Ok(())
}

/// Appends bytes to a text.
fn append(out: &mut Vec<u8>, bytes: &[u8]) -> Result<(), RunFault> {
    out.extend_from_slice(bytes)?;
    Ok(())
}

/// Whether a volume's journal is an interleaving of what was asked and answered.
fn is_settled<F: FileStore + Drop>(
    volume: &Volume<F>,
    setup: &Script,
    answers: &[Answer],
    scripts: &[Script],
    transcripts: &[Vec<Answer>],
) -> bool {
    if scripts.len() > SESSIONS_MAX || transcripts.len() > SESSIONS_MAX {
        return false;
    }
    settle(volume, setup, answers, scripts, transcripts).is_ok()
}
