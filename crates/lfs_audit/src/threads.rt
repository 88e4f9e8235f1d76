//! Running a script with its sessions on threads.

ghost use Rattle.std.specs.Prelude.{◌≡◌, ◌≤◌, ℕ, List, None, Option, length, map, IfErr, IfOk, IfSome, OnOk};
ghost use Rattle.std.specs.Global.{Vec};
ghost use Rattle.std.specs.Io.KnownBytes.{Appends, Keeps, append_known};
ghost use Rattle.lfs_types.specs.declared.answer.Answer.{Answer};
ghost use Rattle.lfs_model.specs.declared.journal.Entry.{Entry};
ghost use Rattle.lfs_audit.specs.Faults.{MayHaveWritten};
ghost use Rattle.lfs_audit.specs.FiledRuns.{IsFiledThreads};
ghost use Rattle.lfs_audit.specs.Filing.{Takes};
ghost use Rattle.lfs_audit.specs.Threads.{IsClosedText, IsSplit, IsSplittingFault, IsThreadsFault, IsThreadsOutput, MayHaveWrittenThreads, answers_of, transcript_text, transcripts_text};
ghost use Rattle.lfs_audit.specs.Undone.{IsUnsettledRun, IsUnsettledScript, NamesUndone, why};
ghost use Rattle.lfs_sinks.specs.Refusals.{refusals_of};

use crate::fault::{RunFault, ThreadsFault};
use crate::run::{print_report, read_plan};
use crate::undone::Undone;
use lfs_io::output::write_full;
use lfs_logstore::LogStore;
use lfs_model::journal::Entry;
use lfs_print::print::append_answer;
use lfs_server::serve::serve;
use lfs_server::serving::Closed;
use lfs_sinks::refusals::Refusals;
use lfs_sinks::sink::{JournalSink, SinkFault};
use lfs_types::answer::Answer;
use lfs_types::cleaned::CleanedStore;
use lfs_types::script::Script;
use lfs_types::store::Params;
use std::alloc::Global;
use std::io::{Read, Write};
use std::sync::Wait;
use std::thread::Threads;

/// Sessions that are run on a fresh volume, all but session 0 on threads.
#[derive(Drop)]
pub struct SessionPlan {
    /// The parameters of the volume.
    pub params: Params,
    /// The calls of session 0.
    pub setup: Script,
    /// The calls of each other session, session 1's first.
    pub scripts: Vec<Script>,
}

/// Reads a script whole, parses it whole, runs the calls of session 0 and then those of the other sessions on threads,
/// with the cleaner beside them, on a fresh volume over the log store, and writes the setup's answers, each session's
/// in turn, and the report. Sessions that are not settled are handed out with what they left.
pub fn run_threads<S, R, W>(
    rt: &S,
    alloc: Global,
    reader: &mut R,
    writer: &mut W,
    params: Params,
) -> Result<(), Undone<Closed<LogStore>>>
where
    S: Threads + Wait + Sync,
    R: Read,
    W: Write,
    ensures written { OnOk result (IfSome (R.remaining reader.old) (λ script. (text : List ℕ)
        × IsThreadsOutput script params.segments params.inodes params.journal text
        × Appends (W.contents writer.old) (W.contents writer.new) text)) }
    ensures fault { IfErr result (λ undone. IsThreadsFault (R.remaining reader.old)
        params.segments params.inodes params.frames (why undone)) }
    ensures unsettled { IfErr result (NamesUndone (λ session closed. IsUnsettledScript
        (R.remaining reader.old) params.segments params.inodes params.journal
        closed.volume closed.setup.items closed.transcripts.items session)) }
    ensures unwritten { IfErr result (λ undone. (MayHaveWrittenThreads (why undone) → ⊥)
        → Keeps (W.contents writer.old) (W.contents writer.new)) }
{
    let mut faulty = Vec::new(alloc);
    run_threads_noting(rt, alloc, reader, writer, params, &mut faulty)
}

/// Does what `run_threads` does, and puts the first line that has a fault into `faulty`, as `read_plan` does.
pub fn run_threads_noting<S, R, W>(
    rt: &S,
    alloc: Global,
    reader: &mut R,
    writer: &mut W,
    params: Params,
    faulty: &mut Vec<u8>,
) -> Result<(), Undone<Closed<LogStore>>>
where
    S: Threads + Wait + Sync,
    R: Read,
    W: Write,
    ensures written { OnOk result (IfSome (R.remaining reader.old) (λ script. (text : List ℕ)
        × IsThreadsOutput script params.segments params.inodes params.journal text
        × Appends (W.contents writer.old) (W.contents writer.new) text)) }
    ensures fault { IfErr result (λ undone. IsThreadsFault (R.remaining reader.old)
        params.segments params.inodes params.frames (why undone)) }
    ensures unsettled { IfErr result (NamesUndone (λ session closed. IsUnsettledScript
        (R.remaining reader.old) params.segments params.inodes params.journal
        closed.volume closed.setup.items closed.transcripts.items session)) }
    ensures unwritten { IfErr result (λ undone. (MayHaveWrittenThreads (why undone) → ⊥)
        → Keeps (W.contents writer.old) (W.contents writer.new)) }
{
    let (setup, sessions) = read_sessions(alloc, reader, faulty)?;
    let closed = serve(rt, alloc, params, setup, sessions, &())?;
    print_closed(alloc, &closed, writer)?;
    Ok(())
}

/// Runs the calls of session 0 and then those of the other sessions on threads, as `run_threads` does, gives a sink all
/// entries, and then writes what that does. Why the sink didn't take all, if it didn't. Sessions that are not settled
/// are handed out with what they left.
pub fn run_sessions<S, J, W>(
    rt: &S,
    alloc: Global,
    sessions: SessionPlan,
    sink: &mut J,
    writer: &mut W,
) -> Result<Option<SinkFault>, Undone<Closed<LogStore>>>
where
    S: Threads + Wait + Sync,
    J: JournalSink,
    W: Write,
    ensures written { let p = sessions.params in
        IfOk result (λ lost. (text : List ℕ) × (entries : List Entry)
        × ((known : Option (List ℕ))
        → IfSome known (λ script. IsSplit script sessions.setup sessions.scripts.items)
        → IfSome known (λ script.
        IsFiledThreads script p.segments p.inodes p.journal entries text))
        × Appends (W.contents writer.old) (W.contents writer.new) text
        × (lost ≡ None → Takes J.contents J.next sink.old sink.new entries)) }
    ensures fault { let p = sessions.params in IfErr result (λ undone. (known : Option (List ℕ))
        → IfSome known (λ script. IsSplit script sessions.setup sessions.scripts.items)
        → IsThreadsFault known p.segments p.inodes p.frames (why undone)) }
    ensures unsettled { let p = sessions.params in
        IfErr result (NamesUndone (λ session closed. IsUnsettledRun
        sessions.setup sessions.scripts.items p.segments p.inodes p.journal
        closed.volume closed.setup.items closed.transcripts.items session)) }
    ensures unwritten { IfErr result (λ undone. (MayHaveWrittenThreads (why undone) → ⊥)
        → Keeps (W.contents writer.old) (W.contents writer.new)) }
{
    let SessionPlan {
        params,
        setup,
        scripts,
    } = sessions;
    let closed = serve(rt, alloc, params, setup, scripts, &())?;
    let lost = give(sink, closed.volume.journal());
    print_closed(alloc, &closed, writer)?;
    Ok(lost)
}

/// Gives a sink entries. Why it didn't take them, if it didn't.
fn give<J: JournalSink>(sink: &mut J, entries: &[Entry]) -> Option<SinkFault>
    ensures { result ≡ None → Takes J.contents J.next sink.old sink.new entries.now }
{
    match sink.take(entries) {
        Ok(()) => None,
        Err(fault) => Some(fault),
    }
}

/// Reads a script whole, and gives the calls of session 0 and those of each other session. The first line that has a
/// fault is put into `faulty`, as `read_plan` does.
pub fn read_sessions<R: Read>(
    alloc: Global,
    reader: &mut R,
    faulty: &mut Vec<u8>,
) -> Result<(Script, Vec<Script>), ThreadsFault>
    ensures split { IfSome (R.remaining reader.old) (λ script.
        IfOk result (λ both. IsSplit script both.0 both.1.items)) }
    ensures fault { IfErr result (IsSplittingFault (R.remaining reader.old)) }
{
    let plan = read_plan(alloc, reader, faulty)?;
    Ok(plan.split(alloc)?)
}

/// Writes the answers of the setup, those of each session in turn, and the report. A fault is one after which something
/// may have been written.
fn print_closed<F: CleanedStore + Drop, W: Write>(
    alloc: Global,
    closed: &Closed<F>,
    writer: &mut W,
) -> Result<(), ThreadsFault>
    requires { length closed.now.transcripts.items ≤ 8 }
    ensures written { OnOk result
        (IsClosedText closed.now.volume.journal
        closed.now.setup.items closed.now.transcripts.items
        (W.contents writer.old) (W.contents writer.new)) }
    ensures fault { IfErr result MayHaveWrittenThreads }
{
    let mut text = Vec::new(alloc);
    print_transcript(writer, &mut text, 0, closed.setup.as_slice())?;
    print_transcripts(writer, &mut text, closed.transcripts.as_slice())?;
    let refusals = refusals_of(closed.setup.as_slice(), closed.transcripts.as_slice());
    print_report(&closed.volume, &refusals, &mut text, writer)?;
    Ok(())
}

/// How many of the answers to the setup and to the sessions are refusals of which no entry tells.
fn refusals_of(setup: &[Answer], transcripts: &[Vec<Answer>]) -> Refusals
    ensures { result ≡ refusals_of (answers_of setup.now
        (map (λ (transcript : Vec Answer). transcript.items) transcripts.now)) }
{
    let mut refusals = Refusals::none();
    refusals.add_answers(setup);
    for transcript in transcripts {
        refusals.add_answers(transcript.as_slice());
    }
    refusals
}

/// Adds the lines of the sessions' answers to a text, session 1's first, which is written piece by piece.
fn print_transcripts<W: Write>(
    writer: &mut W,
    text: &mut Vec<u8>,
    transcripts: &[Vec<Answer>],
) -> Result<(), RunFault>
    requires { length transcripts.now ≤ 8 }
    ensures written { OnOk result (Appends (append_known (W.contents writer.old) text.old.items)
        (append_known (W.contents writer.new) text.new.items)
        (transcripts_text 1
        (map (λ (transcript : Vec Answer). transcript.items) transcripts.now))) }
    ensures fault { IfErr result MayHaveWritten }
{
    for index in 0..transcripts.len() {
        let session = index as u8 + 1;
        print_transcript(writer, text, session, transcripts[index].as_slice())?;
    }
    Ok(())
}

/// Adds the lines of a session's answers to a text, which is written piece by piece.
fn print_transcript<W: Write>(
    writer: &mut W,
    text: &mut Vec<u8>,
    session: u8,
    answers: &[Answer],
) -> Result<(), RunFault>
    ensures written { OnOk result (Appends (append_known (W.contents writer.old) text.old.items)
        (append_known (W.contents writer.new) text.new.items)
        (transcript_text session answers.now)) }
    ensures fault { IfErr result MayHaveWritten }
{
    for answer in answers {
        append_answer(text, session, answer)?;
        write_full(writer, text)?;
    }
    Ok(())
}
