//! Volumes over both stores, and runs of calls and of steps on them.

use crate::asked::{Asked, calls};
use crate::looking::{Looked, tell_answer};
use crate::told::{kept, on_the_way, told};
use lfs_audit::fault::RunFault;
use lfs_cleaner::wanting::superuser;
use lfs_logstore::LogStore;
use lfs_model::journal::Call;
use lfs_model::steps::{Act, Step};
use lfs_server::fresh::fresh_volume;
use lfs_types::answer::Answer;
use lfs_types::cleaner::CleanerCall;
use lfs_types::store::{FileStore, Params};
use lfs_volume::flat_files::FlatFiles;
use lfs_volume::volume::Volume;
use std::alloc::Global;
use std::io::Write;

/// The least numbers of a volume, with room in the journal for what is done here.
const LEAST: Params = Params {
    segments: 6,
    inodes: 16,
    frames: 32,
    journal: 256,
};

/// The lines that look at a volume.
const LOOKS: &[&str] = &["stat /\n"];

/// A volume over the plain store.
fn new_plain(alloc: Global) -> Result<Volume<FlatFiles>, RunFault> {
    let files = match FlatFiles::new(alloc, LEAST.inodes) {
        Ok(files) => files,
        Err(fault) => return Err(RunFault::Format(fault)),
    };
    Ok(Volume::new(alloc, files, LEAST.journal)?)
}

/// A volume over the plain store at which these lines look, asked for once more where memory was refused.
pub(crate) fn plain<W: Write>(
    alloc: Global,
    writer: &mut W,
    lines: &'static [&'static str],
) -> Option<Looked<FlatFiles>> {
    let first = kept(writer, "plain-volume", new_plain(alloc));
    let volume = match first {
        Some(volume) => volume,
        None => kept(writer, "plain-volume", new_plain(alloc))?,
    };
    Some(Looked::new(volume, lines))
}

/// The same over the log store.
pub(crate) fn log<W: Write>(
    alloc: Global,
    writer: &mut W,
    lines: &'static [&'static str],
) -> Option<Looked<LogStore>> {
    let first = kept(writer, "log-volume", fresh_volume(alloc, LEAST));
    let volume = match first {
        Some(volume) => volume,
        None => kept(writer, "log-volume", fresh_volume(alloc, LEAST))?,
    };
    Some(Looked::new(volume, lines))
}

/// Volumes over both stores are made, and runs on them.
pub(crate) fn volumes<W: Write>(alloc: Global, writer: &mut W) {
    if let Some(mut looked) = plain(alloc, writer, LOOKS) {
        run(alloc, writer, &mut looked, "stat /\nsync\n");
    }
    if let Some(mut looked) = log(alloc, writer, LOOKS) {
        run(alloc, writer, &mut looked, CHANGES);
        run_steps(alloc, writer, &mut looked);
    }
}

/// Calls that take no memory over a log.
const CHANGES: &str = "create /a 0644\nwrite /a at 0 616263\nstat /a\nsync\n";

/// Runs the calls of a script, and looks; once more where memory was refused.
fn run<F: FileStore + Drop, W: Write>(
    alloc: Global,
    writer: &mut W,
    looked: &mut Looked<F>,
    script: &str,
) {
    looked.look(alloc, writer);
    for _ in 0..2 {
        let Some(asked) = made(alloc, writer, script) else {
            return;
        };
        let answers = kept(writer, "run", looked.volume.run(asked));
        if let Some(answers) = &answers {
            tell_answers(writer, answers.as_slice());
        }
        looked.look(alloc, writer);
        if answers.is_some() {
            return;
        }
    }
}

/// Writes what each call of a run was answered.
fn tell_answers<W: Write>(writer: &mut W, answers: &[Answer]) {
    for answer in answers {
        tell_answer(writer, "of-run", answer);
    }
}

/// The calls of a script as a run takes them, asked for once more where memory was refused.
fn made<W: Write>(alloc: Global, writer: &mut W, script: &str) -> Option<Vec<Call>> {
    for _ in 0..2 {
        let asked = calls(alloc, writer, script)?;
        if let Some(made) = on_the_way(writer, "calls", run_calls(alloc, asked)) {
            return Some(made);
        }
    }
    None
}

/// Calls as a run takes them.
fn run_calls(alloc: Global, asked: Vec<Asked>) -> Result<Vec<Call>, RunFault> {
    let mut made = Vec::with_capacity(alloc, asked.len())?;
    for (session, cred, request) in asked {
        made.push(Call {
            session,
            cred,
            request,
        })?;
    }
    Ok(made)
}

/// Runs two steps, the second of which is the cleaner's, and looks; once more where memory was refused.
fn run_steps<W: Write>(alloc: Global, writer: &mut W, looked: &mut Looked<LogStore>) {
    for _ in 0..2 {
        let Some(asked) = calls(alloc, writer, "stat /a\n") else {
            return;
        };
        let Some(steps) = on_the_way(writer, "calls", two_steps(alloc, asked)) else {
            continue;
        };
        let is_refused = told(writer, "run-steps", looked.volume.run_steps(steps));
        looked.look(alloc, writer);
        if !is_refused {
            return;
        }
    }
}

/// These calls as steps, and one of the cleaner's.
fn two_steps(alloc: Global, asked: Vec<Asked>) -> Result<Vec<Step>, RunFault> {
    let mut steps = Vec::with_capacity(alloc, 2)?;
    for (session, cred, request) in asked {
        let act = Act::User(request);
        steps.push(Step { session, cred, act })?;
    }
    steps.push(Step {
        session: 0,
        cred: superuser(),
        act: Act::Cleaner(CleanerCall::Segclean(0)),
    })?;
    Ok(steps)
}
