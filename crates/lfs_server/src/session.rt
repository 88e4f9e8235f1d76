//! A session: its calls, one after another, some of them in one holding of the lock on the volume.

ghost use Rattle.std.specs.Prelude.{◌<◌, OnOk, length};

use crate::batch::{Batch, MOST_CALLS};
use crate::doorbell::Button;
use crate::gate::Gate;
use crate::kept::{Kept, Sizes};
use crate::run::Run;
use lfs_types::answer::Answer;
use lfs_types::script::Script;
use lfs_types::store::FileStore;
use std::alloc::{AllocError, Global};
use std::sync::{Mutex, Wait};

/// A session that is to be run.
#[derive(Drop)]
pub struct Session<'a> {
    /// Its number, 1 to 8.
    pub number: u8,
    /// What it calls.
    pub script: &'a Script,
    /// With which it calls the cleaner.
    pub button: Button,
    /// Where its answers go.
    pub answers: Vec<Answer>,
}

impl<'a> Session<'a> {
    /// A session with a button of its own, and with room for its answers.
    pub fn new(
        number: u8,
        alloc: Global,
        script: &'a Script,
        button: &Button,
    ) -> Result<Session<'a>, AllocError> {
        let button = button.try_clone()?;
        let answers = Vec::with_capacity(alloc, script.as_slice().len())?;
        Ok(Session {
            number,
            script,
            button,
            answers,
        })
    }
}

/// Makes the calls of a session, each of a copy of what its script asks, and gives the answers. It ends where a copy
/// finds no memory.
pub fn run_session<S: Sizes<F>, R: Wait, F: FileStore + Drop, G: Gate>(
    run: &Run<'_, R, G>,
    volume: &Mutex<Kept<S, F>>,
    session: Session<'_>,
) -> Result<Vec<Answer>, AllocError> {
    let Session {
        number,
        script,
        button,
        answers,
    } = session;
    let mut batch = Batch::new(number, run.alloc, answers)?;
    for lines in script.as_slice().chunks(MOST_CALLS) {
        batch.take(run.alloc, lines)?;
        make_calls(run, volume, &button, &mut batch)?;
    }
    Ok(batch.answers)
}

/// Makes the next calls of a session, and rings for the cleaner behind each that wants it.
fn make_calls<S: Sizes<F>, R: Wait, F: FileStore + Drop, G: Gate>(
    run: &Run<'_, R, G>,
    volume: &Mutex<Kept<S, F>>,
    button: &Button,
    batch: &mut Batch,
) -> Result<(), AllocError> {
    while !batch.calls.is_empty() {
        if hold(run, volume, batch)? {
            button.ring(run.rt);
        }
    }
    Ok(())
}

/// Makes the next calls of a session in one holding of the lock, between the two halves of the gate, and says whether
/// the cleaner is wanted.
fn hold<S: Sizes<F>, R: Wait, F: FileStore + Drop, G: Gate>(
    run: &Run<'_, R, G>,
    volume: &Mutex<Kept<S, F>>,
    batch: &mut Batch,
) -> Result<bool, AllocError>
    ensures { OnOk result (0 < length batch.old.calls.items
        → length batch.new.calls.items < length batch.old.calls.items) }
{
    let (session, first) = batch.turns.next();
    run.gate.before(session, first);
    let wants_cleaner = volume.lock(run.rt).call_each(run, batch)?;
    let (_, last) = batch.turns.next();
    run.gate.after(session, last);
    batch.turns.step();
    Ok(wants_cleaner)
}
