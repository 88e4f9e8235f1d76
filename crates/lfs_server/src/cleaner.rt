//! The cleaner: a pass for each ring of its doorbell, each call as one holding of the lock on the volume.

use crate::doorbell::Rings;
use crate::gate::{Gate, Turns};
use crate::kept::{Kept, Sizes};
use crate::run::Run;
use lfs_cleaner::pass::Pass;
use lfs_model::journal::CleanerAnswer;
use lfs_settle::entries::CLEANER;
use lfs_types::cleaned::CleanedStore;
use lfs_types::cleaner::CleanerCall;
use std::sync::atomic::Ordering;
use std::sync::{Mutex, Wait};

/// Makes a pass for each ring, until all buttons of the doorbell are gone and the rings left are served.
pub fn run_cleaner<S: Sizes<F>, R: Wait, F: CleanedStore + Drop, G: Gate>(
    run: &Run<'_, R, G>,
    volume: &Mutex<Kept<S, F>>,
    rings: &Rings,
) {
    let mut turns = Turns::new(CLEANER);
    for _ in run.rt.forever() {
        if !rings.wait(run.rt) {
            break;
        }
        run_pass(run, volume, &mut turns);
    }
}

/// Makes the calls of one pass; where it ended in a fault, room is looked for by one more.
fn run_pass<S: Sizes<F>, R: Wait, F: CleanedStore + Drop, G: Gate>(
    run: &Run<'_, R, G>,
    volume: &Mutex<Kept<S, F>>,
    turns: &mut Turns,
) {
    let mut pass = Pass::new();
    let mut last = None;
    while let Some(call) = pass.next(last.as_ref()) {
        let answer = turns.pass(run.gate, || clean(run, volume, call));
        last = Some(answer);
    }
    if let Some(CleanerAnswer::Fault(_)) = last {
        turns.pass(run.gate, || clean(run, volume, CleanerCall::Gain));
    }
}

/// Makes a call once it has the lock. Until then no session goes on in a holding of its own.
fn clean<S: Sizes<F>, R: Wait, F: CleanedStore + Drop, G>(
    run: &Run<'_, R, G>,
    volume: &Mutex<Kept<S, F>>,
    call: CleanerCall,
) -> CleanerAnswer {
    run.is_awaited.store(true, Ordering::SeqCst);
    let mut volume = volume.lock(run.rt);
    run.is_awaited.store(false, Ordering::SeqCst);
    volume.clean(call)
}
