//! Runs of steps, each with the answer that it must have.

mod children;
mod cleaning;
mod invented;
mod large;
mod run_steps_rows;
mod threads;
mod waiting;

use crate::tests::{DEFAULTS, expect_lines, fresh, plan_of};
use lfs_logstore::LogStore;
use lfs_print::print::{append_answer, append_cleaner};
use lfs_script::plan;
use lfs_volume::journal::{CleanerAnswer, CleanerKind};
use lfs_volume::steps::{Act, Step, StepAnswer};
use lfs_volume::volume::Volume;
use std::alloc::Global;
use std::io::Write;
use std::process::Abort;

/// The steps that a script asks for, without its passes.
fn steps(rt: &impl Abort, alloc: Global, script: &str) -> Vec<Step> {
    let mut steps = Vec::new(alloc);
    for line in plan_of(rt, alloc, script).into_steps() {
        let plan::Step { session, cred, act } = line;
        let act = match act {
            plan::Act::User(request) => Act::User(request),
            plan::Act::Cleaner(call) => Act::Cleaner(call.into_call()),
            plan::Act::Pass => continue,
        };
        let step = Step { session, cred, act };
        steps.push(step).expect(rt, "memory");
    }
    steps
}

/// Appends the line of the answer to a cleaner's step of session 3: as its value is, and of an ifile only how many bytes it
/// has.
fn append_cleaned(rt: &impl Abort, text: &mut Vec<u8>, answer: &CleanerAnswer) {
    match answer {
        CleanerAnswer::Ifile(_) => {
            append_cleaner(text, 3, CleanerKind::Ifile, answer).expect(rt, "memory")
        }
        _ => writeln!(text, "3 {answer:?}").expect(rt, "memory"),
    }
}

/// Appends the lines of the answers to steps of session 3: a user's as it is printed, a cleaner's as above.
fn append_told(rt: &impl Abort, text: &mut Vec<u8>, answers: &[StepAnswer]) {
    for answer in answers {
        match answer {
            StepAnswer::User(answer) => append_answer(text, 3, answer).expect(rt, "memory"),
            StepAnswer::Cleaner(answer) => append_cleaned(rt, text, answer),
        }
    }
}

/// Makes the lines of a script in one run, and asserts that the answers have these lines.
fn run(rt: &impl Abort, alloc: Global, volume: &mut Volume<LogStore>, script: &str, wanted: &str) {
    let answers = volume
        .run_steps(steps(rt, alloc, script))
        .expect(rt, "a run");
    let mut text = Vec::new(alloc);
    append_told(rt, &mut text, answers.as_slice());
    expect_lines(rt, text.as_slice(), wanted);
}

/// Makes the lines of a script on a fresh volume.
fn run_fresh(rt: &impl Abort, alloc: Global, script: &str, wanted: &str) {
    let mut volume = fresh(rt, alloc, DEFAULTS);
    run(rt, alloc, &mut volume, script, wanted);
}
