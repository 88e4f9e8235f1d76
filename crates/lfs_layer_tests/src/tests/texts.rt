//! What values are taken, what rules print, that copies are equal; worked scripts and their first faults, the texts of answers and calls,
//! and the report.

mod answers;
mod calls;
mod cleaner;
mod faults;
mod names;
mod plans;
mod rules;
mod spelling;
mod values;

use lfs_script::plan::{Plan, Step};
use std::alloc::Global;
use std::process::Abort;

/// A text that begins so and goes on with this part, so many times.
fn repeated(rt: &impl Abort, alloc: Global, before: &str, part: &str, times: u32) -> String {
    let mut text = String::from_str(alloc, before).expect(rt, "memory");
    for _ in 0..times {
        text.push_str(part).expect(rt, "memory");
    }
    text
}

/// The steps of a plan.
fn steps_of(rt: &impl Abort, alloc: Global, plan: Plan) -> Vec<Step> {
    let mut steps = Vec::new(alloc);
    for step in plan.into_steps() {
        steps.push(step).expect(rt, "memory");
    }
    steps
}
