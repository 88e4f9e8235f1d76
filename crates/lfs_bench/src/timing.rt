//! The time that calls take.

use crate::measure::Measure;
use crate::playing::{Server, answers_to, counts_of, play};
use anyhow::Result;
use lfs_workloads::calls::{Call, calls_of};
use lfs_workloads::scale::Scale;
use lfs_workloads::series::Series;
use std::alloc::Global;
use std::rt::Clock;
use std::time::Instant;

/// Makes the tree on which calls are timed.
pub(crate) fn make_tree<S: Server>(alloc: Global, server: &mut S, scale: &Scale) -> Result<()> {
    play(server, calls_of(alloc, scale, &Series::TREE)?).all_served()
}

/// Makes the tree, and times the calls behind it.
pub(crate) fn time_series<R: Clock + AllocGlobal, S: Server>(
    rt: &R,
    server: &mut S,
    scale: &Scale,
    series: Series,
) -> Result<Measure> {
    make_tree(rt.alloc(), server, scale)?;
    time_calls(rt, server, calls_of(rt.alloc(), scale, &[series])?)
}

/// Times calls that are made one after another, and whose answers are counted.
pub(crate) fn time_calls<R: Clock, S: Server>(
    rt: &R,
    server: &mut S,
    calls: Vec<Call>,
) -> Result<Measure> {
    let start = Instant::now(rt);
    let counts = play(server, calls);
    Measure::since(rt, start?, counts)
}

/// Times calls that are made of copies, and whose answers are kept.
pub(crate) fn time_answers<R: Clock + AllocGlobal, S: Server>(
    rt: &R,
    server: &mut S,
    calls: &[Call],
) -> Result<Measure> {
    let start = Instant::now(rt)?;
    let answers = answers_to(rt.alloc(), server, calls)?;
    let end = start.elapsed(rt);
    let counts = counts_of(answers);
    let seconds = end?.as_secs_f64();
    Ok(Measure { counts, seconds })
}
