//! Runs of users' calls on a volume over a log, with a cleaner that keeps segments clean.

use crate::measure::Measure;
use crate::playing::Server;
use crate::store::{SESSION, log_volume};
use crate::timing::{make_tree, time_answers, time_calls};
use anyhow::{Result, bail};
use lfs_server::pass::Pass;
use lfs_settle::entries::CLEANER;
use lfs_types::answer::Answer;
use lfs_types::cleaned::CleanedStore;
use lfs_types::cred::Cred;
use lfs_volume::volume::Volume;
use lfs_workloads::calls::{Call, calls_of};
use lfs_workloads::scale::Scale;
use lfs_workloads::series::Series;
use std::rt::Clock;
use std::time::Instant;

/// How many clean segments are few, so that a pass of the cleaner goes before the next call.
const FEW: u32 = 3;

/// How many calls a pass may make.
const PASS_CALLS: u32 = 105;

/// How calls are timed.
#[derive(Clone, Copy)]
pub(crate) enum Way {
    /// The time is that of the users' calls and the passes between them.
    Timed,
    /// The time is that of the users' calls alone.
    Untimed,
    /// The time is that of the users' calls and the passes between them. A call is made of a copy, and its answer is
    /// kept, as a session on a thread does.
    Kept,
}

/// A volume with a cleaner beside it: a pass goes before each call that finds few clean segments.
#[derive(Drop)]
struct Cleaned<'a, R, F: CleanedStore + Drop> {
    /// What tells the time.
    rt: &'a R,
    /// The volume.
    volume: Volume<F>,
    /// How many seconds the passes took; nothing where the clock failed.
    passes: Option<f64>,
}

impl<R: Clock, F: CleanedStore + Drop> Server for Cleaned<'_, R, F> {
    fn answer(&mut self, call: Call) -> Answer {
        self.passes = with_pass(self.rt, &mut self.volume, self.passes);
        let (cred, request) = call;
        self.volume.call(SESSION, &cred, request)
    }
}

/// Runs a series of calls over a log. A pass of the cleaner goes before each call that finds few clean segments.
pub(crate) fn run_cleaned<R: Clock + AllocGlobal>(
    rt: &R,
    scale: &Scale,
    series: Series,
    way: Way,
) -> Result<Measure> {
    let volume = log_volume(rt.alloc(), scale, series.count(scale))?;
    time_over(rt, volume, scale, series, way)
}

/// Times a series of calls over a volume with a cleaner beside it.
fn time_over<R: Clock + AllocGlobal, F: CleanedStore + Drop>(
    rt: &R,
    volume: Volume<F>,
    scale: &Scale,
    series: Series,
    way: Way,
) -> Result<Measure> {
    let passes = Some(0.0);
    let mut server = Cleaned { rt, volume, passes };
    time_cleaned(rt, &mut server, scale, series, way)
}

/// Makes the tree, and times the calls behind it.
fn time_cleaned<R: Clock + AllocGlobal, F: CleanedStore + Drop>(
    rt: &R,
    server: &mut Cleaned<'_, R, F>,
    scale: &Scale,
    series: Series,
    way: Way,
) -> Result<Measure> {
    make_tree(rt.alloc(), server, scale)?;
    let calls = calls_of(rt.alloc(), scale, &[series])?;
    match way {
        Way::Timed => time_calls(rt, server, calls),
        Way::Untimed => time_alone(rt, server, calls),
        Way::Kept => time_answers(rt, server, calls.as_slice()),
    }
}

/// Times calls without the passes between them.
fn time_alone<R: Clock, F: CleanedStore + Drop>(
    rt: &R,
    server: &mut Cleaned<'_, R, F>,
    calls: Vec<Call>,
) -> Result<Measure> {
    server.passes = Some(0.0);
    let mut measure = time_calls(rt, server, calls)?;
    let Some(passes) = server.passes else {
        bail!("the passes were not timed");
    };
    measure.seconds -= passes;
    Ok(measure)
}

/// Makes a pass of the cleaner where few segments are clean, and adds its seconds to those of earlier ones.
fn with_pass<R: Clock, F: CleanedStore + Drop>(
    rt: &R,
    volume: &mut Volume<F>,
    passes: Option<f64>,
) -> Option<f64> {
    if volume.clean_segments() > FEW {
        return passes;
    }
    let start = Instant::now(rt).ok();
    make_pass(volume);
    let seconds = start?.elapsed(rt).ok()?.as_secs_f64();
    Some(passes? + seconds)
}

/// Makes the calls of a pass of the cleaner.
fn make_pass<F: CleanedStore + Drop>(volume: &mut Volume<F>) {
    let cleaner = Cred::new(0, &[0], false).unwrap();
    let mut pass = Pass::new();
    let mut last = None;
    for _ in 0..PASS_CALLS {
        let Some(call) = pass.next(last.as_ref()) else {
            break;
        };
        last = Some(volume.clean(CLEANER, &cleaner, call));
    }
}
