//! Calls of eight sessions on threads, with the cleaner beside them, against the same calls of one session without
//! threads.

ghost use Rattle.std.specs.Prelude.{◌≤◌};

use crate::cleaned::{Way, run_cleaned};
use crate::counts::Counts;
use crate::measure::Measure;
use crate::options::Options;
use crate::playing::{counts_of, gathered};
use crate::stopwatch::Stopwatch;
use crate::store::log_params;
use anyhow::Result;
use lfs_server::serve::serve;
use lfs_server::serving::Closed;
use lfs_types::answer::Answer;
use lfs_types::script::Script;
use lfs_types::store::FileStore;
use lfs_workloads::calls::calls_of;
use lfs_workloads::meeting::{each_of, scripts_of};
use lfs_workloads::scale::{Factor, Growth, Scale};
use lfs_workloads::series::Series;
use std::alloc::Global;
use std::rt::Clock;
use std::sync::Wait;
use std::thread::Threads;

/// The head of the table.
const HEAD: &str =
    "| Calls | Served in a second, one session | Eight sessions | Ratio | Served of the eight's |
|---|---|---|---|---|";

/// How many components the paths have.
const COMPONENTS: u32 = 2;

/// How many segments the log has: so many that only the most calls that are timed by default fill it.
const SEGMENTS: u32 = 256;

/// What the same calls gave, of one session and of eight.
#[derive(Clone, Copy)]
struct Race {
    /// How many calls there are.
    calls: u32,
    /// What those of one session gave.
    one: Measure,
    /// What those of eight sessions gave.
    eight: Measure,
}

impl Race {
    /// Runs both.
    fn new<R>(rt: &R, scale: &Scale) -> Result<Race>
    where
        R: Threads + Wait + Sync + Clock + AllocGlobal,
    {
        Ok(Race {
            calls: Series::Lone.count(scale),
            one: run_cleaned(rt, scale, Series::Lone, Way::Kept)?,
            eight: run_beside(rt, scale)?,
        })
    }

    /// Of each the one with more calls served in a second.
    fn faster(self, other: Race) -> Race {
        Race {
            calls: self.calls,
            one: self.one.faster(other.one),
            eight: self.eight.faster(other.eight),
        }
    }
}

/// Prints a row for each number of calls: how many were served in a second, of one session's and of eight sessions'.
/// What was answered is counted on standard output; it varies with the schedule only where clean segments run out.
pub(crate) fn print_sessions<R>(rt: &R, options: &Options<'_>) -> Result<()>
where
    R: Threads + Wait + Sync + Clock + AllocGlobal + Print + Eprint,
{
    eprintln!(rt; "{HEAD}")?;
    for factor in Factor::ALL {
        print_race(rt, scale_of(options.calls, factor), options.runs)?;
    }
    Ok(())
}

/// The scale of so many calls, times a factor.
fn scale_of(calls: u32, factor: Factor) -> Scale
    requires { calls ≤ 65536 }
{
    let mut scale = Scale::grown(calls, COMPONENTS, Growth::Calls, factor);
    scale.segments = SEGMENTS;
    scale
}

/// Prints the row of a scale, each time the best of so many runs.
fn print_race<R>(rt: &R, scale: Scale, runs: u32) -> Result<()>
where
    R: Threads + Wait + Sync + Clock + AllocGlobal + Print + Eprint,
{
    let race = best_of(rt, &scale, runs)?;
    print_counts(rt, race.calls, "one session", race.one.counts)?;
    print_counts(rt, race.calls, "eight sessions", race.eight.counts)?;
    print_rates(rt, race)
}

/// Prints the row of what was served in a second.
fn print_rates<R: Eprint>(rt: &R, race: Race) -> Result<()> {
    let Race { calls, one, eight } = race;
    let (alone, beside) = (one.served_a_second(), eight.served_a_second());
    let (ratio, served) = (beside / alone, eight.counts.served);
    Ok(eprintln!(rt; "| {calls} | {alone:.0} | {beside:.0} | {ratio:.2} | {served} |")?)
}

/// Of each the one with the most calls served in a second, of so many runs.
fn best_of<R>(rt: &R, scale: &Scale, runs: u32) -> Result<Race>
where
    R: Threads + Wait + Sync + Clock + AllocGlobal,
{
    let mut race = Race::new(rt, scale)?;
    for _ in 1..runs {
        race = race.faster(Race::new(rt, scale)?);
    }
    Ok(race)
}

/// Prints how the calls of some sessions were answered.
fn print_counts<R: Print>(rt: &R, calls: u32, sessions: &str, counts: Counts) -> Result<()> {
    Ok(println!(rt; "sessions, calls {calls}, {sessions}: {counts}")?)
}

/// Times the calls of eight sessions on threads, with the cleaner beside them: from the first call's beginning to the
/// last one's end. So the time has neither what lays out the volume and makes the tree, nor what settles the run.
fn run_beside<R>(rt: &R, scale: &Scale) -> Result<Measure>
where
    R: Threads + Wait + Sync + Clock + AllocGlobal,
{
    let watch = Stopwatch::new(rt, each_of(scale) - 1);
    let counts = counts_beside(rt, scale, &watch)?;
    let seconds = watch.seconds()?;
    Ok(Measure { counts, seconds })
}

/// Makes the calls of eight sessions on threads, and counts their answers.
fn counts_beside<R>(rt: &R, scale: &Scale, watch: &Stopwatch<'_, R>) -> Result<Counts>
where
    R: Threads + Wait + Sync + Clock + AllocGlobal,
{
    let transcripts = answers_beside(rt, scale, watch)?;
    Ok(counts_of(gathered(rt.alloc(), transcripts)?))
}

/// Makes the calls of eight sessions on threads, and gives the answers of each.
fn answers_beside<R>(rt: &R, scale: &Scale, watch: &Stopwatch<'_, R>) -> Result<Vec<Vec<Answer>>>
where
    R: Threads + Wait + Sync + Clock + AllocGlobal,
{
    let params = log_params(scale, Series::Lone.count(scale));
    let (setup, sessions) = setup_and_scripts(rt.alloc(), scale)?;
    let closed = serve(rt, rt.alloc(), params, setup, sessions, watch)?;
    Ok(transcripts_of(closed))
}

/// The calls that make the tree, and the scripts of all sessions.
fn setup_and_scripts(alloc: Global, scale: &Scale) -> Result<(Script, Vec<Script>)> {
    let setup = Script::from(calls_of(alloc, scale, &Series::TREE)?);
    Ok((setup, scripts_of(alloc, scale)?))
}

/// The answers of the sessions of a run.
fn transcripts_of<F: FileStore + Drop>(closed: Closed<F>) -> Vec<Vec<Answer>> {
    closed.transcripts
}
