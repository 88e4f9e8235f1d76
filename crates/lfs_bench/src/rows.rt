//! The rows of the table.

ghost use Rattle.std.specs.Prelude.{◌≤◌};

use crate::frames::{run_look_ups, run_moves};
use crate::measure::Measure;
use crate::options::Options;
use crate::store::{Store, run_on};
use anyhow::Result;
use lfs_workloads::scale::{Factor, Growth, Scale};
use lfs_workloads::workload::{UserLoad, Workload};
use std::fmt;
use std::rt::Clock;

/// The head of the table.
const HEAD: &str = "| Workload | What grows | From | ns a call | 4 times | 16 times | Ratio |
|---|---|---|---|---|---|---|";

/// What a row runs.
#[derive(Clone, Copy)]
enum Runs {
    /// Calls of users, over a store.
    Users(UserLoad, Store),
    /// Moves of frames.
    Frames,
    /// Look-ups of keys.
    LookUps,
}

impl Runs {
    /// What grows in its rows.
    fn growths(self) -> &'static [Growth] {
        match self {
            Runs::Users(load, _) if load.is_large() => &Growth::OF_LARGE,
            Runs::Users(_, Store::Plain) => &Growth::OF_VOLUMES,
            Runs::Users(_, Store::Log | Store::LogCleaned) => &Growth::OF_LOGS,
            Runs::Frames | Runs::LookUps => &Growth::OF_CACHES,
        }
    }

    /// The scale of a run, for so many calls before they grow.
    fn scale(self, calls: u32, growth: Growth, factor: Factor) -> Scale
        requires { calls ≤ 65536 }
    {
        let components = match self {
            Runs::Users(load, _) if load.is_large() => {
                return Scale::large(calls, load.components(), factor);
            }
            Runs::Users(load, _) => load.components(),
            Runs::Frames | Runs::LookUps => 0,
        };
        Scale::grown(calls, components, growth, factor)
    }

    /// Runs it once.
    fn once<R: Clock + AllocGlobal>(self, rt: &R, scale: &Scale) -> Result<Measure> {
        match self {
            Runs::Users(load, store) => run_on(rt, store, load, scale),
            Runs::Frames => run_moves(rt, scale),
            Runs::LookUps => run_look_ups(rt, scale),
        }
    }

    /// The shortest of so many runs.
    fn best_of<R: Clock + AllocGlobal>(self, rt: &R, scale: &Scale, runs: u32) -> Result<Measure> {
        let mut best = self.once(rt, scale)?;
        for _ in 1..runs {
            let next = self.once(rt, scale)?;
            if next.seconds < best.seconds {
                best = next;
            }
        }
        Ok(best)
    }
}

/// What a row is about.
#[derive(Clone, Copy)]
struct Subject<'a> {
    /// The name of the workload.
    name: &'a str,
    /// What it runs.
    runs: Runs,
}

impl fmt::Display for Subject<'_> {
    fn fmt<W: fmt::Write>(&self, f: &mut fmt::Formatter<W>) -> fmt::Result {
        f.write_str(self.name)?;
        match self.runs {
            Runs::Users(_, store) => write!(f, ", {}", store.name()),
            Runs::Frames | Runs::LookUps => Ok(()),
        }
    }
}

/// Prints the table of what is asked for, and counts what was answered.
pub(crate) fn print_rows<R: Clock + AllocGlobal + Print + Eprint>(
    rt: &R,
    options: &Options<'_>,
) -> Result<()> {
    eprintln!(rt; "{HEAD}")?;
    for name in options.names {
        print_workload(rt, options, name)?;
    }
    Ok(())
}

/// Prints the rows of a workload, over each store where it is one of users' calls.
fn print_workload<R: Clock + AllocGlobal + Print + Eprint>(
    rt: &R,
    options: &Options<'_>,
    name: &str,
) -> Result<()> {
    let runs = match Workload::named(name) {
        Some(Workload::Users(load)) => {
            for store in Store::ALL {
                let runs = Runs::Users(load, store);
                print_subject(rt, options, Subject { name, runs })?;
            }
            return Ok(());
        }
        Some(Workload::LargeFile) => return print_large(rt, options),
        Some(Workload::Frames) => Runs::Frames,
        Some(Workload::LookUps) => Runs::LookUps,
        Some(Workload::Sessions) | None => return Ok(()),
    };
    print_subject(rt, options, Subject { name, runs })
}

/// Prints the rows of calls on a large file, over a log.
fn print_large<R: Clock + AllocGlobal + Print + Eprint>(
    rt: &R,
    options: &Options<'_>,
) -> Result<()> {
    for (name, load) in UserLoad::LARGE {
        let runs = Runs::Users(load, Store::Log);
        print_subject(rt, options, Subject { name, runs })?;
    }
    Ok(())
}

/// Prints the rows of a subject.
fn print_subject<R: Clock + AllocGlobal + Print + Eprint>(
    rt: &R,
    options: &Options<'_>,
    subject: Subject<'_>,
) -> Result<()> {
    for growth in subject.runs.growths() {
        print_row(rt, options, subject, *growth)?;
    }
    Ok(())
}

/// Prints a row of a subject.
fn print_row<R: Clock + AllocGlobal + Print + Eprint>(
    rt: &R,
    options: &Options<'_>,
    subject: Subject<'_>,
    growth: Growth,
) -> Result<()> {
    let first = subject.runs.scale(options.calls, growth, Factor::One);
    let one = nanoseconds(rt, options, subject, growth, Factor::One)?;
    let four = nanoseconds(rt, options, subject, growth, Factor::Four)?;
    let sixteen = nanoseconds(rt, options, subject, growth, Factor::Sixteen)?;
    let (word, from, ratio) = (growth.name(), first.of(growth), sixteen / one);
    Ok(eprintln!(rt;
        "| {subject} | {word} | {from} | {one:.0} | {four:.0} | {sixteen:.0} | {ratio:.2} |"
    )?)
}

/// The nanoseconds of a call, at best. What was answered is counted on standard output.
fn nanoseconds<R: Clock + AllocGlobal + Print>(
    rt: &R,
    options: &Options<'_>,
    subject: Subject<'_>,
    growth: Growth,
    factor: Factor,
) -> Result<f64> {
    let scale = subject.runs.scale(options.calls, growth, factor);
    let Measure { counts, seconds } = subject.runs.best_of(rt, &scale, options.runs)?;
    let (word, amount) = (growth.name(), scale.of(growth));
    println!(rt; "{subject}, {word} {amount}: {counts}")?;
    Ok(seconds * 1e9 / counts.total())
}
