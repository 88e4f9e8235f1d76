//! The program's arguments.

ghost use Rattle.std.specs.Prelude.{◌≤◌};

use clap::builder::ValueParser;
use clap::{Arg, ArgAction, ArgMatches, Command, Error};
use lfs_workloads::scale::CALLS_MAX;
use lfs_workloads::workload::{SESSIONS, Workload};
use std::alloc::{AllocError, Global};
use std::convert::AsStr;

/// How many calls are timed where no argument says otherwise.
const CALLS: u32 = 2048;

/// How many runs each time is the best of where no argument says otherwise.
const RUNS: u32 = 5;

/// An option that takes a number from 1 on.
#[derive(Clone, Copy)]
struct NumberOption {
    /// Its name.
    name: &'static str,
    /// The greatest number that it takes.
    most: u64,
    /// What `--help` tells of it.
    help: &'static str,
}

/// The options that take a number, in the order of `--help`.
const NUMBERS: [NumberOption; 2] = [
    NumberOption {
        name: "calls",
        most: 65_536,
        help: "How many calls are timed before they grow, 1 to 65536; by default 2048",
    },
    NumberOption {
        name: "runs",
        most: 100,
        help: "How many runs each time is the best of, 1 to 100; by default 5",
    },
];

/// What is asked for.
#[derive(Clone, Copy)]
pub(crate) struct Options<'a> {
    /// The names of the workloads, in the order in which they are run.
    pub(crate) names: &'a [&'a str],
    /// How many calls are timed before they grow: 1 to 65,536.
    pub(crate) calls: u32,
    /// How many runs each time is the best of: 1 to 100.
    pub(crate) runs: u32,
    ghost few: { calls ≤ 65536 },
}

impl Options<'_> {
    /// Whether a workload of one session is asked for.
    pub(crate) fn has_rows(&self) -> bool {
        for name in self.names {
            if *name != SESSIONS {
                return true;
            }
        }
        false
    }

    /// Whether sessions on threads are asked for, which are run behind the others.
    pub(crate) fn has_sessions(&self) -> bool {
        self.names.contains(&SESSIONS)
    }
}

/// What the program's words give; the first word is the program's name.
pub(crate) fn matches_of<'a, S: AsStr>(
    alloc: Global,
    words: &'a [S],
) -> Result<ArgMatches<'a>, Error> {
    command(alloc)?.try_get_matches_from(words)
}

/// The options that the matches hold.
pub(crate) fn options_in<'a>(matches: &'a ArgMatches<'_>) -> Options<'a> {
    let calls = matches.get_one::<u32>("calls").unwrap_or(CALLS);
    Options {
        names: matches.get_strs("workload").unwrap_or(&Workload::NAMES),
        calls: calls.min(CALLS_MAX),
        runs: matches.get_one::<u32>("runs").unwrap_or(RUNS),
    }
}

/// The program's options.
fn command<'a>(alloc: Global) -> Result<Command<'a>, AllocError> {
    let [calls, runs] = NUMBERS;
    Command::new(alloc, "lfs_bench")
        .about("Times calls of the file server as what may grow grows")
        .arg(workload(alloc))?
        .arg(calls.arg(alloc))?
        .arg(runs.arg(alloc))
}

/// The names of what is timed.
fn workload<'a>(alloc: Global) -> Arg<'a> {
    taking_names(alloc, "workload")
        .value_parser(ValueParser::Names(&Workload::NAMES))
        .help("The workloads; by default all")
}

/// An argument of this name that takes any number of names.
fn taking_names<'a>(alloc: Global, name: &'a str) -> Arg<'a> {
    Arg::new(alloc, name)
        .value_name("NAME")
        .num_args(0..)
        .action(ArgAction::Append)
}

/// An option of this name that takes a number.
fn taking_number<'a>(alloc: Global, name: &'a str) -> Arg<'a> {
    Arg::new(alloc, name).long(name).value_name("N")
}

impl NumberOption {
    /// The option for the command line.
    fn arg<'a>(self, alloc: Global) -> Arg<'a> {
        taking_number(alloc, self.name)
            .value_parser(ValueParser::Unsigned(1, self.most))
            .help(self.help)
    }
}
