//! Runs the scripts that are stored in files, and tells of each whether it prints what is stored beside it, whatever
//! number of frames the cache has; the talks of `lfs_shell` that are stored there; and runs of `lfs_shell` and of `lfsd`
//! with files.
#![tactic(auto)]

mod rescue;
mod shell;
mod statuses;
mod stored;
mod talks;

use rescue::is_found_by_serials;
use std::fs;
use std::process::ExitCode;
use stored::is_as_stored;
use talks::tells_as_stored;

/// The file that lists the scripts: a line for each, with its name and the program's arguments.
const LIST: &str = "scripts.txt";

/// The file that lists the talks, likewise.
const TALKS: &str = "talks.txt";

fn main(rt: HostRuntime) -> anyhow::Result<ExitCode> {
    let list = fs::read_to_string(&rt, LIST)?;
    let mut code = ExitCode::SUCCESS;
    for line in list.as_str().lines() {
        if !is_as_stored(&rt, line)? {
            code = ExitCode::FAILURE;
        }
    }
    let talks = fs::read_to_string(&rt, TALKS)?;
    for line in talks.as_str().lines() {
        if !tells_as_stored(&rt, line)? {
            code = ExitCode::FAILURE;
        }
    }
    if !shell::is_as_told(&rt)? {
        code = ExitCode::FAILURE;
    }
    if !is_found_by_serials(&rt)? {
        code = ExitCode::FAILURE;
    }
    if !statuses::are_as_told(&rt)? {
        code = ExitCode::FAILURE;
    }
    Ok(code)
}
