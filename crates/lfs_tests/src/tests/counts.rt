//! The counts that a volume keeps.

use super::full::make_pass;
use super::{SMALL, expect_eq, fresh, plan_of};
use lfs_logstore::LogStore;
use lfs_script::plan::{Act, Step};
use lfs_types::store::Params;
use lfs_volume::counts::Counts;
use lfs_volume::volume::Volume;
use std::alloc::Global;
use std::process::Abort;

/// Makes a line of a script.
fn make_line(rt: &impl Abort, volume: &mut Volume<LogStore>, line: Step) {
    let Step { session, cred, act } = line;
    match act {
        Act::User(request) => drop(volume.call(session, &cred, request)),
        Act::Cleaner(call) => drop(volume.clean(session, &cred, call.into_call())),
        Act::Pass => make_pass(rt, volume),
    }
}

/// Makes the lines of a script.
fn make(rt: &impl Abort, alloc: Global, volume: &mut Volume<LogStore>, script: &str) {
    for line in plan_of(rt, alloc, script).into_steps() {
        make_line(rt, volume, line);
    }
}

/// The counts of no call.
const NONE: Counts = Counts {
    served: 0,
    denied: 0,
    refused: 0,
    cleaner: 0,
    rules: [0; 20],
};

/// Those of one served call.
const ONE: Counts = Counts { served: 1, ..NONE };

/// Those of a call of the cleaner that U1 denied.
const DENIED: Counts = Counts {
    cleaner: 1,
    rules: [0, 0, 0, 0, 0, 0, 0, 0, 0, 0, 0, 0, 0, 0, 0, 1, 0, 0, 0, 0],
    ..NONE
};

/// A volume whose journal takes one entry.
const SHORT: Params = Params {
    journal: 1,
    ..SMALL
};

/// Asserts the counts of a volume on which a script ran.
fn expect_counts(rt: &impl Abort, alloc: Global, script: &str, counts: Counts) {
    let mut volume = fresh(rt, alloc, SHORT);
    make(rt, alloc, &mut volume, script);
    expect_eq(rt, *volume.counts(), counts);
}

#[test]
fn fresh_volume_has_counts_of_no_call(rt: HostRuntime) {
    expect_counts(&rt, rt.alloc(), "", NONE);
}

#[test]
fn call_at_the_limit_is_not_counted(rt: HostRuntime) {
    expect_counts(&rt, rt.alloc(), "stat /\nstat /\nifile\n", ONE);
}

#[test]
fn denial_of_the_cleaner_counts_for_its_rule(rt: HostRuntime) {
    expect_counts(&rt, rt.alloc(), "as 5 5\nsegclean 0\n", DENIED);
}
