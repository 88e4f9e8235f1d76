//! Tests of what no contract says: scripts that are cut, readers and writers that fail or never end, which of several faults
//! a run is given, and talks.

mod cuts;
mod faults;
mod limits;
mod pieces;
mod streams;
mod streams_on_threads;
mod talks;

use super::{expect_told, expect_with, fakes};
use crate::tests::expect_eq;
use fakes::Shut;
use lfs_audit::fault::{RunFault, ThreadsFault};
use lfs_audit::run::run_script;
use lfs_audit::threads::run_threads;
use lfs_audit::undone::Undone;
use lfs_types::store::Params;
use std::alloc::Global;
use std::io::{Read, Write};
use std::process::Abort;
use std::sync::Wait;
use std::thread::Threads;

/// The volume on which a script runs where a test doesn't say otherwise.
const PARAMS: Params = Params {
    segments: 64,
    inodes: 64,
    frames: 64,
    journal: 4096,
};

/// Asserts how a run ends.
fn expect_end<R: Read, W: Write>(
    rt: &impl Abort,
    alloc: Global,
    reader: &mut R,
    writer: &mut W,
    end: Result<(), RunFault>,
) {
    let found = run_script(alloc, reader, writer, PARAMS);
    expect_eq(rt, found, end);
}

/// Asserts that a run ends in this fault, and that its writer was asked for nothing.
fn expect_unwritten<R: Read>(
    rt: &impl Abort,
    alloc: Global,
    reader: &mut R,
    params: Params,
    fault: RunFault,
) {
    let mut writer = Shut { is_asked: false };
    let found = run_script(alloc, reader, &mut writer, params);
    expect_eq(rt, found, Err(fault));
    expect_eq(rt, writer.is_asked, false);
}

/// Asserts how a run on threads ends.
fn expect_threads_end<S, R, W>(
    rt: &S,
    alloc: Global,
    reader: &mut R,
    writer: &mut W,
    end: Result<(), ThreadsFault>,
)
where
    S: Abort + Threads + Wait + Sync,
    R: Read,
    W: Write,
{
    let found = fault_of(run_threads(rt, alloc, reader, writer, PARAMS));
    expect_eq(rt, found, end);
}

/// Asserts that a run on threads ends in this fault, and that its writer was asked for nothing.
fn expect_threads_unwritten<S, R>(
    rt: &S,
    alloc: Global,
    reader: &mut R,
    params: Params,
    fault: ThreadsFault,
)
where
    S: Abort + Threads + Wait + Sync,
    R: Read,
{
    let mut writer = Shut { is_asked: false };
    let found = fault_of(run_threads(rt, alloc, reader, &mut writer, params));
    expect_eq(rt, found, Err(fault));
    expect_eq(rt, writer.is_asked, false);
}

/// How a run on threads ends, without what it left.
fn fault_of<T: Drop>(found: Result<(), Undone<T>>) -> Result<(), ThreadsFault> {
    match found {
        Ok(()) => Ok(()),
        Err(undone) => Err(undone.fault()),
    }
}

/// How many writes a writer takes, whether it flushes, and whether a run of `LONG_READS` over it is done.
const WRITERS: [(usize, bool, bool); 5] = [
    (0, true, false),
    (1, true, false),
    (2, true, false),
    (3, true, true),
    (3, false, false),
];

/// Lines of a session that make a run print more than two pieces of 65,536 bytes, and less than three: twenty Reads of
/// 4,096 bytes.
const LONG_READS: &str = "\
session 1
create /a 0644
length /a 4096
read /a 0 4096
read /a 0 4096
read /a 0 4096
read /a 0 4096
read /a 0 4096
read /a 0 4096
read /a 0 4096
read /a 0 4096
read /a 0 4096
read /a 0 4096
read /a 0 4096
read /a 0 4096
read /a 0 4096
read /a 0 4096
read /a 0 4096
read /a 0 4096
read /a 0 4096
read /a 0 4096
read /a 0 4096
read /a 0 4096
";
