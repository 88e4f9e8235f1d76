//! Runs of two users' sessions over the log store.

use super::{assert_answers, expect_run_settled, expect_settled, serve_log};
use crate::tests::{SMALL, push};
use lfs_logstore::LogStore;
use lfs_server::gate::Gate;
use lfs_server::serving::Closed;
use lfs_server::settle::Unsettled;
use std::alloc::Global;
use std::process::Abort;
use std::sync::Wait;
use std::thread::Threads;

/// Two directories for all, and a file of the superuser's.
const PLACES: &str = "mkdir /x 0777\nmkdir /y 0777\ncreate /w 0644\n";

/// The file is written and synced.
const WRITTEN: &str = "write /w at 0 61\nsync\n";

/// The setup makes these, and writes and syncs the file so often; then come these sessions.
fn script(rt: &impl Abort, alloc: Global, writes: usize, sessions: &str) -> String {
    let mut script = String::new(alloc);
    push(rt, &mut script, PLACES);
    for _ in 0..writes {
        push(rt, &mut script, WRITTEN);
    }
    push(rt, &mut script, sessions);
    script
}

/// User 7 makes a file, writes and reads it, and lists its directory.
pub const FIRST: &str = "\
session 1
as 7 7
create /x/a 0644
write /x/a end 6869
read /x/a 0 9
list /x
";

/// User 7 does so, and user 8 makes a file, writes and reads it, and may not write the superuser's.
pub const BOTH: &str = "\
session 1
as 7 7
create /x/a 0644
write /x/a end 6869
read /x/a 0 9
list /x
session 2
as 8 8
create /y/b 0600
write /y/b end 6f
read /y/b 0 1
write /w at 0 62
";

/// The answers to both.
const ANSWERS: &str = "\
1 ok
1 ok
1 bytes 6869
1 names a
2 ok
2 ok
2 bytes 6f
2 denied M2 EACCES 0 1
";

/// Runs these sessions, with the file written so often before.
pub fn serve_users<R: Abort + Threads + Wait + Sync, G: Gate>(
    rt: &R,
    alloc: Global,
    writes: usize,
    sessions: &str,
    gate: &G,
) -> Box<Closed<LogStore>> {
    let script = script(rt, alloc, writes, sessions);
    serve_log(rt, alloc, SMALL, script.as_str(), gate)
}

/// How often the file is written before the sessions of both.
pub const WRITES: usize = 40;

/// Asserts of a run of both that they were answered as they must be, and that this settles.
pub fn assert_served(rt: &impl Abort, alloc: Global, closed: &Closed<LogStore>) {
    assert_answers(rt, alloc, closed.transcripts.as_slice(), ANSWERS);
    let script = script(rt, alloc, WRITES, BOTH);
    expect_run_settled(rt, alloc, closed, script.as_str(), Ok(()));
}

/// Both again, where user 7 writes other bytes, and so reads others.
const OTHERWISE: &str = "\
session 1
as 7 7
create /x/a 0644
write /x/a end 686f
read /x/a 0 9
list /x
session 2
as 8 8
create /y/b 0600
write /y/b end 6f
read /y/b 0 1
write /w at 0 62
";

/// Asserts that a run of both doesn't settle with the answers to those who write otherwise.
fn assert_unsettled(
    rt: &impl Abort,
    alloc: Global,
    run: &Closed<LogStore>,
    other: &Closed<LogStore>,
) {
    let script = script(rt, alloc, WRITES, BOTH);
    let answers = (run.setup.as_slice(), other.transcripts.as_slice());
    let wanted = Err(Unsettled(1));
    expect_settled(rt, alloc, &run.volume, script.as_str(), answers, wanted);
}

#[test]
fn two_sessions_run_over_a_log(rt: HostRuntime) {
    let closed = serve_users(&rt, rt.alloc(), WRITES, BOTH, &());
    assert_served(&rt, rt.alloc(), &closed);
    let other = serve_users(&rt, rt.alloc(), WRITES, OTHERWISE, &());
    assert_unsettled(&rt, rt.alloc(), &closed, &other);
}
