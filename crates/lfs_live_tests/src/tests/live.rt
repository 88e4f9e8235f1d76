//! Sessions of one client that come and go, a long one, and one that is not ended.

use super::{SMALL, User, alone, answers, begin, calls, expect_lines, make_calls, serve_fresh};
use lfs_logstore::LogStore;
use lfs_server::fresh::fresh_volume;
use lfs_server::live::{Client, Live, Stopped, serve_clients};
use lfs_server::unserved::Unserved;
use lfs_volume::journal::Call;
use std::alloc::Global;
use std::process::Abort;
use std::sync::Wait;
use std::thread::Threads;

/// Two users, each with a session, and the superuser, who begins last and ends first.
#[derive(Drop)]
struct Users {
    setup: Vec<Call>,
    first: Vec<Call>,
    second: Vec<Call>,
}

impl Client for Users {
    fn run<L: Live + Sync>(self, server: &L) {
        let one = begin(server, self.first.as_slice());
        let two = begin(server, self.second.as_slice());
        make_calls(begin(server, self.setup.as_slice()), self.setup);
        make_calls(two, self.second);
        make_calls(one, self.first);
    }
}

/// The superuser makes a file for each user.
const SETUP: &str = "create /a 0644\nchown /a 7 7\ncreate /b 0600\nchown /b 8 8\n";

/// User 7 writes his file and reads it, and may not read the other's.
const FIRST: &str = "as 7 7\nwrite /a end 6869\nread /a 0 9\nread /b 0 9\n";

/// User 8 writes his file and reads it, and may not write the other's.
const SECOND: &str = "as 8 8\nwrite /b end 6f\nread /b 0 9\nwrite /a end 62\n";

/// What each session was answered.
const ANSWERS: &str = "\
1 ok
1 bytes 6869
1 denied M1 EACCES 0 1
2 ok
2 bytes 6f
2 denied M2 EACCES 0 1
3 ok
3 ok
3 ok
3 ok
";

/// Lets them use a server, and asserts that they were answered so.
fn serve_both<R: Abort + Threads + Wait + Sync>(rt: &R, alloc: Global) {
    let users = Users {
        setup: calls(rt, alloc, SETUP),
        first: calls(rt, alloc, FIRST),
        second: calls(rt, alloc, SECOND),
    };
    let clients = alone(rt, alloc, users);
    let stopped = serve_fresh(rt, alloc, clients, &()).expect(rt, "a stop");
    let found = answers(rt, alloc, stopped.transcripts.as_slice());
    expect_lines(rt, found.as_slice(), ANSWERS);
}

#[test]
fn live_sessions_come_and_go(rt: HostRuntime) {
    serve_both(&rt, rt.alloc());
}

/// A user who makes calls and doesn't end his session.
#[derive(Drop)]
struct Gone(User);

impl Client for Gone {
    fn run<L: Live + Sync>(self, server: &L) {
        let Gone(User { calls }) = self;
        let Some(mut session) = begin(server, calls.as_slice()) else {
            return;
        };
        for call in calls {
            if session.call(call.request).is_err() {
                return;
            }
        }
    }
}

/// How many entries of a session a run left that is not settled, and how many transcripts, with the session that differs.
fn unsettled(
    end: Result<Stopped<LogStore>, Unserved<Stopped<LogStore>>>,
) -> Option<(u8, usize, usize)> {
    match end {
        Err(Unserved::Unsettled(session, stopped)) => {
            let entries = stopped.volume.journal();
            let made = entries
                .iter()
                .filter(|entry| entry.session == session)
                .count();
            Some((session, made, stopped.transcripts.len()))
        }
        Err(Unserved::Fault(_)) | Ok(_) => None,
    }
}

/// Asserts that what he leaves is not settled, and handed out with the four entries of his session.
fn assert_unsettled<R: Abort + Threads + Wait + Sync>(rt: &R, alloc: Global) {
    let calls = calls(rt, alloc, SETUP);
    let clients = alone(rt, alloc, Gone(User { calls }));
    let volume = fresh_volume(alloc, SMALL).expect(rt, "a volume");
    let end = serve_clients(rt, alloc, volume, clients, &());
    assert_eq!(rt; unsettled(end), Some((1, 4, 1)));
}

#[test]
fn session_that_is_not_ended_is_unsettled(rt: HostRuntime) {
    assert_unsettled(&rt, rt.alloc());
}

/// How many calls a long session makes: the journal has room for each, and for the cleaner's.
const MANY: usize = 4_000;

/// Asserts that each of so many calls of a session is made and answered.
fn serve_many<R: Abort + Threads + Wait + Sync>(rt: &R, alloc: Global) {
    let script = "sync\n".repeat(alloc, MANY).expect(rt, "memory");
    let wanted = "1 ok\n".repeat(alloc, MANY).expect(rt, "memory");
    let calls = calls(rt, alloc, script.as_str());
    let clients = alone(rt, alloc, User { calls });
    let stopped = serve_fresh(rt, alloc, clients, &()).expect(rt, "a stop");
    let found = answers(rt, alloc, stopped.transcripts.as_slice());
    expect_lines(rt, found.as_slice(), wanted.as_str());
}

#[test]
fn live_session_of_four_thousand_calls(rt: HostRuntime) {
    serve_many(&rt, rt.alloc());
}
