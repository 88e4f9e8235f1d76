//! What no clause says of a live server: that its sessions come and go, that they run beside each other and are answered as
//! they must be, that the cleaner is called and let to the lock, and that the cache has the frames that were asked for.

mod bell;
mod frames;
mod live;
mod meeting;
mod rings;
mod rounds;
mod watch;
mod yielding;

use lfs_logstore::LogStore;
use lfs_print::print::append_answer;
use lfs_script::plan::{Act, Plan, Step};
use lfs_script::script::parse_script;
use lfs_server::fresh::fresh_volume;
use lfs_server::gate::Gate;
use lfs_server::live::{Client, Live, Stopped, serve_clients};
use lfs_server::live_session::Session;
use lfs_server::serving::ServeFault;
use lfs_settle::transcripts::Transcript;
use lfs_types::answer::Answer;
use lfs_types::cred::Cred;
use lfs_types::store::Params;
use lfs_volume::journal::Call;
use std::alloc::Global;
use std::process::Abort;
use std::sync::Wait;
use std::thread::Threads;

/// The numbers of a small volume.
const SMALL: Params = Params {
    segments: 6,
    inodes: 64,
    frames: 32,
    journal: 4096,
};

/// What a script asks.
fn plan_of(rt: &impl Abort, alloc: Global, script: &str) -> Plan {
    assert!(rt; script.len() <= 1_048_576);
    parse_script(alloc, script.as_bytes()).expect(rt, "a script")
}

/// The users' calls of a script.
fn calls(rt: &impl Abort, alloc: Global, script: &str) -> Vec<Call> {
    let mut calls = Vec::new(alloc);
    for line in plan_of(rt, alloc, script).into_steps() {
        let Step { session, cred, act } = line;
        if let Act::User(request) = act {
            let call = Call {
                session,
                cred,
                request,
            };
            calls.push(call).expect(rt, "memory");
        }
    }
    calls
}

/// The credential of the first of these calls.
fn cred_of(calls: &[Call]) -> Option<Cred> {
    calls.first().map(|call| call.cred)
}

/// A session of who makes these calls, if it can begin.
fn begin<'s, L: Live>(server: &'s L, calls: &[Call]) -> Option<Session<'s, L>> {
    Session::begin(server, cred_of(calls)?).ok()
}

/// Makes calls in a session and ends it, if it has begun.
fn make_calls<L: Live>(session: Option<Session<'_, L>>, calls: Vec<Call>) {
    let Some(mut session) = session else {
        return;
    };
    for call in calls {
        if session.call(call.request).is_err() {
            return;
        }
    }
    session.end();
}

/// One who makes calls in a session of his own.
#[derive(Drop)]
struct User {
    calls: Vec<Call>,
}

impl Client for User {
    fn run<L: Live + Sync>(self, server: &L) {
        make_calls(begin(server, self.calls.as_slice()), self.calls);
    }
}

/// One client alone.
fn alone<C: Drop>(rt: &impl Abort, alloc: Global, client: C) -> Vec<C> {
    let mut clients = Vec::new(alloc);
    clients.push(client).ok().expect(rt, "memory");
    clients
}

/// Lets clients use a server over a fresh small volume. What it leaves lies in memory of its own.
fn serve_fresh<R: Threads + Wait + Sync, C: Client + Send + Drop, G: Gate>(
    rt: &R,
    alloc: Global,
    clients: Vec<C>,
    gate: &G,
) -> Result<Box<Stopped<LogStore>>, ServeFault> {
    let volume = fresh_volume(alloc, SMALL)?;
    let stopped = serve_clients(rt, alloc, volume, clients, gate)?;
    Ok(Box::new(alloc, stopped)?)
}

/// What the sessions were answered, a line each, session 1's first.
fn answers(rt: &impl Abort, alloc: Global, transcripts: &[Transcript]) -> Vec<u8> {
    let mut text = Vec::new(alloc);
    for transcript in transcripts {
        let answers = transcript.answers.as_slice();
        append_answers(rt, &mut text, transcript.session, answers);
    }
    text
}

/// Appends the lines of answers to a session.
fn append_answers(rt: &impl Abort, text: &mut Vec<u8>, session: u8, answers: &[Answer]) {
    for answer in answers {
        append_answer(text, session, answer).expect(rt, "memory");
    }
}

/// Asserts that lines are as they must be.
fn expect_lines(rt: &impl Abort, found: &[u8], wanted: &str) {
    assert_eq!(rt; found, wanted.as_bytes());
}
