//! Random journals of sessions on threads: each entry is judged behind those before it, and with another answer too.

use super::{SMALL, expect_eq, plan_of};
use lfs_logstore::LogStore;
use lfs_server::serve::serve;
use lfs_server::serving::Closed;
use lfs_trace::checker::Checker;
use lfs_trace::fault::EntryFault;
use lfs_types::answer::{Answer, Served};
use lfs_types::rule::{Denial, Rule};
use lfs_volume::journal::{Entry, Event};
use std::alloc::Global;
use std::process::Abort;
use std::sync::Wait;
use std::thread::Threads;

/// How many journals are made.
const JOURNALS: u64 = 20;

/// How many calls each session makes.
const CALLS: u32 = 12;

/// The setup lets all users make names, and makes a directory and a file.
const SETUP: &str = "chmod / 0777\nmkdir /d 0777\ncreate /a 0666\n";

/// Two users, one of them in another's group too, and the superuser.
const SESSIONS: [&str; 3] = [
    "session 1\nas 7 7\n",
    "session 2\nas 8 8,20\n",
    "session 3\nas 0 0\n",
];

/// What a session may ask, each as likely.
const LINES: [&str; 32] = [
    "stat /a\n",
    "stat /d/b\n",
    "read /a 0 9\n",
    "read /d/b 1 4\n",
    "list /\n",
    "list /d\n",
    "write /a at 0 616263\n",
    "write /a end 64\n",
    "write /d/b end 6566\n",
    "write /d/b at 1500 67\n",
    "length /a 2\n",
    "length /d/b 1200\n",
    "create /d/b 0640\n",
    "create /b 0600\n",
    "create /a 0644\n",
    "mkdir /d/e 0750\n",
    "mkdir /e 0755\n",
    "unlink /d/b\n",
    "unlink /b\n",
    "unlink /a\n",
    "rmdir /d/e\n",
    "rmdir /e\n",
    "rename /a /d/b\n",
    "rename /d/b /a\n",
    "rename /d/e /e\n",
    "rename /e /d/e\n",
    "chmod /d/b 0644\n",
    "chmod /d 1777\n",
    "chown /d/b 8 20\n",
    "chown /a 7 7\n",
    "chflags /d/b 4\n",
    "sync\n",
];

/// The denial of a call at a place at which no path has a name.
const NOWHERE: Denial = Denial {
    rule: Rule::GrantsSearch,
    path: 0,
    at: 513,
};

/// Numbers by a seed, as Knuth's MMIX makes them.
#[derive(Drop)]
struct Draw {
    state: u64,
}

impl Draw {
    /// The next of the lines.
    fn line(&mut self) -> &'static str {
        self.state = self
            .state
            .wrapping_mul(6_364_136_223_846_793_005)
            .wrapping_add(1_442_695_040_888_963_407);
        LINES[(self.state >> 33) as usize % LINES.len()]
    }
}

/// The script of a seed: the setup, and three sessions.
fn script(rt: &impl Abort, alloc: Global, seed: u64) -> String {
    let mut draw = Draw { state: seed };
    let mut script = String::new(alloc);
    push(rt, &mut script, SETUP);
    for session in SESSIONS {
        push(rt, &mut script, session);
        push_calls(rt, &mut script, &mut draw);
    }
    script
}

/// Appends a text.
fn push(rt: &impl Abort, to: &mut String, text: &str) {
    to.push_str(text).expect(rt, "memory");
}

/// Appends what a session asks.
fn push_calls(rt: &impl Abort, script: &mut String, draw: &mut Draw) {
    for _ in 0..CALLS {
        push(rt, script, draw.line());
    }
}

/// Runs the script of a seed with its sessions on threads, and judges the journal. Gives how many changes were judged.
fn judged<R: Abort + Threads + Wait + Sync>(rt: &R, alloc: Global, seed: u64) -> u64 {
    let script = script(rt, alloc, seed);
    let closed = served(rt, alloc, script.as_str());
    judge(rt, alloc, closed.volume.journal())
}

/// Runs a script on a fresh volume. What it leaves lies in memory of its own, as a fresh volume does.
fn served<R: Abort + Threads + Wait + Sync>(
    rt: &R,
    alloc: Global,
    script: &str,
) -> Box<Closed<LogStore>> {
    let plan = plan_of(rt, alloc, script);
    let (setup, sessions) = plan.split(alloc).expect(rt, "sessions");
    let closed = serve(rt, alloc, SMALL, setup, sessions, &());
    Box::new(alloc, closed.expect(rt, "a run")).expect(rt, "memory")
}

/// A checker of a fresh volume. It lies in memory of its own.
fn fresh(rt: &impl Abort, alloc: Global) -> Box<Checker> {
    let checker = Checker::new(alloc, SMALL.inodes, SMALL.segments);
    Box::new(alloc, checker.expect(rt, "a checker")).expect(rt, "memory")
}

/// Judges an entry with another answer, where it may have one. Gives how many were judged.
fn judge_other(rt: &impl Abort, alloc: Global, checker: &mut Checker, entry: &Entry) -> u64 {
    match other(rt, alloc, entry) {
        Some(other) => {
            expect_eq(rt, checker.entry(&other), Err(EntryFault::Illegal));
            1
        }
        None => 0,
    }
}

/// Judges entries, each of which must be legal behind those before it, and with another answer illegal there. Gives how many
/// were judged with another answer.
fn judge(rt: &impl Abort, alloc: Global, entries: &[Entry]) -> u64 {
    let mut checker = fresh(rt, alloc);
    let mut changed = 0u64;
    for entry in entries {
        changed = changed.saturating_add(judge_other(rt, alloc, &mut checker, entry));
        expect_eq(rt, checker.entry(entry), Ok(()));
    }
    changed
}

/// The entry of a call that was served or denied, with an answer that is none of the rules': denied where it was served, and
/// served where it was denied.
fn other(rt: &impl Abort, alloc: Global, entry: &Entry) -> Option<Entry> {
    let Event::User(request, answer) = &entry.event else {
        return None;
    };
    let answer = match answer {
        Answer::Served(_) => Answer::Denied(NOWHERE),
        Answer::Denied(_) => Answer::Served(Served::Done),
        Answer::Refused(_) => return None,
    };
    let request = request.try_clone(alloc).expect(rt, "memory");
    Some(Entry {
        session: entry.session,
        cred: entry.cred,
        event: Event::User(request, answer),
    })
}

#[test]
fn journals_of_threads_are_legal(rt: HostRuntime) {
    let mut changed = 0u64;
    for seed in 1..=JOURNALS {
        changed = changed.saturating_add(judged(&rt, rt.alloc(), seed));
    }
    // Three calls of the setup and twelve of each of three sessions; a small volume has room for all that they write.
    expect_eq(&rt, changed, JOURNALS * 39);
}
