//! Rounds of a server: each begins at the tree that the one before it left, with the numbers of sessions anew.

use super::{SMALL, alone, answers, begin, calls, expect_lines, make_calls};
use lfs_rounds::rounds::{Round, Rounds, serve_rounds};
use lfs_server::fresh::fresh_volume;
use lfs_server::live::{Client, Live};
use lfs_volume::journal::{Call, Entry, Event};
use std::alloc::Global;
use std::process::Abort;
use std::sync::Wait;
use std::thread::Threads;

/// One who makes the calls of a session, and then those of another.
#[derive(Drop)]
struct Day {
    first: Vec<Call>,
    second: Vec<Call>,
}

impl Client for Day {
    fn run<L: Live + Sync>(self, server: &L) {
        make_calls(begin(server, self.first.as_slice()), self.first);
        make_calls(begin(server, self.second.as_slice()), self.second);
    }
}

/// The scripts of days, and what was told of each.
#[derive(Drop)]
struct Diary<'r, R: Abort> {
    rt: &'r R,
    alloc: Global,
    days: &'r [(&'r str, &'r str)],
    next: usize,
    told: Vec<u8>,
}

impl<R: Abort> Rounds for Diary<'_, R> {
    type Client = Day;

    ghost asks = { λ _ _. Unit {0} };

    ghost keeps = { λ _ _ _. Unit {0} };

    fn clients(&mut self) -> Option<Vec<Day>> {
        let (first, second) = self.days.get(self.next)?;
        self.next = self.next.saturating_add(1);
        let day = Day {
            first: calls(self.rt, self.alloc, first),
            second: calls(self.rt, self.alloc, second),
        };
        Some(alone(self.rt, self.alloc, day))
    }

    fn keep(&mut self, round: Round) {
        let text = answers(self.rt, self.alloc, round.transcripts.as_slice());
        self.told
            .extend_from_slice(text.as_slice())
            .expect(self.rt, "memory");
        for _ in 0..users_entries(round.entries.as_slice()) {
            self.told.push(b'+').expect(self.rt, "memory");
        }
        self.told.push(b'\n').expect(self.rt, "memory");
    }
}

/// How many entries are users'.
fn users_entries(entries: &[Entry]) -> usize {
    let mut count = 0usize;
    for entry in entries {
        if let Event::User(_, _) = &entry.event {
            count = count.saturating_add(1);
        }
    }
    count
}

/// Lets a server go on from day to day, and tells what was told of them.
fn serve_days<R: Abort + Threads + Wait + Sync>(
    rt: &R,
    alloc: Global,
    days: &[(&str, &str)],
) -> Vec<u8> {
    let mut diary = Diary {
        rt,
        alloc,
        days,
        next: 0,
        told: Vec::new(alloc),
    };
    let volume = fresh_volume(alloc, SMALL).expect(rt, "a volume");
    let left = serve_rounds(rt, alloc, volume, &mut diary, &()).expect(rt, "days");
    assert!(rt; left.journal().is_empty());
    diary.told
}

/// The superuser makes a file for user 7; user 7 writes it and user 8 may not; and user 7 reads it.
const DAYS: [(&str, &str); 3] = [
    ("create /a 0644\nchown /a 7 7\n", ""),
    ("as 7 7\nwrite /a end 6869\n", "as 8 8\nwrite /a end 62\n"),
    ("as 7 7\nread /a 0 9\n", ""),
];

/// What they are answered, and a sign for each of their entries.
const ANSWERS: &str = "\
1 ok
1 ok
++
1 ok
2 denied M2 EACCES 0 1
++
1 bytes 6869
+
";

#[test]
fn each_round_begins_where_the_last_one_ended(rt: HostRuntime) {
    let found = serve_days(&rt, rt.alloc(), DAYS.as_slice());
    expect_lines(&rt, found.as_slice(), ANSWERS);
}

#[test]
fn more_sessions_than_there_are_numbers_come_round_by_round(rt: HostRuntime) {
    let day = ("stat /\n", "stat /\n");
    let days = [day; 130];
    let found = serve_days(&rt, rt.alloc(), days.as_slice());
    let told = "1 stat 2 dir 0 0 0755 00000000 0\n2 stat 2 dir 0 0 0755 00000000 0\n++\n";
    assert_eq!(&rt; found.len(), told.len().saturating_mul(130));
    assert!(&rt; found.as_slice().starts_with(told.as_bytes()));
    assert!(&rt; found.as_slice().ends_with(told.as_bytes()));
}
