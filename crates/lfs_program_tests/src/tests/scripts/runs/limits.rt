//! Runs of more calls than their journals may have entries, and of more than are kept at a time.

use super::PARAMS;
use crate::tests::expect_eq;
use lfs_audit::run::{run_over, run_script};
use lfs_server::fresh::fresh_volume;
use lfs_types::store::Params;
use lfs_words::append::push_number;
use std::alloc::Global;
use std::process::Abort;

/// How many calls the scripts make.
const CALLS: u64 = 1000;

/// How many entries journals may have: none, few, and around one, two and three times 256, of which 105 may be of one line.
const LIMITS: [u32; 18] = [
    0, 1, 150, 151, 152, 153, 255, 256, 257, 303, 304, 305, 408, 409, 512, 999, 1000, 4096,
];

/// Appends so many times these lines.
fn push_times(rt: &impl Abort, text: &mut Vec<u8>, lines: &[u8], times: u64) {
    for _ in 0..times {
        text.extend_from_slice(lines).expect(rt, "memory");
    }
}

/// Appends a line of words and a number, with a space between.
fn push_line(rt: &impl Abort, text: &mut Vec<u8>, word: &[u8], number: u64) {
    text.extend_from_slice(word).expect(rt, "memory");
    push_number(text, number).expect(rt, "memory");
    text.push(b'\n').expect(rt, "memory");
}

/// A volume whose journal may have so many entries.
fn limited(journal: u32) -> Params {
    Params { journal, ..PARAMS }
}

/// What is printed of a thousand Syncs, where a journal may have so many entries.
fn syncs_text(rt: &impl Abort, alloc: Global, limit: u32) -> Vec<u8> {
    let served = CALLS.min(u64::from(limit));
    let mut text = Vec::new(alloc);
    push_times(rt, &mut text, b"0 ok\n", served);
    push_times(rt, &mut text, b"0 refused JournalFull\n", CALLS - served);
    push_line(rt, &mut text, b"entries", served);
    push_line(rt, &mut text, b"served", served);
    push_times(rt, &mut text, b"denied 0\nrefused 0\ncleaner 0\n", 1);
    if served < CALLS {
        push_line(rt, &mut text, b"unentered JournalFull", CALLS - served);
    }
    text
}

/// What a run of a script prints, whose volume has a journal of so many entries in memory.
fn printed_over(rt: &impl Abort, alloc: Global, script: &[u8], limit: u32) -> Vec<u8> {
    let mut volume = fresh_volume(alloc, limited(limit)).expect(rt, "a volume");
    let mut writer = Vec::new(alloc);
    run_over(alloc, &mut &*script, &mut writer, &mut volume).expect(rt, "a run");
    writer
}

/// What a run of a script prints.
fn printed(rt: &impl Abort, alloc: Global, script: &[u8], limit: u32) -> Vec<u8> {
    let mut writer = Vec::new(alloc);
    run_script(alloc, &mut &*script, &mut writer, limited(limit)).expect(rt, "a run");
    writer
}

#[test]
fn journal_is_full_exactly_at_its_limit(rt: HostRuntime) {
    let alloc = rt.alloc();
    let mut script = Vec::new(alloc);
    push_times(&rt, &mut script, b"sync\n", CALLS);
    for limit in LIMITS {
        let found = printed(&rt, alloc, script.as_slice(), limit);
        expect_eq(&rt, found, syncs_text(&rt, alloc, limit));
    }
}

#[test]
fn calls_and_passes_are_answered_as_with_the_whole_journal(rt: HostRuntime) {
    let alloc = rt.alloc();
    let mut script = Vec::new(alloc);
    let lines =
        b"create /a 0644\nwrite /a end 6162\npass\nas 5 5\nunlink /a\nread /a 0 9\nas 0 0\nunlink /a\n";
    push_times(&rt, &mut script, lines, CALLS / 8);
    for limit in LIMITS {
        let found = printed(&rt, alloc, script.as_slice(), limit);
        let whole = printed_over(&rt, alloc, script.as_slice(), limit);
        expect_eq(&rt, found, whole);
    }
}
