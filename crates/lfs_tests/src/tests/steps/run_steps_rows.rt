//! Worked cases as runs of steps, with every answer compared.

use super::cleaning::infos_of;
use super::{run, run_fresh};
use crate::tests::{
    DEFAULTS, SMALL, calls, expect_answers, expect_eq, fresh, push, push_all, repeated,
};
use itoa::Buffer;
use lfs_logstore::LogStore;
use lfs_types::cleaner::BlockInfo;
use lfs_types::store::Params;
use lfs_volume::journal::{CleanerKind, CleanerOutcome, Entry, Event};
use lfs_volume::volume::Volume;
use std::alloc::Global;
use std::process::Abort;

/// The superuser makes and writes a file; user 5 reads it, and may not write it.
const OWNER_AND_STRANGER: &str = "\
session 3
create /a 0644
write /a at 0 616263
as 5 5
read /a 0 512
write /a at 0 64
";

/// The answers to them.
const TO_STRANGER: &str = "3 ok\n3 ok\n3 bytes 616263\n3 denied M2 EACCES 0 1\n";

#[test]
fn owner_writes_and_stranger_only_reads(rt: HostRuntime) {
    run_fresh(&rt, rt.alloc(), OWNER_AND_STRANGER, TO_STRANGER);
}

/// A file is written and removed, and another of its number is written. Then the first file's block is named with each
/// address from 1 to 63, and the other is read and shown.
const NUMBER_GIVEN_OUT_AGAIN: &str = "\
session 3
create /v 0644
write /v at 0 61
sync
unlink /v
create /v 0644
write /v at 0 62
sync
markv 4:1:0:1 4:1:0:2 4:1:0:3 4:1:0:4 4:1:0:5 4:1:0:6 4:1:0:7 4:1:0:8
markv 4:1:0:9 4:1:0:10 4:1:0:11 4:1:0:12 4:1:0:13 4:1:0:14 4:1:0:15 4:1:0:16
markv 4:1:0:17 4:1:0:18 4:1:0:19 4:1:0:20 4:1:0:21 4:1:0:22 4:1:0:23 4:1:0:24
markv 4:1:0:25 4:1:0:26 4:1:0:27 4:1:0:28 4:1:0:29 4:1:0:30 4:1:0:31 4:1:0:32
markv 4:1:0:33 4:1:0:34 4:1:0:35 4:1:0:36 4:1:0:37 4:1:0:38 4:1:0:39 4:1:0:40
markv 4:1:0:41 4:1:0:42 4:1:0:43 4:1:0:44 4:1:0:45 4:1:0:46 4:1:0:47 4:1:0:48
markv 4:1:0:49 4:1:0:50 4:1:0:51 4:1:0:52 4:1:0:53 4:1:0:54 4:1:0:55 4:1:0:56
markv 4:1:0:57 4:1:0:58 4:1:0:59 4:1:0:60 4:1:0:61 4:1:0:62 4:1:0:63
read /v 0 512
stat /v
";

/// The answers: no block is written again.
const NONE_WRITTEN_AGAIN: &str = "\
3 ok
3 ok
3 ok
3 ok
3 ok
3 ok
3 ok
3 Marked(0)
3 Marked(0)
3 Marked(0)
3 Marked(0)
3 Marked(0)
3 Marked(0)
3 Marked(0)
3 Marked(0)
3 bytes 62
3 stat 4 file 0 0 0644 00000000 1
";

#[test]
fn stale_info_of_a_number_given_out_again(rt: HostRuntime) {
    run_fresh(&rt, rt.alloc(), NUMBER_GIVEN_OUT_AGAIN, NONE_WRITTEN_AGAIN);
}

/// The info of the first block of file 4 among those of segment 0.
pub(super) fn first_info(rt: &impl Abort, volume: &mut Volume<LogStore>) -> BlockInfo {
    let infos = infos_of(rt, volume, 0);
    for info in infos.items() {
        if (info.ino, info.version, info.lbn) == (4, 1, 0) {
            return *info;
        }
    }
    panic!(rt; "no such info")
}

/// A file is written, and another one made.
const TWO_FILES: &str = "\
session 3
create /a 0644
write /a at 0 6f6c64
sync
create /b 0644
";

/// The other is written.
const FURTHER_WRITE: &str = "session 3\nwrite /b at 0 62\nsync\n";

/// A block's present address is asked for, by the address.
const BMAPV: &str = "session 3\nbmapv 4:1:0:";

/// The answer up to the address.
const LOCATED: &str = "3 Bmapv(BlockInfos { items: [BlockInfo { ino: 4, version: 1, lbn: 0, addr: ";

/// The block is overwritten, and then named with that address.
const OVERWRITE: &str = "\nwrite /a at 0 6e6577\nsync\nmarkv 4:1:0:";

/// It is read.
const READ: &str = "\nread /a 0 512\n";

/// The answers behind the address: the block isn't written again.
const OVERWRITTEN: &str = " }] })\n3 ok\n3 ok\n3 Marked(0)\n3 bytes 6e6577\n";

/// Overwrites a block between its Bmapv and its Markv, and asserts that it isn't written again.
fn overwrite_and_mark(rt: &impl Abort, alloc: Global, volume: &mut Volume<LogStore>, old: &str) {
    let mut script = String::new(alloc);
    push_all(rt, &mut script, &[BMAPV, old, OVERWRITE, old, READ]);
    let mut wanted = String::new(alloc);
    push_all(rt, &mut wanted, &[LOCATED, old, OVERWRITTEN]);
    run(rt, alloc, volume, script.as_str(), wanted.as_str());
}

/// Fills the first segment, which has its file's block. A segment has 64 blocks, and each Write and its Sync take three.
pub(super) fn leave_first_segment(rt: &impl Abort, alloc: Global, volume: &mut Volume<LogStore>) {
    run(rt, alloc, volume, TWO_FILES, "3 ok\n3 ok\n3 ok\n3 ok\n");
    for _ in 0..25 {
        run(rt, alloc, volume, FURTHER_WRITE, "3 ok\n3 ok\n");
    }
}

#[test]
fn overwritten_block_is_not_written_again(rt: HostRuntime) {
    let mut volume = fresh(&rt, rt.alloc(), SMALL);
    leave_first_segment(&rt, rt.alloc(), &mut volume);
    let old = first_info(&rt, &mut volume).addr;
    overwrite_and_mark(&rt, rt.alloc(), &mut volume, Buffer::new().format(old));
}

/// The digits.
const DIGITS: [&str; 10] = ["0", "1", "2", "3", "4", "5", "6", "7", "8", "9"];

/// The first two digits of the numbers below 140.
const TENS: [&str; 14] = [
    "00", "01", "02", "03", "04", "05", "06", "07", "08", "09", "10", "11", "12", "13",
];

/// Appends a Create for each number of these tens, of a name of letters and the number.
fn push_ten(rt: &impl Abort, script: &mut String, letters: &str, ten: &str) {
    for digit in &DIGITS {
        push_all(rt, script, &["create /", letters, ten, digit, " 0644\n"]);
    }
}

/// A file is made of each of 141 names of 255 bytes, and of one of 247.
fn long_names(rt: &impl Abort, alloc: Global, letters: &str, fewer: &str) -> String {
    let mut script = String::new(alloc);
    push(rt, &mut script, "session 3\n");
    for ten in &TENS {
        push_ten(rt, &mut script, letters, ten);
    }
    push_all(rt, &mut script, &["create /", letters, "140 0644\n"]);
    push_all(rt, &mut script, &["create /", fewer, "141 0644\n"]);
    script
}

#[test]
fn directory_of_long_names(rt: HostRuntime) {
    let letters = repeated(&rt, rt.alloc(), "n", 252);
    let fewer = repeated(&rt, rt.alloc(), "n", 244);
    let script = long_names(&rt, rt.alloc(), letters.as_str(), fewer.as_str());
    let answers = repeated(&rt, rt.alloc(), "3 ok\n", 142);
    run_fresh(&rt, rt.alloc(), script.as_str(), answers.as_str());
}

/// User 5 makes calls of the cleaner.
const STRANGERS_CLEANING: &str = "session 3\nas 5 5\nifile\nmarkv\nsegclean 0\n";

/// The answers to them.
const CLEANING_DENIED: &str = "\
3 Denied(Denial { rule: IsSuperuser, path: 0, at: 0 })
3 Denied(Denial { rule: IsSuperuser, path: 0, at: 0 })
3 Denied(Denial { rule: IsSuperuser, path: 0, at: 0 })
";

/// The kind of a cleaner's call that was denied, where an entry is that of one.
fn denied_kind(entry: &Entry) -> Option<CleanerKind> {
    match &entry.event {
        Event::Cleaner(act, CleanerOutcome::Denied) => Some(act.kind()),
        _ => None,
    }
}

/// The kinds of these calls.
const KINDS: [CleanerKind; 3] = [
    CleanerKind::Ifile,
    CleanerKind::Markv,
    CleanerKind::Segclean,
];

/// Asserts that the entries are those of the calls, each denied.
fn expect_denied(rt: &impl Abort, entries: &[Entry]) {
    expect_eq(rt, entries.len(), KINDS.len());
    for (entry, kind) in entries.iter().zip(&KINDS) {
        expect_eq(rt, denied_kind(entry), Some(*kind));
    }
}

#[test]
fn cleaner_calls_by_a_stranger(rt: HostRuntime) {
    let mut volume = fresh(&rt, rt.alloc(), DEFAULTS);
    run(
        &rt,
        rt.alloc(),
        &mut volume,
        STRANGERS_CLEANING,
        CLEANING_DENIED,
    );
    expect_denied(&rt, volume.journal());
}

/// The superuser's calls where no segment is dirty.
const CLEANING: &str = "session 3\nifile\nsegclean 64\nsegclean 0\nsegclean 1\n";

/// The answers to them.
const NOTHING_CLEANED: &str = "\
3 cleaner ifile ok 3596
3 Fault(NoSuchSegment)
3 Fault(Active)
3 Fault(NotDirty)
";

#[test]
fn cleaner_calls_on_a_fresh_volume(rt: HostRuntime) {
    run_fresh(&rt, rt.alloc(), CLEANING, NOTHING_CLEANED);
}

/// The numbers of a volume whose journal has room for so many entries.
fn with_journal(journal: u32) -> Params {
    Params { journal, ..SMALL }
}

/// Makes the four calls in one run, and asserts that each is answered as it must be and entered.
fn run_calls(rt: &impl Abort, alloc: Global, volume: &mut Volume<LogStore>) {
    let calls = calls(rt, alloc, OWNER_AND_STRANGER);
    let answers = volume.run(calls).expect(rt, "a run");
    expect_answers(rt, alloc, 3, answers.as_slice(), TO_STRANGER);
    expect_eq(rt, volume.journal().len(), 4);
}

#[test]
fn run_of_calls_over_a_log(rt: HostRuntime) {
    let mut volume = fresh(&rt, rt.alloc(), with_journal(4));
    run_calls(&rt, rt.alloc(), &mut volume);
}

#[test]
fn volume_over_a_log_has_its_limit(rt: HostRuntime) {
    let volume = fresh(&rt, rt.alloc(), with_journal(2));
    expect_eq(&rt, volume.journal_limit(), 2);
}
