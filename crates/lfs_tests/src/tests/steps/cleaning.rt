//! Dirty segments that are emptied and cleaned by a cleaner's calls alone.

use super::run;
use crate::tests::{expect_eq, fresh, push, push_all, repeated};
use lfs_logstore::LogStore;
use lfs_model::asking::CleanerAct;
use lfs_types::cleaner::{BlockInfo, CleanFault, CleanerCall, InfoList, MarkList};
use lfs_types::cred::Cred;
use lfs_types::store::Params;
use lfs_volume::journal::{CleanerAnswer, CleanerOutcome, Entry, Event};
use lfs_volume::volume::Volume;
use std::alloc::Global;
use std::process::Abort;

/// A volume with room for what is written here and for all of it once more.
const ROOMY: Params = Params {
    segments: 16,
    inodes: 64,
    frames: 32,
    journal: 4096,
};

/// The rounds in which the files are written, by the byte that is written in each.
const ROUNDS: [&str; 48] = [
    "00", "01", "02", "03", "04", "05", "06", "07", "08", "09", "0a", "0b", "0c", "0d", "0e", "0f",
    "10", "11", "12", "13", "14", "15", "16", "17", "18", "19", "1a", "1b", "1c", "1d", "1e", "1f",
    "20", "21", "22", "23", "24", "25", "26", "27", "28", "29", "2a", "2b", "2c", "2d", "2e", "2f",
];

/// The places of sixteen blocks.
const PLACES: [&str; 16] = [
    "0", "512", "1024", "1536", "2048", "2560", "3072", "3584", "4096", "4608", "5120", "5632",
    "6144", "6656", "7168", "7680",
];

/// Appends the Writes of a block of each file in turn, each with a Sync, with the round's byte throughout. `/b` has blocks
/// behind the twelfth, and every sixth round makes a file, named after its byte, that is never written again.
fn push_round(rt: &impl Abort, script: &mut String, round: usize, byte: &str, block: &str) {
    push_write(rt, script, "a", PLACES[round % 3], block);
    push_write(rt, script, "b", PLACES[round % 16], block);
    if round % 6 == 0 {
        push_all(rt, script, &["create /k", byte, " 0644\nwrite /k", byte]);
        push_all(rt, script, &[" at 0 ", block, "\nsync\n"]);
    }
}

/// Appends the Write of a block of a file at a place, and a Sync.
fn push_write(rt: &impl Abort, script: &mut String, name: &str, place: &str, block: &str) {
    push_all(rt, script, &["write /", name, " at ", place, " ", block]);
    push(rt, script, "\nsync\n");
}

/// The files that are written over and over are made, and written.
fn writes(rt: &impl Abort, alloc: Global) -> String {
    let mut script = String::new(alloc);
    push(
        rt,
        &mut script,
        "session 3\ncreate /a 0644\ncreate /b 0644\n",
    );
    for (round, byte) in ROUNDS.iter().enumerate() {
        let block = repeated(rt, alloc, byte, 512);
        push_round(rt, &mut script, round, byte, block.as_str());
    }
    script
}

/// Makes the files, and writes them over and over.
fn write_files(rt: &impl Abort, alloc: Global, volume: &mut Volume<LogStore>) {
    let script = writes(rt, alloc);
    let answers = repeated(rt, alloc, "3 ok\n", 218);
    run(rt, alloc, volume, script.as_str(), answers.as_str());
}

/// The Reads of blocks of files.
const READS: &str = "\
session 3
read /b 0 512
read /b 512 512
read /b 1024 512
read /b 1536 512
read /b 2048 512
read /b 2560 512
read /b 3072 512
read /b 3584 512
read /b 4096 512
read /b 4608 512
read /b 5120 512
read /b 5632 512
read /b 6144 512
read /b 6656 512
read /a 0 512
read /b 7168 512
read /a 512 512
read /b 7680 512
read /a 1024 512
read /k00 0 512
read /k06 0 512
read /k0c 0 512
read /k12 0 512
read /k18 0 512
read /k1e 0 512
read /k24 0 512
read /k2a 0 512
";

/// The bytes of these blocks: for each the round that wrote it last.
const LAST: [&str; 27] = [
    "20", "21", "22", "23", "24", "25", "26", "27", "28", "29", "2a", "2b", "2c", "2d", "2d", "2e",
    "2e", "2f", "2f", "00", "06", "0c", "12", "18", "1e", "24", "2a",
];

/// The answers to these Reads.
fn last_answers(rt: &impl Abort, alloc: Global) -> String {
    let mut answers = String::new(alloc);
    for byte in &LAST {
        let block = repeated(rt, alloc, byte, 512);
        push_all(rt, &mut answers, &["3 bytes ", block.as_str(), "\n"]);
    }
    answers
}

/// Reads each block, and asserts that it has what was last written.
fn read_files(rt: &impl Abort, alloc: Global, volume: &mut Volume<LogStore>) {
    let answers = last_answers(rt, alloc);
    run(rt, alloc, volume, READS, answers.as_str());
}

/// The superuser.
pub(super) fn root(rt: &impl Abort) -> Cred {
    Cred::new(0, &[0], false).expect(rt, "a credential")
}

/// Whether a segment is dirty.
pub(super) fn is_dirty(rt: &impl Abort, volume: &mut Volume<LogStore>, segment: u32) -> bool {
    let root = root(rt);
    let answer = volume.clean(255, &root, CleanerCall::Infos(segment));
    matches!(answer, CleanerAnswer::Infos(_))
}

/// The segments that are dirty.
pub(super) fn dirty_segments(
    rt: &impl Abort,
    alloc: Global,
    volume: &mut Volume<LogStore>,
) -> Vec<u32> {
    let mut dirty = Vec::new(alloc);
    for segment in 0..ROOMY.segments {
        if is_dirty(rt, volume, segment) {
            dirty.push(segment).expect(rt, "memory");
        }
    }
    dirty
}

/// The infos of a segment that is dirty.
pub(super) fn infos_of(rt: &impl Abort, volume: &mut Volume<LogStore>, segment: u32) -> InfoList {
    let root = root(rt);
    match volume.clean(255, &root, CleanerCall::Infos(segment)) {
        CleanerAnswer::Infos(infos) => infos,
        _ => panic!(rt; "no infos"),
    }
}

/// The present addresses of these blocks and records.
pub(super) fn located(
    rt: &impl Abort,
    volume: &mut Volume<LogStore>,
    asked: &[BlockInfo],
) -> InfoList {
    let infos = InfoList::new(asked).expect(rt, "infos");
    let root = root(rt);
    match volume.clean(255, &root, CleanerCall::Bmapv(infos)) {
        CleanerAnswer::Bmapv(infos) => infos,
        _ => panic!(rt; "no addresses"),
    }
}

/// Has all that a segment's infos name written again, eight at a time, and gives how many blocks that moved.
pub(super) fn empty_segment(rt: &impl Abort, volume: &mut Volume<LogStore>, segment: u32) -> u32 {
    let infos = infos_of(rt, volume, segment);
    let mut moved = 0u32;
    for eight in infos.items().chunks(8) {
        moved = moved.saturating_add(mark(rt, volume, eight));
    }
    moved
}

/// Has what at most eight infos name written again, and gives how many blocks that moved.
pub(super) fn mark(rt: &impl Abort, volume: &mut Volume<LogStore>, infos: &[BlockInfo]) -> u32 {
    let marks = MarkList::new(infos).expect(rt, "at most eight");
    let root = root(rt);
    match volume.clean(255, &root, CleanerCall::Markv(marks)) {
        CleanerAnswer::Marked(count) => count,
        _ => panic!(rt; "not written again"),
    }
}

/// What came of a Segclean.
#[derive(Clone, Copy, Debug, PartialEq)]
pub(super) enum Tried {
    /// The segment is clean.
    Cleaned,
    /// It has live bytes.
    Live,
    Otherwise,
}

/// What comes of a Segclean, and how many more segments are then counted as clean.
pub(super) fn try_to_clean(
    rt: &impl Abort,
    volume: &mut Volume<LogStore>,
    segment: u32,
) -> (Tried, u32) {
    let root = root(rt);
    let before = volume.clean_segments();
    let tried = match volume.clean(255, &root, CleanerCall::Segclean(segment)) {
        CleanerAnswer::Cleaned => Tried::Cleaned,
        CleanerAnswer::Fault(CleanFault::Live(_)) => Tried::Live,
        _ => Tried::Otherwise,
    };
    (tried, volume.clean_segments().wrapping_sub(before))
}

/// Asserts that a segment has live bytes, and becomes clean once its blocks were written again.
fn clean_one(rt: &impl Abort, volume: &mut Volume<LogStore>, segment: u32) {
    expect_eq(rt, try_to_clean(rt, volume, segment), (Tried::Live, 0));
    let moved = empty_segment(rt, volume, segment);
    expect_eq(rt, moved > 0, true);
    expect_eq(rt, try_to_clean(rt, volume, segment), (Tried::Cleaned, 1));
}

/// Cleans each of these segments so.
fn clean_each(rt: &impl Abort, volume: &mut Volume<LogStore>, dirty: &[u32]) {
    for segment in dirty {
        clean_one(rt, volume, *segment);
    }
}

/// How many segments became clean, as the journal tells.
fn cleanings(journal: &[Entry]) -> usize {
    let mut count = 0usize;
    for entry in journal {
        if let Event::Cleaner(CleanerAct::Segclean(_), CleanerOutcome::Done(0)) = &entry.event {
            count = count.saturating_add(1);
        }
    }
    count
}

/// Asserts that at least four segments are dirty and all others but the active one clean, and that all become clean and
/// no other. Six rounds take from 40 to 44 blocks, and a segment has 64: so 48 rounds leave at least four segments
/// dirty, each with a block of a file that is written once.
fn clean_dirty(rt: &impl Abort, volume: &mut Volume<LogStore>, dirty: &[u32]) {
    let before = volume.clean_segments() as usize;
    expect_eq(rt, before, 15usize.saturating_sub(dirty.len()));
    expect_eq(rt, dirty.len() >= 4, true);
    clean_each(rt, volume, dirty);
    expect_eq(rt, cleanings(volume.journal()), dirty.len());
    expect_eq(rt, volume.clean_segments() as usize > before, true);
}

/// Writes the files, cleans, and reads them.
fn write_clean_and_read(rt: &impl Abort, alloc: Global, volume: &mut Volume<LogStore>) {
    write_files(rt, alloc, volume);
    let dirty = dirty_segments(rt, alloc, volume);
    clean_dirty(rt, volume, dirty.as_slice());
    read_files(rt, alloc, volume);
}

#[test]
fn each_dirty_segment_is_emptied_and_cleaned(rt: HostRuntime) {
    let mut volume = fresh(&rt, rt.alloc(), ROOMY);
    write_clean_and_read(&rt, rt.alloc(), &mut volume);
}
