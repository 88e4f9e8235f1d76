//! Volumes that a user fills and locks, of several sizes: behind ten passes the superuser takes the locks away, and then all
//! files, and the user writes again.

use super::full::make_pass;
use super::{DEFAULTS, calls, expect_answers, fresh, push, push_byte, push_number, repeated};
use lfs_logstore::LogStore;
use lfs_types::store::Params;
use lfs_volume::volume::Volume;
use std::alloc::Global;
use std::process::Abort;

/// What a user locks: his directory, with the first flags, and each of its files, with the others.
#[derive(Clone, Copy)]
struct Locks {
    directory: &'static str,
    files: &'static str,
    /// What the superuser is answered who removes a file then.
    denied: &'static str,
}

/// The directory and all files are immutable.
const ALL: Locks = Locks {
    directory: " 2\n",
    files: " 2\n",
    denied: "0 denied F1 EPERM 0 2\n",
};

/// The directory alone is.
const DIRECTORY: Locks = Locks {
    files: " 0\n",
    ..ALL
};

/// The directory and all files are append-only.
const APPEND_ONLY: Locks = Locks {
    directory: " 4\n",
    files: " 4\n",
    denied: "0 denied F2 EPERM 0 2\n",
};

/// The user's directory, the one that is locked, and a file beside it.
const MADE: &str = "mkdir /u 0755\nchown /u 7 7\nas 7 7\nmkdir /u/d 0755\ncreate /u/e 0644\n";

/// Appends a line for each of so many files: its path between two texts.
fn push_each(rt: &impl Abort, script: &mut String, before: &str, files: usize, after: &str) {
    for file in 0..files {
        push_number(rt, script, before, file, after);
    }
}

/// Lines that make the files, of a user's directory that is locked then.
fn making(rt: &impl Abort, alloc: Global, files: usize, locks: Locks) -> String {
    let mut script = String::new(alloc);
    push(rt, &mut script, MADE);
    push_each(rt, &mut script, "create /u/d/f", files, " 0644\n");
    push(rt, &mut script, "chflags /u/d");
    push(rt, &mut script, locks.directory);
    script
}

/// Lines of the user's: 128 blocks of a file past the twelfth are written, eight at a time, and the file is locked.
fn filling(rt: &impl Abort, alloc: Global, file: usize, locks: Locks) -> String {
    let mut script = String::new(alloc);
    push(rt, &mut script, "as 7 7\n");
    for write in 0..16 {
        push_number(rt, &mut script, "write /u/d/f", file, " at ");
        push_number(rt, &mut script, "", 6144 + 4096 * write, " ");
        push_byte(rt, &mut script, 0x61, 4096);
        push(rt, &mut script, "\n");
    }
    push_number(rt, &mut script, "chflags /u/d/f", file, locks.files);
    script
}

/// Makes the calls of a script; what is answered isn't looked at.
fn make(rt: &impl Abort, alloc: Global, volume: &mut Volume<LogStore>, script: String) {
    let answers = volume.run(calls(rt, alloc, script.as_str()));
    drop(answers.expect(rt, "a run"));
}

/// Makes the calls of a script, which must be answered so.
fn expect(
    rt: &impl Abort,
    alloc: Global,
    volume: &mut Volume<LogStore>,
    script: &str,
    lines: &str,
) {
    let answers = volume.run(calls(rt, alloc, script));
    let answers = answers.expect(rt, "a run");
    expect_answers(rt, alloc, 0, answers.as_slice(), lines);
}

/// Lines of the user's: a byte of a file beside the locked directory is written and synced, so often.
fn using_up(rt: &impl Abort, alloc: Global) -> String {
    let mut script = String::new(alloc);
    push(rt, &mut script, "as 7 7\n");
    for _ in 0..60 {
        push(rt, &mut script, "write /u/e at 0 62\nsync\n");
    }
    script
}

/// A line of the user's for which there is no room.
const NO_ROOM: (&str, &str) = ("as 7 7\nwrite /u/e at 0 62\n", "0 refused NoSpace\n");

/// Fills a volume for the user, and locks what fills it, until not a byte of his can be written.
fn fill(rt: &impl Abort, alloc: Global, volume: &mut Volume<LogStore>, files: usize, locks: Locks) {
    make(rt, alloc, volume, making(rt, alloc, files, locks));
    for file in 0..files {
        make(rt, alloc, volume, filling(rt, alloc, file, locks));
    }
    make(rt, alloc, volume, using_up(rt, alloc));
    expect(rt, alloc, volume, NO_ROOM.0, NO_ROOM.1);
}

/// Lines of the superuser's, who takes all locks away. Where a file's lock had no room, it has none to lose.
fn unlocking(rt: &impl Abort, alloc: Global, files: usize) -> String {
    let mut script = String::new(alloc);
    push(rt, &mut script, "chflags /u/d 0\n");
    push_each(rt, &mut script, "chflags /u/d/f", files, " 0\n");
    script
}

/// Lines of the superuser's, who removes all files and their directory.
fn removing(rt: &impl Abort, alloc: Global, files: usize) -> String {
    let mut script = String::new(alloc);
    push_each(rt, &mut script, "unlink /u/d/f", files, "\n");
    push(rt, &mut script, "rmdir /u/d\n");
    script
}

/// The user's file is left, and he writes again.
const AGAIN: &str = "list /u\nas 7 7\nwrite /u/e at 0 63\nsync\nread /u/e 0 1\n";

/// What that is answered.
const WRITTEN: &str = "0 names e\n0 ok\n0 ok\n0 bytes 63\n";

/// The superuser takes all locks away, and removes all files.
fn take_away(rt: &impl Abort, alloc: Global, volume: &mut Volume<LogStore>, files: usize) {
    make(rt, alloc, volume, unlocking(rt, alloc, files));
    let script = removing(rt, alloc, files);
    let removed = repeated(rt, alloc, "0 ok\n", files.saturating_add(1));
    expect(rt, alloc, volume, script.as_str(), removed.as_str());
}

/// A volume of so many segments is filled and locked so, and comes back.
fn expect_back(rt: &impl Abort, alloc: Global, segments: u32, locks: Locks) {
    let files = segments as usize / 2;
    let params = Params {
        segments,
        ..DEFAULTS
    };
    let mut volume = fresh(rt, alloc, params);
    fill(rt, alloc, &mut volume, files, locks);
    for _ in 0..10 {
        make_pass(rt, &mut volume);
    }
    expect(rt, alloc, &mut volume, "unlink /u/d/f0\n", locks.denied);
    take_away(rt, alloc, &mut volume, files);
    make_pass(rt, &mut volume);
    expect(rt, alloc, &mut volume, AGAIN, WRITTEN);
}

/// Volumes of several sizes do so.
fn expect_each_back(rt: &impl Abort, alloc: Global, locks: Locks) {
    for segments in [6, 12, 64] {
        expect_back(rt, alloc, segments, locks);
    }
}

#[test]
fn volume_full_of_immutable_files_comes_back(rt: HostRuntime) {
    expect_each_back(&rt, rt.alloc(), ALL);
}

#[test]
fn volume_full_in_an_immutable_directory_comes_back(rt: HostRuntime) {
    expect_each_back(&rt, rt.alloc(), DIRECTORY);
}

#[test]
fn volume_full_of_append_only_files_comes_back(rt: HostRuntime) {
    expect_each_back(&rt, rt.alloc(), APPEND_ONLY);
}
