//! At which place of a journal the volume stands that is found in blocks. The blocks are those of a volume of 6 segments
//! and 16 inode numbers with the root alone, or with empty files besides, of mode 0644, in it.

use super::command::{Ended, Words, expect_ended};
use super::image::Image;
use super::rescue::{FILE, LISTED, bytes_in, memory_of, partial, root, root_and_file};
use lfs_command::streams::Streams;
use lfs_rescue::program::lfs_check;
use lfs_types::block::Block;
use std::alloc::Global;
use std::process::Abort;

/// What is told of the volume with the file 4, before its place.
const FULL: &str = "ok
segments 5 clean of 6
bytes 768 live
numbers 2 used of 16
waiting 0 blocks 0 records
";

/// How `lfs_check` ends that looks for a volume in these blocks, and for its place in a journal.
fn placed(rt: &impl Abort, alloc: Global, blocks: &[Block], journal: &str) -> Ended {
    let memory = memory_of(rt, alloc, blocks);
    let bytes = bytes_in(rt, alloc, &memory);
    let words: &[&[u8]] = &[b"lfs_check", b"--recover", b"--journal=volume.image"];
    let env = (Words { words }, alloc);
    let files = Image {
        bytes: journal.as_bytes(),
    };
    let mut streams = Streams {
        stdin: bytes.as_slice(),
        stdout: Vec::new(alloc),
        stderr: Vec::new(alloc),
    };
    let status = lfs_check(&env, &files, &mut streams);
    Ended {
        status,
        out: streams.stdout,
        err: streams.stderr,
    }
}

/// Asserts with which status the search ends of the place of the volume with the file `f`, and which line it tells.
fn expect_place(rt: &impl Abort, alloc: Global, journal: &str, status: u8, line: &str) {
    let ended = placed(rt, alloc, &partial(1, &LISTED, root_and_file(2)), journal);
    let wanted = format!(in alloc; "{FULL}{line}\n").expect(rt, "memory");
    expect_ended(rt, &ended, (status, wanted.as_str(), ""));
}

/// Six calls, of which the first and the third lead to the file, and the fourth leaves it.
const SIX: &str = "0 as 0 0 | create /f 0644 | ok
0 as 0 0 | chmod /f 0600 | ok
0 as 0 0 | chmod /f 0644 | ok
0 as 0 0 | sync | ok
0 as 0 0 | create /g 0644 | ok
0 as 0 0 | sync | ok
";

#[test]
fn tree_that_comes_twice_stands_at_the_later_place(rt: HostRuntime) {
    let line = "journal: the tree is that behind entry 4 of 6";
    expect_place(&rt, rt.alloc(), SIX, 0, line);
}

#[test]
fn tree_behind_all_entries_stands_at_the_last(rt: HostRuntime) {
    let alloc = rt.alloc();
    let line = "journal: the tree is that behind entry 2 of 2";
    let journal = "#1 0 as 0 0 | sync | ok\n#2 0 as 0 0 | create /f 0644 | ok\n";
    expect_place(&rt, alloc, journal, 0, line);
}

#[test]
fn journal_of_another_volume_leads_nowhere(rt: HostRuntime) {
    let alloc = rt.alloc();
    let line = "fault: none of the journal's 1 entries leads to this tree";
    let other_mode = "0 as 0 0 | create /f 0600 | ok\n";
    expect_place(&rt, alloc, other_mode, 1, line);
    let other_name = "0 as 0 0 | create /g 0644 | ok\n";
    expect_place(&rt, alloc, other_name, 1, line);
    let directory = "0 as 0 0 | mkdir /f 0644 | ok\n";
    expect_place(&rt, alloc, directory, 1, line);
    expect_place(
        &rt,
        alloc,
        "",
        1,
        "fault: none of the journal's 0 entries leads to this tree",
    );
}

#[test]
fn journal_that_is_not_legal_is_told(rt: HostRuntime) {
    let alloc = rt.alloc();
    let gap = "#1 0 as 0 0 | create /f 0644 | ok\n#3 0 as 0 0 | sync | ok\n";
    expect_place(&rt, alloc, gap, 1, "fault: unreadable entry 2: line: Gap");
    let cut = "0 as 0 0 | create /f 0644 | ok";
    expect_place(&rt, alloc, cut, 1, "fault: unreadable entry 1: line: Cut");
}

/// What is told of the volume with the root alone, before its place.
const ALONE: &str = "ok
segments 5 clean of 6
bytes 640 live
numbers 1 used of 16
waiting 0 blocks 0 records
";

#[test]
fn root_alone_stands_before_the_first_entry_or_behind_a_removal(rt: HostRuntime) {
    let alloc = rt.alloc();
    let alone = partial(1, &[], root(2));
    let ended = placed(&rt, alloc, &alone, "0 as 0 0 | create /f 0644 | ok\n");
    let line = "journal: the tree is the fresh one, behind none of 1 entries\n";
    let wanted = format!(in alloc; "{ALONE}{line}").expect(&rt, "memory");
    expect_ended(&rt, &ended, (0, wanted.as_str(), ""));
    let removed = "0 as 0 0 | create /f 0644 | ok\n0 as 0 0 | unlink /f | ok\n";
    let ended = placed(&rt, alloc, &alone, removed);
    let line = "journal: the tree is that behind entry 2 of 2\n";
    let wanted = format!(in alloc; "{ALONE}{line}").expect(&rt, "memory");
    expect_ended(&rt, &ended, (0, wanted.as_str(), ""));
}

/// The directory block with the names `g` of file 5 and `f` of file 4, in this order.
const SWAPPED: [u8; 12] = [0, 0, 0, 5, 1, b'g', 0, 0, 0, 4, 1, b'f'];

/// What is told of the volume with both files, before its place.
const BOTH: &str = "ok
segments 5 clean of 6
bytes 896 live
numbers 3 used of 16
waiting 0 blocks 0 records
";

#[test]
fn names_in_another_order_are_the_same_tree(rt: HostRuntime) {
    let alloc = rt.alloc();
    let mut records = root_and_file(2);
    records[256..278].copy_from_slice(&FILE);
    records[263] = 5;
    let journal = "0 as 0 0 | create /f 0644 | ok\n0 as 0 0 | create /g 0644 | ok\n";
    let ended = placed(&rt, alloc, &partial(1, &SWAPPED, records), journal);
    let line = "journal: the tree is that behind entry 2 of 2\n";
    let wanted = format!(in alloc; "{BOTH}{line}").expect(&rt, "memory");
    expect_ended(&rt, &ended, (0, wanted.as_str(), ""));
}

#[test]
fn journal_that_is_not_there_is_a_fault(rt: HostRuntime) {
    let alloc = rt.alloc();
    let memory = memory_of(&rt, alloc, &partial(1, &LISTED, root_and_file(2)));
    let bytes = bytes_in(&rt, alloc, &memory);
    let words: &[&[u8]] = &[b"lfs_check", b"--recover", b"--journal=nowhere"];
    let env = (Words { words }, alloc);
    let files = Image { bytes: &[] };
    let mut streams = Streams {
        stdin: bytes.as_slice(),
        stdout: Vec::new(alloc),
        stderr: Vec::new(alloc),
    };
    let status = lfs_check(&env, &files, &mut streams);
    let ended = Ended {
        status,
        out: streams.stdout,
        err: streams.stderr,
    };
    expect_ended(&rt, &ended, (1, "", "lfs_check: journal not opened\n"));
}
