//! `lfs_shell --journal-out`: each entry's line is written to a file, which may not be there before.

use super::files::Disk;
use super::film::TOLD;
use super::{Program, expect_end, page_of};
use crate::tests::expect_eq;
use crate::tests::film::TALK;

/// Words that ask for the journal in the file that can be made, with the least window.
const KEPT: &[&[u8]] = &[
    b"lfs_shell",
    b"--segments=6",
    b"--journal=128",
    b"--journal-out",
    b"journal.out",
];

/// The lines of the talk's entries.
const LINES: &str = "#1 0 as 0 0 | create /a 0644 | ok\n\
    #2 0 as 0 0 | stat /a | stat 4 file 0 0 0644 00000000 0\n\
    #3 0 as 0 0 | sync | ok\n\
    #4 0 as 0 0 | sync | ok\n\
    #5 0 as 0 0 | write /a end 78 | ok\n";

#[test]
fn journal_is_written_to_its_file(rt: HostRuntime) {
    let asked = (Program::Shell, KEPT);
    let page = page_of(&rt, rt.alloc(), asked, &mut &*TALK, (0, TOLD, ""), 1);
    expect_eq(&rt, page.as_slice(), LINES.as_bytes());
}

/// What is told of the talk where the file takes no byte: the first call was made by then, and no other is.
const UNWRITTEN: &str =
    "0 ok\n0 refused JournalFull\n0 refused JournalFull\n0 refused JournalFull\n\
    0 refused JournalFull\nentries 1\nserved 1\ndenied 0\nrefused 0\ncleaner 0\n\
    unentered JournalFull 4\n";

#[test]
fn journal_that_finds_no_room_is_told_once(rt: HostRuntime) {
    let alloc = rt.alloc();
    let disk = Disk::new(alloc, true);
    let mut talk = TALK;
    let wanted = (
        1,
        UNWRITTEN,
        "lfs_shell: journal not written: write failed\n",
    );
    expect_end(&rt, &disk, (Program::Shell, KEPT), &mut talk, wanted);
}

#[test]
fn journal_file_that_is_there_is_left(rt: HostRuntime) {
    let mut talk = TALK;
    let words: &[&[u8]] = &[b"lfs_shell", b"--journal-out=there.out"];
    let wanted = (2, "", "lfs_shell: journal file exists\n");
    page_of(
        &rt,
        rt.alloc(),
        (Program::Shell, words),
        &mut talk,
        wanted,
        0,
    );
    expect_eq(&rt, talk, TALK);
}

/// Syncs, one more than the 22 behind which the least window has no room for what a line may ask for, and the journal.
const SYNCS: &[u8] = b"sync\nsync\nsync\nsync\nsync\nsync\nsync\nsync\nsync\nsync\nsync\nsync\n\
    sync\nsync\nsync\nsync\nsync\nsync\nsync\nsync\nsync\nsync\nsync\n.journal\n";

/// What is told of them: the last alone is kept, and the report counts all.
const SYNCED: &str = "0 ok\n0 ok\n0 ok\n0 ok\n0 ok\n0 ok\n0 ok\n0 ok\n0 ok\n0 ok\n0 ok\n0 ok\n\
    0 ok\n0 ok\n0 ok\n0 ok\n0 ok\n0 ok\n0 ok\n0 ok\n0 ok\n0 ok\n0 ok\n0 as 0 0 | sync | ok\n\
    entries 23\nserved 23\ndenied 0\nrefused 0\ncleaner 0\n";

#[test]
fn journal_goes_on_behind_its_window(rt: HostRuntime) {
    let asked = (Program::Shell, KEPT);
    let page = page_of(&rt, rt.alloc(), asked, &mut &*SYNCS, (0, SYNCED, ""), 1);
    let first = b"#1 0 as 0 0 | sync | ok\n#2 ";
    expect_eq(&rt, page.starts_with(first), true);
    let last = b"\n#22 0 as 0 0 | sync | ok\n#23 0 as 0 0 | sync | ok\n";
    expect_eq(&rt, page.ends_with(last), true);
}
