//! `lfs_shell --film`: a film is written where one is asked for and all was answered, and no file is made else.

use super::files::Disk;
use super::{Program, expect_end, page_of};
use crate::tests::expect_eq;
use crate::tests::film::{FRAMES, MARKED, MARKED_FRAMES, TALK, expect_frames};
use crate::tests::scripts::fakes::Failing;
use std::io::ErrorKind;
use std::process::Abort;
use std::sync::Wait;
use std::thread::Threads;

/// What is told of the talk.
pub(super) const TOLD: &str = "0 ok\n0 stat 4 file 0 0 0644 00000000 0\n0 ok\n0 ok\n0 ok\n\
    entries 5\nserved 5\ndenied 0\nrefused 0\ncleaner 0\n";

/// Words that ask for a film in the file that can be made.
const FILMED: &[&[u8]] = &[b"lfs_shell", b"--segments=6", b"--film", b"film.html"];

/// What is told of a talk that makes a file and has a line with a fault.
const MADE: (u8, &str, &str) = (
    0,
    "0 ok\nfault Words line 2 'nonsense' at 1: no line begins so\nentries 1\nserved 1\ndenied 0\nrefused 0\ncleaner 0\n",
    "",
);

#[test]
fn film_shows_marks_and_a_fault(rt: HostRuntime) {
    let asked = (Program::Shell, FILMED);
    let page = page_of(&rt, rt.alloc(), asked, &mut &*MARKED, MADE, 1);
    expect_frames(&rt, rt.alloc(), page.as_slice(), MARKED_FRAMES);
}

#[test]
fn no_file_is_made_where_no_film_is_asked_for(rt: HostRuntime) {
    let asked: (Program, &[&[u8]]) = (Program::Shell, &[b"lfs_shell", b"--segments=6"]);
    page_of(&rt, rt.alloc(), asked, &mut &*TALK, (0, TOLD, ""), 0);
}

#[test]
fn no_file_is_made_behind_a_fault_of_the_talk(rt: HostRuntime) {
    let mut stdin = Failing {
        rest: TALK,
        reads: 15,
        kind: ErrorKind::Other,
    };
    let asked = (Program::Shell, FILMED);
    let wanted = (1, "0 ok\n", "lfs_shell: read failed\n");
    page_of(&rt, rt.alloc(), asked, &mut stdin, wanted, 0);
}

/// What a talk ends with whose film's file is not made.
const UNMADE: (u8, &str, &str) = (1, TOLD, "lfs_shell: film not written: entity not found\n");

/// What one ends with whose film finds no room.
const UNWRITTEN: (u8, &str, &str) = (1, TOLD, "lfs_shell: film not written: write failed\n");

#[test]
fn film_whose_file_can_not_be_made_is_a_fault(rt: HostRuntime) {
    let words: &[&[u8]] = &[b"lfs_shell", b"--segments=6", b"--film=none/film.html"];
    let asked = (Program::Shell, words);
    page_of(&rt, rt.alloc(), asked, &mut &*TALK, UNMADE, 0);
}

/// Films the talk on a disk, which must end so, and asserts whether the one file that it makes gets its name.
fn expect_filmed<S: Abort + Threads + Wait + Sync>(
    rt: &S,
    disk: &Disk,
    wanted: (u8, &str, &str),
    is_renamed: bool,
) {
    let asked = (Program::Shell, FILMED);
    expect_end(rt, disk, asked, &mut &*TALK, wanted);
    expect_eq(rt, disk.made(), 1);
    expect_eq(rt, disk.is_renamed(), is_renamed);
}

#[test]
fn film_that_finds_no_room_is_a_fault(rt: HostRuntime) {
    let disk = Disk::new(rt.alloc(), true);
    expect_filmed(&rt, &disk, UNWRITTEN, false);
}

#[test]
fn film_is_written_to_its_file(rt: HostRuntime) {
    let disk = Disk::new(rt.alloc(), false);
    expect_filmed(&rt, &disk, (0, TOLD, ""), true);
    expect_frames(&rt, rt.alloc(), disk.into_page().as_slice(), FRAMES);
}
