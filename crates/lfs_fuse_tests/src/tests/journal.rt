//! `lfs_fuse --journal-out`: each entry's line is written to a file, which may not be there before, before its reply.

use super::disk::Disk;
use super::{expect_bytes, expect_eq, message_of};
use lfs_command::streams::Streams;
use lfs_fuse_talk::program::lfs_fuse;
use std::alloc::{AllocError, Global};
use std::env::{Env, FillError};
use std::process::Abort;

/// The words of a command line, as bytes.
#[derive(Clone, Copy)]
struct Words<'a> {
    words: &'a [&'a [u8]],
}

impl Env for Words<'_> {
    fn arg(&self, i: usize, buf: &mut [u8]) -> Result<usize, FillError> {
        let Some(word) = self.words.get(i) else {
            return Err(FillError::NotPresent);
        };
        let Some(room) = buf.get_mut(..word.len()) else {
            return Err(FillError::TooLong);
        };
        room.copy_from_slice(word);
        Ok(word.len())
    }

    fn var(&self, _name: &str, _buf: &mut [u8]) -> Result<usize, FillError> {
        Err(FillError::NotPresent)
    }

    fn var_at(&self, _i: usize, _buf: &mut [u8]) -> Result<usize, FillError> {
        Err(FillError::NotPresent)
    }
}

/// Words that ask for a small volume, the journal in the file that can be made, and an image.
const FILED: &[&[u8]] = &[
    b"lfs_fuse",
    b"--segments=6",
    b"--inodes=16",
    b"--frames=32",
    b"--journal=512",
    b"--journal-out=journal.out",
    b"--image=volume.lfs",
    b"--recorded",
];

/// Such words that ask for serials besides.
const FILED_WITH_SERIALS: &[&[u8]] = &[
    b"lfs_fuse",
    b"--segments=6",
    b"--inodes=16",
    b"--frames=32",
    b"--journal=512",
    b"--journal-out=journal.out",
    b"--image=volume.lfs",
    b"--serials",
    b"--recorded",
];

/// Two look-ups in the root, of names that are missing, by user 1000.
fn talk(rt: &impl Abort, alloc: Global) -> Vec<u8> {
    let mut bytes = message_of(alloc, 42, 1, b"a\0").expect(rt, "room");
    let second = message_of(alloc, 43, 1, b"bc\0").expect(rt, "room");
    bytes.extend_from_slice(&second).expect(rt, "room");
    bytes
}

/// Streams over a talk, which keep what is written.
fn streams_of(alloc: Global, talk: &[u8]) -> Streams<&[u8], Vec<u8>, Vec<u8>> {
    Streams {
        stdin: talk,
        stdout: Vec::new(alloc),
        stderr: Vec::new(alloc),
    }
}

/// The line of each entry, and behind it the reply to its message: 16 bytes, ENOENT (2), the message's number.
const ENTERED: &[u8] = b"#1 0 as 1000 100 | stat /a | denied N2 ENOENT 0 1\n\
    \x10\0\0\0\xfe\xff\xff\xff\x07\0\0\0\0\0\0\0\
    #2 0 as 1000 100 | stat /bc | denied N2 ENOENT 0 1\n\
    \x10\0\0\0\xfe\xff\xff\xff\x07\0\0\0\0\0\0\0";

/// The status with which a talk ends whose replies go to the disk too, by these words, and what is told of it.
fn end_on(disk: &Disk, alloc: Global, words: &[&[u8]], talk: &[u8]) -> (u8, Vec<u8>) {
    let mut streams = Streams {
        stdin: talk,
        stdout: disk.files(),
        stderr: Vec::new(alloc),
    };
    let env = (Words { words }, alloc);
    let status = lfs_fuse(&env, &disk.files(), &mut streams);
    (status, streams.stderr)
}

#[test]
fn each_line_stands_before_its_reply(rt: HostRuntime) {
    let alloc = rt.alloc();
    let disk = Disk::new(alloc, false);
    let bytes = talk(&rt, alloc);
    let (status, told) = end_on(&disk, alloc, FILED, &bytes);
    expect_eq(&rt, status, 0);
    expect_eq(&rt, told.len(), 0);
    expect_eq(&rt, disk.is_saved(), true);
    expect_bytes(&rt, &disk.into_written(), ENTERED);
}

#[test]
fn a_durable_store_answers_alike(rt: HostRuntime) {
    let alloc = rt.alloc();
    let disk = Disk::new(alloc, false);
    let bytes = talk(&rt, alloc);
    let (status, told) = end_on(&disk, alloc, FILED_WITH_SERIALS, &bytes);
    expect_eq(&rt, status, 0);
    expect_eq(&rt, told.len(), 0);
    expect_eq(&rt, disk.is_saved(), true);
    expect_bytes(&rt, &disk.into_written(), ENTERED);
}

/// The name of a file that isn't there, and what it is to be called, in the directory of a node.
fn renaming(alloc: Global, node: u8) -> Result<Vec<u8>, AllocError> {
    message_of(
        alloc,
        53,
        12,
        &[node, 0, 0, 0, 0, 0, 0, 0, b'a', 0, b'b', b'c', 0],
    )
}

/// The opening of the root, to be read.
fn opening(alloc: Global) -> Result<Vec<u8>, AllocError> {
    message_of(alloc, 48, 14, &[0; 8])
}

/// The reading of its first byte.
fn reading(alloc: Global) -> Result<Vec<u8>, AllocError> {
    let mut body = [0; 40];
    body[16] = 1;
    message_of(alloc, 80, 15, &body)
}

/// The superuser lets its group, which is 0, write in the root.
fn granting(alloc: Global) -> Result<Vec<u8>, AllocError> {
    let mut body = [0; 88];
    body[0] = 1; // valid: the mode
    body[68] = 0xfd; // 0775
    body[69] = 1;
    let mut bytes = message_of(alloc, 128, 4, &body)?;
    if let Some(user) = bytes.as_mut_slice().get_mut(24..26) {
        user.fill(0);
    }
    Ok(bytes)
}

/// The lines and the replies of a look-up, of a read and of a rename in the root: ENOENT (2), EISDIR (21), ENOENT. Of an
/// opening, and of a rename to another directory, there is no entry, and the reply is EACCES (13).
const UNKNOWN: &[u8] = b"#1 0 as 1000 100 | stat /a | denied N2 ENOENT 0 1\n\
    \x10\0\0\0\xfe\xff\xff\xff\x07\0\0\0\0\0\0\0\
    #2 0 as 1000 100 | read / 0 1 | denied K1 EISDIR 0 0\n\
    \x10\0\0\0\xeb\xff\xff\xff\x07\0\0\0\0\0\0\0\
    #3 0 as 1000 100 | rename /a /bc | denied N2 ENOENT 0 1\n\
    \x10\0\0\0\xfe\xff\xff\xff\x07\0\0\0\0\0\0\0\
    \x10\0\0\0\xf3\xff\xff\xff\x07\0\0\0\0\0\0\0\
    \x10\0\0\0\xf3\xff\xff\xff\x07\0\0\0\0\0\0\0";

#[test]
fn groups_that_are_unknown_count_where_they_grant(rt: HostRuntime) {
    let alloc = rt.alloc();
    let disk = Disk::new(alloc, false);
    let mut bytes = message_of(alloc, 42, 1, b"a\0").expect(&rt, "room");
    let read = reading(alloc).expect(&rt, "room");
    bytes.extend_from_slice(&read).expect(&rt, "room");
    let within = renaming(alloc, 1).expect(&rt, "room");
    bytes.extend_from_slice(&within).expect(&rt, "room");
    let opened = opening(alloc).expect(&rt, "room");
    bytes.extend_from_slice(&opened).expect(&rt, "room");
    let away = renaming(alloc, 2).expect(&rt, "room");
    bytes.extend_from_slice(&away).expect(&rt, "room");
    // Not recorded: the groups of a process are looked for, but its file isn't on this disk.
    let (status, _told) = end_on(&disk, alloc, &FILED[..7], &bytes);
    expect_eq(&rt, status, 0);
    expect_bytes(&rt, &disk.into_written(), UNKNOWN);
}

/// The replies to a rename and to a read of what grants its group more than others: EACCES (13), and EISDIR (21), as that
/// is granted reading alike.
const GRANTED: &[u8] = b"\x10\0\0\0\xf3\xff\xff\xff\x07\0\0\0\0\0\0\0\
    \x10\0\0\0\xeb\xff\xff\xff\x07\0\0\0\0\0\0\0";

#[test]
fn groups_count_where_a_mode_grants_them_more(rt: HostRuntime) {
    let alloc = rt.alloc();
    let disk = Disk::new(alloc, false);
    let mut bytes = granting(alloc).expect(&rt, "room");
    let within = renaming(alloc, 1).expect(&rt, "room");
    bytes.extend_from_slice(&within).expect(&rt, "room");
    let read = reading(alloc).expect(&rt, "room");
    bytes.extend_from_slice(&read).expect(&rt, "room");
    let mut streams = streams_of(alloc, &bytes);
    let env = (Words { words: &FILED[..7] }, alloc);
    let status = lfs_fuse(&env, &disk.files(), &mut streams);
    expect_eq(&rt, status, 0);
    // Behind the attributes: 16 bytes, and 104.
    assert_eq!(rt; streams.stdout.len(), 152);
    expect_bytes(&rt, &streams.stdout[120..], GRANTED);
}

/// The replies where the file takes no byte: EDQUOT (122).
const LOST: &[u8] = b"\x10\0\0\0\x86\xff\xff\xff\x07\0\0\0\0\0\0\0\
    \x10\0\0\0\x86\xff\xff\xff\x07\0\0\0\0\0\0\0";

#[test]
fn file_that_takes_no_more_is_told_once(rt: HostRuntime) {
    let alloc = rt.alloc();
    let disk = Disk::new(alloc, true);
    let bytes = talk(&rt, alloc);
    let mut streams = streams_of(alloc, &bytes);
    let env = (Words { words: FILED }, alloc);
    let status = lfs_fuse(&env, &disk.files(), &mut streams);
    expect_eq(&rt, status, 1);
    expect_bytes(&rt, &streams.stdout, LOST);
    let why = b"lfs_fuse: journal not written: write failed\n";
    expect_bytes(&rt, &streams.stderr, why);
    expect_eq(&rt, disk.is_saved(), true);
    expect_eq(&rt, disk.into_written().len(), 0);
}

#[test]
fn file_that_is_there_is_left(rt: HostRuntime) {
    let alloc = rt.alloc();
    let disk = Disk::new(alloc, false);
    let bytes = talk(&rt, alloc);
    let mut streams = streams_of(alloc, &bytes);
    let words: &[&[u8]] = &[b"lfs_fuse", b"--journal-out=there.out"];
    let env = (Words { words }, alloc);
    let status = lfs_fuse(&env, &disk.files(), &mut streams);
    expect_eq(&rt, status, 2);
    expect_eq(&rt, streams.stdout.len(), 0);
    expect_bytes(&rt, &streams.stderr, b"lfs_fuse: journal file exists\n");
    expect_bytes(&rt, streams.stdin, &bytes);
}
