//! `lfs_shell --disk`: a volume that stands on a file of the host, and is found there by the next talk.

use super::Words;
use crate::tests::expect_eq;
use lfs_command::streams::Streams;
use lfs_programs::shell::lfs_shell;
use std::alloc::Global;
use std::fs;
use std::process::Abort;
use std::rt::Files;
use std::test::Fail;

/// The folder of a test, and the file of its disk.
const FOLDER: &str = "lfs_program_tests_disk";

const ON_DISK: &[&[u8]] = &[
    b"lfs_shell",
    b"--segments=6",
    b"--disk=lfs_program_tests_disk/volume.disk",
];

/// Those of another test, whose file is no disk.
const OTHERS: &str = "lfs_program_tests_no_disk";

const ODD: &str = "lfs_program_tests_no_disk/odd";

const ON_ODD: &[&[u8]] = &[b"lfs_shell", b"--disk=lfs_program_tests_no_disk/odd"];

/// Asserts that a talk over the files of the host ends with this status, and writes exactly this.
fn expect_talk<F: Abort + Files>(
    rt: &F,
    alloc: Global,
    words: &[&[u8]],
    input: &[u8],
    wanted: (u8, &str, &str),
)
where
    F::File: std::os::unix::fs::FileExt,
{
    let env = (Words { words }, alloc);
    let mut streams = Streams {
        stdin: input,
        stdout: Vec::new(alloc),
        stderr: Vec::new(alloc),
    };
    let status = lfs_shell(&env, rt, &mut streams);
    expect_eq(rt, status, wanted.0);
    expect_eq(rt, streams.stdout.as_slice(), wanted.1.as_bytes());
    expect_eq(rt, streams.stderr.as_slice(), wanted.2.as_bytes());
}

/// What the first talk says, and is told: a byte that waits at its end.
const FIRST: &[u8] = b"create /a 0644\nwrite /a end 78\n";

const FIRST_TOLD: &str = "0 ok\n0 ok\nentries 2\nserved 2\ndenied 0\nrefused 0\ncleaner 0\n";

/// The same of the second, which finds the byte.
const SECOND: &[u8] = b"stat /a\n";

const SECOND_TOLD: &str = "0 stat 4 file 0 0 0644 00000000 1\n\
    entries 1\nserved 1\ndenied 0\nrefused 0\ncleaner 0\n";

#[test]
fn volume_on_a_disk_is_found_again(rt: HostRuntime) -> Result<(), Fail> {
    let alloc = rt.alloc();
    let _ = fs::remove_dir_all(&rt, FOLDER);
    fs::create_dir(&rt, FOLDER)?;
    expect_talk(&rt, alloc, ON_DISK, FIRST, (0, FIRST_TOLD, ""));
    expect_talk(&rt, alloc, ON_DISK, SECOND, (0, SECOND_TOLD, ""));
    fs::remove_dir_all(&rt, FOLDER)?;
    Ok(())
}

/// What is told of a file that has no whole blocks.
const NO_DISK: &str = "lfs_shell: file of the disk has no whole blocks, or too many\n";

#[test]
fn file_that_is_no_disk_is_left(rt: HostRuntime) -> Result<(), Fail> {
    let alloc = rt.alloc();
    let _ = fs::remove_dir_all(&rt, OTHERS);
    fs::create_dir(&rt, OTHERS)?;
    fs::write(&rt, ODD, b"odd".as_slice())?;
    expect_talk(&rt, alloc, ON_ODD, SECOND, (1, "", NO_DISK));
    expect_eq(&rt, fs::read(&rt, ODD)?.as_slice(), b"odd".as_slice());
    fs::remove_dir_all(&rt, OTHERS)?;
    Ok(())
}
