//! A volume of `lfs_shell` that `lfs_check` finds in its blocks alone.

use crate::shell::{Ended, Words, run};
use lfs_command::streams::Streams;
use lfs_rescue::program::lfs_check;
use std::fs;
use std::os::unix::fs::FileExt;
use std::rt::Files;

/// The file of the image.
const IMAGE: &str = "serials.img";

/// The file of the image of what is found.
const FOUND: &str = "found.img";

/// Where the blocks of 6 segments stand in an image.
const BLOCKS: std::ops::Range<usize> = 512..197_120;

/// Lines that make a file, and one that is gone.
const BEFORE: &str = "create /a 0644\nwrite /a at 0 68656c6c6f\ncreate /b 0600\nsync\nunlink /b\n";

/// Lines that look at what there is, and change it.
const BEHIND: &str = "read /a 0 5\nstat /b\ncreate /c 0644\n.check\n.save\n.check\n";

/// What is told of them.
const TOLD: &str = "0 bytes 68656c6c6f
0 denied N2 ENOENT 0 1
0 ok
waiting: sync comes first
saved
ok
segments 5 clean of 6
bytes 1408 live
numbers 3 used of 16
waiting 0 blocks 0 records
";

/// What is told where its image has no serials.
const UNFIT: &[u8] = b"lfs_shell: image without serials, or with a torn log\n";

/// Runs `lfs_check` with these words on these bytes.
fn check<R: Files + AllocGlobal>(rt: &R, words: &[&str], input: &[u8]) -> Ended
where
    R::File: FileExt,
{
    let alloc = rt.alloc();
    let mut streams = Streams {
        stdin: input,
        stdout: Vec::new(alloc),
        stderr: Vec::new(alloc),
    };
    let env = (Words { words }, alloc);
    let status = lfs_check(&env, rt, &mut streams);
    Ended {
        status,
        out: streams.stdout,
        err: streams.stderr,
    }
}

/// What `lfs_check` tells of the blocks of a volume that a talk with these words left, and keeps.
fn found<R: Files + AllocGlobal>(rt: &R, words: &[&str]) -> anyhow::Result<Ended>
where
    R::File: FileExt,
{
    let _ = fs::remove_file(rt, IMAGE);
    let _ = run(rt, words, BEFORE);
    let image = fs::read(rt, IMAGE)?;
    let _ = fs::remove_file(rt, IMAGE);
    let blocks = image.get(BLOCKS).unwrap_or_default();
    Ok(check(rt, &["lfs_check", "--recover", "--save=found.img"], blocks))
}

/// Whether a volume with serials is found in its blocks, and goes on as it was.
fn is_found<R: Files + AllocGlobal>(rt: &R) -> anyhow::Result<bool>
where
    R::File: FileExt,
{
    let words = [
        "lfs_shell",
        "--segments=6",
        "--inodes=16",
        "--serials",
        "--image=serials.img",
    ];
    let told = found(rt, &words)?;
    let then = run(rt, &["lfs_shell", "--serials", "--image=found.img"], BEHIND);
    let _ = fs::remove_file(rt, FOUND);
    Ok(told.is_done() && then.is_done() && then.answers() == TOLD)
}

/// Whether the image of a volume without serials is refused where they are asked for, and left as it was.
fn is_refused<R: Files + AllocGlobal>(rt: &R) -> anyhow::Result<bool>
where
    R::File: FileExt,
{
    let _ = fs::remove_file(rt, IMAGE);
    let _ = run(
        rt,
        &[
            "lfs_shell",
            "--segments=6",
            "--inodes=16",
            "--image=serials.img",
        ],
        BEFORE,
    );
    let image = fs::read(rt, IMAGE)?;
    let refused = run(
        rt,
        &["lfs_shell", "--serials", "--image=serials.img"],
        BEHIND,
    );
    let left = fs::read(rt, IMAGE)?;
    let _ = fs::remove_file(rt, IMAGE);
    let is_told = refused.status == 1 && refused.out.is_empty() && refused.err.as_slice() == UNFIT;
    Ok(is_told && left == image)
}

/// Whether none is found in the blocks of one without serials.
fn is_lost<R: Files + AllocGlobal>(rt: &R) -> anyhow::Result<bool>
where
    R::File: FileExt,
{
    let words = [
        "lfs_shell",
        "--segments=6",
        "--inodes=16",
        "--image=serials.img",
    ];
    let told = found(rt, &words)?;
    Ok(told.status == 1 && told.out.as_slice() == b"fault: no whole partial segment\n".as_slice())
}

/// Tells whether a volume is found in its blocks exactly where its summaries have serials.
pub(crate) fn is_found_by_serials<R: Files + AllocGlobal + Print>(rt: &R) -> anyhow::Result<bool>
where
    R::File: FileExt,
{
    let all = is_found(rt)? && is_lost(rt)? && is_refused(rt)?;
    println!(rt; "lfs_check --recover: found by its serials, {all}")?;
    Ok(all)
}
