//! Scripts in files of the folder where the program runs, each with what it prints in a file beside it.

use anyhow::anyhow;
use lfs_audit::run::run_script;
use lfs_audit::threads::run_threads;
use lfs_programs::options::{Options, options_of};
use std::fs;
use std::rt::Files;
use std::sync::Wait;
use std::thread::Threads;

/// The numbers of frames with which each script is run once more: what it prints doesn't depend on them.
const FRAMES: [u32; 2] = [32, 1024];

/// Runs the script that a line of the list names, and tells whether it prints what is stored, also with other frames.
pub(crate) fn is_as_stored<R>(rt: &R, line: &str) -> anyhow::Result<bool>
where
    R: Files + AllocGlobal + Print + Threads + Wait + Sync,
{
    let words = words_in(rt, line)?;
    let mut options = options_of(rt.alloc(), Ok(words.as_slice())).map_err(|error| anyhow!(
        "{line}: {error}"
    ))?;
    if !prints_stored(rt, line, options)? {
        return Ok(false);
    }
    for frames in FRAMES {
        options.params.frames = frames;
        if !prints_stored(rt, line, options)? {
            return Ok(false);
        }
    }
    println!(rt; "{line}: as stored")?;
    Ok(true)
}

/// Whether the script that a line of the list names prints what is stored, with these options. Tells what else it prints.
fn prints_stored<R>(rt: &R, line: &str, options: Options<'_>) -> anyhow::Result<bool>
where
    R: Files + AllocGlobal + Print + Threads + Wait + Sync,
{
    let name = line.split(' ').next().unwrap_or_default();
    let written = output(rt, name, options)?;
    let is_stored = is_output(rt, name, options, written.as_slice())?;
    if !is_stored {
        print_lines(rt, line, written.as_slice())?;
    }
    Ok(is_stored)
}

/// The words of a line of a list. Its name stands where the program's own does on a command line.
pub(crate) fn words_in<'a, R: AllocGlobal>(rt: &R, line: &'a str) -> anyhow::Result<Vec<&'a str>> {
    let mut words = Vec::new(rt.alloc());
    for word in line.split(' ') {
        words.push(word)?;
    }
    Ok(words)
}

/// Tells what a script or a talk printed that isn't stored.
pub(crate) fn print_lines<R: AllocGlobal + Print>(
    rt: &R,
    line: &str,
    written: &[u8],
) -> anyhow::Result<()> {
    let lines = String::from_utf8_lossy(rt.alloc(), written)?;
    println!(rt; "{line}: other lines\n{lines}")?;
    Ok(())
}

/// What the script of this name prints.
fn output<R>(rt: &R, name: &str, options: Options<'_>) -> anyhow::Result<Vec<u8>>
where
    R: Files + AllocGlobal + Threads + Wait + Sync,
{
    let alloc = rt.alloc();
    let file = format!(in alloc; "{name}.lfs")?;
    let mut script = fs::open(rt, file.as_str())?;
    let mut written = Vec::new(alloc);
    if options.threads {
        let ended = match run_threads(rt, alloc, &mut script, &mut written, options.params) {
            Ok(()) => Ok(()),
            Err(undone) => Err(undone.fault()),
        };
        ended?;
    } else {
        run_script(alloc, &mut script, &mut written, options.params)?;
    }
    Ok(written)
}

/// Whether this is what is stored. On threads the cleaner may make more calls or fewer, so there its calls and the sum of
/// all calls are left out, and are not stored.
fn is_output<R: Files + AllocGlobal>(
    rt: &R,
    name: &str,
    options: Options<'_>,
    written: &[u8],
) -> anyhow::Result<bool> {
    let file = format!(in rt.alloc(); "{name}.out")?;
    let expected = fs::read(rt, file.as_str())?;
    if !options.threads {
        return Ok(written == expected.as_slice());
    }
    let kept = written.split(|byte| *byte == b'\n').filter(|line| !line.starts_with(b"entries ")
        && !line.starts_with(b"cleaner "));
    Ok(kept.eq(expected.as_slice().split(|byte| *byte == b'\n')))
}
