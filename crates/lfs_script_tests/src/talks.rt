//! Talks in files of the folder where the program runs, each with what it tells in a file beside it.

use crate::stored::{print_lines, words_in};
use anyhow::anyhow;
use lfs_live::start::run_lines;
use lfs_programs::options::shell_options_of;
use std::fs;
use std::io::BufReader;
use std::os::unix::fs::FileExt;
use std::rt::Files;

/// Has the talk that a line of the list names, with the arguments of `lfs_shell` behind the name, and tells whether it tells
/// what is stored.
pub(crate) fn tells_as_stored<R: Files + AllocGlobal + Print>(
    rt: &R,
    line: &str,
) -> anyhow::Result<bool>
where
    R::File: FileExt,
{
    let alloc = rt.alloc();
    let words = words_in(rt, line)?;
    let options = shell_options_of(alloc, Ok(words.as_slice())).map_err(|error| anyhow!(
        "{line}: {error}"
    ))?;
    let name = line.split(' ').next().unwrap_or_default();
    let told_file = format!(in alloc; "{name}.out")?;
    let expected = fs::read(rt, told_file.as_str())?;
    let file = format!(in alloc; "{name}.lfs")?;
    let mut lines = fs::open(rt, file.as_str())?;
    let mut reader = BufReader::new(alloc, &mut lines)?;
    let mut told = Vec::new(alloc);
    run_lines(alloc, &mut reader, &mut told, options.params)?;
    let is_stored = told == expected;
    if is_stored {
        println!(rt; "{line}: as stored")?;
    } else {
        print_lines(rt, line, told.as_slice())?;
    }
    Ok(is_stored)
}
