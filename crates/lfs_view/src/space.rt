//! How full a log is.

ghost use Rattle.std.specs.Prelude.{◌≡◌, ◌<◌, ◌++◌, ◌∷◌, [], codes, decimal, length, OnOk};
ghost use Rattle.lfs_parts.specs.Store.{IsStore};
ghost use Rattle.lfs_view.specs.MapText.{line_of};
ghost use Rattle.lfs_view.specs.SpaceText.{live_below, one_used, share_line, space_lines, space_of, space_text, used_below};

use crate::map::push_waiting_line;
use lfs_parts::parts::Parts;
use lfs_words::append::{push_number, push_word};
use std::alloc::AllocError;

/// How full a log is.
#[derive(Clone, Copy, PartialEq, Eq, Debug)]
pub struct Space {
    /// How many segments it has.
    pub segments: u32,
    /// How many of them are clean.
    pub clean: u32,
    /// How many of its bytes are live.
    pub live: u64,
    /// How many inode numbers it has.
    pub numbers: u32,
    /// How many of them are in use.
    pub used: u32,
    /// How many blocks wait to be written.
    pub waiting_blocks: usize,
    /// How many inode records wait to be written.
    pub waiting_records: usize,
}

/// How full the log of a store is.
pub(crate) fn space_of(parts: &Parts) -> Space
    requires { IsStore parts.now }
    ensures { result ≡ space_of parts.now }
{
    let segments = parts.log.segments();
    let numbers = parts.log.inodes();
    Space {
        segments,
        clean: parts.log.clean(),
        live: live(parts, segments),
        numbers,
        used: used(parts, numbers),
        waiting_blocks: parts.cache.locked_count(),
        waiting_records: parts.waiting.len(),
    }
}

/// Appends how many segments are clean, how many bytes are live, how many numbers are in use, and what waits.
pub(crate) fn push_space(out: &mut Vec<u8>, parts: &Parts) -> Result<(), AllocError>
    requires { IsStore parts.now }
    ensures { OnOk result (out.new.items ≡ out.old.items ++ space_text parts.now) }
{
    push_lines(out, &space_of(parts))
}

/// Appends the lines of how full a log is.
fn push_lines(out: &mut Vec<u8>, space: &Space) -> Result<(), AllocError>
    ensures { OnOk result (out.new.items ≡ out.old.items ++ space_lines space.now) }
{
    push_share(out, "segments", space.clean, "clean", space.segments)?;
    push_live(out, space.live)?;
    push_share(out, "numbers", space.used, "used", space.numbers)?;
    push_waiting_line(out, space.waiting_blocks, space.waiting_records)
}

/// Appends a line of a word, a number, and how many of how many.
fn push_share(
    out: &mut Vec<u8>,
    what: &str,
    number: u32,
    how: &str,
    all: u32,
) -> Result<(), AllocError>
    ensures { OnOk result (out.new.items ≡ out.old.items
        ++ share_line what.now number how.now all) }
{
    out.extend_from_slice(what.as_bytes())?;
    push_number(out, u64::from(number))?;
    push_word(out, how)?;
    push_word(out, "of")?;
    push_number(out, u64::from(all))?;
    out.extend_from_slice(b"\n")
}

/// Appends the line of the live bytes.
fn push_live(out: &mut Vec<u8>, bytes: u64) -> Result<(), AllocError>
    ensures { OnOk result (out.new.items
        ≡ out.old.items ++ line_of (codes "bytes") (decimal bytes ∷ codes "live" ∷ [])) }
{
    out.extend_from_slice(b"bytes")?;
    push_number(out, bytes)?;
    push_word(out, "live")?;
    out.extend_from_slice(b"\n")
}

/// The live bytes of the first segments.
fn live(parts: &Parts, segments: u32) -> u64
    requires { segments ≡ parts.now.log.memory.segments }
    ensures { result ≡ live_below parts.now segments }
{
    let mut bytes = 0;
    for segment in 0..segments {
        bytes += u64::from(parts.log.usage(segment).live);
    }
    bytes
}

/// How many of the first numbers are in use.
fn used(parts: &Parts, numbers: u32) -> u32
    requires { numbers ≡ length parts.now.log.tables.rows }
    ensures { result ≡ used_below parts.now numbers }
{
    let mut count = 0;
    for number in 0..numbers {
        count += one_used(parts, number);
    }
    count
}

/// 1 for a number in use, else 0.
fn one_used(parts: &Parts, number: u32) -> u32
    requires { number < length parts.now.log.tables.rows }
    ensures { result ≡ one_used parts.now number }
{
    match parts.log.place(number) {
        Some(_) => 1,
        None => 0,
    }
}
