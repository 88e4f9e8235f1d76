//! Users' calls in scripts.

ghost use Rattle.std.specs.Prelude.{◌≡◌, Ok, Err, map, MatchResult};
ghost use Rattle.std.specs.Option.{option_copied};
ghost use Rattle.lfs_words.specs.Faults.{ReadsAs};
ghost use Rattle.lfs_script.specs.Requests.{lone_path, path_and_mode, request_said, write_place, write_words};
ghost use Rattle.lfs_script.specs.declared.verb.RequestKind.TheVariants as kind;

use crate::verb::RequestKind;
use lfs_types::mode::Mode;
use lfs_types::path::Path;
use lfs_types::request::{Place, Request};
use lfs_words::fault::FaultKind;
use lfs_words::hex::{flags, payload};
use lfs_words::number::{decimal, level, mode, short_decimal};
use lfs_words::path::path_of;
use lfs_words::words::{no_word, one_word, three_words, two_words};
use std::alloc::Global;

/// The call of this kind that the words behind its name ask for.
pub fn request(alloc: Global, kind: RequestKind, words: &[&str]) -> Result<Request, FaultKind>
    ensures { ReadsAs (request_said kind (map (λ x. x.now) words.now)) result }
{
    match kind {
        RequestKind::Stat => Ok(Request::Stat {
            path: lone_path(alloc, words)?,
        }),
        RequestKind::Read => read(alloc, words),
        RequestKind::Write => write(alloc, words),
        RequestKind::List => Ok(Request::List {
            path: lone_path(alloc, words)?,
        }),
        RequestKind::SetLength => set_length(alloc, words),
        RequestKind::Create => {
            let (path, mode) = path_and_mode(alloc, words)?;
            Ok(Request::Create { path, mode })
        }
        RequestKind::Mkdir => mkdir(alloc, words),
        RequestKind::Unlink => Ok(Request::Unlink {
            path: lone_path(alloc, words)?,
        }),
        RequestKind::Rmdir => Ok(Request::Rmdir {
            path: lone_path(alloc, words)?,
        }),
        RequestKind::Rename => rename(alloc, words),
        RequestKind::Chmod => {
            let (path, mode) = path_and_mode(alloc, words)?;
            Ok(Request::Chmod { path, mode })
        }
        RequestKind::Chown => chown(alloc, words),
        RequestKind::Chflags => chflags(alloc, words),
        RequestKind::SetLevel => set_level(words),
        RequestKind::Sync => {
            no_word(words)?;
            Ok(Request::Sync)
        }
    }
}

/// A `read` of a path, an offset and a length.
fn read(alloc: Global, words: &[&str]) -> Result<Request, FaultKind>
    ensures { ReadsAs (request_said kind.Read (map (λ x. x.now) words.now)) result }
{
    let (path, off, len) = three_words(words)?;
    let path = path_of(alloc, path)?;
    let off = decimal(off)?;
    let len = short_decimal(len)?;
    Ok(Request::Read { path, off, len })
}

/// A `write` of a path, a place and bytes.
fn write(alloc: Global, words: &[&str]) -> Result<Request, FaultKind>
    ensures { ReadsAs (request_said kind.Write (map (λ x. x.now) words.now)) result }
{
    let (path, off, bytes) = write_words(words)?;
    let path = path_of(alloc, path)?;
    let place = place_of(off)?;
    let bytes = payload(alloc, bytes)?;
    Ok(Request::Write { path, place, bytes })
}

/// The path, the place and the bytes of a `write`: `at` and the place, or `end`.
pub(crate) fn write_words<'a>(
    words: &[&'a str],
) -> Result<(&'a str, Option<&'a str>, &'a str), FaultKind>
    ensures { MatchResult result
        (λ three. write_words (map (λ x. x.now) words.now)
        ≡ Ok (three.0.now, option_copied three.1, three.2.now))
        (λ kind. write_words (map (λ x. x.now) words.now) ≡ Err kind) }
{
    match words {
        [path, mark, bytes] => {
            if *mark == "end" {
                Ok((path, None, bytes))
            } else {
                Err(FaultKind::Words)
            }
        }
        [path, mark, off, bytes] => {
            if *mark == "at" {
                Ok((path, Some(off), bytes))
            } else {
                Err(FaultKind::Words)
            }
        }
        _ => Err(FaultKind::Words),
    }
}

/// The place at the byte that a word spells, or the end where there is no word.
fn place_of(off: Option<&str>) -> Result<Place, FaultKind>
    ensures { result ≡ write_place (option_copied off.entry) }
{
    match off {
        Some(off) => Ok(Place::At(decimal(off)?)),
        None => Ok(Place::End),
    }
}

/// A `length` of a path and a number of bytes.
fn set_length(alloc: Global, words: &[&str]) -> Result<Request, FaultKind>
    ensures { ReadsAs (request_said kind.SetLength (map (λ x. x.now) words.now)) result }
{
    let (path, len) = two_words(words)?;
    let path = path_of(alloc, path)?;
    let len = decimal(len)?;
    Ok(Request::SetLength { path, len })
}

/// A `mkdir` of a path and a mode.
fn mkdir(alloc: Global, words: &[&str]) -> Result<Request, FaultKind>
    ensures { ReadsAs (request_said kind.Mkdir (map (λ x. x.now) words.now)) result }
{
    let (path, mode) = path_and_mode(alloc, words)?;
    Ok(Request::Mkdir { path, mode })
}

/// A `rename` of a path to another.
fn rename(alloc: Global, words: &[&str]) -> Result<Request, FaultKind>
    ensures { ReadsAs (request_said kind.Rename (map (λ x. x.now) words.now)) result }
{
    let (from, to) = two_words(words)?;
    let from = path_of(alloc, from)?;
    let to = path_of(alloc, to)?;
    Ok(Request::Rename { from, to })
}

/// A `chown` of a path, a user and a group.
fn chown(alloc: Global, words: &[&str]) -> Result<Request, FaultKind>
    ensures { ReadsAs (request_said kind.Chown (map (λ x. x.now) words.now)) result }
{
    let (path, uid, gid) = three_words(words)?;
    let path = path_of(alloc, path)?;
    let uid = short_decimal(uid)?;
    let gid = short_decimal(gid)?;
    Ok(Request::Chown { path, uid, gid })
}

/// A `chflags` of a path and flags.
fn chflags(alloc: Global, words: &[&str]) -> Result<Request, FaultKind>
    ensures { ReadsAs (request_said kind.Chflags (map (λ x. x.now) words.now)) result }
{
    let (path, bits) = two_words(words)?;
    let path = path_of(alloc, path)?;
    let flags = flags(bits)?;
    Ok(Request::Chflags { path, flags })
}

/// A `level` of a securelevel.
fn set_level(words: &[&str]) -> Result<Request, FaultKind>
    ensures { ReadsAs (request_said kind.SetLevel (map (λ x. x.now) words.now)) result }
{
    let level = level(one_word(words)?)?;
    Ok(Request::SetLevel { level })
}

/// The path and the mode that two words spell.
fn path_and_mode(alloc: Global, words: &[&str]) -> Result<(Path, Mode), FaultKind>
    ensures { ReadsAs (path_and_mode (map (λ x. x.now) words.now)) result }
{
    let (path, bits) = two_words(words)?;
    let path = path_of(alloc, path)?;
    let mode = mode(bits)?;
    Ok((path, mode))
}

/// The path that a lone word spells.
fn lone_path(alloc: Global, words: &[&str]) -> Result<Path, FaultKind>
    ensures { ReadsAs (lone_path (map (λ x. x.now) words.now)) result }
{
    path_of(alloc, one_word(words)?)
}
