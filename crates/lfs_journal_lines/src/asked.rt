//! What was asked, read back.

ghost use Rattle.std.specs.Prelude.{◌≡◌, ◌++◌, ◌∷◌, map, IfOk, OnOk};
ghost use Rattle.lfs_words.specs.Faults.{ReadsAs};
ghost use Rattle.lfs_words.specs.Wording.{spaced};
ghost use Rattle.lfs_journal_lines.specs.Asked.{asked_by, asked_in, asked_told, is_escaped, path_told, paths_put, plain_line, plain_word, with_path, with_target};

use crate::escapes::escaped_path;
use lfs_model::asking::CleanerAct;
use lfs_script::plan::{Act, Line};
use lfs_script::script::parse_line;
use lfs_types::path::Path;
use lfs_types::request::Request;
use lfs_words::append::push_word;
use lfs_words::fault::FaultKind;
use std::alloc::{AllocError, Global};

/// What was asked.
#[derive(Drop)]
pub(crate) enum Asked {
    /// A user's call.
    User(Request),
    /// A call of the cleaner.
    Cleaner(CleanerAct),
}

/// What words tell that was asked.
pub(crate) fn asked_told(alloc: Global, words: &[&str]) -> Result<Asked, FaultKind>
    ensures { ReadsAs (asked_told (map (λ x. x.now) words.now)) result }
{
    match words {
        [] => Err(FaultKind::Words),
        [verb, operands @ ..] => asked_by(alloc, verb, operands),
    }
}

/// What a verb and its operands ask: a line of a script, in which a path that no script can spell stands as the root,
/// and then is put in its place.
fn asked_by(alloc: Global, verb: &str, operands: &[&str]) -> Result<Asked, FaultKind>
    ensures { ReadsAs (asked_by verb.now (map (λ x. x.now) operands.now)) result }
{
    let text = plain_line(alloc, verb, operands)?;
    let line = parse_line(alloc, text.as_slice())?;
    asked_in(alloc, operands, line)
}

/// What a line of a script asks, a user's call with the paths that no script can spell.
fn asked_in(alloc: Global, operands: &[&str], line: Line) -> Result<Asked, FaultKind>
    ensures { ReadsAs (asked_in (map (λ x. x.now) operands.now) line) result }
{
    match line {
        Line::Act(Act::User(request)) => Ok(Asked::User(paths_put(alloc, operands, request)?)),
        Line::Act(Act::Cleaner(held)) => Ok(Asked::Cleaner(CleanerAct::of(alloc, held.call())?)),
        _ => Err(FaultKind::Words),
    }
}

/// A call as a line of a script.
fn plain_line(alloc: Global, verb: &str, operands: &[&str]) -> Result<Vec<u8>, AllocError>
    ensures { IfOk result (λ text. text.items ≡ plain_line verb.now (map (λ x. x.now) operands.now)) }
{
    let mut text = Vec::from_slice(alloc, verb.as_bytes())?;
    for word in operands {
        push_word(&mut text, plain_word(word))?;
    }
    Ok(text)
}

/// A word as a script has it: for a path that no script can spell the root.
fn plain_word<'a>(word: &'a str) -> &'a str
    ensures { result.now ≡ plain_word word.now }
{
    if is_escaped(word) { "/" } else { word }
}

/// Whether a word is a path that no script can spell.
fn is_escaped(word: &str) -> bool
    ensures { result ≡ is_escaped word.now }
{
    match word.as_bytes() {
        [first, ..] => *first == b'%',
        [] => false,
    }
}

/// A call with the paths that no script can spell put in their places.
fn paths_put(alloc: Global, operands: &[&str], request: Request) -> Result<Request, FaultKind>
    ensures { ReadsAs (paths_put (map (λ x. x.now) operands.now) request) result }
{
    match operands {
        [] => Ok(request),
        [first] => Ok(with_path(path_told(alloc, first)?, request)),
        [first, second, ..] => {
            let path = path_told(alloc, first)?;
            let target = path_told(alloc, second)?;
            Ok(with_target(target, with_path(path, request)))
        }
    }
}

/// The path that a word tells and no script can spell.
fn path_told(alloc: Global, word: &str) -> Result<Option<Path>, FaultKind>
    ensures { ReadsAs (path_told word.now) result }
{
    let [first, text @ ..] = word.as_bytes() else {
        return Ok(None);
    };
    if *first != b'%' {
        return Ok(None);
    }
    Ok(Some(escaped_path(alloc, text)?))
}

/// A call whose first path is this one, where one is given.
fn with_path(path: Option<Path>, request: Request) -> Request
    ensures { result ≡ with_path path request }
{
    let Some(path) = path else {
        return request;
    };
    match request {
        Request::Stat { .. } => Request::Stat { path },
        Request::Read { off, len, .. } => Request::Read { path, off, len },
        Request::Write { place, bytes, .. } => Request::Write { path, place, bytes },
        Request::List { .. } => Request::List { path },
        Request::SetLength { len, .. } => Request::SetLength { path, len },
        Request::Create { mode, .. } => Request::Create { path, mode },
        Request::Mkdir { mode, .. } => Request::Mkdir { path, mode },
        Request::Unlink { .. } => Request::Unlink { path },
        Request::Rmdir { .. } => Request::Rmdir { path },
        Request::Rename { to, .. } => Request::Rename { from: path, to },
        Request::Chmod { mode, .. } => Request::Chmod { path, mode },
        Request::Chown { uid, gid, .. } => Request::Chown { path, uid, gid },
        Request::Chflags { flags, .. } => Request::Chflags { path, flags },
        Request::SetLevel { level } => Request::SetLevel { level },
        Request::Sync => Request::Sync,
    }
}

/// A Rename whose second path is this one, where one is given.
fn with_target(path: Option<Path>, request: Request) -> Request
    ensures { result ≡ with_target path request }
{
    match (path, request) {
        (Some(path), Request::Rename { from, .. }) => Request::Rename { from, to: path },
        (_, request) => request,
    }
}
