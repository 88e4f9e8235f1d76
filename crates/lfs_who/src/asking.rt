//! What is asked of whoever makes a call.

ghost use Rattle.std.specs.Prelude.{◌≡◌, ◌++◌, ◌≤◌, OnOk, false};
ghost use Rattle.lfs_types.specs.Caller.{Caller};
ghost use Rattle.lfs_types.specs.declared.path.TheConstants.{PATH_MAX};
ghost use Rattle.lfs_model.specs.Rules.{searching_tests};
ghost use Rattle.lfs_explain.specs.Tables.{known_path, making_by, own_tests, reaching_by, removing_by, table_by, trail_tests};
ghost use Rattle.lfs_who.specs.Acts.{leaving_by};
ghost use Rattle.lfs_who.specs.Conditions.{all_posed};
ghost use Rattle.lfs_who.specs.Who.{SetsLevel};

use crate::condition::Question;
use crate::moving::{push_arriving, push_moving};
use crate::posing;
use crate::privileged::{chflags, set_level};
use lfs_checks::site::Site;
use lfs_explain::trail::{ShownRow, Trail, dir_of, last_row, row_of};
use lfs_types::attrs::Attrs;
use lfs_types::level::Level;
use lfs_types::request::Request;
use lfs_types::rule::Rule;
use std::alloc::AllocError;

/// Puts what is asked of whoever makes a call, whose paths lead through these rows, behind other questions.
pub(crate) fn push_call(
    questions: &mut Vec<Question>,
    level: Level,
    request: &Request,
    first: &Trail,
    second: &Trail,
) -> Result<(), AllocError>
    requires short { first.now.names ≤ PATH_MAX }
    requires short_second { second.now.names ≤ PATH_MAX }
    ensures { OnOk result ((c : Caller) → (SetsLevel request.now → c.init ≡ false)
        → all_posed c questions.new.items ≡ all_posed c questions.old.items
        ++ table_by level c request.now (known_path first.now) (known_path second.now)) }
{
    match request {
        Request::Create { .. } | Request::Mkdir { .. } => push_making(questions, first),
        Request::Unlink { .. } => {
            push_removing(questions, first)?;
            push(
                questions,
                &posing::unlink(&last_row(first).attrs, first.names),
            )
        }
        Request::Rmdir { .. } => {
            push_removing(questions, first)?;
            let end = last_row(first);
            push(
                questions,
                &posing::rmdir(&end.attrs, first.is_childless, first.names),
            )
        }
        Request::Rename { .. } => {
            push_removing(questions, first)?;
            push_arriving(questions, second)?;
            push_moving(questions, first, second)
        }
        Request::SetLevel { level: new } => push(questions, &set_level(level, *new)),
        Request::Sync => Ok(()),
        _ => push_reaching(questions, level, request, first),
    }
}

/// Puts what is asked of whoever goes through the directory that a path leads to.
pub(crate) fn push_search(questions: &mut Vec<Question>, path: &Trail) -> Result<(), AllocError>
    requires { path.now.names ≤ PATH_MAX }
    ensures { OnOk result ((c : Caller) → all_posed c questions.new.items
        ≡ all_posed c questions.old.items
        ++ reaching_by c (searching_tests c 0) (known_path path.now)) }
{
    push_trail(questions, 0, path.names, &path.rows)?;
    let site = Site {
        path: 0,
        at: path.names,
    };
    push(questions, &posing::search(&last_row(path).attrs, site))
}

/// Puts what is asked of whoever takes what a path leads to away to another directory.
pub(crate) fn push_leaving(questions: &mut Vec<Question>, path: &Trail) -> Result<(), AllocError>
    requires { path.now.names ≤ PATH_MAX }
    ensures { OnOk result ((c : Caller) → all_posed c questions.new.items
        ≡ all_posed c questions.old.items ++ leaving_by c (known_path path.now)) }
{
    push_removing(questions, path)?;
    push(
        questions,
        &posing::leaves(&last_row(path).attrs, false, path.names),
    )
}

/// Puts questions behind others.
pub(crate) fn push(questions: &mut Vec<Question>, more: &[Question]) -> Result<(), AllocError>
    ensures { OnOk result ((c : Caller) → all_posed c questions.new.items
        ≡ all_posed c questions.old.items ++ all_posed c more.now) }
{
    questions.extend_from_slice(more)
}

/// Puts those of so many steps along the rows of the path of this index.
pub(crate) fn push_trail(
    questions: &mut Vec<Question>,
    path: u8,
    count: u32,
    rows: &[ShownRow],
) -> Result<(), AllocError>
    requires { count ≤ PATH_MAX }
    ensures { OnOk result ((c : Caller) → all_posed c questions.new.items
        ≡ all_posed c questions.old.items ++ trail_tests c path 0 count rows.now) }
{
    let steps = rows.len().min(count as usize);
    for at in 0..steps {
        let there = row_of(rows, at + 1).is_some();
        let site = Site {
            path,
            at: at as u32,
        };
        push(questions, &posing::step(&rows[at].attrs, site, there))?;
    }
    Ok(())
}

/// Puts those of a call with one path to a file.
fn push_reaching(
    questions: &mut Vec<Question>,
    level: Level,
    request: &Request,
    path: &Trail,
) -> Result<(), AllocError>
    requires { path.now.names ≤ PATH_MAX }
    ensures { OnOk result ((c : Caller) → all_posed c questions.new.items
        ≡ all_posed c questions.old.items
        ++ reaching_by c (own_tests level c request.now) (known_path path.now)) }
{
    push_trail(questions, 0, path.names, &path.rows)?;
    push_own(questions, level, request, &last_row(path).attrs, path.names)
}

/// Puts those of the file, at component `at`, that a call with one path leads to.
fn push_own(
    questions: &mut Vec<Question>,
    level: Level,
    request: &Request,
    file: &Attrs,
    at: u32,
) -> Result<(), AllocError>
    ensures { OnOk result ((c : Caller) → all_posed c questions.new.items
        ≡ all_posed c questions.old.items ++ own_tests level c request.now file.now at) }
{
    match request {
        Request::Read { .. } => push(questions, &posing::read(file, at)),
        Request::List { .. } => push(questions, &posing::list(file, at)),
        Request::Write { place, bytes, .. } => {
            let count = bytes.as_slice().len();
            push(questions, &posing::change(file, posing::is_end(*place), at))?;
            push(questions, &posing::fits(file, *place, count, at))
        }
        Request::SetLength { len, .. } => {
            push(questions, &posing::change(file, false, at))?;
            push(questions, &posing::fits_length(*len, at))
        }
        Request::Chmod { .. } => push(questions, &posing::chmod(file, at)),
        Request::Chown { uid, gid, .. } => push(questions, &posing::chown(file, *uid, *gid, at)),
        Request::Chflags { flags, .. } => push(questions, &chflags(file, level, *flags, at)),
        _ => Ok(()),
    }
}

/// Puts those of a call that makes a row.
fn push_making(questions: &mut Vec<Question>, path: &Trail) -> Result<(), AllocError>
    requires { path.now.names ≤ PATH_MAX }
    ensures { OnOk result ((c : Caller) → all_posed c questions.new.items
        ≡ all_posed c questions.old.items ++ making_by c (known_path path.now)) }
{
    let at = path.names.saturating_sub(1);
    let free = row_of(&path.rows, path.names as usize).is_none();
    push(questions, &posing::root(path.names != 0, Rule::NameFree, 0))?;
    push_trail(questions, 0, at, &path.rows)?;
    push(questions, &posing::make(&dir_of(path).attrs, free, at))
}

/// Puts those of a call that takes away a name, up to those that a file and a directory differ in.
fn push_removing(questions: &mut Vec<Question>, path: &Trail) -> Result<(), AllocError>
    requires { path.now.names ≤ PATH_MAX }
    ensures { OnOk result ((c : Caller) → all_posed c questions.new.items
        ≡ all_posed c questions.old.items ++ removing_by c (known_path path.now)) }
{
    let at = path.names.saturating_sub(1);
    let (dir, file) = (dir_of(path), last_row(path));
    push(
        questions,
        &posing::root(path.names != 0, Rule::IsNotRoot, 0),
    )?;
    push_trail(questions, 0, path.names, &path.rows)?;
    let site = Site { path: 0, at };
    push(questions, &posing::remove(&dir.attrs, &file.attrs, site))
}
