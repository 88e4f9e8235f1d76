//! The checks of a call, told from the rows that its paths lead through.

ghost use Rattle.std.specs.Prelude.{◌≡◌, ◌++◌, ◌≤◌, OnOk};
ghost use Rattle.lfs_types.specs.declared.path.TheConstants.{PATH_MAX};
ghost use Rattle.lfs_explain.specs.Asked.{asked};
ghost use Rattle.lfs_explain.specs.Tables.{known_path, making_by, own_tests, reaching_by, removing_by, table_by, trail_tests};

use crate::check::Check;
use crate::moving::{push_arriving, push_moving};
use crate::privileged::{chflags, set_level};
use crate::testing;
use crate::trail::{ShownRow, Trail, dir_of, last_row, row_of};
use lfs_checks::site::Site;
use lfs_types::attrs::Attrs;
use lfs_types::cred::Cred;
use lfs_types::level::Level;
use lfs_types::request::Request;
use lfs_types::rule::Rule;
use std::alloc::AllocError;

/// A call whose checks are told.
#[derive(Clone, Copy)]
pub(crate) struct ToldCall<'a> {
    /// The securelevel at which it is made.
    pub(crate) level: Level,
    /// Who makes it.
    pub(crate) cred: &'a Cred,
    /// What it asks for.
    pub(crate) request: &'a Request,
}

/// Puts the checks of a call, whose paths lead through these rows, behind others.
pub(crate) fn push_table(
    checks: &mut Vec<Check>,
    call: ToldCall<'_>,
    first: &Trail,
    second: &Trail,
) -> Result<(), AllocError>
    requires short { first.now.names ≤ PATH_MAX }
    requires short_second { second.now.names ≤ PATH_MAX }
    ensures { OnOk result (asked checks.new.items ≡ asked (checks.old.items
        ++ table_by call.entry.level call.entry.cred.now call.entry.request.now
        (known_path first.now) (known_path second.now))) }
{
    let cred = call.cred;
    match call.request {
        Request::Create { .. } | Request::Mkdir { .. } => push_making(checks, cred, first),
        Request::Unlink { .. } => {
            push_removing(checks, cred, first)?;
            push(
                checks,
                &testing::unlink(&last_row(first).attrs, first.names),
            )
        }
        Request::Rmdir { .. } => {
            push_removing(checks, cred, first)?;
            let end = last_row(first);
            push(
                checks,
                &testing::rmdir(&end.attrs, first.is_childless, first.names),
            )
        }
        Request::Rename { .. } => {
            push_removing(checks, cred, first)?;
            push_arriving(checks, cred, second)?;
            push_moving(checks, cred, first, second)
        }
        Request::SetLevel { level: new } => push(checks, &set_level(cred, call.level, *new)),
        Request::Sync => Ok(()),
        _ => push_reaching(checks, call, first),
    }
}

/// Puts checks behind others.
pub(crate) fn push(checks: &mut Vec<Check>, more: &[Check]) -> Result<(), AllocError>
    ensures { OnOk result (checks.new.items ≡ checks.old.items ++ more.now) }
{
    checks.extend_from_slice(more)
}

/// Puts those of so many steps along the rows of the path of this index.
pub(crate) fn push_trail(
    checks: &mut Vec<Check>,
    cred: &Cred,
    path: u8,
    count: u32,
    rows: &[ShownRow],
) -> Result<(), AllocError>
    requires { count ≤ PATH_MAX }
    ensures { OnOk result (checks.new.items ≡ checks.old.items
        ++ trail_tests cred.now path 0 count rows.now) }
{
    let steps = rows.len().min(count as usize);
    for at in 0..steps {
        let there = row_of(rows, at + 1).is_some();
        let site = Site {
            path,
            at: at as u32,
        };
        push(checks, &testing::step(&rows[at].attrs, cred, site, there))?;
    }
    Ok(())
}

/// Puts those of a call with one path to a file.
fn push_reaching(
    checks: &mut Vec<Check>,
    call: ToldCall<'_>,
    path: &Trail,
) -> Result<(), AllocError>
    requires { path.now.names ≤ PATH_MAX }
    ensures { OnOk result (asked checks.new.items ≡ asked (checks.old.items
        ++ reaching_by call.entry.cred.now (own_tests call.entry.level call.entry.cred.now call.entry.request.now)
        (known_path path.now))) }
{
    push_trail(checks, call.cred, 0, path.names, &path.rows)?;
    push_own(checks, call, &last_row(path).attrs, path.names)
}

/// Puts those of the file, at component `at`, that a call with one path leads to.
fn push_own(
    checks: &mut Vec<Check>,
    call: ToldCall<'_>,
    file: &Attrs,
    at: u32,
) -> Result<(), AllocError>
    ensures { OnOk result (asked checks.new.items ≡ asked (checks.old.items
        ++ own_tests call.entry.level call.entry.cred.now call.entry.request.now file.now at)) }
{
    let cred = call.cred;
    match call.request {
        Request::Read { .. } => push(checks, &testing::read(file, cred, at)),
        Request::List { .. } => push(checks, &testing::list(file, cred, at)),
        Request::Write { place, bytes, .. } => {
            let count = bytes.as_slice().len();
            push(
                checks,
                &testing::change(file, cred, testing::is_end(*place), at),
            )?;
            push(checks, &testing::fits(file, *place, count, at))
        }
        Request::SetLength { len, .. } => {
            push(checks, &testing::change(file, cred, false, at))?;
            push(checks, &testing::fits_length(*len, at))
        }
        Request::Chmod { .. } => push(checks, &testing::chmod(file, cred, at)),
        Request::Chown { uid, gid, .. } => {
            push(checks, &testing::chown(file, cred, *uid, *gid, at))
        }
        Request::Chflags { flags, .. } => push(
            checks,
            &chflags(file, cred, call.level, *flags, at),
        ),
        _ => Ok(()),
    }
}

/// Puts those of a call that makes a row.
fn push_making(checks: &mut Vec<Check>, cred: &Cred, path: &Trail) -> Result<(), AllocError>
    requires { path.now.names ≤ PATH_MAX }
    ensures { OnOk result (checks.new.items ≡ checks.old.items
        ++ making_by cred.now (known_path path.now)) }
{
    let at = path.names.saturating_sub(1);
    let free = row_of(&path.rows, path.names as usize).is_none();
    let root = Site { path: 0, at: 0 };
    push(checks, &[Check::new(path.names != 0, Rule::NameFree, root)])?;
    push_trail(checks, cred, 0, at, &path.rows)?;
    push(checks, &testing::make(&dir_of(path).attrs, cred, free, at))
}

/// Puts those of a call that takes away a name, up to those that a file and a directory differ in.
fn push_removing(checks: &mut Vec<Check>, cred: &Cred, path: &Trail) -> Result<(), AllocError>
    requires { path.now.names ≤ PATH_MAX }
    ensures { OnOk result (checks.new.items ≡ checks.old.items
        ++ removing_by cred.now (known_path path.now)) }
{
    let at = path.names.saturating_sub(1);
    let (dir, file) = (dir_of(path), last_row(path));
    let root = Site { path: 0, at: 0 };
    push(
        checks,
        &[Check::new(path.names != 0, Rule::IsNotRoot, root)],
    )?;
    push_trail(checks, cred, 0, path.names, &path.rows)?;
    let site = Site { path: 0, at };
    push(
        checks,
        &testing::remove(&dir.attrs, &file.attrs, cred, site),
    )
}
