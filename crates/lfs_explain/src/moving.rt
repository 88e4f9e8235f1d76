//! The checks of a row that gets another place.

ghost use Rattle.std.specs.Prelude.{◌≡◌, ◌++◌, ◌≤◌, OnOk, slice_get};
ghost use Rattle.lfs_types.specs.declared.path.TheConstants.{PATH_MAX};
ghost use Rattle.lfs_model.specs.Rules.{leaves_test};
ghost use Rattle.lfs_explain.specs.Tables.{arriving_by, known_path, last_by, moving_by, placing_by};

use crate::check::Check;
use crate::telling::{push, push_trail};
use crate::testing;
use crate::trail::{Trail, dir_of, directories_to, is_itself, last_row, place_on, row_of};
use lfs_checks::site::Site;
use lfs_rules::access::grants;
use lfs_types::attrs::{Attrs, Bit};
use lfs_types::cred::Cred;
use lfs_types::rule::Rule;
use std::alloc::AllocError;

/// Puts those of the way to a place behind other checks.
pub(crate) fn push_arriving(
    checks: &mut Vec<Check>,
    cred: &Cred,
    to: &Trail,
) -> Result<(), AllocError>
    requires { to.now.names ≤ PATH_MAX }
    ensures { OnOk result (checks.new.items ≡ checks.old.items
        ++ arriving_by cred.now (known_path to.now)) }
{
    let at = to.names.saturating_sub(1);
    let root = Site { path: 1, at: 0 };
    push(checks, &[Check::new(to.names != 0, Rule::IsNotRoot, root)])?;
    push_trail(checks, cred, 1, at, &to.rows)?;
    let site = Site { path: 1, at };
    push(checks, &testing::search(&dir_of(to).attrs, cred, site))
}

/// Puts those of a row that gets the place; none where it has that place already.
pub(crate) fn push_moving(
    checks: &mut Vec<Check>,
    cred: &Cred,
    from: &Trail,
    to: &Trail,
) -> Result<(), AllocError>
    requires { to.now.names ≤ PATH_MAX }
    ensures { OnOk result (checks.new.items ≡ checks.old.items
        ++ moving_by cred.now (known_path from.now) (known_path to.now)
        (slice_get to.now.rows.items to.now.names)) }
{
    let moved = last_row(from);
    if is_itself(moved.number, to) {
        return Ok(());
    }
    push_placing(checks, cred, &moved.attrs, to)?;
    push_last(checks, cred, from, to)
}

/// Puts those of the directory of the place, and of what is there.
fn push_placing(
    checks: &mut Vec<Check>,
    cred: &Cred,
    moved: &Attrs,
    to: &Trail,
) -> Result<(), AllocError>
    requires { to.now.names ≤ PATH_MAX }
    ensures { OnOk result (checks.new.items ≡ checks.old.items
        ++ placing_by cred.now moved.now (known_path to.now)
        (slice_get to.now.rows.items to.now.names)) }
{
    let at = to.names.saturating_sub(1);
    let dir = dir_of(to);
    let site = Site { path: 1, at };
    let Some(row) = row_of(&to.rows, to.names as usize) else {
        return push(checks, &testing::enter(&dir.attrs, cred, site));
    };
    push(checks, &testing::remove(&dir.attrs, &row.attrs, cred, site))?;
    push(
        checks,
        &testing::replace(moved, &row.attrs, to.is_childless, at + 1),
    )
}

/// Puts the last: of the way to the place, and of what is moved.
fn push_last(
    checks: &mut Vec<Check>,
    cred: &Cred,
    from: &Trail,
    to: &Trail,
) -> Result<(), AllocError>
    requires { to.now.names ≤ PATH_MAX }
    ensures { OnOk result (checks.new.items ≡ checks.old.items
        ++ last_by cred.now (known_path from.now) (known_path to.now)) }
{
    let moved = last_row(from);
    let stays = dir_of(from).number == dir_of(to).number;
    let (is_on_way, place) = place_on(directories_to(to), moved.number);
    let site = Site { path: 1, at: place };
    push(
        checks,
        &[
            Check::new(!is_on_way, Rule::IsNotBeneathItself, site),
            leaves(&moved.attrs, cred, stays, from.names),
        ],
    )
}

/// That of what is moved, which may stay in its directory.
fn leaves(file: &Attrs, cred: &Cred, stays: bool, at: u32) -> Check
    ensures { result ≡ leaves_test cred.now stays file.now at }
{
    let may = !file.kind.is_directory() || stays || grants(file, cred, Bit::Write);
    Check::new(may, Rule::GrantsWrite, Site { path: 0, at })
}
