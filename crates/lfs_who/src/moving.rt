//! What is asked of whoever gives a row another place.

ghost use Rattle.std.specs.Prelude.{◌≡◌, ◌==◌, ◌++◌, ◌∷◌, [], ◌≤◌, OnOk, not, slice_get};
ghost use Rattle.std.specs.List.{list_any};
ghost use Rattle.lfs_types.specs.Caller.{Caller};
ghost use Rattle.lfs_types.specs.declared.path.TheConstants.{PATH_MAX};
ghost use Rattle.lfs_types.specs.declared.rule.Rule.TheVariants.{IsNotBeneathItself};
ghost use Rattle.lfs_model.specs.Rules.{asks, position};
ghost use Rattle.lfs_explain.specs.Tables.{arriving_by, known_path, last_by, moving_by, numbers_to, placing_by};
ghost use Rattle.lfs_who.specs.Conditions.{all_posed};

use crate::asking::{push, push_trail};
use crate::condition::Question;
use crate::posing::{enter, fixed, leaves, remove, replace, root, search};
use lfs_checks::site::Site;
use lfs_explain::trail::{Trail, dir_of, directories_to, is_itself, last_row, place_on, row_of};
use lfs_types::attrs::Attrs;
use lfs_types::rule::Rule;
use std::alloc::AllocError;

/// Puts what is asked of the way to a place behind other questions.
pub(crate) fn push_arriving(questions: &mut Vec<Question>, to: &Trail) -> Result<(), AllocError>
    requires { to.now.names ≤ PATH_MAX }
    ensures { OnOk result ((c : Caller) → all_posed c questions.new.items
        ≡ all_posed c questions.old.items ++ arriving_by c (known_path to.now)) }
{
    let at = to.names.saturating_sub(1);
    push(questions, &root(to.names != 0, Rule::IsNotRoot, 1))?;
    push_trail(questions, 1, at, &to.rows)?;
    push(questions, &search(&dir_of(to).attrs, Site { path: 1, at }))
}

/// Puts that of a row that gets the place; none where it has that place already.
pub(crate) fn push_moving(
    questions: &mut Vec<Question>,
    from: &Trail,
    to: &Trail,
) -> Result<(), AllocError>
    requires { to.now.names ≤ PATH_MAX }
    ensures { OnOk result ((c : Caller) → all_posed c questions.new.items
        ≡ all_posed c questions.old.items ++ moving_by c (known_path from.now) (known_path to.now)
        (slice_get to.now.rows.items to.now.names)) }
{
    let moved = last_row(from);
    if is_itself(moved.number, to) {
        return Ok(());
    }
    push_placing(questions, &moved.attrs, to)?;
    push_last(questions, from, to)
}

/// Puts that of the directory of the place, and of what is there.
fn push_placing(questions: &mut Vec<Question>, moved: &Attrs, to: &Trail) -> Result<(), AllocError>
    requires { to.now.names ≤ PATH_MAX }
    ensures { OnOk result ((c : Caller) → all_posed c questions.new.items
        ≡ all_posed c questions.old.items ++ placing_by c moved.now (known_path to.now)
        (slice_get to.now.rows.items to.now.names)) }
{
    let at = to.names.saturating_sub(1);
    let dir = dir_of(to);
    let site = Site { path: 1, at };
    let Some(row) = row_of(&to.rows, to.names as usize) else {
        return push(questions, &enter(&dir.attrs, site));
    };
    push(questions, &remove(&dir.attrs, &row.attrs, site))?;
    push(
        questions,
        &replace(moved, &row.attrs, to.is_childless, at + 1),
    )
}

/// Puts the last: of the way to the place, and of what is moved.
fn push_last(questions: &mut Vec<Question>, from: &Trail, to: &Trail) -> Result<(), AllocError>
    requires { to.now.names ≤ PATH_MAX }
    ensures { OnOk result ((c : Caller) → all_posed c questions.new.items
        ≡ all_posed c questions.old.items ++ last_by c (known_path from.now) (known_path to.now)) }
{
    let moved = last_row(from);
    let stays = dir_of(from).number == dir_of(to).number;
    push(questions, &apart(moved.number, to))?;
    push(questions, &leaves(&moved.attrs, stays, from.names))
}

/// That of the row of a number, which may not be on the way to the place.
fn apart(number: u32, to: &Trail) -> [Question; 1]
    requires { to.now.names ≤ PATH_MAX }
    ensures { (c : Caller) → all_posed c result
        ≡ asks (not (list_any (λ n. n == number) (numbers_to (known_path to.now))))
        IsNotBeneathItself 1
        (position number (numbers_to (known_path to.now))) ∷ [] }
{
    let (is_on_way, at) = place_on(directories_to(to), number);
    let site = Site { path: 1, at };
    [fixed(!is_on_way, Rule::IsNotBeneathItself, site)]
}
