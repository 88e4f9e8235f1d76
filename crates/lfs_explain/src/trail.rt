//! The rows that a path leads through.

ghost use Rattle.std.specs.Prelude.{◌≡◌, ◌==◌, ◌≤◌, length, map, slice_get, take};
ghost use Rattle.std.specs.List.{list_any};
ghost use Rattle.lfs_types.specs.declared.path.TheConstants.{PATH_MAX};
ghost use Rattle.lfs_model.specs.Rules.{position};
ghost use Rattle.lfs_explain.specs.Tables.{dir_of, is_itself, known_path, last_row, no_row, row_at};
ghost use Rattle.lfs_explain.specs.declared.trail.ShownRow.{ShownRow};

use lfs_types::attrs::{Attrs, Kind};
use lfs_types::file_flags::FileFlags;
use lfs_types::mode::Mode;

/// A file or a directory as users see it: its number and its attributes, where a directory has the size 0.
#[derive(Clone, Copy, PartialEq, Eq, Debug)]
pub struct ShownRow {
    /// Its number.
    pub number: u32,
    /// Its attributes.
    pub attrs: Attrs,
}

/// What a path leads through.
#[derive(Drop, Debug)]
pub struct Trail {
    /// The rows at components 0, the root, and on, as far as the names lead.
    pub rows: Vec<ShownRow>,
    /// How many names the path has.
    pub names: u32,
    /// Whether the row that all the names lead to, if there is one, has no child.
    pub is_childless: bool,
}

/// A row of some, if there are as many.
pub fn row_of(rows: &[ShownRow], at: usize) -> Option<ShownRow>
    ensures { result ≡ slice_get rows.now at }
{
    rows.get(at).copied()
}

/// The row that a path's names lead to.
pub fn last_row(path: &Trail) -> ShownRow
    ensures { result ≡ last_row (known_path path.now) }
{
    row_at(&path.rows, path.names)
}

/// The directory of that row.
pub fn dir_of(path: &Trail) -> ShownRow
    ensures { result ≡ dir_of (known_path path.now) }
{
    row_at(&path.rows, path.names.saturating_sub(1))
}

/// The row at a component, or what stands for it.
fn row_at(rows: &[ShownRow], at: u32) -> ShownRow
    ensures { result ≡ row_at rows.now at }
{
    row_of(rows, at as usize).unwrap_or(no_row())
}

/// What stands for a row that isn't there, of which nothing is asked.
fn no_row() -> ShownRow
    ensures { result ≡ no_row }
{
    let Some(mode) = Mode::new(0o755) else {
        // Never: the number is a mode.
        unreachable!()
    };
    let attrs = Attrs {
        kind: Kind::Directory,
        uid: 0,
        gid: 0,
        mode,
        flags: FileFlags::none(),
        size: 0,
    };
    ShownRow { number: 0, attrs }
}

/// Whether what is at a place is the row of this number.
pub fn is_itself(number: u32, to: &Trail) -> bool
    ensures { result ≡ is_itself number (slice_get to.now.rows.items to.now.names) }
{
    match row_of(&to.rows, to.names as usize) {
        None => false,
        Some(row) => row.number == number,
    }
}

/// The directories on the way to the place.
pub fn directories_to(to: &Trail) -> &[ShownRow]
    ensures { result.now ≡ take to.now.names to.now.rows.items }
{
    let count = to.rows.len().min(to.names as usize);
    &to.rows[..count]
}

/// Whether a number is one of some rows, and the index at which it first is, or how many rows there are.
pub fn place_on(rows: &[ShownRow], number: u32) -> (bool, u32)
    requires { length rows.now ≤ PATH_MAX }
    ensures is_on { result.0 ≡ list_any (λ n. n == number)
        (map (λ (row : ShownRow). row.number) rows.now) }
    ensures place { result.1 ≡ position number (map (λ (row : ShownRow). row.number) rows.now) }
{
    for (at, row) in rows.iter().enumerate() {
        if row.number == number {
            return (true, at as u32);
        }
    }
    (false, rows.len() as u32)
}
