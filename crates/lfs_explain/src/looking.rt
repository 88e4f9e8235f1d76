//! What a store shows of the rows that a path leads through.

ghost use Rattle.std.specs.Prelude.{◌≡◌, ◌==◌, ◌≤◌, IfOk, IfSome, IsSome, Some, length, slice_get};
ghost use Rattle.std.specs.FinMap.{get};
ghost use Rattle.lfs_types.specs.declared.path.TheConstants.{PATH_MAX};
ghost use Rattle.lfs_types.specs.Tree.{root};
ghost use Rattle.lfs_model.specs.World.{child, children};
ghost use Rattle.lfs_calls.specs.Volumes.{HasWorld, InWorld};
ghost use Rattle.lfs_explain.specs.Trails.{IsTrail, shown_row, rows_along};
ghost use Rattle.lfs_explain.specs.declared.trail.ShownRow.{ShownRow};

use crate::trail::{ShownRow, Trail, row_of};
use lfs_calls::cached_store::CachedStore;
use lfs_calls::directory::{is_empty_directory, look_up};
use lfs_checks::attributes::shown_size;
use lfs_types::attrs::Attrs;
use lfs_types::limits::ROOT_INODE;
use lfs_types::name::Name;
use lfs_types::store::FileStore;
use std::alloc::{AllocError, Global};

/// What the names of a path lead through from the root.
pub(crate) fn trail<F: FileStore>(
    alloc: Global,
    store: &mut CachedStore<F>,
    names: &[Name],
) -> Result<Trail, AllocError>
    requires world { HasWorld (F.state store.old) }
    requires short { length names.now ≤ PATH_MAX }
    ensures trail { IfOk result (λ trail. InWorld (F.state store.old)
        (λ w. IsTrail w.rows names.now trail)) }
    ensures state { F.state store.new ≡ F.state store.old }
{
    let rows = rows_along(alloc, store, names)?;
    let is_childless = ends_childless(store, &rows, names.len());
    let names = names.len() as u32;
    Ok(Trail {
        rows,
        names,
        is_childless,
    })
}

/// Whether nothing hangs in the row at this component, if there is one.
fn ends_childless<F: FileStore>(store: &mut CachedStore<F>, rows: &[ShownRow], at: usize) -> bool
    requires world { HasWorld (F.state store.old) }
    requires used { (row : ShownRow) → slice_get rows.now at ≡ Some row
        → IsSome (get (F.state store.old).content row.number) }
    ensures childless { (row : ShownRow) → slice_get rows.now at ≡ Some row
        → InWorld (F.state store.old)
        (λ w. result ≡ (length (children w.rows row.number) == 0)) }
    ensures state { F.state store.new ≡ F.state store.old }
{
    match row_of(rows, at) {
        Some(row) => is_childless(store, row.number),
        None => false,
    }
}

/// The rows that names lead through from the root, as far as they lead.
fn rows_along<F: FileStore>(
    alloc: Global,
    store: &mut CachedStore<F>,
    names: &[Name],
) -> Result<Vec<ShownRow>, AllocError>
    requires world { HasWorld (F.state store.old) }
    ensures rows_along { IfOk result (λ rows. InWorld (F.state store.old)
        (λ w. rows.items ≡ rows_along w.rows root names.now)) }
    ensures state { F.state store.new ≡ F.state store.old }
{
    let mut rows = Vec::new(alloc);
    let mut at = ROOT_INODE;
    for name in names {
        rows.push(look(store, at))?;
        match child_of(store, at, name) {
            Some(next) => at = next,
            None => return Ok(rows),
        }
    }
    rows.push(look(store, at))?;
    Ok(rows)
}

/// A file or a directory that is there, as users see it.
fn look<F: FileStore>(store: &CachedStore<F>, number: u32) -> ShownRow
    requires { IsSome (get (F.state store.now).content number) }
    ensures { InWorld (F.state store.now) (λ w. result ≡ shown_row w.rows number) }
{
    let Some(attrs) = store.attrs(number) else {
        // Never: the number is in use, as is required.
        unreachable!()
    };
    let size = shown_size(&attrs);
    let attrs = Attrs { size, ..attrs };
    ShownRow { number, attrs }
}

/// The number that has a name in a file, where none has one, or in a directory.
fn child_of<F: FileStore>(store: &mut CachedStore<F>, dir: u32, name: &Name) -> Option<u32>
    requires world { HasWorld (F.state store.old) }
    requires used { IsSome (get (F.state store.old).content dir) }
    ensures child { InWorld (F.state store.old) (λ w. child w.rows dir name.now ≡ result) }
    ensures state { F.state store.new ≡ F.state store.old }
{
    let Some(attrs) = store.attrs(dir) else {
        // Never: the number is in use, as is required.
        unreachable!()
    };
    if !attrs.kind.is_directory() {
        return None;
    }
    look_up(store, dir, attrs.size, name)
}

/// Whether nothing hangs in a file or a directory.
fn is_childless<F: FileStore>(store: &mut CachedStore<F>, number: u32) -> bool
    requires world { HasWorld (F.state store.old) }
    requires used { IsSome (get (F.state store.old).content number) }
    ensures childless { InWorld (F.state store.old)
        (λ w. result ≡ (length (children w.rows number) == 0)) }
    ensures state { F.state store.new ≡ F.state store.old }
{
    let Some(attrs) = store.attrs(number) else {
        // Never: the number is in use, as is required.
        unreachable!()
    };
    if !attrs.kind.is_directory() {
        return true;
    }
    is_empty_directory(store, number, attrs.size)
}
