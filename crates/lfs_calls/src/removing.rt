//! The calls that take away a name.

ghost use Rattle.std.specs.Prelude.{◌≡◌, ◌==◌, None, Some, ◌≤◌, length};
ghost use Rattle.lfs_types.specs.declared.path.TheConstants.{PATH_MAX};
ghost use Rattle.lfs_types.specs.Stored.{shown_attrs};
ghost use Rattle.lfs_types.specs.Tree.{World};
ghost use Rattle.lfs_model.specs.Rules.{Judges, judged, removing, rmdir_tests, rule_table};
ghost use Rattle.lfs_model.specs.World.{children};
ghost use Rattle.lfs_calls.specs.Asked.{Asks, IsAsked};
ghost use Rattle.lfs_calls.specs.Calls.{ChangesTo, IsCall, answered};
ghost use Rattle.lfs_calls.specs.Volumes.{HasWorld, InWorld, IsVolume};
ghost use Rattle.lfs_calls.specs.Removes.{HangsAs, IsChildless, IsRemovable, IsRemoval, TakesRow, removal_request, removed_tests};

use crate::cached_store::{CachedStore, Naming};
use crate::call_fault::CallFault;
use crate::directory::{DirBlock, is_empty_directory, take_name};
use crate::walking::{Reached, reach, step};
use lfs_checks::asking::ask;
use lfs_checks::components::{component, last_name};
use lfs_checks::names::{may_remove, may_unlink};
use lfs_checks::site::Site;
use lfs_types::answer::Served;
use lfs_types::attrs::Kind;
use lfs_types::block::BLOCK_SIZE;
use lfs_types::cred::Cred;
use lfs_types::name::Name;
use lfs_types::path::Path;
use lfs_types::request::Request;
use lfs_types::rule::{Denial, Rule};
use lfs_types::store::{Change, FileStore, Reserve, StoreRefusal};

/// A row whose name may be taken away: the row, and the directory in which it hangs.
#[derive(Clone, Copy)]
pub(crate) struct Removal {
    /// The directory.
    pub(crate) dir: Reached,
    /// The row's file or directory.
    pub(crate) file: Reached,
}

/// The row whose name may be taken away, or the first rule that fails, of those that files and directories share.
pub(crate) fn judge_remove<F: FileStore>(
    store: &mut CachedStore<F>,
    cred: &Cred,
    names: &[Name],
) -> Result<Removal, Denial>
    requires world { HasWorld (F.state store.old) }
    requires short { length names.now ≤ PATH_MAX }
    ensures judge { InWorld (F.state store.old) (λ w. Judges (removing w.rows cred.now names.now)
        (IsRemoval (F.state store.old).content w.rows names.now) result) }
    ensures state { F.state store.new ≡ F.state store.old }
{
    let Some((name, parents)) = names.split_last() else {
        return Err(Site { path: 0, at: 0 }.denial(Rule::IsNotRoot));
    };
    let at = component(parents);
    let dir = reach(store, cred, 0, parents)?;
    let site = Site { path: 0, at };
    let number = step(store, cred, site, dir.number, name)?;
    let Some(attrs) = store.learn_attrs(number) else {
        // Never: by `step`: it is a row of the world.
        unreachable!()
    };
    may_remove(&dir.attrs, &attrs, cred, site)?;
    let file = Reached { number, attrs };
    Ok(Removal { dir, file })
}

/// Takes away a row: its name from the directory, and the file under its number.
fn take_row<F: FileStore>(
    store: &mut CachedStore<F>,
    by: Reserve,
    removal: &Removal,
    name: &Name,
) -> Result<(), StoreRefusal>
    requires world { (w : World) × (IsVolume (F.state store.old) w
        × HangsAs (F.state store.old).content w.rows removal.now name.now
        × IsChildless w.rows removal.now.file.number) }
    ensures changes { ChangesTo (F.state store.old)
        (λ after. TakesRow (F.state store.old).content after removal.now name.now)
        result (F.state store.new) }
    ensures asked { Asks F.state F.made store.old by
        (λ after. TakesRow (F.state store.old).content after removal.now name.now)
        result store.new }
{
    let Reached { number, attrs } = removal.dir;
    let mut room = DirBlock::empty();
    take_name(store, number, attrs.size, name, &mut room);
    let changes = [
        Change::Put {
            ino: number,
            off: room.off,
            bytes: &room.block,
        },
        Change::Remove {
            ino: removal.file.number,
        },
    ];
    let naming = Naming {
        dir: number,
        name,
        found: None,
        block: room.off / BLOCK_SIZE as u64,
    };
    store.apply_naming(&changes, by, naming)
}

/// Removes a file.
pub fn unlink<F: FileStore>(
    store: &mut CachedStore<F>,
    cred: &Cred,
    path: &Path,
) -> Result<Served, CallFault>
    requires { HasWorld (F.state store.old) }
    ensures call { IsCall (F.state store.old) (F.state store.new) cred.now (Request.Unlink path.now)
        result }
    ensures asked { IsAsked F.state F.made store.old cred.now
        (Request.Unlink path.now) (answered result) store.new }
{
    remove(store, cred, path, Kind::File)
}

/// Removes an empty directory.
pub fn rmdir<F: FileStore>(
    store: &mut CachedStore<F>,
    cred: &Cred,
    path: &Path,
) -> Result<Served, CallFault>
    requires { HasWorld (F.state store.old) }
    ensures call { IsCall (F.state store.old) (F.state store.new) cred.now (Request.Rmdir path.now)
        result }
    ensures asked { IsAsked F.state F.made store.old cred.now
        (Request.Rmdir path.now) (answered result) store.new }
{
    remove(store, cred, path, Kind::Directory)
}

/// Removes a file, or an empty directory, as the kind says.
fn remove<F: FileStore>(
    store: &mut CachedStore<F>,
    cred: &Cred,
    path: &Path,
    kind: Kind,
) -> Result<Served, CallFault>
    requires { HasWorld (F.state store.old) }
    ensures call { IsCall (F.state store.old) (F.state store.new) cred.now
        (removal_request kind path.now) result }
    ensures asked { IsAsked F.state F.made store.old cred.now
        (removal_request kind path.now) (answered result) store.new }
{
    let names = path.names();
    let removal = judge_removal(store, cred, names, kind)?;
    take_row(store, Reserve::of(cred), &removal, last_name(names))?;
    Ok(Served::Done)
}

/// The row that may be removed as one of this kind, or the first rule that fails.
fn judge_removal<F: FileStore>(
    store: &mut CachedStore<F>,
    cred: &Cred,
    names: &[Name],
    kind: Kind,
) -> Result<Removal, Denial>
    requires world { HasWorld (F.state store.old) }
    requires short { length names.now ≤ PATH_MAX }
    ensures judge { InWorld (F.state store.old) (λ w.
        Judges (rule_table w cred.now (removal_request kind names.now))
        (IsRemovable (F.state store.old).content w.rows names.now) result) }
    ensures state { F.state store.new ≡ F.state store.old }
{
    let removal = judge_remove(store, cred, names)?;
    may_be_removed(store, &removal.file, kind, component(names))?;
    Ok(removal)
}

/// Whether a row, which stands at component `at`, may be removed as one of this kind, or the first rule that fails.
fn may_be_removed<F: FileStore>(
    store: &mut CachedStore<F>,
    row: &Reached,
    kind: Kind,
    at: u32,
) -> Result<(), Denial>
    requires world { HasWorld (F.state store.old) }
    requires shown { Some row.now.attrs ≡ shown_attrs (F.state store.old).content row.now.number }
    ensures judge { InWorld (F.state store.old) (λ w. result
        ≡ judged (removed_tests kind (length (children w.rows row.now.number) == 0)
        row.now.attrs at)) }
    ensures state { F.state store.new ≡ F.state store.old }
{
    match kind {
        Kind::File => may_unlink(&row.attrs, at),
        Kind::Directory => may_rmdir(store, row, at),
    }
}

/// Whether what a Rmdir names, which stands at component `at`, may be removed, or the first rule that fails. Only a
/// directory is searched for names.
fn may_rmdir<F: FileStore>(store: &mut CachedStore<F>, row: &Reached, at: u32) -> Result<(), Denial>
    requires world { HasWorld (F.state store.old) }
    requires shown { Some row.now.attrs ≡ shown_attrs (F.state store.old).content row.now.number }
    ensures judge { InWorld (F.state store.old) (λ w. result
        ≡ judged (rmdir_tests (length (children w.rows row.now.number) == 0) row.now.attrs at)) }
    ensures state { F.state store.new ≡ F.state store.old }
{
    let site = Site { path: 0, at };
    ask(row.attrs.kind.is_directory(), Rule::IsDirectory, site)?;
    let empty = is_empty_directory(store, row.number, row.attrs.size);
    ask(empty, Rule::IsEmpty, site)
}
