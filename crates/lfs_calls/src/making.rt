//! The calls that make a row.

ghost use Rattle.std.specs.Prelude.{◌≡◌, [], ◌≤◌, ◌+◌, ◌/◌, ◌<◌, Some, None, is_none, length};
ghost use Rattle.lfs_types.specs.declared.block.TheConstants.{BLOCK_SIZE};
ghost use Rattle.lfs_types.specs.declared.path.TheConstants.{PATH_MAX};
ghost use Rattle.lfs_types.specs.Stored.{shown_attrs};
ghost use Rattle.lfs_types.specs.Tree.{Content, file_of};
ghost use Rattle.lfs_model.specs.World.{child};
ghost use Rattle.lfs_model.specs.Rules.{Judges, judged, making, making_tests};
ghost use Rattle.lfs_calls.specs.Asked.{Asks, IsAsked};
ghost use Rattle.lfs_calls.specs.Calls.{ChangesTo, IsCall, answered};
ghost use Rattle.lfs_calls.specs.Volumes.{HasWorld, InWorld};
ghost use Rattle.lfs_calls.specs.Names.{FindsNew};
ghost use Rattle.lfs_calls.specs.Makes.{CanMake, IsParent, request_for, MakesFile};

use crate::cached_store::{CachedStore, Naming};
use crate::call_fault::CallFault;
use crate::directory::{DirBlock, NewEntry, find_room, look_up};
use crate::walking::{Reached, reach};
use lfs_checks::asking::ask;
use lfs_checks::components::{component, last_name};
use lfs_checks::names::{may_enter, may_search};
use lfs_checks::site::Site;
use lfs_types::answer::{Resource, Served};
use lfs_types::attrs::{Attrs, Kind};
use lfs_types::block::BLOCK_SIZE;
use lfs_types::cred::Cred;
use lfs_types::file_flags::FileFlags;
use lfs_types::mode::Mode;
use lfs_types::name::{NAME_MAX, Name};
use lfs_types::path::Path;
use lfs_types::request::Request;
use lfs_types::rule::{Denial, Rule};
use lfs_types::store::{Change, FileStore, Reserve, StoreRefusal};

/// The directory in which a new name may be put, or the first rule that fails.
pub(crate) fn judge_make<F: FileStore>(
    store: &mut CachedStore<F>,
    cred: &Cred,
    names: &[Name],
) -> Result<Reached, Denial>
    requires world { HasWorld (F.state store.old) }
    requires short { length names.now ≤ PATH_MAX }
    ensures judge { InWorld (F.state store.old) (λ w. Judges (making w.rows cred.now names.now)
        (IsParent (F.state store.old).content w.rows names.now) result) }
    ensures state { F.state store.new ≡ F.state store.old }
{
    let Some((name, parents)) = names.split_last() else {
        return Err(Site { path: 0, at: 0 }.denial(Rule::NameFree));
    };
    let at = component(parents);
    let dir = reach(store, cred, 0, parents)?;
    may_make(store, cred, &dir, name, at)?;
    Ok(dir)
}

/// Whether a caller may put a name into a directory, which stands at component `at` of the path, or the first rule that
/// fails. The name is looked up only where search in the directory is granted.
fn may_make<F: FileStore>(
    store: &mut CachedStore<F>,
    cred: &Cred,
    dir: &Reached,
    name: &Name,
    at: u32,
) -> Result<(), Denial>
    requires world { HasWorld (F.state store.old) }
    requires shown { Some dir.now.attrs ≡ shown_attrs (F.state store.old).content dir.now.number }
    requires short { at < PATH_MAX }
    ensures judge { InWorld (F.state store.old) (λ w. result
        ≡ judged (making_tests cred.now (is_none (child w.rows dir.now.number name.now))
        dir.now.attrs at)) }
    ensures state { F.state store.new ≡ F.state store.old }
{
    let Reached { number, attrs } = *dir;
    let site = Site { path: 0, at };
    may_search(&attrs, cred, site)?;
    let free = look_up(store, number, attrs.size, name).is_none();
    let below = Site { at: at + 1, ..site };
    ask(free, Rule::NameFree, below)?;
    may_enter(&attrs, cred, site)
}

/// A row that is to be made.
#[derive(Clone, Copy)]
struct NewRow<'a> {
    /// Its number.
    number: u32,
    /// Its attributes.
    attrs: Attrs,
    /// Its name.
    name: &'a Name,
}

/// Makes a row's file and writes the block of its directory that lists it.
fn put_new<F: FileStore>(
    store: &mut CachedStore<F>,
    by: Reserve,
    row: NewRow<'_>,
    dir: u32,
    room: &DirBlock,
) -> Result<(), StoreRefusal>
    requires can { CanMake (F.state store.old) row.number dir room.now }
    requires finds { (after : Content) → MakesFile (F.state store.old).content after
        row.number (file_of row.attrs []) dir room.now.off room.now.block
        → FindsNew (F.state store.old).content after dir row.name.now (Some row.number)
        (room.now.off / BLOCK_SIZE) }
    ensures changes { ChangesTo (F.state store.old)
        (λ after. MakesFile (F.state store.old).content after
        row.entry.number (file_of row.entry.attrs []) dir room.now.off room.now.block)
        result (F.state store.new) }
    ensures asked { Asks F.state F.made store.old by
        (λ after. MakesFile (F.state store.old).content after
        row.entry.number (file_of row.entry.attrs []) dir room.now.off room.now.block)
        result store.new }
{
    let NewRow {
        number,
        attrs,
        name,
    } = row;
    let changes = [
        Change::Make { ino: number, attrs },
        Change::Put {
            ino: dir,
            off: room.off,
            bytes: &room.block,
        },
    ];
    let naming = Naming {
        dir,
        name,
        found: Some(number),
        block: room.off / BLOCK_SIZE as u64,
    };
    store.apply_naming(&changes, by, naming)
}

/// Makes an empty file.
pub fn create<F: FileStore>(
    store: &mut CachedStore<F>,
    cred: &Cred,
    path: &Path,
    mode: Mode,
) -> Result<Served, CallFault>
    requires { HasWorld (F.state store.old) }
    ensures call { IsCall (F.state store.old) (F.state store.new) cred.now
        (Request.Create path.now mode)
        result }
    ensures asked { IsAsked F.state F.made store.old cred.now
        (Request.Create path.now mode) (answered result) store.new }
{
    make(store, cred, path, Kind::File, mode)
}

/// Makes an empty directory.
pub fn mkdir<F: FileStore>(
    store: &mut CachedStore<F>,
    cred: &Cred,
    path: &Path,
    mode: Mode,
) -> Result<Served, CallFault>
    requires { HasWorld (F.state store.old) }
    ensures call { IsCall (F.state store.old) (F.state store.new) cred.now
        (Request.Mkdir path.now mode)
        result }
    ensures asked { IsAsked F.state F.made store.old cred.now
        (Request.Mkdir path.now mode) (answered result) store.new }
{
    make(store, cred, path, Kind::Directory, mode)
}

/// Makes an empty file of this kind.
fn make<F: FileStore>(
    store: &mut CachedStore<F>,
    cred: &Cred,
    path: &Path,
    kind: Kind,
    mode: Mode,
) -> Result<Served, CallFault>
    requires { HasWorld (F.state store.old) }
    ensures call { IsCall (F.state store.old) (F.state store.new) cred.now
        (request_for kind path.now mode) result }
    ensures asked { IsAsked F.state F.made store.old cred.now
        (request_for kind path.now mode) (answered result) store.new }
{
    let names = path.names();
    let dir = judge_make(store, cred, names)?;
    let name = last_name(names);
    prove!(name.as_bytes().len() <= NAME_MAX);
    let Some(number) = store.least_free() else {
        return Err(CallFault::Refused(Resource::NoInodes));
    };
    let listed = NewEntry { name, number };
    let mut room = DirBlock::empty();
    if !find_room(store, &dir, None, listed, &mut room) {
        return Err(CallFault::Refused(Resource::DirectoryFull));
    }
    let attrs = Attrs {
        kind,
        uid: cred.uid(),
        gid: dir.attrs.gid,
        mode,
        flags: FileFlags::none(),
        size: 0,
    };
    let by = Reserve::of(cred);
    let row = NewRow {
        number,
        attrs,
        name,
    };
    put_new(store, by, row, dir.number, &room)?;
    Ok(Served::Done)
}
