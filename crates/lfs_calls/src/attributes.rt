//! The calls that change the attributes of a file or a directory.

ghost use Rattle.std.specs.Prelude.{◌≡◌, IsSomeAnd};
ghost use Rattle.std.specs.FinMap.{get};
ghost use Rattle.lfs_calls.specs.Asked.{Asks, IsAsked};
ghost use Rattle.lfs_calls.specs.Attributes.{SetsAttrs};
ghost use Rattle.lfs_calls.specs.Calls.{ChangesTo, IsCall, IsCallAt, answered};
ghost use Rattle.lfs_calls.specs.Volumes.{HasWorld};

use crate::cached_store::CachedStore;
use crate::call_fault::CallFault;
use crate::walking::{Reached, find};
use lfs_checks::attributes::{may_chflags, may_chmod, may_chown, mode_after};
use lfs_checks::components::depth;
use lfs_types::answer::Served;
use lfs_types::attrs::Attrs;
use lfs_types::cred::Cred;
use lfs_types::file_flags::FileFlags;
use lfs_types::level::Level;
use lfs_types::mode::Mode;
use lfs_types::path::Path;
use lfs_types::request::Request;
use lfs_types::store::{Change, FileStore, Reserve, StoreRefusal};

/// Sets the mode.
pub fn chmod<F: FileStore>(
    store: &mut CachedStore<F>,
    cred: &Cred,
    path: &Path,
    mode: Mode,
) -> Result<Served, CallFault>
    requires { HasWorld (F.state store.old) }
    ensures call { IsCall (F.state store.old) (F.state store.new) cred.now
        (Request.Chmod path.now mode)
        result }
    ensures asked { IsAsked F.state F.made store.old cred.now
        (Request.Chmod path.now mode) (answered result) store.new }
{
    let file = find(store, cred, path)?;
    may_chmod(&file.attrs, cred, depth(path))?;
    set_attrs(
        store,
        Reserve::of(cred),
        file.number,
        Attrs { mode, ..file.attrs },
    )?;
    Ok(Served::Done)
}

/// Sets the owner and the group; a caller who is not the superuser clears the set-id bits.
pub fn chown<F: FileStore>(
    store: &mut CachedStore<F>,
    cred: &Cred,
    path: &Path,
    uid: u32,
    gid: u32,
) -> Result<Served, CallFault>
    requires { HasWorld (F.state store.old) }
    ensures call { IsCall (F.state store.old) (F.state store.new) cred.now
        (Request.Chown path.now uid gid)
        result }
    ensures asked { IsAsked F.state F.made store.old cred.now
        (Request.Chown path.now uid gid) (answered result) store.new }
{
    let file = find(store, cred, path)?;
    may_chown(&file.attrs, cred, uid, gid, depth(path))?;
    let mode = mode_after(cred, file.attrs.mode);
    let attrs = Attrs {
        uid,
        gid,
        mode,
        ..file.attrs
    };
    set_attrs(store, Reserve::of(cred), file.number, attrs)?;
    Ok(Served::Done)
}

/// Sets the flags, at this securelevel.
pub fn chflags<F: FileStore>(
    store: &mut CachedStore<F>,
    cred: &Cred,
    path: &Path,
    level: Level,
    flags: FileFlags,
) -> Result<Served, CallFault>
    requires { HasWorld (F.state store.old) }
    ensures call { IsCallAt level (F.state store.old) (F.state store.new) cred.now
        (Request.Chflags path.now flags) result }
    ensures asked { IsAsked F.state F.made store.old cred.now
        (Request.Chflags path.now flags) (answered result) store.new }
{
    let file = find(store, cred, path)?;
    may_chflags(&file.attrs, cred, level, flags, depth(path))?;
    let Reached { number, attrs } = file;
    let by = Reserve::of(cred);
    set_attrs(store, by, number, Attrs { flags, ..attrs })?;
    Ok(Served::Done)
}

/// Gives a file these attributes, of its kind; its bytes stay.
fn set_attrs<F: FileStore>(
    store: &mut CachedStore<F>,
    by: Reserve,
    number: u32,
    attrs: Attrs,
) -> Result<(), StoreRefusal>
    requires kind { IsSomeAnd (get (F.state store.old).content number) (λ f. f.kind ≡ attrs.kind) }
    ensures changes { ChangesTo (F.state store.old)
        (λ after. SetsAttrs (F.state store.old).content after number attrs) result
        (F.state store.new) }
    ensures asked { Asks F.state F.made store.old by
        (λ after. SetsAttrs (F.state store.old).content after number attrs) result store.new }
{
    store.apply(&[Change::SetAttrs { ino: number, attrs }], by)
}
