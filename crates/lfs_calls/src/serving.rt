//! The call that a request asks for.

ghost use Rattle.std.specs.Prelude.{◌≡◌, OnOk};
ghost use Rattle.lfs_types.specs.Caller.{Caller};
ghost use Rattle.lfs_types.specs.StoreStates.{MovesBase};
ghost use Rattle.lfs_calls.specs.Asked.{IsAsked};
ghost use Rattle.lfs_calls.specs.Calls.{IsCall, IsCallAt, answered};
ghost use Rattle.lfs_calls.specs.Levels.{level_left};
ghost use Rattle.lfs_calls.specs.Volumes.{HasWorld};

use crate::attributes::{chflags, chmod, chown};
use crate::cached_store::CachedStore;
use crate::call_fault::CallFault;
use crate::cutting::set_length;
use crate::listing::list;
use crate::making::{create, mkdir};
use crate::reading::{read, stat};
use crate::removing::{rmdir, unlink};
use crate::renaming::rename;
use crate::writing::write;
use lfs_checks::level::may_set_level;
use lfs_types::answer::Served;
use lfs_types::cred::Cred;
use lfs_types::level::Level;
use lfs_types::request::Request;
use lfs_types::store::FileStore;

/// Makes the call that a request asks for over a store at this securelevel, which a served SetLevel sets. Only a Read
/// and a List take memory of their own. Where a Sync is served, nothing waits in the store. A call that changes files
/// is served, or refused for want of space or memory, as the store says to the changes that make the call, and the
/// store is asked for nothing else.
pub fn serve<F: FileStore>(
    store: &mut CachedStore<F>,
    level: &mut Level,
    cred: &Cred,
    request: &Request,
) -> Result<Served, CallFault>
    requires { HasWorld (F.state store.old) }
    ensures call { IsCallAt level.old (F.state store.old) (F.state store.new)
        cred.now request.now result }
    ensures level { level.new ≡ level_left level.old request.now (answered result) }
    ensures synced { request.now ≡ Request.Sync → OnOk result (F.is_flushed store.new) }
    ensures base { request.now ≡ Request.Sync
        → MovesBase (F.state store.old) (F.state store.new) }
    ensures asked { IsAsked F.state F.made store.old cred.now request.now (answered result)
        store.new }
{
    match request {
        Request::Stat { path } => stat(store, cred, path),
        Request::Read { path, off, len } => read(store, cred, path, *off, *len),
        Request::List { path } => list(store, cred, path),
        Request::Write { path, place, bytes } => write(store, cred, path, *place, bytes),
        Request::SetLength { path, len } => set_length(store, cred, path, *len),
        Request::Create { path, mode } => create(store, cred, path, *mode),
        Request::Mkdir { path, mode } => mkdir(store, cred, path, *mode),
        Request::Unlink { path } => unlink(store, cred, path),
        Request::Rmdir { path } => rmdir(store, cred, path),
        Request::Rename { from, to } => rename(store, cred, from, to),
        Request::Chmod { path, mode } => chmod(store, cred, path, *mode),
        Request::Chown { path, uid, gid } => chown(store, cred, path, *uid, *gid),
        Request::Chflags { path, flags } => chflags(store, cred, path, *level, *flags),
        Request::SetLevel { level: new } => set_level(store, level, cred, *new),
        Request::Sync => sync(store),
    }
}

/// Sets the securelevel, where the rules allow it.
fn set_level<F: FileStore>(
    store: &mut CachedStore<F>,
    level: &mut Level,
    cred: &Cred,
    new: Level,
) -> Result<Served, CallFault>
    ensures call { IsCallAt level.old (F.state store.old) (F.state store.new) cred.now
        (Request.SetLevel new) result }
    ensures level { level.new ≡ level_left level.old (Request.SetLevel new) (answered result) }
{
    may_set_level(cred, *level, new)?;
    *level = new;
    Ok(Served::Done)
}

/// Has the store write what waits.
fn sync<F: FileStore>(store: &mut CachedStore<F>) -> Result<Served, CallFault>
    ensures call { (caller : Caller) → IsCall (F.state store.old) (F.state store.new) caller
        Request.Sync result }
    ensures synced { OnOk result (F.is_flushed store.new) }
    ensures base { MovesBase (F.state store.old) (F.state store.new) }
{
    store.sync()?;
    Ok(Served::Done)
}
