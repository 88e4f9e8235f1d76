//! The call that cuts a file or adds zeros to it.

ghost use Rattle.std.specs.Prelude.{◌≡◌, ◌≤◌, Some, false};
ghost use Rattle.lfs_types.specs.declared.limits.TheConstants.{FILE_BYTES};
ghost use Rattle.lfs_types.specs.Kinds.{is_directory_kind};
ghost use Rattle.lfs_types.specs.Reserves.{reserve_of};
ghost use Rattle.lfs_types.specs.Splicing.{resized};
ghost use Rattle.lfs_types.specs.Stored.{shown_attrs};
ghost use Rattle.lfs_calls.specs.Asked.{Asks, IsAsked};
ghost use Rattle.lfs_calls.specs.Calls.{ChangesTo, IsCall, answered};
ghost use Rattle.lfs_calls.specs.Volumes.{HasWorld};
ghost use Rattle.lfs_calls.specs.Writes.{ChangesBytes};

use crate::cached_store::CachedStore;
use crate::call_fault::CallFault;
use crate::walking::{Reached, find};
use lfs_checks::attributes::mode_after;
use lfs_checks::bytes::may_set_length;
use lfs_checks::components::depth;
use lfs_types::answer::Served;
use lfs_types::attrs::Attrs;
use lfs_types::cred::Cred;
use lfs_types::path::Path;
use lfs_types::request::Request;
use lfs_types::store::{Change, FileStore, Reserve, StoreRefusal};

/// Cuts a file, or adds zeros to it.
pub fn set_length<F: FileStore>(
    store: &mut CachedStore<F>,
    cred: &Cred,
    path: &Path,
    len: u64,
) -> Result<Served, CallFault>
    requires { HasWorld (F.state store.old) }
    ensures call { IsCall (F.state store.old) (F.state store.new) cred.now
        (Request.SetLength path.now len)
        result }
    ensures asked { IsAsked F.state F.made store.old cred.now
        (Request.SetLength path.now len) (answered result) store.new }
{
    let file = find(store, cred, path)?;
    may_set_length(&file.attrs, cred, len, depth(path))?;
    cut(store, cred, &file, len)?;
    Ok(Served::Done)
}

/// Gives a file so many bytes, as it may have; a caller who isn't the superuser clears its set-id bits.
fn cut<F: FileStore>(
    store: &mut CachedStore<F>,
    cred: &Cred,
    file: &Reached,
    len: u64,
) -> Result<(), StoreRefusal>
    requires shown { Some file.now.attrs ≡ shown_attrs (F.state store.old).content file.now.number }
    requires regular { is_directory_kind file.now.attrs.kind ≡ false }
    requires fits { len ≤ FILE_BYTES }
    ensures changes { ChangesTo (F.state store.old)
        (λ after. ChangesBytes (F.state store.old).content after
        file.now.number cred.now (λ old. resized old len))
        result (F.state store.new) }
    ensures asked { Asks F.state F.made store.old (reserve_of cred.now)
        (λ after. ChangesBytes (F.state store.old).content after
        file.now.number cred.now (λ old. resized old len))
        result store.new }
{
    let Reached { number, attrs } = *file;
    let mode = mode_after(cred, attrs.mode);
    let changes = [
        Change::SetLength { ino: number, len },
        Change::SetAttrs {
            ino: number,
            attrs: Attrs { mode, ..attrs },
        },
    ];
    store.apply(&changes, Reserve::of(cred))
}
