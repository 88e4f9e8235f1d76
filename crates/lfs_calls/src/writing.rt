//! The call that puts bytes into a file.

ghost use Rattle.std.specs.Prelude.{◌≡◌, ◌≤◌, ◌+◌, Some, false, length};
ghost use Rattle.lfs_types.specs.declared.limits.TheConstants.{FILE_BYTES, TRANSFER_BYTES};
ghost use Rattle.lfs_types.specs.Kinds.{is_directory_kind};
ghost use Rattle.lfs_types.specs.Reserves.{reserve_of};
ghost use Rattle.lfs_types.specs.Splicing.{splice};
ghost use Rattle.lfs_types.specs.Stored.{shown_attrs};
ghost use Rattle.lfs_calls.specs.Asked.{Asks, IsAsked};
ghost use Rattle.lfs_calls.specs.Calls.{ChangesTo, IsCall, answered};
ghost use Rattle.lfs_calls.specs.Volumes.{HasWorld};
ghost use Rattle.lfs_calls.specs.Writes.{ChangesBytes};

use crate::cached_store::CachedStore;
use crate::call_fault::CallFault;
use crate::walking::{Reached, find};
use lfs_checks::attributes::mode_after;
use lfs_checks::bytes::{may_write, start_in};
use lfs_checks::components::depth;
use lfs_types::answer::Served;
use lfs_types::attrs::Attrs;
use lfs_types::cred::Cred;
use lfs_types::path::Path;
use lfs_types::payload::Payload;
use lfs_types::request::{Place, Request};
use lfs_types::store::{Change, FileStore, Reserve, StoreRefusal};

/// Puts bytes into a file.
pub fn write<F: FileStore>(
    store: &mut CachedStore<F>,
    cred: &Cred,
    path: &Path,
    place: Place,
    bytes: &Payload,
) -> Result<Served, CallFault>
    requires { HasWorld (F.state store.old) }
    ensures call { IsCall (F.state store.old) (F.state store.new) cred.now
        (Request.Write path.now place bytes.now) result }
    ensures asked { IsAsked F.state F.made store.old cred.now
        (Request.Write path.now place bytes.now) (answered result) store.new }
{
    let bytes = bytes.as_slice();
    let file = find(store, cred, path)?;
    may_write(&file.attrs, cred, place, bytes.len(), depth(path))?;
    if bytes.is_empty() {
        return Ok(Served::Done);
    }
    put(store, cred, &file, start_in(place, file.attrs.size), bytes)?;
    Ok(Served::Done)
}

/// Puts bytes into a file that may be written; a caller who isn't the superuser clears its set-id bits.
fn put<F: FileStore>(
    store: &mut CachedStore<F>,
    cred: &Cred,
    file: &Reached,
    start: u64,
    bytes: &[u8],
) -> Result<(), StoreRefusal>
    requires shown { Some file.now.attrs ≡ shown_attrs (F.state store.old).content file.now.number }
    requires regular { is_directory_kind file.now.attrs.kind ≡ false }
    requires few { length bytes.now ≤ TRANSFER_BYTES }
    requires fits { start + length bytes.now ≤ FILE_BYTES }
    requires size { file.now.attrs.size ≤ FILE_BYTES }
    ensures changes { ChangesTo (F.state store.old)
        (λ after. ChangesBytes (F.state store.old).content after
        file.now.number cred.now (λ old. splice old start bytes.now))
        result (F.state store.new) }
    ensures asked { Asks F.state F.made store.old (reserve_of cred.now)
        (λ after. ChangesBytes (F.state store.old).content after
        file.now.number cred.now (λ old. splice old start bytes.now))
        result store.new }
{
    let Reached { number, attrs } = *file;
    let mode = mode_after(cred, attrs.mode);
    let changes = [
        Change::Put {
            ino: number,
            off: start,
            bytes,
        },
        Change::SetAttrs {
            ino: number,
            attrs: Attrs { mode, ..attrs },
        },
    ];
    store.apply(&changes, Reserve::of(cred))
}
