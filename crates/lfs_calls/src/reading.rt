//! The calls that show a file.

ghost use Rattle.std.specs.Prelude.{◌≡◌, IsSome, IfOk, length};
ghost use Rattle.std.specs.FinMap.{get};
ghost use Rattle.lfs_types.specs.Stored.{bytes_of, slice_of};
ghost use Rattle.lfs_calls.specs.Calls.{IsCall};
ghost use Rattle.lfs_calls.specs.Volumes.{HasWorld};

use crate::cached_store::CachedStore;
use crate::call_fault::CallFault;
use crate::walking::find;
use lfs_checks::attributes::shown_size;
use lfs_checks::bytes::may_read;
use lfs_checks::components::depth;
use lfs_types::answer::Served;
use lfs_types::attrs::Attrs;
use lfs_types::cred::Cred;
use lfs_types::limits::TRANSFER_BYTES;
use lfs_types::path::Path;
use lfs_types::payload::Bytes;
use lfs_types::request::Request;
use lfs_types::store::FileStore;
use std::alloc::AllocError;

/// The number and the attributes of a file.
pub fn stat<F: FileStore>(
    store: &mut CachedStore<F>,
    cred: &Cred,
    path: &Path,
) -> Result<Served, CallFault>
    requires { HasWorld (F.state store.old) }
    ensures call { IsCall (F.state store.old) (F.state store.new) cred.now (Request.Stat path.now)
        result }
    ensures state { F.state store.new ≡ F.state store.old }
{
    let file = find(store, cred, path)?;
    let size = shown_size(&file.attrs);
    Ok(Served::Stat(file.number, Attrs { size, ..file.attrs }))
}

/// At most `len` bytes of a file from `off` on, and at most 4,096.
pub fn read<F: FileStore>(
    store: &mut CachedStore<F>,
    cred: &Cred,
    path: &Path,
    off: u64,
    len: u32,
) -> Result<Served, CallFault>
    requires { HasWorld (F.state store.old) }
    ensures call { IsCall (F.state store.old) (F.state store.new) cred.now
        (Request.Read path.now off len)
        result }
    ensures state { F.state store.new ≡ F.state store.old }
{
    let file = find(store, cred, path)?;
    may_read(&file.attrs, cred, depth(path))?;
    let count = (len as usize).min(TRANSFER_BYTES);
    let bytes = read_bytes(store, file.number, off, file.attrs.size, count)?;
    Ok(Served::Bytes(Bytes::new(bytes)?))
}

/// The bytes of a file of this size from `off` on, at most `count`; an error where a growth was refused.
fn read_bytes<F: FileStore>(
    store: &mut CachedStore<F>,
    ino: u32,
    off: u64,
    size: u64,
    count: usize,
) -> Result<Vec<u8>, AllocError>
    requires used { IsSome (get (F.state store.old).content ino) }
    requires size { size ≡ length (bytes_of (F.state store.old).content ino) }
    ensures bytes { IfOk result
        (λ v. v.items ≡ slice_of (bytes_of (F.state store.old).content ino) off count) }
    ensures state { F.state store.new ≡ F.state store.old }
{
    let left = size.saturating_sub(off);
    let count = if left < count as u64 {
        left as usize
    } else {
        count
    };
    let alloc = store.alloc();
    let mut bytes = vec![in alloc; 0u8; count]?;
    store.read(ino, off, bytes.as_mut_slice());
    Ok(bytes)
}
