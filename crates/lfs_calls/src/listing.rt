//! The call that lists a directory.

ghost use Rattle.std.specs.Prelude.{◌≡◌};
ghost use Rattle.std.specs.Cmp.Lexicographic.{slice_cmp};
ghost use Rattle.std.specs.List.Sorted.{IsPermutation, IsSorted};
ghost use Rattle.std.specs.Ordering.{nat_cmp};
ghost use Rattle.lfs_calls.specs.Calls.{IsCall};
ghost use Rattle.lfs_calls.specs.Volumes.{HasWorld};

use crate::cached_store::CachedStore;
use crate::call_fault::CallFault;
use crate::directory::names_of_directory;
use crate::walking::find;
use lfs_checks::components::depth;
use lfs_checks::names::may_list;
use lfs_types::answer::Served;
use lfs_types::cred::Cred;
use lfs_types::name::Name;
use lfs_types::path::Path;
use lfs_types::payload::Names;
use lfs_types::request::Request;
use lfs_types::store::FileStore;

/// The names in a directory, in byte order.
pub fn list<F: FileStore>(
    store: &mut CachedStore<F>,
    cred: &Cred,
    path: &Path,
) -> Result<Served, CallFault>
    requires { HasWorld (F.state store.old) }
    ensures call { IsCall (F.state store.old) (F.state store.new) cred.now (Request.List path.now)
        result }
    ensures state { F.state store.new ≡ F.state store.old }
{
    let dir = find(store, cred, path)?;
    may_list(&dir.attrs, cred, depth(path))?;
    let names = names_of_directory(store.alloc(), store, dir.number, dir.attrs.size)?;
    Ok(Served::Names(Names::new(sorted(names))?))
}

/// Names in byte order.
fn sorted(mut names: Vec<Name>) -> Vec<Name>
    ensures permutation { IsPermutation names.items result.items }
    ensures order { IsSorted (slice_cmp nat_cmp) result.items }
{
    names.sort_unstable_by(|first, second| first.as_bytes().cmp(second.as_bytes()));
    names
}
