//! The walk along a path.

ghost use Rattle.std.specs.Prelude.{◌≡◌, ◌<◌, ◌≤◌, IsSome, length, true};
ghost use Rattle.std.specs.FinMap.{get};
ghost use Rattle.lfs_types.specs.declared.path.TheConstants.{PATH_MAX};
ghost use Rattle.lfs_types.specs.Kinds.{is_directory_kind};
ghost use Rattle.lfs_types.specs.Tree.{root};
ghost use Rattle.lfs_model.specs.Walks.{stepped, walked};
ghost use Rattle.lfs_calls.specs.Reaches.{EndsAlike, GrantsAlike, Reaches};
ghost use Rattle.lfs_calls.specs.Volumes.{HasWorld, InWorld};

use crate::cached_store::CachedStore;
use crate::directory::look_up;
use lfs_checks::names::may_search;
use lfs_checks::site::Site;
use lfs_types::attrs::Attrs;
use lfs_types::cred::Cred;
use lfs_types::limits::ROOT_INODE;
use lfs_types::mode::ModeBits;
use lfs_types::name::Name;
use lfs_types::path::Path;
use lfs_types::rule::{Denial, Rule};
use lfs_types::store::FileStore;

/// One step of a walk: from the row at a component to a name, or the first rule that fails.
#[inline(always)]
pub(crate) fn step<F: FileStore>(
    store: &mut CachedStore<F>,
    cred: &Cred,
    site: Site,
    dir: u32,
    name: &Name,
) -> Result<u32, Denial>
    requires world { HasWorld (F.state store.old) }
    requires used { IsSome (get (F.state store.old).content dir) }
    requires short { site.at < PATH_MAX }
    ensures step { InWorld (F.state store.old)
        (λ w. result ≡ stepped w.rows cred.now site.path site.at dir name.now) }
    ensures state { F.state store.new ≡ F.state store.old }
{
    let Some(attrs) = store.learn_attrs(dir) else {
        // Never: by `used`.
        unreachable!()
    };
    may_search(&attrs, cred, site)?;
    let below = Site {
        at: site.at + 1,
        ..site
    };
    look_up(store, dir, attrs.size, name).ok_or(below.denial(Rule::NameThere))
}

/// Where a walk from the root along names ends, or the first rule that fails on the way.
pub(crate) fn walk<F: FileStore>(
    store: &mut CachedStore<F>,
    cred: &Cred,
    path: u8,
    names: &[Name],
) -> Result<u32, Denial>
    requires world { HasWorld (F.state store.old) }
    requires short { length names.now ≤ PATH_MAX }
    ensures walk { InWorld (F.state store.old)
        (λ w. result ≡ walked w.rows cred.now path 0 root names.now) }
    ensures state { F.state store.new ≡ F.state store.old }
{
    let mut dir = ROOT_INODE;
    for (at, name) in names.iter().enumerate() {
        let site = Site {
            path,
            at: at as u32,
        };
        dir = step(store, cred, site, dir, name)?;
    }
    Ok(dir)
}

/// Whether this is a directory that grants search alike to every caller of a user, whatever his groups are: it is his, or
/// its mode grants its group what it grants others.
fn grants_alike(dir: &Attrs, uid: u32) -> bool
    ensures directory { result ≡ true → is_directory_kind dir.now.kind ≡ true }
    ensures alike { result ≡ true → GrantsAlike dir.now uid }
{
    if !dir.kind.is_directory() {
        return false;
    }
    if dir.uid == uid {
        return true;
    }
    dir.mode.contains(ModeBits::S_IXGRP) == dir.mode.contains(ModeBits::S_IXOTH)
}

/// Whether a walk from the root along names is sure to end alike for every caller of a user, whatever his groups are: each
/// directory on the way grants search alike. It goes by what is known of names, and reads no directory: of a way that
/// isn't known it isn't sure.
pub fn ends_alike<F: FileStore>(store: &CachedStore<F>, uid: u32, names: &[Name]) -> bool
    ensures { result ≡ true
        → InWorld (F.state store.now) (λ w. EndsAlike w.rows uid names.now) }
{
    let mut dir = ROOT_INODE;
    for (at, name) in names.iter().enumerate() {
        let Some(attrs) = store.attrs(dir) else {
            return false;
        };
        if !grants_alike(&attrs, uid) {
            return false;
        }
        if at + 1 == names.len() {
            return true;
        }
        let Some(Some(next)) = store.known(dir, name) else {
            return false;
        };
        dir = next;
    }
    true
}

/// A file that a path leads to.
#[derive(Clone, Copy)]
pub(crate) struct Reached {
    /// Its number.
    pub(crate) number: u32,
    /// Its attributes.
    pub(crate) attrs: Attrs,
}

/// The file that names lead to from the root, or the first rule that fails on the way.
pub(crate) fn reach<F: FileStore>(
    store: &mut CachedStore<F>,
    cred: &Cred,
    path: u8,
    names: &[Name],
) -> Result<Reached, Denial>
    requires world { HasWorld (F.state store.old) }
    requires short { length names.now ≤ PATH_MAX }
    ensures reach { InWorld (F.state store.old)
        (λ w. Reaches (F.state store.old).content w.rows cred.now path names.now result) }
    ensures state { F.state store.new ≡ F.state store.old }
{
    let number = walk(store, cred, path, names)?;
    match store.learn_attrs(number) {
        Some(attrs) => Ok(Reached { number, attrs }),
        // Never: by `walk`: it is a row of the world.
        None => unreachable!(),
    }
}

/// The file that the only path of a call leads to, or the first rule that fails on the way.
pub(crate) fn find<F: FileStore>(
    store: &mut CachedStore<F>,
    cred: &Cred,
    path: &Path,
) -> Result<Reached, Denial>
    requires world { HasWorld (F.state store.old) }
    ensures reach { InWorld (F.state store.old)
        (λ w. Reaches (F.state store.old).content w.rows cred.now 0 path.now result) }
    ensures state { F.state store.new ≡ F.state store.old }
{
    reach(store, cred, 0, path.names())
}
