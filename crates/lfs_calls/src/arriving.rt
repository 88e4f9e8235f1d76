//! The place to which a row is moved: its directory, and what has the name there.

ghost use Rattle.std.specs.Prelude.{◌≡◌, ◌≤◌, ◌<◌, None, Some, length, IfSome, MatchOption};
ghost use Rattle.lfs_types.specs.declared.path.TheConstants.{PATH_MAX};
ghost use Rattle.lfs_types.specs.Stored.{shown_attrs};
ghost use Rattle.lfs_model.specs.Rules.{Judges, arriving, placing_tests};
ghost use Rattle.lfs_calls.specs.Arrivals.{IsArrival, IsThere};
ghost use Rattle.lfs_calls.specs.Volumes.{HasWorld, InWorld};

use crate::cached_store::CachedStore;
use crate::directory::{is_empty_directory, look_up};
use crate::walking::{Reached, reach};
use lfs_checks::asking::ask;
use lfs_checks::components::component;
use lfs_checks::names::{may_enter, may_remove, may_replace, may_search};
use lfs_checks::site::Site;
use lfs_types::cred::Cred;
use lfs_types::name::Name;
use lfs_types::rule::{Denial, Rule};
use lfs_types::store::FileStore;

/// The directory in which a row is to hang, and the number that has its new name there.
#[derive(Clone, Copy)]
pub(crate) struct Arrival {
    /// The directory.
    pub(crate) dir: Reached,
    /// The number that has the name.
    pub(crate) there: Option<u32>,
}

/// The directory of a row's new path, and what has the name there, or the first rule that fails on the way.
pub(crate) fn judge_arrival<F: FileStore>(
    store: &mut CachedStore<F>,
    cred: &Cred,
    names: &[Name],
) -> Result<Arrival, Denial>
    requires world { HasWorld (F.state store.old) }
    requires short { length names.now ≤ PATH_MAX }
    ensures judge { InWorld (F.state store.old) (λ w. Judges (arriving w.rows cred.now names.now)
        (IsArrival (F.state store.old).content w.rows names.now) result) }
    ensures state { F.state store.new ≡ F.state store.old }
{
    let Some((name, parents)) = names.split_last() else {
        return Err(Site { path: 1, at: 0 }.denial(Rule::IsNotRoot));
    };
    let at = component(parents);
    let dir = reach(store, cred, 1, parents)?;
    may_search(&dir.attrs, cred, Site { path: 1, at })?;
    let there = look_up(store, dir.number, dir.attrs.size, name);
    Ok(Arrival { dir, there })
}

/// What has the new name, and may be replaced by a moved row, or the first rule that fails, of the directory, which
/// stands at component `at`, and of what has the name. Only a directory is searched for names.
pub(crate) fn judge_there<F: FileStore>(
    store: &mut CachedStore<F>,
    cred: &Cred,
    arrival: &Arrival,
    moved: &Reached,
    at: u32,
) -> Result<Option<Reached>, Denial>
    requires world { HasWorld (F.state store.old) }
    requires short { at < PATH_MAX }
    requires dir { Some arrival.now.dir.attrs ≡ shown_attrs (F.state store.old).content
        arrival.now.dir.number }
    requires moved { Some moved.now.attrs
        ≡ shown_attrs (F.state store.old).content moved.now.number }
    requires hangs { IfSome arrival.now.there (λ n. InWorld (F.state store.old) (λ w.
        IsThere w.rows n)) }
    ensures judge { InWorld (F.state store.old) (λ w. Judges
        (placing_tests w.rows cred.now moved.now.number arrival.now.dir.number arrival.now.there at)
        (λ there. MatchOption there (arrival.now.there ≡ None)
        (λ row. (Some row.number ≡ arrival.now.there)
        × (Some row.attrs ≡ shown_attrs (F.state store.old).content row.number))) result) }
    ensures state { F.state store.new ≡ F.state store.old }
{
    let site = Site { path: 1, at };
    let Some(number) = arrival.there else {
        may_enter(&arrival.dir.attrs, cred, site)?;
        return Ok(None);
    };
    let Some(attrs) = store.learn_attrs(number) else {
        // Never: by `hangs`.
        unreachable!()
    };
    may_remove(&arrival.dir.attrs, &attrs, cred, site)?;
    may_replace(&moved.attrs, &attrs, at + 1)?;
    let empty = !attrs.kind.is_directory() || is_empty_directory(store, number, attrs.size);
    let below = Site { at: at + 1, ..site };
    ask(empty, Rule::IsEmpty, below)?;
    Ok(Some(Reached { number, attrs }))
}
