//! The call that gives a row another name.

ghost use Rattle.std.specs.Prelude.{◌≡◌, ◌≤◌, ◌<◌, ◌+◌, ◌/◌, ℕ, [], ◌∷◌, Some, None, true, false, length, Ok, IfErr, IfSome, IsSome, IsSomeAnd, IsTrue, OnOk};
ghost use Rattle.std.specs.FinMap.{get};
ghost use Rattle.lfs_types.specs.declared.path.TheConstants.{PATH_MAX};
ghost use Rattle.lfs_types.specs.declared.block.TheConstants.{BLOCK_SIZE};
ghost use Rattle.lfs_types.specs.Stored.{bytes_of, shown_attrs};
ghost use Rattle.lfs_types.specs.Tree.{Content, World, root};
ghost use Rattle.lfs_types.specs.declared.rule.Rule.TheVariants.{IsNotBeneathItself};
ghost use Rattle.lfs_model.specs.Rules.{Judges, apart_test, arriving, first_failing, judged, moving_tests, position, rule_table, visited};
ghost use Rattle.lfs_calls.specs.Asked.{Asks, IsAsked, OnPlaced};
ghost use Rattle.lfs_dirs.specs.Directory.{IsDirectoryBlock, number_in};
ghost use Rattle.lfs_dirs.specs.Reading.{entries_of};
ghost use Rattle.lfs_calls.specs.Calls.{ChangesTo, IsCall, answered};
ghost use Rattle.lfs_calls.specs.Volumes.{HasWorld, InWorld, IsVolume};
ghost use Rattle.lfs_calls.specs.Names.{MovesName};
ghost use Rattle.lfs_model.specs.Walks.{is_on_way};
ghost use Rattle.lfs_calls.specs.Makes.{IsBlockOf, with_block};
ghost use Rattle.lfs_calls.specs.Renames.{ArePlaces, CanSwap, GoesTo, GoesWith, HasNoRoom, IsMove, IsSwap, IsSwapIn, IsTarget, MovesTo, PlacedAt, PlacesRow, PutsRow, StaysInPlace, WritesBlocks, target_number};
ghost use Rattle.lfs_model.specs.Walks.{walked};
ghost use Rattle.lfs_calls.specs.Arrivals.{IsArrival};
ghost use Rattle.lfs_calls.specs.Removes.{IsRemoval};

use crate::arriving::{Arrival, judge_arrival, judge_there};
use crate::cached_store::{CachedStore, Moving};
use crate::call_fault::CallFault;
use crate::directory::{DirBlock, NewEntry, find_room, keep_room, see_block, take_name};
use crate::removing::{Removal, judge_remove};
use crate::walking::{Reached, step};
use lfs_checks::components::{component, last_name, parents_of};
use lfs_checks::names::may_move;
use lfs_checks::site::Site;
use lfs_dirs::{find, replaced};
use lfs_types::answer::{Resource, Served};
use lfs_types::block::BLOCK_SIZE;
use lfs_types::cred::Cred;
use lfs_types::limits::ROOT_INODE;
use lfs_types::name::{NAME_MAX, Name};
use lfs_types::path::Path;
use lfs_types::request::Request;
use lfs_types::rule::{Denial, Rule};
use lfs_types::store::{Change, FileStore, Reserve, StoreRefusal};

/// What has the new name.
#[derive(Clone, Copy)]
enum Target {
    /// The row that is to get it.
    Itself,
    /// Nothing.
    Free,
    /// A row that is to give way.
    Taken(Reached),
}

/// A row that may get another name, and the directory that is to list it.
#[derive(Clone, Copy)]
struct Move {
    /// The row, and the directory in which it hangs.
    removal: Removal,
    /// The directory of the new name.
    dir: Reached,
    /// What has that name.
    target: Target,
}

/// The blocks that a Rename writes, and the row that gives way.
#[derive(Clone, Copy)]
struct Places {
    /// The block of the old directory, without the old name.
    taken: DirBlock,
    /// The block of the new directory, with the new name.
    room: DirBlock,
    /// The number of the row that has that name, if one does.
    gone: Option<u32>,
}

/// The old name of a row, and its new one.
#[derive(Clone, Copy)]
struct NamePair<'a> {
    /// The old name.
    old: &'a Name,
    /// The new name.
    new: &'a Name,
}

/// The names of the old path of a Rename, and of the new one.
#[derive(Clone, Copy)]
struct PathPair<'a> {
    /// Those of the old path.
    from: &'a [Name],
    /// Those of the new path.
    to: &'a [Name],
}

/// The row that may get another name, or the first rule that fails.
fn judge_rename<F: FileStore>(
    store: &mut CachedStore<F>,
    cred: &Cred,
    from: &[Name],
    to: &[Name],
) -> Result<Move, Denial>
    requires world { HasWorld (F.state store.old) }
    requires short_from { length from.now ≤ PATH_MAX }
    requires short_to { length to.now ≤ PATH_MAX }
    ensures judge { InWorld (F.state store.old) (λ w.
        Judges (rule_table w cred.now (Request.Rename from.now to.now))
        (IsMove (F.state store.old).content w.rows from.now to.now) result) }
    ensures state { F.state store.new ≡ F.state store.old }
{
    let removal = judge_remove(store, cred, from)?;
    let arrival = judge_arrival(store, cred, to)?;
    let paths = PathPair { from, to };
    let target = judge_target(store, cred, paths, &removal, &arrival)?;
    Ok(Move {
        removal,
        dir: arrival.dir,
        target,
    })
}

/// What has the new name, or the first rule that fails of those behind the way to it.
fn judge_target<F: FileStore>(
    store: &mut CachedStore<F>,
    cred: &Cred,
    paths: PathPair<'_>,
    removal: &Removal,
    arrival: &Arrival,
) -> Result<Target, Denial>
    requires world { HasWorld (F.state store.old) }
    requires short_from { length paths.from.now ≤ PATH_MAX }
    requires short_to { length paths.to.now ≤ PATH_MAX }
    requires removal { InWorld (F.state store.old)
        (λ w. IsRemoval (F.state store.old).content w.rows paths.from.now removal.now) }
    requires arrival { InWorld (F.state store.old)
        (λ w. IsArrival (F.state store.old).content w.rows paths.to.now arrival.now) }
    requires arrived { InWorld (F.state store.old)
        (λ w. first_failing (arriving w.rows cred.now paths.to.now) ≡ None) }
    ensures judge { InWorld (F.state store.old) (λ w. Judges
        (moving_tests w.rows cred.now paths.entry.from.now paths.entry.to.now arrival.now.there)
        (λ target. (target_number removal.now.file.number target ≡ arrival.now.there)
        × IsTarget (F.state store.old).content removal.now.file.number target) result) }
    ensures state { F.state store.new ≡ F.state store.old }
{
    let PathPair { from, to } = paths;
    if arrival.there == Some(removal.file.number) {
        return Ok(Target::Itself);
    }
    let at = component(parents_of(to));
    let there = judge_there(store, cred, arrival, &removal.file, at)?;
    judge_apart(store, cred, to, &removal.file)?;
    let stays = removal.dir.number == arrival.dir.number;
    may_move(&removal.file.attrs, cred, stays, component(from))?;
    Ok(match there {
        None => Target::Free,
        Some(row) => Target::Taken(row),
    })
}

/// Whether a row doesn't lie on the way to its new place, or the rule that fails.
fn judge_apart<F: FileStore>(
    store: &mut CachedStore<F>,
    cred: &Cred,
    to: &[Name],
    file: &Reached,
) -> Result<(), Denial>
    requires world { HasWorld (F.state store.old) }
    requires short { length to.now ≤ PATH_MAX }
    requires some { 0 < length to.now }
    requires shown { Some file.now.attrs ≡ shown_attrs (F.state store.old).content file.now.number }
    requires made { InWorld (F.state store.old)
        (λ w. first_failing (arriving w.rows cred.now to.now) ≡ None) }
    ensures apart { InWorld (F.state store.old)
        (λ w. result ≡ judged (apart_test w.rows file.now.number to.now ∷ [])) }
    ensures state { F.state store.new ≡ F.state store.old }
{
    if !file.attrs.kind.is_directory() {
        return Ok(());
    }
    judge_way(store, cred, parents_of(to), file.number)
}

/// Whether a directory isn't among those through which names lead from the root, or else the rule that fails.
fn judge_way<F: FileStore>(
    store: &mut CachedStore<F>,
    cred: &Cred,
    names: &[Name],
    number: u32,
) -> Result<(), Denial>
    requires world { HasWorld (F.state store.old) }
    requires short { length names.now ≤ PATH_MAX }
    requires leads { InWorld (F.state store.old)
        (λ w. (n : ℕ) × (walked w.rows cred.now 1 0 root names.now ≡ Ok n)) }
    ensures apart { OnOk result (InWorld (F.state store.old)
        (λ w. is_on_way w.rows names.now number ≡ false)) }
    ensures beneath { IfErr result (λ denial. InWorld (F.state store.old) (λ w.
        (is_on_way w.rows names.now number ≡ true)
        × (denial ≡ record {
          rule = IsNotBeneathItself;
          path = 1;
          at = position number (visited w.rows root names.now);
        }))) }
    ensures state { F.state store.new ≡ F.state store.old }
{
    let mut dir = ROOT_INODE;
    for (at, name) in names.iter().enumerate() {
        let site = Site {
            path: 1,
            at: at as u32,
        };
        if dir == number {
            return Err(site.denial(Rule::IsNotBeneathItself));
        }
        dir = step(store, cred, site, dir, name)?;
    }
    if dir == number {
        let site = Site {
            path: 1,
            at: component(names),
        };
        return Err(site.denial(Rule::IsNotBeneathItself));
    }
    Ok(())
}

/// Fills the blocks that list a row under its new name and no more under the old one, and says whether there are such
/// ones: none where the new name fits in no block of its directory. Where the row `places.gone` has that name, it gives
/// way.
fn find_places<F: FileStore>(
    store: &mut CachedStore<F>,
    planned: &Move,
    names: NamePair<'_>,
    places: &mut Places,
) -> bool
    requires goes { (w : World) × (IsVolume (F.state store.old) w
        × GoesTo (F.state store.old).content w.rows planned.now names.old.now names.new.now
        places.old.gone) }
    ensures places { IsTrue result → ArePlaces (F.state store.old).content planned.now
        names.entry.old.now names.entry.new.now places.old.gone places.new }
    ensures full { result ≡ false → HasNoRoom (F.state store.old).content planned.now
        names.entry.old.now names.entry.new.now places.old.gone }
    ensures state { F.state store.new ≡ F.state store.old }
{
    let Removal { dir, file } = planned.removal;
    take_name(
        store,
        dir.number,
        dir.attrs.size,
        names.old,
        &mut places.taken,
    );
    let seen = (dir.number == planned.dir.number).then_some(&places.taken);
    let listed = NewEntry {
        name: names.new,
        number: file.number,
    };
    match places.gone {
        None => find_room(store, &planned.dir, seen, listed, &mut places.room),
        Some(_) => {
            swap_number(store, &planned.dir, seen, listed, &mut places.room);
            true
        }
    }
}

/// Writes two blocks of directories, one after the other, and removes the file that gives way, if there is one; where
/// both blocks stand at one place, the second alone is written.
fn put_blocks<F: FileStore>(
    store: &mut CachedStore<F>,
    by: Reserve,
    places: &Places,
    moving: &Moving<'_>,
) -> Result<(), StoreRefusal>
    requires old { IsBlockOf (F.state store.old).content moving.now.old_dir places.now.taken }
    requires old_within { places.now.taken.off + BLOCK_SIZE ≤ length
        (bytes_of (F.state store.old).content moving.now.old_dir) }
    requires new { IsBlockOf (F.state store.old).content moving.now.new_dir places.now.room }
    requires used { IfSome places.now.gone
        (λ gone. IsSome (get (F.state store.old).content gone)) }
    requires moves { (after : Content) → WritesBlocks (F.state store.old).content after
        moving.now.old_dir places.now.taken moving.now.new_dir places.now.room places.now.gone
        → MovesName (F.state store.old).content after moving.now.old_dir moving.now.old.now
        moving.now.new_dir moving.now.new.now moving.now.number
        (places.now.room.off / BLOCK_SIZE) }
    ensures changes { ChangesTo (F.state store.old)
        (λ after. WritesBlocks (F.state store.old).content after moving.now.old_dir
        places.now.taken moving.now.new_dir places.now.room places.now.gone)
        result (F.state store.new) }
    ensures asked { Asks F.state F.made store.old by
        (λ after. WritesBlocks (F.state store.old).content after moving.now.old_dir
        places.now.taken moving.now.new_dir places.now.room places.now.gone)
        result store.new }
{
    let (taken, room, gone) = (&places.taken, &places.room, places.gone);
    let (old_dir, dir) = (moving.old_dir, moving.new_dir);
    let put = Change::Put {
        ino: dir,
        off: room.off,
        bytes: &room.block,
    };
    let k = room.off / BLOCK_SIZE as u64;
    if old_dir == dir && taken.off == room.off {
        match gone {
            None => store.apply_moving(&[put], by, moving, k),
            Some(ino) => store.apply_moving(&[put, Change::Remove { ino }], by, moving, k),
        }
    } else {
        let take = Change::Put {
            ino: old_dir,
            off: taken.off,
            bytes: &taken.block,
        };
        match gone {
            None => store.apply_moving(&[take, put], by, moving, k),
            Some(ino) => store.apply_moving(&[take, put, Change::Remove { ino }], by, moving, k),
        }
    }
}

/// Makes `room` the block of a directory that lists a name, with another number for it. The block `taken`, if there is
/// one, is read in place of the stored one, and first. Stored blocks in which the name is known not to stand are passed
/// over.
fn swap_number<F: FileStore>(
    store: &mut CachedStore<F>,
    dir: &Reached,
    taken: Option<&DirBlock>,
    listed: NewEntry<'_>,
    room: &mut DirBlock,
)
    requires { CanSwap (F.state store.old).content dir.now.number dir.now.attrs.size taken
        listed.name.now listed.number }
    ensures room { (k : ℕ) × IsSwap
        (with_block (bytes_of (F.state store.old).content dir.now.number) taken.entry)
        listed.entry.name.now listed.entry.number room.new k }
    ensures state { F.state store.new ≡ F.state store.old }
{
    let NewEntry { name, number } = listed;
    if swap_taken(taken, name, number, room) {
        return;
    }
    let size = dir.attrs.size;
    let block_size = BLOCK_SIZE as u64;
    let mut k = store.next_block(dir.number, name, 0);
    while k < size / block_size {
        room.off = block_size * k;
        see_block(store, dir.number, room.off, taken, &mut room.block);
        if find(&room.block, name).is_some() {
            room.block = replaced(&room.block, name, number);
            return;
        }
        k = store.next_block(dir.number, name, k + 1);
    }
    // Never: by `CanSwap`.
    unreachable!()
}

/// Makes `room` the block that is read in place of a stored one, with another number for a name, and says whether it
/// lists the name.
fn swap_taken(taken: Option<&DirBlock>, name: &Name, number: u32, room: &mut DirBlock) -> bool
    requires above { 0 < number }
    requires block { IfSome taken
        (λ seen. IsDirectoryBlock seen.now.block (entries_of seen.now.block)) }
    ensures room { IsTrue result → IsSomeAnd taken.entry
        (λ seen. IsSwapIn seen.now name.now number room.new) }
    ensures absent { result ≡ false → IfSome taken.entry
        (λ seen. number_in name.now (entries_of seen.now.block) ≡ None) }
{
    match taken {
        Some(seen) if find(&seen.block, name).is_some() => {
            room.off = seen.off;
            room.block = replaced(&seen.block, name, number);
            true
        }
        _ => false,
    }
}

/// Gives a file or a directory another name, in the same directory or in another. A file that has the name gives way to
/// a file, an empty directory to a directory.
pub fn rename<F: FileStore>(
    store: &mut CachedStore<F>,
    cred: &Cred,
    from: &Path,
    to: &Path,
) -> Result<Served, CallFault>
    requires { HasWorld (F.state store.old) }
    ensures call { IsCall (F.state store.old) (F.state store.new) cred.now
        (Request.Rename from.now to.now)
        result }
    ensures stays { InWorld (F.state store.old) (λ w.
        StaysInPlace (F.state store.old) (F.state store.new) w cred.now from.now to.now result) }
    ensures asked { IsAsked F.state F.made store.old cred.now
        (Request.Rename from.now to.now) (answered result) store.new }
{
    let (from, to) = (from.names(), to.names());
    let planned = judge_rename(store, cred, from, to)?;
    let old = last_name(from);
    let new = last_name(to);
    prove!(new.as_bytes().len() <= NAME_MAX);
    place_row(store, Reserve::of(cred), &planned, NamePair { old, new })?;
    Ok(Served::Done)
}

/// Puts a row in its new place, unless it has it already.
fn place_row<F: FileStore>(
    store: &mut CachedStore<F>,
    by: Reserve,
    planned: &Move,
    names: NamePair<'_>,
) -> Result<(), CallFault>
    requires goes { (w : World) × (IsVolume (F.state store.old) w
        × GoesWith (F.state store.old).content w.rows planned.now names.old.now names.new.now
        planned.now.target) }
    ensures places { PlacesRow (F.state store.old) planned.now names.entry.old.now
        names.entry.new.now planned.now.target result (F.state store.new) }
    ensures asked { OnPlaced result (λ said. Asks F.state F.made store.old by
        (PlacedAt (F.state store.old).content planned.now names.entry.old.now
        names.entry.new.now planned.now.target)
        said store.new) }
{
    match planned.target {
        Target::Itself => Ok(()),
        Target::Free => move_row(store, by, planned, None, names),
        Target::Taken(there) => move_row(store, by, planned, Some(there.number), names),
    }
}

/// Puts a row in a place that is free, or in that of the row `gone`, which is removed.
fn move_row<F: FileStore>(
    store: &mut CachedStore<F>,
    by: Reserve,
    planned: &Move,
    gone: Option<u32>,
    names: NamePair<'_>,
) -> Result<(), CallFault>
    requires goes { (w : World) × (IsVolume (F.state store.old) w
        × GoesTo (F.state store.old).content w.rows planned.now names.old.now names.new.now gone) }
    ensures puts { PutsRow (F.state store.old) planned.now names.entry.old.now names.entry.new.now
        gone result (F.state store.new) }
    ensures asked { OnPlaced result (λ said. Asks F.state F.made store.old by
        (λ after. MovesTo (F.state store.old).content after planned.now names.entry.old.now
        names.entry.new.now gone)
        said store.new) }
{
    let mut places = Places {
        taken: DirBlock::empty(),
        room: DirBlock::empty(),
        gone,
    };
    if !find_places(store, planned, names, &mut places) {
        return Err(CallFault::Refused(Resource::DirectoryFull));
    }
    let moving = Moving {
        old_dir: planned.removal.dir.number,
        old: names.old,
        new_dir: planned.dir.number,
        new: names.new,
        number: planned.removal.file.number,
    };
    put_blocks(store, by, &places, &moving)?;
    if gone.is_none() {
        keep_room(store, moving.new_dir, &places.room, names.new);
    }
    Ok(())
}
