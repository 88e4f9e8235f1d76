//! A store with a cache of the names that its directories list, one of the attributes that its files show, hints of
//! where its directories have room, and a table of where the names of large ones stand.

ghost use Rattle.std.specs.Prelude.{◌≡◌, ◌≤◌, ◌<◌, ℕ, [], None, length, IsSome, IfOk, IfSome, OnOk};
ghost use Rattle.std.specs.FinMap.{get};
ghost use Rattle.lfs_types.specs.Changes.{CanApply, applied};
ghost use Rattle.lfs_types.specs.StoreStates.{Applies};
ghost use Rattle.lfs_types.specs.Tree.{Content};
ghost use Rattle.lfs_types.specs.Stored.{shown_attrs, bytes_of, slice_of, Reads, IsLeastFree};
ghost use Rattle.lfs_known.specs.Shown.{AreShown};
ghost use Rattle.lfs_known.specs.Full.{AreFull, IsFullBefore};
ghost use Rattle.lfs_known.specs.Spots.{ArePlaced, ArePlacedIn, StandsBesides};
ghost use Rattle.lfs_model.specs.World.{child};
ghost use Rattle.lfs_dirs.specs.Directory.{number_in};
ghost use Rattle.lfs_dirs.specs.Reading.{entries_of};
ghost use Rattle.lfs_calls.specs.Content.{IsDirectoryAt, all_entries, block_at};
ghost use Rattle.lfs_calls.specs.Names.{FindsNew, IsFound, KeepsNames, MovesName};
ghost use Rattle.lfs_calls.specs.Volumes.{InWorld};

use lfs_known::{
    AttrCache, DirHints, Hint, NameCache, NameTable, follow_attributes, follow_hints, follow_name,
    follow_names,
};
use lfs_types::attrs::Attrs;
use lfs_types::name::Name;
use lfs_types::store::{Change, FileStore, Reserve, StoreRefusal};
use std::alloc::{AllocError, Global};
use std::marker::Model;

/// A store, caches of names and of attributes, hints of directories, and a table of where names stand, if there was
/// memory for one. Contracts see the store alone. The type keeps that what is said of a name of a directory is what the
/// directory lists, and so, in each world that the store shows, the row that hangs there; that what is said of a number
/// is what the store shows; that a directory has no room before the block of its hint; and that in a directory that the
/// table knows names stand only where it says that they may.
#[derive(Drop)]
pub struct CachedStore<F: FileStore> {
    pub(crate) store: F,
    names: NameCache,
    known: Known,
    alloc: Global,
}

/// What is known of a store besides what its directories list under a name.
#[derive(Drop)]
struct Known {
    /// The attributes that its files show.
    attributes: AttrCache,
    /// Where its directories have room.
    hints: DirHints,
    /// Where the names of large directories may stand.
    table: Option<NameTable>,
}

/// What is found under a name of a directory from now on.
#[derive(Clone, Copy)]
pub(crate) struct Naming<'a> {
    /// The directory.
    pub(crate) dir: u32,
    /// The name.
    pub(crate) name: &'a Name,
    /// The number that it leads to, if it leads to one.
    pub(crate) found: Option<u32>,
    /// The index of the directory's block in which the name may stand.
    pub(crate) block: u64,
}

/// A name that a directory lists no more, and the one under which the same directory or another lists its number.
#[derive(Clone, Copy)]
pub(crate) struct Moving<'a> {
    /// The directory that listed the number.
    pub(crate) old_dir: u32,
    /// The name that is gone.
    pub(crate) old: &'a Name,
    /// The directory that lists the number.
    pub(crate) new_dir: u32,
    /// Its name there.
    pub(crate) new: &'a Name,
    /// The number.
    pub(crate) number: u32,
}

impl<F: FileStore> Model for CachedStore<F> {
    ghost use Rattle.lfs_calls.specs.Names.{IsTrueOf};

    ghost Value = { F };

    ghost view = { λ t. t.store };

    ghost invariant = { λ t. IsTrueOf t.names t.known.attributes t.known.hints t.known.table
        (F.state t.store).content };
}

impl<F: FileStore + Drop> CachedStore<F> {
    /// A store of which nothing is known yet. The room for what will be is taken here.
    pub fn new(alloc: Global, store: F) -> Result<CachedStore<F>, AllocError>
        ensures { IfOk result (λ tree. tree ≡ store) }
    {
        let names = NameCache::new(alloc)?;
        let attributes = AttrCache::new(alloc)?;
        let hints = DirHints::new(alloc)?;
        let known = Known {
            attributes,
            hints,
            table: None,
        };
        Ok(CachedStore {
            store,
            names,
            known,
            alloc,
        })
    }
}

impl<F: FileStore> CachedStore<F> {
    /// The attributes of a number, if it is in use.
    pub fn attrs(&self, ino: u32) -> Option<Attrs>
        ensures { result ≡ shown_attrs (F.state self.now).content ino }
    {
        match self.known.attributes.look(ino) {
            Some(attrs) => Some(attrs),
            None => self.store.attrs(ino),
        }
    }

    /// The attributes of a number, if it is in use, which are known from now on.
    #[inline(always)]
    pub(crate) fn learn_attrs(&mut self, ino: u32) -> Option<Attrs>
        ensures attrs { result ≡ shown_attrs (F.state self.old).content ino }
        ensures same { self.new ≡ self.old }
    {
        if let Some(attrs) = self.known.attributes.look(ino) {
            return Some(attrs);
        }
        self.read_attrs(ino)
    }

    /// The attributes of a number as the store shows them, if it is in use, which are known from now on. It stands
    /// apart, so that a walk along known numbers is short.
    #[inline(never)]
    fn read_attrs(&mut self, ino: u32) -> Option<Attrs>
        ensures attrs { result ≡ shown_attrs (F.state self.old).content ino }
        ensures same { self.new ≡ self.old }
    {
        let attrs = &self.store.attrs(ino)?;
        self.known.attributes.enter(ino, *attrs);
        Some(*attrs)
    }

    /// Reads a file's bytes from `off` on, as many as there are and the buffer takes, and says how many.
    pub(crate) fn read(&mut self, ino: u32, off: u64, into: &mut [u8]) -> usize
        requires { IsSome (get (F.state self.old).content ino) }
        ensures reads { Reads
            (slice_of (bytes_of (F.state self.old).content ino) off (length into.old))
            result into.old into.new }
        ensures state { F.state self.new ≡ F.state self.old }
    {
        self.store.read(ino, off, into)
    }

    /// The least free number from 4 up, if there is one below the number of inode numbers.
    pub(crate) fn least_free(&self) -> Option<u32>
        ensures { IsLeastFree (F.state self.now).shape.numbers (F.state self.now).content result }
    {
        self.store.least_free()
    }

    /// Where what is told of the store takes memory.
    pub(crate) fn alloc(&self) -> Global {
        self.alloc
    }

    /// The store, to be read.
    pub fn store(&self) -> &F
        ensures { result.now ≡ self.now }
    {
        &self.store
    }

    /// How many segments are clean.
    pub fn clean_segments(&self) -> u32
        ensures { result ≡ (F.state self.now).clean }
    {
        self.store.clean_segments()
    }

    /// Writes what waits to be written. The content stays.
    pub(crate) fn sync(&mut self) -> Result<(), StoreRefusal>
        ensures applies { Applies (F.state self.old) [] result (F.state self.new) }
        ensures flushed { OnOk result (F.is_flushed self.new) }
    {
        self.store.sync()
    }

    /// What a directory lists under a name, if it is known.
    #[inline(always)]
    pub(crate) fn known(&self, dir: u32, name: &Name) -> Option<Option<u32>>
        requires { IsDirectoryAt (F.state self.now).content dir }
        ensures found { IfSome result (λ found. found
            ≡ number_in name.now (all_entries (bytes_of (F.state self.now).content dir))) }
        ensures hangs { IfSome result (λ found. InWorld (F.state self.now)
            (λ w. child w.rows dir name.now ≡ found)) }
    {
        self.names.look(dir, name)
    }

    /// Keeps in mind what a directory lists under a name.
    pub(crate) fn enter(&mut self, dir: u32, name: &Name, found: Option<u32>)
        requires { IsFound (F.state self.old).content dir name.now found }
        ensures { self.new ≡ self.old }
    {
        self.names.enter(dir, name, found);
    }

    /// Before which block a directory has no room for names of a length, if that is known.
    pub(crate) fn hint(&self, dir: u32) -> Option<Hint>
        ensures { IfSome result (IsFullBefore (bytes_of (F.state self.now).content dir)) }
    {
        self.known.hints.look(dir)
    }

    /// Keeps in mind before which block a directory has no room.
    pub(crate) fn enter_hint(&mut self, dir: u32, hint: Hint)
        requires { IsFullBefore (bytes_of (F.state self.old).content dir) hint }
        ensures { self.new ≡ self.old }
    {
        self.known.hints.enter(dir, hint);
    }

    /// The first block from `from` on in which a directory may list a name; `from` itself where nothing is known of it.
    pub(crate) fn next_block(&self, dir: u32, name: &Name, from: u64) -> u64
        ensures from { from ≤ result }
        ensures absent { (k : ℕ) → from ≤ k → k < result → number_in name.now
            (entries_of (block_at (bytes_of (F.state self.now).content dir) k)) ≡ None }
    {
        match &self.known.table {
            Some(table) => table.next_block(dir, name, from),
            None => from,
        }
    }

    /// The table to which the names of a directory are to be added, unless it knows the directory, or there is no
    /// memory for one. It is the store's no more.
    pub(crate) fn take_table(&mut self, dir: u32) -> Option<NameTable>
        ensures placed { IfSome result (λ table. ArePlaced table (F.state self.old).content) }
        ensures same { self.new ≡ self.old }
    {
        match self.known.table.take() {
            Some(table) if table.knows(dir) => {
                self.known.table = Some(table);
                None
            }
            Some(table) => Some(table),
            None => NameTable::new(self.alloc).ok(),
        }
    }

    /// Keeps a table of where names stand.
    pub(crate) fn keep_table(&mut self, table: NameTable)
        requires { ArePlaced table (F.state self.old).content }
        ensures { self.new ≡ self.old }
    {
        self.known.table = Some(table);
    }

    /// Makes all the changes, in order, or none of them. They leave each name that a directory lists.
    pub(crate) fn apply(&mut self, changes: &[Change<'_>], by: Reserve) -> Result<(), StoreRefusal>
        requires can { CanApply (F.state self.old).shape.numbers changes.now
            (F.state self.old).content }
        requires keeps { KeepsNames (F.state self.old).content
            (applied changes.now (F.state self.old).content) }
        ensures applies { Applies (F.state self.old) changes.now result (F.state self.new) }
        ensures made { F.made self.old changes.now by result self.new }
    {
        apply_followed(&mut self.store, &mut self.known, changes, by, None)
    }

    /// Makes changes as `apply` does, after which something else is found under a name of a directory.
    pub(crate) fn apply_naming(
        &mut self,
        changes: &[Change<'_>],
        by: Reserve,
        naming: Naming<'_>,
    ) -> Result<(), StoreRefusal>
        requires can { CanApply (F.state self.old).shape.numbers changes.now
            (F.state self.old).content }
        requires finds { FindsNew (F.state self.old).content
            (applied changes.now (F.state self.old).content)
            naming.dir naming.name.now naming.found naming.block }
        ensures applies { Applies (F.state self.old) changes.now result (F.state self.new) }
        ensures made { F.made self.old changes.now by result self.new }
    {
        let Naming {
            dir,
            name,
            found,
            block,
        } = naming;
        let spot = Some((dir, name, block));
        apply_followed(&mut self.store, &mut self.known, changes, by, spot)?;
        self.names.enter(dir, name, found);
        Ok(())
    }

    /// Makes changes as `apply` does, after which a directory lists a name no more, and the same or another lists its
    /// number under a name, which may stand in its block `k` then.
    pub(crate) fn apply_moving(
        &mut self,
        changes: &[Change<'_>],
        by: Reserve,
        moving: &Moving<'_>,
        k: u64,
    ) -> Result<(), StoreRefusal>
        requires can { CanApply (F.state self.old).shape.numbers changes.now
            (F.state self.old).content }
        requires moves { MovesName (F.state self.old).content
            (applied changes.now (F.state self.old).content)
            moving.now.old_dir moving.now.old.now moving.now.new_dir moving.now.new.now
            moving.now.number k }
        ensures applies { Applies (F.state self.old) changes.now result (F.state self.new) }
        ensures made { F.made self.old changes.now by result self.new }
    {
        let spot = Some((moving.new_dir, moving.new, k));
        apply_followed(&mut self.store, &mut self.known, changes, by, spot)?;
        self.names.enter(moving.old_dir, moving.old, None);
        self.names
            .enter(moving.new_dir, moving.new, Some(moving.number));
        Ok(())
    }
}

/// Makes changes as a store does, and follows them where they were made: what was known of attributes, of room and of
/// names is so still. Where `named` is a directory, a name and the index of a block, no other name stands then where it
/// didn't.
fn apply_followed<F: FileStore>(
    store: &mut F,
    known: &mut Known,
    changes: &[Change<'_>],
    by: Reserve,
    named: Option<(u32, &Name, u64)>,
) -> Result<(), StoreRefusal>
    requires { CanApply (F.state store.old).shape.numbers changes.now
        (F.state store.old).content }
    ensures applies { Applies (F.state store.old) changes.now result (F.state store.new) }
    ensures made { F.made store.old changes.now by result store.new }
    ensures shown { AreShown known.old.attributes (F.state store.old).content
        → AreShown known.new.attributes (F.state store.new).content }
    ensures full { AreFull known.old.hints (F.state store.old).content
        → AreFull known.new.hints (F.state store.new).content }
    ensures placed { ArePlacedIn known.old.table (F.state store.old).content
        → IfSome named.entry (λ it. StandsBesides (F.state store.old).content
        (applied changes.now (F.state store.old).content) it.0 it.1.now it.2)
        → ArePlacedIn known.new.table (F.state store.new).content }
{
    store.apply(changes, by)?;
    follow_attributes(&mut known.attributes, changes);
    follow_hints(&mut known.hints, changes);
    follow_table(&mut known.table, changes, named);
    Ok(())
}

/// Follows changes in a table of names, if there is one. Where `named` is a directory, a name and the index of a block,
/// no other name stands then where it didn't.
fn follow_table(
    table: &mut Option<NameTable>,
    changes: &[Change<'_>],
    named: Option<(u32, &Name, u64)>,
)
    ensures { (c : Content) → ArePlacedIn table.old c
        → IfSome named.entry (λ it. StandsBesides c (applied changes.now c) it.0 it.1.now it.2)
        → ArePlacedIn table.new (applied changes.now c) }
{
    match named {
        Some((dir, name, k)) => follow_name(table, changes, dir, name, k),
        None => follow_names(table, changes),
    }
}
