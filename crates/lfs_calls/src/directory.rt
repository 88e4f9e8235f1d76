//! Directories in a store, block by block: a name is looked up, names are listed, room is found, a name is taken out.

ghost use Rattle.std.specs.Prelude.{◌≡◌, ◌+◌, ◌≤◌, IsSome, IsSomeAnd, length, take, drop, ℕ, [], ◌∷◌, ◌%◌, ◌<◌, IfSome, Some, None, is_none, MatchOption, ◌↔◌, ◌/◌, IsTrue, false, ◌++◌, IfOk, map, replicate};
ghost use Rattle.std.specs.FinMap.{get};
ghost use Rattle.lfs_types.specs.declared.block.TheConstants.{BLOCK_SIZE};
ghost use Rattle.lfs_types.specs.Stored.{bytes_of};
ghost use Rattle.lfs_types.specs.declared.limits.TheConstants.{FILE_BYTES};
ghost use Rattle.lfs_types.specs.Naming.{name_fault};
ghost use Rattle.lfs_dirs.specs.Directory.{number_in, IsDirectoryBlock, used_of};
ghost use Rattle.lfs_dirs.specs.Reading.{entries_of};
ghost use Rattle.lfs_known.specs.Full.{IsFullBefore};
ghost use Rattle.lfs_calls.specs.Content.{HasBlocks, IsDirectoryAt, all_entries, FitsNowhere, AreBlocks, block_at};
ghost use Rattle.lfs_calls.specs.DirBlocks.{IsNext, IsNextOf, PassesOver};
ghost use Rattle.lfs_calls.specs.Makes.{CanEnter, IsRoom, IsRoomIn, StandsIn, with_block};
ghost use Rattle.lfs_calls.specs.Removes.{IsTaking, ListsName};

use crate::cached_store::CachedStore;
use crate::walking::Reached;
use lfs_dirs::{add, entries, remove, removed};
use lfs_known::Hint;
use lfs_types::block::{BLOCK_SIZE, Block};
use lfs_types::limits::FILE_BYTES;
use lfs_types::name::{BadName, NAME_MAX, Name};
use lfs_types::store::FileStore;
use std::alloc::{AllocError, Global};

/// How many bytes a directory has at least whose names are entered into a table when one is searched for.
const LARGE_DIRECTORY: u64 = 16 * BLOCK_SIZE as u64;

/// A block of a directory, as it is stored or with an entry more or less, and where it begins.
#[derive(Clone, Copy)]
pub(crate) struct DirBlock {
    /// Where the block begins in the directory's bytes.
    pub(crate) off: u64,
    /// The block.
    pub(crate) block: Block,
}

impl DirBlock {
    /// A block to be read into.
    pub(crate) fn empty() -> DirBlock
        ensures { result ≡ record { off = 0; block = replicate BLOCK_SIZE 0 } }
    {
        DirBlock {
            off: 0,
            block: [0; BLOCK_SIZE],
        }
    }

    /// Which of the directory's blocks it is, counted from 0.
    fn index(&self) -> u64
        ensures { result ≡ self.now.off / BLOCK_SIZE }
    {
        self.off / BLOCK_SIZE as u64
    }
}

/// The blocks of a directory, one after the other, each read when it is asked for.
#[derive(Drop)]
struct DirBlocks {
    /// The directory.
    dir: u32,
    /// How many bytes it has.
    size: u64,
    /// The index of the block that comes next.
    next: u64,
}

impl DirBlocks {
    /// The blocks of a directory of this size.
    fn new(dir: u32, size: u64) -> DirBlocks
        ensures { result ≡ record { dir = dir; size = size; next = 0 } }
    {
        DirBlocks { dir, size, next: 0 }
    }

    /// The next block, if one is left.
    fn next<F: FileStore>(&mut self, store: &mut CachedStore<F>) -> Option<DirBlock>
        requires { HasBlocks (F.state store.old).content self.old.dir self.old.size }
        ensures next { MatchOption result
            ((self.old.size / BLOCK_SIZE ≤ self.old.next) × (self.new ≡ self.old))
            (λ stored. IsNext (bytes_of (F.state store.old).content self.old.dir)
            self.old stored self.new) }
        ensures state { F.state store.new ≡ F.state store.old }
    {
        let block_size = BLOCK_SIZE as u64;
        if self.next >= self.size / block_size {
            return None;
        }
        let off = block_size * self.next;
        self.next += 1;
        let mut block = [0; BLOCK_SIZE];
        read_into(store, self.dir, off, &mut block);
        Some(DirBlock { off, block })
    }

    /// The next block in which the directory may list a name, if one is left. Those before it aren't read.
    fn next_of<F: FileStore>(&mut self, store: &mut CachedStore<F>, name: &Name) -> Option<DirBlock>
        requires { HasBlocks (F.state store.old).content self.old.dir self.old.size }
        ensures next { MatchOption result
            (PassesOver name.now (bytes_of (F.state store.old).content self.old.dir)
            self.old.next (self.old.size / BLOCK_SIZE))
            (λ stored. (k : ℕ)
            × IsNextOf name.now (bytes_of (F.state store.old).content self.old.dir)
            self.old k stored self.new) }
        ensures state { F.state store.new ≡ F.state store.old }
    {
        self.next = store.next_block(self.dir, name, self.next);
        self.next(store)
    }
}

/// An entry that a directory is to list.
#[derive(Clone, Copy)]
pub(crate) struct NewEntry<'a> {
    /// Its name.
    pub(crate) name: &'a Name,
    /// The number that the name leads to.
    pub(crate) number: u32,
}

/// Reads the block of a file that begins at byte `off`.
fn read_into<F: FileStore>(store: &mut CachedStore<F>, ino: u32, off: u64, block: &mut Block)
    requires used { IsSome (get (F.state store.old).content ino) }
    requires whole { off + BLOCK_SIZE ≤ length (bytes_of (F.state store.old).content ino) }
    ensures block { block.new
        ≡ take BLOCK_SIZE (drop off (bytes_of (F.state store.old).content ino)) }
    ensures state { F.state store.new ≡ F.state store.old }
{
    store.read(ino, off, block);
}

/// The number that a directory of this size lists under a name: what is known of it, else what its blocks have.
#[inline(always)]
pub fn look_up<F: FileStore>(
    store: &mut CachedStore<F>,
    dir: u32,
    size: u64,
    name: &Name,
) -> Option<u32>
    requires stored { HasBlocks (F.state store.old).content dir size }
    requires directory { IsDirectoryAt (F.state store.old).content dir }
    ensures found { result ≡ number_in name.now (all_entries
        (bytes_of (F.state store.old).content dir)) }
    ensures state { F.state store.new ≡ F.state store.old }
{
    if let Some(found) = store.known(dir, name) {
        return found;
    }
    let found = search(store, dir, size, name);
    store.enter(dir, name, found);
    found
}

/// The number that a directory of this size lists under a name, by its blocks. It stands apart, so that a walk along
/// known names is short.
#[inline(never)]
fn search<F: FileStore>(store: &mut CachedStore<F>, dir: u32, size: u64, name: &Name) -> Option<u32>
    requires { HasBlocks (F.state store.old).content dir size }
    ensures found { result ≡ number_in name.now (all_entries
        (bytes_of (F.state store.old).content dir)) }
    ensures state { F.state store.new ≡ F.state store.old }
{
    learn_names(store, dir, size);
    let mut blocks = DirBlocks::new(dir, size);
    while let Some(stored) = blocks.next_of(store, name) {
        if let Some(number) = lfs_dirs::find(&stored.block, name) {
            return Some(number);
        }
    }
    None
}

/// Enters the names of all blocks of a large directory into the store's table, unless it knows the directory, or there
/// is no memory for a table.
fn learn_names<F: FileStore>(store: &mut CachedStore<F>, dir: u32, size: u64)
    requires { HasBlocks (F.state store.old).content dir size }
    ensures { F.state store.new ≡ F.state store.old }
{
    if size < LARGE_DIRECTORY {
        return;
    }
    let Some(mut table) = store.take_table(dir) else {
        return;
    };
    let mut blocks = DirBlocks::new(dir, size);
    while let Some(stored) = blocks.next(store) {
        table.enter_block(dir, stored.index(), &stored.block);
    }
    table.know(dir, size / BLOCK_SIZE as u64);
    store.keep_table(table);
}

/// The names that a directory of this size lists, as they stand in its blocks; an error where a growth was refused.
pub(crate) fn names_of_directory<F: FileStore>(
    alloc: Global,
    store: &mut CachedStore<F>,
    dir: u32,
    size: u64,
) -> Result<Vec<Name>, AllocError>
    requires stored { HasBlocks (F.state store.old).content dir size }
    requires blocks { AreBlocks (bytes_of (F.state store.old).content dir) }
    ensures names { IfOk result (λ names. names.items
        ≡ map (λ e. e.1) (all_entries (bytes_of (F.state store.old).content dir))) }
    ensures state { F.state store.new ≡ F.state store.old }
{
    let mut names = Vec::new(alloc);
    let mut blocks = DirBlocks::new(dir, size);
    while let Some(stored) = blocks.next(store) {
        push_names(alloc, &mut names, &stored.block)?;
    }
    Ok(names)
}

/// Puts the names of a block's entries behind others; an error where a growth was refused.
fn push_names(alloc: Global, names: &mut Vec<Name>, block: &Block) -> Result<(), AllocError>
    requires block { IsDirectoryBlock block.now (entries_of block.now) }
    ensures { IfOk result (λ _. names.new.items
        ≡ names.old.items ++ map (λ e. e.1) (entries_of block.now)) }
{
    for (_, bytes) in entries(block) {
        let name = match Name::parse(alloc, bytes) {
            Ok(name) => name,
            Err(BadName::Memory) => return Err(AllocError),
            // Never: an entry's bytes are a name.
            Err(_) => unreachable!(),
        };
        names.push(name)?;
    }
    Ok(())
}

/// Whether a directory of this size lists no name.
pub fn is_empty_directory<F: FileStore>(store: &mut CachedStore<F>, dir: u32, size: u64) -> bool
    requires { HasBlocks (F.state store.old).content dir size }
    ensures empty { IsTrue result ↔ (all_entries (bytes_of (F.state store.old).content dir) ≡ []) }
    ensures state { F.state store.new ≡ F.state store.old }
{
    let mut blocks = DirBlocks::new(dir, size);
    while let Some(stored) = blocks.next(store) {
        if entries(&stored.block).next().is_some() {
            return false;
        }
    }
    true
}

/// Makes `room` the first block of a directory that has room for a new entry, with that entry, else a new block at the
/// end, and says whether there is one: none where the directory has all the blocks that it may have. The block `taken`,
/// if there is one, is read in place of the stored one. Stored blocks that are known to have no room are passed over.
pub(crate) fn find_room<F: FileStore>(
    store: &mut CachedStore<F>,
    dir: &Reached,
    taken: Option<&DirBlock>,
    listed: NewEntry<'_>,
    room: &mut DirBlock,
) -> bool
    requires { CanEnter (F.state store.old).content dir.now.number dir.now.attrs.size taken
        listed.name.now listed.number }
    ensures room { IsTrue result → (k : ℕ) × IsRoom
        (with_block (bytes_of (F.state store.old).content dir.now.number) taken.entry)
        listed.entry.number listed.entry.name.now room.new k }
    ensures full { result ≡ false → FitsNowhere
        (with_block (bytes_of (F.state store.old).content dir.now.number) taken.entry)
        None listed.entry.name.now }
    ensures state { F.state store.new ≡ F.state store.old }
{
    let NewEntry { name, number } = listed;
    let size = dir.attrs.size;
    let block_size = BLOCK_SIZE as u64;
    let first = first_to_try(store, dir.number, name);
    if taken_room(taken, first, name, number, room) {
        return true;
    }
    for k in first..size / block_size {
        room.off = block_size * k;
        see_block(store, dir.number, room.off, taken, &mut room.block);
        if add(&mut room.block, name, number) {
            keep_hint(store, dir.number, taken, k, name);
            return true;
        }
    }
    if size == FILE_BYTES {
        return false;
    }
    keep_hint(store, dir.number, taken, size / block_size, name);
    room.off = size;
    lone_entry(name, number, &mut room.block);
    true
}

/// The index of a block of a directory before which a name fits in no stored one: that of the directory's hint, where
/// the name is no shorter than the hint's.
fn first_to_try<F: FileStore>(store: &CachedStore<F>, dir: u32, name: &Name) -> u64
    ensures { IsFullBefore (bytes_of (F.state store.now).content dir)
        (record { block = result; length = length name.now }) }
{
    match store.hint(dir) {
        Some(hint) if hint.length <= name.as_bytes().len() => hint.block,
        _ => 0,
    }
}

/// Makes `room` the block that is read in place of a stored one, with an entry of a name more, and says whether it
/// stands before that of index `first` and the name fits.
fn taken_room(
    taken: Option<&DirBlock>,
    first: u64,
    name: &Name,
    number: u32,
    room: &mut DirBlock,
) -> bool
    requires above { 0 < number }
    requires free { IfSome taken (λ seen. IsDirectoryBlock seen.now.block
        (entries_of seen.now.block)
        × (number_in name.now (entries_of seen.now.block) ≡ None)) }
    ensures room { IsTrue result → IsSomeAnd taken.entry
        (λ seen. IsRoomIn seen.now first number name.now room.new) }
    ensures full { result ≡ false → IfSome taken.entry (λ seen. seen.now.off / BLOCK_SIZE < first
        → BLOCK_SIZE < used_of (entries_of seen.now.block) + 5 + length name.now) }
{
    match taken {
        Some(seen) if seen.index() < first => {
            *room = *seen;
            add(&mut room.block, name, number)
        }
        _ => false,
    }
}

/// Keeps in mind that a name fits in none of the first `block` blocks of a directory, where no block is read in place
/// of a stored one.
fn keep_hint<F: FileStore>(
    store: &mut CachedStore<F>,
    dir: u32,
    taken: Option<&DirBlock>,
    block: u64,
    name: &Name,
)
    requires { IsFullBefore (with_block (bytes_of (F.state store.old).content dir) taken)
        (record { block = block; length = length name.now }) }
    ensures { F.state store.new ≡ F.state store.old }
{
    if taken.is_none() {
        let length = name.as_bytes().len();
        store.enter_hint(dir, Hint { block, length });
    }
}

/// Keeps in mind that a name fits in no block of a directory before that of `room`, unless more is known.
pub(crate) fn keep_room<F: FileStore>(
    store: &mut CachedStore<F>,
    dir: u32,
    room: &DirBlock,
    name: &Name,
)
    requires { IsFullBefore (bytes_of (F.state store.old).content dir)
        (record { block = room.now.off / BLOCK_SIZE; length = length name.now }) }
    ensures { store.new ≡ store.old }
{
    let block = room.index();
    let length = name.as_bytes().len();
    match store.hint(dir) {
        Some(hint) if block <= hint.block && hint.length <= length => {}
        _ => store.enter_hint(dir, Hint { block, length }),
    }
}

/// Reads the block of a directory that begins at byte `off`: that in `taken` if it begins there, else the stored one.
pub(crate) fn see_block<F: FileStore>(
    store: &mut CachedStore<F>,
    dir: u32,
    off: u64,
    taken: Option<&DirBlock>,
    block: &mut Block,
)
    requires used { IsSome (get (F.state store.old).content dir) }
    requires aligned { off % BLOCK_SIZE ≡ 0 }
    requires within { off + BLOCK_SIZE ≤ length (bytes_of (F.state store.old).content dir) }
    requires taken { IfSome taken
        (λ room. StandsIn (bytes_of (F.state store.old).content dir) room.now) }
    ensures block { block.new ≡ take BLOCK_SIZE
        (drop off (with_block (bytes_of (F.state store.old).content dir) taken.entry)) }
    ensures state { F.state store.new ≡ F.state store.old }
{
    match taken {
        Some(room) if room.off == off => *block = room.block,
        _ => read_into(store, dir, off, block),
    }
}

/// Has a block list one name alone.
fn lone_entry(name: &Name, number: u32, block: &mut Block)
    requires { 0 < number }
    ensures block { IsDirectoryBlock block.new ((number, name.now) ∷ []) }
    ensures listed { entries_of block.new ≡ (number, name.now) ∷ [] }
{
    prove!(name.as_bytes().len() <= NAME_MAX);
    *block = [0; BLOCK_SIZE];
    // A name fits an empty block.
    add(block, name, number);
}

/// Makes `room` the block of a directory that lists a name, without the name.
pub(crate) fn take_name<F: FileStore>(
    store: &mut CachedStore<F>,
    dir: u32,
    size: u64,
    name: &Name,
    room: &mut DirBlock,
)
    requires { ListsName (F.state store.old).content dir size name.now }
    ensures room { (k : ℕ)
        × IsTaking (bytes_of (F.state store.old).content dir) name.now room.new k }
    ensures state { F.state store.new ≡ F.state store.old }
{
    if take_hinted(store, dir, size, name, room) {
        return;
    }
    take_listed(store, dir, size, name, room);
}

/// Makes `room` the block of a directory that lists a name, without the name, by its blocks. It stands apart, so that
/// the way of a name that stands where the hint says is short.
#[inline(never)]
fn take_listed<F: FileStore>(
    store: &mut CachedStore<F>,
    dir: u32,
    size: u64,
    name: &Name,
    room: &mut DirBlock,
)
    requires { ListsName (F.state store.old).content dir size name.now }
    ensures room { (k : ℕ)
        × IsTaking (bytes_of (F.state store.old).content dir) name.now room.new k }
    ensures state { F.state store.new ≡ F.state store.old }
{
    let mut blocks = DirBlocks::new(dir, size);
    while let Some(stored) = blocks.next_of(store, name) {
        if let Some(block) = removed(&stored.block, name) {
            let off = stored.off;
            *room = DirBlock { off, block };
            return;
        }
    }
    // Never: it is listed (`ListsName`), as is required.
    unreachable!()
}

/// Reads the block of a directory's hint and takes a name out of it, if the block lists the name, as where the name was
/// made last, and says whether it does. It isn't read where the table says that the name doesn't stand there.
fn take_hinted<F: FileStore>(
    store: &mut CachedStore<F>,
    dir: u32,
    size: u64,
    name: &Name,
    room: &mut DirBlock,
) -> bool
    requires { ListsName (F.state store.old).content dir size name.now }
    ensures room { IsTrue result → (k : ℕ)
        × IsTaking (bytes_of (F.state store.old).content dir) name.now room.new k }
    ensures state { F.state store.new ≡ F.state store.old }
{
    let Some(Hint { block, .. }) = store.hint(dir) else {
        return false;
    };
    if block >= size / BLOCK_SIZE as u64 || store.next_block(dir, name, block) != block {
        return false;
    }
    room.off = BLOCK_SIZE as u64 * block;
    read_into(store, dir, room.off, &mut room.block);
    remove(&mut room.block, name)
}
