//! What directories list, block by block.

ghost use Rattle.std.specs.Prelude.{◌≡◌, ◌+◌, ◌/◌, ◌<◌, [], length, slice_get, IsSome, Some, IfErr, IfOk, MatchOption, OnOk};
ghost use Rattle.lfs_types.specs.declared.block.TheConstants.{BLOCK_SIZE};
ghost use Rattle.lfs_types.specs.Stored.{bytes_of};
ghost use Rattle.lfs_types.specs.Tree.{root};
ghost use Rattle.lfs_dirs.specs.Directory.{IsDirectoryBlock};
ghost use Rattle.lfs_dirs.specs.Reading.{entries_of};
ghost use Rattle.lfs_calls.specs.Content.{AreBlocks, IsDirectoryAt, all_entries, block_at, entries_below};
ghost use Rattle.lfs_trees.specs.Faults.{IsBelow, IsTreeFaultOf};
ghost use Rattle.lfs_trees.specs.Files.{AreFiles, HasWhole};
ghost use Rattle.lfs_trees.specs.Walks.{HasNames, HasRead, IsEntered, IsEntryFault, IsReading, Stands, Steps};

use crate::fault::TreeFault;
use crate::names::Names;
use crate::walk::Walk;
use lfs_dirs::{entries, is_directory_block};
use lfs_types::block::{BLOCK_SIZE, Block};
use lfs_types::limits::ROOT_INODE;
use lfs_types::store::FileStore;
use std::alloc::Global;

/// A block of a directory.
#[derive(Clone, Copy)]
struct DirectoryBlock {
    /// The directory's number.
    directory: u32,
    /// How many blocks the directory has.
    blocks: u64,
    /// Which of them it is, counted from 0.
    index: u64,
}

/// An entry of a directory.
#[derive(Clone, Copy)]
struct Listed<'a> {
    /// The directory's number.
    directory: u32,
    /// The number that the entry lists.
    number: u32,
    /// The name under which it does.
    name: &'a [u8],
}

/// Walks from the root along all names.
pub(crate) fn reach_all<F: FileStore>(
    alloc: Global,
    store: &mut F,
    numbers: u32,
) -> Result<Walk, TreeFault>
    requires bounded { IsBelow numbers (F.state store.old).content }
    requires root { IsDirectoryAt (F.state store.old).content root }
    requires files { AreFiles (F.state store.old).content }
    ensures read { IfOk result (HasRead (F.state store.old).content) }
    ensures numbers { IfOk result (λ walk. length walk.marks.items ≡ numbers) }
    ensures fault { IfErr result (IsTreeFaultOf (F.state store.old).content) }
    ensures state { F.state store.new ≡ F.state store.old }
{
    let mut walk = Walk::new(alloc, numbers)?;
    walk.push(ROOT_INODE)?;
    while let Some(number) = walk.next() {
        read_number(alloc, store, &mut walk, number)?;
    }
    Ok(walk)
}

/// Reads the number that comes next, which lists others where it is a directory's.
fn read_number<F: FileStore>(
    alloc: Global,
    store: &mut F,
    walk: &mut Walk,
    number: u32,
) -> Result<(), TreeFault>
    requires bounded { IsBelow (length walk.old.marks.items) (F.state store.old).content }
    requires files { AreFiles (F.state store.old).content }
    requires stands { Stands (F.state store.old).content walk.old }
    requires next { slice_get walk.old.order.items walk.old.done ≡ Some number }
    ensures steps { OnOk result (Steps (F.state store.old).content walk.old walk.new) }
    ensures fault { IfErr result (IsTreeFaultOf (F.state store.old).content) }
    ensures state { F.state store.new ≡ F.state store.old }
{
    let Some(blocks) = blocks_of(store, number) else {
        walk.finish();
        return Ok(());
    };
    read_directory(alloc, store, walk, number, blocks)?;
    walk.finish();
    Ok(())
}

/// How many blocks a directory has, if the number is one's.
fn blocks_of<F: FileStore>(store: &F, number: u32) -> Option<u64>
    requires { AreFiles (F.state store.now).content }
    ensures { MatchOption result
        (IsDirectoryAt (F.state store.now).content number → ⊥)
        (HasWhole (F.state store.now).content number) }
{
    let attrs = store.attrs(number)?;
    if attrs.kind.is_directory() {
        Some(attrs.size / BLOCK_SIZE as u64)
    } else {
        None
    }
}

/// Reads all blocks of a directory, which has so many.
fn read_directory<F: FileStore>(
    alloc: Global,
    store: &mut F,
    walk: &mut Walk,
    directory: u32,
    blocks: u64,
) -> Result<(), TreeFault>
    requires whole { HasWhole (F.state store.old).content directory blocks }
    requires reading { IsReading (F.state store.old).content walk.old walk.old directory [] }
    ensures read { OnOk result (IsReading (F.state store.old).content walk.old walk.new directory
        (all_entries (bytes_of (F.state store.old).content directory))) }
    ensures blocks { OnOk result (AreBlocks (bytes_of (F.state store.old).content directory)) }
    ensures fault { IfErr result (IsTreeFaultOf (F.state store.old).content) }
    ensures state { F.state store.new ≡ F.state store.old }
{
    let mut names = Names::new(alloc);
    for index in 0..blocks {
        let place = DirectoryBlock {
            directory,
            blocks,
            index,
        };
        read_block(alloc, store, walk, &mut names, place)?;
    }
    Ok(())
}

/// Reads a block of a directory.
fn read_block<F: FileStore>(
    alloc: Global,
    store: &mut F,
    walk: &mut Walk,
    names: &mut Names,
    place: DirectoryBlock,
) -> Result<(), TreeFault>
    requires whole { HasWhole (F.state store.old).content place.directory place.blocks }
    requires within { place.index < place.blocks }
    requires reading { IsReading (F.state store.old).content walk.old walk.old place.directory
        (entries_below (bytes_of (F.state store.old).content place.directory) place.index) }
    requires named { HasNames names.old
        (entries_below (bytes_of (F.state store.old).content place.directory) place.index) }
    ensures read { OnOk result (IsReading (F.state store.old).content walk.old walk.new
        place.directory
        (entries_below (bytes_of (F.state store.old).content place.directory) (place.index + 1))) }
    ensures named { OnOk result (HasNames names.new
        (entries_below (bytes_of (F.state store.old).content place.directory) (place.index + 1))) }
    ensures block { OnOk result (IsDirectoryBlock
        (block_at (bytes_of (F.state store.old).content place.directory) place.index)
        (entries_of (block_at (bytes_of (F.state store.old).content place.directory)
        place.index))) }
    ensures fault { IfErr result (IsTreeFaultOf (F.state store.old).content) }
    ensures state { F.state store.new ≡ F.state store.old }
{
    let DirectoryBlock {
        directory,
        index,
        ..
    } = place;
    let block = block_of(store, place);
    if !is_directory_block(&block) {
        return Err(TreeFault::Block { directory, index });
    }
    for (number, name) in entries(&block) {
        let listed = Listed {
            directory,
            number,
            name,
        };
        enter(alloc, store, walk, names, listed)?;
    }
    Ok(())
}

/// The bytes of a block of a directory.
fn block_of<F: FileStore>(store: &mut F, place: DirectoryBlock) -> Block
    requires whole { HasWhole (F.state store.old).content place.directory place.blocks }
    requires within { place.index < place.blocks }
    ensures block { result
        ≡ block_at (bytes_of (F.state store.old).content place.directory) place.index }
    ensures state { F.state store.new ≡ F.state store.old }
{
    let mut block = [0; BLOCK_SIZE];
    store.read(place.directory, BLOCK_SIZE as u64 * place.index, &mut block);
    block
}

/// Enters what an entry of a directory lists, where its name is a new one of the directory's and its number wasn't
/// reached before.
fn enter<F: FileStore>(
    alloc: Global,
    store: &F,
    walk: &mut Walk,
    names: &mut Names,
    listed: Listed<'_>,
) -> Result<(), TreeFault>
    requires { IsBelow (length walk.old.marks.items) (F.state store.now).content }
    ensures entered { OnOk result (IsEntered (F.state store.now).content walk.old names.old
        (listed.entry.number, listed.entry.name.now) walk.new names.new) }
    ensures fault { IfErr result (IsEntryFault (F.state store.now).content walk.old names.old
        listed.entry.directory (listed.entry.number, listed.entry.name.now)) }
{
    let Listed {
        directory,
        number,
        name,
    } = listed;
    if !names.insert(alloc, name)? {
        return Err(TreeFault::NameTwice { directory, number });
    }
    if number == ROOT_INODE {
        return Err(TreeFault::RootListed { directory });
    }
    if store.attrs(number).is_none() {
        return Err(TreeFault::Unused { directory, number });
    }
    if walk.has(number) {
        return Err(TreeFault::NumberTwice { number });
    }
    walk.push(number)?;
    Ok(())
}
