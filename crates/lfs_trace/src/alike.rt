//! Whether two stores show the same tree, and a number at which they don't.

ghost use Rattle.std.specs.Prelude.{◌≡◌, ◌+◌, ◌*◌, ◌/◌, ◌<◌, ◌≤◌, ◌↔◌, ℕ, length, IfOk, IsSome, IsTrue, None, Some};
ghost use Rattle.std.specs.FinMap as map;
ghost use Rattle.lfs_types.specs.declared.block.TheConstants.{BLOCK_SIZE};
ghost use Rattle.lfs_types.specs.declared.limits.TheConstants.{FILE_BYTES};
ghost use Rattle.lfs_types.specs.Stored.{bytes_of, slice_of};
ghost use Rattle.lfs_types.specs.Naming.{name_fault};
ghost use Rattle.lfs_dirs.specs.Directory.{IsDirectoryBlock, number_in};
ghost use Rattle.lfs_dirs.specs.Reading.{entries_of};
ghost use Rattle.lfs_calls.specs.Content.{HasBlocks, IsDirectoryAt, all_entries, block_at};
ghost use Rattle.lfs_calls.specs.Volumes.{HasWorld};
ghost use Rattle.lfs_trace.specs.Alike.{AreListed, IsAlikeAt, IsDifference, IsDifferenceAmong, seen_attrs};
ghost use Rattle.lfs_trace.specs.Checking.{plain_state};

use lfs_calls::cached_store::CachedStore;
use lfs_calls::directory::look_up;
use lfs_checks::attributes::shown_size;
use lfs_dirs::entries;
use lfs_flatfiles::flat_files::FlatFiles;
use lfs_types::attrs::Attrs;
use lfs_types::block::{BLOCK_SIZE, Block};
use lfs_types::name::{BadName, Name};
use lfs_types::store::FileStore;
use std::alloc::{AllocError, Global};

/// How many bytes are compared at once.
const PIECE: usize = 4096;

/// A directory that two stores have.
#[derive(Clone, Copy)]
struct Directory {
    /// Its number.
    number: u32,
    /// How many bytes it has in the plain store.
    size: u64,
    /// How many blocks it has in the other.
    blocks: u64,
}

/// A number at which a plain store and another one, both with so many numbers, aren't alike, or none where they are
/// alike at each. It is looked for from a number on, round once.
pub(crate) fn difference<F: FileStore>(
    alloc: Global,
    plain: &mut CachedStore<FlatFiles>,
    store: &mut F,
    numbers: u32,
    from: u32,
) -> Result<Option<u32>, AllocError>
    requires plain { HasWorld (plain_state plain.old) }
    requires store { HasWorld (F.state store.old) }
    requires plain_within { (n : ℕ) → IsSome (map.get (plain_state plain.old).content n)
        → n < numbers }
    requires within { (n : ℕ) → IsSome (map.get (F.state store.old).content n) → n < numbers }
    ensures found { IfOk result
        (IsDifference (plain_state plain.old).content (F.state store.old).content) }
    ensures plain { plain_state plain.new ≡ plain_state plain.old }
    ensures state { F.state store.new ≡ F.state store.old }
{
    let start = from.min(numbers);
    match difference_among(alloc, plain, store, start, numbers)? {
        Some(number) => Ok(Some(number)),
        None => difference_among(alloc, plain, store, 0, start),
    }
}

/// The first of the numbers from one on to before another at which the stores aren't alike.
fn difference_among<F: FileStore>(
    alloc: Global,
    plain: &mut CachedStore<FlatFiles>,
    store: &mut F,
    low: u32,
    high: u32,
) -> Result<Option<u32>, AllocError>
    requires plain { HasWorld (plain_state plain.old) }
    requires store { HasWorld (F.state store.old) }
    ensures found { IfOk result (IsDifferenceAmong low high
        (plain_state plain.old).content (F.state store.old).content) }
    ensures plain { plain_state plain.new ≡ plain_state plain.old }
    ensures state { F.state store.new ≡ F.state store.old }
{
    for number in low..high {
        if !is_alike_at(alloc, plain, store, number)? {
            return Ok(Some(number));
        }
    }
    Ok(None)
}

/// Whether the stores are alike at a number.
fn is_alike_at<F: FileStore>(
    alloc: Global,
    plain: &mut CachedStore<FlatFiles>,
    store: &mut F,
    number: u32,
) -> Result<bool, AllocError>
    requires plain { HasWorld (plain_state plain.old) }
    requires store { HasWorld (F.state store.old) }
    ensures alike { IfOk result (λ alike. IsTrue alike
        ↔ IsAlikeAt (plain_state plain.old).content (F.state store.old).content number) }
    ensures plain { plain_state plain.new ≡ plain_state plain.old }
    ensures state { F.state store.new ≡ F.state store.old }
{
    match (plain.attrs(number), store.attrs(number)) {
        (None, None) => Ok(true),
        (Some(attrs), Some(other)) => {
            if seen_attrs(&attrs) != seen_attrs(&other) {
                return Ok(false);
            }
            if !attrs.kind.is_directory() {
                return Ok(has_bytes(store, number, plain.store().bytes(number)));
            }
            let directory = Directory {
                number,
                size: attrs.size,
                blocks: other.size / BLOCK_SIZE as u64,
            };
            lists_all(alloc, plain, store, directory)
        }
        (None, Some(_)) | (Some(_), None) => Ok(false),
    }
}

/// The attributes that users see: of a directory no size.
fn seen_attrs(attrs: &Attrs) -> Attrs
    ensures { result ≡ seen_attrs attrs.now }
{
    let size = shown_size(attrs);
    Attrs { size, ..*attrs }
}

/// Whether a file of a store, which has as many bytes, has these.
fn has_bytes<F: FileStore>(store: &mut F, number: u32, bytes: &[u8]) -> bool
    requires used { IsSome (map.get (F.state store.old).content number) }
    requires sized { length (bytes_of (F.state store.old).content number) ≡ length bytes.now }
    ensures same { IsTrue result ↔ (bytes_of (F.state store.old).content number ≡ bytes.now) }
    ensures state { F.state store.new ≡ F.state store.old }
{
    for piece in 0..bytes.len().div_ceil(PIECE) {
        if !has_piece(store, number, bytes, piece * PIECE) {
            return false;
        }
    }
    true
}

/// Whether a file of a store has of its bytes from `off` on, at most 4,096, these.
fn has_piece<F: FileStore>(store: &mut F, number: u32, bytes: &[u8], off: usize) -> bool
    requires used { IsSome (map.get (F.state store.old).content number) }
    requires within { off ≤ length bytes.now }
    ensures same { IsTrue result ↔ (slice_of (bytes_of (F.state store.old).content number) off 4096
        ≡ slice_of bytes.now off 4096) }
    ensures state { F.state store.new ≡ F.state store.old }
{
    let mut buffer = [0; PIECE];
    let count = store.read(number, off as u64, &mut buffer);
    let end = bytes.len().min(off + PIECE);
    &buffer[..count] == &bytes[off..end]
}

/// Whether a directory of a plain store lists all that it lists in another.
fn lists_all<F: FileStore>(
    alloc: Global,
    plain: &mut CachedStore<FlatFiles>,
    store: &mut F,
    directory: Directory,
) -> Result<bool, AllocError>
    requires world { HasWorld (F.state store.old) }
    requires stored { HasBlocks (plain_state plain.old).content directory.number directory.size }
    requires directory { IsDirectoryAt (plain_state plain.old).content directory.number }
    requires other { IsDirectoryAt (F.state store.old).content directory.number }
    requires blocks { directory.blocks
        ≡ length (bytes_of (F.state store.old).content directory.number) / BLOCK_SIZE }
    ensures listed { IfOk result (λ listed. IsTrue listed
        ↔ AreListed (bytes_of (plain_state plain.old).content directory.number)
        (all_entries (bytes_of (F.state store.old).content directory.number))) }
    ensures plain { plain_state plain.new ≡ plain_state plain.old }
    ensures state { F.state store.new ≡ F.state store.old }
{
    let Directory {
        number,
        size,
        blocks,
    } = directory;
    for index in 0..blocks {
        let block = block_of(store, number, index);
        if !lists_block(alloc, plain, number, size, &block)? {
            return Ok(false);
        }
    }
    Ok(true)
}

/// The block of a directory of this index, which it has.
fn block_of<F: FileStore>(store: &mut F, directory: u32, index: u64) -> Block
    requires used { IsSome (map.get (F.state store.old).content directory) }
    requires bounded { length (bytes_of (F.state store.old).content directory) ≤ FILE_BYTES }
    requires within { BLOCK_SIZE * index + BLOCK_SIZE
        ≤ length (bytes_of (F.state store.old).content directory) }
    ensures block { result ≡ block_at (bytes_of (F.state store.old).content directory) index }
    ensures state { F.state store.new ≡ F.state store.old }
{
    let mut block = [0; BLOCK_SIZE];
    store.read(directory, BLOCK_SIZE as u64 * index, &mut block);
    block
}

/// Whether a directory of this size of a plain store lists all entries of a block.
fn lists_block(
    alloc: Global,
    plain: &mut CachedStore<FlatFiles>,
    directory: u32,
    size: u64,
    block: &Block,
) -> Result<bool, AllocError>
    requires stored { HasBlocks (plain_state plain.old).content directory size }
    requires directory { IsDirectoryAt (plain_state plain.old).content directory }
    requires block { IsDirectoryBlock block.now (entries_of block.now) }
    ensures listed { IfOk result (λ listed. IsTrue listed
        ↔ AreListed (bytes_of (plain_state plain.old).content directory)
        (entries_of block.now)) }
    ensures plain { plain_state plain.new ≡ plain_state plain.old }
{
    for (number, name) in entries(block) {
        if !lists_entry(alloc, plain, directory, size, (number, name))? {
            return Ok(false);
        }
    }
    Ok(true)
}

/// Whether a directory of this size of a plain store lists a number under a name.
fn lists_entry(
    alloc: Global,
    plain: &mut CachedStore<FlatFiles>,
    directory: u32,
    size: u64,
    entry: (u32, &[u8]),
) -> Result<bool, AllocError>
    requires stored { HasBlocks (plain_state plain.old).content directory size }
    requires directory { IsDirectoryAt (plain_state plain.old).content directory }
    requires named { name_fault entry.1.now ≡ None }
    ensures listed { IfOk result (λ listed. IsTrue listed ↔ (number_in entry.entry.1.now
        (all_entries (bytes_of (plain_state plain.old).content directory)) ≡ Some entry.entry.0)) }
    ensures plain { plain_state plain.new ≡ plain_state plain.old }
{
    let (number, bytes) = entry;
    let name = match Name::parse(alloc, bytes) {
        Ok(name) => name,
        Err(BadName::Memory) => return Err(AllocError),
        // Never: the bytes are a name.
        Err(_) => unreachable!(),
    };
    Ok(look_up(plain, directory, size, &name) == Some(number))
}
