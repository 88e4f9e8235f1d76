//! The fields of a record, each read where it holds a value that it may hold.

ghost use Rattle.std.specs.Prelude.{◌≡◌, ◌≤◌, ◌<◌, ◌*◌, ◌+◌, ◌↔◌, ℕ, IsTrue, MatchOption, length, slice_index};
ghost use Rattle.std.specs.Option.{SomeIff};
ghost use Rattle.lfs_types.specs.FlagNumbers.{IsKnown};
ghost use Rattle.lfs_inodes.specs.Bytes.{number_at};
ghost use Rattle.lfs_inodes.specs.Facts.{IsInodeNumber, IsSizeOf, AreDirect, IsDouble, IsSingle, block_count};
ghost use Rattle.lfs_inodes.specs.Record.{IsKindCode};

use crate::bytes::{u16_at, u32_at, u64_at};
use crate::inode::{ADDRESS_LIMIT, DIRECT_COUNT, SINGLE_END};
use lfs_types::attrs::Kind;
use lfs_types::block::BLOCK_SIZE;
use lfs_types::file_flags::FileFlags;
use lfs_types::limits::{FILE_BYTES, MOST_INODES};
use lfs_types::mode::Mode;

/// The number that stands for a kind.
pub(crate) fn kind_code(kind: Kind) -> u16
    ensures { IsKindCode result kind }
{
    match kind {
        Kind::File => 1,
        Kind::Directory => 2,
    }
}

/// The kind, where the record has one.
pub(crate) fn kind_at(bytes: &[u8; 128]) -> Option<Kind>
    ensures { MatchOption result
        ((kind : Kind) → IsKindCode (number_at bytes.now 2 2) kind → ⊥)
        (λ kind. IsKindCode (number_at bytes.now 2 2) kind) }
{
    match u16_at(bytes, 2) {
        1 => Some(Kind::File),
        2 => Some(Kind::Directory),
        _ => None,
    }
}

/// The inode number, where it is one.
pub(crate) fn inode_number_at(bytes: &[u8; 128]) -> Option<u32>
    ensures { SomeIff result (IsInodeNumber (number_at bytes.now 4 4)) (number_at bytes.now 4 4) }
{
    let number = u32_at(bytes, 4);
    (2 <= number && number != 3 && number < MOST_INODES).then_some(number)
}

/// The version of the file or directory, where it is one.
pub(crate) fn version_at(bytes: &[u8; 128]) -> Option<u32>
    ensures { SomeIff result (1 ≤ number_at bytes.now 8 4) (number_at bytes.now 8 4) }
{
    let version = u32_at(bytes, 8);
    (version >= 1).then_some(version)
}

/// The mode, where it has no other bits.
pub(crate) fn mode_at(bytes: &[u8; 128]) -> Option<Mode>
    ensures { SomeIff result (number_at bytes.now 20 2 < 4096) (number_at bytes.now 20 2) }
{
    Mode::new(u16_at(bytes, 20))
}

/// The flags, where all are known.
pub(crate) fn flags_at(bytes: &[u8; 128]) -> Option<FileFlags>
    ensures { SomeIff result (IsKnown (number_at bytes.now 24 4)) (number_at bytes.now 24 4) }
{
    FileFlags::new(u32_at(bytes, 24))
}

/// The size, where something of this kind may have it.
pub(crate) fn size_at(bytes: &[u8; 128], kind: Kind) -> Option<u64>
    ensures { SomeIff result (IsSizeOf kind (number_at bytes.now 28 8)) (number_at bytes.now 28 8) }
{
    let size = u64_at(bytes, 28);
    let fits = match kind {
        Kind::File => size <= FILE_BYTES,
        Kind::Directory => size <= FILE_BYTES && size % BLOCK_SIZE as u64 == 0,
    };
    fits.then_some(size)
}

/// The direct addresses, whatever they are.
pub(crate) fn direct_at(bytes: &[u8; 128]) -> [u32; DIRECT_COUNT]
    ensures count { length result ≡ DIRECT_COUNT }
    ensures direct { (n : ℕ) → n < DIRECT_COUNT → slice_index result n ≡ number_at bytes.now (36 + 4 * n) 4 }
{
    let mut direct = [0; DIRECT_COUNT];
    for n in 0..DIRECT_COUNT {
        direct[n] = u32_at(bytes, 36 + 4 * n);
    }
    direct
}

/// The number of blocks that a size takes.
pub(crate) fn blocks(size: u64) -> u64
    ensures { result ≡ block_count size }
{
    size.div_ceil(BLOCK_SIZE as u64)
}

/// Whether these may be the direct addresses of a file or directory of this size.
pub(crate) fn are_direct(size: u64, direct: &[u32; DIRECT_COUNT]) -> bool
    ensures { IsTrue result ↔ AreDirect size direct.now }
{
    let count = blocks(size);
    for n in 0..DIRECT_COUNT {
        if direct[n] >= ADDRESS_LIMIT || (count <= n as u64 && direct[n] != 0) {
            return false;
        }
    }
    true
}

/// Whether this may be the address of its indirect block.
pub(crate) fn is_single(size: u64, single: u32) -> bool
    ensures { IsTrue result ↔ IsSingle size single }
{
    single < ADDRESS_LIMIT && (blocks(size) > DIRECT_COUNT as u64 || single == 0)
}

/// Whether this may be the address of its double indirect block.
pub(crate) fn is_double(size: u64, double: u32) -> bool
    ensures { IsTrue result ↔ IsDouble size double }
{
    double < ADDRESS_LIMIT && (blocks(size) > SINGLE_END as u64 || double == 0)
}
