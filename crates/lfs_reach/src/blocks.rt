//! The blocks of a file, by its record.

ghost use Rattle.std.specs.Prelude.{◌≡◌, ◌<◌, ◌*◌, option_map};
ghost use Rattle.lfs_types.specs.declared.limits.TheConstants.{FILE_BLOCKS};
ghost use Rattle.lfs_inodes.specs.Reading.{fields_of};
ghost use Rattle.lfs_reach.specs.Reach.{bytes_at, file_address, record_of};

use lfs_inodes::addresses::{entry, root_address};
use lfs_inodes::inode::{DIRECT_COUNT, DOUBLE_PLACE, ENTRY_COUNT, Inode, SINGLE_END};
use lfs_inodes::slots::slot;
use lfs_recovery::RecordPlace;
use lfs_segments::segments::Segments;
use lfs_types::block::{Block, ZERO_BLOCK};
use lfs_types::limits::SEGMENT_BLOCKS;

/// The bytes of a block, zeros where the address is 0 or past the end.
pub fn bytes_at(memory: &Segments, address: u32) -> &Block
    ensures { result.now ≡ bytes_at memory.now address }
{
    if address == 0 {
        return &ZERO_BLOCK;
    }
    if address >= memory.segments() * SEGMENT_BLOCKS {
        return &ZERO_BLOCK;
    }
    memory.block(address)
}

/// The address of block `n` of a file, 0 where it has none.
pub(crate) fn file_address(memory: &Segments, inode: &Inode, n: u32) -> u32
    requires { n < FILE_BLOCKS }
    ensures { result ≡ file_address memory.now (fields_of inode.now) n }
{
    let n = n as usize;
    if n < DIRECT_COUNT {
        return root_address(inode, n);
    }
    if n < SINGLE_END {
        let single = bytes_at(memory, root_address(inode, DIRECT_COUNT));
        return entry(single, n - DIRECT_COUNT);
    }
    let double = bytes_at(memory, root_address(inode, DOUBLE_PLACE));
    let child = bytes_at(memory, entry(double, (n - SINGLE_END) / ENTRY_COUNT));
    entry(child, (n - SINGLE_END) % ENTRY_COUNT)
}

/// The record that stands at a place, if one does.
pub fn record_of(memory: &Segments, place: &Option<RecordPlace>) -> Option<Inode>
    ensures { option_map fields_of result ≡ record_of memory.now place.now }
{
    match place {
        Some(place) => {
            if place.slot < 4 {
                Inode::decode(&slot(bytes_at(memory, place.address), place.slot as usize))
            } else {
                None
            }
        }
        None => None,
    }
}
