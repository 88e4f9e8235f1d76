//! Blocks of records, and the present addresses of blocks.

ghost use Rattle.std.specs.Prelude.{◌≡◌, ◌*◌, ◌<◌};
ghost use Rattle.lfs_types.specs.declared.limits.TheConstants.{SEGMENT_BLOCKS};
ghost use Rattle.lfs_ifile.specs.Tables.{place_of};
ghost use Rattle.lfs_parts.specs.Store.{IsStore};
ghost use Rattle.lfs_view.specs.Cells.{found_at, found_one, is_there, live_at, live_one, present, logged_at};

use lfs_log::packing::inode_in;
use lfs_parts::parts::Parts;
use lfs_segments::entry::LogicalBlock;
use lfs_types::cleaner::BlockInfo;

/// A record in a block of records.
#[derive(Clone, Copy, PartialEq, Eq, Debug)]
pub struct LoggedRecord {
    /// The number of its file.
    pub number: u32,
    /// The version of its file.
    pub version: u32,
    /// Where the record of that number and version stands now: 0 where there is none.
    pub present: u32,
    /// Whether it is the present one.
    pub is_live: bool,
}

/// The present address of a block of a file: 0 where the number isn't in use or has another version, or where the block has
/// none.
pub fn present(parts: &Parts, number: u32, version: u32, block: LogicalBlock) -> u32
    requires { IsStore parts.now }
    ensures { result ≡ present parts.now number version block }
{
    let info = BlockInfo {
        ino: number,
        version,
        lbn: block.number(),
        addr: 0,
    };
    parts.present_address(&info)
}

/// Whether the record of a number stands at an address in a slot, and is of this version.
fn is_there(parts: &Parts, number: u32, version: u32, address: u32, slot: usize) -> bool
    ensures { result ≡ is_there (place_of parts.now.log.tables number) version address slot }
{
    if number >= parts.log.inodes() {
        return false;
    }
    match parts.log.place(number) {
        Some(place) => {
            place.addr == address && usize::from(place.slot) == slot && place.version == version
        }
        None => false,
    }
}

/// The record in a slot of the block at an address, if one is there.
pub fn logged_at(parts: &Parts, address: u32, slot: usize) -> Option<LoggedRecord>
    requires store { IsStore parts.now }
    requires inside { address < parts.now.log.memory.segments * SEGMENT_BLOCKS }
    requires slot { slot < 4 }
    ensures { result ≡ logged_at parts.now address slot }
{
    let inode = inode_in(parts.log.block(address), slot)?;
    let (number, version) = (inode.number, inode.version);
    Some(LoggedRecord {
        number,
        version,
        present: present(parts, number, version, LogicalBlock::Inodes),
        is_live: is_there(parts, number, version, address, slot),
    })
}

/// One for a record.
fn found_one(logged: Option<LoggedRecord>) -> u32
    ensures value { result ≡ found_one logged }
    ensures few { result < 2 }
{
    match logged {
        Some(_) => 1,
        None => 0,
    }
}

/// One for a present record.
fn live_one(logged: Option<LoggedRecord>) -> u32
    ensures value { result ≡ live_one logged }
    ensures few { result < 2 }
{
    match logged {
        Some(LoggedRecord { is_live: true, .. }) => 1,
        _ => 0,
    }
}

/// How many records stand in the block at an address, and how many of them are the present ones.
pub fn counts_at(parts: &Parts, address: u32) -> (u32, u32)
    requires store { IsStore parts.now }
    requires inside { address < parts.now.log.memory.segments * SEGMENT_BLOCKS }
    ensures found { result.0 ≡ found_at parts.now address }
    ensures live { result.1 ≡ live_at parts.now address }
{
    let first = logged_at(parts, address, 0);
    let second = logged_at(parts, address, 1);
    let third = logged_at(parts, address, 2);
    let fourth = logged_at(parts, address, 3);
    (
        found_one(first) + found_one(second) + found_one(third) + found_one(fourth),
        live_one(first) + live_one(second) + live_one(third) + live_one(fourth),
    )
}
