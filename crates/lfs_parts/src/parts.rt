//! The parts of a log store.

ghost use Rattle.std.specs.Prelude.{◌≡◌, ◌<◌, IsSome, Some, length, option_map, true};
ghost use Rattle.lfs_ifile.specs.Tables.{row_of};
ghost use Rattle.lfs_inodes.specs.Reading.{fields_of};
ghost use Rattle.lfs_bmap.specs.Blocks.{IsFileBlock, code_of};
ghost use Rattle.lfs_parts.specs.Store.{AreFiles};
ghost use Rattle.lfs_parts.specs.View.{key_of, record_of, waiting_in};

use crate::records::Records;
use lfs_bmap::blocks::FileBlock;
use lfs_cache::{BlockCode, Cache, Key};
use lfs_inodes::inode::Inode;
use lfs_log::Log;
use lfs_log::packing::inode_in;

/// The parts of a log store. What waits to be written lies over the log: inode records here, other
/// blocks in the cache's LOCKED frames.
#[derive(Drop)]
pub struct Parts {
    /// The blocks of the volume, how each segment is used, and where each record stands.
    pub log: Log,
    /// The blocks that wait to be written.
    pub cache: Cache,
    /// The inode records that wait to be written.
    pub waiting: Records,
}

/// The key of a block of a file in the cache.
pub fn key_of(inode: &Inode, block: FileBlock) -> Key
    requires { IsFileBlock block }
    ensures { result ≡ key_of inode.now.number inode.now.version (code_of block) }
{
    Key {
        ino: inode.number,
        version: inode.version,
        lbn: BlockCode(block.code()),
    }
}

impl Parts {
    /// The record of a number that waits to be written, if one does.
    pub fn waiting(&self, ino: u32) -> Option<Inode>
        ensures { result ≡ waiting_in self.now.waiting ino }
    {
        self.waiting.find(ino)
    }

    /// The record of a number in use: the one that waits to be written, else the one in the log.
    pub fn record(&self, ino: u32) -> Option<Inode>
        requires in_range { ino < length self.now.log.tables.rows }
        ensures shown { option_map fields_of result ≡ record_of self.now ino }
        ensures waits { (row_of self.now.log.tables ino).used ≡ true
            → IsSome (waiting_in self.now.waiting ino) → result ≡ waiting_in self.now.waiting ino }
    {
        let place = self.log.place(ino)?;
        if let Some(inode) = self.waiting(ino) {
            return Some(inode);
        }
        inode_in(self.log.block(place.addr), place.slot as usize)
    }

    /// The record of a number, which must be in use: the one that waits to be written, else the one in
    /// the log.
    pub fn record_in_use(&self, ino: u32) -> Inode
        requires files { AreFiles self.now }
        requires in_use { (row_of self.now.log.tables ino).used ≡ true }
        ensures here { record_of self.now ino ≡ Some (fields_of result) }
        ensures waits { IsSome (waiting_in self.now.waiting ino)
            → waiting_in self.now.waiting ino ≡ Some result }
    {
        if let Some(inode) = self.waiting.find(ino) {
            return inode;
        }
        match self.record(ino) {
            Some(inode) => inode,
            // Never: the number is in use, as is required.
            None => unreachable!(),
        }
    }
}
