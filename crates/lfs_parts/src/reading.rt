//! Reading a file's blocks through what waits to be written.

ghost use Rattle.std.specs.Prelude.{◌≡◌, ◌≢◌, ◌↔◌, ◌==◌, ◌+◌, ◌-◌, ◌/◌, ◌<◌, ◌≤◌, ◌^◌, ℕ, IsTrue, List, Some, None, if◌then◌else◌, length};
ghost use Rattle.lfs_types.specs.declared.block.TheConstants.{BLOCK_SIZE};
ghost use Rattle.lfs_types.specs.declared.limits.TheConstants.{FILE_BLOCKS};
ghost use Rattle.lfs_types.specs.Blocks.{zero_block};
ghost use Rattle.lfs_types.specs.Stored.{slice_of};
ghost use Rattle.lfs_inodes.specs.Reading.{fields_of};
ghost use Rattle.lfs_cache.specs.Changes.{IsContents};
ghost use Rattle.lfs_cache.specs.Contents.{block_in};
ghost use Rattle.lfs_segments.specs.Memory.{block_at};
ghost use Rattle.lfs_bmap.specs.Blocks.{IsFileBlock, way_to};
ghost use Rattle.lfs_bmap.specs.Pieces.{IsGot, file_bytes};
ghost use Rattle.lfs_bmap.specs.Reading.{address, bytes_via, data_block, read};
ghost use Rattle.lfs_parts.specs.Clean.{Holds};
ghost use Rattle.lfs_parts.specs.Filling.{IsCached, SameButClean};
ghost use Rattle.lfs_parts.specs.Store.{AreFiles, IsPresent};
ghost use Rattle.lfs_parts.specs.View.{LiesIn, blocks_of, record_of, tree_from, tree_of};

use crate::parts::{Parts, key_of};
use lfs_bmap::blocks::{Cell, FileBlock};
use lfs_bmap::pieces::{blocks_touched, get_piece};
use lfs_cache::{BlockCode, Key};
use lfs_inodes::addresses::{entry, root_address};
use lfs_inodes::inode::Inode;
use lfs_types::block::{Block, ZERO_BLOCK};

impl Parts {
    /// The bytes of a block of a file that has this address: those that wait to be written, else those
    /// in the log; zeros where it has no address.
    pub fn bytes_via(&self, inode: &Inode, block: FileBlock, address: u32) -> &Block
        requires block { IsFileBlock block }
        requires inside { address < blocks_of self.now }
        ensures { result.now ≡ bytes_via (tree_from self.now inode.now) (way_to block) address }
    {
        let key = Key {
            ino: inode.number,
            version: inode.version,
            lbn: BlockCode(block.code()),
        };
        match self.cache.dirty(key) {
            Some(waiting) => waiting,
            None if address == 0 => &ZERO_BLOCK,
            None => self.log.block(address),
        }
    }

    /// The bytes that the log has at an address; zeros at 0.
    fn in_log(&self, address: u32) -> &Block
        requires { address < blocks_of self.now }
        ensures { result.now
            ≡ (if address == 0 then zero_block else block_at self.now.log.memory address) }
    {
        if address == 0 {
            &ZERO_BLOCK
        } else {
            self.log.block(address)
        }
    }

    /// The address of a block of a file, 0 where it has none. The record has none. What holds it and waits is asked
    /// without its own address.
    pub fn address_of(&self, inode: &Inode, block: FileBlock) -> u32
        requires block { IsFileBlock block }
        requires inside { LiesIn (blocks_of self.now) (tree_from self.now inode.now) }
        ensures { result ≡ address (tree_from self.now inode.now) (way_to block) }
    {
        let Some(Cell { table, index }) = block.cell() else {
            return 0;
        };
        match table {
            FileBlock::Record => root_address(inode, index as usize),
            FileBlock::Single | FileBlock::Double | FileBlock::Child(_) | FileBlock::Data(_) => {
                if let Some(waiting) = self.cache.dirty(key_of(inode, table)) {
                    return entry(waiting, index as usize);
                }
                let held = self.in_log(self.address_of(inode, table));
                entry(held, index as usize)
            }
        }
    }

    /// The bytes of a block of a file.
    pub fn block_of(&self, inode: &Inode, block: FileBlock) -> &Block
        requires block { IsFileBlock block }
        requires inside { LiesIn (blocks_of self.now) (tree_from self.now inode.now) }
        ensures { result.now ≡ read (tree_from self.now inode.now) (way_to block) }
    {
        self.bytes_via(inode, block, self.address_of(inode, block))
    }

    /// Copies what falls of a data block of a file into a buffer that is to hold the file's bytes from
    /// `off` on. A block that waits stays where it is in its queue; one without an address is zeros
    /// and takes no frame; any other is read through the cache.
    fn read_block(&mut self, inode: &Inode, index: u32, off: u64, into: &mut [u8])
        requires files { AreFiles self.old }
        requires present { IsPresent self.old inode.now.number inode.now.version }
        requires here { record_of self.old inode.now.number ≡ Some (fields_of inode.now) }
        requires inside { LiesIn (blocks_of self.old) (tree_of self.old inode.now.number) }
        requires block { index < FILE_BLOCKS }
        requires bounded { off + length into.old < 2 ^ 64 }
        ensures got { IsGot index off (data_block (tree_of self.old inode.now.number) index)
            into.old into.new }
        ensures kept { SameButClean self.old self.new }
        ensures cached { IsCached inode.now.number inode.now.version index self.new }
    {
        let block = FileBlock::Data(index);
        let address = self.address_of(inode, block);
        let key = key_of(inode, block);
        if self.is_logged(key, address) {
            self.read_logged(key, address, index, off, into);
        } else {
            get_piece(self.bytes_via(inode, block, address), index, off, into);
        }
    }

    /// Whether a block that has this address is what the log has there: it has one, and doesn't wait.
    fn is_logged(&self, key: Key, address: u32) -> bool
        ensures { IsTrue result ↔ (address ≢ 0) × (block_in key self.now.cache.locked ≡ None) }
    {
        address != 0 && self.cache.dirty(key).is_none()
    }

    /// Copies what falls of a block that is what the log has into a buffer: from the frame that holds
    /// it, which comes to the front, or else from the log, and then the block takes a frame.
    fn read_logged(&mut self, key: Key, address: u32, index: u32, off: u64, into: &mut [u8])
        requires formed { IsContents self.old.cache }
        requires free { block_in key self.old.cache.locked ≡ None }
        requires mirrors { (bytes : List ℕ) → block_in key self.old.cache.lru ≡ Some bytes
            → bytes ≡ block_at self.old.log.memory address }
        requires inside { address < blocks_of self.old }
        requires bounded { off + length into.old < 2 ^ 64 }
        ensures got { IsGot index off (block_at self.old.log.memory address) into.old into.new }
        ensures held { Holds key (block_at self.old.log.memory address) self.old self.new }
        ensures taken { block_in key self.new.cache.lru ≡ Some (block_at self.old.log.memory address) }
    {
        match self.cache.get(key) {
            Some(held) => get_piece(held, index, off, into),
            None => {
                let logged = self.log.block(address);
                self.cache.fill(key, logged);
                get_piece(logged, index, off, into);
            }
        }
    }

    /// Fills a buffer with the bytes of a file from `off` on, which all lie below its size, through the
    /// cache.
    pub(crate) fn read_blocks(&mut self, inode: &Inode, off: u64, into: &mut [u8])
        requires files { AreFiles self.old }
        requires present { IsPresent self.old inode.now.number inode.now.version }
        requires here { record_of self.old inode.now.number ≡ Some (fields_of inode.now) }
        requires inside { LiesIn (blocks_of self.old) (tree_of self.old inode.now.number) }
        requires below { off + length into.old ≤ inode.now.size }
        ensures filled { into.new ≡ slice_of
            (file_bytes (data_block (tree_of self.old inode.now.number)) inode.now.size)
            off (length into.old) }
        ensures kept { SameButClean self.old self.new }
        // The last block that was read may have taken the frame of one before.
        ensures cached { 0 < length into.old → IsCached inode.now.number inode.now.version
            ((off + length into.old - 1) / BLOCK_SIZE) self.new }
    {
        let touched = blocks_touched(off, off + into.len() as u64);
        for index in touched.start..touched.end {
            self.read_block(inode, index, off, into);
        }
    }
}
