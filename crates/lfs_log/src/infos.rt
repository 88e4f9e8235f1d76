//! Infos: which blocks and inodes the log of a segment names, and where they lie.

ghost use Rattle.std.specs.Prelude.{◌≡◌, ◌+◌, ◌<◌, ◌≤◌, ◌++◌, ◌∷◌, ◌/◌, ℕ, Some, [], length};
ghost use Rattle.lfs_types.specs.declared.cleaner.BlockInfo.{BlockInfo};
ghost use Rattle.lfs_types.specs.declared.cleaner.TheConstants.{INFO_LIMIT};
ghost use Rattle.lfs_segments.specs.Memory.{IsLaidOut};
ghost use Rattle.std.specs.List.{Contains, filter_map};
ghost use Rattle.lfs_inodes.specs.Slots.{slot_of, slots};
ghost use Rattle.lfs_log.specs.Infos.{HasInfo, IsInfoOf, block_infos, info_of, infos_of, slot_info};
ghost use Rattle.lfs_log.specs.Names.{named_at};
ghost use Rattle.lfs_bmap.specs.Counting.{seg_of};
ghost use Rattle.lfs_bmap.specs.Log.{Owner};
ghost use Rattle.lfs_log.specs.declared.packing.TheConstants.{SLOT_COUNT};
ghost use Rattle.lfs_log.specs.Parts.{IsParts};

use crate::log::Log;
use crate::packing::{SLOT_COUNT, inode_in};
use lfs_segments::entry::{LogicalBlock, SummaryEntry};
use lfs_segments::log_summary::summary_in;
use lfs_segments::segments::{Segments, log_start};
use lfs_segments::summary::ENTRY_LIMIT;
use lfs_types::block::Block;
use lfs_types::cleaner::{BlockInfo, InfoList};
use lfs_types::limits::SEGMENT_BLOCKS;

impl Log {
    /// The infos of all that the log of a segment names, in its order: one for each block of a file,
    /// and one for each record of an inode block.
    pub fn infos(&self, segment: u32) -> InfoList
        requires { segment < self.now.memory.segments }
        ensures infos { result ≡ infos_of self.now.memory segment }
        // What the log names at a place of the segment stands among them.
        ensures named { (place : ℕ) (owner : Owner) → seg_of place ≡ segment
            → named_at self.now.memory place ≡ Some owner → HasInfo result (place / 4) owner }
        // And nothing else does.
        ensures only { (info : BlockInfo) → Contains result info
            → IsInfoOf self.now.memory segment info }
        ensures fits { length (infos_of self.now.memory segment) ≤ INFO_LIMIT }
        ensures kept { IsParts self.now }
    {
        scan(&self.segments, segment)
    }
}

/// The infos of a segment, block by block from where its log begins to where it ends.
fn scan(segments: &Segments, segment: u32) -> InfoList
    requires inside { segment < segments.now.segments }
    requires laid_out { IsLaidOut segments.now }
    ensures { result ≡ infos_of segments.now segment }
{
    let mut infos = InfoList::empty();
    let mut entries = [SummaryEntry::UNUSED; ENTRY_LIMIT];
    let mut next = 0;
    let mut count = 0;
    let first = segment * SEGMENT_BLOCKS;
    for address in first + log_start(segment)..first + SEGMENT_BLOCKS {
        let block = segments.block(address);
        if next < count {
            push_infos(&mut infos, address, &entries[next], block);
            next += 1;
        } else if let Some(summary) = summary_in(block, segments.has_serials()) {
            entries = summary.entries;
            next = 0;
            count = summary.count as usize;
        } else {
            return infos;
        }
    }
    infos
}

/// Adds the infos of a block that an entry of a summary names.
fn push_infos(infos: &mut InfoList, address: u32, entry: &SummaryEntry, block: &Block)
    requires { length infos.old + SLOT_COUNT ≤ INFO_LIMIT }
    ensures { infos.new ≡ infos.old
        ++ block_infos address entry.now.number entry.now.version entry.now.block block.now }
{
    match entry.block {
        LogicalBlock::Inodes => push_inode_infos(infos, address, block),
        LogicalBlock::Data(_)
        | LogicalBlock::Single
        | LogicalBlock::Double
        | LogicalBlock::Child(_) => {
            infos.push(info_of(address, entry.number, entry.version, entry.block));
        }
    }
}

/// Adds the infos of the inodes in an inode block.
fn push_inode_infos(infos: &mut InfoList, address: u32, block: &Block)
    requires { length infos.old + SLOT_COUNT ≤ INFO_LIMIT }
    ensures { infos.new ≡ infos.old ++ filter_map (slot_info address) (slots block.now) }
{
    for index in 0..SLOT_COUNT {
        push_slot_info(infos, address, block, index);
    }
}

/// Adds the info of the inode in a slot of an inode block, if one is there.
fn push_slot_info(infos: &mut InfoList, address: u32, block: &Block, index: usize)
    requires room { length infos.old < INFO_LIMIT }
    requires inside { index < SLOT_COUNT }
    ensures added { infos.new
        ≡ infos.old ++ filter_map (slot_info address) (slot_of block.now index ∷ []) }
    ensures few { length infos.new ≤ length infos.old + 1 }
{
    if let Some(inode) = inode_in(block, index) {
        let info = info_of(address, inode.number, inode.version, LogicalBlock::Inodes);
        infos.push(info);
    }
}

/// The info of a block at an address, by the number and version of its file.
fn info_of(address: u32, number: u32, version: u32, block: LogicalBlock) -> BlockInfo
    ensures { result ≡ info_of address number version block }
{
    BlockInfo {
        ino: number,
        version,
        lbn: block.number(),
        addr: address,
    }
}
