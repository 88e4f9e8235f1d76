//! The memory of the volume: segments of blocks, one of them active.

ghost use Rattle.std.specs.Prelude.{◌≡◌, ◌+◌, ◌-◌, ◌*◌, ◌<◌, ◌≤◌, ◌↔◌, IfNone, IfOk, IfSome, IsErrOf, IsTrue, Some, [], All, length};
ghost use Rattle.lfs_types.specs.declared.block.TheConstants.{BLOCK_SIZE};
ghost use Rattle.lfs_types.specs.declared.limits.TheConstants.{SEGMENT_BLOCKS};
ghost use Rattle.lfs_types.specs.Ranges.{least_segments, most_segments};
ghost use Rattle.lfs_segments.specs.Log.{Expects};
ghost use Rattle.lfs_segments.specs.Memory.{IsLaidOut, IsNextSerial, IsVolume, appended, block_at, fresh, fresh_with, has_serials, label, log_start, next_address, opened, raised, room_of, seen, seen_with};
ghost use Rattle.lfs_segments.specs.Rising.{IsRising};

use crate::blocks::Blocks;
use crate::log_summary::next_serial;
use byteorder::{BigEndian, ByteOrder};
use lfs_types::block::{Block, ZERO_BLOCK};
use lfs_types::fault::FormatFault;
use lfs_types::limits::{LEAST_SEGMENTS, MOST_SEGMENTS, SEGMENT_BLOCKS};
use std::alloc::Global;
use std::marker::Model;

/// The first four bytes of the label, `LFS1`.
const MARK: u32 = 0x4c46_5331;

/// The blocks of a volume in memory. They are written in the order of a log, into one active segment
/// at a time.
#[derive(Drop)]
pub struct Segments {
    blocks: Blocks,
    active: u32,
    fill: u32,
    serial: Option<u32>,
}

impl Model for Segments {
    ghost use Rattle.lfs_segments.specs.Memory.{IsLaidOut, SegmentMemory, seen_with};

    ghost Value = { SegmentMemory };

    ghost view = { λ s. seen_with s.serial s.blocks s.active s.fill };

    ghost invariant = { λ s. IsLaidOut (seen_with s.serial s.blocks s.active s.fill) };
}

impl Segments {
    /// Lays out a volume of 6 to 1,024 segments, all zeros but the label in block 0, which names the
    /// number of inode numbers too. Segment 0 is active. Summaries have no serials.
    pub fn format(alloc: Global, segments: u32, inodes: u32) -> Result<Segments, FormatFault>
        ensures too_few { IsErrOf result FormatFault.TooFew ↔ (segments < least_segments) }
        ensures too_many { IsErrOf result FormatFault.TooMany ↔ (most_segments < segments) }
        ensures fresh { IfOk result (λ made. made ≡ fresh segments inodes) }
        ensures laid_out { IfOk result (λ made. IsLaidOut made) }
        // The log of segment 0 expects a summary.
        ensures ready { IfOk result (λ made. Expects made []) }
        ensures rising { IfOk result (λ made. IsRising made) }
    {
        Segments::format_as(alloc, segments, inodes, None)
    }

    /// Lays out such a volume whose summaries have serials, the first 1.
    pub fn format_with_serials(
        alloc: Global,
        segments: u32,
        inodes: u32,
    ) -> Result<Segments, FormatFault>
        ensures too_few { IsErrOf result FormatFault.TooFew ↔ (segments < least_segments) }
        ensures too_many { IsErrOf result FormatFault.TooMany ↔ (most_segments < segments) }
        ensures fresh { IfOk result (λ made. made ≡ fresh_with (Some 1) segments inodes) }
        ensures laid_out { IfOk result (λ made. IsLaidOut made) }
        ensures ready { IfOk result (λ made. Expects made []) }
        ensures rising { IfOk result (λ made. IsRising made) }
    {
        Segments::format_as(alloc, segments, inodes, Some(1))
    }

    /// Lays out such a volume whose first summary gets this serial, where there is one; else summaries have none.
    pub fn format_as(
        alloc: Global,
        segments: u32,
        inodes: u32,
        serial: Option<u32>,
    ) -> Result<Segments, FormatFault>
        requires { IsNextSerial serial }
        ensures too_few { IsErrOf result FormatFault.TooFew ↔ (segments < least_segments) }
        ensures too_many { IsErrOf result FormatFault.TooMany ↔ (most_segments < segments) }
        ensures fresh { IfOk result (λ made. made ≡ fresh_with serial segments inodes) }
        ensures laid_out { IfOk result (λ made. IsLaidOut made) }
        ensures ready { IfOk result (λ made. Expects made []) }
        ensures rising { IfOk result (λ made. IsRising made) }
    {
        if segments < LEAST_SEGMENTS {
            return Err(FormatFault::TooFew);
        }
        if segments > MOST_SEGMENTS {
            return Err(FormatFault::TooMany);
        }
        let mut blocks = Blocks::zeros(alloc, (segments * SEGMENT_BLOCKS) as usize)?;
        blocks.put(0, &[label(segments, inodes)]);
        Ok(Segments {
            blocks,
            active: 0,
            fill: 1,
            serial,
        })
    }

    /// The memory that these blocks are, where a segment is active and so many of its blocks are used, whoever made them;
    /// `None` where they are no volume's: where they aren't 6 to 1,024 whole segments, or have no such segment, or where
    /// its log can't end behind so many blocks. Summaries have no serials.
    pub fn over(blocks: Vec<Block>, active: u32, fill: u32) -> Option<Segments>
        requires { All (λ block. length block ≡ BLOCK_SIZE) blocks.items }
        ensures over { IfSome result (λ memory. memory ≡ seen blocks.items active fill) }
        ensures none { IfNone result (IsLaidOut (seen blocks.items active fill) → ⊥) }
    {
        Segments::over_as(blocks, active, fill, None)
    }

    /// Such a memory whose next summary gets this serial, where there is one; else summaries have none.
    pub fn over_as(
        blocks: Vec<Block>,
        active: u32,
        fill: u32,
        serial: Option<u32>,
    ) -> Option<Segments>
        requires blocks { All (λ block. length block ≡ BLOCK_SIZE) blocks.items }
        requires told { IsNextSerial serial }
        ensures over { IfSome result
            (λ memory. memory ≡ seen_with serial blocks.items active fill) }
        ensures none { IfNone result (IsLaidOut (seen_with serial blocks.items active fill) → ⊥) }
    {
        if is_volume(blocks.len(), active, fill) {
            Some(Segments {
                blocks: Blocks::of(blocks),
                active,
                fill,
                serial,
            })
        } else {
            None
        }
    }

    /// The number of segments, 6 to 1,024.
    pub fn segments(&self) -> u32
        ensures segments { result ≡ self.now.segments }
        ensures laid_out { IsLaidOut self.now }
    {
        self.blocks.len() as u32 / SEGMENT_BLOCKS
    }

    /// The segment that is written.
    pub fn active(&self) -> u32
        ensures active { result ≡ self.now.active }
        ensures laid_out { IsLaidOut self.now }
    {
        self.active
    }

    /// Whether summaries have serials.
    pub fn has_serials(&self) -> bool
        ensures serials { result ≡ has_serials self.now }
        ensures laid_out { IsLaidOut self.now }
    {
        self.serial.is_some()
    }

    /// The serial that the next summary gets, 1 to 2^32 - 1; `None` where summaries have none.
    pub fn serial(&self) -> Option<u32>
        ensures serial { result ≡ self.now.serial }
        ensures told { IsNextSerial result }
        ensures laid_out { IsLaidOut self.now }
    {
        self.serial
    }

    /// The address behind the last block of the active segment: the next block's, where there is
    /// room for one.
    pub fn next_address(&self) -> u32
        ensures address { result ≡ next_address self.now }
        ensures laid_out { IsLaidOut self.now }
    {
        self.active * SEGMENT_BLOCKS + self.fill
    }

    /// The block at an address.
    pub fn block(&self, address: u32) -> &Block
        requires { address < self.now.segments * SEGMENT_BLOCKS }
        ensures block { result.now ≡ block_at self.now address }
        ensures laid_out { IsLaidOut self.now }
    {
        self.blocks.get(address as usize)
    }

    /// How many blocks fit behind those of the active segment.
    pub fn room(&self) -> u32
        ensures room { result ≡ room_of self.now }
        ensures laid_out { IsLaidOut self.now }
    {
        SEGMENT_BLOCKS - self.fill
    }

    /// Writes blocks behind those of the active segment, where they fit, and gives the address of the
    /// first.
    pub fn append(&mut self, blocks: &[Block]) -> u32
        requires { length blocks.now ≤ room_of self.old }
        ensures address { result ≡ next_address self.old }
        ensures appended { self.new ≡ appended self.old blocks.now }
        ensures was_laid_out { IsLaidOut self.old }
        ensures laid_out { IsLaidOut self.new }
    {
        let address = self.active * SEGMENT_BLOCKS + self.fill;
        self.blocks.put(address as usize, blocks);
        self.fill += blocks.len() as u32;
        address
    }

    /// Uses up the serial of a summary.
    pub(crate) fn raise(&mut self)
        ensures raised { self.new ≡ raised self.old }
        ensures was_laid_out { IsLaidOut self.old }
        ensures laid_out { IsLaidOut self.new }
    {
        self.serial = next_serial(self.serial);
    }

    /// Makes a segment the active one. It is filled with zeros first; the label stays.
    pub fn open_next(&mut self, segment: u32)
        requires { segment < self.old.segments }
        ensures opened { self.new ≡ opened self.old segment }
        // Its log expects a summary.
        ensures ready { Expects self.new [] }
        // Which has none.
        ensures rising { IsRising self.old → IsRising self.new }
        ensures was_laid_out { IsLaidOut self.old }
        ensures laid_out { IsLaidOut self.new }
    {
        self.active = segment;
        self.fill = log_start(segment);
        let first = segment * SEGMENT_BLOCKS;
        self.blocks.clear(
            (first + self.fill) as usize,
            (first + SEGMENT_BLOCKS) as usize,
        );
    }
}

/// Whether so many blocks can be a volume's, where a segment is active and so many of its blocks are used.
fn is_volume(count: usize, active: u32, fill: u32) -> bool
    ensures { IsTrue result ↔ IsVolume count active fill }
{
    let segments = count / SEGMENT_BLOCKS as usize;
    count % SEGMENT_BLOCKS as usize == 0
        && LEAST_SEGMENTS as usize <= segments
        && segments <= MOST_SEGMENTS as usize
        && (active as usize) < segments
        && log_start(active) <= fill
        && fill <= SEGMENT_BLOCKS
}

/// The block of a segment at which its log begins: behind the label in segment 0.
pub fn log_start(segment: u32) -> u32
    ensures { result ≡ log_start segment }
{
    if segment == 0 { 1 } else { 0 }
}

/// The block at address 0.
fn label(segments: u32, inodes: u32) -> Block
    ensures { result ≡ label segments inodes }
{
    let mut block = ZERO_BLOCK;
    BigEndian::write_u32(&mut block[..4], MARK);
    BigEndian::write_u32(&mut block[4..8], segments);
    BigEndian::write_u32(&mut block[8..12], inodes);
    block
}
