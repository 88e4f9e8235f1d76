//! The parts of the log, and what they show.

ghost use Rattle.std.specs.Prelude.{◌≡◌, ◌*◌, ◌<◌, ◌↔◌, ℕ, [], length, IfNone, IfOk, IfSome, IsErrOf, IsTrue};
ghost use Rattle.lfs_types.specs.declared.limits.TheConstants.{FIRST_INODE, SEGMENT_BLOCKS};
ghost use Rattle.lfs_ifile.specs.declared.segment.SegState.TheVariants.{Active};
ghost use Rattle.lfs_ifile.specs.Inode.{IsPlace};
ghost use Rattle.lfs_ifile.specs.Layout.{ifile_bytes};
ghost use Rattle.lfs_ifile.specs.Tables.{AreUsed, IsLeastFree, IsTooFew, IsTooMany, blocks_of, place_of, usage_of};
ghost use Rattle.lfs_segments.specs.Log.{Expects};
ghost use Rattle.lfs_segments.specs.Memory.{IsNextSerial, block_at, has_serials, next_address, room_of};
ghost use Rattle.lfs_segments.specs.Rising.{IsRising};
ghost use Rattle.lfs_bmap.specs.Log.{IsEmptyLog, clean_unit};
ghost use Rattle.lfs_log.specs.Parts.{IsActiveAlone, IsParts, clean_count, fresh_parts, fresh_parts_with, log_state};

use lfs_ifile::{Ifile, InodePlace, SegState, SegUse};
use lfs_segments::segments::Segments;
use lfs_types::block::Block;
use lfs_types::fault::FormatFault;
use std::alloc::{AllocError, Global};
use std::marker::Model;

/// The blocks of a volume, how each segment of them is used, where the records stand, and how many
/// segments are clean.
#[derive(Drop)]
pub struct Log {
    pub(crate) segments: Segments,
    pub(crate) ifile: Ifile,
    pub(crate) clean: u32,
}

impl Model for Log {
    ghost use Rattle.lfs_log.specs.Parts.{IsParts, LogParts};

    ghost Value = { LogParts };

    ghost view = { λ l. record { memory = l.segments; tables = l.ifile; clean = l.clean } };

    ghost invariant = { λ l. IsParts (record { memory = l.segments; tables = l.ifile; clean = l.clean }) };
}

/// Whether a segment is active, and no other one is.
fn is_active_alone(ifile: &Ifile, active: u32) -> bool
    requires { active < length ifile.now.live }
    ensures { IsTrue result ↔ IsActiveAlone ifile.now active }
{
    for segment in 0..ifile.segments() {
        if is_active(ifile.usage(segment).state) && segment != active {
            return false;
        }
    }
    is_active(ifile.usage(active).state)
}

/// Whether a segment in a state is the active one.
fn is_active(state: SegState) -> bool
    ensures { IsTrue result ↔ state ≡ Active }
{
    matches!(state, SegState::Active)
}

/// How many segments are clean.
fn count_clean(ifile: &Ifile) -> u32
    ensures { result ≡ clean_count ifile.now (length ifile.now.live) }
{
    let mut clean = 0;
    for segment in 0..ifile.segments() {
        clean += clean_unit(ifile.usage(segment).state);
    }
    clean
}

/// 1 for a clean segment, else 0.
fn clean_unit(state: SegState) -> u32
    ensures { result ≡ clean_unit state }
{
    match state {
        SegState::Clean => 1,
        SegState::Dirty => 0,
        SegState::Active => 0,
    }
}

impl Log {
    /// Lays out a volume of 6 to 1,024 segments and 16 to 4,096 inode numbers. Segment 0 is active,
    /// the others are clean, and no number is used. `TooFew` and `TooMany` are answered outside
    /// these ranges, segments first; `Memory` where a growth was refused. Summaries have no serials.
    pub fn format(alloc: Global, segments: u32, inodes: u32) -> Result<Log, FormatFault>
        ensures too_few { IsErrOf result FormatFault.TooFew ↔ IsTooFew segments inodes }
        ensures too_many { IsErrOf result FormatFault.TooMany ↔ IsTooMany segments inodes }
        ensures fresh { IfOk result (λ made. made ≡ fresh_parts segments inodes) }
        ensures kept { IfOk result IsParts }
        // The log of segment 0 expects a summary.
        ensures ready { IfOk result (λ made. Expects made.memory []) }
        ensures rising { IfOk result (λ made. IsRising made.memory) }
        ensures empty { IfOk result (λ made. IsEmptyLog (log_state made (λ n c. 0))) }
    {
        Log::format_as(alloc, segments, inodes, None)
    }

    /// Lays out such a volume whose first summary gets this serial, where there is one; else
    /// summaries have none.
    pub fn format_as(
        alloc: Global,
        segments: u32,
        inodes: u32,
        serial: Option<u32>,
    ) -> Result<Log, FormatFault>
        requires { IsNextSerial serial }
        ensures too_few { IsErrOf result FormatFault.TooFew ↔ IsTooFew segments inodes }
        ensures too_many { IsErrOf result FormatFault.TooMany ↔ IsTooMany segments inodes }
        ensures fresh { IfOk result (λ made. made ≡ fresh_parts_with serial segments inodes) }
        ensures kept { IfOk result IsParts }
        ensures ready { IfOk result (λ made. Expects made.memory []) }
        ensures rising { IfOk result (λ made. IsRising made.memory) }
        ensures empty { IfOk result (λ made. IsEmptyLog (log_state made (λ n c. 0))) }
    {
        let mut ifile = Ifile::format(alloc, segments, inodes)?;
        let memory = Segments::format_as(alloc, segments, inodes, serial)?;
        ifile.set_state(0, SegState::Active);
        Ok(Log {
            segments: memory,
            ifile,
            clean: segments - 1,
        })
    }

    /// The log of these segments and this ifile, whoever made them; `None` where they don't agree: on the number of
    /// segments, and on which one is active, which must be the only one.
    pub fn over(segments: Segments, ifile: Ifile) -> Option<Log>
        ensures memory { IfSome result (λ log. log.memory ≡ segments) }
        ensures tables { IfSome result (λ log. log.tables ≡ ifile) }
        ensures kept { IfSome result IsParts }
        ensures none { IfNone result ((clean : ℕ)
            → IsParts (record { memory = segments; tables = ifile; clean = clean }) → ⊥) }
    {
        if ifile.segments() != segments.segments() {
            return None;
        }
        if !is_active_alone(&ifile, segments.active()) {
            return None;
        }
        let clean = count_clean(&ifile);
        Some(Log {
            segments,
            ifile,
            clean,
        })
    }

    /// The number of segments, 6 to 1,024.
    pub fn segments(&self) -> u32
        ensures segments { result ≡ self.now.memory.segments }
        ensures kept { IsParts self.now }
    {
        self.segments.segments()
    }

    /// The blocks of all segments, to be looked at.
    pub fn memory(&self) -> &Segments
        ensures { result.now ≡ self.now.memory }
    {
        &self.segments
    }

    /// The number of inode numbers, 16 to 4,096.
    pub fn inodes(&self) -> u32
        ensures inodes { result ≡ length self.now.tables.rows }
        ensures kept { IsParts self.now }
    {
        self.ifile.inodes()
    }

    /// The number of clean segments.
    pub fn clean(&self) -> u32
        ensures clean { result ≡ self.now.clean }
        ensures kept { IsParts self.now }
    {
        self.clean
    }

    /// The segment that is written.
    pub fn active(&self) -> u32
        ensures active { result ≡ self.now.memory.active }
        ensures kept { IsParts self.now }
    {
        self.segments.active()
    }

    /// Whether summaries have serials.
    pub fn has_serials(&self) -> bool
        ensures serials { result ≡ has_serials self.now.memory }
        ensures kept { IsParts self.now }
    {
        self.segments.has_serials()
    }

    /// The serial that the next summary gets, 1 to 2^32 - 1; `None` where summaries have none.
    pub fn serial(&self) -> Option<u32>
        ensures serial { result ≡ self.now.memory.serial }
        ensures told { IsNextSerial result }
        ensures kept { IsParts self.now }
    {
        self.segments.serial()
    }

    /// The address behind the last block of the active segment: the next block's, where there is
    /// room for one.
    pub fn next_address(&self) -> u32
        ensures address { result ≡ next_address self.now.memory }
        ensures kept { IsParts self.now }
    {
        self.segments.next_address()
    }

    /// How many blocks the active segment has left.
    pub fn room(&self) -> u32
        ensures room { result ≡ room_of self.now.memory }
        ensures kept { IsParts self.now }
    {
        self.segments.room()
    }

    /// The block at an address.
    pub fn block(&self, address: u32) -> &Block
        requires { address < self.now.memory.segments * SEGMENT_BLOCKS }
        ensures block { result.now ≡ block_at self.now.memory address }
        ensures kept { IsParts self.now }
    {
        self.segments.block(address)
    }

    /// How a segment is used.
    pub fn usage(&self, segment: u32) -> SegUse
        requires { segment < self.now.memory.segments }
        ensures usage { result ≡ usage_of self.now.tables segment }
        ensures kept { IsParts self.now }
    {
        self.ifile.usage(segment)
    }

    /// Where the record of an inode number stands; `None` where the number is unused.
    pub fn place(&self, number: u32) -> Option<InodePlace>
        requires { number < length self.now.tables.rows }
        ensures place { result ≡ place_of self.now.tables number }
        ensures bounds { IfSome result (IsPlace (blocks_of self.now.tables)) }
        ensures kept { IsParts self.now }
    {
        self.ifile.place(number)
    }

    /// The least unused number from 4 up; `None` where all of them are used.
    pub fn least_free(&self) -> Option<u32>
        ensures some { IfSome result (IsLeastFree self.now.tables.rows) }
        ensures none { IfNone result
            (AreUsed self.now.tables.rows FIRST_INODE (length self.now.tables.rows)) }
        ensures kept { IsParts self.now }
    {
        self.ifile.least_free()
    }

    /// The bytes of the ifile.
    pub fn ifile_bytes(&self) -> Result<Vec<u8>, AllocError>
        ensures { IfOk result (λ bytes. bytes.items ≡ ifile_bytes self.now.tables) }
    {
        self.ifile.bytes()
    }
}
