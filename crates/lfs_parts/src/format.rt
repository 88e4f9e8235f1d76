//! Laying out a volume.

ghost use Rattle.std.specs.Prelude.{◌≡◌, ◌≤◌, ◌<◌, ◌↔◌, [], length, IfOk, IsErrOf, OnOk};
ghost use Rattle.lfs_types.specs.Ranges.{least_frames, most_frames};
ghost use Rattle.lfs_cache.specs.Changes.{IsContents};
ghost use Rattle.lfs_cache.specs.Contents.{nothing_in};
ghost use Rattle.lfs_types.specs.Tree.{attrs_of, fresh_root, opening_content};
ghost use Rattle.lfs_segments.specs.Log.{Expects};
ghost use Rattle.lfs_segments.specs.Memory.{IsNextSerial, block_at};
ghost use Rattle.lfs_segments.specs.Rising.{IsRising};
ghost use Rattle.lfs_log.specs.Parts.{IsParts};
ghost use Rattle.lfs_parts.specs.Files.{content_of};
ghost use Rattle.lfs_parts.specs.Opening.{HasRootBlock, HasRootRow, IsOpening, IsOpeningWith, IsTooFew, IsTooMany, fresh_used};
ghost use Rattle.lfs_parts.specs.Store.{IsFlushed, IsStore};

use crate::parts::Parts;
use crate::records::Records;
use lfs_cache::Cache;
use lfs_inodes::inode::Inode;
use lfs_log::Log;
use lfs_log::packing::packed;
use lfs_segments::entry::{LogicalBlock, SummaryEntry};
use lfs_types::attrs::{Attrs, Kind};
use lfs_types::fault::FormatFault;
use lfs_types::file_flags::FileFlags;
use lfs_types::limits::{
    LEAST_FRAMES, LEAST_INODES, LEAST_SEGMENTS, MOST_FRAMES, MOST_INODES, MOST_SEGMENTS, ROOT_INODE,
};
use lfs_types::mode::Mode;
use std::alloc::{AllocError, Global};

impl Parts {
    /// The parts of a volume of 6 to 1,024 segments, 16 to 4,096 inode numbers and 32 to 1,024 frames,
    /// with the root directory alone: else `TooFew` or `TooMany` for the first of the three that is
    /// out of its range. `Memory` where a growth is refused; no later call takes memory. Summaries
    /// have no serials.
    pub fn format(
        alloc: Global,
        segments: u32,
        inodes: u32,
        frames: u32,
    ) -> Result<Parts, FormatFault>
        ensures too_few { IsErrOf result FormatFault.TooFew ↔ IsTooFew segments inodes frames }
        ensures too_many { IsErrOf result FormatFault.TooMany ↔ IsTooMany segments inodes frames }
        ensures opening { IfOk result (IsOpening segments inodes frames) }
        ensures content { IfOk result (λ parts. content_of parts ≡ opening_content) }
        ensures store { IfOk result IsStore }
        ensures flushed { IfOk result IsFlushed }
        ensures rising { IfOk result (λ parts. IsRising parts.log.memory) }
    {
        Parts::format_as(alloc, segments, inodes, frames, None)
    }

    /// The parts of such a volume whose first summary has this serial, where there is one; else
    /// summaries have none.
    pub fn format_as(
        alloc: Global,
        segments: u32,
        inodes: u32,
        frames: u32,
        serial: Option<u32>,
    ) -> Result<Parts, FormatFault>
        requires { IsNextSerial serial }
        ensures too_few { IsErrOf result FormatFault.TooFew ↔ IsTooFew segments inodes frames }
        ensures too_many { IsErrOf result FormatFault.TooMany ↔ IsTooMany segments inodes frames }
        ensures opening { IfOk result (IsOpeningWith serial segments inodes frames) }
        ensures content { IfOk result (λ parts. content_of parts ≡ opening_content) }
        ensures store { IfOk result IsStore }
        ensures flushed { IfOk result IsFlushed }
        ensures rising { IfOk result (λ parts. IsRising parts.log.memory) }
    {
        check_numbers(segments, inodes, frames)?;
        let mut log = Log::format_as(alloc, segments, inodes, serial)?;
        write_root(&mut log);
        enter_root(&mut log);
        Ok(Parts::over(alloc, log, frames)?)
    }

    /// The parts over a log, with a cache of so many frames, 32 to 1,024, and room for what is to wait.
    /// Nothing waits yet.
    pub fn over(alloc: Global, log: Log, frames: u32) -> Result<Parts, AllocError>
        requires at_least { least_frames ≤ frames }
        requires at_most { frames ≤ most_frames }
        ensures log { IfOk result (λ parts. parts.log ≡ log) }
        ensures cache { IfOk result (λ parts. parts.cache ≡ nothing_in frames) }
        ensures formed { IfOk result (λ parts. IsContents parts.cache) }
        ensures no_record { IfOk result (λ parts. parts.waiting ≡ []) }
    {
        let cache = Cache::new(alloc, frames)?;
        let waiting = Records::new(alloc)?;
        Ok(Parts {
            log,
            cache,
            waiting,
        })
    }
}

/// Whether the numbers of a volume are in their ranges, asked in this order.
fn check_numbers(segments: u32, inodes: u32, frames: u32) -> Result<(), FormatFault>
    ensures too_few { IsErrOf result FormatFault.TooFew ↔ IsTooFew segments inodes frames }
    ensures too_many { IsErrOf result FormatFault.TooMany ↔ IsTooMany segments inodes frames }
    ensures no_memory { IsErrOf result FormatFault.Memory → ⊥ }
    ensures frames { OnOk result ((least_frames ≤ frames) × (frames ≤ most_frames)) }
{
    check_range(segments, LEAST_SEGMENTS, MOST_SEGMENTS)?;
    check_range(inodes, LEAST_INODES, MOST_INODES)?;
    check_range(frames, LEAST_FRAMES, MOST_FRAMES)
}

/// Whether a number is in a range.
fn check_range(number: u32, least: u32, most: u32) -> Result<(), FormatFault>
    requires { least ≤ most }
    ensures too_few { IsErrOf result FormatFault.TooFew ↔ (number < least) }
    ensures too_many { IsErrOf result FormatFault.TooMany ↔ (most < number) }
    ensures no_memory { IsErrOf result FormatFault.Memory → ⊥ }
    ensures in_range { OnOk result ((least ≤ number) × (number ≤ most)) }
{
    if number < least {
        return Err(FormatFault::TooFew);
    }
    if number > most {
        return Err(FormatFault::TooMany);
    }
    Ok(())
}

/// Writes the root's record into the log of a fresh volume, as its first partial segment.
fn write_root(log: &mut Log)
    requires active { log.old.memory.active ≡ 0 }
    requires filled { log.old.memory.fill ≡ 1 }
    requires ready { Expects log.old.memory [] }
    ensures written { HasRootBlock log.old.memory.serial log.new.memory }
    ensures rising { IsRising log.old.memory → IsRising log.new.memory }
    ensures label { block_at log.new.memory 0 ≡ block_at log.old.memory 0 }
    ensures size { log.new.memory.segments ≡ log.old.memory.segments }
    ensures tables { log.new.tables ≡ log.old.tables }
    ensures clean { log.new.clean ≡ log.old.clean }
    ensures kept { IsParts log.new }
{
    let root = Inode::new(ROOT_INODE, 1, &root_attrs());
    log.begin(&[SummaryEntry {
        number: 0,
        version: 0,
        block: LogicalBlock::Inodes,
    }]);
    log.put(&packed(&[root]));
}

/// Enters the root and its record into a fresh inode map.
fn enter_root(log: &mut Log)
    requires fresh { log.old.tables ≡ fresh_used (length log.old.tables.live) (length log.old.tables.rows) }
    requires formed { IsParts log.old }
    ensures entered { HasRootRow (length log.old.tables.live) (length log.old.tables.rows) log.new.tables }
    ensures memory { log.new.memory ≡ log.old.memory }
    ensures clean { log.new.clean ≡ log.old.clean }
    ensures kept { IsParts log.new }
{
    log.give_out(ROOT_INODE);
    log.place_record(ROOT_INODE, 2, 0);
}

/// The attributes of the root directory of a fresh volume.
fn root_attrs() -> Attrs
    ensures { result ≡ attrs_of fresh_root }
{
    let Some(mode) = Mode::new(0o755) else {
        // Never: the number is a mode.
        unreachable!()
    };
    Attrs {
        kind: Kind::Directory,
        uid: 0,
        gid: 0,
        mode,
        flags: FileFlags::none(),
        size: 0,
    }
}
