//! A log, checked from its end to its live bytes.

ghost use Rattle.std.specs.Prelude.{◌≡◌, ◌+◌, ◌*◌, ◌-◌, ◌<◌, ◌≤◌, ℕ, [], IfErr, IfOk, OnOk, length};
ghost use Rattle.lfs_types.specs.declared.limits.TheConstants.{SEGMENT_BLOCKS};
ghost use Rattle.lfs_segments.specs.Log.{Expects};
ghost use Rattle.lfs_segments.specs.Memory.{next_address};
ghost use Rattle.lfs_bmap.specs.declared.blocks.TheConstants.{BLOCK_CODES};
ghost use Rattle.lfs_log.specs.Parts.{IsParts, live_of};
ghost use Rattle.lfs_parts.specs.Store.{IsStore};
ghost use Rattle.lfs_fsck.specs.declared.fault.LogFault.TheVariants.{Memory};
ghost use Rattle.lfs_fsck.specs.Checks.{AreChecked, IsCounted, IsFine, IsLive, IsRecordOf};
ghost use Rattle.lfs_fsck.specs.Faults.{IsFileFaultOf, IsLogFaultOf};
ghost use Rattle.lfs_fsck.specs.Names.{AreNames};
ghost use Rattle.lfs_fsck.specs.Stored.{IsStored, stored};

use crate::blocks::{address_of, block_with};
use crate::counting::{count_block, count_record};
use crate::ending::check_end;
use crate::fault::LogFault;
use crate::names::names;
use crate::records::record_of;
use crate::tail::check_tail;
use lfs_bmap::blocks::{FileBlock, TABLE_CELLS};
use lfs_inodes::inode::Inode;
use lfs_log::Log;
use lfs_segments::entry::SummaryEntry;
use lfs_types::block::BLOCK_SIZE;
use lfs_types::limits::SEGMENT_BLOCKS;
use std::alloc::{AllocError, Global};
use std::ops::Range;

/// The code of the first data block under a child of the double indirect block.
const FIRST_CHILD_DATA: u32 = 271;

/// Ok where a store may stand on the log, with nothing waiting, and otherwise what is wrong. It reads each block that a
/// file has once or twice, and takes memory for an entry for each block of the volume and a count for each segment;
/// Memory says that there was none, and nothing of the log.
pub fn check_log(alloc: Global, log: &Log) -> Result<(), LogFault>
    ensures ok { OnOk result (IsStored log.now) }
    ensures fault { IfErr result (IsLogFaultOf log.now) }
    ensures no_store { IfErr result (λ fault. (fault ≡ Memory → ⊥)
        → (frames : ℕ) → IsStore (stored frames log.now) → ⊥) }
{
    check_parts(alloc, log)
}

/// What `check_log` says.
fn check_parts(alloc: Global, log: &Log) -> Result<(), LogFault>
    ensures ok { OnOk result (IsStored log.now) }
    ensures fault { IfErr result (IsLogFaultOf log.now) }
{
    let counts = count_live(alloc, log)?;
    check_live(log, &counts)?;
    check_room(log)?;
    Ok(())
}

/// The bytes of each segment that the files of a log have there, which its ifile is to tell as live; or what is wrong
/// with the log, its counts of live bytes aside.
pub fn count_live(alloc: Global, log: &Log) -> Result<Vec<u64>, LogFault>
    ensures end { OnOk result (Expects log.now.memory []) }
    ensures counted { IfOk result (λ counts.
        IsCounted log.now (length log.now.tables.rows) 0 counts.items) }
    ensures files { OnOk result (AreChecked log.now (length log.now.tables.rows)) }
    ensures fault { IfErr result (IsFileFaultOf log.now) }
{
    check_end(log)?;
    let names = names(alloc, log)?;
    let mut counts = no_counts(alloc, log)?;
    check_numbers(log, &names, &mut counts)?;
    Ok(counts)
}

/// A count of no bytes for each segment.
fn no_counts(alloc: Global, log: &Log) -> Result<Vec<u64>, AllocError>
    ensures { IfOk result (λ counts. IsCounted log.now 0 0 counts.items) }
{
    Ok(vec![in alloc; 0; log.segments() as usize]?)
}

/// What is wrong with the first number in use of which something is.
fn check_numbers(
    log: &Log,
    names: &[Option<SummaryEntry>],
    counts: &mut Vec<u64>,
) -> Result<(), LogFault>
    requires names { AreNames log.now.memory (log.now.memory.segments * 64) names.now }
    requires so_far { IsCounted log.now 0 0 counts.old.items }
    ensures counted { OnOk result
        (IsCounted log.now (length log.now.tables.rows) 0 counts.new.items) }
    ensures files { OnOk result (AreChecked log.now (length log.now.tables.rows)) }
    ensures fault { IfErr result (IsFileFaultOf log.now) }
{
    for number in 0..log.inodes() {
        check_number(log, names, counts, number)?;
    }
    Ok(())
}

/// What is wrong with a number, if it is in use.
fn check_number(
    log: &Log,
    names: &[Option<SummaryEntry>],
    counts: &mut Vec<u64>,
    number: u32,
) -> Result<(), LogFault>
    requires below { number < length log.now.tables.rows }
    requires names { AreNames log.now.memory (log.now.memory.segments * 64) names.now }
    requires so_far { IsCounted log.now number 0 counts.old.items }
    ensures counted { OnOk result (IsCounted log.now (number + 1) 0 counts.new.items) }
    ensures file { OnOk result (IsFine log.now number) }
    ensures fault { IfErr result (IsFileFaultOf log.now) }
{
    let Some(place) = log.place(number) else {
        return Ok(());
    };
    let inode = record_of(log, number, place)?;
    count_record(log, names, counts, &inode, place)?;
    count_codes(log, names, counts, &inode, 1..FIRST_CHILD_DATA)?;
    count_children(log, names, counts, &inode)?;
    check_tail(log, &inode)?;
    Ok(())
}

/// Counts the blocks of a file with these codes.
fn count_codes(
    log: &Log,
    names: &[Option<SummaryEntry>],
    counts: &mut Vec<u64>,
    inode: &Inode,
    codes: Range<u32>,
) -> Result<(), LogFault>
    requires parts { IsParts log.now }
    requires own { IsRecordOf log.now inode.now }
    requires names { AreNames log.now.memory (log.now.memory.segments * 64) names.now }
    requires some { 0 < codes.start }
    requires ordered { codes.start ≤ codes.end }
    requires few { codes.end ≤ BLOCK_CODES }
    requires so_far { IsCounted log.now inode.now.number codes.start counts.old.items }
    ensures ok { OnOk result (IsCounted log.now inode.now.number codes.end counts.new.items) }
    ensures fault { IfErr result (IsFileFaultOf log.now) }
{
    for code in codes.start..codes.end {
        count_block(log, names, counts, inode, block_with(code))?;
    }
    Ok(())
}

/// Counts the data blocks under the children of the double indirect block.
fn count_children(
    log: &Log,
    names: &[Option<SummaryEntry>],
    counts: &mut Vec<u64>,
    inode: &Inode,
) -> Result<(), LogFault>
    requires parts { IsParts log.now }
    requires own { IsRecordOf log.now inode.now }
    requires names { AreNames log.now.memory (log.now.memory.segments * 64) names.now }
    requires so_far { IsCounted log.now inode.now.number 271 counts.old.items }
    ensures ok { OnOk result (IsCounted log.now inode.now.number BLOCK_CODES counts.new.items) }
    ensures fault { IfErr result (IsFileFaultOf log.now) }
{
    for child in 0..TABLE_CELLS {
        count_child(log, names, counts, inode, child)?;
    }
    Ok(())
}

/// Counts the data blocks under a child of the double indirect block, which has none where it has no address.
fn count_child(
    log: &Log,
    names: &[Option<SummaryEntry>],
    counts: &mut Vec<u64>,
    inode: &Inode,
    child: u32,
) -> Result<(), LogFault>
    requires parts { IsParts log.now }
    requires own { IsRecordOf log.now inode.now }
    requires child { child < 128 }
    requires names { AreNames log.now.memory (log.now.memory.segments * 64) names.now }
    requires so_far { IsCounted log.now inode.now.number (271 + 128 * child) counts.old.items }
    ensures ok { OnOk result
        (IsCounted log.now inode.now.number (271 + 128 * child + 128) counts.new.items) }
    ensures fault { IfErr result (IsFileFaultOf log.now) }
{
    if address_of(log, inode, FileBlock::Child(child as u8)) == 0 {
        return Ok(());
    }
    let first = FIRST_CHILD_DATA + TABLE_CELLS * child;
    count_codes(log, names, counts, inode, first..first + TABLE_CELLS)
}

/// Live at the first segment whose live bytes are others than those that were counted.
fn check_live(log: &Log, counts: &[u64]) -> Result<(), LogFault>
    requires counted { IsCounted log.now (length log.now.tables.rows) 0 counts.now }
    ensures ok { OnOk result ((s : ℕ) → s < log.now.memory.segments → IsLive log.now s) }
    ensures fault { IfErr result (IsLogFaultOf log.now) }
{
    for segment in 0..log.segments() {
        check_segment(log, counts, segment)?;
    }
    Ok(())
}

/// Live where a segment's live bytes are others than those that were counted.
fn check_segment(log: &Log, counts: &[u64], segment: u32) -> Result<(), LogFault>
    requires counted { IsCounted log.now (length log.now.tables.rows) 0 counts.now }
    requires inside { segment < log.now.memory.segments }
    ensures ok { OnOk result (IsLive log.now segment) }
    ensures fault { IfErr result (IsLogFaultOf log.now) }
{
    let live = u64::from(log.usage(segment).live);
    if live == counts[segment as usize] {
        Ok(())
    } else {
        Err(LogFault::Live { segment })
    }
}

/// Crowded where the active segment has more live bytes than were written.
fn check_room(log: &Log) -> Result<(), LogFault>
    ensures kept { IsParts log.now }
    ensures ok { OnOk result (live_of log.now.tables log.now.memory.active
        ≤ 512 * (next_address log.now.memory - SEGMENT_BLOCKS * log.now.memory.active)) }
    ensures fault { IfErr result (IsLogFaultOf log.now) }
{
    let segment = log.active();
    let written = log.next_address() - segment * SEGMENT_BLOCKS;
    if log.usage(segment).live > written * BLOCK_SIZE as u32 {
        return Err(LogFault::Crowded { segment });
    }
    Ok(())
}
