//! Keys one by one: where each lies, what the log names there, and its live bytes.

ghost use Rattle.std.specs.Prelude.{◌≡◌, ◌≢◌, ◌↔◌, ◌+◌, ◌*◌, ◌/◌, ◌<◌, ◌^◌, IsTrue, Some, IfErr, OnOk, length, slice_index, slice_set};
ghost use Rattle.lfs_ifile.specs.Tables.{place_of};
ghost use Rattle.lfs_bmap.specs.Blocks.{IsFileBlock, code_of, file_block_of, way_to};
ghost use Rattle.lfs_bmap.specs.Log.{IsPlaced};
ghost use Rattle.lfs_fsck.specs.Checks.{IsCounted, IsLaid, IsOwned, IsRecordOf};
ghost use Rattle.lfs_fsck.specs.Faults.{IsFileFaultOf};
ghost use Rattle.lfs_fsck.specs.Names.{AreNames, IsNameOf, IsOfRecords};
ghost use Rattle.lfs_fsck.specs.Stored.{keys_of, flushed};
ghost use Rattle.lfs_bmap.specs.Reading.{address};
ghost use Rattle.lfs_log.specs.Parts.{IsParts};
ghost use Rattle.lfs_parts.specs.Store.{IsWithin};
ghost use Rattle.lfs_parts.specs.View.{tree_of};

use crate::blocks::{address_of, within};
use crate::fault::LogFault;
use lfs_bmap::blocks::{FIRST_CHILD_CODE, FIRST_DATA_CODE, FileBlock};
use lfs_ifile::{InodePlace, SegState};
use lfs_inodes::inode::Inode;
use lfs_log::Log;
use lfs_segments::entry::{LogicalBlock, SummaryEntry};
use lfs_types::block::BLOCK_SIZE;
use lfs_types::limits::SEGMENT_BLOCKS;

/// Outside, InClean or Unwritten where a key may not lie at its address.
fn check_place(log: &Log, number: u32, code: u32, address: u32) -> Result<(), LogFault>
    requires key { IsPlaced (keys_of log.now) number code }
    requires here { (keys_of log.now).at number code / 4 ≡ address }
    ensures ok { OnOk result (IsLaid (keys_of log.now) ((keys_of log.now).at number code)) }
    ensures fault { IfErr result (IsFileFaultOf log.now) }
{
    let segment = address / SEGMENT_BLOCKS;
    if segment >= log.segments() {
        return Err(LogFault::Outside { number, code });
    }
    if let SegState::Clean = log.usage(segment).state {
        return Err(LogFault::InClean { number, code });
    }
    if segment == log.active() && address >= log.next_address() {
        return Err(LogFault::Unwritten { number, code });
    }
    Ok(())
}

/// The code of the block that an entry names so.
fn code_named(block: LogicalBlock) -> u64
    ensures { result ≡ code_of (file_block_of block) }
{
    match block {
        LogicalBlock::Inodes => 0,
        LogicalBlock::Single => 1,
        LogicalBlock::Double => 2,
        LogicalBlock::Child(index) => u64::from(FIRST_CHILD_CODE) + u64::from(index),
        LogicalBlock::Data(index) => u64::from(FIRST_DATA_CODE) + u64::from(index),
    }
}

/// Whether an entry names the block with a code of a file, which isn't the record.
fn is_name_of(name: Option<SummaryEntry>, inode: &Inode, code: u32) -> bool
    ensures { IsTrue result ↔ IsNameOf name inode.now.number inode.now.version code }
{
    match name {
        Some(entry) => {
            code_named(entry.block) == u64::from(code)
                && entry.number == inode.number
                && entry.version == inode.version
        }
        None => false,
    }
}

/// Whether an entry names a block of records.
fn is_of_records(name: Option<SummaryEntry>) -> bool
    ensures { IsTrue result ↔ IsOfRecords name }
{
    match name {
        Some(entry) => matches!(entry.block, LogicalBlock::Inodes),
        None => false,
    }
}

/// Counts so many live bytes more for a segment.
fn count(counts: &mut Vec<u64>, segment: u32, bytes: u64)
    requires inside { segment < length counts.old.items }
    requires fits { slice_index counts.old.items segment + bytes < 2 ^ 64 }
    ensures { counts.new.items
        ≡ slice_set counts.old.items segment (slice_index counts.old.items segment + bytes) }
{
    counts[segment as usize] += bytes;
}

/// Misnamed where the log names another block, or none, at the address of a block of a file.
fn check_name(
    log: &Log,
    names: &[Option<SummaryEntry>],
    inode: &Inode,
    code: u32,
    address: u32,
) -> Result<(), LogFault>
    requires own { IsRecordOf log.now inode.now }
    requires names { AreNames log.now.memory (log.now.memory.segments * 64) names.now }
    requires inside { address < log.now.memory.segments * 64 }
    requires other { code ≢ 0 }
    requires key { IsPlaced (keys_of log.now) inode.now.number code }
    requires here { (keys_of log.now).at inode.now.number code ≡ 4 * address }
    ensures ok { OnOk result (IsOwned (keys_of log.now) inode.now.number code) }
    ensures fault { IfErr result (IsFileFaultOf log.now) }
{
    if is_name_of(names[address as usize], inode, code) {
        Ok(())
    } else {
        Err(LogFault::Misnamed {
            number: inode.number,
            code,
        })
    }
}

/// Misnamed where the log names no block of records at the place of a number's record.
fn check_record_name(
    log: &Log,
    names: &[Option<SummaryEntry>],
    inode: &Inode,
    place: InodePlace,
) -> Result<(), LogFault>
    requires parts { IsParts log.now }
    requires own { IsRecordOf log.now inode.now }
    requires names { AreNames log.now.memory (log.now.memory.segments * 64) names.now }
    requires inside { place.addr < log.now.memory.segments * 64 }
    requires some { place.addr ≢ 0 }
    requires here { place_of log.now.tables inode.now.number ≡ Some place }
    ensures ok { OnOk result (IsOwned (keys_of log.now) inode.now.number 0) }
    ensures fault { IfErr result (IsFileFaultOf log.now) }
{
    if is_of_records(names[place.addr as usize]) {
        Ok(())
    } else {
        Err(LogFault::Misnamed {
            number: inode.number,
            code: 0,
        })
    }
}

/// PastSize where a block of a file that has an address lies past the size.
fn check_size(log: &Log, inode: &Inode, block: FileBlock) -> Result<(), LogFault>
    requires own { IsRecordOf log.now inode.now }
    requires can { IsFileBlock block }
    requires some { address (tree_of (flushed log.now) inode.now.number) (way_to block) ≢ 0 }
    ensures ok { OnOk result (IsWithin block inode.now.size) }
    ensures fault { IfErr result (IsFileFaultOf log.now) }
{
    if within(block, inode.size) {
        Ok(())
    } else {
        Err(LogFault::PastSize {
            number: inode.number,
            code: block.code(),
        })
    }
}

/// Counts the record of a number, whose place this is.
pub(crate) fn count_record(
    log: &Log,
    names: &[Option<SummaryEntry>],
    counts: &mut Vec<u64>,
    inode: &Inode,
    place: InodePlace,
) -> Result<(), LogFault>
    requires parts { IsParts log.now }
    requires own { IsRecordOf log.now inode.now }
    requires here { place_of log.now.tables inode.now.number ≡ Some place }
    requires names { AreNames log.now.memory (log.now.memory.segments * 64) names.now }
    requires so_far { IsCounted log.now inode.now.number 0 counts.old.items }
    ensures ok { OnOk result (IsCounted log.now inode.now.number 1 counts.new.items) }
    ensures fault { IfErr result (IsFileFaultOf log.now) }
{
    if place.addr == 0 {
        return Ok(());
    }
    check_place(log, inode.number, 0, place.addr)?;
    check_record_name(log, names, inode, place)?;
    count(counts, place.addr / SEGMENT_BLOCKS, BLOCK_SIZE as u64 / 4);
    Ok(())
}

/// Counts a block of a file that isn't its record. Those with smaller codes were counted.
pub(crate) fn count_block(
    log: &Log,
    names: &[Option<SummaryEntry>],
    counts: &mut Vec<u64>,
    inode: &Inode,
    block: FileBlock,
) -> Result<(), LogFault>
    requires parts { IsParts log.now }
    requires own { IsRecordOf log.now inode.now }
    requires can { IsFileBlock block }
    requires other { code_of block ≢ 0 }
    requires names { AreNames log.now.memory (log.now.memory.segments * 64) names.now }
    requires so_far { IsCounted log.now inode.now.number (code_of block) counts.old.items }
    ensures ok { OnOk result
        (IsCounted log.now inode.now.number (code_of block + 1) counts.new.items) }
    ensures fault { IfErr result (IsFileFaultOf log.now) }
{
    let code = block.code();
    let address = address_of(log, inode, block);
    if address == 0 {
        return Ok(());
    }
    check_size(log, inode, block)?;
    check_place(log, inode.number, code, address)?;
    check_name(log, names, inode, code, address)?;
    count(counts, address / SEGMENT_BLOCKS, BLOCK_SIZE as u64);
    Ok(())
}
