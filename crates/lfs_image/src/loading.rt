//! Reading an image.

ghost use Rattle.std.specs.Prelude.{◌≡◌, ◌+◌, ◌*◌, ◌++◌, ◌≤◌, ◌↔◌, All, IfErr, IfOk, IsTrue, OnOk, drop, length};
ghost use Rattle.std.specs.List.{flat_map};
ghost use Rattle.lfs_types.specs.declared.block.TheConstants.{BLOCK_SIZE};
ghost use Rattle.lfs_types.specs.declared.level.Level.{Level};
ghost use Rattle.lfs_types.specs.Ranges.{least_frames, most_frames};
ghost use Rattle.lfs_segments.specs.Memory.{label};
ghost use Rattle.lfs_ifile.specs.Layout.{ifile_bytes};
ghost use Rattle.lfs_log.specs.Parts.{IsParts, LogParts};
ghost use Rattle.lfs_fsck.specs.Stored.{IsStored, stored};
ghost use Rattle.lfs_image.specs.declared.fault.ImageFault.TheVariants.{Memory};
ghost use Rattle.lfs_image.specs.Faults.{IsImageFaultOf};
ghost use Rattle.lfs_image.specs.Heads.{MayHead, ReadsHead, ifile_place, length_told};
ghost use Rattle.lfs_image.specs.Image.{IsImageOf, IsLabelled, body_bytes, head_of, image_bytes};

use crate::fault::ImageFault;
use crate::head::{Head, block_from};
use byteorder::{BigEndian, ByteOrder};
use lfs_fsck::{LogFault, check_log};
use lfs_ifile::{Ifile, IfileFault};
use lfs_log::Log;
use lfs_logstore::LogStore;
use lfs_parts::parts::Parts;
use lfs_segments::segments::Segments;
use lfs_types::block::{BLOCK_SIZE, Block, ZERO_BLOCK};
use lfs_types::level::Level;
use lfs_types::limits::SEGMENT_BLOCKS;
use std::alloc::{AllocError, Global};

/// The first four bytes of the label, `LFS1`.
const LABEL_MARK: u32 = 0x4c46_5331;

/// The store and the securelevel whose image these bytes are, whoever made them, with a cache of so many frames, 32 to
/// 1,024, all empty: else what is wrong with them, or `Memory`. Nothing waits in the store.
pub fn load(alloc: Global, bytes: &[u8], frames: u32) -> Result<(LogStore, Level), ImageFault>
    requires at_least { least_frames ≤ frames }
    requires at_most { frames ≤ most_frames }
    ensures image { IfOk result (λ both. IsImageOf bytes.now both.0.log both.1) }
    // They are the image of no other log, and at no other securelevel.
    ensures only { IfOk result (λ both. (l : LogParts) (level : Level) → IsImageOf bytes.now l level
        → (l ≡ both.0.log) × (level ≡ both.1)) }
    ensures stored { IfOk result (λ both. IsStored both.0.log) }
    ensures flushed { IfOk result (λ both. both.0 ≡ stored frames both.0.log) }
    ensures labelled { IfOk result (λ both. IsLabelled both.0.log) }
    ensures fault { IfErr result (IsImageFaultOf bytes.now) }
    // Where there is a fault, but for want of memory, they are the image of no store.
    ensures none { IfErr result (λ fault. (fault ≡ Memory → ⊥) → (l : LogParts) (level : Level)
        → IsStored l → IsLabelled l → image_bytes l level ≡ bytes.now → ⊥) }
{
    load_parts(alloc, bytes, frames)
}

/// What `load` gives.
fn load_parts(alloc: Global, bytes: &[u8], frames: u32) -> Result<(LogStore, Level), ImageFault>
    requires at_least { least_frames ≤ frames }
    requires at_most { frames ≤ most_frames }
    ensures image { IfOk result (λ both. IsImageOf bytes.now both.0.log both.1) }
    ensures only { IfOk result (λ both. (l : LogParts) (level : Level) → IsImageOf bytes.now l level
        → (l ≡ both.0.log) × (level ≡ both.1)) }
    ensures stored { IfOk result (λ both. IsStored both.0.log) }
    ensures flushed { IfOk result (λ both. both.0 ≡ stored frames both.0.log) }
    ensures labelled { IfOk result (λ both. IsLabelled both.0.log) }
    ensures fault { IfErr result (IsImageFaultOf bytes.now) }
{
    let head = Head::read(bytes)?;
    let log = read_log(alloc, &head, bytes)?;
    check_label(&log, head.level, bytes)?;
    check_store(alloc, &log, head.level, bytes)?;
    let store = store_over(alloc, log, frames)?;
    Ok((store, head.level))
}

/// The store over a log on which one may stand.
fn store_over(alloc: Global, log: Log, frames: u32) -> Result<LogStore, AllocError>
    requires stored { IsStored log }
    requires at_least { least_frames ≤ frames }
    requires at_most { frames ≤ most_frames }
    ensures { IfOk result (λ store. store ≡ stored frames log) }
{
    let parts = Parts::over(alloc, log, frames)?;
    Ok(LogStore::over(parts))
}

/// Whether the block at address 0 of a log is its label.
fn check_label(log: &Log, level: Level, bytes: &[u8]) -> Result<(), ImageFault>
    requires { IsImageOf bytes.now log.now level }
    ensures ok { OnOk result (IsLabelled log.now) }
    ensures fault { IfErr result (IsImageFaultOf bytes.now) }
{
    if is_labelled(log) {
        Ok(())
    } else {
        Err(ImageFault::Label)
    }
}

/// Whether a store may stand on a log.
fn check_store(alloc: Global, log: &Log, level: Level, bytes: &[u8]) -> Result<(), ImageFault>
    requires { IsImageOf bytes.now log.now level }
    ensures ok { OnOk result (IsStored log.now) }
    ensures fault { IfErr result (IsImageFaultOf bytes.now) }
{
    match check_log(alloc, log) {
        Ok(()) => Ok(()),
        Err(LogFault::Memory) => Err(ImageFault::Memory),
        Err(fault) => Err(ImageFault::Log { fault }),
    }
}

/// The log whose blocks and ifile stand behind a head.
fn read_log(alloc: Global, head: &Head, bytes: &[u8]) -> Result<Log, ImageFault>
    requires long { BLOCK_SIZE ≤ length bytes.now }
    requires reads { ReadsHead bytes.now head.now }
    requires range { MayHead head.now }
    ensures head { IfOk result (λ log. head_of log head.now.level ≡ head.now) }
    ensures body { IfOk result (λ log. body_bytes log ≡ drop BLOCK_SIZE bytes.now) }
    ensures parts { IfOk result IsParts }
    ensures fault { IfErr result (IsImageFaultOf bytes.now) }
{
    check_length(head, bytes)?;
    let count = head.segments * SEGMENT_BLOCKS;
    let blocks = read_blocks(alloc, &bytes[BLOCK_SIZE..], count)?;
    let Some(segments) = Segments::over_as(blocks, head.active, head.used, head.serial) else {
        // Never: by `range` of the head.
        unreachable!()
    };
    let ifile = read_ifile(alloc, BLOCK_SIZE + BLOCK_SIZE * count as usize, bytes)?;
    let log = joined(head, segments, ifile, bytes)?;
    Ok(log)
}

/// Whether so many bytes are those that a head tells of.
fn check_length(head: &Head, bytes: &[u8]) -> Result<(), ImageFault>
    requires reads { ReadsHead bytes.now head.now }
    requires range { MayHead head.now }
    ensures ok { OnOk result (length bytes.now ≡ length_told bytes.now) }
    ensures fault { IfErr result (IsImageFaultOf bytes.now) }
{
    let blocks = BLOCK_SIZE + BLOCK_SIZE * (head.segments * SEGMENT_BLOCKS) as usize;
    let told = blocks + (12 + 8 * head.segments as usize + 12 * head.inodes as usize);
    if bytes.len() < told {
        return Err(ImageFault::Short);
    }
    if bytes.len() > told {
        return Err(ImageFault::Long);
    }
    Ok(())
}

/// So many blocks, with which some bytes begin.
///
/// # Errors
///
/// A growth was refused.
pub fn read_blocks(alloc: Global, bytes: &[u8], count: u32) -> Result<Vec<Block>, AllocError>
    requires { BLOCK_SIZE * count ≤ length bytes.now }
    ensures many { IfOk result (λ blocks. length blocks.items ≡ count) }
    ensures each { IfOk result (λ blocks. All (λ block. length block ≡ BLOCK_SIZE) blocks.items) }
    ensures read { IfOk result (λ blocks. flat_map (λ block. block) blocks.items
        ++ drop (BLOCK_SIZE * count) bytes.now ≡ bytes.now) }
{
    let mut blocks = Vec::with_capacity(alloc, count as usize)?;
    for k in 0..count {
        blocks.push(block_from(bytes, BLOCK_SIZE * k as usize))?;
    }
    Ok(blocks)
}

/// The ifile that stands behind the blocks.
fn read_ifile(alloc: Global, place: usize, bytes: &[u8]) -> Result<Ifile, ImageFault>
    requires inside { place ≤ length bytes.now }
    requires behind { place ≡ ifile_place bytes.now }
    ensures spelled { IfOk result (λ ifile. ifile_bytes ifile ≡ drop place bytes.now) }
    ensures fault { IfErr result (IsImageFaultOf bytes.now) }
{
    match Ifile::read(alloc, &bytes[place..]) {
        Ok(ifile) => Ok(ifile),
        Err(IfileFault::Head) => Err(ImageFault::IfileHead),
        Err(IfileFault::Segment { segment }) => Err(ImageFault::IfileSegment { segment }),
        Err(IfileFault::Row { number }) => Err(ImageFault::IfileRow { number }),
        Err(IfileFault::Memory) => Err(ImageFault::Memory),
    }
}

/// The log of a head's blocks and of an ifile behind them, where the ifile agrees with the head.
fn joined(head: &Head, segments: Segments, ifile: Ifile, bytes: &[u8]) -> Result<Log, ImageFault>
    requires reads { ReadsHead bytes.now head.now }
    requires blocks { segments.segments ≡ head.now.segments }
    requires active { segments.active ≡ head.now.active }
    requires stands { ifile_bytes ifile ≡ drop (ifile_place bytes.now) bytes.now }
    ensures memory { IfOk result (λ log. log.memory ≡ segments) }
    ensures tables { IfOk result (λ log. log.tables ≡ ifile) }
    ensures inodes { IfOk result (λ log. length log.tables.rows ≡ head.now.inodes) }
    ensures parts { IfOk result IsParts }
    ensures fault { IfErr result (IsImageFaultOf bytes.now) }
{
    if ifile.inodes() != head.inodes {
        return Err(ImageFault::Apart);
    }
    match Log::over(segments, ifile) {
        Some(log) => Ok(log),
        None => Err(ImageFault::Apart),
    }
}

/// Whether the block at address 0 of a log is its label, of as many segments and inode numbers.
pub fn is_labelled(log: &Log) -> bool
    ensures { IsTrue result ↔ IsLabelled log.now }
{
    let wanted = label(log.segments(), log.inodes());
    log.block(0) == &wanted
}

/// The label: the mark, the numbers of segments and of inode numbers, zeros.
fn label(segments: u32, inodes: u32) -> Block
    ensures { result ≡ label segments inodes }
{
    let mut block = ZERO_BLOCK;
    BigEndian::write_u32(&mut block[..4], LABEL_MARK);
    BigEndian::write_u32(&mut block[4..8], segments);
    BigEndian::write_u32(&mut block[8..12], inodes);
    block
}
