//! The head of an image: what its first block tells.

ghost use Rattle.std.specs.Prelude.{◌≡◌, ◌+◌, ◌<◌, ◌≤◌, ◌↔◌, IfErr, IfNone, IfOk, IfSome, IsTrue, OnOk, drop, length, take};
ghost use Rattle.lfs_types.specs.declared.block.TheConstants.{BLOCK_SIZE};
ghost use Rattle.lfs_types.specs.declared.limits.TheConstants.{SEGMENT_BLOCKS};
ghost use Rattle.lfs_types.specs.Ranges.{least_inodes, least_segments, most_inodes, most_segments};
ghost use Rattle.lfs_segments.specs.Memory.{IsNextSerial, log_start};
ghost use Rattle.lfs_ifile.specs.Layout.{number_at};
ghost use Rattle.lfs_image.specs.Faults.{IsImageFaultOf};
ghost use Rattle.lfs_image.specs.Heads.{MayHead, ReadsHead};
ghost use Rattle.lfs_image.specs.Image.{head_bytes, head_of, level_word, serial_word};

use crate::fault::ImageFault;
use byteorder::{BigEndian, ByteOrder};
use lfs_log::Log;
use lfs_segments::segments::log_start;
use lfs_types::block::{BLOCK_SIZE, Block, ZERO_BLOCK};
use lfs_types::level::Level;
use lfs_types::limits::{LEAST_INODES, LEAST_SEGMENTS, MOST_INODES, MOST_SEGMENTS, SEGMENT_BLOCKS};

/// `LFSI`, with which an image begins.
const MARK: u32 = 0x4c46_5349;

/// The form of the images that are written and read.
const FORM: u32 = 1;

/// What the head tells.
#[derive(Clone, Copy)]
pub(crate) struct Head {
    /// How many segments there are.
    pub(crate) segments: u32,
    /// How many inode numbers there are.
    pub(crate) inodes: u32,
    /// The active segment.
    pub(crate) active: u32,
    /// How many of its blocks are used.
    pub(crate) used: u32,
    /// The securelevel.
    pub(crate) level: Level,
    /// The serial that the next summary gets, where summaries have serials.
    pub(crate) serial: Option<u32>,
}

impl Head {
    /// What it tells of a log and a securelevel.
    pub(crate) fn of(log: &Log, level: Level) -> Head
        ensures { result ≡ head_of log.now level }
    {
        Head {
            segments: log.segments(),
            inodes: log.inodes(),
            active: log.active(),
            used: log.next_address() - log.active() * SEGMENT_BLOCKS,
            level,
            serial: log.serial(),
        }
    }

    /// Its block.
    pub(crate) fn block(&self) -> Block
        ensures { result ≡ head_bytes self.now }
    {
        let mut block = ZERO_BLOCK;
        BigEndian::write_u32(&mut block[..4], MARK);
        BigEndian::write_u32(&mut block[4..8], FORM);
        BigEndian::write_u32(&mut block[8..12], self.segments);
        BigEndian::write_u32(&mut block[12..16], self.inodes);
        BigEndian::write_u32(&mut block[16..20], self.active);
        BigEndian::write_u32(&mut block[20..24], self.used);
        BigEndian::write_u32(&mut block[24..28], level_word(self.level));
        BigEndian::write_u32(&mut block[28..32], serial_word(self.serial));
        block
    }

    /// The head with which some bytes begin, else why they begin with none that a volume may have.
    pub(crate) fn read(bytes: &[u8]) -> Result<Head, ImageFault>
        ensures long { IfOk result (λ _. BLOCK_SIZE ≤ length bytes.now) }
        ensures told { IfOk result (λ head. take BLOCK_SIZE bytes.now ≡ head_bytes head) }
        ensures reads { IfOk result (ReadsHead bytes.now) }
        ensures range { IfOk result MayHead }
        ensures fault { IfErr result (IsImageFaultOf bytes.now) }
    {
        if bytes.len() < BLOCK_SIZE {
            return Err(ImageFault::Short);
        }
        let head = numbers_of(bytes)?;
        check_sizes(bytes)?;
        check_active(bytes)?;
        if is_head(bytes, &head) {
            Ok(head)
        } else {
            Err(ImageFault::Gap)
        }
    }
}

/// Whether bytes begin with the block of a head.
fn is_head(bytes: &[u8], head: &Head) -> bool
    requires { BLOCK_SIZE ≤ length bytes.now }
    ensures { IsTrue result ↔ take BLOCK_SIZE bytes.now ≡ head_bytes head.now }
{
    let first = block_from(bytes, 0);
    let wanted = head.block();
    first == wanted
}

/// The numbers that stand as in a head, where the mark and the form are an image's, and there is such a securelevel.
fn numbers_of(bytes: &[u8]) -> Result<Head, ImageFault>
    requires { BLOCK_SIZE ≤ length bytes.now }
    ensures reads { IfOk result (ReadsHead bytes.now) }
    ensures fault { IfErr result (IsImageFaultOf bytes.now) }
{
    if word(bytes, 0) != MARK {
        return Err(ImageFault::Mark);
    }
    if word(bytes, 4) != FORM {
        return Err(ImageFault::Form);
    }
    let number = word(bytes, 24);
    let Some(level) = level_from(number) else {
        return Err(ImageFault::Securelevel { number });
    };
    Ok(Head {
        segments: word(bytes, 8),
        inodes: word(bytes, 12),
        active: word(bytes, 16),
        used: word(bytes, 20),
        level,
        serial: serial_from(word(bytes, 28)),
    })
}

/// Whether a volume may have as many segments and inode numbers as some bytes tell of.
fn check_sizes(bytes: &[u8]) -> Result<(), ImageFault>
    requires { BLOCK_SIZE ≤ length bytes.now }
    ensures segments_least { OnOk result (least_segments ≤ number_at bytes.now 8) }
    ensures segments_most { OnOk result (number_at bytes.now 8 ≤ most_segments) }
    ensures inodes_least { OnOk result (least_inodes ≤ number_at bytes.now 12) }
    ensures inodes_most { OnOk result (number_at bytes.now 12 ≤ most_inodes) }
    ensures fault { IfErr result (IsImageFaultOf bytes.now) }
{
    let segments = word(bytes, 8);
    if segments < LEAST_SEGMENTS || segments > MOST_SEGMENTS {
        return Err(ImageFault::Segments { number: segments });
    }
    let inodes = word(bytes, 12);
    if inodes < LEAST_INODES || inodes > MOST_INODES {
        return Err(ImageFault::Inodes { number: inodes });
    }
    Ok(())
}

/// Whether there is such an active segment, with so many of its blocks used.
fn check_active(bytes: &[u8]) -> Result<(), ImageFault>
    requires { BLOCK_SIZE ≤ length bytes.now }
    ensures inside { OnOk result (number_at bytes.now 16 < number_at bytes.now 8) }
    ensures begun { OnOk result (log_start (number_at bytes.now 16) ≤ number_at bytes.now 20) }
    ensures within { OnOk result (number_at bytes.now 20 ≤ SEGMENT_BLOCKS) }
    ensures fault { IfErr result (IsImageFaultOf bytes.now) }
{
    let active = word(bytes, 16);
    if active >= word(bytes, 8) {
        return Err(ImageFault::Active { segment: active });
    }
    let used = word(bytes, 20);
    if used < log_start(active) || used > SEGMENT_BLOCKS {
        return Err(ImageFault::Used { blocks: used });
    }
    Ok(())
}

/// The number in the four bytes from a place on, the highest first.
#[tactic(auto, unfolding(lfs_ifile::specs::Layout::number_at))]
fn word(bytes: &[u8], place: usize) -> u32
    requires { place + 4 ≤ length bytes.now }
    ensures { result ≡ number_at bytes.now place }
{
    u32::from_be_bytes([
        bytes[place],
        bytes[place + 1],
        bytes[place + 2],
        bytes[place + 3],
    ])
}

/// The block of the bytes from a place on.
pub(crate) fn block_from(bytes: &[u8], place: usize) -> Block
    requires { place + BLOCK_SIZE ≤ length bytes.now }
    ensures block { result ≡ take BLOCK_SIZE (drop place bytes.now) }
    ensures long { length result ≡ BLOCK_SIZE }
{
    let mut block = ZERO_BLOCK;
    block.copy_from_slice(&bytes[place..place + BLOCK_SIZE]);
    block
}

/// The securelevel as a number from 0 up: 1 more than 4.4BSD's.
fn level_word(level: Level) -> u32
    ensures { result ≡ level_word level }
{
    match level {
        Level::PermanentlyInsecure => 0,
        Level::Insecure => 1,
        Level::Secure => 2,
        Level::HighlySecure => 3,
    }
}

/// The securelevel of a number from 0 up.
fn level_from(word: u32) -> Option<Level>
    ensures some { IfSome result (λ level. level_word level ≡ word) }
    ensures none { IfNone result (3 < word) }
{
    match word {
        0 => Some(Level::PermanentlyInsecure),
        1 => Some(Level::Insecure),
        2 => Some(Level::Secure),
        3 => Some(Level::HighlySecure),
        _ => None,
    }
}

/// The serial as a number, 0 where there is none.
fn serial_word(serial: Option<u32>) -> u32
    ensures { result ≡ serial_word serial }
{
    match serial {
        Some(serial) => serial,
        None => 0,
    }
}

/// The serial of a number.
fn serial_from(word: u32) -> Option<u32>
    ensures word { serial_word result ≡ word }
    ensures told { IsNextSerial result }
{
    if word == 0 { None } else { Some(word) }
}
