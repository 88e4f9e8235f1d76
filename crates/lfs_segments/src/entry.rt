//! What an entry of a summary names.

ghost use Rattle.std.specs.Prelude.{◌≡◌, ℕ, ◌+◌, ◌<◌, ◌≤◌, ◌↔◌, IsTrue, IfSome, slice_index};
ghost use Rattle.lfs_segments.specs.Bytes.{IsBlock};
ghost use Rattle.lfs_segments.specs.Entry.{IsLogicalBlock, IsOwner, IsEntry, IsEntryAt, block_number};

use crate::bytes::{put_word, word};
use lfs_types::block::Block;
use lfs_types::limits::{FILE_BLOCKS, FIRST_INODE, MOST_INODES, ROOT_INODE};

/// The number that spells the single indirect block.
const SINGLE: u32 = 0x8000_0000;

/// The number that spells the double indirect block.
const DOUBLE: u32 = 0x8000_0001;

/// The number that spells its first child.
const FIRST_CHILD: u32 = 0x8000_0100;

/// The number that spells its last child, the 128th.
const LAST_CHILD: u32 = 0x8000_017f;

/// The number that spells a block of inodes.
const INODES: u32 = 0xffff_ffff;

/// A block of a file, or a block of inodes (this project's profile).
#[derive(Clone, Copy, PartialEq, Eq, Debug)]
pub enum LogicalBlock {
    /// A data block of a file, by its index, below `FILE_BLOCKS`.
    Data(u32),
    /// The single indirect block of a file.
    Single,
    /// The double indirect block of a file.
    Double,
    /// A child of the double indirect block, by its index from 0 to 127.
    Child(u8),
    /// A block of inodes, which belongs to no file.
    Inodes,
}

impl LogicalBlock {
    /// The number that spells it in an entry.
    pub fn number(self) -> u32
        ensures { result ≡ block_number self }
    {
        match self {
            LogicalBlock::Data(index) => index,
            LogicalBlock::Single => SINGLE,
            LogicalBlock::Double => DOUBLE,
            LogicalBlock::Child(index) => FIRST_CHILD + u32::from(index),
            LogicalBlock::Inodes => INODES,
        }
    }

    /// The block that a number spells, or None where no block has that number.
    pub fn from_number(number: u32) -> Option<LogicalBlock>
        ensures found { IfSome result (λ block. IsLogicalBlock block
            × (block_number block ≡ number)) }
        ensures only { (block : LogicalBlock) → IsLogicalBlock block → block_number block ≡ number
            → result ≡ Some block }
    {
        match number {
            SINGLE => Some(LogicalBlock::Single),
            DOUBLE => Some(LogicalBlock::Double),
            FIRST_CHILD..=LAST_CHILD => Some(LogicalBlock::Child((number - FIRST_CHILD) as u8)),
            INODES => Some(LogicalBlock::Inodes),
            index if index < FILE_BLOCKS => Some(LogicalBlock::Data(index)),
            _ => None,
        }
    }
}

/// An entry of a summary: the block in the log, and the file that it was written for.
#[derive(Clone, Copy, PartialEq, Eq, Debug)]
pub struct SummaryEntry {
    /// The file's number: 2, or 4 to 4,095; 0 for a block of inodes.
    pub number: u32,
    /// The file's version, at least 1; 0 for a block of inodes.
    pub version: u32,
    /// Which of the file's blocks it is.
    pub block: LogicalBlock,
}

impl SummaryEntry {
    /// What stands past the last entry of a summary: zeros.
    pub const UNUSED: SummaryEntry = SummaryEntry {
        number: 0,
        version: 0,
        block: LogicalBlock::Data(0),
    };

    /// Whether the number and the version are such as a block of this kind has.
    fn has_owner(&self) -> bool
        ensures { IsTrue result ↔ IsOwner self.now.block self.now.number self.now.version }
    {
        match self.block {
            LogicalBlock::Inodes => self.number == 0 && self.version == 0,
            LogicalBlock::Data(_)
            | LogicalBlock::Single
            | LogicalBlock::Double
            | LogicalBlock::Child(_) => {
                (self.number == ROOT_INODE || self.number >= FIRST_INODE)
                    && self.number < MOST_INODES
                    && self.version >= 1
            }
        }
    }

    /// The entry that twelve bytes spell, or None where they spell none.
    pub(crate) fn read(bytes: &Block, place: usize) -> Option<SummaryEntry>
        requires { place + 12 ≤ 512 }
        ensures found { IfSome result (λ entry. IsEntry entry × IsEntryAt bytes.now place entry) }
        ensures only { (entry : SummaryEntry) → IsEntry entry → IsEntryAt bytes.now place entry
            → result ≡ Some entry }
    {
        let entry = SummaryEntry {
            number: word(bytes, place),
            version: word(bytes, place + 4),
            block: LogicalBlock::from_number(word(bytes, place + 8))?,
        };
        entry.has_owner().then_some(entry)
    }

    /// Writes the entry into the twelve bytes from a place.
    pub(crate) fn write(&self, bytes: &mut Block, place: usize)
        requires { place + 12 ≤ 512 }
        ensures bytes { IsBlock bytes.new }
        ensures written { IsEntryAt bytes.new place self.now }
        ensures before { (i : ℕ) → i < place → slice_index bytes.new i ≡ slice_index bytes.old i }
        ensures after { (i : ℕ) → place + 12 ≤ i
            → slice_index bytes.new i ≡ slice_index bytes.old i }
    {
        put_word(bytes, place, self.number);
        put_word(bytes, place + 4, self.version);
        put_word(bytes, place + 8, self.block.number());
    }
}

impl Default for SummaryEntry {
    fn default() -> SummaryEntry {
        SummaryEntry::UNUSED
    }
}
