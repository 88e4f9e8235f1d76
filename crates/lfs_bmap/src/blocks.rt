//! The blocks of a file, their codes, and where the address of each one stands.

ghost use Rattle.std.specs.Prelude.{◌≡◌, ◌∷◌, ◌<◌, ◌≤◌, IfSome, MatchOption, []};
ghost use Rattle.lfs_bmap.specs.Blocks.{IsFileBlock, IsTable, code_of, file_block_of, logical_of, table_at, table_of, way_to};

use lfs_inodes::inode::{DIRECT_COUNT, ENTRY_COUNT};
use lfs_segments::entry::LogicalBlock;
use lfs_types::limits::FILE_BLOCKS;

/// The number of data blocks whose addresses stand in the inode record, as the code of a block counts them.
pub const DIRECT_BLOCKS: u32 = DIRECT_COUNT as u32;

/// The number of addresses in an indirect block.
pub const TABLE_CELLS: u32 = ENTRY_COUNT as u32;

/// The place among the addresses of a record where that of the single indirect block stands.
pub const SINGLE_PLACE: u32 = DIRECT_BLOCKS;

/// The place among the addresses of a record where that of the double indirect block stands.
pub const DOUBLE_PLACE: u32 = SINGLE_PLACE + 1;

/// The code of the first child of the double indirect block (this project's profile).
pub const FIRST_CHILD_CODE: u32 = 3;

/// The code of a file's first data block.
pub const FIRST_DATA_CODE: u32 = FIRST_CHILD_CODE + TABLE_CELLS;

/// The number of codes of a file's blocks.
pub const BLOCK_CODES: u32 = FIRST_DATA_CODE + FILE_BLOCKS;

/// A block of a file.
#[derive(Clone, Copy, PartialEq, Eq, Debug)]
pub enum FileBlock {
    /// The inode record, which is a quarter of a block.
    Record,
    /// The single indirect block.
    Single,
    /// The double indirect block.
    Double,
    /// A child of the double indirect block, by its index from 0 to 127.
    Child(u8),
    /// A data block, by its index, below `FILE_BLOCKS`.
    Data(u32),
}

/// Where the address of a block stands.
#[derive(Clone, Copy, PartialEq, Eq, Debug)]
pub struct Cell {
    /// The block that holds the address.
    pub table: FileBlock,
    /// The place of the address among those that this block holds, from 0.
    pub index: u32,
}

/// The indirect block that holds the addresses of the 128 data blocks from `12 + 128 * index` on.
fn indirect_block(index: u32) -> FileBlock
    requires { index ≤ TABLE_CELLS }
    ensures { result ≡ table_at index }
{
    if index == 0 {
        FileBlock::Single
    } else {
        FileBlock::Child((index - 1) as u8)
    }
}

impl FileBlock {
    /// The block's code: 0 the record, 1 the single indirect block, 2 the double one, 3 + k its child k,
    /// 131 + n data block n.
    pub fn code(self) -> u32
        requires { IsFileBlock self }
        ensures { result ≡ code_of self }
    {
        match self {
            FileBlock::Record => 0,
            FileBlock::Single => 1,
            FileBlock::Double => 2,
            FileBlock::Child(index) => FIRST_CHILD_CODE + u32::from(index),
            FileBlock::Data(index) => FIRST_DATA_CODE + index,
        }
    }

    /// The block of a code, or None where no block has that code.
    pub fn from_code(code: u32) -> Option<FileBlock>
        ensures found { IfSome result (λ block. IsFileBlock block × (code_of block ≡ code)) }
        ensures only { (block : FileBlock) → IsFileBlock block → code_of block ≡ code
            → result ≡ Some block }
    {
        match code {
            0 => Some(FileBlock::Record),
            1 => Some(FileBlock::Single),
            2 => Some(FileBlock::Double),
            code if code < FIRST_DATA_CODE => {
                Some(FileBlock::Child((code - FIRST_CHILD_CODE) as u8))
            }
            code if code < BLOCK_CODES => Some(FileBlock::Data(code - FIRST_DATA_CODE)),
            _ => None,
        }
    }

    /// What names the block in a summary: an inode block for the record.
    pub fn logical(self) -> LogicalBlock
        ensures { result ≡ logical_of self }
    {
        match self {
            FileBlock::Record => LogicalBlock::Inodes,
            FileBlock::Single => LogicalBlock::Single,
            FileBlock::Double => LogicalBlock::Double,
            FileBlock::Child(index) => LogicalBlock::Child(index),
            FileBlock::Data(index) => LogicalBlock::Data(index),
        }
    }

    /// The block of a file that an entry names, the record for an inode block.
    pub fn from_logical(block: LogicalBlock) -> FileBlock
        ensures { result ≡ file_block_of block }
    {
        match block {
            LogicalBlock::Inodes => FileBlock::Record,
            LogicalBlock::Single => FileBlock::Single,
            LogicalBlock::Double => FileBlock::Double,
            LogicalBlock::Child(index) => FileBlock::Child(index),
            LogicalBlock::Data(index) => FileBlock::Data(index),
        }
    }

    /// Where the block's address stands; None for the record, whose place is in the inode map.
    pub fn cell(self) -> Option<Cell>
        requires { IsFileBlock self }
        ensures way { MatchOption result (way_to self ≡ [])
            (λ cell. way_to self ≡ cell.index ∷ way_to cell.table) }
        ensures table { IfSome result (λ cell. cell.table ≡ table_of self) }
        ensures inside { IfSome result (λ cell. IsTable cell.table cell.index) }
        ensures less { IfSome result (λ cell. code_of cell.table < code_of self) }
    {
        let (table, index) = match self {
            FileBlock::Record => return None,
            FileBlock::Single => (FileBlock::Record, SINGLE_PLACE),
            FileBlock::Double => (FileBlock::Record, DOUBLE_PLACE),
            FileBlock::Child(index) => (FileBlock::Double, u32::from(index)),
            FileBlock::Data(index) if index < DIRECT_BLOCKS => (FileBlock::Record, index),
            FileBlock::Data(index) => {
                let past = index - DIRECT_BLOCKS;
                (indirect_block(past / TABLE_CELLS), past % TABLE_CELLS)
            }
        };
        Some(Cell { table, index })
    }

    /// The block that holds the block's address; the record itself for the record.
    pub fn table(self) -> FileBlock
        requires { IsFileBlock self }
        ensures { result ≡ table_of self }
    {
        match self.cell() {
            Some(cell) => cell.table,
            None => FileBlock::Record,
        }
    }
}
