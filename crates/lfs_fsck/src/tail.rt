//! The bytes past a file's size.

ghost use Rattle.std.specs.Prelude.{◌<◌, ℕ, IfErr, OnOk};
ghost use Rattle.lfs_bmap.specs.Pieces.{IsPadded};
ghost use Rattle.lfs_bmap.specs.Reading.{data_block};
ghost use Rattle.lfs_log.specs.Parts.{IsParts};
ghost use Rattle.lfs_parts.specs.View.{tree_of};
ghost use Rattle.lfs_fsck.specs.Checks.{IsKept, IsRecordOf};
ghost use Rattle.lfs_fsck.specs.Faults.{IsFileFaultOf};
ghost use Rattle.lfs_fsck.specs.Stored.{flushed};
ghost use Rattle.lfs_bmap.specs.declared.blocks.TheConstants.{BLOCK_CODES};

use crate::blocks::{address_of, bytes_at};
use crate::bytes::is_zero_from;
use crate::fault::LogFault;
use lfs_bmap::blocks::FileBlock;
use lfs_inodes::inode::Inode;
use lfs_log::Log;
use lfs_types::block::BLOCK_SIZE;

/// Tail where a byte of a file past its size isn't zero. Its blocks were counted: none lies past the size, so it is a
/// byte of its last block.
pub(crate) fn check_tail(log: &Log, inode: &Inode) -> Result<(), LogFault>
    requires parts { IsParts log.now }
    requires own { IsRecordOf log.now inode.now }
    requires kept { (code : ℕ) → code < BLOCK_CODES → IsKept log.now inode.now.number code }
    ensures ok { OnOk result
        (IsPadded (data_block (tree_of (flushed log.now) inode.now.number)) inode.now.size) }
    ensures fault { IfErr result (IsFileFaultOf log.now) }
{
    let size = BLOCK_SIZE as u64;
    let start = (inode.size % size) as usize;
    if start == 0 {
        return Ok(());
    }
    let last = FileBlock::Data((inode.size / size) as u32);
    let address = address_of(log, inode, last);
    if is_zero_from(bytes_at(log, address), start) {
        Ok(())
    } else {
        Err(LogFault::Tail {
            number: inode.number,
        })
    }
}
