//! What the label of a volume tells.

ghost use Rattle.std.specs.Prelude.{◌≡◌, ◌↔◌, ◌≤◌, IfErr, IfOk, IsTrue, OnOk, length};
ghost use Rattle.lfs_types.specs.declared.block.TheConstants.{BLOCK_SIZE};
ghost use Rattle.lfs_types.specs.Ranges.{least_inodes, most_inodes};
ghost use Rattle.lfs_ifile.specs.Layout.{number_at};
ghost use Rattle.lfs_segments.specs.Memory.{IsLaidOut, block_at, label};
ghost use Rattle.lfs_rescue.specs.Building.{IsBuildFault};

use crate::fault::RecoverFault;
use byteorder::{BigEndian, ByteOrder};
use lfs_checking::fault::VolumeFault;
use lfs_image::ImageFault;
use lfs_segments::segments::Segments;
use lfs_types::block::{Block, ZERO_BLOCK};
use lfs_types::limits::{LEAST_INODES, MOST_INODES};

/// The first four bytes of the label, `LFS1`.
const MARK: u32 = 0x4c46_5331;

/// How many inode numbers the label tells.
///
/// # Errors
///
/// Too few, or block 0 isn't the label of so many.
pub(crate) fn inodes_told(memory: &Segments) -> Result<u32, RecoverFault>
    ensures laid_out { OnOk result (IsLaidOut memory.now) }
    ensures least { IfOk result (λ inodes. least_inodes ≤ inodes) }
    ensures most { IfOk result (λ inodes. inodes ≤ most_inodes) }
    ensures labelled { IfOk result (λ inodes.
        block_at memory.now 0 ≡ label memory.now.segments inodes) }
    ensures fault { IfErr result (IsBuildFault memory.now) }
{
    let segments = memory.segments();
    let block = memory.block(0);
    let inodes = number_in(block);
    if inodes < LEAST_INODES {
        let fault = ImageFault::Inodes { number: inodes };
        return Err(RecoverFault::Volume {
            fault: VolumeFault::Image { fault },
        });
    }
    if inodes > MOST_INODES || !is_label(block, segments, inodes) {
        let fault = ImageFault::Label;
        return Err(RecoverFault::Volume {
            fault: VolumeFault::Image { fault },
        });
    }
    Ok(inodes)
}

/// The number of inode numbers that stands in a label.
#[tactic(auto, unfolding(lfs_ifile::specs::Layout::number_at))]
fn number_in(block: &Block) -> u32
    requires { length block.now ≡ BLOCK_SIZE }
    ensures { result ≡ number_at block.now 8 }
{
    u32::from_be_bytes([block[8], block[9], block[10], block[11]])
}

/// Whether a block is the label of so many segments and inode numbers.
fn is_label(block: &Block, segments: u32, inodes: u32) -> bool
    ensures { IsTrue result ↔ (block.now ≡ label segments inodes) }
{
    let wanted = label(segments, inodes);
    block == &wanted
}

/// The label: the mark, the numbers of segments and of inode numbers, zeros.
fn label(segments: u32, inodes: u32) -> Block
    ensures { result ≡ label segments inodes }
{
    let mut block = ZERO_BLOCK;
    BigEndian::write_u32(&mut block[..4], MARK);
    BigEndian::write_u32(&mut block[4..8], segments);
    BigEndian::write_u32(&mut block[8..12], inodes);
    block
}
