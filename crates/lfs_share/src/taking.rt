//! What files take of a volume, by their lengths alone.

ghost use Rattle.std.specs.Prelude.{◌≡◌};
ghost use Rattle.lfs_share.specs.Share.{share_of, units_of_length};

use lfs_types::block::BLOCK_SIZE;

/// The live units of 128 bytes of a segment that is always worth cleaning, where another one is clean: nine blocks.
pub const LOW_UNITS: u32 = 36;

/// The data blocks of a file that its record leads to.
const DIRECT: u64 = 12;

/// And those that the single indirect block leads to as well.
const SINGLE: u64 = 140;

/// The data blocks that one indirect block leads to.
const CELLS: u64 = 128;

/// The units that a file of a length takes at most: one for its record, four for each block and for each indirect
/// block.
pub(crate) fn units_of_length(len: u64) -> u64
    ensures { result ≡ units_of_length len }
{
    let blocks = len.div_ceil(BLOCK_SIZE as u64);
    let tables = if blocks > SINGLE {
        2 + (blocks - SINGLE).div_ceil(CELLS)
    } else if blocks > DIRECT {
        1
    } else {
        0
    };
    1 + 4 * (blocks + tables)
}

/// The share of a volume of so many segments, in units.
pub(crate) fn share_of(segments: u32) -> u64
    ensures { result ≡ share_of segments }
{
    LOW_UNITS as u64 * segments.saturating_sub(3) as u64
}
