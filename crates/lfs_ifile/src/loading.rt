//! The tables of an ifile from its bytes.

ghost use Rattle.std.specs.Prelude.{◌≡◌, ◌↔◌, ◌+◌, ◌*◌, ◌<◌, ◌≤◌, ℕ, length, slice_index, slice_index_or, IfErr, IfNone, IfOk, IfSome, IsTrue};
ghost use Rattle.lfs_types.specs.declared.limits.TheConstants.{SEGMENT_BLOCKS};
ghost use Rattle.lfs_ifile.specs.declared.inode.InodeRow.{InodeRow};
ghost use Rattle.lfs_ifile.specs.declared.segment.SegState.TheVariants.{Clean};
ghost use Rattle.lfs_ifile.specs.declared.segment.TheConstants.{SEGMENT_BYTES};
ghost use Rattle.lfs_ifile.specs.Inode.{IsRow, fresh_row};
ghost use Rattle.lfs_ifile.specs.Layout.{IsHead, IsIfileFaultOf, ReadsRow, number_at, row_place};
ghost use Rattle.lfs_ifile.specs.Segment.{state_number};

use crate::fault::IfileFault;
use crate::inode::InodeRow;
use crate::reading::{is_laid_out, number_at};
use crate::segment::{SEGMENT_BYTES, SegState};
use lfs_types::limits::{LEAST_INODES, LEAST_SEGMENTS, MOST_INODES, MOST_SEGMENTS, SEGMENT_BLOCKS};
use std::alloc::Global;

/// The row of a number that was never given out.
const UNUSED: InodeRow = InodeRow {
    used: false,
    address: 0,
    slot: 0,
    version: 0,
};

/// Whether the first twelve bytes and the length are those of an ifile, with numbers in their ranges.
pub(crate) fn is_head(bytes: &[u8]) -> bool
    ensures { IsTrue result ↔ IsHead bytes.now }
{
    is_laid_out(bytes)
        && LEAST_SEGMENTS <= number_at(bytes, 4)
        && number_at(bytes, 4) <= MOST_SEGMENTS
        && LEAST_INODES <= number_at(bytes, 8)
        && number_at(bytes, 8) <= MOST_INODES
}

/// The live bytes of each segment: Segment at the first that has too many.
pub(crate) fn read_live(alloc: Global, bytes: &[u8], segments: u32) -> Result<Vec<u32>, IfileFault>
    requires head { IsHead bytes.now }
    requires many { segments ≡ number_at bytes.now 4 }
    ensures long { IfOk result (λ live. length live.items ≡ segments) }
    ensures read { IfOk result (λ live. (s : ℕ) → s < segments
        → slice_index live.items s ≡ number_at bytes.now (12 + 8 * s)) }
    ensures few { IfOk result (λ live. (s : ℕ) → slice_index live.items s ≤ SEGMENT_BYTES) }
    ensures fault { IfErr result (IsIfileFaultOf bytes.now) }
{
    let mut live = vec![in alloc; 0; segments as usize]?;
    for segment in 0..segments {
        let count = number_at(bytes, 12 + 8 * segment as usize);
        if count > SEGMENT_BYTES {
            return Err(IfileFault::Segment { segment });
        }
        live[segment as usize] = count;
    }
    Ok(live)
}

/// The state of each segment: Segment at the first whose state there isn't.
pub(crate) fn read_states(
    alloc: Global,
    bytes: &[u8],
    segments: u32,
) -> Result<Vec<SegState>, IfileFault>
    requires head { IsHead bytes.now }
    requires many { segments ≡ number_at bytes.now 4 }
    ensures long { IfOk result (λ states. length states.items ≡ segments) }
    ensures read { IfOk result (λ states. (s : ℕ) → s < segments
        → state_number (slice_index_or states.items s Clean) ≡ number_at bytes.now (16 + 8 * s)) }
    ensures fault { IfErr result (IsIfileFaultOf bytes.now) }
{
    let mut states = vec![in alloc; SegState::Clean; segments as usize]?;
    for segment in 0..segments {
        let Some(state) = SegState::from_number(number_at(bytes, 16 + 8 * segment as usize)) else {
            return Err(IfileFault::Segment { segment });
        };
        states[segment as usize] = state;
    }
    Ok(states)
}

/// Whether a row may stand in an ifile of a volume of so many blocks.
fn is_row(row: InodeRow, blocks: u32) -> bool
    ensures { IsTrue result ↔ IsRow blocks row }
{
    row.address < blocks
        && row.slot < 4
        && (row.used || (row.address == 0 && row.slot == 0))
        && (!row.used || row.version >= 1)
}

/// The row of an inode number that stands at a place, in a volume of so many blocks; None where none does.
fn row_at(bytes: &[u8], place: usize, blocks: u32) -> Option<InodeRow>
    requires { place + 12 ≤ length bytes.now }
    ensures some { IfSome result (λ row. ReadsRow bytes.now place row × IsRow blocks row) }
    ensures none { IfNone result ((row : InodeRow) → ReadsRow bytes.now place row
        → IsRow blocks row → ⊥) }
{
    let slot_and_use = number_at(bytes, place + 4);
    if slot_and_use % 65536 > 1 {
        return None;
    }
    let row = InodeRow {
        used: slot_and_use % 65536 == 1,
        address: number_at(bytes, place),
        slot: (slot_and_use / 65536) as u16,
        version: number_at(bytes, place + 8),
    };
    if is_row(row, blocks) { Some(row) } else { None }
}

/// The row of each inode number: Row at the first that has none.
pub(crate) fn read_rows(
    alloc: Global,
    bytes: &[u8],
    segments: u32,
    inodes: u32,
) -> Result<Vec<InodeRow>, IfileFault>
    requires head { IsHead bytes.now }
    requires segments { segments ≡ number_at bytes.now 4 }
    requires inodes { inodes ≡ number_at bytes.now 8 }
    ensures long { IfOk result (λ rows. length rows.items ≡ inodes) }
    ensures read { IfOk result (λ rows. (n : ℕ) → n < inodes
        → ReadsRow bytes.now (row_place segments n) (slice_index_or rows.items n fresh_row)) }
    ensures formed { IfOk result (λ rows. (n : ℕ) → n < inodes
        → IsRow (SEGMENT_BLOCKS * segments) (slice_index_or rows.items n fresh_row)) }
    ensures fault { IfErr result (IsIfileFaultOf bytes.now) }
{
    let first = 12 + 8 * segments as usize;
    let mut rows = vec![in alloc; UNUSED; inodes as usize]?;
    for number in 0..inodes {
        let place = first + 12 * number as usize;
        let Some(row) = row_at(bytes, place, SEGMENT_BLOCKS * segments) else {
            return Err(IfileFault::Row { number });
        };
        rows[number as usize] = row;
    }
    Ok(rows)
}
