//! Writing an ifile's bytes.

ghost use Rattle.std.specs.Prelude.{◌≡◌, ◌+◌, ◌++◌, length, OnOk};
ghost use Rattle.std.specs.List.{flat_map, zip};
ghost use Rattle.lfs_ifile.specs.Layout.{u32_bytes, u16_bytes, segment_bytes, row_bytes};

use crate::inode::InodeRow;
use crate::segment::SegState;
use byteorder::{BigEndian, ByteOrder};
use std::alloc::AllocError;

/// Adds a number in four bytes, the highest first.
#[tactic(auto, unfolding(crate::specs::Layout::u32_bytes))]
pub(crate) fn push_u32(bytes: &mut Vec<u8>, number: u32) -> Result<(), AllocError>
    ensures { OnOk result (bytes.new.items ≡ bytes.old.items ++ u32_bytes number) }
{
    let mut word = [0; 4];
    BigEndian::write_u32(&mut word, number);
    bytes.extend_from_slice(&word)
}

/// Adds a number in two bytes, the higher first.
#[tactic(auto, unfolding(crate::specs::Layout::u16_bytes))]
fn push_u16(bytes: &mut Vec<u8>, number: u16) -> Result<(), AllocError>
    ensures { OnOk result (bytes.new.items ≡ bytes.old.items ++ u16_bytes number) }
{
    let mut word = [0; 2];
    BigEndian::write_u16(&mut word, number);
    bytes.extend_from_slice(&word)
}

/// Adds a segment's live bytes and its state.
fn push_segment(bytes: &mut Vec<u8>, live: u32, state: SegState) -> Result<(), AllocError>
    ensures { OnOk result (bytes.new.items ≡ bytes.old.items ++ segment_bytes (live, state)) }
{
    push_u32(bytes, live)?;
    push_u32(bytes, state.number())
}

/// Adds an inode number's address, slot, whether it is used, and its version.
fn push_row(bytes: &mut Vec<u8>, row: &InodeRow) -> Result<(), AllocError>
    ensures { OnOk result (bytes.new.items ≡ bytes.old.items ++ row_bytes row.now) }
{
    push_u32(bytes, row.address)?;
    push_u16(bytes, row.slot)?;
    push_u16(bytes, u16::from(row.used))?;
    push_u32(bytes, row.version)
}

/// Adds each segment.
#[tactic(auto, using(crate::proofs::LayoutLemmas::segments_more, crate::proofs::LayoutLemmas::segments_all))]
pub(crate) fn push_segments(
    bytes: &mut Vec<u8>,
    live: &[u32],
    states: &[SegState],
) -> Result<(), AllocError>
    requires { length states.now ≡ length live.now }
    ensures { OnOk result (bytes.new.items
        ≡ bytes.old.items ++ flat_map segment_bytes (zip live.now states.now)) }
{
    for seg in 0..live.len() {
        push_segment(bytes, live[seg], states[seg])?;
    }
    Ok(())
}

/// Adds each row of the inode map.
pub(crate) fn push_rows(bytes: &mut Vec<u8>, rows: &[InodeRow]) -> Result<(), AllocError>
    ensures { OnOk result (bytes.new.items ≡ bytes.old.items ++ flat_map row_bytes rows.now) }
{
    for row in rows {
        push_row(bytes, row)?;
    }
    Ok(())
}
