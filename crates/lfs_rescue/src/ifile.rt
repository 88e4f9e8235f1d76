//! The ifile of a log that is built.

ghost use Rattle.std.specs.Prelude.{◌≡◌, ◌+◌, ◌++◌, IfOk, OnOk, length};
ghost use Rattle.std.specs.List.{flat_map, zip};
ghost use Rattle.lfs_ifile.specs.Layout.{ifile_bytes, row_bytes, segment_bytes, u16_bytes, u32_bytes};
ghost use Rattle.lfs_ifile.specs.Segment.{state_number};
ghost use Rattle.lfs_ifile.specs.Tables.{IsIfile};
ghost use Rattle.lfs_rescue.specs.Building.{tables_of};

use byteorder::{BigEndian, ByteOrder};
use lfs_ifile::{Ifile, IfileFault, InodeRow, SegState};
use std::alloc::{AllocError, Global};

/// `LFIF`, with which an ifile begins.
const MARK: u32 = 0x4c46_4946;

/// The ifile with these live bytes and states of its segments, and these rows.
pub(crate) fn ifile_of(
    alloc: Global,
    live: &[u32],
    states: &[SegState],
    rows: &[InodeRow],
) -> Result<Ifile, AllocError>
    requires { IsIfile (tables_of live.now states.now rows.now) }
    ensures { IfOk result (λ ifile. ifile ≡ tables_of live.now states.now rows.now) }
{
    let bytes = bytes_of(alloc, live, states, rows)?;
    match Ifile::read(alloc, &bytes) {
        Ok(ifile) => Ok(ifile),
        Err(IfileFault::Memory) => Err(AllocError),
        // Never: they are an ifile's.
        Err(IfileFault::Head) => unreachable!(),
        Err(IfileFault::Segment { .. }) => unreachable!(),
        Err(IfileFault::Row { .. }) => unreachable!(),
    }
}

/// The bytes of that ifile.
fn bytes_of(
    alloc: Global,
    live: &[u32],
    states: &[SegState],
    rows: &[InodeRow],
) -> Result<Vec<u8>, AllocError>
    requires { IsIfile (tables_of live.now states.now rows.now) }
    ensures { IfOk result (λ bytes. bytes.items
        ≡ ifile_bytes (tables_of live.now states.now rows.now)) }
{
    let mut bytes = Vec::new(alloc);
    push_u32(&mut bytes, MARK)?;
    push_u32(&mut bytes, live.len() as u32)?;
    push_u32(&mut bytes, rows.len() as u32)?;
    push_segments(&mut bytes, live, states)?;
    push_rows(&mut bytes, rows)?;
    Ok(bytes)
}

/// Adds a number in four bytes, the highest first.
#[tactic(auto, unfolding(lfs_ifile::specs::Layout::u32_bytes))]
fn push_u32(bytes: &mut Vec<u8>, number: u32) -> Result<(), AllocError>
    ensures { OnOk result (bytes.new.items ≡ bytes.old.items ++ u32_bytes number) }
{
    let mut word = [0; 4];
    BigEndian::write_u32(&mut word, number);
    bytes.extend_from_slice(&word)
}

/// Adds a number in two bytes, the higher first.
#[tactic(auto, unfolding(lfs_ifile::specs::Layout::u16_bytes))]
fn push_u16(bytes: &mut Vec<u8>, number: u16) -> Result<(), AllocError>
    ensures { OnOk result (bytes.new.items ≡ bytes.old.items ++ u16_bytes number) }
{
    let mut word = [0; 2];
    BigEndian::write_u16(&mut word, number);
    bytes.extend_from_slice(&word)
}

/// Adds a segment's live bytes and its state.
fn push_segment(bytes: &mut Vec<u8>, live: u32, state: SegState) -> Result<(), AllocError>
    ensures { OnOk result (bytes.new.items ≡ bytes.old.items ++ segment_bytes (live, state)) }
{
    push_u32(bytes, live)?;
    push_u32(bytes, number_of(state))
}

/// The number that stands for a state.
fn number_of(state: SegState) -> u32
    ensures { result ≡ state_number state }
{
    match state {
        SegState::Clean => 0,
        SegState::Dirty => 1,
        SegState::Active => 2,
    }
}

/// Adds an inode number's address, slot, whether it is used, and its version.
fn push_row(bytes: &mut Vec<u8>, row: &InodeRow) -> Result<(), AllocError>
    ensures { OnOk result (bytes.new.items ≡ bytes.old.items ++ row_bytes row.now) }
{
    push_u32(bytes, row.address)?;
    push_u16(bytes, row.slot)?;
    push_u16(bytes, u16::from(row.used))?;
    push_u32(bytes, row.version)
}

/// Adds each segment.
#[tactic(auto, using(lfs_ifile::proofs::LayoutLemmas::segments_more, lfs_ifile::proofs::LayoutLemmas::segments_all))]
fn push_segments(bytes: &mut Vec<u8>, live: &[u32], states: &[SegState]) -> Result<(), AllocError>
    requires { length states.now ≡ length live.now }
    ensures { OnOk result (bytes.new.items
        ≡ bytes.old.items ++ flat_map segment_bytes (zip live.now states.now)) }
{
    for segment in 0..live.len() {
        push_segment(bytes, live[segment], states[segment])?;
    }
    Ok(())
}

/// Adds each row.
fn push_rows(bytes: &mut Vec<u8>, rows: &[InodeRow]) -> Result<(), AllocError>
    ensures { OnOk result (bytes.new.items ≡ bytes.old.items ++ flat_map row_bytes rows.now) }
{
    for row in rows {
        push_row(bytes, row)?;
    }
    Ok(())
}
