//! A segment: a line for each of its blocks that was written.

ghost use Rattle.std.specs.Prelude.{◌≡◌, ◌*◌, ◌<◌, ◌∷◌, ◌++◌, [], codes, decimal, All, OnOk};
ghost use Rattle.std.specs.List.{flat_map};
ghost use Rattle.lfs_types.specs.declared.limits.TheConstants.{SEGMENT_BLOCKS};
ghost use Rattle.lfs_parts.specs.Store.{IsStore};
ghost use Rattle.lfs_words.specs.Wording.{spaced};
ghost use Rattle.lfs_view.specs.Cells.{IsIn, life_among, logged_at};
ghost use Rattle.lfs_view.specs.MapText.{line_of};
ghost use Rattle.lfs_view.specs.SegmentText.{block_word, block_words, cell_lines, kind_lines, known_text, life_word, record_words, records_lines, logged_line, segment_text, use_words};

use crate::cells::{Cell, Kind, walked};
use crate::life::Life;
use crate::map::state_word;
use crate::records::{LoggedRecord, logged_at};
use lfs_parts::parts::Parts;
use lfs_segments::entry::{LogicalBlock, SummaryEntry};
use lfs_words::append::{push_decimal, push_number, push_word};
use std::alloc::{AllocError, Global};

/// Appends what stands in a segment, or a fault where the volume has none of this number.
pub(crate) fn push_segment(
    alloc: Global,
    out: &mut Vec<u8>,
    parts: &Parts,
    segment: u64,
) -> Result<(), AllocError>
    requires { IsStore parts.now }
    ensures { OnOk result (out.new.items ≡ out.old.items ++ segment_text parts.now segment) }
{
    if segment < u64::from(parts.log.segments()) {
        push_known(alloc, out, parts, segment as u32)
    } else {
        out.extend_from_slice(b"fault")?;
        push_word(out, "NoSuchSegment")?;
        out.extend_from_slice(b"\n")
    }
}

/// Appends what stands in a segment of the volume.
fn push_known(
    alloc: Global,
    out: &mut Vec<u8>,
    parts: &Parts,
    segment: u32,
) -> Result<(), AllocError>
    requires store { IsStore parts.now }
    requires inside { segment < parts.now.log.memory.segments }
    ensures { OnOk result (out.new.items ≡ out.old.items ++ known_text parts.now segment) }
{
    push_use(out, parts, segment)?;
    let cells = walked(alloc, parts, segment)?;
    push_cells(out, parts, cells.as_slice())
}

/// Appends the line of how a segment is used.
fn push_use(out: &mut Vec<u8>, parts: &Parts, segment: u32) -> Result<(), AllocError>
    requires { segment < parts.now.log.memory.segments }
    ensures { OnOk result (out.new.items
        ≡ out.old.items ++ line_of (codes "segment") (use_words parts.now segment)) }
{
    let usage = parts.log.usage(segment);
    out.extend_from_slice(b"segment")?;
    push_number(out, u64::from(segment))?;
    push_word(out, state_word(usage.state))?;
    push_number(out, u64::from(usage.live))?;
    out.extend_from_slice(b"\n")
}

/// Appends the lines of blocks.
fn push_cells(out: &mut Vec<u8>, parts: &Parts, cells: &[Cell]) -> Result<(), AllocError>
    requires store { IsStore parts.now }
    requires inside { All (IsIn parts.now) cells.now }
    ensures { OnOk result (out.new.items ≡ out.old.items
        ++ flat_map (cell_lines parts.now) cells.now) }
{
    for cell in cells {
        push_kind(out, parts, cell.address, cell.kind)?;
    }
    Ok(())
}

/// Appends the lines of what stands at an address.
fn push_kind(out: &mut Vec<u8>, parts: &Parts, address: u32, kind: Kind) -> Result<(), AllocError>
    requires store { IsStore parts.now }
    requires inside { address < parts.now.log.memory.segments * SEGMENT_BLOCKS }
    ensures { OnOk result (out.new.items ≡ out.old.items ++ kind_lines parts.now address kind) }
{
    match kind {
        Kind::Label => push_label(out, address),
        Kind::Summary(count) => push_summary(out, address, count),
        Kind::Block(entry, present) => push_block(out, address, entry, present),
        Kind::Records(found, live) => {
            push_counts(out, address, found, live)?;
            push_records(out, parts, address)
        }
        Kind::Unwritten => Ok(()),
    }
}

/// Appends the line of the label.
fn push_label(out: &mut Vec<u8>, address: u32) -> Result<(), AllocError>
    ensures { OnOk result (out.new.items
        ≡ out.old.items ++ line_of (decimal address) (codes "label" ∷ [])) }
{
    push_decimal(out, u64::from(address))?;
    push_word(out, "label")?;
    out.extend_from_slice(b"\n")
}

/// Appends the line of a summary.
fn push_summary(out: &mut Vec<u8>, address: u32, count: u32) -> Result<(), AllocError>
    ensures { OnOk result (out.new.items
        ≡ out.old.items ++ line_of (decimal address) (codes "summary" ∷ decimal count ∷ [])) }
{
    push_decimal(out, u64::from(address))?;
    push_word(out, "summary")?;
    push_number(out, u64::from(count))?;
    out.extend_from_slice(b"\n")
}

/// Appends what a block or a record is, the number and the version of its file, and which one it is.
fn push_named(
    out: &mut Vec<u8>,
    word: &str,
    number: u32,
    version: u32,
    which: u32,
) -> Result<(), AllocError>
    ensures { OnOk result (out.new.items
        ≡ out.old.items ++ spaced (word.now ∷ decimal number ∷ decimal version ∷ decimal which ∷ [])) }
{
    push_word(out, word)?;
    push_number(out, u64::from(number))?;
    push_number(out, u64::from(version))?;
    push_number(out, u64::from(which))
}

/// Appends a present address, and whether what was written is of use; and ends the line.
fn push_present(out: &mut Vec<u8>, present: u32, life: Life) -> Result<(), AllocError>
    ensures { OnOk result (out.new.items
        ≡ out.old.items ++ (spaced (decimal present ∷ life_word life ∷ []) ++ 10 ∷ [])) }
{
    push_number(out, u64::from(present))?;
    push_word(out, life_word(life))?;
    out.extend_from_slice(b"\n")
}

/// Appends the line of a block of a file.
fn push_block(
    out: &mut Vec<u8>,
    address: u32,
    entry: SummaryEntry,
    present: u32,
) -> Result<(), AllocError>
    ensures { OnOk result (out.new.items
        ≡ out.old.items ++ line_of (decimal address) (block_words address entry present)) }
{
    let (number, version, which) = (entry.number, entry.version, entry.block.number());
    push_decimal(out, u64::from(address))?;
    push_named(out, block_word(entry.block), number, version, which)?;
    push_present(out, present, Life::of_block(address, present))
}

/// Appends the line of a block of records.
fn push_counts(out: &mut Vec<u8>, address: u32, found: u32, live: u32) -> Result<(), AllocError>
    ensures { OnOk result (out.new.items ≡ out.old.items ++ line_of (decimal address)
        (codes "records" ∷ decimal live ∷ codes "of" ∷ decimal found ∷ life_word (life_among found live) ∷ [])) }
{
    push_decimal(out, u64::from(address))?;
    push_word(out, "records")?;
    push_number(out, u64::from(live))?;
    push_word(out, "of")?;
    push_number(out, u64::from(found))?;
    push_word(out, life_word(Life::of_records(found, live)))?;
    out.extend_from_slice(b"\n")
}

/// Appends the lines of the records in a block of records.
fn push_records(out: &mut Vec<u8>, parts: &Parts, address: u32) -> Result<(), AllocError>
    requires store { IsStore parts.now }
    requires inside { address < parts.now.log.memory.segments * SEGMENT_BLOCKS }
    ensures { OnOk result (out.new.items ≡ out.old.items ++ records_lines parts.now address) }
{
    push_logged(out, address, 0, logged_at(parts, address, 0))?;
    push_logged(out, address, 1, logged_at(parts, address, 1))?;
    push_logged(out, address, 2, logged_at(parts, address, 2))?;
    push_logged(out, address, 3, logged_at(parts, address, 3))
}

/// Appends the line of the record in a slot, if one is there.
fn push_logged(
    out: &mut Vec<u8>,
    address: u32,
    slot: u32,
    logged: Option<LoggedRecord>,
) -> Result<(), AllocError>
    ensures { OnOk result (out.new.items ≡ out.old.items ++ logged_line address slot logged) }
{
    match logged {
        Some(record) => push_record(out, address, slot, record),
        None => Ok(()),
    }
}

/// Appends the line of a record.
fn push_record(
    out: &mut Vec<u8>,
    address: u32,
    slot: u32,
    logged: LoggedRecord,
) -> Result<(), AllocError>
    ensures { OnOk result (out.new.items
        ≡ out.old.items ++ line_of (decimal address) (record_words slot logged)) }
{
    push_decimal(out, u64::from(address))?;
    push_named(out, "record", logged.number, logged.version, slot)?;
    push_present(out, logged.present, Life::of_record(logged.is_live))
}

/// The word of whether what was written is of use.
fn life_word(life: Life) -> &'static str
    ensures { result.now ≡ life_word life }
{
    match life {
        Life::Live => "live",
        Life::Partly => "partly",
        Life::Dead => "dead",
    }
}

/// The word of a block that a summary names.
fn block_word(block: LogicalBlock) -> &'static str
    ensures { result.now ≡ block_word block }
{
    match block {
        LogicalBlock::Data(_) => "data",
        LogicalBlock::Single | LogicalBlock::Double | LogicalBlock::Child(_) => "indirect",
        LogicalBlock::Inodes => "records",
    }
}
