//! The map of a log: a line for each segment, with a sign for each of its blocks.

ghost use Rattle.std.specs.Prelude.{◌≡◌, ◌<◌, ◌∷◌, ◌++◌, [], map, OnOk};
ghost use Rattle.lfs_parts.specs.Store.{IsStore};
ghost use Rattle.lfs_view.specs.MapText.{block_sign, cell_sign, kind_sign, legend, life_sign, map_text, row_text, state_word, use_text, waiting_line, waiting_text};

use crate::cells::{Cell, Kind, walked};
use crate::life::Life;
use crate::padding::{push_right, push_right_number};
use lfs_ifile::SegState;
use lfs_parts::parts::Parts;
use lfs_segments::entry::LogicalBlock;
use lfs_words::append::{push_number, push_word};
use std::alloc::{AllocError, Global};

/// Appends the map of a log.
pub(crate) fn push_map(alloc: Global, out: &mut Vec<u8>, parts: &Parts) -> Result<(), AllocError>
    requires { IsStore parts.now }
    ensures { OnOk result (out.new.items ≡ out.old.items ++ map_text parts.now) }
{
    for segment in 0..parts.log.segments() {
        push_row(alloc, out, parts, segment)?;
    }
    push_waiting(out, parts)?;
    push_legend(out)
}

/// Appends how many blocks and how many records wait to be written.
pub(crate) fn push_waiting(out: &mut Vec<u8>, parts: &Parts) -> Result<(), AllocError>
    ensures { OnOk result (out.new.items ≡ out.old.items ++ waiting_text parts.now) }
{
    push_waiting_line(out, parts.cache.locked_count(), parts.waiting.len())
}

/// Appends the line of so many blocks and so many records that wait to be written.
pub(crate) fn push_waiting_line(
    out: &mut Vec<u8>,
    blocks: usize,
    records: usize,
) -> Result<(), AllocError>
    ensures { OnOk result (out.new.items ≡ out.old.items ++ waiting_line blocks records) }
{
    out.extend_from_slice(b"waiting")?;
    push_number(out, blocks as u64)?;
    push_word(out, "blocks")?;
    push_number(out, records as u64)?;
    push_word(out, "records")?;
    out.extend_from_slice(b"\n")
}

/// Appends what the signs say.
#[tactic(auto, unfolding(crate::specs::MapText::legend))]
fn push_legend(out: &mut Vec<u8>) -> Result<(), AllocError>
    ensures { OnOk result (out.new.items ≡ out.old.items ++ legend) }
{
    out.extend_from_slice(
        b"L label  S summary  D data  I indirect  R records  p partly live  d i r dead  . not yet written",
    )?;
    out.extend_from_slice(b"\n")
}

/// Appends the line of a segment.
pub(crate) fn push_row(
    alloc: Global,
    out: &mut Vec<u8>,
    parts: &Parts,
    segment: u32,
) -> Result<(), AllocError>
    requires store { IsStore parts.now }
    requires inside { segment < parts.now.log.memory.segments }
    ensures { OnOk result (out.new.items ≡ out.old.items ++ row_text parts.now segment) }
{
    push_use(out, parts, segment)?;
    out.push(b' ')?;
    let cells = walked(alloc, parts, segment)?;
    push_signs(out, cells.as_slice())?;
    Ok(out.push(b'\n')?)
}

/// Appends the number, the state and the live bytes of a segment.
fn push_use(out: &mut Vec<u8>, parts: &Parts, segment: u32) -> Result<(), AllocError>
    requires { segment < parts.now.log.memory.segments }
    ensures { OnOk result (out.new.items ≡ out.old.items ++ use_text parts.now segment) }
{
    let usage = parts.log.usage(segment);
    push_right_number(out, segment, 4)?;
    out.push(b' ')?;
    push_right(out, state_word(usage.state), 6)?;
    out.push(b' ')?;
    push_right_number(out, usage.live, 5)
}

/// The word of a state.
pub(crate) fn state_word(state: SegState) -> &'static str
    ensures { result.now ≡ state_word state }
{
    match state {
        SegState::Clean => "clean",
        SegState::Dirty => "dirty",
        SegState::Active => "active",
    }
}

/// Appends a sign for each cell.
fn push_signs(out: &mut Vec<u8>, cells: &[Cell]) -> Result<(), AllocError>
    ensures { OnOk result (out.new.items ≡ out.old.items ++ map cell_sign cells.now) }
{
    for cell in cells {
        out.push(kind_sign(cell.address, cell.kind))?;
    }
    Ok(())
}

/// The sign of what stands at an address.
fn kind_sign(address: u32, kind: Kind) -> u8
    ensures { result ≡ kind_sign address kind }
{
    match kind {
        Kind::Label => b'L',
        Kind::Summary(_) => b'S',
        Kind::Block(entry, present) => block_sign(entry.block, Life::of_block(address, present)),
        Kind::Records(found, live) => {
            block_sign(LogicalBlock::Inodes, Life::of_records(found, live))
        }
        Kind::Unwritten => b'.',
    }
}

/// The sign of a block that a summary names.
fn block_sign(block: LogicalBlock, life: Life) -> u8
    ensures { result ≡ block_sign block life }
{
    match block {
        LogicalBlock::Data(_) => life_sign(b'D', b'd', life),
        LogicalBlock::Single | LogicalBlock::Double | LogicalBlock::Child(_) => {
            life_sign(b'I', b'i', life)
        }
        LogicalBlock::Inodes => life_sign(b'R', b'r', life),
    }
}

/// One of two signs, or `p`.
fn life_sign(live: u8, dead: u8, life: Life) -> u8
    ensures { result ≡ life_sign live dead life }
{
    match life {
        Life::Live => live,
        Life::Partly => b'p',
        Life::Dead => dead,
    }
}
