//! Whose each block of a segment is, by the summaries of its log.

ghost use Rattle.std.specs.Prelude.{◌≡◌, ◌*◌, ◌<◌, ◌++◌, All, IfOk, OnOk};
ghost use Rattle.std.specs.List.{flat_map};
ghost use Rattle.lfs_types.specs.declared.limits.TheConstants.{SEGMENT_BLOCKS};
ghost use Rattle.lfs_parts.specs.Store.{IsStore};
ghost use Rattle.lfs_view.specs.Cells.{IsIn, logged_at};
ghost use Rattle.lfs_view.specs.Owners.{block_owner, cell_owner, kind_owner, owners_of, owners_text, logged_owner, records_owners};

use crate::cells::{Cell, Kind, walked};
use crate::records::{LoggedRecord, logged_at};
use crate::rows::Row;
use lfs_logstore::LogStore;
use lfs_parts::parts::Parts;
use lfs_segments::entry::SummaryEntry;
use lfs_words::append::{push_decimal, push_number};
use std::alloc::{AllocError, Global};

/// What is told behind each block that was written.
const END: u8 = b';';

/// Whose the blocks of each segment are, a text for each segment in order. It has a part for each block up to the end of
/// the segment's log, which a semicolon ends: for a block of a file the number and the version of the file, and which of
/// its blocks it is, as an info has it; for a block of records, behind a space each, the number and the version of each;
/// for a summary and the label nothing.
///
/// # Errors
///
/// Memory ran out.
pub fn owners(alloc: Global, store: &LogStore) -> Result<Vec<Row>, AllocError>
    ensures { IfOk result (λ owners. owners.items ≡ owners_of store.now) }
{
    let parts = store.parts();
    let mut owners = Vec::new(alloc);
    for segment in 0..parts.log.segments() {
        owners.push(owners_in(alloc, parts, segment)?)?;
    }
    Ok(owners)
}

/// Whose the blocks of a segment are.
fn owners_in(alloc: Global, parts: &Parts, segment: u32) -> Result<Row, AllocError>
    requires store { IsStore parts.now }
    requires inside { segment < parts.now.log.memory.segments }
    ensures owners { IfOk result (λ owners. owners ≡ owners_text parts.now segment) }
{
    let cells = walked(alloc, parts, segment)?;
    let mut text = Vec::new(alloc);
    push_owners(&mut text, parts, cells.as_slice())?;
    Ok(Row::new(text))
}

/// Appends whose blocks are.
fn push_owners(out: &mut Vec<u8>, parts: &Parts, cells: &[Cell]) -> Result<(), AllocError>
    requires store { IsStore parts.now }
    requires inside { All (IsIn parts.now) cells.now }
    ensures { OnOk result (out.new.items ≡ out.old.items
        ++ flat_map (cell_owner parts.now) cells.now) }
{
    for cell in cells {
        push_owner(out, parts, cell.address, cell.kind)?;
    }
    Ok(())
}

/// Appends whose is what stands at an address.
fn push_owner(out: &mut Vec<u8>, parts: &Parts, address: u32, kind: Kind) -> Result<(), AllocError>
    requires store { IsStore parts.now }
    requires inside { address < parts.now.log.memory.segments * SEGMENT_BLOCKS }
    ensures { OnOk result (out.new.items ≡ out.old.items ++ kind_owner parts.now address kind) }
{
    match kind {
        Kind::Label | Kind::Summary(_) => Ok(out.push(END)?),
        Kind::Block(entry, _) => push_block_owner(out, entry),
        Kind::Records(_, _) => push_records_owners(out, parts, address),
        Kind::Unwritten => Ok(()),
    }
}

/// Appends the file of a block, and which of its blocks it is.
fn push_block_owner(out: &mut Vec<u8>, entry: SummaryEntry) -> Result<(), AllocError>
    ensures { OnOk result (out.new.items ≡ out.old.items ++ block_owner entry) }
{
    push_decimal(out, u64::from(entry.number))?;
    push_number(out, u64::from(entry.version))?;
    push_number(out, u64::from(entry.block.number()))?;
    Ok(out.push(END)?)
}

/// Appends the files of the records in a block of records.
fn push_records_owners(out: &mut Vec<u8>, parts: &Parts, address: u32) -> Result<(), AllocError>
    requires store { IsStore parts.now }
    requires inside { address < parts.now.log.memory.segments * SEGMENT_BLOCKS }
    ensures { OnOk result (out.new.items ≡ out.old.items ++ records_owners parts.now address) }
{
    push_record_owner(out, logged_at(parts, address, 0))?;
    push_record_owner(out, logged_at(parts, address, 1))?;
    push_record_owner(out, logged_at(parts, address, 2))?;
    push_record_owner(out, logged_at(parts, address, 3))?;
    Ok(out.push(END)?)
}

/// Appends the file of a record in a slot, if one is there.
fn push_record_owner(out: &mut Vec<u8>, logged: Option<LoggedRecord>) -> Result<(), AllocError>
    ensures { OnOk result (out.new.items ≡ out.old.items ++ logged_owner logged) }
{
    let Some(record) = logged else {
        return Ok(());
    };
    push_number(out, u64::from(record.number))?;
    push_number(out, u64::from(record.version))
}
