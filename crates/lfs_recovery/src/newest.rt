//! The newest record of each number.

ghost use Rattle.std.specs.Prelude.{◌≡◌, ◌<◌, ◌*◌, ◌++◌, ℕ, List, IfOk, IfSome, None, Some, length, option_map, slice_index_or, vec_len};
ghost use Rattle.lfs_types.specs.Ranges.{most_inodes};
ghost use Rattle.lfs_types.specs.declared.limits.TheConstants.{SEGMENT_BLOCKS};
ghost use Rattle.lfs_inodes.specs.Reading.{fields_in};
ghost use Rattle.lfs_inodes.specs.Slots.{slot_of};
ghost use Rattle.lfs_recovery.specs.declared.places.RecordPlace.{RecordPlace};
ghost use Rattle.lfs_recovery.specs.Course.{listed};
ghost use Rattle.lfs_recovery.specs.Newest.{IsNewest};
ghost use Rattle.lfs_recovery.specs.Noted.{IsTable, newer, place_of, places_in, records_at};

use crate::places::RecordPlace;
use crate::reader::Reader;
use lfs_inodes::inode::Inode;
use lfs_inodes::slots::slot;
use lfs_segments::segments::Segments;
use lfs_types::block::Block;
use lfs_types::limits::{MOST_INODES, SEGMENT_BLOCKS};
use std::alloc::{AllocError, Global};

/// For each inode number the newest of its records that stand in the logs, and `None` where it has none: that of the
/// highest serial, and of one serial that which stands last.
pub fn newest_records(
    alloc: Global,
    memory: &Segments,
) -> Result<Vec<Option<RecordPlace>>, AllocError>
    ensures long { IfOk result (λ table. length table.items ≡ most_inodes) }
    ensures newest { IfOk result (λ table. (n : ℕ) → n < most_inodes
        → IsNewest memory.now n (slice_index_or table.items n None)) }
{
    let mut table = vec![in alloc; None; MOST_INODES as usize]?;
    let mut reader = Reader::idle();
    for address in 0..memory.segments() * SEGMENT_BLOCKS {
        reader.enter(address);
        note_records(&mut table, &reader, memory, address);
        reader.step(memory, address);
    }
    Ok(table)
}

/// Notes the records of the block at an address, where the log names an inode block there.
fn note_records(
    table: &mut Vec<Option<RecordPlace>>,
    reader: &Reader,
    memory: &Segments,
    address: u32,
)
    requires inside { address < memory.now.segments * SEGMENT_BLOCKS }
    requires long { vec_len table.old ≡ most_inodes }
    ensures long { vec_len table.new ≡ most_inodes }
    ensures noted { (places : List RecordPlace) → IsTable table.old.items places
        → IsTable table.new.items (places ++ records_at memory.now address reader.now) }
{
    if reader.at_inodes() {
        note_block(table, reader.serial(), address, memory.block(address));
    }
}

/// Notes the records of an inode block.
fn note_block(table: &mut Vec<Option<RecordPlace>>, serial: u32, address: u32, block: &Block)
    requires { vec_len table.old ≡ most_inodes }
    ensures long { vec_len table.new ≡ most_inodes }
    ensures noted { (places : List RecordPlace) → IsTable table.old.items places
        → IsTable table.new.items (places ++ places_in serial address block.now 4) }
{
    for index in 0..4 {
        note(table, place_in(serial, address, block, index));
    }
}

/// The place of the record in a slot of an inode block, if one is there.
fn place_in(serial: u32, address: u32, block: &Block, index: usize) -> Option<RecordPlace>
    requires { index < 4 }
    ensures place { result ≡ option_map (place_of serial address index) (fields_in (slot_of block.now index)) }
    ensures below { IfSome result (λ place. place.number < most_inodes) }
{
    match Inode::decode(&slot(block, index)) {
        Some(inode) => Some(RecordPlace {
            serial,
            number: inode.number,
            version: inode.version,
            address,
            slot: index as u32,
        }),
        None => None,
    }
}

/// Notes a record, if there is one, unless a newer one of its number is noted.
fn note(table: &mut Vec<Option<RecordPlace>>, place: Option<RecordPlace>)
    requires below { IfSome place (λ place. place.number < most_inodes) }
    requires long { vec_len table.old ≡ most_inodes }
    ensures long { vec_len table.new ≡ most_inodes }
    ensures noted { (places : List RecordPlace) → IsTable table.old.items places
        → IsTable table.new.items (places ++ listed place) }
{
    if let Some(place) = place {
        let number = place.number as usize;
        table[number] = Some(newer(&table[number], place));
    }
}

/// The newer of the record that is noted and another.
fn newer(noted: &Option<RecordPlace>, place: RecordPlace) -> RecordPlace
    ensures { result ≡ newer noted.now place }
{
    match noted {
        Some(old) => {
            if place.serial < old.serial {
                *old
            } else {
                place
            }
        }
        None => place,
    }
}
