//! The rows of the inode numbers, as the newest records tell them.

ghost use Rattle.std.specs.Prelude.{◌≡◌, ◌<◌, ◌≤◌, ℕ, None, Some, true, false, IfErr, IfOk, IsSome, OnOk, length};
ghost use Rattle.std.specs.Prelude.{slice_index_or};
ghost use Rattle.lfs_ifile.specs.Inode.{fresh_row};
ghost use Rattle.lfs_rescue.specs.Building.{HasSlot, HaveRecords, IsBuildFault, IsFoundOf, row_told};

use crate::building::Found;
use crate::fault::RecoverFault;
use lfs_ifile::InodeRow;
use lfs_recovery::RecordPlace;
use std::alloc::{AllocError, Global};

/// The row of a number that has no record.
const FRESH: InodeRow = InodeRow {
    used: false,
    address: 0,
    slot: 0,
    version: 0,
};

/// The row of each number.
pub(crate) fn rows_of(alloc: Global, found: Found<'_>) -> Result<Vec<InodeRow>, AllocError>
    requires { IsFoundOf found.memory.now found.last found.places.now found.marks.now
        found.inodes }
    ensures many { IfOk result (λ rows. length rows.items ≡ found.entry.inodes) }
    ensures told { IfOk result (λ rows. (n : ℕ) → n < found.entry.inodes
        → slice_index_or rows.items n fresh_row
        ≡ row_told (slice_index_or found.entry.places.now n None)
        (slice_index_or found.entry.marks.now n false)) }
    ensures fits { IfOk result (λ rows. (n : ℕ) → n < found.entry.inodes
        → (slice_index_or rows.items n fresh_row).version < 4294967296) }
{
    let mut rows = vec![in alloc; FRESH; found.inodes as usize]?;
    for number in 0..found.inodes as usize {
        rows[number] = row_told(&found.places[number], found.marks[number]);
    }
    Ok(rows)
}

/// The row of a number: the place of its newest record where names lead to it, else its version alone.
fn row_told(newest: &Option<RecordPlace>, named: bool) -> InodeRow
    requires { HasSlot newest.now }
    ensures told { result ≡ row_told newest.now named }
    ensures fits { result.version < 4294967296 }
{
    match newest {
        Some(newest) => row_of(*newest, named),
        None => FRESH,
    }
}

/// The row of a number that has a record.
fn row_of(newest: RecordPlace, named: bool) -> InodeRow
    requires { newest.slot < 4 }
    ensures told { result ≡ row_told (Some newest) named }
    ensures fits { result.version < 4294967296 }
{
    if named {
        return placed(newest);
    }
    let version = newest.version;
    InodeRow { version, ..FRESH }
}

/// The row of a number that names lead to.
fn placed(newest: RecordPlace) -> InodeRow
    requires { newest.slot < 4 }
    ensures told { result ≡ row_told (Some newest) true }
    ensures fits { result.version < 4294967296 }
{
    InodeRow {
        used: true,
        address: newest.address,
        slot: newest.slot as u16,
        version: newest.version,
    }
}

/// The first number that names lead to, and that has no record.
pub(crate) fn check_records(found: Found<'_>) -> Result<(), RecoverFault>
    requires { IsFoundOf found.memory.now found.last found.places.now found.marks.now
        found.inodes }
    ensures recorded { OnOk result
        (HaveRecords found.entry.places.now found.entry.marks.now found.entry.inodes) }
    ensures fault { IfErr result (IsBuildFault found.entry.memory.now) }
{
    for number in 0..found.inodes {
        let index = number as usize;
        if found.marks[index] && !is_recorded(&found.places[index]) {
            return Err(RecoverFault::Number { number });
        }
    }
    Ok(())
}

/// Whether a number has a record.
fn is_recorded(newest: &Option<RecordPlace>) -> bool
    ensures yes { result ≡ true → IsSome newest.now }
    ensures no { result ≡ false → IsSome newest.now → ⊥ }
{
    newest.is_some()
}
