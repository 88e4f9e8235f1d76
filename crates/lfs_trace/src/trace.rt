//! A trace checked whole.

ghost use Rattle.std.specs.Prelude.{◌≡◌, ℕ, IfErr, OnOk};
ghost use Rattle.lfs_types.specs.Tree.{opening_world};
ghost use Rattle.lfs_model.specs.Steps.{IsLegal};
ghost use Rattle.lfs_trace.specs.Checking.{IsFirstIllegal};

use crate::checker::Checker;
use crate::fault::{EntryFault, TraceFault};
use lfs_model::journal::Entry;
use std::alloc::Global;

/// Checks that entries are a legal run from the tree of a fresh volume with so many inode numbers, 16 to 4,096, and
/// segments.
///
/// # Errors
///
/// `Illegal` with the index of the first entry that the rules don't allow behind those before it; `Volume` where there
/// is no such volume, or no memory for one; `Memory`.
pub fn check_trace(
    alloc: Global,
    numbers: u32,
    segments: u32,
    entries: &[Entry],
) -> Result<(), TraceFault>
    ensures legal { OnOk result (IsLegal numbers segments entries.now opening_world) }
    ensures first { IfErr result (λ fault. (at : ℕ) → fault ≡ TraceFault.Illegal at
        → IsFirstIllegal numbers segments entries.now at) }
{
    let mut checker = Checker::new(alloc, numbers, segments)?;
    for (at, entry) in entries.iter().enumerate() {
        match checker.entry(entry) {
            Ok(()) => (),
            Err(EntryFault::Illegal) => return Err(TraceFault::Illegal(at)),
            Err(EntryFault::Memory) => return Err(TraceFault::Memory),
        }
    }
    Ok(())
}
