//! A store that can be found.

ghost use Rattle.std.specs.Prelude.{◌≡◌, ◌↔◌, IfOk, IsTrue, Some};
ghost use Rattle.lfs_found.specs.Written.{IsFindable};
ghost use Rattle.lfs_durable.specs.Kept.{CanBeFound};

use crate::listing::are_listed;
use crate::ordering::are_ordered;
use crate::standing::are_latest;
use lfs_image::is_labelled;
use lfs_logstore::LogStore;
use lfs_recovery::partial_segments;
use lfs_segments::segments::Segments;
use std::alloc::{AllocError, Global};

/// Whether a log store can be found again in its blocks: its summaries have serials, block 0 is the label, recovery
/// finds each partial segment that was written, and the newest record of each number that has a place in the log stands
/// there, at the number's version. Where the next serial is the last one, 2^32 - 1, nothing is asked of partial
/// segments and records. Each block is read some few times.
///
/// # Errors
///
/// A growth was refused.
pub fn can_be_found(alloc: Global, store: &LogStore) -> Result<bool, AllocError>
    ensures decided { IfOk result (λ is. IsTrue is ↔ CanBeFound store.now) }
{
    let log = &store.parts().log;
    let Some(next) = log.serial() else {
        return Ok(false);
    };
    if !is_labelled(log) {
        return Ok(false);
    }
    if next == u32::MAX {
        return Ok(true);
    }
    if !is_findable(alloc, log.memory(), next)? {
        return Ok(false);
    }
    are_latest(alloc, log)
}

/// Whether recovery finds each partial segment that was written in a memory, whose next serial is given.
fn is_findable(alloc: Global, memory: &Segments, next: u32) -> Result<bool, AllocError>
    requires { memory.now.serial ≡ Some next }
    ensures { IfOk result (λ is. IsTrue is ↔ IsFindable memory.now next) }
{
    let partials = partial_segments(alloc, memory)?;
    if !are_listed(alloc, memory, &partials)? {
        return Ok(false);
    }
    are_ordered(alloc, &partials, next, memory.active())
}
