//! A volume found again.

ghost use Rattle.std.specs.Prelude.{◌≡◌, ◌≤◌, ◌<◌, ℕ, IfErr, IfOk, false, true};
ghost use Rattle.lfs_types.specs.Ranges.{least_frames, most_frames};
ghost use Rattle.lfs_calls.specs.Volumes.{HasWorld};
ghost use Rattle.lfs_recovery.specs.declared.places.PartialSegment.{PartialSegment};
ghost use Rattle.lfs_recovery.specs.Logs.{IsLogged};
ghost use Rattle.lfs_logstore.specs.States.{state_of};
ghost use Rattle.lfs_fsck.specs.Stored.{IsStored, stored};
ghost use Rattle.lfs_image.specs.Image.{IsLabelled};
ghost use Rattle.lfs_rescue.specs.declared.fault.RecoverFault.TheVariants.{Memory};
ghost use Rattle.lfs_rescue.specs.Building.{IsBuildFault, IsFoundOf};
ghost use Rattle.lfs_rescue.specs.Contents.{FindsAllOf, IsFindableAgain, IsLeftOfNone};
ghost use Rattle.lfs_rescue.specs.Recovering.{IsLastOf, IsRecovered, IsRecoverFaultOf};
ghost use Rattle.lfs_rescue.specs.Recovering.{TellsTheSame, last_serial, later};

use crate::building::{Found, log_of, store_over};
use crate::counting::live_of;
use crate::fault::RecoverFault;
use crate::label::inodes_told;
use crate::naming::check_names;
use crate::rows::check_records;
use lfs_logstore::LogStore;
use lfs_reach::reached;
use lfs_recovery::{PartialSegment, newest_records, partial_segments};
use lfs_segments::segments::Segments;
use std::alloc::Global;

/// The store of the volume whose blocks a memory has, at any moment of a flush too, with a cache of so many frames, 32
/// to 1,024, all empty. Nothing waits in the store. Its summaries have serials, and the next one gets that behind the
/// highest: so what it writes is found again too. What a crash tore is not in it. Each block is read some few times, and
/// copied three times, of which one copy stays.
///
/// # Errors
///
/// No log has a partial segment; one has the last serial, which others may have too; what the blocks tell is no volume;
/// or there is no memory.
pub fn recover(alloc: Global, memory: &Segments, frames: u32) -> Result<LogStore, RecoverFault>
    requires at_least { least_frames ≤ frames }
    requires at_most { frames ≤ most_frames }
    ensures recovered { IfOk result (λ store. IsRecovered memory.now store.log) }
    // Its blocks tell the same, so it can be recovered again.
    ensures again { IfOk result (λ store. TellsTheSame memory.now store.log.memory) }
    ensures labelled { IfOk result (λ store. IsLabelled store.log) }
    // It contains what the store contained whose blocks these are, or what a crash left of them.
    ensures content { IfOk result (FindsAllOf memory.now) }
    // So it can be found again, and what is torn is not in the way.
    ensures findable { IfOk result (IsFindableAgain memory.now) }
    ensures stored { IfOk result (λ store. IsStored store.log) }
    ensures flushed { IfOk result (λ store. store ≡ stored frames store.log) }
    ensures world { IfOk result (λ store. HasWorld (state_of store)) }
    ensures fault { IfErr result (IsRecoverFaultOf memory.now) }
    // Of what a crash left of a store that lay in its log, and showed a tree, a volume is found, but for want of memory.
    ensures none { IfErr result (λ fault. (fault ≡ Memory → ⊥) → IsLeftOfNone memory.now) }
{
    let partials = partial_segments(alloc, memory)?;
    let Some(last) = last_of(&partials) else {
        return Err(RecoverFault::Empty);
    };
    if is_used_up(&last) {
        return Err(RecoverFault::LastSerial);
    }
    let store = store_behind(alloc, memory, last, frames)?;
    Ok(store)
}

/// The store of the volume that ends behind the partial segment of the highest serial.
fn store_behind(
    alloc: Global,
    memory: &Segments,
    last: PartialSegment,
    frames: u32,
) -> Result<LogStore, RecoverFault>
    requires at_least { least_frames ≤ frames }
    requires at_most { frames ≤ most_frames }
    requires logged { IsLogged memory.now last }
    requires latest { (p : PartialSegment) → IsLogged memory.now p → p.serial ≤ last.serial }
    requires counted { last.serial < last_serial }
    ensures recovered { IfOk result (λ store. IsRecovered memory.now store.log) }
    ensures labelled { IfOk result (λ store. IsLabelled store.log) }
    ensures stored { IfOk result (λ store. IsStored store.log) }
    ensures flushed { IfOk result (λ store. store ≡ stored frames store.log) }
    ensures world { IfOk result (λ store. HasWorld (state_of store)) }
    ensures content { IfOk result (FindsAllOf memory.now) }
    ensures fault { IfErr result (IsBuildFault memory.now) }
{
    let inodes = inodes_told(memory)?;
    let places = newest_records(alloc, memory)?;
    let marks = reached(alloc, memory, &places)?;
    let found = Found {
        memory,
        last,
        places: &places,
        marks: &marks,
        inodes,
    };
    store_of(alloc, found, frames)
}

/// The store of what was found.
fn store_of(alloc: Global, found: Found<'_>, frames: u32) -> Result<LogStore, RecoverFault>
    requires at_least { least_frames ≤ frames }
    requires at_most { frames ≤ most_frames }
    requires found { IsFoundOf found.memory.now found.last found.places.now found.marks.now
        found.inodes }
    ensures recovered { IfOk result (λ store. IsRecovered found.entry.memory.now store.log) }
    ensures labelled { IfOk result (λ store. IsLabelled store.log) }
    ensures stored { IfOk result (λ store. IsStored store.log) }
    ensures flushed { IfOk result (λ store. store ≡ stored frames store.log) }
    ensures world { IfOk result (λ store. HasWorld (state_of store)) }
    ensures content { IfOk result (FindsAllOf found.entry.memory.now) }
    ensures fault { IfErr result (IsBuildFault found.entry.memory.now) }
{
    let live = live_of(alloc, found)?;
    check_names(alloc, found, &live)?;
    check_records(found)?;
    let log = log_of(alloc, found, &live)?;
    let store = store_over(alloc, log, frames)?;
    Ok(store)
}

/// The partial segment of the highest serial.
fn last_of(partials: &[PartialSegment]) -> Option<PartialSegment>
    ensures { IsLastOf partials.now result }
{
    let mut last = None;
    for index in 0..partials.len() {
        last = Some(later(last, partials[index]));
    }
    last
}

/// Whether a partial segment has the last serial.
fn is_used_up(partial: &PartialSegment) -> bool
    ensures used { result ≡ true → partial.now.serial ≡ last_serial }
    ensures counted { result ≡ false → partial.now.serial < last_serial }
{
    partial.serial == u32::MAX
}

/// The one of the higher serial.
fn later(last: Option<PartialSegment>, partial: PartialSegment) -> PartialSegment
    ensures { result ≡ later last partial }
{
    match last {
        Some(last) => {
            if partial.serial < last.serial {
                last
            } else {
                partial
            }
        }
        None => partial,
    }
}
