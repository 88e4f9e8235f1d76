//! Whether serials tell the order of partial segments.

ghost use Rattle.std.specs.Prelude.{◌≡◌, ◌≢◌, ◌/◌, ◌<◌, ◌≤◌, ◌⊎◌, ◌↔◌, All, IfOk, IsTrue};
ghost use Rattle.lfs_types.specs.declared.limits.TheConstants.{SEGMENT_BLOCKS};
ghost use Rattle.lfs_findable.specs.Judging.{AreOrdered, HaveOnePlace, IsElsewhere, IsHighestOutside, IsInOrder};

use crate::places::Places;
use lfs_recovery::PartialSegment;
use lfs_types::limits::SEGMENT_BLOCKS;
use std::alloc::{AllocError, Global};

/// Whether the serials of some partial segments are below the next one, those in the active segment are above those of
/// all others, and no two have the same one.
pub(crate) fn are_ordered(
    alloc: Global,
    partials: &[PartialSegment],
    next: u32,
    active: u32,
) -> Result<bool, AllocError>
    requires { All (λ p. 0 < p.serial) partials.now }
    ensures { IfOk result (λ are. IsTrue are ↔ AreOrdered active next partials.now) }
{
    let highest = highest_outside(partials, active);
    if !are_in_order(partials, next, active, highest) {
        return Ok(false);
    }
    have_one_place(alloc, partials)
}

/// The highest serial of the partial segments outside a segment, 0 where there are none.
fn highest_outside(partials: &[PartialSegment], segment: u32) -> u32
    ensures { IsHighestOutside segment partials.now result }
{
    let mut highest = 0;
    for index in 0..partials.len() {
        highest = higher(highest, &partials[index], segment);
    }
    highest
}

/// The higher one of a serial and that of a partial segment, if this stands outside a segment.
fn higher(highest: u32, partial: &PartialSegment, segment: u32) -> u32
    ensures kept { highest ≤ result }
    ensures most { partial.now.address / SEGMENT_BLOCKS ≢ segment → partial.now.serial ≤ result }
    ensures one { (result ≡ highest)
        ⊎ ((partial.now.address / SEGMENT_BLOCKS ≢ segment) × (partial.now.serial ≡ result)) }
{
    if partial.address / SEGMENT_BLOCKS == segment {
        return highest;
    }
    if partial.serial < highest {
        return highest;
    }
    partial.serial
}

/// Whether serials are below the next one, and those in the active segment above the highest of the others.
fn are_in_order(partials: &[PartialSegment], next: u32, active: u32, highest: u32) -> bool
    ensures { IsTrue result ↔ All (IsInOrder active next highest) partials.now }
{
    for index in 0..partials.len() {
        if !is_in_order(&partials[index], next, active, highest) {
            return false;
        }
    }
    true
}

/// Whether a serial is below the next one, and in the active segment above the highest of the others.
fn is_in_order(partial: &PartialSegment, next: u32, active: u32, highest: u32) -> bool
    ensures { IsTrue result ↔ IsInOrder active next highest partial.now }
{
    if partial.serial >= next {
        return false;
    }
    if partial.address / SEGMENT_BLOCKS != active {
        return true;
    }
    partial.serial > highest
}

/// Whether no two partial segments have the same serial.
fn have_one_place(alloc: Global, partials: &[PartialSegment]) -> Result<bool, AllocError>
    ensures { IfOk result (λ have. IsTrue have ↔ HaveOnePlace partials.now) }
{
    let mut places = Places::new(alloc);
    for index in 0..partials.len() {
        let partial = partials[index];
        if is_elsewhere(places.find(partial.serial), partial.address) {
            return Ok(false);
        }
        places.put(partial.serial, partial.address)?;
    }
    Ok(true)
}

/// Whether a place, if there is one, is another than an address.
fn is_elsewhere(place: Option<u32>, address: u32) -> bool
    ensures { IsTrue result ↔ IsElsewhere place address }
{
    match place {
        Some(place) => place != address,
        None => false,
    }
}
