//! Whether the newest record of each number stands where the inode map has it.

ghost use Rattle.std.specs.Prelude.{◌↔◌, IfOk, IsTrue};
ghost use Rattle.lfs_findable.specs.Judging.{AreLatest, IsAnyFindable, IsPlaceOf, StandsAt};

use lfs_ifile::InodePlace;
use lfs_log::Log;
use lfs_recovery::{RecordPlace, newest_records};
use std::alloc::{AllocError, Global};

/// Whether the newest record of each number that has a place in the log stands there, at the number's version.
pub(crate) fn are_latest(alloc: Global, log: &Log) -> Result<bool, AllocError>
    requires { IsAnyFindable log.now.memory }
    ensures { IfOk result (λ are. IsTrue are ↔ AreLatest log.now) }
{
    let newest = newest_records(alloc, log.memory())?;
    for number in 0..log.inodes() {
        if !stands_at(log.place(number), &newest[number as usize]) {
            return Ok(false);
        }
    }
    Ok(true)
}

/// Whether a number that has a place in the log has its newest record there.
fn stands_at(place: Option<InodePlace>, newest: &Option<RecordPlace>) -> bool
    ensures { IsTrue result ↔ StandsAt place newest.now }
{
    let Some(place) = place else {
        return true;
    };
    if place.addr == 0 {
        return true;
    }
    is_place_of(place, newest)
}

/// Whether a place is that of a record.
fn is_place_of(place: InodePlace, newest: &Option<RecordPlace>) -> bool
    ensures { IsTrue result ↔ IsPlaceOf place newest.now }
{
    let Some(newest) = newest else {
        return false;
    };
    if place.addr != newest.address {
        return false;
    }
    if u32::from(place.slot) != newest.slot {
        return false;
    }
    place.version == newest.version
}
