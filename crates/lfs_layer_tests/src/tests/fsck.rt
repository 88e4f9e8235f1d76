//! Logs that a store may stand on, and logs with one thing wrong, which is worked out by hand.

use super::expect_eq;
use lfs_fsck::{LogFault, check_log};
use lfs_log::Log;
use lfs_parts::parts::Parts;
use std::alloc::Global;
use std::process::Abort;

/// The log of a new volume of 6 segments and 16 inode numbers: the root's record stands in slot 0 of block 2.
fn fresh(rt: &impl Abort, alloc: Global) -> Log {
    match Parts::format(alloc, 6, 16, 32) {
        Ok(parts) => parts.log,
        Err(_) => panic!(rt; "no volume"),
    }
}

/// Asserts that a log has this fault, or none.
fn expect_fault(rt: &impl Abort, alloc: Global, log: &Log, fault: Option<LogFault>) {
    expect_eq(rt, check_log(alloc, log).err(), fault);
}

/// Gives out a number that isn't used.
fn give_out(rt: &impl Abort, log: &mut Log, number: u32) {
    assert!(rt; number < log.inodes());
    assert!(rt; log.place(number).is_none());
    log.give_out(number);
}

#[test]
fn log_of_a_new_volume_is_well(rt: HostRuntime) {
    let log = fresh(&rt, rt.alloc());
    expect_fault(&rt, rt.alloc(), &log, None);
}

#[test]
fn number_in_use_has_a_record(rt: HostRuntime) {
    let mut log = fresh(&rt, rt.alloc());
    give_out(&rt, &mut log, 4);
    let fault = LogFault::NoRecord { number: 4 };
    expect_fault(&rt, rt.alloc(), &log, Some(fault));
}

#[test]
fn number_three_may_not_be_in_use(rt: HostRuntime) {
    let mut log = fresh(&rt, rt.alloc());
    give_out(&rt, &mut log, 3);
    let fault = LogFault::Reserved { number: 3 };
    expect_fault(&rt, rt.alloc(), &log, Some(fault));
}

#[test]
fn live_bytes_are_of_numbers_in_use(rt: HostRuntime) {
    let mut log = fresh(&rt, rt.alloc());
    assert!(rt; 2 < log.inodes());
    assert!(rt; log.place(2).is_some());
    log.release(2);
    let fault = LogFault::Live { segment: 0 };
    expect_fault(&rt, rt.alloc(), &log, Some(fault));
}

#[test]
fn record_is_that_of_its_number(rt: HostRuntime) {
    let mut log = fresh(&rt, rt.alloc());
    give_out(&rt, &mut log, 4);
    place_in_block_two(&rt, &mut log, 4, 0);
    let fault = LogFault::OtherRecord { number: 4 };
    expect_fault(&rt, rt.alloc(), &log, Some(fault));
}

/// Places the record of a number in use that has no place into a slot of block 2.
fn place_in_block_two(rt: &impl Abort, log: &mut Log, number: u32, slot: u16) {
    assert!(rt; number < log.inodes() && slot < 4 && 2 < 64 * log.segments());
    assert!(rt; log.usage(0).live <= 32_640);
    match log.place(number) {
        Some(place) if place.addr == 0 => log.place_record(number, 2, slot),
        _ => panic!(rt; "no number without a place"),
    }
}
