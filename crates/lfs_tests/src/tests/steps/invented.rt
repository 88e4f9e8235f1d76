//! Lists of infos that no honest cleaner hands in: one info many times, the address of another file's block, and an
//! address that a block had and has again.

use super::cleaning::{Tried, empty_segment, is_dirty, located, mark, try_to_clean};
use super::run;
use super::run_steps_rows::{first_info, leave_first_segment};
use crate::tests::{SMALL, expect_eq, fresh};
use lfs_logstore::LogStore;
use lfs_types::cleaner::BlockInfo;
use lfs_types::store::Params;
use lfs_volume::volume::Volume;
use std::alloc::Global;
use std::process::Abort;

/// The numbers of the volume: each round here is some twenty calls.
const LONG: Params = Params {
    journal: 100_000,
    ..SMALL
};

/// The first block of `/a`, at no address.
const BLOCK_OF_A: BlockInfo = BlockInfo {
    ino: 4,
    version: 1,
    lbn: 0,
    addr: 0,
};

/// The first block of `/b`, at no address.
const BLOCK_OF_B: BlockInfo = BlockInfo {
    ino: 5,
    ..BLOCK_OF_A
};

/// The present address of a block.
fn present_address(rt: &impl Abort, volume: &mut Volume<LogStore>, block: BlockInfo) -> u32 {
    let infos = located(rt, volume, &[block]);
    infos.items().first().expect(rt, "an info").addr
}

/// `/a` is read.
const READ: &str = "session 3\nread /a 0 9\n";

/// What a Read of `/a` serves that was not overwritten.
const OLD_BYTES: &str = "3 bytes 6f6c64\n";

/// What it serves where it was.
const NEW_BYTES: &str = "3 bytes 6e6577\n";

/// Asserts how many blocks a list of infos has written again, and what `/a` then reads as.
fn expect_marked(
    rt: &impl Abort,
    alloc: Global,
    volume: &mut Volume<LogStore>,
    infos: &[BlockInfo],
    (count, bytes): (u32, &str),
) {
    expect_eq(rt, mark(rt, volume, infos), count);
    run(rt, alloc, volume, READ, bytes);
}

#[test]
fn info_that_comes_eight_times_moves_its_block_once(rt: HostRuntime) {
    let mut volume = fresh(&rt, rt.alloc(), LONG);
    leave_first_segment(&rt, rt.alloc(), &mut volume);
    let infos = [first_info(&rt, &mut volume); 8];
    expect_marked(&rt, rt.alloc(), &mut volume, &infos, (1, OLD_BYTES));
    expect_marked(&rt, rt.alloc(), &mut volume, &infos, (0, OLD_BYTES));
}

#[test]
fn address_of_another_files_block_moves_nothing(rt: HostRuntime) {
    let mut volume = fresh(&rt, rt.alloc(), LONG);
    leave_first_segment(&rt, rt.alloc(), &mut volume);
    let addr = present_address(&rt, &mut volume, BLOCK_OF_B);
    let infos = [BlockInfo { addr, ..BLOCK_OF_A }];
    expect_marked(&rt, rt.alloc(), &mut volume, &infos, (0, OLD_BYTES));
}

/// Cleans each dirty segment.
fn sweep(rt: &impl Abort, volume: &mut Volume<LogStore>) {
    for segment in 0..SMALL.segments {
        if is_dirty(rt, volume, segment) {
            empty_segment(rt, volume, segment);
            expect_eq(rt, try_to_clean(rt, volume, segment), (Tried::Cleaned, 1));
        }
    }
}

/// `/a` is overwritten.
const WRITE: &str = "session 3\nwrite /a at 0 6e6577\nsync\n";

/// Its mode is set, which writes its record alone: so the next Write begins two blocks further on, and not three.
const CHMOD: &str = "session 3\nchmod /a 0644\nsync\n";

/// Writes `/a` until its block has this address again, in at most 512 rounds.
fn write_until_at(rt: &impl Abort, alloc: Global, volume: &mut Volume<LogStore>, address: u32) {
    for round in 0..512 {
        sweep(rt, volume);
        if round % 5 == 0 {
            run(rt, alloc, volume, CHMOD, "3 ok\n3 ok\n");
        }
        run(rt, alloc, volume, WRITE, "3 ok\n3 ok\n");
        if present_address(rt, volume, BLOCK_OF_A) == address {
            return;
        }
    }
    panic!(rt; "another address each time");
}

/// Leaves segment 0, cleans it, and writes `/a` until its block has its old address, whose info it gives.
fn come_back(rt: &impl Abort, alloc: Global, volume: &mut Volume<LogStore>) -> BlockInfo {
    leave_first_segment(rt, alloc, volume);
    let old = first_info(rt, volume);
    write_until_at(rt, alloc, volume, old.addr);
    expect_eq(rt, is_dirty(rt, volume, 0), false);
    old
}

#[test]
fn old_info_is_a_present_one_where_its_address_came_back(rt: HostRuntime) {
    let mut volume = fresh(&rt, rt.alloc(), LONG);
    let old = come_back(&rt, rt.alloc(), &mut volume);
    expect_marked(&rt, rt.alloc(), &mut volume, &[old], (1, NEW_BYTES));
}

/// Writes `/b` until segment 0 is dirty.
fn leave_again(rt: &impl Abort, alloc: Global, volume: &mut Volume<LogStore>) {
    for _ in 0..25 {
        if is_dirty(rt, volume, 0) {
            return;
        }
        run(
            rt,
            alloc,
            volume,
            "session 3\nwrite /b at 0 62\nsync\n",
            "3 ok\n3 ok\n",
        );
    }
    panic!(rt; "the segment stays active");
}

#[test]
fn old_info_is_a_present_one_in_a_dirty_segment_too(rt: HostRuntime) {
    let mut volume = fresh(&rt, rt.alloc(), LONG);
    let old = come_back(&rt, rt.alloc(), &mut volume);
    leave_again(&rt, rt.alloc(), &mut volume);
    expect_marked(&rt, rt.alloc(), &mut volume, &[old], (1, NEW_BYTES));
}
