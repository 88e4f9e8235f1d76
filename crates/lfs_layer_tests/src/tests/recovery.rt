//! A summary with a serial byte by byte, and volumes of 6 segments that are worked out by hand.

use super::{block_of, expect_bytes, expect_eq};
use lfs_recovery::{RecordPlace, newest_records, partial_segments};
use lfs_segments::segments::Segments;
use lfs_segments::serial::SerialSummary;
use lfs_segments::summary::Summary;
use lfs_types::block::{Block, ZERO_BLOCK};
use std::alloc::Global;
use std::process::Abort;

/// Serial 7, segment 0, offset 3, one entry for block 0 of file 4 in version 1.
const EXAMPLE: [u8; 28] = [
    0x4c, 0x46, 0x53, 0x53, 0, 0, 0, 0, 0, 3, 0, 1, 0, 0, 0, 7, 0, 0, 0, 4, 0, 0, 0, 1, 0, 0, 0, 0,
];

/// One entry, for an inode block. Segment, offset and serial are to be filled in.
const INODES: [u8; 28] = [
    0x4c, 0x46, 0x53, 0x53, 0, 0, 0, 0, 0, 0, 0, 1, 0, 0, 0, 0, 0, 0, 0, 0, 0, 0, 0, 0, 0xff, 0xff,
    0xff, 0xff,
];

/// The record of file 4, owner and group 7, mode 0644, empty. The version is to be filled in.
const RECORD: [u8; 22] = [
    0, 2, 0, 1, 0, 0, 0, 4, 0, 0, 0, 0, 0, 0, 0, 7, 0, 0, 0, 7, 1, 0xa4,
];

/// The summary, with this serial, of an inode block in segment 0 or another below 6.
fn summary_at(segment: u8, offset: u8, serial: u8) -> Block {
    let mut block = block_of(&INODES);
    block[7] = segment;
    block[9] = offset;
    block[15] = serial;
    block
}

/// The inode block with the record of file 4 in this version.
fn record(version: u8) -> Block {
    let mut block = block_of(&RECORD);
    block[11] = version;
    block
}

/// A new volume.
fn volume(rt: &impl Abort, alloc: Global) -> Segments {
    Segments::format(alloc, 6, 16).expect(rt, "a volume")
}

/// Writes blocks behind those of the active segment, from address 1 or 64 on.
fn put(rt: &impl Abort, memory: &mut Segments, blocks: &[Block]) {
    assert!(rt; blocks.len() <= memory.room() as usize);
    memory.append(blocks);
}

/// Makes segment 1 the active one.
fn open(rt: &impl Abort, memory: &mut Segments) {
    assert!(rt; 1 < memory.segments());
    memory.open_next(1);
}

/// Asserts which serials the whole partial segments have, and where their summaries stand.
fn expect_partials(rt: &impl Abort, alloc: Global, memory: &Segments, wanted: &[(u32, u32)]) {
    let found = partial_segments(alloc, memory).expect(rt, "no memory");
    expect_eq(rt, found.len(), wanted.len());
    for (partial, (serial, address)) in found.iter().zip(wanted) {
        expect_eq(
            rt,
            [partial.serial, partial.address, partial.count],
            [*serial, *address, 1],
        );
    }
}

/// Asserts which record of file 4 is the newest, by its version and its address.
fn expect_newest(rt: &impl Abort, alloc: Global, memory: &Segments, wanted: Option<(u32, u32)>) {
    let table = newest_records(alloc, memory).expect(rt, "no memory");
    let found = table[4].map(|place: RecordPlace| (place.version, place.address));
    expect_eq(rt, found, wanted);
    expect_eq(rt, table[5].is_none(), true);
}

#[test]
fn the_example_with_a_serial_is_spelled_and_read(rt: HostRuntime) {
    let block = block_of(&EXAMPLE);
    expect_eq(&rt, Summary::decode(&block).is_none(), true);
    let read = SerialSummary::decode(&block).expect(&rt, "a summary with a serial");
    expect_eq(&rt, read.serial, 7);
    expect_eq(&rt, read.summary.offset, 3);
    expect_bytes(&rt, &read.encode(), &block);
    let plain = read.summary.encode();
    expect_eq(&rt, plain != block, true);
    expect_eq(&rt, SerialSummary::decode(&plain).is_none(), true);
}

#[test]
fn newest_record_is_of_the_highest_serial(rt: HostRuntime) {
    let mut memory = volume(&rt, rt.alloc());
    put(&rt, &mut memory, &[summary_at(0, 1, 2), record(9)]);
    open(&rt, &mut memory);
    put(&rt, &mut memory, &[summary_at(1, 0, 1), record(8)]);
    expect_partials(&rt, rt.alloc(), &memory, &[(2, 1), (1, 64)]);
    expect_newest(&rt, rt.alloc(), &memory, Some((9, 2)));
}

#[test]
fn torn_segment_and_what_stands_behind_it_is_left_out(rt: HostRuntime) {
    let mut memory = volume(&rt, rt.alloc());
    put(&rt, &mut memory, &[summary_at(0, 1, 1), record(8)]);
    put(&rt, &mut memory, &[summary_at(0, 3, 2), ZERO_BLOCK]);
    put(&rt, &mut memory, &[summary_at(0, 5, 3), record(9)]);
    expect_partials(&rt, rt.alloc(), &memory, &[(1, 1)]);
    expect_newest(&rt, rt.alloc(), &memory, Some((8, 2)));
}

#[test]
fn summary_that_names_another_place_is_no_summary(rt: HostRuntime) {
    let mut memory = volume(&rt, rt.alloc());
    put(&rt, &mut memory, &[summary_at(0, 2, 1), record(8)]);
    expect_partials(&rt, rt.alloc(), &memory, &[]);
    expect_newest(&rt, rt.alloc(), &memory, None);
}

#[test]
fn serials_rise_along_a_log(rt: HostRuntime) {
    let mut memory = volume(&rt, rt.alloc());
    open(&rt, &mut memory);
    put(&rt, &mut memory, &[summary_at(1, 0, 3), record(8)]);
    put(&rt, &mut memory, &[summary_at(1, 2, 3), record(9)]);
    expect_partials(&rt, rt.alloc(), &memory, &[(3, 64)]);
    expect_newest(&rt, rt.alloc(), &memory, Some((8, 65)));
}

#[test]
fn log_goes_on_until_a_serial_falls(rt: HostRuntime) {
    let mut memory = volume(&rt, rt.alloc());
    put(&rt, &mut memory, &[summary_at(0, 1, 1), record(8)]);
    put(&rt, &mut memory, &[summary_at(0, 3, 3), record(9)]);
    put(&rt, &mut memory, &[summary_at(0, 5, 2), record(7)]);
    expect_partials(&rt, rt.alloc(), &memory, &[(1, 1), (3, 3)]);
    expect_newest(&rt, rt.alloc(), &memory, Some((9, 4)));
}
