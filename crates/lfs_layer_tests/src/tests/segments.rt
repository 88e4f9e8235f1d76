//! The worked example of a summary block, and each call of the memory at values.

ghost use Rattle.std.specs.Prelude.{◌≡◌, ◌*◌, ◌<◌, ◌≤◌, All, [], length};
ghost use Rattle.lfs_segments.specs.Entry.{IsEntry};
ghost use Rattle.lfs_segments.specs.Log.{Expects};
ghost use Rattle.lfs_segments.specs.Memory.{room_of};

use super::{block_of, expect_bytes, expect_eq};
use lfs_segments::entry::{LogicalBlock, SummaryEntry};
use lfs_segments::segments::{Segments, log_start};
use lfs_segments::summary::Summary;
use lfs_types::block::Block;
use lfs_types::fault::FormatFault;
use std::alloc::Global;
use std::process::Abort;

/// Segment 0, offset 3, one entry for block 0 of file 4 in version 1.
const EXAMPLE: [u8; 28] = [
    0x4c, 0x46, 0x53, 0x53, 0, 0, 0, 0, 0, 3, 0, 1, 0, 0, 0, 0, 0, 0, 0, 4, 0, 0, 0, 1, 0, 0, 0, 0,
];

/// Segment 0, offset 3, the entries of `double_and_child`.
const DOUBLE: [u8; 40] = [
    0x4c, 0x46, 0x53, 0x53, 0, 0, 0, 0, 0, 3, 0, 2, 0, 0, 0, 0, // two entries
    0, 0, 0, 4, 0, 0, 0, 1, 0x80, 0, 0, 1, // the double indirect block
    0, 0, 0, 4, 0, 0, 0, 1, 0x80, 0, 1, 0x7f, // its last child
];

/// Segment 1,023, offset 3, one entry for block 5 of file 4 in version 1.
const LAST: [u8; 28] = [
    0x4c, 0x46, 0x53, 0x53, 0, 0, 0x03, 0xff, 0, 3, 0, 1, 0, 0, 0, 0, 0, 0, 0, 4, 0, 0, 0, 1, 0, 0,
    0, 5,
];

/// Segment 0, offset 1, serial 1, entries for the first and the last block of file 4 in version 1.
const FIRST: [u8; 40] = [
    0x4c, 0x46, 0x53, 0x53, 0, 0, 0, 0, 0, 1, 0, 2, 0, 0, 0, 1, // two entries, serial 1
    0, 0, 0, 4, 0, 0, 0, 1, 0, 0, 0, 0, // block 0
    0, 0, 0, 4, 0, 0, 0, 1, 0, 0, 0x40, 0x8b, // block 16,523
];

/// Segment 0, offset 4, serial 2, one entry for block 5 of file 4 in version 1.
const SECOND: [u8; 28] = [
    0x4c, 0x46, 0x53, 0x53, 0, 0, 0, 0, 0, 4, 0, 1, 0, 0, 0, 2, 0, 0, 0, 4, 0, 0, 0, 1, 0, 0, 0, 5,
];

/// The entry of a data block of file 4 in its first version.
fn data(index: u32) -> SummaryEntry
    requires { index < 16524 }
    ensures { IsEntry result }
{
    SummaryEntry {
        number: 4,
        version: 1,
        block: LogicalBlock::Data(index),
    }
}

/// The entries of the double indirect block and of its last child of file 4 in its first version.
fn double_and_child() -> [SummaryEntry; 2]
    ensures { All IsEntry result }
{
    [
        SummaryEntry {
            number: 4,
            version: 1,
            block: LogicalBlock::Double,
        },
        SummaryEntry {
            number: 4,
            version: 1,
            block: LogicalBlock::Child(127),
        },
    ]
}

/// The summary that the example spells.
fn example() -> Summary {
    Summary::new(0, 3, &[data(0)])
}

/// Asserts that a block spells this summary.
fn expect_summary(rt: &impl Abort, block: &Block, summary: &Summary) {
    expect_bytes(rt, &summary.encode(), block);
    assert!(rt; Summary::decode(block) == Some(*summary));
}

/// Asserts whether a block is a summary.
fn expect_is_one(rt: &impl Abort, block: &Block, is_one: bool) {
    expect_eq(rt, Summary::decode(block).is_some(), is_one);
}

#[test]
fn the_example_is_spelled_and_read(rt: HostRuntime) {
    expect_summary(&rt, &block_of(&EXAMPLE), &example());
}

#[test]
fn double_indirect_blocks_are_spelled_and_read(rt: HostRuntime) {
    let summary = Summary::new(0, 3, &double_and_child());
    expect_summary(&rt, &block_of(&DOUBLE), &summary);
    let mut past = block_of(&DOUBLE);
    past[39] = 0x80;
    expect_is_one(&rt, &past, false);
}

#[test]
fn each_kind_of_entry_is_spelled(rt: HostRuntime) {
    for (bytes, block) in [
        ([0, 0, 0, 140], LogicalBlock::Data(140)),
        ([0, 0, 0x40, 0x8b], LogicalBlock::Data(16_523)),
        ([0x80, 0, 0, 0], LogicalBlock::Single),
        ([0x80, 0, 0, 1], LogicalBlock::Double),
        ([0x80, 0, 1, 0], LogicalBlock::Child(0)),
        ([0x80, 0, 1, 0x7f], LogicalBlock::Child(127)),
        ([0xff, 0xff, 0xff, 0xff], LogicalBlock::Inodes),
    ] {
        let number = u32::from_be_bytes(bytes);
        expect_eq(&rt, block.number(), number);
        expect_eq(&rt, LogicalBlock::from_number(number), Some(block));
    }
    for number in [16_524, 0x8000_0002, 0x8000_00ff, 0x8000_0180] {
        expect_eq(&rt, LogicalBlock::from_number(number), None);
    }
}

#[test]
fn a_loose_summary_is_none(rt: HostRuntime) {
    for (place, byte) in [(11, 0), (11, 41), (15, 1), (26, 65), (511, 1)] {
        let mut block = block_of(&EXAMPLE);
        if place < 512 {
            block[place] = byte;
        }
        expect_is_one(&rt, &block, false);
    }
    let mut late = block_of(&EXAMPLE);
    late[9] = 60;
    for k in 0..4 {
        late[19 + 12 * k] = 4;
        late[23 + 12 * k] = 1;
    }
    late[11] = 4;
    expect_is_one(&rt, &late, false);
    late[9] = 59;
    expect_is_one(&rt, &late, true);
}

#[test]
fn each_changed_byte_is_refused_or_kept(rt: HostRuntime) {
    let mut kept = 0u32;
    for place in 0..512 {
        for byte in 0..=255 {
            let mut block = block_of(&EXAMPLE);
            block[place] = byte;
            if let Some(summary) = Summary::decode(&block) {
                expect_bytes(&rt, &summary.encode(), &block);
                kept = kept.wrapping_add(1);
            }
        }
    }
    // 512 bytes as they were; segment 3 and 255, offset 62, number 15 and 252, version three times 255
    // and 254, logical block 255, 64 and 1.
    expect_eq(&rt, kept, 2438);
}

/// The fault of a format with so many segments.
fn fault_of(alloc: Global, segments: u32) -> Option<FormatFault> {
    Segments::format(alloc, segments, 16).err()
}

#[test]
fn format_keeps_its_range(rt: HostRuntime) {
    expect_eq(&rt, fault_of(rt.alloc(), 5), Some(FormatFault::TooFew));
    expect_eq(&rt, fault_of(rt.alloc(), 6), None);
    expect_eq(&rt, fault_of(rt.alloc(), 1025), Some(FormatFault::TooMany));
}

/// Asserts that the memory has this block at this address.
fn has(rt: &impl Abort, segments: &Segments, address: u32, block: &Block)
    requires { address < segments.now.segments * 64 }
{
    expect_bytes(rt, segments.block(address), block);
}

/// The block at the start of a memory of six segments and sixteen inode numbers.
fn label() -> Block {
    block_of(&[0x4c, 0x46, 0x53, 0x31, 0, 0, 0, 6, 0, 0, 0, 16])
}

#[test]
fn memory_is_laid_out(rt: HostRuntime) {
    let segments = Segments::format(rt.alloc(), 6, 16).expect(&rt, "a memory");
    has(&rt, &segments, 0, &label());
    for address in 1..384 {
        has(&rt, &segments, address, &[0; 512]);
    }
    expect_eq(&rt, segments.room(), 63);
}

/// Appends two blocks to segment 0, and asserts that they are there.
fn two_are_appended(rt: &impl Abort, segments: &mut Segments)
    requires small { segments.old.segments ≡ 6 }
    requires room { 2 ≤ room_of segments.old }
    ensures { segments.new.segments ≡ 6 }
{
    let address = segments.append(&[block_of(&EXAMPLE), [7; 512]]);
    expect_eq(rt, [address, segments.room()], [1, 61]);
    has(rt, segments, 1, &block_of(&EXAMPLE));
    has(rt, segments, 2, &[7; 512]);
}

/// Appends a block to segment 2, and asserts that it is there.
fn one_is_appended(rt: &impl Abort, segments: &mut Segments)
    requires { segments.old.segments ≡ 6 }
    ensures { segments.new.segments ≡ 6 }
{
    segments.open_next(2);
    expect_eq(rt, segments.room(), 64);
    expect_eq(rt, segments.append(&[[9; 512]]), 128);
    has(rt, segments, 128, &[9; 512]);
}

#[test]
fn memory_is_written(rt: HostRuntime) {
    let mut segments = Segments::format(rt.alloc(), 6, 16).expect(&rt, "a memory");
    two_are_appended(&rt, &mut segments);
    one_is_appended(&rt, &mut segments);
    segments.open_next(0);
    expect_eq(&rt, segments.room(), 63);
    has(&rt, &segments, 0, &label());
    has(&rt, &segments, 2, &[0; 512]);
    has(&rt, &segments, 128, &[9; 512]);
}

/// Writes a partial segment of two data blocks and begins one of a third, and gives the addresses.
fn written(segments: &mut Segments) -> [u32; 4]
    requires ready { Expects segments.old [] }
    requires room { 5 ≤ room_of segments.old }
    ensures { segments.new.segments ≡ segments.old.segments }
{
    let summary = segments.begin(&[data(0), data(16_523)]);
    let first = segments.put(&[7; 512]);
    let second = segments.put(&[9; 512]);
    [summary, first, second, segments.begin(&[data(5)])]
}

#[test]
fn partial_segments_follow_one_another(rt: HostRuntime) {
    let mut segments = Segments::format(rt.alloc(), 1024, 16).expect(&rt, "a memory");
    expect_eq(&rt, segments.segments(), 1024);
    expect_eq(&rt, [segments.active(), segments.next_address()], [0, 1]);
    expect_eq(&rt, written(&mut segments), [1, 2, 3, 4]);
    segments.open_next(1023);
    expect_eq(
        &rt,
        [segments.active(), segments.next_address()],
        [1023, 65_472],
    );
    expect_eq(
        &rt,
        written(&mut segments),
        [65_472, 65_473, 65_474, 65_475],
    );
    expect_bytes(&rt, segments.block(65_475), &block_of(&LAST));
    has(&rt, &segments, 65_474, &[9; 512]);
    expect_eq(&rt, [log_start(0), log_start(1)], [1, 0]);
}

#[test]
fn serials_are_counted_from_1(rt: HostRuntime) {
    let mut segments = Segments::format_with_serials(rt.alloc(), 6, 16).expect(&rt, "a memory");
    expect_eq(&rt, segments.serial(), Some(1));
    expect_eq(&rt, written(&mut segments), [1, 2, 3, 4]);
    expect_bytes(&rt, segments.block(1), &block_of(&FIRST));
    expect_bytes(&rt, segments.block(4), &block_of(&SECOND));
    expect_eq(&rt, segments.serial(), Some(3));
}

#[test]
fn a_memory_without_serials_writes_none(rt: HostRuntime) {
    let mut segments = Segments::format(rt.alloc(), 6, 16).expect(&rt, "a memory");
    expect_eq(&rt, written(&mut segments), [1, 2, 3, 4]);
    let mut plain = block_of(&SECOND);
    plain[15] = 0;
    expect_bytes(&rt, segments.block(4), &plain);
    expect_eq(&rt, segments.serial(), None);
}

#[test]
fn forty_entries_fit_a_summary(rt: HostRuntime) {
    let full = Summary::new(1023, 23, &[data(16_523); 40]);
    expect_summary(&rt, &full.encode(), &full);
    assert!(rt; full.entries == [data(16_523); 40]);
}
