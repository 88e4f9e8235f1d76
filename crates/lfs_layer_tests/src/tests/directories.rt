//! Blocks whose bytes are written out by hand.

use super::{block_of, expect_bytes, expect_eq};
use lfs_dirs::{added, entries, find, is_directory_block, removed, replaced};
use lfs_types::block::{BLOCK_SIZE, Block};
use lfs_types::name::Name;
use std::alloc::Global;
use std::process::Abort;

/// A block of two entries with names of `first` bytes `a` and of `second` bytes `b`, as long as they fit.
fn two_long_names(first: u8, second: u8) -> Block {
    let mut block = [0; BLOCK_SIZE];
    block[3] = 7;
    block[4] = first;
    let end = 5 + usize::from(first);
    block[5..end].fill(b'a');
    block[end + 3] = 9;
    block[end + 4] = second;
    block[end + 5..(end + 5 + usize::from(second)).min(BLOCK_SIZE)].fill(b'b');
    block
}

fn name_of(rt: &impl Abort, alloc: Global, bytes: &[u8]) -> Name {
    Name::parse(alloc, bytes).expect(rt, "a name")
}

/// The block with the entry added, once what `added` asks for holds.
fn add(rt: &impl Abort, alloc: Global, block: &Block, name: &[u8], number: u32) -> Option<Block> {
    let name = name_of(rt, alloc, name);
    assert!(rt; is_directory_block(block) && number > 0 && find(block, &name).is_none());
    added(block, &name, number)
}

/// Asserts that the first entry of this name has this number, or that the name has none.
fn expect_entry(rt: &impl Abort, alloc: Global, block: &Block, name: &[u8], number: Option<u32>) {
    expect_eq(rt, find(block, &name_of(rt, alloc, name)), number);
}

#[test]
fn example_block(rt: HostRuntime) {
    let alloc = rt.alloc();
    let block = add(&rt, alloc, &[0; BLOCK_SIZE], b"ab", 4).expect(&rt, "room");
    expect_bytes(&rt, &block, &block_of(b"\x00\x00\x00\x04\x02ab"));
    expect_entry(&rt, alloc, &block, b"ab", Some(4));
    expect_entry(&rt, alloc, &block, b"a", None);
}

#[test]
fn two_names_of_251_bytes_fill_a_block(rt: HostRuntime) {
    let alloc = rt.alloc();
    let one = add(&rt, alloc, &[0; BLOCK_SIZE], &[b'a'; 251], 7).expect(&rt, "room for one");
    let two = add(&rt, alloc, &one, &[b'b'; 251], 9).expect(&rt, "room for two");
    expect_bytes(&rt, &two, &two_long_names(251, 251));
    expect_eq(&rt, entries(&two).count(), 2);
    expect_eq(&rt, add(&rt, alloc, &two, b"c", 11), None);
}

/// The block with the entry of this name removed, if it has one.
fn remove(rt: &impl Abort, alloc: Global, block: &Block, name: &[u8]) -> Option<Block> {
    assert!(rt; is_directory_block(block));
    removed(block, &name_of(rt, alloc, name))
}

#[test]
fn removal_closes_the_list_up(rt: HostRuntime) {
    let alloc = rt.alloc();
    let block = block_of(b"\x00\x00\x00\x04\x02ab\x00\x00\x0f\xff\x01c\x00\x00\x00\x05\x03xyz");
    let expected = block_of(b"\x00\x00\x0f\xff\x01c\x00\x00\x00\x05\x03xyz");
    let left = remove(&rt, alloc, &block, b"ab").expect(&rt, "the name is listed");
    expect_bytes(&rt, &left, &expected);
    expect_eq(&rt, remove(&rt, alloc, &block, b"unknown"), None);
}

/// Asserts what a block becomes once the entry of this name has this number.
fn expect_replaced(
    rt: &impl Abort,
    alloc: Global,
    block: &Block,
    name: &[u8],
    number: u32,
    wanted: &Block,
) {
    let name = name_of(rt, alloc, name);
    assert!(rt; is_directory_block(block) && number > 0 && find(block, &name).is_some());
    expect_bytes(rt, &replaced(block, &name, number), wanted);
}

#[test]
fn a_replaced_entry_keeps_its_place_and_name(rt: HostRuntime) {
    let alloc = rt.alloc();
    let block = block_of(b"\x00\x00\x00\x04\x02ab\x00\x00\x0f\xff\x01c\x00\x00\x00\x05\x03xyz");
    let first = block_of(b"\x00\x00\x01\x02\x02ab\x00\x00\x0f\xff\x01c\x00\x00\x00\x05\x03xyz");
    let middle = block_of(b"\x00\x00\x00\x04\x02ab\x00\x00\x01\x02\x01c\x00\x00\x00\x05\x03xyz");
    let last = block_of(b"\x00\x00\x00\x04\x02ab\x00\x00\x0f\xff\x01c\x00\x00\x01\x02\x03xyz");
    expect_replaced(&rt, alloc, &block, b"ab", 0x102, &first);
    expect_replaced(&rt, alloc, &block, b"c", 0x102, &middle);
    expect_replaced(&rt, alloc, &block, b"xyz", 0x102, &last);
    expect_replaced(&rt, alloc, &block, b"c", 0xfff, &block);
}

/// Bytes with which blocks begin, and how many entries these list.
const COUNTS: [(&[u8], usize); 4] = [
    (b"", 0),
    (b"\x00\x00\x00\x04\x02ab", 1),
    // No length.
    (b"\x00\x00\x00\x04\x00\x00\x00\x00\x05\x01a", 0),
    // No number.
    (b"\x00\x00\x00\x00\x01a\x00\x00\x00\x05\x01b", 0),
];

/// Asserts how many entries a block lists.
fn expect_count(rt: &impl Abort, block: &Block, count: usize) {
    expect_eq(rt, entries(block).count(), count);
}

/// Asserts how many entries each of these lists.
fn expect_counts(rt: &impl Abort) {
    for (start, count) in &COUNTS {
        expect_count(rt, &block_of(start), *count);
    }
    // A name up to the end, and one that runs over it.
    expect_count(rt, &two_long_names(250, 252), 2);
    expect_count(rt, &two_long_names(250, 253), 1);
}

#[test]
fn entries_of_any_block_end(rt: HostRuntime) {
    let ones = [0xff; BLOCK_SIZE];
    let mut listed = entries(&ones);
    let (number, name) = listed.next().expect(&rt, "an entry");
    expect_eq(&rt, number, u32::MAX);
    expect_eq(&rt, name, [0xff; 255].as_slice());
    expect_eq(&rt, listed.next().is_none(), true);
    expect_counts(&rt);
}

/// Asserts whether a block is a directory block.
fn expect_judged(rt: &impl Abort, block: &Block, is_one: bool) {
    expect_eq(rt, is_directory_block(block), is_one);
}

/// Blocks that begin with these bytes are no directory blocks.
const OTHERS: [&[u8]; 5] = [
    // A byte behind the end.
    b"\x00\x00\x00\x04\x02ab\x00\x00\x00\x00\x00\x01",
    // A name twice.
    b"\x00\x00\x00\x04\x01a\x00\x00\x00\x05\x01a",
    // A number without a name.
    b"\x00\x00\x00\x04",
    // A slash.
    b"\x00\x00\x00\x04\x01/",
    // Two dots.
    b"\x00\x00\x00\x04\x02..",
];

#[test]
fn other_blocks_are_no_directory_blocks(rt: HostRuntime) {
    for start in OTHERS {
        expect_judged(&rt, &block_of(start), false);
    }
    expect_judged(&rt, &[0; BLOCK_SIZE], true);
    // A full block.
    expect_judged(&rt, &two_long_names(250, 252), true);
    // Fewer than five bytes left.
    expect_judged(&rt, &two_long_names(250, 250), true);
    // A name that runs over the end.
    expect_judged(&rt, &two_long_names(250, 253), false);
    // A byte in what is left.
    let mut late_byte = two_long_names(250, 250);
    late_byte[BLOCK_SIZE - 1] = 1;
    expect_judged(&rt, &late_byte, false);
}

#[test]
fn the_first_entry_of_a_name_is_found(rt: HostRuntime) {
    let block = block_of(b"\x00\x00\x00\x04\x01a\x00\x00\x00\x05\x01b\x00\x00\x00\x06\x01b");
    expect_entry(&rt, rt.alloc(), &block, b"b", Some(5));
    expect_entry(&rt, rt.alloc(), &block, b"c", None);
}
