//! A volume of 6 segments whose root lists a directory that lists a file, worked out by hand.

ghost use Rattle.std.specs.Prelude.{◌≤◌, ◌+◌};
ghost use Rattle.lfs_types.specs.declared.block.TheConstants.{BLOCK_SIZE};

use super::{block_of, expect_eq};
use lfs_reach::reached;
use lfs_recovery::newest_records;
use lfs_segments::segments::Segments;
use lfs_types::block::{Block, ZERO_BLOCK};
use std::alloc::Global;
use std::process::Abort;

/// A summary with serial 1 at address 1, of four entries: block 0 of each of the files 2, 4 and 6, an inode block.
const SUMMARY: [u8; 64] = [
    0x4c, 0x46, 0x53, 0x53, 0, 0, 0, 0, 0, 1, 0, 4, 0, 0, 0, 1, 0, 0, 0, 2, 0, 0, 0, 1, 0, 0, 0, 0,
    0, 0, 0, 4, 0, 0, 0, 1, 0, 0, 0, 0, 0, 0, 0, 6, 0, 0, 0, 1, 0, 0, 0, 0, 0, 0, 0, 0, 0, 0, 0, 0,
    0xff, 0xff, 0xff, 0xff,
];

/// The record of a directory in version 1, mode 0755, of one block. Number and address are to be filled in.
const DIRECTORY: [u8; 36] = [
    0, 2, 0, 2, 0, 0, 0, 0, 0, 0, 0, 1, 0, 0, 0, 0, 0, 0, 0, 0, 1, 0xed, 0, 0, 0, 0, 0, 0, 0, 0, 0,
    0, 0, 0, 2, 0,
];

/// Puts the record of a directory, whose block stands at an address, from a place on.
fn put(block: &mut Block, at: usize, number: u8, address: u8)
    requires { at + 128 ≤ BLOCK_SIZE }
{
    block[at..at + 36].copy_from_slice(&DIRECTORY);
    block[at + 7] = number;
    block[at + 39] = address;
}

/// The inode block of the directories 2, 4 and 6.
fn directories() -> Block {
    let mut block = ZERO_BLOCK;
    put(&mut block, 0, 2, 2);
    put(&mut block, 128, 4, 3);
    put(&mut block, 256, 6, 4);
    block
}

/// A memory where the root lists 4, which lists 5 and number 8,192, and 6 lists 7.
fn volume(rt: &impl Abort, alloc: Global) -> Segments {
    let mut memory = Segments::format(alloc, 6, 16).expect(rt, "a volume");
    let blocks = [
        block_of(&SUMMARY),
        block_of(&[0, 0, 0, 4, 1, b'd']),
        block_of(&[0, 0, 0, 5, 1, b'f', 0, 0, 0x20, 0, 1, b'g']),
        block_of(&[0, 0, 0, 7, 1, b'x']),
        directories(),
    ];
    assert!(rt; blocks.len() <= memory.room() as usize);
    memory.append(&blocks);
    memory
}

#[test]
fn names_lead_from_the_root_to_what_directories_list(rt: HostRuntime) {
    let memory = volume(&rt, rt.alloc());
    let places = newest_records(rt.alloc(), &memory).expect(&rt, "a table");
    let marks = reached(rt.alloc(), &memory, &places).expect(&rt, "marks");
    expect_eq(&rt, places[6].is_some(), true);
    expect_eq(&rt, marks[2], true);
    expect_eq(&rt, marks[4], true);
    expect_eq(&rt, marks[5], true);
    expect_eq(&rt, marks[3], false);
    expect_eq(&rt, marks[6], false);
    expect_eq(&rt, marks[7], false);
}
