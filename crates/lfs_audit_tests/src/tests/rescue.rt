//! Volumes of 6 segments and 16 inode numbers, block by block, worked out by hand.

ghost use Rattle.std.specs.Prelude.{◌≤◌, length};
ghost use Rattle.lfs_types.specs.declared.block.TheConstants.{BLOCK_SIZE};

use super::command::{Ended, Words, expect_ended};
use super::expect_eq;
use super::image::Image;
use lfs_command::streams::Streams;
use lfs_findable::can_be_found;
use lfs_ifile::InodePlace;
use lfs_image::{load, save};
use lfs_logstore::LogStore;
use lfs_rescue::program::lfs_check;
use lfs_rescue::{RecoverFault, recover, recover_blocks};
use lfs_segments::segments::Segments;
use lfs_types::block::{Block, ZERO_BLOCK};
use lfs_types::level::Level;
use lfs_types::limits::{LEAST_FRAMES, SEGMENT_BLOCKS};
use lfs_types::store::Params;
use std::alloc::Global;
use std::process::Abort;

/// A summary of two entries in segment 0: block 0 of file 2 in version 1, an inode block. Offset and serial are to be
/// filled in.
const SUMMARY: [u8; 40] = [
    0x4c, 0x46, 0x53, 0x53, 0, 0, 0, 0, 0, 0, 0, 2, 0, 0, 0, 0, 0, 0, 0, 2, 0, 0, 0, 1, 0, 0, 0, 0,
    0, 0, 0, 0, 0, 0, 0, 0, 0xff, 0xff, 0xff, 0xff,
];

/// The record of the root, mode 0755, of one block. The block's address is to be filled in.
const ROOT: [u8; 36] = [
    0, 2, 0, 2, 0, 0, 0, 2, 0, 0, 0, 1, 0, 0, 0, 0, 0, 0, 0, 0, 1, 0xed, 0, 0, 0, 0, 0, 0, 0, 0, 0,
    0, 0, 0, 2, 0,
];

/// The record of file 4 in version 3, mode 0644, empty.
pub(super) const FILE: [u8; 22] = [
    0, 2, 0, 1, 0, 0, 0, 4, 0, 0, 0, 3, 0, 0, 0, 0, 0, 0, 0, 0, 1, 0xa4,
];

/// The directory block with the name `f` of file 4.
pub(super) const LISTED: [u8; 6] = [0, 0, 0, 4, 1, b'f'];

/// The block that begins with these bytes and goes on with zeros.
pub(super) fn block_of(bytes: &[u8]) -> Block
    requires { length bytes.now ≤ BLOCK_SIZE }
{
    let mut block = ZERO_BLOCK;
    block[..bytes.len()].copy_from_slice(bytes);
    block
}

/// The summary with this offset and serial.
fn summary(offset: u8, serial: u8) -> Block {
    let mut block = block_of(&SUMMARY);
    block[9] = offset;
    block[15] = serial;
    block
}

/// The inode block with the root's record, whose block stands at an address.
pub(super) fn root(address: u8) -> Block {
    let mut block = block_of(&ROOT);
    block[39] = address;
    block
}

/// The inode block with the record of file 4 besides.
pub(super) fn root_and_file(address: u8) -> Block {
    let mut block = root(address);
    block[128..150].copy_from_slice(&FILE);
    block
}

/// The blocks of a partial segment: a summary at address 1, the root's only block, and an inode block.
pub(super) fn partial(serial: u8, listed: &[u8], records: Block) -> [Block; 3]
    requires { length listed.now ≤ BLOCK_SIZE }
{
    [summary(1, serial), block_of(listed), records]
}

/// A memory with these blocks from address 1 on.
pub(super) fn memory_of(rt: &impl Abort, alloc: Global, blocks: &[Block]) -> Segments {
    let mut memory = Segments::format(alloc, 6, 16).expect(rt, "a volume");
    assert!(rt; blocks.len() <= memory.room() as usize);
    memory.append(blocks);
    memory
}

/// What a log shows: the address at which it ends, where the records of the root and of file 4 stand, and the next serial.
#[derive(Clone, Copy, PartialEq, Debug)]
struct Found {
    end: u32,
    root: Option<(u32, u16)>,
    file: Option<(u32, u16, u32)>,
    serial: Option<u32>,
}

/// The file that stands behind the first partial segment.
const FIRST: Found = Found {
    end: 4,
    root: Some((3, 0)),
    file: Some((3, 1, 3)),
    serial: Some(2),
};

/// What the log of a store shows.
fn shown(rt: &impl Abort, store: &LogStore) -> Found {
    let log = &store.parts().log;
    assert!(rt; log.inodes() > 4);
    let root = log.place(2);
    let file = log.place(4);
    Found {
        end: log.next_address(),
        root: root.map(|place: InodePlace| (place.addr, place.slot)),
        file: file.map(|place: InodePlace| (place.addr, place.slot, place.version)),
        serial: log.serial(),
    }
}

/// What the store shows that is found in a memory.
fn recovered(rt: &impl Abort, alloc: Global, memory: &Segments) -> Found {
    let store = recover(alloc, memory, LEAST_FRAMES).expect(rt, "a volume");
    shown(rt, &store)
}

/// What the store shows that is found in the bytes of blocks.
fn recovered_bytes(rt: &impl Abort, alloc: Global, bytes: &[u8]) -> Found {
    let store = recover_blocks(alloc, bytes, LEAST_FRAMES);
    shown(rt, &store.expect(rt, "a volume"))
}

/// Asserts what the store shows that is found in a memory with these blocks.
fn expect_found(rt: &impl Abort, alloc: Global, blocks: &[Block], wanted: Found) {
    let memory = memory_of(rt, alloc, blocks);
    expect_eq(rt, recovered(rt, alloc, &memory), wanted);
}

/// What is told where no volume is found in a memory.
fn fault_in(rt: &impl Abort, alloc: Global, memory: &Segments) -> String {
    let found = recover(alloc, memory, LEAST_FRAMES);
    let fault = found.err().expect(rt, "no volume");
    format!(in alloc; "fault: {fault}\n").expect(rt, "memory")
}

/// Asserts that no volume is found in a memory with these blocks, and in which line `lfs_check` tells why.
fn expect_lost(rt: &impl Abort, alloc: Global, blocks: &[Block], line: &str) {
    let memory = memory_of(rt, alloc, blocks);
    expect_eq(rt, fault_in(rt, alloc, &memory).as_str(), line);
    let bytes = bytes_in(rt, alloc, &memory);
    expect_ended(rt, &searched(alloc, &bytes), (1, line, ""));
}

/// The bytes of a memory's blocks.
pub(super) fn bytes_in(rt: &impl Abort, alloc: Global, memory: &Segments) -> Vec<u8> {
    let mut bytes = Vec::new(alloc);
    for address in 0..memory.segments() * SEGMENT_BLOCKS {
        bytes
            .extend_from_slice(memory.block(address))
            .expect(rt, "memory");
    }
    bytes
}

/// How `lfs_check` ends that looks for a volume in these bytes.
fn searched(alloc: Global, blocks: &[u8]) -> Ended {
    let words: &[&[u8]] = &[b"lfs_check", b"--recover"];
    let env = (Words { words }, alloc);
    let files = Image { bytes: &[] };
    let mut streams = Streams {
        stdin: blocks,
        stdout: Vec::new(alloc),
        stderr: Vec::new(alloc),
    };
    let status = lfs_check(&env, &files, &mut streams);
    Ended {
        status,
        out: streams.stdout,
        err: streams.stderr,
    }
}

/// The bytes of a store's blocks.
fn bytes_of(rt: &impl Abort, alloc: Global, store: &LogStore) -> Vec<u8> {
    let log = &store.parts().log;
    let mut bytes = Vec::new(alloc);
    for address in 0..log.segments() * SEGMENT_BLOCKS {
        bytes
            .extend_from_slice(log.block(address))
            .expect(rt, "memory");
    }
    bytes
}

#[test]
fn file_that_is_named_is_found(rt: HostRuntime) {
    let blocks = [summary(1, 1), block_of(&LISTED), root_and_file(2)];
    expect_found(&rt, rt.alloc(), &blocks, FIRST);
}

#[test]
fn file_that_was_removed_is_not(rt: HostRuntime) {
    let blocks = [
        summary(1, 1),
        block_of(&LISTED),
        root_and_file(2),
        summary(4, 2),
        ZERO_BLOCK,
        root(5),
    ];
    let wanted = Found {
        end: 7,
        root: Some((6, 0)),
        file: None,
        serial: Some(3),
    };
    expect_found(&rt, rt.alloc(), &blocks, wanted);
}

#[test]
fn torn_partial_segment_leaves_what_was_before(rt: HostRuntime) {
    let blocks = [
        summary(1, 1),
        block_of(&LISTED),
        root_and_file(2),
        summary(4, 2),
        block_of(&LISTED),
    ];
    expect_found(&rt, rt.alloc(), &blocks, FIRST);
}

#[test]
fn nothing_is_found_where_nothing_was_written(rt: HostRuntime) {
    let memory = memory_of(&rt, rt.alloc(), &[]);
    let found = recover(rt.alloc(), &memory, LEAST_FRAMES);
    expect_eq(&rt, found.err(), Some(RecoverFault::Empty));
}

#[test]
fn last_serial_tells_no_order(rt: HostRuntime) {
    let mut blocks = partial(0xff, &LISTED, root_and_file(2));
    blocks[0][12..15].copy_from_slice(&[0xff, 0xff, 0xff]);
    let line = "fault: the last serial is given out, and does not tell which is the newest\n";
    expect_lost(&rt, rt.alloc(), &blocks, line);
    blocks[0][15] = 0xfe;
    let wanted = Found {
        serial: Some(0xffff_ffff),
        ..FIRST
    };
    expect_found(&rt, rt.alloc(), &blocks, wanted);
}

#[test]
fn record_of_another_block_is_told(rt: HostRuntime) {
    let alloc = rt.alloc();
    let mut far = root_and_file(2);
    far[38..40].copy_from_slice(&[1, 0x80]);
    let line = "fault: block 131 of number 2 has an address past the volume's blocks\n";
    expect_lost(&rt, alloc, &partial(1, &LISTED, far), line);
    let mut newer = root_and_file(2);
    newer[11] = 2;
    let line =
        "fault: the log names another block, or none, at the address of block 131 of number 2\n";
    expect_lost(&rt, alloc, &partial(1, &LISTED, newer), line);
}

#[test]
fn names_of_no_tree_are_told(rt: HostRuntime) {
    let alloc = rt.alloc();
    let unused = [0, 0, 0, 5, 1, b'f'];
    let line = "fault: directory 2 lists number 5, which is not in use\n";
    expect_lost(&rt, alloc, &partial(1, &unused, root(2)), line);
    let twice = [0, 0, 0, 4, 1, b'f', 0, 0, 0, 4, 1, b'g'];
    let line = "fault: number 4 is listed twice\n";
    expect_lost(&rt, alloc, &partial(1, &twice, root_and_file(2)), line);
    let same = [0, 0, 0, 4, 1, b'f', 0, 0, 0, 4, 1, b'f'];
    let line = "fault: block 0 of directory 2 is no directory block\n";
    expect_lost(&rt, alloc, &partial(1, &same, root_and_file(2)), line);
    let itself = [0, 0, 0, 2, 1, b'f'];
    let line = "fault: directory 2 lists the root\n";
    expect_lost(&rt, alloc, &partial(1, &itself, root(2)), line);
    let line = "fault: the root is no directory\n";
    expect_lost(&rt, alloc, &partial(1, &LISTED, block_of(&FILE)), line);
}

/// What the store shows that is found in a memory with these blocks, and what is found again in the bytes of its blocks.
fn found_twice(rt: &impl Abort, alloc: Global, blocks: &[Block]) -> [Found; 2] {
    let memory = memory_of(rt, alloc, blocks);
    let store = recover(alloc, &memory, LEAST_FRAMES).expect(rt, "a volume");
    let bytes = bytes_of(rt, alloc, &store);
    [shown(rt, &store), recovered_bytes(rt, alloc, &bytes)]
}

#[test]
fn volume_is_found_twice(rt: HostRuntime) {
    let blocks = [
        summary(1, 1),
        block_of(&LISTED),
        root_and_file(2),
        summary(4, 7),
        block_of(&LISTED),
    ];
    expect_eq(&rt, found_twice(&rt, rt.alloc(), &blocks), [FIRST, FIRST]);
}

/// The blocks of a new volume whose summaries have serials.
fn with_serials(rt: &impl Abort, alloc: Global) -> Vec<u8> {
    let params = Params {
        segments: 6,
        inodes: 16,
        frames: 32,
        journal: 1,
    };
    match LogStore::format_with_serials(alloc, params) {
        Ok(store) => bytes_of(rt, alloc, &store),
        Err(_) => panic!(rt; "no store"),
    }
}

#[test]
fn store_with_serials_is_found(rt: HostRuntime) {
    let bytes = with_serials(&rt, rt.alloc());
    let wanted = Found {
        end: 3,
        root: Some((2, 0)),
        file: None,
        serial: Some(2),
    };
    expect_eq(&rt, recovered_bytes(&rt, rt.alloc(), &bytes), wanted);
}

#[test]
fn bytes_of_other_lengths_are_no_blocks(rt: HostRuntime) {
    let found = recover_blocks(rt.alloc(), &[0; 512], LEAST_FRAMES);
    expect_eq(&rt, found.err(), Some(RecoverFault::Length));
}

/// Whether the volume that is found in these bytes can be found again.
fn is_findable(rt: &impl Abort, alloc: Global, bytes: &[u8]) -> bool {
    let store = recover_blocks(alloc, bytes, LEAST_FRAMES).expect(rt, "a volume");
    can_be_found(alloc, &store).expect(rt, "memory")
}

/// Whether the volume of an image can be found again.
fn is_loaded_findable(rt: &impl Abort, alloc: Global, image: &[u8]) -> bool {
    match load(alloc, image, LEAST_FRAMES) {
        Ok((store, _)) => can_be_found(alloc, &store).expect(rt, "memory"),
        Err(_) => panic!(rt; "no image"),
    }
}

/// Puts a block behind so many bytes.
fn put(rt: &impl Abort, bytes: &mut Vec<u8>, place: usize, block: &Block)
    requires { place ≤ 65536 }
{
    match bytes.as_mut_slice().get_mut(place..place + 512) {
        Some(room) => room.copy_from_slice(block),
        None => panic!(rt; "no room"),
    }
}

/// The summary of a partial segment at the beginning of segment 1 that a crash tore.
fn torn(serial: u8) -> Block {
    let mut block = summary(0, serial);
    block[7] = 1;
    block
}

/// The bytes of a volume's blocks, with that block at the beginning of segment 1.
fn beside_torn(rt: &impl Abort, alloc: Global, block: &Block) -> Vec<u8> {
    let memory = memory_of(rt, alloc, &partial(1, &LISTED, root_and_file(2)));
    let mut bytes = bytes_in(rt, alloc, &memory);
    put(rt, &mut bytes, 32_768, block);
    bytes
}

#[test]
fn torn_partial_segment_in_an_opened_segment_is_not_kept(rt: HostRuntime) {
    let alloc = rt.alloc();
    let bytes = beside_torn(&rt, alloc, &torn(2));
    expect_eq(&rt, is_findable(&rt, alloc, &bytes), true);
    let store = recover_blocks(alloc, &bytes, LEAST_FRAMES).expect(&rt, "a volume");
    let again = recovered_bytes(&rt, alloc, &bytes_of(&rt, alloc, &store));
    expect_eq(&rt, [shown(&rt, &store), again], [FIRST, FIRST]);
}

#[test]
fn volume_beside_a_torn_partial_segment_cannot_be_found(rt: HostRuntime) {
    let alloc = rt.alloc();
    let bytes = beside_torn(&rt, alloc, &ZERO_BLOCK);
    let store = recover_blocks(alloc, &bytes, LEAST_FRAMES).expect(&rt, "a volume");
    let mut image = Vec::new(alloc);
    save(&store.parts().log, Level::HighlySecure, &mut image).expect(&rt, "memory");
    expect_eq(&rt, is_loaded_findable(&rt, alloc, &image), true);
    put(&rt, &mut image, 33_280, &torn(2));
    expect_eq(&rt, is_loaded_findable(&rt, alloc, &image), false);
    put(&rt, &mut image, 33_280, &torn(0));
    expect_eq(&rt, is_loaded_findable(&rt, alloc, &image), true);
}

/// Whether a new volume can be found again, of the greatest sizes, with serials or without.
fn is_new_findable(rt: &impl Abort, alloc: Global, serials: bool) -> bool {
    let params = Params {
        segments: 1_024,
        inodes: 4_096,
        frames: 32,
        journal: 1,
    };
    let made = if serials {
        LogStore::format_with_serials(alloc, params)
    } else {
        LogStore::format(alloc, params)
    };
    match made {
        Ok(store) => can_be_found(alloc, &store).expect(rt, "memory"),
        Err(_) => panic!(rt; "no store"),
    }
}

#[test]
fn new_volume_can_be_found_by_its_serials(rt: HostRuntime) {
    expect_eq(&rt, is_new_findable(&rt, rt.alloc(), true), true);
    expect_eq(&rt, is_new_findable(&rt, rt.alloc(), false), false);
}
