ghost use Rattle.std.specs.Prelude.{◌≡◌, ◌<◌};
ghost use Rattle.lfs_types.specs.FlagNumbers.{IsKnown};

use super::{block_of, expect_bytes, expect_eq, mode};
use lfs_inodes::addresses::{
    address, double_address, entry, root_address, with_address, with_entry,
};
use lfs_inodes::inode::Inode;
use lfs_inodes::slots::{slot, with_slot};
use lfs_types::attrs::{Attrs, Kind};
use lfs_types::block::{Block, ZERO_BLOCK};
use lfs_types::file_flags::FileFlags;
use std::process::Abort;

/// The fields of the first version's record of file 4, version 1, owner and group 7, mode 0644, no
/// flags, size 3, first address 9. Zeros follow them.
const EXAMPLE_FIELDS: [u8; 40] = [
    0x00, 0x01, // record version
    0x00, 0x01, // file
    0x00, 0x00, 0x00, 0x04, // number
    0x00, 0x00, 0x00, 0x01, // version
    0x00, 0x00, 0x00, 0x07, // owner
    0x00, 0x00, 0x00, 0x07, // group
    0x01, 0xa4, 0x00, 0x00, // mode
    0x00, 0x00, 0x00, 0x00, // flags
    0x00, 0x00, 0x00, 0x00, 0x00, 0x00, 0x00, 0x03, // size
    0x00, 0x00, 0x00, 0x09, // first address
];

/// The fields of the record of directory 4095, version 2, mode 7777, each known flag, the greatest size,
/// and its addresses.
const FULL_FIELDS: [u8; 92] = [
    0x00, 0x02, // record version
    0x00, 0x02, // directory
    0x00, 0x00, 0x0f, 0xff, // number
    0x00, 0x00, 0x00, 0x02, // version
    0x00, 0x00, 0x00, 0x00, // owner
    0x00, 0x00, 0x00, 0x00, // group
    0x0f, 0xff, 0x00, 0x00, // mode
    0x00, 0x07, 0x00, 0x07, // flags
    0x00, 0x00, 0x00, 0x00, 0x00, 0x81, 0x18, 0x00, // size
    0x00, 0x00, 0x00, 0x01, 0x00, 0x00, 0x00, 0x02, 0x00, 0x00, 0x00, 0x03, // addresses 0 to 2
    0x00, 0x00, 0x00, 0x04, 0x00, 0x00, 0x00, 0x05, 0x00, 0x00, 0x00, 0x06, // 3 to 5
    0x00, 0x00, 0x00, 0x07, 0x00, 0x00, 0x00, 0x08, 0x00, 0x00, 0x00, 0x09, // 6 to 8
    0x00, 0x00, 0x00, 0x0a, 0x00, 0x00, 0x00, 0x0b, 0x00, 0x00, 0xff, 0xff, // 9 to 11
    0x00, 0x00, 0x00, 0x14, // single indirect block
    0x00, 0x00, 0xff, 0xfe, // double indirect block
];

/// The record that begins with these bytes and goes on with zeros.
fn record_of(fields: &[u8]) -> [u8; 128] {
    let mut bytes = [0; 128];
    let length = fields.len().min(128);
    bytes[..length].copy_from_slice(&fields[..length]);
    bytes
}

fn example_record() -> [u8; 128] {
    record_of(&EXAMPLE_FIELDS)
}

/// The record as it is written: of the second version.
fn second_version(record: &[u8; 128]) -> [u8; 128] {
    let mut bytes = *record;
    bytes[0] = 0;
    bytes[1] = 2;
    bytes
}

fn flags(bits: u32) -> FileFlags
    requires { IsKnown bits }
{
    let Some(flags) = FileFlags::new(bits) else {
        unreachable!()
    };
    flags
}

fn example() -> Inode
    ensures file { result.kind ≡ Kind.File }
    ensures size { result.size ≡ 3 }
{
    Inode {
        kind: Kind::File,
        number: 4,
        version: 1,
        owner: 7,
        group: 7,
        mode: mode(0o644),
        flags: FileFlags::none(),
        size: 3,
        direct: [9, 0, 0, 0, 0, 0, 0, 0, 0, 0, 0, 0],
        single: 0,
        double: 0,
    }
}

/// A directory of the greatest size, with all addresses of its record.
fn full() -> Inode
    ensures { result.size ≡ 8460288 }
{
    Inode {
        kind: Kind::Directory,
        number: 4095,
        version: 2,
        owner: 0,
        group: 0,
        mode: mode(0o7777),
        flags: flags(0x7_0007),
        size: 8_460_288,
        direct: [1, 2, 3, 4, 5, 6, 7, 8, 9, 10, 11, 65535],
        single: 20,
        double: 65534,
    }
}

/// An indirect block whose first address is 30 and whose last is 515.
fn full_indirect() -> Block {
    let mut block = [0; 512];
    block[3] = 30;
    block[510] = 2;
    block[511] = 3;
    block
}

/// A child of the double indirect block, whose first address is 40 and whose last is 771.
fn child() -> Block {
    let mut block = [7; 512];
    block[..4].copy_from_slice(&[0, 0, 0, 40]);
    block[508..].copy_from_slice(&[0, 0, 3, 3]);
    block
}

/// The addresses of the blocks of `full`.
const FULL: [u32; 12] = [1, 2, 3, 4, 5, 6, 7, 8, 9, 10, 11, 65535];

/// Asserts that a record is of this inode, or of none.
fn expect_inode(rt: &impl Abort, record: &[u8; 128], inode: Option<Inode>) {
    expect_eq(rt, Inode::decode(record), inode);
}

/// Asserts the addresses of the record of an inode.
fn expect_addresses(rt: &impl Abort, inode: &Inode, direct: &[u32; 12], single: u32) {
    expect_eq(rt, &inode.direct, direct);
    expect_eq(rt, inode.single, single);
}

/// Asserts that a record of the first version and the same of the second are of this inode, which is
/// written as the second.
fn expect_both_ways(rt: &impl Abort, first: &[u8; 128], inode: &Inode) {
    let second = second_version(first);
    expect_bytes(rt, &inode.encode(), &second);
    expect_inode(rt, &second, Some(*inode));
    expect_inode(rt, first, Some(*inode));
}

#[test]
fn the_example_both_ways(rt: HostRuntime) {
    expect_both_ways(&rt, &example_record(), &example());
}

#[test]
fn the_greatest_values(rt: HostRuntime) {
    let record = record_of(&FULL_FIELDS);
    expect_bytes(&rt, &full().encode(), &record);
    expect_inode(&rt, &record, Some(full()));
}

/// In a record of the first version no double indirect block has a place.
#[test]
fn the_first_version_has_no_double_indirect_block(rt: HostRuntime) {
    let mut record = record_of(&FULL_FIELDS);
    record[1] = 1;
    expect_inode(&rt, &record, None);
    record[88..92].fill(0);
    expect_both_ways(&rt, &record, &full().with_double(0));
}

/// A file of one block has no double indirect block.
#[test]
fn a_record_with_an_address_too_many_is_none(rt: HostRuntime) {
    let mut record = example_record();
    record[91] = 9;
    expect_inode(&rt, &record, None);
    expect_inode(&rt, &second_version(&record), None);
}

/// The number of records that changes of one byte make of a record. Asserts that each of them is
/// written as the same of the second version.
fn changed_records(rt: &impl Abort, record: &[u8; 128]) -> u32 {
    let mut records = 0u32;
    for place in 0..128 {
        for value in 0..=255u8 {
            let mut changed = *record;
            if changed[place] != value {
                changed[place] = value;
                if let Some(inode) = Inode::decode(&changed) {
                    expect_bytes(rt, &inode.encode(), &second_version(&changed));
                    records = records.wrapping_add(1);
                }
            }
        }
    }
    records
}

/// Of the changes of one byte of the example these stay records: one of the record's version, 267 of
/// the number, 1,019 of the version, 1,020 each of owner and group, 270 of the mode, 14 of the flags,
/// 638 of the size and 510 of the first address.
#[test]
fn each_change_of_one_byte(rt: HostRuntime) {
    expect_eq(&rt, changed_records(&rt, &example_record()), 4759);
    let second = second_version(&example_record());
    expect_eq(&rt, changed_records(&rt, &second), 4759);
}

#[test]
fn addresses_at_the_ends(rt: HostRuntime) {
    let (inode, indirect) = (full(), full_indirect());
    let places = [
        (0, 1),
        (11, 65535),
        (12, 30),
        (13, 0),
        (139, 515),
        (140, 40),
        (267, 771),
        (268, 40),
        (16_523, 771),
    ];
    for (index, wanted) in places {
        expect_eq(&rt, address(&inode, &indirect, &child(), index), wanted);
    }
    addresses_are_replaced(&rt, &inode, &indirect);
}

/// Asserts what the inode and its single indirect block become once the address of a block is
/// replaced; the child stays.
fn expect_replaced(
    rt: &impl Abort,
    (index, address): (u32, u32),
    direct: &[u32; 12],
    indirect: &Block,
) {
    assert!(rt; index < 140 && address < 65_536);
    let (inode, block, kept) = with_address(&full(), &full_indirect(), &child(), index, address);
    expect_addresses(rt, &inode, direct, 20);
    expect_bytes(rt, &block, indirect);
    expect_bytes(rt, &kept, &child());
}

/// Asserts what the child becomes once the address of a block beneath it is replaced; all else stays.
fn expect_child_replaced(rt: &impl Abort, (index, address): (u32, u32), place: usize) {
    assert!(rt; index >= 140 && index < 16_524 && address < 65_536 && place < 128);
    let mut changed = child();
    changed[4 * place..4 * place + 4].copy_from_slice(&address.to_be_bytes());
    let (inode, block, kept) = with_address(&full(), &full_indirect(), &child(), index, address);
    expect_addresses(rt, &inode, &FULL, 20);
    expect_bytes(rt, &block, &full_indirect());
    expect_bytes(rt, &kept, &changed);
}

/// Asserts what is replaced in `full` and its indirect block.
fn addresses_are_replaced(rt: &impl Abort, inode: &Inode, indirect: &Block) {
    let direct = [600, 2, 3, 4, 5, 6, 7, 8, 9, 10, 11, 65535];
    expect_replaced(rt, (0, 600), &direct, indirect);
    let direct = [1, 2, 3, 4, 5, 6, 7, 8, 9, 10, 11, 0];
    expect_replaced(rt, (11, 0), &direct, indirect);
    let mut changed = *indirect;
    changed[..8].copy_from_slice(&[0, 0, 1, 0, 0, 0, 0, 0]);
    expect_replaced(rt, (12, 256), &inode.direct, &changed);
    let mut changed = *indirect;
    changed[504..].copy_from_slice(&[0, 0, 0, 0, 0, 0, 0xff, 0xff]);
    expect_replaced(rt, (139, 65535), &inode.direct, &changed);
    expect_child_replaced(rt, (140, 65535), 0);
    expect_child_replaced(rt, (269, 0), 1);
    expect_child_replaced(rt, (16_523, 256), 127);
}

/// Asserts what inodes the slots of a block have.
fn expect_slots(rt: &impl Abort, block: &Block, inodes: [Option<Inode>; 4]) {
    for (index, inode) in inodes.iter().enumerate() {
        expect_inode(rt, &slot(block, index), *inode);
    }
}

#[test]
fn four_records_in_a_block(rt: HostRuntime) {
    let mut block = [0; 512];
    expect_slots(&rt, &block, [None; 4]);
    block = with_slot(&block, 0, &full().encode());
    block = with_slot(&block, 1, &example().encode());
    block = with_slot(&block, 3, &example().encode());
    expect_bytes(&rt, &block[..8], &[0, 2, 0, 2, 0, 0, 0x0f, 0xff]);
    let (first, last) = (Some(example()), Some(example()));
    expect_slots(&rt, &block, [Some(full()), first, None, last]);
    block = with_slot(&block, 2, &full().encode());
    let (first, last) = (Some(example()), Some(example()));
    expect_slots(&rt, &block, [Some(full()), first, Some(full()), last]);
}

/// Attributes of no size: user 7, group 9, mode 4755, the user's append-only flag.
fn shown(kind: Kind) -> Attrs
    ensures kind { result.kind ≡ kind }
    ensures owner { result.uid ≡ 7 }
{
    Attrs {
        kind,
        uid: 7,
        gid: 9,
        mode: mode(0o4755),
        flags: flags(4),
        size: 0,
    }
}

/// Asserts the attributes that an inode shows.
fn expect_attrs(rt: &impl Abort, inode: &Inode, attrs: &Attrs) {
    expect_eq(rt, &inode.attrs(), attrs);
}

#[test]
fn a_new_inode_shows_its_attributes(rt: HostRuntime) {
    let inode = Inode::new(4095, 3, &shown(Kind::Directory));
    let record = record_of(&[
        0, 2, 0, 2, 0, 0, 0x0f, 0xff, 0, 0, 0, 3, 0, 0, 0, 7, 0, 0, 0, 9, 0x09, 0xed, 0, 0, 0, 0,
        0, 4,
    ]);
    expect_bytes(&rt, &inode.encode(), &record);
    expect_attrs(&rt, &inode, &shown(Kind::Directory));
    let changed = example().with_attrs(&shown(Kind::File));
    let mut attrs = shown(Kind::File);
    attrs.size = 3;
    expect_attrs(&rt, &changed, &attrs);
    expect_addresses(&rt, &changed, &example().direct, 0);
    expect_eq(&rt, [changed.number, changed.version], [4, 1]);
}

#[test]
fn the_addresses_of_a_record_are_replaced(rt: HostRuntime) {
    let inode = full().with_direct(11, 600).with_single(0);
    let direct = [1, 2, 3, 4, 5, 6, 7, 8, 9, 10, 11, 600];
    expect_addresses(&rt, &inode, &direct, 0);
    let most = full().with_single(65535).with_double(600);
    expect_addresses(&rt, &most, &full().direct, 65535);
    expect_eq(&rt, double_address(&most), 600);
}

#[test]
fn the_addresses_of_a_record_by_place(rt: HostRuntime) {
    let inode = full();
    for (place, wanted) in [(0, 1), (11, 65535), (12, 20), (13, 65534)] {
        expect_eq(&rt, root_address(&inode, place), wanted);
    }
    let changed = inode
        .with_root(0, 600)
        .with_root(12, 65535)
        .with_root(13, 7);
    let direct = [600, 2, 3, 4, 5, 6, 7, 8, 9, 10, 11, 65535];
    expect_addresses(&rt, &changed, &direct, 65535);
    expect_eq(&rt, double_address(&changed), 7);
}

#[test]
fn the_entries_of_an_indirect_block(rt: HostRuntime) {
    let block = full_indirect();
    expect_eq(
        &rt,
        [entry(&block, 0), entry(&block, 1), entry(&block, 127)],
        [30, 0, 515],
    );
    let changed = with_entry(&block, 1, 0x0102_0304);
    expect_bytes(&rt, &changed[..12], &[0, 0, 0, 30, 1, 2, 3, 4, 0, 0, 0, 0]);
}

/// Asserts how many blocks an empty file takes that grows to this size.
fn expect_blocks(rt: &impl Abort, size: u64, blocks: u32) {
    assert!(rt; size <= 8_460_288);
    let empty = Inode::new(4, 1, &shown(Kind::File));
    expect_eq(
        rt,
        [empty.blocks(), empty.grown(size).blocks()],
        [0, blocks],
    );
}

#[test]
fn a_size_takes_blocks(rt: HostRuntime) {
    expect_blocks(&rt, 1, 1);
    expect_blocks(&rt, 512, 1);
    expect_blocks(&rt, 513, 2);
    expect_blocks(&rt, 6144, 12);
    expect_blocks(&rt, 6145, 13);
    expect_blocks(&rt, 71680, 140);
    expect_blocks(&rt, 71681, 141);
    expect_blocks(&rt, 8_460_288, 16_524);
}

/// Asserts the size and the addresses of an inode.
fn expect_sized(rt: &impl Abort, inode: &Inode, size: u64, direct: &[u32; 12], single: u32) {
    expect_eq(rt, inode.size, size);
    expect_addresses(rt, inode, direct, single);
}

#[test]
fn an_inode_is_cut_and_grows(rt: HostRuntime) {
    expect_eq(&rt, double_address(&full().cut(72_192)), 65534);
    expect_eq(&rt, double_address(&full().cut(71680)), 0);
    expect_sized(&rt, &full().cut(71680), 71680, &FULL, 20);
    expect_sized(&rt, &full().cut(6656), 6656, &FULL, 20);
    expect_sized(&rt, &full().cut(6144), 6144, &FULL, 0);
    let (first, cut) = ([1, 0, 0, 0, 0, 0, 0, 0, 0, 0, 0, 0], full().cut(512));
    expect_sized(&rt, &cut, 512, &first, 0);
    expect_sized(&rt, &cut.grown(8_460_288), 8_460_288, &first, 0);
    expect_addresses(&rt, &example().cut(1), &example().direct, 0);
    expect_bytes(&rt, &example().cut(0).encode()[28..], &[0; 100]);
}
