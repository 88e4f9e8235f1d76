//! A log of a fresh volume: written, opened and read again.

ghost use Rattle.std.specs.Prelude.{◌≡◌, ◌≤◌, ◌<◌, All};
ghost use Rattle.lfs_segments.specs.Entry.{IsEntry};
ghost use Rattle.lfs_inodes.specs.Facts.{IsInodeNumber};
ghost use Rattle.lfs_log.specs.Parts.{live_of};

use super::{expect_bytes, expect_eq, mode};
use lfs_bmap::blocks::FileBlock;
use lfs_ifile::{SegState, SegUse};
use lfs_inodes::inode::Inode;
use lfs_log::Log;
use lfs_log::packing::{inode_in, packed};
use lfs_segments::entry::{LogicalBlock, SummaryEntry};
use lfs_types::attrs::Kind;
use lfs_types::block::Block;
use lfs_types::cleaner::BlockInfo;
use lfs_types::file_flags::FileFlags;
use std::alloc::Global;
use std::process::Abort;

/// An inode without blocks.
fn empty(kind: Kind, number: u32, version: u32) -> Inode
    requires number { IsInodeNumber number }
    requires version { 1 ≤ version }
{
    Inode {
        kind,
        number,
        version,
        owner: 0,
        group: 0,
        mode: mode(0o755),
        flags: FileFlags::none(),
        size: 0,
        direct: [0; 12],
        single: 0,
        double: 0,
    }
}

/// The root.
fn root() -> Inode {
    empty(Kind::Directory, 2, 1)
}

/// The file of the last number, in the last version.
fn last() -> Inode {
    empty(Kind::File, 4095, 4_294_967_295)
}

/// The file of a number that is given out again.
fn again() -> Inode {
    empty(Kind::File, 4, 2)
}

/// All three.
fn three() -> [Inode; 3] {
    [root(), last(), again()]
}

/// Asserts that a slot of a block of inodes begins with these bytes, and has the record of this inode.
fn expect_record(
    rt: &impl Abort,
    block: &Block,
    slot: usize,
    start: &[u8; 12],
    inode: Option<Inode>,
) {
    assert!(rt; slot < 4);
    expect_eq(rt, &block[128 * slot..128 * slot + 12], start.as_slice());
    expect_eq(rt, inode_in(block, slot), inode);
}

#[test]
fn records_share_a_block(rt: HostRuntime) {
    let block = packed(&three());
    let start = [0, 2, 0, 2, 0, 0, 0, 2, 0, 0, 0, 1];
    expect_record(&rt, &block, 0, &start, Some(root()));
    let start = [0, 2, 0, 1, 0, 0, 0x0f, 0xff, 0xff, 0xff, 0xff, 0xff];
    expect_record(&rt, &block, 1, &start, Some(last()));
    let start = [0, 2, 0, 1, 0, 0, 0, 4, 0, 0, 0, 2];
    expect_record(&rt, &block, 2, &start, Some(again()));
    expect_record(&rt, &block, 3, &[0; 12], None);
}

/// What is to be found of a block or a record.
fn info(ino: u32, version: u32, lbn: u32, addr: u32) -> BlockInfo {
    BlockInfo {
        ino,
        version,
        lbn,
        addr,
    }
}

/// The entries of the last data block, the indirect block, the double indirect block and its first
/// child of file 4, version 2, and of a block of inodes.
fn entries() -> [SummaryEntry; 5]
    ensures { All IsEntry result }
{
    [
        SummaryEntry {
            number: 4,
            version: 2,
            block: LogicalBlock::Data(16_523),
        },
        SummaryEntry {
            number: 4,
            version: 2,
            block: LogicalBlock::Single,
        },
        SummaryEntry {
            number: 4,
            version: 2,
            block: LogicalBlock::Double,
        },
        SummaryEntry {
            number: 4,
            version: 2,
            block: LogicalBlock::Child(0),
        },
        SummaryEntry {
            number: 0,
            version: 0,
            block: LogicalBlock::Inodes,
        },
    ]
}

/// Asserts that a log has six segments.
fn is_small(rt: &impl Abort, log: &Log)
    ensures { log.now.memory.segments ≡ 6 }
{
    assert_eq!(rt; log.segments(), 6);
}

/// Puts a block, and asserts that it is found at this address.
fn put_at(rt: &impl Abort, log: &mut Log, address: u32, block: &Block)
    requires { address < 384 }
{
    assert!(rt; log.room() > 0);
    expect_eq(rt, log.put(block), address);
    expect_eq(rt, log.block(address), block);
}

/// Puts the records of three inodes, and asserts that they are found at block 6.
fn put_three(rt: &impl Abort, log: &mut Log) {
    assert!(rt; log.room() > 0);
    expect_eq(rt, log.put(&packed(&three())), 6);
    expect_eq(rt, *log.block(6), packed(&three()));
    expect_eq(rt, log.next_address(), 7);
}

/// Asserts what is to be found of the blocks and the records that were put: no other segment has any.
fn put_are_found(rt: &impl Abort, log: &Log) {
    let wanted = [
        info(4, 2, 16_523, 2),
        info(4, 2, 0x8000_0000, 3),
        info(4, 2, 0x8000_0001, 4),
        info(4, 2, 0x8000_0100, 5),
        info(2, 1, 0xffff_ffff, 6),
        info(4095, 4_294_967_295, 0xffff_ffff, 6),
        info(4, 2, 0xffff_ffff, 6),
    ];
    is_small(rt, log);
    expect_eq(rt, log.infos(0).items(), wanted.as_slice());
    expect_eq(rt, log.infos(1).items().is_empty(), true);
}

/// The log of a fresh volume of six segments, in which a partial segment of the entries above is begun.
fn begun(rt: &impl Abort, alloc: Global) -> Log {
    let mut log = Log::format(alloc, 6, 16).expect(rt, "a log");
    assert_eq!(rt; log.room(), 63);
    expect_eq(rt, log.begin(&entries()), 1);
    log
}

#[test]
fn what_is_put_is_found(rt: HostRuntime) {
    let mut log = begun(&rt, rt.alloc());
    put_at(&rt, &mut log, 2, &[7; 512]);
    put_at(&rt, &mut log, 3, &[8; 512]);
    put_at(&rt, &mut log, 4, &[9; 512]);
    put_at(&rt, &mut log, 5, &[10; 512]);
    put_three(&rt, &mut log);
    put_are_found(&rt, &log);
}

/// Opens the next clean segment, and asserts that it is this one and that so many are clean then.
fn opens(rt: &impl Abort, log: &mut Log, segment: u32, clean: u32) {
    let opened = log.open().expect(rt, "a clean segment");
    expect_eq(
        rt,
        [opened, log.active(), log.clean()],
        [segment, segment, clean],
    );
}

/// Makes segment 3 clean, and asserts that it names nothing and had no live bytes.
fn third_is_reclaimed(rt: &impl Abort, log: &mut Log) {
    let dirty = SegUse {
        live: 0,
        state: SegState::Dirty,
    };
    is_small(rt, log);
    expect_eq(rt, log.infos(3).items().is_empty(), true);
    assert_eq!(rt; log.usage(3), dirty);
    log.reclaim(3);
}

#[test]
fn segments_are_opened_in_turn(rt: HostRuntime) {
    let mut log = Log::format(rt.alloc(), 6, 16).expect(&rt, "a log");
    expect_eq(&rt, log.clean(), 5);
    for (segment, clean) in [(1, 4), (2, 3), (3, 2), (4, 1), (5, 0)] {
        opens(&rt, &mut log, segment, clean);
    }
    expect_eq(&rt, log.open(), None);
    third_is_reclaimed(&rt, &mut log);
    opens(&rt, &mut log, 3, 0);
}

/// Asserts that a segment has so many live bytes.
fn live_is(rt: &impl Abort, log: &Log, segment: u32, live: u32)
    ensures inside { segment < log.now.memory.segments }
    ensures live { live_of log.now.tables segment ≡ live }
{
    assert!(rt; segment < log.segments());
    assert!(rt; log.usage(segment).live == live);
}

/// Gives out number 4, and places its record at slot 3 of block 130, which is in segment 2.
fn placed(rt: &impl Abort, log: &mut Log) {
    assert_eq!(rt; log.inodes(), 16);
    assert_eq!(rt; log.least_free(), Some(4));
    expect_eq(rt, log.give_out(4), 1);
    is_small(rt, log);
    live_is(rt, log, 1, 0);
    live_is(rt, log, 2, 0);
    log.place_record(4, 130, 3);
}

/// Moves the first block of file 4 to the record's segment, and on to the segment before it.
fn moved(rt: &impl Abort, log: &mut Log) {
    is_small(rt, log);
    live_is(rt, log, 1, 0);
    live_is(rt, log, 2, 128);
    log.move_live(FileBlock::Data(0), 0, 131);
    live_is(rt, log, 1, 0);
    live_is(rt, log, 2, 640);
    log.move_live(FileBlock::Data(0), 131, 64);
    live_is(rt, log, 1, 512);
    live_is(rt, log, 2, 128);
}

/// Gives each kind of indirect block of file 4 an address in segment 1.
fn indirect_blocks_are_live(rt: &impl Abort, log: &mut Log) {
    is_small(rt, log);
    live_is(rt, log, 1, 512);
    log.move_live(FileBlock::Single, 0, 65);
    live_is(rt, log, 1, 1024);
    log.move_live(FileBlock::Double, 0, 66);
    live_is(rt, log, 1, 1536);
    log.move_live(FileBlock::Child(127), 0, 67);
    live_is(rt, log, 1, 2048);
}

#[test]
fn live_bytes_follow_the_keys(rt: HostRuntime) {
    let mut log = Log::format(rt.alloc(), 6, 16).expect(&rt, "a log");
    placed(&rt, &mut log);
    moved(&rt, &mut log);
    indirect_blocks_are_live(&rt, &mut log);
    expect_eq(&rt, log.ifile_bytes().expect(&rt, "bytes").len(), 252);
}
