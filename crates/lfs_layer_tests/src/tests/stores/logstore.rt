//! A fresh store, and one whose segments are written full and made clean.

ghost use Rattle.std.specs.Prelude.{◌≡◌};
ghost use Rattle.lfs_logstore.specs.States.{opening_state};

use crate::tests::{expect_eq, fresh_log};
use lfs_ifile::{SegState, SegUse, usage_in};
use lfs_logstore::{GainFault, LogStore};
use lfs_types::attrs::{Attrs, Kind};
use lfs_types::cleaned::CleanedStore;
use lfs_types::cleaner::{BlockInfo, CleanFault, INODE_BLOCK, InfoList, MarkList, SINGLE_BLOCK};
use lfs_types::fault::FormatFault;
use lfs_types::file_flags::FileFlags;
use lfs_types::mode::Mode;
use lfs_types::store::{Change, FileStore, Params, Reserve};
use std::alloc::Global;
use std::process::Abort;

/// A volume of so many segments, inode numbers and frames.
fn params(segments: u32, inodes: u32, frames: u32) -> Params {
    Params {
        segments,
        inodes,
        frames,
        journal: 1,
    }
}

/// Why a volume is not laid out, if it is not.
fn fault_of(alloc: Global, segments: u32, inodes: u32, frames: u32) -> Option<FormatFault> {
    LogStore::format(alloc, params(segments, inodes, frames)).err()
}

/// What is asked of a block or a record, with its address.
fn info(ino: u32, version: u32, lbn: u32, addr: u32) -> BlockInfo {
    BlockInfo {
        ino,
        version,
        lbn,
        addr,
    }
}

/// What is asked of the root's record, with its address.
fn root_info(addr: u32) -> BlockInfo {
    info(2, 1, INODE_BLOCK, addr)
}

/// A fresh store of six segments. It lies in memory of its own, since a function that holds a value of so many parts takes
/// the prover seconds.
fn fresh(rt: &impl Abort, alloc: Global) -> Box<LogStore> {
    Box::new(alloc, fresh_log(rt, alloc)).expect(rt, "memory")
}

/// Asserts how many segments are clean.
fn expect_clean(rt: &impl Abort, store: &LogStore, segments: u32) {
    expect_eq(rt, store.clean_segments(), segments);
}

#[test]
fn ranges_are_judged_in_order(rt: HostRuntime) {
    let table = [
        (5, 15, 31, Some(FormatFault::TooFew)),
        (5, 4_097, 1_025, Some(FormatFault::TooFew)),
        (6, 16, 32, None),
        (1_024, 4_096, 1_024, None),
        (1_025, 15, 31, Some(FormatFault::TooMany)),
        (6, 15, 1_025, Some(FormatFault::TooFew)),
        (6, 4_097, 31, Some(FormatFault::TooMany)),
        (6, 16, 31, Some(FormatFault::TooFew)),
        (6, 16, 1_025, Some(FormatFault::TooMany)),
    ];
    for (segments, inodes, frames, want) in table {
        expect_eq(&rt, fault_of(rt.alloc(), segments, inodes, frames), want);
    }
}

/// Attributes of the superuser's, of this kind and mode, and of a file without bytes.
fn attrs_of(rt: &impl Abort, kind: Kind, mode: u16) -> Attrs
    ensures { result.kind ≡ kind }
{
    Attrs {
        kind,
        uid: 0,
        gid: 0,
        mode: Mode::new(mode).expect(rt, "a mode"),
        flags: FileFlags::none(),
        size: 0,
    }
}

#[test]
fn a_fresh_store_has_the_root_alone(rt: HostRuntime) {
    let mut store = fresh(&rt, rt.alloc());
    let root = attrs_of(&rt, Kind::Directory, 0o755);
    expect_eq(&rt, store.attrs(2), Some(root));
    for ino in [0, 1, 3, 4, 15, 16, u32::MAX] {
        expect_eq(&rt, store.attrs(ino), None);
    }
    expect_eq(&rt, store.least_free(), Some(4));
    expect_clean(&rt, &store, 5);
    expect_eq(&rt, store.sync().is_ok(), true);
}

/// Reads the root's bytes, and gives how many there were.
fn read_root(rt: &impl Abort, store: &mut LogStore, buffer: &mut [u8]) -> usize {
    assert!(rt; store.attrs(2).is_some());
    store.read(2, 0, buffer)
}

#[test]
fn a_fresh_root_has_no_bytes(rt: HostRuntime) {
    let mut store = fresh(&rt, rt.alloc());
    let mut buffer = [7; 4];
    expect_eq(&rt, read_root(&rt, &mut store, &mut buffer), 0);
    expect_eq(&rt, buffer, [7; 4]);
}

/// The bytes of a store's ifile.
fn ifile_of(rt: &impl Abort, store: &LogStore) -> Vec<u8> {
    store.ifile_bytes().expect(rt, "the ifile's bytes")
}

/// Asserts what the bytes of an ifile say of a segment.
fn expect_usage(rt: &impl Abort, bytes: &[u8], segment: u32, live: u32, state: SegState) {
    expect_eq(rt, usage_in(bytes, segment), Some(SegUse { live, state }));
}

#[test]
fn the_ifile_has_an_entry_for_each_segment_and_number(rt: HostRuntime) {
    let small = ifile_of(&rt, &fresh(&rt, rt.alloc()));
    expect_eq(&rt, small.len(), 252);
    expect_usage(&rt, &small, 0, 128, SegState::Active);
    expect_usage(&rt, &small, 5, 0, SegState::Clean);
}

/// The store of a larger volume.
fn larger(rt: &impl Abort, alloc: Global) -> Box<LogStore> {
    let store = LogStore::format(alloc, params(64, 256, 32)).expect(rt, "a store");
    Box::new(alloc, store).expect(rt, "memory")
}

#[test]
fn the_ifile_of_a_larger_volume_is_larger(rt: HostRuntime) {
    let bytes = ifile_of(&rt, &larger(&rt, rt.alloc()));
    expect_eq(&rt, bytes.len(), 3_596);
}

/// Asserts what becomes of a try to make a segment clean.
fn expect_segclean(
    rt: &impl Abort,
    store: &mut LogStore,
    segment: u32,
    wanted: Result<(), CleanFault>,
) {
    expect_eq(rt, store.segclean(segment), wanted);
}

#[test]
fn segments_that_are_not_dirty_are_refused(rt: HostRuntime) {
    let mut store = larger(&rt, rt.alloc());
    let table = [
        (64, CleanFault::NoSuchSegment),
        (u32::MAX, CleanFault::NoSuchSegment),
        (0, CleanFault::Active),
        (1, CleanFault::NotDirty),
        (63, CleanFault::NotDirty),
    ];
    let mut infos = InfoList::empty();
    for (segment, fault) in table {
        expect_eq(&rt, store.infos(segment, &mut infos), Err(fault));
        expect_segclean(&rt, &mut store, segment, Err(fault));
    }
    expect_clean(&rt, &store, 63);
}

#[test]
fn infos_get_their_present_address(rt: HostRuntime) {
    let store = fresh(&rt, rt.alloc());
    let mut infos = [
        root_info(77),
        info(2, 2, INODE_BLOCK, 2),
        info(2, 1, SINGLE_BLOCK, 2),
        info(2, 1, 0, 2),
        info(2, 1, 16_524, 2),
        info(4, 0, INODE_BLOCK, 2),
        info(u32::MAX, 1, INODE_BLOCK, 2),
        info(1, 1, 0, 9),
        info(1, 1, INODE_BLOCK, 9),
        info(u32::MAX, 1, 0, 9),
    ];
    store.bmapv(&mut infos);
    let wanted = [
        root_info(2),
        info(2, 2, INODE_BLOCK, 0),
        info(2, 1, SINGLE_BLOCK, 0),
        info(2, 1, 0, 0),
        info(2, 1, 16_524, 0),
        info(4, 0, INODE_BLOCK, 0),
        info(u32::MAX, 1, INODE_BLOCK, 0),
        info(1, 1, 0, 0),
        info(1, 1, INODE_BLOCK, 0),
        info(u32::MAX, 1, 0, 0),
    ];
    expect_eq(&rt, infos, wanted);
}

/// Has blocks and records written again, and asserts how many they were.
fn mark(rt: &impl Abort, store: &mut LogStore, named: &[BlockInfo], count: u32) {
    let marks = MarkList::new(named).expect(rt, "as few as may be");
    expect_eq(rt, store.markv(&marks), Ok(count));
}

/// Has the root's record written again, once from each address to the next. Each time takes two blocks, the second of
/// which is the record's.
fn move_root(rt: &impl Abort, store: &mut LogStore, addresses: &[u32]) {
    for addr in addresses {
        mark(rt, store, &[root_info(*addr)], 1);
    }
}

/// Where the first segment has blocks of records, once it is full: file 4's at block 4, the root's at each other.
const FIRST: [u32; 31] = [
    2, 4, 6, 8, 10, 12, 14, 16, 18, 20, 22, 24, 26, 28, 30, 32, 34, 36, 38, 40, 42, 44, 46, 48, 50,
    52, 54, 56, 58, 60, 62,
];

/// Where the second segment has blocks of the root's record, once it is full.
const SECOND: [u32; 32] = [
    65, 67, 69, 71, 73, 75, 77, 79, 81, 83, 85, 87, 89, 91, 93, 95, 97, 99, 101, 103, 105, 107,
    109, 111, 113, 115, 117, 119, 121, 123, 125, 127,
];

/// Makes file 4.
fn make_file(rt: &impl Abort, store: &mut LogStore)
    requires { ⟦<LogStore as FileStore>⟧.state store.old ≡ opening_state 6 16 }
{
    let attrs = attrs_of(rt, Kind::File, 0o644);
    let made = [Change::Make { ino: 4, attrs }];
    store.apply(&made, Reserve::Users).expect(rt, "room");
}

/// A store of six segments with file 4, which waits.
fn with_file(rt: &impl Abort, alloc: Global) -> Box<LogStore> {
    let mut store = fresh_log(rt, alloc);
    make_file(rt, &mut store);
    Box::new(alloc, store).expect(rt, "memory")
}

/// A store of six segments. The first two are dirty: the first has the record of file 4 at block 4, the second has nothing
/// that is live. The third is the active one, with the root's record.
fn written_twice(rt: &impl Abort, alloc: Global) -> Box<LogStore> {
    let mut store = with_file(rt, alloc);
    move_root(rt, &mut store, &FIRST[..1]);
    move_root(rt, &mut store, &FIRST[2..]);
    move_root(rt, &mut store, &SECOND);
    store
}

/// Asserts that the infos of a segment are those of the records at these blocks.
fn expect_infos(rt: &impl Abort, store: &LogStore, segment: u32, addresses: &[u32]) {
    let mut infos = InfoList::empty();
    expect_eq(rt, store.infos(segment, &mut infos), Ok(()));
    expect_eq(rt, infos.items().len(), addresses.len());
    for (found, addr) in infos.items().iter().zip(addresses) {
        let ino = if *addr == 4 { 4 } else { 2 };
        expect_eq(rt, *found, info(ino, 1, INODE_BLOCK, *addr));
    }
}

#[test]
fn infos_are_those_of_the_segment(rt: HostRuntime) {
    let store = written_twice(&rt, rt.alloc());
    expect_infos(&rt, &store, 0, &FIRST);
    expect_infos(&rt, &store, 1, &SECOND);
}

#[test]
fn a_dirty_segment_without_live_bytes_becomes_clean(rt: HostRuntime) {
    let mut store = written_twice(&rt, rt.alloc());
    expect_clean(&rt, &store, 3);
    expect_segclean(&rt, &mut store, 0, Err(CleanFault::Live(128)));
    expect_segclean(&rt, &mut store, 2, Err(CleanFault::Active));
    expect_segclean(&rt, &mut store, 1, Ok(()));
    expect_clean(&rt, &store, 4);
    expect_segclean(&rt, &mut store, 1, Err(CleanFault::NotDirty));
    expect_usage(&rt, &ifile_of(&rt, &store), 1, 0, SegState::Clean);
}

#[test]
fn a_marked_record_moves(rt: HostRuntime) {
    let mut store = fresh(&rt, rt.alloc());
    let root = root_info(2);
    let named = [root, info(2, 2, INODE_BLOCK, 2), root, info(2, 1, 0, 2)];
    mark(&rt, &mut store, &named, 1);
    let mut infos = [root];
    store.bmapv(&mut infos);
    expect_eq(&rt, infos, [root_info(4)]);
    mark(&rt, &mut store, &named, 0);
}

/// Asserts what the bytes of a store's ifile say of file 4: the address and the slot of its record, that the number is in
/// use, and its version. Rows of 12 bytes stand behind a header of 12 and 8 for each of six segments.
fn expect_row(rt: &impl Abort, store: &LogStore, row: [u8; 12]) {
    let bytes = ifile_of(rt, store);
    expect_eq(rt, bytes.as_slice().get(108..120), Some(row.as_slice()));
}

/// Asserts where a store has file 4's record.
fn expect_record_at(rt: &impl Abort, store: &LogStore, addr: u32) {
    let mut infos = [info(4, 1, INODE_BLOCK, 0)];
    store.bmapv(&mut infos);
    expect_eq(rt, infos, [info(4, 1, INODE_BLOCK, addr)]);
}

#[test]
fn a_new_file_has_no_address_before_a_sync(rt: HostRuntime) {
    let mut store = with_file(&rt, rt.alloc());
    expect_row(&rt, &store, [0, 0, 0, 0, 0, 0, 0, 1, 0, 0, 0, 1]);
    expect_record_at(&rt, &store, 0);
    expect_eq(&rt, store.sync().is_ok(), true);
    expect_row(&rt, &store, [0, 0, 0, 4, 0, 0, 0, 1, 0, 0, 0, 1]);
    expect_record_at(&rt, &store, 4);
}

/// Asserts what becomes of a try to gain room, and how many segments are clean behind it.
fn expect_gain(rt: &impl Abort, store: &mut LogStore, wanted: Result<(), GainFault>, clean: u32) {
    expect_eq(rt, store.gain(), wanted);
    expect_clean(rt, store, clean);
}

#[test]
fn a_gain_takes_what_was_counted(rt: HostRuntime) {
    let mut store = written_twice(&rt, rt.alloc());
    expect_gain(&rt, &mut store, Ok(()), 4);
    // A summary at block 130, and behind it file 4's record; the second segment takes nothing.
    expect_record_at(&rt, &store, 131);
    expect_gain(&rt, &mut store, Ok(()), 5);
    expect_record_at(&rt, &store, 131);
    expect_gain(&rt, &mut store, Err(GainFault), 5);
}
