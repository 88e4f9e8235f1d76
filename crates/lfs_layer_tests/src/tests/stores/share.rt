//! A store within its share, of 6 segments: 108 units. A file takes 1 for its record, and 4 for each block, the
//! indirect one too. The root's file has no bytes.

use crate::tests::{expect_bytes, expect_eq};
use lfs_checking::standing::ChecksLog;
use lfs_share::SharedStore;
use lfs_types::attrs::{Attrs, Kind};
use lfs_types::file_flags::FileFlags;
use lfs_types::level::Level;
use lfs_types::mode::Mode;
use lfs_types::store::{Change, FileStore, Params, Reserve, StoreRefusal};
use lfs_view::shows::ShowsLog;
use std::alloc::Global;
use std::process::Abort;

/// The root's number.
const ROOT: u32 = 2;

/// The least numbers of a volume.
const LEAST: Params = Params {
    segments: 6,
    inodes: 16,
    frames: 32,
    journal: 16,
};

/// The bytes of a block.
const BLOCK: usize = 512;

/// How many blocks one file may have beside the root's: 1 + 1 + 4 * (25 + 1) are 106 units, and with a block more 110.
const MOST: u8 = 25;

/// A new store. It lies in memory of its own, since a function that holds a value of so many parts takes the prover seconds.
fn fresh(rt: &impl Abort, alloc: Global) -> Box<SharedStore> {
    let store = SharedStore::format(alloc, LEAST).ok();
    Box::new(alloc, store.expect(rt, "a volume")).expect(rt, "memory")
}

/// Gives the root's file so many blocks, with no bytes in them.
fn set_blocks(rt: &impl Abort, store: &mut SharedStore, count: u8) -> Result<(), StoreRefusal> {
    assert!(rt; store.attrs(ROOT).is_some());
    let len = 512 * u64::from(count);
    store.apply(&[Change::SetLength { ino: ROOT, len }], Reserve::Users)
}

#[test]
fn growth_past_the_share_alone_is_refused(rt: HostRuntime) {
    let mut store = fresh(&rt, rt.alloc());
    // 1 + 4 * (25 + 1) are 105 units, and with a block more 109.
    expect_eq(&rt, set_blocks(&rt, &mut store, 25), Ok(()));
    let past = set_blocks(&rt, &mut store, 26);
    expect_eq(&rt, past, Err(StoreRefusal::NoSpace));
    expect_eq(&rt, set_blocks(&rt, &mut store, 24), Ok(()));
    store.restore();
    expect_eq(&rt, store.clean_segments() >= 3, true);
}

/// Makes a file, and gives its number.
fn make(rt: &impl Abort, store: &mut SharedStore) -> u32 {
    let Some(ino) = store.least_free() else {
        panic!(rt; "no number")
    };
    let attrs = Attrs {
        kind: Kind::File,
        uid: 7,
        gid: 7,
        mode: Mode::new(0o644).expect(rt, "a mode"),
        flags: FileFlags::none(),
        size: 0,
    };
    let made = store.apply(&[Change::Make { ino, attrs }], Reserve::Users);
    expect_eq(rt, made, Ok(()));
    ino
}

/// Removes a file.
fn remove(rt: &impl Abort, store: &mut SharedStore, ino: u32) {
    assert!(rt; store.attrs(ino).is_some());
    let removed = store.apply(&[Change::Remove { ino }], Reserve::Users);
    expect_eq(rt, removed, Ok(()));
    expect_eq(rt, store.sync(), Ok(()));
}

/// Puts a block whose bytes are all the same into a file, and writes it.
fn put(
    rt: &impl Abort,
    store: &mut SharedStore,
    ino: u32,
    block: u8,
    byte: u8,
) -> Result<(), StoreRefusal> {
    let Some(attrs) = store.attrs(ino) else {
        panic!(rt; "no file")
    };
    assert!(rt; !attrs.kind.is_directory());
    assert!(rt; attrs.size <= 65_536);
    let bytes = [byte; BLOCK];
    let put = Change::Put {
        ino,
        off: 512 * u64::from(block),
        bytes: &bytes,
    };
    store.apply(&[put], Reserve::Users)?;
    store.sync()
}

/// Puts such a block at each place of a file.
fn put_all(rt: &impl Abort, store: &mut SharedStore, ino: u32, byte: u8) {
    for block in 0..MOST {
        expect_eq(rt, put(rt, store, ino, block, byte), Ok(()));
    }
}

/// Asserts that a file has these blocks and nothing behind them.
fn expect_all(rt: &impl Abort, store: &mut SharedStore, ino: u32, byte: u8) {
    for block in 0..=MOST {
        assert!(rt; store.attrs(ino).is_some());
        let mut bytes = [0; BLOCK];
        let count = store.read(ino, 512 * u64::from(block), &mut bytes);
        let wanted = if block < MOST { BLOCK } else { 0 };
        expect_eq(rt, count, wanted);
        expect_eq(rt, block == MOST || bytes == [byte; BLOCK], true);
    }
}

/// Asserts that such a block behind those is refused.
fn expect_full(rt: &impl Abort, store: &mut SharedStore, ino: u32, byte: u8) {
    let refused = put(rt, store, ino, MOST, byte);
    expect_eq(rt, refused, Err(StoreRefusal::NoSpace));
}

#[test]
fn a_store_that_is_full_takes_what_adds_nothing(rt: HostRuntime) {
    let mut store = fresh(&rt, rt.alloc());
    let first = make(&rt, &mut store);
    put_all(&rt, &mut store, first, 1);
    expect_full(&rt, &mut store, first, 1);
    // Each time some 100 blocks of the log: what is live is written again on the way, again and again.
    for byte in 2..=9 {
        put_all(&rt, &mut store, first, byte);
        expect_all(&rt, &mut store, first, byte);
    }
    expect_full(&rt, &mut store, first, 9);
    remove(&rt, &mut store, first);
    let second = make(&rt, &mut store);
    put_all(&rt, &mut store, second, 10);
    expect_full(&rt, &mut store, second, 10);
    expect_all(&rt, &mut store, second, 10);
    expect_eq(&rt, store.clean_segments() >= 1, true);
}

/// Asserts what a check of a store tells.
fn expect_check<F: ChecksLog>(rt: &impl Abort, alloc: Global, store: &F, text: &[u8]) {
    let told = store.check(alloc, Level::Insecure).expect(rt, "memory");
    expect_bytes(rt, &told, text);
}

/// Asserts what a store tells of how full it is, and of a segment that it hasn't.
fn expect_shown<F: ShowsLog>(rt: &impl Abort, alloc: Global, store: &F, space: &[u8]) {
    let mut text = Vec::new(alloc);
    store.push_space(&mut text).expect(rt, "memory");
    expect_bytes(rt, &text, space);
    let mut segment = Vec::new(alloc);
    store
        .push_segment(alloc, &mut segment, 6)
        .expect(rt, "memory");
    expect_bytes(rt, &segment, b"fault NoSuchSegment\n");
}

#[test]
fn a_store_shows_its_log_and_is_checked(rt: HostRuntime) {
    let mut store = fresh(&rt, rt.alloc());
    // The root's record alone is live.
    let space =
        b"segments 5 clean of 6\nbytes 128 live\nnumbers 1 used of 16\nwaiting 0 blocks 0 records\n";
    expect_shown(&rt, rt.alloc(), &*store, space);
    let well =
        b"ok\nsegments 5 clean of 6\nbytes 128 live\nnumbers 1 used of 16\nwaiting 0 blocks 0 records\n";
    expect_check(&rt, rt.alloc(), &*store, well);
    make(&rt, &mut store);
    expect_check(&rt, rt.alloc(), &*store, b"waiting: sync comes first\n");
}
