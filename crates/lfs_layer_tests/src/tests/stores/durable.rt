//! A durable store of 6 segments: a file's removal waits while a segment of its blocks is made clean.

use crate::tests::{expect_bytes, expect_eq};
use lfs_checking::standing::ChecksLog;
use lfs_durable_store::DurableStore;
use lfs_types::attrs::{Attrs, Kind};
use lfs_types::cleaned::CleanedStore;
use lfs_types::cleaner::{CleanFault, InfoList, MarkList};
use lfs_types::file_flags::FileFlags;
use lfs_types::level::Level;
use lfs_types::mode::Mode;
use lfs_types::store::{Change, FileStore, Params, Reserve};
use lfs_view::shows::ShowsLog;
use std::alloc::Global;
use std::process::Abort;

/// The root's number.
const ROOT: u32 = 2;

/// The least numbers of a volume.
const LEAST: Params = Params {
    segments: 6,
    inodes: 16,
    frames: 32,
    journal: 16,
};

/// A new store. It lies in memory of its own, since a function that holds a value of so many parts takes the prover seconds.
fn fresh(rt: &impl Abort, alloc: Global) -> Box<DurableStore> {
    let store = DurableStore::format(alloc, LEAST).ok();
    Box::new(alloc, store.expect(rt, "a volume")).expect(rt, "memory")
}

/// What is seen of a store's log: its active segment, its next serial, and whether something waits.
#[derive(Clone, Copy, PartialEq, Eq, Debug)]
struct Seen {
    active: u32,
    serial: Option<u32>,
    waits: bool,
}

/// Looks at a store's log.
fn look(store: &DurableStore) -> Seen {
    let parts = store.log().parts();
    Seen {
        active: parts.log.active(),
        serial: parts.log.serial(),
        waits: parts.cache.locked_count() > 0 || parts.waiting.len() > 0,
    }
}

/// Makes a file, and gives its number.
fn make(rt: &impl Abort, store: &mut DurableStore) -> u32 {
    let Some(ino) = store.least_free() else {
        panic!(rt; "no number")
    };
    let attrs = Attrs {
        kind: Kind::File,
        uid: 7,
        gid: 7,
        mode: Mode::new(0o644).expect(rt, "a mode"),
        flags: FileFlags::none(),
        size: 0,
    };
    let made = store.apply(&[Change::Make { ino, attrs }], Reserve::Users);
    expect_eq(rt, made, Ok(()));
    ino
}

/// Puts bytes into a file, from a block on.
fn put(rt: &impl Abort, store: &mut DurableStore, ino: u32, block: u8, bytes: &[u8]) {
    let Some(attrs) = store.attrs(ino) else {
        panic!(rt; "no file")
    };
    assert!(rt; !attrs.kind.is_directory());
    assert!(rt; attrs.size <= 65_536);
    assert!(rt; bytes.len() <= 4_096);
    let off = 512 * u64::from(block);
    let done = store.apply(&[Change::Put { ino, off, bytes }], Reserve::Users);
    expect_eq(rt, done, Ok(()));
}

/// Removes a file. The root's record waits behind it, as it does where a name goes.
fn remove(rt: &impl Abort, store: &mut DurableStore, ino: u32) {
    assert!(rt; store.attrs(ino).is_some());
    let removed = store.apply(&[Change::Remove { ino }], Reserve::Users);
    expect_eq(rt, removed, Ok(()));
    assert!(rt; store.attrs(ROOT).is_some());
    let cut = Change::SetLength {
        ino: ROOT,
        len: 512,
    };
    expect_eq(rt, store.apply(&[cut], Reserve::Users), Ok(()));
}

/// Makes a file and writes some blocks of it, one by one, so that of the segments before the third the second has no other
/// file's.
fn fill(rt: &impl Abort, store: &mut DurableStore) -> u32 {
    let ino = make(rt, store);
    for block in 0..42 {
        put(rt, store, ino, block, &[1; 512]);
        expect_eq(rt, store.sync(), Ok(()));
    }
    expect_eq(rt, look(store).active, 2);
    ino
}

/// Puts 8 blocks into a file. Asserts that where a segment was opened what waited before was written before, and nothing
/// waits now.
fn put_on(rt: &impl Abort, store: &mut DurableStore, ino: u32, block: u8) {
    let before = look(store);
    put(rt, store, ino, block, &[2; 4_096]);
    let after = look(store);
    if after.active == before.active {
        return;
    }
    let written = if before.waits { 2 } else { 1 };
    let next = before.serial.and_then(|serial| serial.checked_add(written));
    expect_eq(rt, after.serial, next);
    expect_eq(rt, after.waits, false);
}

#[test]
fn no_segment_is_opened_while_something_waits_from_before(rt: HostRuntime) {
    let mut store = fresh(&rt, rt.alloc());
    let second = make(&rt, &mut store);
    let first = fill(&rt, &mut store);
    expect_eq(&rt, store.segclean(1).is_err(), true);
    remove(&rt, &mut store, first);
    expect_eq(&rt, store.segclean(1), Ok(()));
    // The removal waits still, and segment 1 may be opened from here on.
    expect_eq(&rt, look(&store).waits, true);
    for block in 0..12 {
        put_on(&rt, &mut store, second, 8 * block);
    }
    // It was, and then segment 3: it is dirty.
    expect_eq(&rt, look(&store).active, 3);
    let mut infos = InfoList::empty();
    expect_eq(&rt, store.infos(1, &mut infos), Ok(()));
}

/// Asserts that the first block of a file has these bytes alone.
fn expect_first(rt: &impl Abort, store: &mut DurableStore, ino: u32, byte: u8) {
    assert!(rt; store.attrs(ino).is_some());
    let mut bytes = [0; 512];
    expect_eq(rt, store.read(ino, 0, &mut bytes), 512);
    expect_eq(rt, bytes, [byte; 512]);
}

#[test]
fn the_cleaner_makes_room(rt: HostRuntime) {
    let mut store = fresh(&rt, rt.alloc());
    let ino = fill(&rt, &mut store);
    let clean = store.clean_segments();
    let mut infos = InfoList::empty();
    expect_eq(
        &rt,
        store.infos(9, &mut infos),
        Err(CleanFault::NoSuchSegment),
    );
    expect_eq(&rt, store.markv(&MarkList::empty()), Ok(0));
    expect_eq(&rt, store.gain_room(), Ok(()));
    expect_eq(&rt, store.clean_segments() > clean, true);
    expect_first(&rt, &mut store, ino, 1);
    expect_eq(&rt, store.ifile_bytes().is_ok(), true);
}

#[test]
fn a_durable_store_shows_its_log(rt: HostRuntime) {
    let store = fresh(&rt, rt.alloc());
    // The root's record alone is live.
    let space =
        b"segments 5 clean of 6\nbytes 128 live\nnumbers 1 used of 16\nwaiting 0 blocks 0 records\n";
    let mut text = Vec::new(rt.alloc());
    store.push_space(&mut text).expect(&rt, "memory");
    expect_bytes(&rt, &text, space);
    let well =
        b"ok\nsegments 5 clean of 6\nbytes 128 live\nnumbers 1 used of 16\nwaiting 0 blocks 0 records\n";
    let told = store.check(rt.alloc(), Level::Insecure);
    expect_bytes(&rt, &told.expect(&rt, "memory"), well);
}
