//! A store of 6 segments on a disk in memory: behind each call the disk has the blocks of the store's memory.

use crate::DiskStore;
use lfs_disk::{Call, MemoryDisk};
use lfs_segments::segments::Segments;
use lfs_types::attrs::{Attrs, Kind};
use lfs_types::block::Block;
use lfs_types::cleaned::CleanedStore;
use lfs_types::cleaner::{CleanFault, MarkList};
use lfs_types::file_flags::FileFlags;
use lfs_types::mode::Mode;
use lfs_types::store::{Change, FileStore, Params, Reserve};
use std::alloc::Global;
use std::process::Abort;

/// The least numbers of a volume.
const LEAST: Params = Params {
    segments: 6,
    inodes: 16,
    frames: 32,
    journal: 16,
};

/// The blocks of its segments.
const BLOCKS: u32 = 384;

/// A new store. It lies in memory of its own, since a function that holds a value of so many parts takes the prover seconds.
fn fresh(rt: &impl Abort, alloc: Global) -> Box<DiskStore<MemoryDisk>> {
    let zeros = Segments::format(alloc, 6, 16).expect(rt, "a memory");
    let disk = MemoryDisk::holding(alloc, &zeros).expect(rt, "a disk");
    let store = DiskStore::format(alloc, LEAST, disk).ok();
    Box::new(alloc, store.expect(rt, "a store")).expect(rt, "memory")
}

/// Makes file 4 of some bytes.
fn make(rt: &impl Abort, store: &mut DiskStore<MemoryDisk>, bytes: &[u8]) {
    assert!(rt; store.least_free() == Some(4));
    assert!(rt; bytes.len() <= 4_096);
    let attrs = Attrs {
        kind: Kind::File,
        uid: 7,
        gid: 7,
        mode: Mode::new(0o644).expect(rt, "a mode"),
        flags: FileFlags::none(),
        size: 0,
    };
    let made = store.apply(&[Change::Make { ino: 4, attrs }], Reserve::Users);
    assert!(rt; made == Ok(()));
    put(rt, store, 0, bytes);
}

/// Puts bytes into file 4, from a block on.
fn put(rt: &impl Abort, store: &mut DiskStore<MemoryDisk>, block: u8, bytes: &[u8]) {
    let Some(attrs) = store.attrs(4) else {
        panic!(rt; "no file")
    };
    assert!(rt; !attrs.kind.is_directory());
    assert!(rt; attrs.size <= 65_536);
    assert!(rt; bytes.len() <= 4_096);
    let put = Change::Put {
        ino: 4,
        off: 512 * u64::from(block),
        bytes,
    };
    assert!(rt; store.apply(&[put], Reserve::Users) == Ok(()));
}

/// The block that was written last at an address.
fn written(calls: &[Call], at: u32) -> Option<&Block> {
    let mut last = None;
    for call in calls {
        if let Call::Written { address, block } = call {
            if *address == at {
                last = Some(block);
            }
        }
    }
    last
}

/// Asserts that the disk didn't fail, and that what it was told makes the blocks of the store's memory.
fn expect_written(rt: &impl Abort, store: &DiskStore<MemoryDisk>) {
    assert!(rt; store.fault().is_none());
    let calls = store.disk().calls();
    let log = &store.log().parts().log;
    assert!(rt; log.segments() == 6);
    for address in 0..BLOCKS {
        assert!(rt; written(calls, address) == Some(log.block(address)));
    }
}

#[test]
fn a_sync_brings_what_waits_to_the_disk(rt: HostRuntime) {
    let mut store = fresh(&rt, rt.alloc());
    expect_written(&rt, &store);
    make(&rt, &mut store, &[1; 600]);
    let before = store.disk().calls().len();
    assert!(rt; store.sync() == Ok(()));
    // A summary, two blocks and one of records, and two syncs.
    assert!(rt; store.disk().calls().len() == before + 6);
    expect_written(&rt, &store);
}

#[test]
fn what_is_flushed_on_the_way_goes_out_too(rt: HostRuntime) {
    let mut store = fresh(&rt, rt.alloc());
    make(&rt, &mut store, &[1; 600]);
    let before = store.disk().calls().len();
    for block in 0..12 {
        put(&rt, &mut store, 8 * block, &[2; 4_096]);
    }
    // Nobody asked for a sync: what didn't fit the active segment went out.
    assert!(rt; store.disk().calls().len() > before);
    expect_written(&rt, &store);
}

#[test]
fn the_cleaner_writes_to_the_disk(rt: HostRuntime) {
    let mut store = fresh(&rt, rt.alloc());
    make(&rt, &mut store, &[1; 600]);
    assert!(rt; store.segclean(0) == Err(CleanFault::Active));
    assert!(rt; store.markv(&MarkList::empty()) == Ok(0));
    expect_written(&rt, &store);
    for _ in 0..20 {
        put(&rt, &mut store, 0, &[2; 4_096]);
        assert!(rt; store.sync() == Ok(()));
    }
    assert!(rt; store.gain_room() == Ok(()));
    expect_written(&rt, &store);
}
