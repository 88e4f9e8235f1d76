//! How full a store is.

use super::{SMALL, calls, expect_eq, fresh};
use lfs_logstore::LogStore;
use lfs_view::shows::ShowsLog;
use lfs_view::space::Space;
use lfs_volume::volume::Volume;
use std::alloc::Global;
use std::process::Abort;

/// A fresh volume: the root's record alone is live, 128 bytes in a segment that is not clean.
const FRESH: Space = Space {
    segments: 6,
    clean: 5,
    live: 128,
    numbers: 64,
    used: 1,
    waiting_blocks: 0,
    waiting_records: 0,
};

/// Behind a Create and a Write of two bytes: the root's block, the file's, and the records of both wait.
const WAITING: Space = Space {
    used: 2,
    waiting_blocks: 2,
    waiting_records: 2,
    ..FRESH
};

/// Behind a Sync they are written: two blocks of 512 bytes and two records of 128 are live.
const WRITTEN: Space = Space {
    live: 1280,
    used: 2,
    ..FRESH
};

/// How full the store of a volume is behind the calls of a script.
fn space_behind(
    rt: &impl Abort,
    alloc: Global,
    volume: &mut Volume<LogStore>,
    script: &str,
) -> Space {
    let answers = volume.run(calls(rt, alloc, script)).expect(rt, "a run");
    drop(answers);
    volume.store().space()
}

#[test]
fn space_is_that_of_the_log(rt: HostRuntime) {
    let mut volume = fresh(&rt, rt.alloc(), SMALL);
    expect_eq(&rt, volume.store().space(), FRESH);
    let script = "create /a 0644\nwrite /a at 0 6869\n";
    let waiting = space_behind(&rt, rt.alloc(), &mut volume, script);
    expect_eq(&rt, waiting, WAITING);
    let written = space_behind(&rt, rt.alloc(), &mut volume, "sync\n");
    expect_eq(&rt, written, WRITTEN);
}
