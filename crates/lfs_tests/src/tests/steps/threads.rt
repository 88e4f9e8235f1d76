//! A log store that goes into a thread and comes back. Volumes do so in the runs of `lfs_server`.

use crate::tests::{DEFAULTS, expect_eq};
use lfs_logstore::LogStore;
use lfs_types::store::FileStore;
use std::process::Abort;
use std::sync::{Mutex, Wait};
use std::thread;
use std::thread::Threads;

/// Has a store go into a thread that syncs it, and come back. Gives whether the root is there, and the least number that is
/// free.
fn shown_behind_a_thread<R: Abort + Threads + Sync + Wait>(
    rt: &R,
    store: LogStore,
) -> (bool, Option<u32>) {
    let shared = Mutex::new(store);
    let shared = thread::scope(thread::scope_env(), rt, move |scope| {
        let worker = scope.spawn(move || {
            shared.lock(rt).sync().expect(rt, "room");
            shared
        });
        worker.expect(rt, "a thread").join(rt)
    });
    let store = shared.into_inner();
    (store.attrs(2).is_some(), store.least_free())
}

#[test]
fn store_in_a_mutex_moves_into_a_thread_and_back(rt: HostRuntime) {
    let store = LogStore::format(rt.alloc(), DEFAULTS).expect(&rt, "a store");
    expect_eq(&rt, shown_behind_a_thread(&rt, store), (true, Some(4)));
}
