//! Which blocks are still held after writes and fills. Each test begins with the one call that takes memory, and hands
//! its error on.

ghost use Rattle.std.specs.Prelude.{◌≡◌, IsTrue};
ghost use Rattle.lfs_cache.specs.Contents.{IsLocked};
ghost use Rattle.lfs_cache.specs.Keys.{same_key};

use crate::tests::expect_eq;
use lfs_cache::{BlockCode, Cache, Key, LOCKED_LIMIT};
use lfs_types::block::Block;
use std::alloc::{AllocError, Global};
use std::process::Abort;
use std::test::Fail;
use std::thread;

fn key(lbn: u32) -> Key {
    Key {
        ino: 7,
        version: 1,
        lbn: BlockCode(lbn),
    }
}

fn block(lbn: u32) -> Block {
    [(lbn % 251) as u8; 512]
}

fn fill_new(cache: &mut Cache, lbn: u32) {
    let key = key(lbn);
    if cache.get(key).is_none() {
        cache.fill(key, &block(lbn));
    }
}

fn write_new(cache: &mut Cache, lbn: u32) {
    if cache.locked_count() < LOCKED_LIMIT {
        cache.write(key(lbn), &block(lbn));
    }
}

/// Whether two keys are the same.
fn same(a: Key, b: Key) -> bool
    ensures { result ≡ same_key a b }
{
    a == b
}

fn is_locked(cache: &Cache, key: Key) -> bool
    ensures { IsTrue result → IsLocked key cache.now }
{
    for held in cache.locked() {
        if same(*held, key) {
            return true;
        }
    }
    false
}

fn settle_written(cache: &mut Cache, lbn: u32) {
    let key = key(lbn);
    if is_locked(cache, key) {
        cache.settle(key);
    }
}

fn holds(cache: &mut Cache, lbn: u32) -> bool {
    match cache.get(key(lbn)) {
        Some(held) => held[0] == block(lbn)[0] && held[511] == block(lbn)[511],
        None => false,
    }
}

// 32 frames: 24 keys are written, and then 40 filled.
fn busy_cache(alloc: Global) -> Result<Cache, AllocError> {
    let mut cache = Cache::new(alloc, 32)?;
    for lbn in 0..24 {
        write_new(&mut cache, lbn);
    }
    fill_range(&mut cache, 100, 140);
    Ok(cache)
}

/// Fills the blocks of the keys of a range.
fn fill_range(cache: &mut Cache, from: u32, to: u32) {
    for lbn in from..to {
        fill_new(cache, lbn);
    }
}

/// Asserts that the block of a key is held, or that it is not.
fn expect_held(rt: &impl Abort, cache: &mut Cache, lbn: u32, held: bool) {
    expect_eq(rt, (lbn, holds(cache, lbn)), (lbn, held));
}

/// Asserts that the blocks of the keys of a range are held.
fn expect_range(rt: &impl Abort, cache: &mut Cache, from: u32, to: u32) {
    for lbn in from..to {
        expect_held(rt, cache, lbn, true);
    }
}

/// Asserts how many keys are locked.
fn expect_locked(rt: &impl Abort, cache: &Cache, count: usize) {
    expect_eq(rt, cache.locked_count(), count);
}

/// Asserts that a look finds the block of a key, or that it finds none.
fn expect_peek(rt: &impl Abort, cache: &Cache, lbn: u32, held: bool) {
    let block = block(lbn);
    let wanted = if held { Some(&block) } else { None };
    assert!(rt; cache.peek(key(lbn)) == wanted, "at {lbn}");
}

#[test]
fn new_cache_holds_nothing(rt: HostRuntime) -> Result<(), Fail> {
    let mut cache = Cache::new(rt.alloc(), 32)?;
    expect_held(&rt, &mut cache, 0, false);
    expect_locked(&rt, &cache, 0);
    Ok(())
}

#[test]
fn locked_keys_outlive_fills(rt: HostRuntime) -> Result<(), Fail> {
    let mut cache = busy_cache(rt.alloc())?;
    expect_locked(&rt, &cache, 24);
    expect_range(&rt, &mut cache, 0, 24);
    expect_held(&rt, &mut cache, 131, false);
    expect_range(&rt, &mut cache, 132, 140);
    Ok(())
}

#[test]
fn settled_block_outlives_eight_fills(rt: HostRuntime) -> Result<(), Fail> {
    let mut cache = busy_cache(rt.alloc())?;
    settle_written(&mut cache, 0);
    expect_locked(&rt, &cache, 23);
    fill_range(&mut cache, 200, 208);
    expect_held(&rt, &mut cache, 0, true);
    Ok(())
}

#[test]
fn settled_block_gives_way_to_the_ninth_fill(rt: HostRuntime) -> Result<(), Fail> {
    let mut cache = busy_cache(rt.alloc())?;
    settle_written(&mut cache, 0);
    fill_range(&mut cache, 200, 209);
    expect_held(&rt, &mut cache, 0, false);
    Ok(())
}

// The oldest clean block is that of key 132.
#[test]
fn peek_moves_no_frame(rt: HostRuntime) -> Result<(), Fail> {
    let mut cache = busy_cache(rt.alloc())?;
    expect_peek(&rt, &cache, 132, true);
    expect_peek(&rt, &cache, 0, true);
    expect_peek(&rt, &cache, 131, false);
    fill_new(&mut cache, 200);
    expect_peek(&rt, &cache, 132, false);
    expect_held(&rt, &mut cache, 133, true);
    fill_new(&mut cache, 201);
    expect_held(&rt, &mut cache, 133, true);
    expect_peek(&rt, &cache, 134, false);
    Ok(())
}

#[test]
fn largest_cache_holds_a_block_for_each_frame(rt: HostRuntime) -> Result<(), Fail> {
    let mut cache = Cache::new(rt.alloc(), 1_024)?;
    fill_range(&mut cache, 0, 1_024);
    expect_held(&rt, &mut cache, 0, true);
    fill_new(&mut cache, 1_024);
    expect_held(&rt, &mut cache, 0, true);
    expect_held(&rt, &mut cache, 1, false);
    Ok(())
}

#[test]
fn forgotten_frame_is_taken_first(rt: HostRuntime) -> Result<(), Fail> {
    let mut cache = busy_cache(rt.alloc())?;
    cache.forget(key(5));
    expect_locked(&rt, &cache, 23);
    fill_new(&mut cache, 200);
    expect_range(&rt, &mut cache, 0, 5);
    expect_held(&rt, &mut cache, 5, false);
    expect_range(&rt, &mut cache, 6, 24);
    expect_range(&rt, &mut cache, 132, 140);
    expect_held(&rt, &mut cache, 200, true);
    Ok(())
}

#[test]
fn cache_moves_into_a_thread_and_back(rt: HostRuntime) -> Result<(), Fail> {
    let mut cache = busy_cache(rt.alloc())?;
    let worker = thread::spawn(&rt, move || {
        fill_new(&mut cache, 300);
        cache
    })?;
    let mut cache = worker.join(&rt);
    expect_held(&rt, &mut cache, 300, true);
    expect_held(&rt, &mut cache, 23, true);
    Ok(())
}
