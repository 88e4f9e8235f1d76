//! Runs of the block cache and of its frames.

ghost use Rattle.std.specs.Prelude.{◌≡◌, ◌≤◌, ◌<◌};
ghost use Rattle.lfs_recency.specs.FrameLists.{frame_count};

use crate::counts::Counts;
use crate::measure::Measure;
use anyhow::Result;
use lfs_cache::{BlockCode, Cache, Key};
use lfs_recency::{Frames, Queue};
use lfs_workloads::scale::Scale;
use std::rt::Clock;
use std::time::Instant;

/// How many moves or look-ups stand for one call, as one takes a few nanoseconds.
const TURNS: u32 = 512;

/// Moves each frame to the front of a queue, the next round of another, as often as the scale says. A move counts
/// as served.
pub(crate) fn run_moves<R: Clock + AllocGlobal>(rt: &R, scale: &Scale) -> Result<Measure> {
    let mut frames = Frames::new(rt.alloc(), scale.frames)?;
    time_moves(rt, &mut frames, scale)
}

/// Times moves.
fn time_moves<R: Clock>(rt: &R, frames: &mut Frames, scale: &Scale) -> Result<Measure>
    requires { scale.now.frames ≤ frame_count frames.old }
{
    let rounds = rounds_of(scale);
    let start = Instant::now(rt)?;
    move_all(frames, scale.frames, rounds);
    Measure::since(
        rt,
        start,
        served(u64::from(rounds) * u64::from(scale.frames)),
    )
}

/// Looks up the keys of all frames, as often as the scale says. A key that is held counts as served.
pub(crate) fn run_look_ups<R: Clock + AllocGlobal>(rt: &R, scale: &Scale) -> Result<Measure> {
    let mut cache = Cache::new(rt.alloc(), scale.frames)?;
    fill_all(&mut cache, scale.frames);
    time_look_ups(rt, &mut cache, scale)
}

/// Times look-ups.
fn time_look_ups<R: Clock>(rt: &R, cache: &mut Cache, scale: &Scale) -> Result<Measure> {
    let start = Instant::now(rt)?;
    let held = held_in_all(cache, scale.frames, rounds_of(scale));
    Measure::since(rt, start, served(held))
}

/// Counts of so many served calls.
fn served(served: u64) -> Counts {
    Counts {
        served,
        denied: 0,
        refused: 0,
    }
}

/// How often all frames have their turn.
fn rounds_of(scale: &Scale) -> u32 {
    scale.calls * TURNS / scale.frames
}

/// The key of this block.
fn key(lbn: u32) -> Key {
    Key {
        ino: 7,
        version: 1,
        lbn: BlockCode(lbn),
    }
}

/// Moves each frame to the front of a queue so many times, by turns of one and of another.
fn move_all(frames: &mut Frames, count: u32, rounds: u32)
    requires { count ≤ frame_count frames.old }
{
    for round in 0..rounds {
        let queue = if round % 2 == 0 {
            Queue::Lru
        } else {
            Queue::Age
        };
        move_each(frames, count, queue);
    }
}

/// Moves each frame to the front of a queue.
fn move_each(frames: &mut Frames, count: u32, queue: Queue)
    requires { count ≤ frame_count frames.old }
    ensures { frame_count frames.new ≡ frame_count frames.old }
{
    for number in 0..count {
        frames.to_front(number, queue);
    }
}

/// Looks each key up so many times, and tells how often one is held.
fn held_in_all(cache: &mut Cache, count: u32, rounds: u32) -> u64 {
    let mut held = 0u64;
    for _ in 0..rounds {
        held = held.wrapping_add(held_of(cache, count));
    }
    held
}

/// Looks each key up, and tells how many are held.
fn held_of(cache: &mut Cache, count: u32) -> u64 {
    let mut held = 0u64;
    for lbn in 0..count {
        held = held.wrapping_add(u64::from(cache.get(key(lbn)).is_some()));
    }
    held
}

/// Puts a block into each frame.
fn fill_all(cache: &mut Cache, count: u32) {
    for lbn in 0..count {
        fill_new(cache, lbn);
    }
}

/// Puts a block into a frame, where its key isn't held.
fn fill_new(cache: &mut Cache, lbn: u32) {
    let key = key(lbn);
    if cache.get(key).is_none() {
        cache.fill(key, &[0; 512]);
    }
}
