//! The order in which frames leave a queue, after some use. Each test begins with the one call that takes memory, and
//! hands its error on.

use crate::tests::expect_eq;
use lfs_recency::{Frames, Queue};
use std::process::Abort;
use std::test::Fail;

/// Asserts which frame was longest ago moved to the front of a queue.
fn expect_oldest(rt: &impl Abort, frames: &Frames, queue: Queue, wanted: Option<u32>) {
    expect_eq(rt, frames.oldest(queue), wanted);
}

#[test]
fn least_recently_used_frame_is_oldest(rt: HostRuntime) -> Result<(), Fail> {
    let mut frames = Frames::new(rt.alloc(), 3)?;
    expect_oldest(&rt, &frames, Queue::Empty, Some(0));
    frames.to_front(0, Queue::Lru);
    frames.to_front(1, Queue::Lru);
    expect_oldest(&rt, &frames, Queue::Lru, Some(0));
    frames.to_front(0, Queue::Lru);
    expect_oldest(&rt, &frames, Queue::Lru, Some(1));
    expect_oldest(&rt, &frames, Queue::Age, None);
    Ok(())
}

#[test]
fn frames_keep_their_bytes_apart(rt: HostRuntime) -> Result<(), Fail> {
    let mut frames = Frames::new(rt.alloc(), 2)?;
    frames.bytes_mut(0)[511] = 7;
    frames.bytes_mut(1)[511] = 8;
    frames.to_front(0, Queue::Locked);
    expect_eq(&rt, [frames.bytes(0)[511], frames.bytes(1)[511]], [7, 8]);
    let queues = [frames.queue(0), frames.queue(1)];
    expect_eq(&rt, queues, [Queue::Locked, Queue::Empty]);
    Ok(())
}
