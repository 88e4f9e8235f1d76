//! The frames of a cache in four queues.
ghost use Rattle.std.specs.Prelude.{◌≡◌, ◌<◌, IfOk, [], length, slice_index_or, slice_set};
ghost use Rattle.std.specs.Borrow.{Lends, sem, Array, u8 as byte};
ghost use Rattle.lfs_recency.specs.Links.{head_of as head_after, frame_size as frame_bytes, AreAlone, AreFilled};
ghost use Rattle.std.specs.Vec.{vec_ptr};
ghost use Rattle.lfs_recency.specs.FrameLists.{frame_count, listed, fronted, times, oldest_of, descending, IsWhole};

use crate::frame::Frame;
use crate::links::{frame_before, link_front, lone_frames, unlink};
use crate::queue::Queue;
use std::alloc::{AllocError, Global};
use std::marker::Model;

/// Frames of 512 bytes, each in one of four queues (after 4.4BSD's buffer cache).
///
/// A frame goes by its number. Contracts see the queues as lists of numbers, newest first, and the bytes by number.
#[derive(Drop)]
pub struct Frames {
    // The frames and then the heads of the queues, in one block that never moves.
    frames: Vec<Frame>,
    // How many are no heads.
    count: u32,
}

impl Model for Frames {
    ghost use Rattle.std.specs.Vec.{vec_ptr};
    ghost use Rattle.lfs_recency.specs.FrameLists.{FrameLists};

    ghost Value = { FrameLists };

    ghost use Rattle.lfs_recency.specs.Links.{frame_size, shown, AreKept};

    ghost view = { λ f. shown frame_size (vec_ptr f.frames) f.count f.frames.items };

    ghost invariant = { λ f. AreKept frame_size (vec_ptr f.frames) f.count f.frames.items };
}

// Where the head of a queue stands, after the frames.
fn head_of(count: u32, queue: Queue) -> usize
    ensures { result ≡ head_after count queue }
{
    let count = count as usize;
    match queue {
        Queue::Locked => count,
        Queue::Lru => count + 1,
        Queue::Age => count + 2,
        Queue::Empty => count + 3,
    }
}

// Links frames that are each in a ring of their own into EMPTY, one after another.
fn link_all(frames: &mut Vec<Frame>, count: u32)
    requires { AreAlone frame_bytes (vec_ptr frames.old) count frames.old.items }
    ensures { AreFilled frame_bytes (vec_ptr frames.new) count count frames.new.items }
{
    let head = head_of(count, Queue::Empty);
    for number in 0..count as usize {
        link_front(frames, head, number, Queue::Empty);
    }
}

impl Frames {
    ghost use Rattle.lfs_recency.specs.Lending.{LendsBlock};

    /// As many frames as `count` says, all in EMPTY, the frame 0 oldest.
    pub fn new(alloc: Global, count: u32) -> Result<Frames, AllocError>
        ensures lists { IfOk result (λ s. (s.locked ≡ []) × (s.lru ≡ []) × (s.age ≡ [])
            × (s.empty ≡ descending count)) }
        ensures count { IfOk result (λ s. frame_count s ≡ count) }
        ensures whole { IfOk result IsWhole }
    {
        let mut frames = lone_frames(alloc, count)?;
        link_all(&mut frames, count);
        Ok(Frames { frames, count })
    }

    /// The queue that a frame is in.
    pub fn queue(&self, frame: u32) -> Queue
        requires { frame < frame_count self.now }
        ensures { 0 < times frame (listed result self.now) }
    {
        self.frames[frame as usize].queue
    }

    /// Moves a frame from its queue to the front of a queue. All others stay in order.
    pub fn to_front(&mut self, frame: u32, queue: Queue)
        requires { frame < frame_count self.old }
        ensures moved { self.new ≡ fronted frame queue self.old }
        ensures whole { IsWhole self.new }
    {
        let head = head_of(self.count, queue);
        unlink(&mut self.frames, frame as usize);
        link_front(&mut self.frames, head, frame as usize, queue);
    }

    /// The frame that was longest ago moved to the front of a queue.
    pub fn oldest(&self, queue: Queue) -> Option<u32>
        ensures { result ≡ oldest_of (listed queue self.now) }
    {
        let head = head_of(self.count, queue);
        let last = frame_before(&self.frames, &self.frames[head]).number;
        if last < self.count { Some(last) } else { None }
    }

    /// The bytes of a frame.
    pub fn bytes(&self, frame: u32) -> &[u8; 512]
        requires { frame < frame_count self.now }
        ensures { result.now ≡ slice_index_or self.now.blocks frame [] }
    {
        &self.frames[frame as usize].bytes
    }

    /// The bytes of a frame, to be written.
    pub fn bytes_mut(&mut self, frame: u32) -> &mut [u8; 512]
        requires { frame < frame_count self.old }
        ensures* writes_back { sem 𝓛 (LendsBlock self.entry frame result) }
        ensures value { result.now ≡ slice_index_or self.old.blocks frame [] }
    {
        self.frames[frame as usize].bytes_mut()
    }
}
