//! The links between frames. Each queue is a ring of frames through its head, so that no link is missing.
//!
//! No function elsewhere holds a pointer to a frame. Each of these five has its part: the frames are made, a frame
//! leaves its ring, a frame comes into a ring, and a frame is read or written through a link.
ghost use Rattle.std.specs.Prelude.{◌≡◌, ◌*◌, ◌^◌, ◌<◌, slice_index_or, vec_len, IfOk};
ghost use Rattle.std.specs.Borrow.{sem};
ghost use Rattle.std.specs.Mem.{type_size};
ghost use Rattle.std.specs.Vec.{vec_ptr, vec_follows_item};
ghost use Rattle.lfs_recency.specs.Places.{IsItemPlace, item_number};
ghost use Rattle.lfs_recency.specs.Links.{frame_size, frame_at, next_at, prev_at, unlinked, linked_after, AreAlone};
ghost use denote.RawPtr.{InBlock};

use crate::frame::Frame;
use crate::queue::Queue;
use std::alloc::{AllocError, Allocator, Global};
use std::ptr;

/// Makes as many frames as the count says, and then a head for each queue, each in a ring of its own.
pub(crate) fn lone_frames(alloc: Global, count: u32) -> Result<Vec<Frame>, AllocError>
    ensures { IfOk result (λ frames. AreAlone frame_size (vec_ptr frames) count frames.items) }
{
    let room = count as usize + 4;
    let mut frames = Vec::with_capacity(alloc, room)?;
    // Where the next frame will lie: there is room for all of them, so the block doesn't move.
    let mut this = frames.as_mut_ptr();
    for place in 0..room {
        let number = if place < count as usize {
            place as u32
        } else {
            count
        };
        frames.push_reserved(Frame {
            bytes: [0; 512],
            prev: ptr::null_mut(),
            next: ptr::null_mut(),
            number,
            queue: Queue::Empty,
        });
        let frame = item_at_mut(&mut frames, this);
        frame.prev = this;
        frame.next = this;
        this = unsafe { this.offset(1) };
    }
    Ok(frames)
}

/// Takes a frame out of its ring: its two neighbours are linked to one another.
pub(crate) fn unlink(frames: &mut Vec<Frame>, number: usize)
    requires in_range { number < vec_len frames.old }
    requires next { IsItemPlace frame_size (vec_ptr frames.old) (vec_len frames.old)
        (next_at frames.old.items number) }
    requires prev { IsItemPlace frame_size (vec_ptr frames.old) (vec_len frames.old)
        (prev_at frames.old.items number) }
    ensures items { frames.new.items
        ≡ unlinked frame_size (vec_ptr frames.old) number frames.old.items }
    ensures place { vec_ptr frames.new ≡ vec_ptr frames.old }
    ensures len { vec_len frames.new ≡ vec_len frames.old }
{
    let prev = frames[number].prev;
    let next = frames[number].next;
    item_at_mut(frames, prev).next = next;
    item_at_mut(frames, next).prev = prev;
}

/// Links a frame in right after the head of a ring.
pub(crate) fn link_front(frames: &mut Vec<Frame>, head: usize, number: usize, queue: Queue)
    requires inside { InBlock (vec_ptr frames.old) }
    requires fits { vec_len frames.old * frame_size < 2 ^ 63 }
    requires head { head < vec_len frames.old }
    requires in_range { number < vec_len frames.old }
    requires next { IsItemPlace frame_size (vec_ptr frames.old) (vec_len frames.old)
        (next_at frames.old.items head) }
    ensures items { frames.new.items
        ≡ linked_after frame_size (vec_ptr frames.old) head number queue frames.old.items }
    ensures place { vec_ptr frames.new ≡ vec_ptr frames.old }
    ensures len { vec_len frames.new ≡ vec_len frames.old }
{
    let start = frames.as_mut_ptr();
    let this = unsafe { start.offset(number as isize) };
    let before = unsafe { start.offset(head as isize) };
    let after = frames[head].next;
    let frame = &mut frames[number];
    frame.prev = before;
    frame.next = after;
    frame.queue = queue;
    item_at_mut(frames, after).prev = this;
    item_at_mut(frames, before).next = this;
}

/// The frame before another one in its ring.
pub(crate) fn frame_before<'a>(frames: &'a Vec<Frame>, frame: &'a Frame) -> &'a Frame
    requires { IsItemPlace frame_size (vec_ptr frames.now) (vec_len frames.now) frame.now.prev }
    ensures { result.now ≡ frame_at frames.now.items
        (item_number frame_size (vec_ptr frames.now) frame.now.prev) }
{
    unsafe { &*frame.prev }
}

/// The item at `place`, to be written.
pub(crate) fn item_at_mut<T, A: Allocator>(items: &mut Vec<T, A>, place: *mut T) -> &mut T
    requires { IsItemPlace (type_size T.row) (vec_ptr items.old) (vec_len items.old) place }
    ensures* writes_back { sem 𝓛 (vec_follows_item T.row A.row A.Allocator items.entry
        (item_number (type_size T.row) (vec_ptr items.old) place) result) }
    ensures value { result.now ≡ slice_index_or items.old.items
        (item_number (type_size T.row) (vec_ptr items.old) place) result.now }
    ensures in_block { InBlock (vec_ptr items.old) }
{
    unsafe { &mut *place }
}
