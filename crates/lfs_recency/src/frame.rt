//! A frame.
ghost use Rattle.std.specs.Prelude.{◌≡◌};
ghost use Rattle.std.specs.Borrow.{sem};
ghost use Rattle.lfs_recency.specs.FrameLends.{LendsBytes};

use crate::queue::Queue;
use std::marker::Send;

/// A block of memory in a queue. Its neighbours in the queue are raw pointers.
#[derive(Drop)]
pub struct Frame {
    pub(crate) bytes: [u8; 512],
    pub(crate) prev: *mut Frame,
    pub(crate) next: *mut Frame,
    pub(crate) number: u32,
    pub(crate) queue: Queue,
}

unsafe impl Send for Frame {}

impl Frame {
    pub(crate) fn bytes_mut(&mut self) -> &mut [u8; 512]
        ensures* writes_back { sem 𝓛 (LendsBytes self.entry result) }
        ensures value { result.now ≡ self.old.bytes }
    {
        &mut self.bytes
    }
}
