//! The four queues.

/// A queue of frames, as 4.4BSD's buffer cache has them.
#[derive(Clone, Copy, PartialEq, Eq, Debug)]
pub enum Queue {
    /// Frames that may not be taken.
    Locked,
    /// Frames in use, the least recently used one last.
    Lru,
    /// Frames whose bytes are not wanted again.
    Age,
    /// Frames without bytes.
    Empty,
}
