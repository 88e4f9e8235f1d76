//! Where one message ends and the next begins. A read of the kernel's device gives one whole message; a file or a pipe
//! may give several, or the beginning of one.

ghost use Rattle.std.specs.Prelude.{◌≡◌};
ghost use Rattle.lfs_fuse_wire.specs.Framing.{IsFirst, frame_in};

use crate::header::HEADER_SIZE;
use crate::numbers::word_at;

/// What stands at the front of bytes.
#[derive(Clone, Copy, PartialEq, Eq, Debug)]
pub enum Frame {
    /// A whole message of so many bytes. What follows belongs to the next.
    Whole(usize),
    /// The beginning of a message, or nothing: more bytes are wanted.
    Partial,
    /// No message: the length that stands there is less than a header's, or more than the most that is taken.
    Bad,
}

impl Frame {
    /// The frame at the front of bytes, where a message may have `most` bytes. `Message::decode` reads the bytes of a
    /// whole message, and no others.
    pub fn first(bytes: &[u8], most: usize) -> Frame
        ensures frame { result ≡ frame_in most bytes.now }
        ensures first { IsFirst bytes.now result }
    {
        if bytes.len() < 4 {
            return Frame::Partial;
        }
        let length = word_at(bytes, 0) as usize;
        if length < HEADER_SIZE || most < length {
            Frame::Bad
        } else if bytes.len() < length {
            Frame::Partial
        } else {
            Frame::Whole(length)
        }
    }
}
