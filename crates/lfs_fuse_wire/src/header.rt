//! What stands before each message: its length, what it asks, and of whom and for whom.

ghost use Rattle.std.specs.Prelude.{◌≡◌};
ghost use Rattle.lfs_fuse_wire.specs.Header.{header_in};

use crate::numbers::{long_at, word_at};

/// The number of bytes of a header (the FUSE protocol's fuse.h).
pub const HEADER_SIZE: usize = 40;

/// The node id of the root directory.
pub const ROOT: u64 = 1;

/// A message's header.
#[derive(Clone, Copy, PartialEq, Eq, Debug)]
pub struct Header {
    /// The bytes of the message, these 40 among them.
    pub length: u32,
    /// What is asked, as a number of the protocol.
    pub opcode: u32,
    /// The message's own number, which its reply has too.
    pub unique: u64,
    /// The node that is asked about, by the id that a reply gave it; 1 is the root.
    pub node: u64,
    /// The user of the process that asks.
    pub uid: u32,
    /// The group of the process that asks.
    pub gid: u32,
    /// The process that asks.
    pub pid: u32,
}

impl Header {
    /// The header at the front of a message, and `None` where fewer than 40 bytes are there.
    pub fn decode(bytes: &[u8]) -> Option<Header>
        ensures { result ≡ header_in bytes.now }
    {
        if bytes.len() < HEADER_SIZE {
            return None;
        }
        Some(Header {
            length: word_at(bytes, 0),
            opcode: word_at(bytes, 4),
            unique: long_at(bytes, 8),
            node: long_at(bytes, 16),
            uid: word_at(bytes, 24),
            gid: word_at(bytes, 28),
            pid: word_at(bytes, 32),
        })
    }
}
