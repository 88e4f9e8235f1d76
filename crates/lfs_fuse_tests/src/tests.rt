//! Messages and replies by hand, messages that are cut, and bytes of a generator.

mod disk;
mod framing;
mod journal;
mod messages;
mod replies;

use lfs_fuse_wire::message::{Message, MessageFault};
use std::alloc::{AllocError, Global};
use std::fmt::Debug;
use std::process::Abort;

/// Asserts that what was found is what is wanted. An assertion takes the prover a second or more, a call of this less.
fn expect_eq<T: PartialEq + Debug + Drop>(rt: &impl Abort, found: T, wanted: T) {
    assert_eq!(rt; found, wanted);
}

/// Asserts that these bytes are those.
fn expect_bytes(rt: &impl Abort, found: &[u8], wanted: &[u8]) {
    expect_eq(rt, found, wanted);
}

/// A message: its header of 40 bytes, written out, and what stands behind it.
fn message_of(alloc: Global, length: u8, opcode: u8, body: &[u8]) -> Result<Vec<u8>, AllocError> {
    let header = [
        length, 0, 0, 0, // len
        opcode, 0, 0, 0, // opcode
        7, 0, 0, 0, 0, 0, 0, 0, // unique
        1, 0, 0, 0, 0, 0, 0, 0, // nodeid
        0xe8, 3, 0, 0, // uid 1000
        100, 0, 0, 0, // gid
        0x39, 0x30, 0, 0, // pid 12345
        0, 0, // total_extlen
        0, 0, // padding
    ];
    let mut bytes = Vec::new(alloc);
    bytes.extend_from_slice(&header)?;
    bytes.extend_from_slice(body)?;
    Ok(bytes)
}

/// Asserts what a message says. Its length is that of a header and of what stands behind it.
fn expect_message(
    rt: &impl Abort,
    alloc: Global,
    head: [u8; 2],
    body: &[u8],
    wanted: Result<Message<'_>, MessageFault>,
) {
    let bytes = message_of(alloc, head[0], head[1], body).expect(rt, "room");
    expect_eq(rt, Message::decode(&bytes), wanted);
}
