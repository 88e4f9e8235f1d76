//! Where messages end: several in one buffer, cut ones, and lengths that can't be.

use super::{expect_eq, message_of};
use lfs_fuse_wire::framing::Frame;
use lfs_fuse_wire::message::{Message, MessageFault};

#[test]
fn two_messages_in_one_buffer(rt: HostRuntime) {
    let mut bytes = message_of(rt.alloc(), 42, 1, b"a\0").expect(&rt, "room");
    let second = message_of(rt.alloc(), 43, 1, b"bc\0").expect(&rt, "room");
    bytes.extend_from_slice(&second).expect(&rt, "room");
    expect_eq(&rt, Frame::first(&bytes, 4096), Frame::Whole(42));
    expect_eq(&rt, Message::decode(&bytes), Ok(Message::Lookup(b"a")));
    assert!(rt; bytes.len() > 42);
    expect_eq(&rt, Frame::first(&bytes[42..], 4096), Frame::Whole(43));
    expect_eq(
        &rt,
        Message::decode(&bytes[42..]),
        Ok(Message::Lookup(b"bc")),
    );
}

#[test]
fn cut_messages(rt: HostRuntime) {
    let bytes = message_of(rt.alloc(), 46, 1, b"hello\0").expect(&rt, "room");
    for cut in bytes.iter().enumerate().map(|(place, _)| place) {
        let front = bytes.get(..cut).unwrap_or(&[]);
        expect_eq(&rt, Frame::first(front, 4096), Frame::Partial);
        expect_eq(&rt, Message::decode(front), Err(MessageFault::Cut));
    }
    expect_eq(&rt, Frame::first(&bytes, 4096), Frame::Whole(46));
}

#[test]
fn a_length_below_a_header(rt: HostRuntime) {
    let bytes = message_of(rt.alloc(), 39, 17, b"").expect(&rt, "room");
    expect_eq(&rt, Frame::first(&bytes, 4096), Frame::Bad);
    expect_eq(&rt, Message::decode(&bytes), Err(MessageFault::Cut));
}

#[test]
fn a_length_above_what_is_there(rt: HostRuntime) {
    let bytes = message_of(rt.alloc(), 41, 17, b"").expect(&rt, "room");
    expect_eq(&rt, Frame::first(&bytes, 4096), Frame::Partial);
    expect_eq(&rt, Frame::first(&bytes, 40), Frame::Bad);
    expect_eq(&rt, Message::decode(&bytes), Err(MessageFault::Cut));
}

/// The next number of a generator (Knuth's MMIX).
fn next(state: u64) -> u64 {
    state
        .wrapping_mul(6364136223846793005)
        .wrapping_add(1442695040888963407)
}

#[test]
fn bytes_of_a_generator(rt: HostRuntime) {
    let mut state = 1;
    for opcode in 0..60 {
        let mut body = [0; 100];
        for byte in body.iter_mut() {
            state = next(state);
            *byte = (state >> 56) as u8;
        }
        let bytes = message_of(rt.alloc(), 140, opcode, &body).expect(&rt, "room");
        expect_eq(&rt, Frame::first(&bytes, 140), Frame::Whole(140));
        // all bytes are there, so what is missing is within the message
        expect_eq(
            &rt,
            Message::decode(&bytes) == Err(MessageFault::Cut),
            false,
        );
    }
}
