//! What a terminal shows of answers, and of a reader with a prompt.

use crate::painted::Painted;
use crate::prompted::Prompted;
use std::alloc::Global;
use std::io::{Read, Write};
use std::process::Abort;

/// Writes texts one by one to a terminal, with colours or without, and gives what it shows.
fn shown(rt: &impl Abort, alloc: Global, is_coloured: bool, texts: &[&str]) -> Vec<u8> {
    let mut screen = Vec::new(alloc);
    let mut writer = Painted::new(&mut screen, is_coloured);
    for text in texts {
        let written = writer.write(text.as_bytes()).expect(rt, "a write");
        assert_eq!(rt; written, text.len());
    }
    writer.flush().expect(rt, "a flush");
    drop(writer);
    screen
}

/// An answer of each kind, a fault, a line of a report, and a text of one byte.
const TEXTS: [&str; 7] = [
    "0 ok\n",
    "1 denied M2 EACCES 0 1\n",
    "refused NoSpace\n",
    "fault Words at 1: no line begins so\n",
    "3 bytes 6869\n",
    "served 4\n",
    "\n",
];

#[test]
fn answers_have_the_colour_of_their_decision(rt: HostRuntime) {
    let found = shown(&rt, rt.alloc(), true, TEXTS.as_slice());
    let wanted = "\x1b[32m0 ok\n\x1b[0m\
        \x1b[31m1 denied M2 EACCES 0 1\n\x1b[0m\
        \x1b[33mrefused NoSpace\n\x1b[0m\
        \x1b[33mfault Words at 1: no line begins so\n\x1b[0m\
        \x1b[32m3 bytes 6869\n\x1b[0m\
        served 4\n\n";
    assert_eq!(&rt; found.as_slice(), wanted.as_bytes());
}

#[test]
fn without_colours_answers_are_as_they_are(rt: HostRuntime) {
    let found = shown(&rt, rt.alloc(), false, TEXTS.as_slice());
    let wanted =
        "0 ok\n1 denied M2 EACCES 0 1\nrefused NoSpace\nfault Words at 1: no line begins so\n\
        3 bytes 6869\nserved 4\n\n";
    assert_eq!(&rt; found.as_slice(), wanted.as_bytes());
}

/// Reads all of a terminal, at most so many bytes at a time, and gives what it shows of prompts and what was read.
fn read_all(rt: &impl Abort, alloc: Global, typed: &[u8], most: usize) -> (Vec<u8>, Vec<u8>) {
    let mut screen = Vec::new(alloc);
    let mut read = Vec::new(alloc);
    let mut buffer = [0u8; 16];
    let mut reader = Prompted::new(typed, &mut screen, "> ");
    for _ in 0..64 {
        let count = reader
            .read(&mut buffer[..most.min(16)])
            .expect(rt, "a read");
        read.extend_from_slice(&buffer[..count.min(16)])
            .expect(rt, "memory");
    }
    drop(reader);
    (screen, read)
}

#[test]
fn prompt_stands_before_each_line(rt: HostRuntime) {
    let (screen, read) = read_all(&rt, rt.alloc(), b"sync\n.quit\n", 1);
    assert_eq!(&rt; read.as_slice(), b"sync\n.quit\n".as_slice());
    assert_eq!(&rt; screen.as_slice(), b"> > > ".as_slice());
    let (screen, read) = read_all(&rt, rt.alloc(), b"sync", 16);
    assert_eq!(&rt; read.as_slice(), b"sync".as_slice());
    assert_eq!(&rt; screen.as_slice(), b"> ".as_slice());
}
