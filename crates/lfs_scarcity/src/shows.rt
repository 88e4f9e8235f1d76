//! Calls that take memory themselves: what shows a file's bytes, a directory's names or the ifile; and each change
//! of the plain store.

use crate::volumes::{log, plain};
use lfs_cleaner::wanting::superuser;
use std::alloc::Global;
use std::io::Write;

/// A Read of 4,096 bytes, a List of three names of 30 bytes, and the bytes of the ifile, over a log.
pub(crate) fn shows<W: Write>(alloc: Global, writer: &mut W) {
    let Some(mut looked) = log(alloc, writer, &["stat /a\n"]) else {
        return;
    };
    looked.look(alloc, writer);
    for (what, line) in SETUP {
        looked.ask(alloc, writer, what, line);
    }
    looked.ask_ifile(alloc, writer, &superuser());
}

/// Each line of it, and the word that it is told by.
const SETUP: [(&str, &str); 8] = [
    ("create", "create /a 0644\n"),
    ("length", "length /a 4096\n"),
    ("write", "write /a at 4000 616263\n"),
    ("create", "create /aaaaaaaaaaaaaaaaaaaaaaaaaaaaaa 0644\n"),
    ("create", "create /bbbbbbbbbbbbbbbbbbbbbbbbbbbbbb 0644\n"),
    ("create", "create /cccccccccccccccccccccccccccccc 0644\n"),
    ("read", "read /a 0 4096\n"),
    ("list", "list /\n"),
];

/// A Create, Writes, a SetLength and a Rename over the plain store; the file is looked at between them.
pub(crate) fn changes<W: Write>(alloc: Global, writer: &mut W) {
    let Some(mut looked) = plain(alloc, writer, LOOKS) else {
        return;
    };
    looked.look(alloc, writer);
    for (what, line) in CHANGES {
        looked.ask(alloc, writer, what, line);
    }
}

/// The lines that look at them.
const LOOKS: &[&str] = &["stat /a\n", "read /a 0 64\n", "stat /b\n", "read /b 0 64\n"];

/// Each line of them, and the word that it is told by.
const CHANGES: [(&str, &str); 5] = [
    ("create", "create /a 0644\n"),
    ("write", "write /a at 0 616263\n"),
    ("write", "write /a at 2 6465666768696a6b6c6d6e6f70717273\n"),
    ("length", "length /a 40\n"),
    ("rename", "rename /a /b\n"),
];
