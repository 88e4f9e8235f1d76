//! Names, paths and scripts are parsed.

use crate::told::told;
use lfs_audit::script::parse_script;
use lfs_types::name::Name;
use lfs_types::path::Path;
use std::alloc::Global;
use std::io::{Read, Write};

/// A name of 25 bytes.
const SHORT: [u8; 25] = [b'n'; 25];

/// A name of 255 bytes.
const LONG: [u8; 255] = [b'n'; 255];

/// A path of twelve names of 25 bytes, as 26 bytes each.
const PATH: &str = concat!(
    "/aaaaaaaaaaaaaaaaaaaaaaaaa/aaaaaaaaaaaaaaaaaaaaaaaaa/aaaaaaaaaaaaaaaaaaaaaaaaa",
    "/aaaaaaaaaaaaaaaaaaaaaaaaa/aaaaaaaaaaaaaaaaaaaaaaaaa/aaaaaaaaaaaaaaaaaaaaaaaaa",
    "/aaaaaaaaaaaaaaaaaaaaaaaaa/aaaaaaaaaaaaaaaaaaaaaaaaa/aaaaaaaaaaaaaaaaaaaaaaaaa",
    "/aaaaaaaaaaaaaaaaaaaaaaaaa/aaaaaaaaaaaaaaaaaaaaaaaaa/aaaaaaaaaaaaaaaaaaaaaaaaa",
);

/// The most bytes of the script.
const SCRIPT_MAX: usize = 2_048;

/// Names are parsed.
pub(crate) fn names<W: Write>(alloc: Global, writer: &mut W) {
    for bytes in [SHORT.as_slice(), LONG.as_slice()] {
        if told(writer, "name", Name::parse(alloc, bytes)) {
            told(writer, "name", Name::parse(alloc, bytes));
        }
    }
}

/// Paths are parsed.
pub(crate) fn paths<W: Write>(alloc: Global, writer: &mut W) {
    for text in ["/", "/a/b", "/a/b/c/d/e/f/g/h", PATH] {
        if told(writer, "path", Path::parse(alloc, text)) {
            told(writer, "path", Path::parse(alloc, text));
        }
    }
}

/// A script is read, without taking memory, and parsed.
pub(crate) fn script<R: Read, W: Write>(alloc: Global, reader: &mut R, writer: &mut W) {
    let mut bytes = [0u8; SCRIPT_MAX];
    let length = read_into(reader, &mut bytes);
    let script = bytes.get(..length).unwrap_or_default();
    if told(writer, "script", parse_script(alloc, script)) {
        told(writer, "script", parse_script(alloc, script));
    }
}

/// Reads to the end or until the bytes are full, and gives how many were read.
fn read_into<R: Read>(reader: &mut R, bytes: &mut [u8]) -> usize {
    let mut length = 0usize;
    for _ in 0..SCRIPT_MAX {
        let Some(rest) = bytes.get_mut(length..) else {
            break;
        };
        match reader.read(rest) {
            Ok(0) | Err(_) => break,
            Ok(count) => length = length.saturating_add(count),
        }
    }
    length
}
