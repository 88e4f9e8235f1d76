//! Names and paths.

use super::repeated;
use crate::tests::expect_eq;
use lfs_types::name::{BadName, Name, clone_names};
use lfs_types::path::{BadPath, Path};
use std::alloc::Global;
use std::process::Abort;

/// Bytes that are names.
const TAKEN: [&[u8]; 10] = [
    &[b'a'; 255],
    &[b'a'; 41],
    &[b'a'; 40],
    b"fifteen-letters",
    b"fourteen-bytes",
    b"a",
    b"...",
    b".a",
    b"..a",
    b"\xff \n",
];

/// A path of names of 1, 14, 15, 40 and 41 bytes.
const NAMES: &str = "/a/fourteen-bytes/fifteen-letters/\
forty-bytes-forty-bytes-forty-bytes-40-b/forty-one-bytes-forty-one-bytes-41-bytes-";

/// Bytes, and why each is no name.
const REFUSED_NAMES: [(&[u8], BadName); 8] = [
    (b"", BadName::Empty),
    (&[b'a'; 256], BadName::Long),
    (&[b'/'; 256], BadName::Long),
    (b"a/b", BadName::Slash),
    (b"\0/", BadName::Slash),
    (b"a\0", BadName::Nul),
    (b".", BadName::Dot),
    (b"..", BadName::Dot),
];

/// Asserts that these bytes are the name that they make, or why they are none.
fn expect_name(rt: &impl Abort, alloc: Global, bytes: &[u8], fault: Option<BadName>) {
    match Name::parse(alloc, bytes) {
        Ok(name) => expect_eq(rt, (name.as_bytes(), None), (bytes, fault)),
        Err(found) => expect_eq(rt, Some(found), fault),
    }
}

#[test]
fn names_are_taken_or_refused_by_the_first_fault(rt: HostRuntime) {
    for bytes in &TAKEN {
        expect_name(&rt, rt.alloc(), bytes, None);
    }
    for (bytes, fault) in &REFUSED_NAMES {
        expect_name(&rt, rt.alloc(), bytes, Some(*fault));
    }
}

/// Texts, and why each is no path.
const REFUSED_PATHS: [(&str, BadPath); 11] = [
    ("", BadPath::NotAbsolute),
    ("a", BadPath::NotAbsolute),
    ("//", BadPath::Name(1, BadName::Empty)),
    ("/a/", BadPath::Name(2, BadName::Empty)),
    ("/a//b", BadPath::Name(2, BadName::Empty)),
    ("/a/b/../\0", BadPath::Name(3, BadName::Dot)),
    ("/\0", BadPath::Name(1, BadName::Nul)),
    ("/./a", BadPath::Name(1, BadName::Dot)),
    ("/fourteen-bytes/..", BadPath::Name(2, BadName::Dot)),
    ("/fourteen-bytes\0/a", BadPath::Name(1, BadName::Nul)),
    ("/a/fifteen-letter\0/b", BadPath::Name(2, BadName::Nul)),
];

/// A slash and a name of 255 bytes.
const LONG_NAME: &str = "/\
aaaaaaaaaaaaaaaaaaaaaaaaaaaaaaaaaaaaaaaaaaaaaaaaaaaaaaaaaaaaaaaaaaaaaaaaaaaaaaaaaaaaa\
aaaaaaaaaaaaaaaaaaaaaaaaaaaaaaaaaaaaaaaaaaaaaaaaaaaaaaaaaaaaaaaaaaaaaaaaaaaaaaaaaaaaa\
aaaaaaaaaaaaaaaaaaaaaaaaaaaaaaaaaaaaaaaaaaaaaaaaaaaaaaaaaaaaaaaaaaaaaaaaaaaaaaaaaaaaa";

/// The first fault of a text that is no path.
fn fault_of(alloc: Global, text: &str) -> Option<BadPath> {
    Path::parse(alloc, text).err()
}

/// The path of a text.
fn path_of(rt: &impl Abort, alloc: Global, text: &str) -> Path {
    Path::parse(alloc, text).expect(rt, "a path")
}

#[test]
fn paths_are_refused_by_the_first_fault(rt: HostRuntime) {
    for (text, fault) in &REFUSED_PATHS {
        expect_eq(&rt, fault_of(rt.alloc(), text), Some(*fault));
    }
    let name = repeated(&rt, rt.alloc(), "/", "b", 256);
    let fault = BadPath::Name(1, BadName::Long);
    expect_eq(&rt, fault_of(rt.alloc(), name.as_str()), Some(fault));
}

#[test]
fn paths_have_at_most_1024_bytes(rt: HostRuntime) {
    let mut long = repeated(&rt, rt.alloc(), "", LONG_NAME, 4);
    let count = path_of(&rt, rt.alloc(), long.as_str()).names().len();
    expect_eq(&rt, [long.len(), count], [1024, 4]);
    long.push('/').expect(&rt, "memory");
    let fault = fault_of(rt.alloc(), long.as_str());
    expect_eq(&rt, fault, Some(BadPath::Long));
}

/// Names, each behind a slash.
fn spelled(rt: &impl Abort, alloc: Global, names: &[Name]) -> Vec<u8> {
    let mut text = Vec::new(alloc);
    for name in names {
        text.push(b'/').expect(rt, "memory");
        text.extend_from_slice(name.as_bytes()).expect(rt, "memory");
    }
    text
}

#[test]
fn paths_have_their_names_in_order(rt: HostRuntime) {
    for (text, names) in [
        ("/", ""),
        ("/a", "/a"),
        ("/one/2/three", "/one/2/three"),
        (NAMES, NAMES),
    ] {
        let path = path_of(&rt, rt.alloc(), text);
        let seen = spelled(&rt, rt.alloc(), path.names());
        expect_eq(&rt, seen.as_slice(), names.as_bytes());
    }
}

/// Asserts whether a copy of `/one/2/three` is equal to this path.
fn expect_copy(rt: &impl Abort, alloc: Global, other: &Path, equal: bool) {
    let path = path_of(rt, alloc, "/one/2/three");
    let copy = path.try_clone(alloc).expect(rt, "memory");
    expect_eq(rt, copy == *other, equal);
}

#[test]
fn copied_paths_are_equal_to_their_own_alone(rt: HostRuntime) {
    for (other, equal) in [("/one/2/three", true), ("/a", false), ("/", false)] {
        expect_copy(&rt, rt.alloc(), &path_of(&rt, rt.alloc(), other), equal);
    }
}

/// Asserts that a copy of a name is equal to it.
fn expect_copied(rt: &impl Abort, alloc: Global, name: &Name) {
    expect_eq(rt, &name.try_clone(alloc).expect(rt, "memory"), name);
}

#[test]
fn copied_names_are_equal(rt: HostRuntime) {
    let path = path_of(&rt, rt.alloc(), NAMES);
    for name in path.names() {
        expect_copied(&rt, rt.alloc(), name);
    }
    let copies = clone_names(rt.alloc(), path.names()).expect(&rt, "memory");
    expect_eq(&rt, copies.as_slice(), path.names());
}
