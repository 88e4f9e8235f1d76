//! One reply of each kind, by hand from fuse.h's structs: fuse_out_header (16 bytes), fuse_entry_out (128), fuse_attr
//! (88), fuse_attr_out (104), fuse_open_out (16), fuse_write_out (8), fuse_kstatfs (80), fuse_init_out (64),
//! fuse_ioctl_out (16), fsxattr (28), fuse_dirent (24 and the name) and fuse_direntplus (152 and the name).

ghost use Rattle.lfs_fuse_reply.specs.Replies.{IsShort};

use super::{expect_bytes, expect_eq};
use lfs_fuse_reply::attr::{Attr, Entry};
use lfs_fuse_reply::errno::Errno;
use lfs_fuse_reply::listing::{DirEntry, DirEntryPlus};
use lfs_fuse_reply::reply::{InitReply, Opened, Reply, Statfs};
use lfs_fuse_wire::attributes::Time;
use lfs_fuse_wire::init::InitFlags;
use lfs_fuse_wire::kind::FileKind;
use std::alloc::Global;
use std::process::Abort;

/// Attributes, each another number.
const ATTR: Attr = Attr {
    inode: 1,
    size: 2,
    blocks: 3,
    accessed: Time {
        seconds: 4,
        nanoseconds: 7,
    },
    modified: Time {
        seconds: 5,
        nanoseconds: 8,
    },
    changed: Time {
        seconds: 6,
        nanoseconds: 9,
    },
    kind: FileKind::Directory,
    permissions: 0o755,
    links: 10,
    uid: 11,
    gid: 12,
    block_size: 13,
};

/// The bytes of these attributes.
const ATTR_BYTES: [u8; 88] = [
    1, 0, 0, 0, 0, 0, 0, 0, // ino
    2, 0, 0, 0, 0, 0, 0, 0, // size
    3, 0, 0, 0, 0, 0, 0, 0, // blocks
    4, 0, 0, 0, 0, 0, 0, 0, // atime
    5, 0, 0, 0, 0, 0, 0, 0, // mtime
    6, 0, 0, 0, 0, 0, 0, 0, // ctime
    7, 0, 0, 0, // atimensec
    8, 0, 0, 0, // mtimensec
    9, 0, 0, 0, // ctimensec
    0xed, 0x41, 0, 0, // mode 040755
    10, 0, 0, 0, // nlink
    11, 0, 0, 0, // uid
    12, 0, 0, 0, // gid
    0, 0, 0, 0, // rdev
    13, 0, 0, 0, // blksize
    0, 0, 0, 0, // flags
];

/// An entry that leads there.
const ENTRY: Entry = Entry {
    node: 258,
    generation: 3,
    attr: ATTR,
};

/// The first 40 bytes of this entry.
const ENTRY_BYTES: [u8; 40] = [
    2, 1, 0, 0, 0, 0, 0, 0, // nodeid
    3, 0, 0, 0, 0, 0, 0, 0, // generation
    0, 0, 0, 0, 0, 0, 0, 0, // entry_valid
    0, 0, 0, 0, 0, 0, 0, 0, // attr_valid
    0, 0, 0, 0, // entry_valid_nsec
    0, 0, 0, 0, // attr_valid_nsec
];

/// Asserts what the reply to message 0x0102 adds: its length, its error below zero, and its parts.
fn expect_reply(
    rt: &impl Abort,
    alloc: Global,
    reply: &Reply<'_>,
    length: u8,
    error: [u8; 4],
    parts: [&[u8]; 3],
)
    requires { IsShort reply.now }
{
    let mut wanted = Vec::new(alloc);
    wanted
        .extend_from_slice(&[length, 0, 0, 0])
        .expect(rt, "room");
    wanted.extend_from_slice(&error).expect(rt, "room");
    wanted
        .extend_from_slice(&[2, 1, 0, 0, 0, 0, 0, 0])
        .expect(rt, "room");
    for part in parts {
        wanted.extend_from_slice(part).expect(rt, "room");
    }
    expect_eq(rt, wanted.len(), usize::from(length));
    let mut out = Vec::new(alloc);
    reply.append(&mut out, 0x0102).expect(rt, "room");
    expect_bytes(rt, &out, &wanted);
}

/// Asserts what a reply without an error adds.
fn expect_done(rt: &impl Abort, alloc: Global, reply: &Reply<'_>, length: u8, parts: [&[u8]; 3])
    requires { IsShort reply.now }
{
    expect_reply(rt, alloc, reply, length, [0; 4], parts);
}

#[test]
fn errors_by_hand(rt: HostRuntime) {
    // -2, -38 and -116 in two's complement
    let none: [&[u8]; 3] = [&[], &[], &[]];
    expect_reply(
        &rt,
        rt.alloc(),
        &Reply::Error(Errno::ENOENT),
        16,
        [0xfe, 0xff, 0xff, 0xff],
        none,
    );
    expect_reply(
        &rt,
        rt.alloc(),
        &Reply::Error(Errno::ENOSYS),
        16,
        [0xda, 0xff, 0xff, 0xff],
        none,
    );
    expect_reply(
        &rt,
        rt.alloc(),
        &Reply::Error(Errno::ESTALE),
        16,
        [0x8c, 0xff, 0xff, 0xff],
        none,
    );
    expect_done(&rt, rt.alloc(), &Reply::Done, 16, none);
}

#[test]
fn entries_and_attributes_by_hand(rt: HostRuntime) {
    expect_done(
        &rt,
        rt.alloc(),
        &Reply::Entry(ENTRY),
        144,
        [&ENTRY_BYTES, &ATTR_BYTES, &[]],
    );
    // attr_valid, attr_valid_nsec, dummy
    expect_done(
        &rt,
        rt.alloc(),
        &Reply::Attr(ATTR),
        120,
        [&[0; 16], &ATTR_BYTES, &[]],
    );
}

/// A file that was opened.
const OPENED: Opened = Opened {
    handle: 0x0304,
    direct_io: true,
};

/// The bytes of this opening.
const OPENED_BYTES: [u8; 16] = [
    4, 3, 0, 0, 0, 0, 0, 0, // fh
    1, 0, 0, 0, // open_flags FOPEN_DIRECT_IO
    0, 0, 0, 0, // padding
];

#[test]
fn openings_by_hand(rt: HostRuntime) {
    let alloc = rt.alloc();
    expect_done(
        &rt,
        alloc,
        &Reply::Open(OPENED),
        32,
        [&OPENED_BYTES, &[], &[]],
    );
    let parts: [&[u8]; 3] = [&ENTRY_BYTES, &ATTR_BYTES, &OPENED_BYTES];
    expect_done(&rt, alloc, &Reply::Create(ENTRY, OPENED), 160, parts);
}

#[test]
fn a_directory_opened_by_hand(rt: HostRuntime) {
    let directory = Opened {
        handle: 5,
        direct_io: false,
    };
    // fh, open_flags, padding
    let bytes = [5, 0, 0, 0, 0, 0, 0, 0, 0, 0, 0, 0, 0, 0, 0, 0];
    expect_done(
        &rt,
        rt.alloc(),
        &Reply::Open(directory),
        32,
        [&bytes, &[], &[]],
    );
}

#[test]
fn bytes_by_hand(rt: HostRuntime) {
    expect_done(
        &rt,
        rt.alloc(),
        &Reply::Bytes(b"hello"),
        21,
        [b"hello", &[], &[]],
    );
    // size 4096, padding
    expect_done(
        &rt,
        rt.alloc(),
        &Reply::Written(4096),
        24,
        [&[0, 0x10, 0, 0, 0, 0, 0, 0], &[], &[]],
    );
}

#[test]
fn control_calls_by_hand(rt: HostRuntime) {
    // result, flags, in_iovs, out_iovs
    expect_done(&rt, rt.alloc(), &Reply::Ioctl, 32, [&[0; 16], &[], &[]]);
    expect_done(
        &rt,
        rt.alloc(),
        &Reply::Flags(0x30),
        36,
        [&[0; 16], &[0x30, 0, 0, 0], &[]],
    );
    // fsx_xflags, and the other 24 bytes of fsxattr
    expect_done(
        &rt,
        rt.alloc(),
        &Reply::Extended(8),
        60,
        [&[0; 16], &[8, 0, 0, 0], &[0; 24]],
    );
}

#[test]
fn room_by_hand(rt: HostRuntime) {
    let statfs = Statfs {
        blocks: 1,
        free_blocks: 2,
        available_blocks: 3,
        files: 4,
        free_files: 5,
        block_size: 4096,
        max_name: 255,
    };
    let bytes = [
        1, 0, 0, 0, 0, 0, 0, 0, // blocks
        2, 0, 0, 0, 0, 0, 0, 0, // bfree
        3, 0, 0, 0, 0, 0, 0, 0, // bavail
        4, 0, 0, 0, 0, 0, 0, 0, // files
        5, 0, 0, 0, 0, 0, 0, 0, // ffree
        0, 0x10, 0, 0, // bsize
        0xff, 0, 0, 0, // namelen
        0, 0x10, 0, 0, // frsize
        0, 0, 0, 0, // padding
    ];
    expect_done(
        &rt,
        rt.alloc(),
        &Reply::Statfs(statfs),
        96,
        [&bytes, &[0; 24], &[]],
    );
}

#[test]
fn the_talk_by_hand(rt: HostRuntime) {
    let init = InitReply {
        major: 7,
        minor: 38,
        max_readahead: 0,
        flags: InitFlags(0x10_4000_0009),
        max_background: 12,
        congestion_threshold: 9,
        max_write: 0x10000,
        time_granularity: 1,
        max_pages: 16,
    };
    let bytes = [
        7, 0, 0, 0, // major
        38, 0, 0, 0, // minor
        0, 0, 0, 0, // max_readahead
        9, 0, 0, 0x40, // flags
        12, 0, // max_background
        9, 0, // congestion_threshold
        0, 0, 1, 0, // max_write
        1, 0, 0, 0, // time_gran
        16, 0, // max_pages
        0, 0, // map_alignment
        0x10, 0, 0, 0, // flags2
    ];
    expect_done(
        &rt,
        rt.alloc(),
        &Reply::Init(init),
        80,
        [&bytes, &[0; 28], &[]],
    );
}

/// The entry of a directory.
const DIRENT: DirEntry<'static> = DirEntry {
    inode: 9,
    offset: 258,
    kind: Some(FileKind::Regular),
    name: b"abc",
};

/// The bytes of this entry.
const DIRENT_BYTES: [u8; 32] = [
    9, 0, 0, 0, 0, 0, 0, 0, // ino
    2, 1, 0, 0, 0, 0, 0, 0, // off
    3, 0, 0, 0, // namelen
    8, 0, 0, 0, // type DT_REG
    b'a', b'b', b'c', 0, 0, 0, 0, 0, // the name, up to a multiple of eight
];

#[test]
fn a_listing_by_hand(rt: HostRuntime) {
    let mut listing = Vec::new(rt.alloc());
    expect_eq(
        &rt,
        DIRENT.append(&mut listing, 31).expect(&rt, "room"),
        false,
    );
    expect_eq(&rt, listing.len(), 0);
    expect_eq(
        &rt,
        DIRENT.append(&mut listing, 32).expect(&rt, "room"),
        true,
    );
    expect_bytes(&rt, &listing, &DIRENT_BYTES);
    expect_eq(
        &rt,
        DIRENT.append(&mut listing, 63).expect(&rt, "room"),
        false,
    );
    expect_bytes(&rt, &listing, &DIRENT_BYTES);
}

#[test]
fn a_listing_with_attributes_by_hand(rt: HostRuntime) {
    let mut wanted = Vec::new(rt.alloc());
    for part in [&ENTRY_BYTES[..], &ATTR_BYTES[..], &DIRENT_BYTES[..]] {
        wanted.extend_from_slice(part).expect(&rt, "room");
    }
    let entry = DirEntryPlus {
        entry: Some(ENTRY),
        dirent: DIRENT,
    };
    let mut listing = Vec::new(rt.alloc());
    expect_eq(
        &rt,
        entry.append(&mut listing, 159).expect(&rt, "room"),
        false,
    );
    expect_eq(
        &rt,
        entry.append(&mut listing, 160).expect(&rt, "room"),
        true,
    );
    expect_bytes(&rt, &listing, &wanted);
}

#[test]
fn an_entry_that_is_no_look_up_by_hand(rt: HostRuntime) {
    let mut wanted = Vec::new(rt.alloc());
    for part in [&[0; 128][..], &DIRENT_BYTES[..]] {
        wanted.extend_from_slice(part).expect(&rt, "room");
    }
    let entry = DirEntryPlus {
        entry: None,
        dirent: DIRENT,
    };
    let mut listing = Vec::new(rt.alloc());
    expect_eq(
        &rt,
        entry.append(&mut listing, 4096).expect(&rt, "room"),
        true,
    );
    expect_bytes(&rt, &listing, &wanted);
}
