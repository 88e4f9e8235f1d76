//! One message of each kind that a mount is sent, by hand from fuse.h. The length of each is 40 and its body's.

use super::{expect_eq, expect_message, message_of};
use lfs_fuse_wire::attributes::{Access, GetAttr, NewTime, SetAttr, Time};
use lfs_fuse_wire::flags::{AccessMode, OpenFlags};
use lfs_fuse_wire::forgetting::{Forget, NodeForget};
use lfs_fuse_wire::handles::{Flush, Fsync, Open, Read, Release, Write};
use lfs_fuse_wire::header::Header;
use lfs_fuse_wire::init::{Init, InitFlags};
use lfs_fuse_wire::ioctl::{Command, Ioctl};
use lfs_fuse_wire::kind::FileKind;
use lfs_fuse_wire::message::{Message, MessageFault};
use lfs_fuse_wire::naming::{Create, Mkdir, Mknod, Rename, RenameMode};
use lfs_fuse_wire::opcode::Unserved;

/// Flags with nothing but an access mode.
fn plain(access: AccessMode) -> OpenFlags {
    OpenFlags {
        access,
        append: false,
        truncate: false,
        exclusive: false,
        exec: false,
    }
}

#[test]
fn a_header_by_hand(rt: HostRuntime) {
    let bytes = message_of(rt.alloc(), 40, 17, b"").expect(&rt, "room");
    let header = Header::decode(&bytes).expect(&rt, "header");
    expect_eq(&rt, (header.length, header.opcode), (40, 17));
    expect_eq(&rt, (header.unique, header.node), (7, 1));
    expect_eq(
        &rt,
        (header.uid, header.gid, header.pid),
        (1000, 100, 12345),
    );
}

#[test]
fn names_by_hand(rt: HostRuntime) {
    let alloc = rt.alloc();
    expect_message(
        &rt,
        alloc,
        [46, 1],
        b"hello\0",
        Ok(Message::Lookup(b"hello")),
    );
    expect_message(&rt, alloc, [44, 1], b"a/b\0", Ok(Message::Lookup(b"a/b")));
    expect_message(&rt, alloc, [42, 10], b"f\0", Ok(Message::Unlink(b"f")));
    expect_message(&rt, alloc, [42, 11], b"d\0", Ok(Message::Rmdir(b"d")));
}

#[test]
fn names_that_are_made_by_hand(rt: HostRuntime) {
    let alloc = rt.alloc();
    let mkdir = Mkdir {
        permissions: 0o755,
        umask: 0o22,
    };
    // mode 0755, umask 022, the name
    let body = [0xed, 1, 0, 0, 0x12, 0, 0, 0, b'd', 0];
    expect_message(&rt, alloc, [50, 9], &body, Ok(Message::Mkdir(mkdir, b"d")));
    let mknod = Mknod {
        kind: Some(FileKind::Regular),
        permissions: 0o644,
        umask: 0o22,
    };
    // mode 0100644, rdev, umask 022, padding, the name
    let body = [
        0xa4, 0x81, 0, 0, 0, 0, 0, 0, 0x12, 0, 0, 0, 0, 0, 0, 0, b'f', 0,
    ];
    expect_message(&rt, alloc, [58, 8], &body, Ok(Message::Mknod(mknod, b"f")));
}

#[test]
fn a_creation_by_hand(rt: HostRuntime) {
    let create = Create {
        flags: OpenFlags {
            access: AccessMode::WriteOnly,
            append: true,
            truncate: true,
            exclusive: true,
            exec: false,
        },
        permissions: 0o4600,
        umask: 0o77,
        kill_set_id: true,
    };
    // flags O_WRONLY 1, O_CREAT 0x40, O_EXCL 0x80, O_TRUNC 0x200, O_APPEND 0x400; mode 0104600; umask 077; open_flags 1
    let body = [
        0xc1, 6, 0, 0, 0x80, 0x89, 0, 0, 0x3f, 0, 0, 0, 1, 0, 0, 0, b'n', 0,
    ];
    expect_message(
        &rt,
        rt.alloc(),
        [58, 35],
        &body,
        Ok(Message::Create(create, b"n")),
    );
}

#[test]
fn renames_by_hand(rt: HostRuntime) {
    let alloc = rt.alloc();
    // newdir 258, then both names
    let body = [2, 1, 0, 0, 0, 0, 0, 0, b'a', 0, b'b', b'c', 0];
    let rename = Rename {
        directory: 258,
        mode: RenameMode::Replace,
    };
    expect_message(
        &rt,
        alloc,
        [53, 12],
        &body,
        Ok(Message::Rename(rename, b"a", b"bc")),
    );
    // newdir 258, flags, padding, then both names
    let body = [
        2, 1, 0, 0, 0, 0, 0, 0, 1, 0, 0, 0, 0, 0, 0, 0, b'a', 0, b'b', 0,
    ];
    let rename = Rename {
        directory: 258,
        mode: RenameMode::NoReplace,
    };
    expect_message(
        &rt,
        alloc,
        [60, 45],
        &body,
        Ok(Message::Rename(rename, b"a", b"b")),
    );
    // the second name has no end
    let body = [2, 1, 0, 0, 0, 0, 0, 0, b'a', 0, b'b'];
    expect_message(&rt, alloc, [51, 12], &body, Err(MessageFault::Short));
}

#[test]
fn attributes_by_hand(rt: HostRuntime) {
    let alloc = rt.alloc();
    // getattr_flags 1, dummy, fh 5
    let body = [1, 0, 0, 0, 0, 0, 0, 0, 5, 0, 0, 0, 0, 0, 0, 0];
    let getattr = GetAttr { handle: Some(5) };
    expect_message(&rt, alloc, [56, 3], &body, Ok(Message::GetAttr(getattr)));
    let getattr = GetAttr { handle: None };
    expect_message(&rt, alloc, [56, 3], &[0; 16], Ok(Message::GetAttr(getattr)));
    // mask W_OK and X_OK, padding
    let access = Access {
        read: false,
        write: true,
        execute: true,
    };
    expect_message(
        &rt,
        alloc,
        [48, 34],
        &[3, 0, 0, 0, 0, 0, 0, 0],
        Ok(Message::Access(access)),
    );
}

#[test]
fn a_change_of_attributes_by_hand(rt: HostRuntime) {
    let body = [
        0xfb, 0x0c, 0, 0, // valid: all but the group, the handle too; atime is now, mtime is not
        0, 0, 0, 0, // padding
        9, 0, 0, 0, 0, 0, 0, 0, // fh
        0, 0x10, 0, 0, 0, 0, 0, 0, // size 4096
        0, 0, 0, 0, 0, 0, 0, 0, // lock_owner
        1, 0, 0, 0, 0, 0, 0, 0, // atime
        2, 0, 0, 0, 0, 0, 0, 0, // mtime
        3, 0, 0, 0, 0, 0, 0, 0, // ctime
        4, 0, 0, 0, // atimensec
        5, 0, 0, 0, // mtimensec
        6, 0, 0, 0, // ctimensec
        0xa4, 0x81, 0, 0, // mode 0100644
        0, 0, 0, 0, // unused4
        0xe8, 3, 0, 0, // uid 1000
        100, 0, 0, 0, // gid
        0, 0, 0, 0, // unused5
    ];
    let setattr = SetAttr {
        handle: Some(9),
        size: Some(4096),
        permissions: Some(0o644),
        uid: Some(1000),
        gid: None,
        accessed: Some(NewTime::Now),
        modified: Some(NewTime::At(Time {
            seconds: 2,
            nanoseconds: 5,
        })),
        changed: Some(Time {
            seconds: 3,
            nanoseconds: 6,
        }),
        kill_set_id: true,
    };
    expect_message(
        &rt,
        rt.alloc(),
        [128, 4],
        &body,
        Ok(Message::SetAttr(setattr)),
    );
}

#[test]
fn openings_by_hand(rt: HostRuntime) {
    let alloc = rt.alloc();
    let open = Open {
        flags: OpenFlags {
            access: AccessMode::ReadOnly,
            append: false,
            truncate: false,
            exclusive: false,
            exec: true,
        },
        kill_set_id: false,
    };
    // flags 0x8020: O_LARGEFILE and the kernel's own for execve(2); open_flags
    expect_message(
        &rt,
        alloc,
        [48, 14],
        &[0x20, 0x80, 0, 0, 0, 0, 0, 0],
        Ok(Message::Open(open)),
    );
    let open = Open {
        flags: plain(AccessMode::ReadWrite),
        kill_set_id: false,
    };
    expect_message(
        &rt,
        alloc,
        [48, 27],
        &[2, 0, 0, 0, 0, 0, 0, 0],
        Ok(Message::Opendir(open)),
    );
}

#[test]
fn reads_by_hand(rt: HostRuntime) {
    let alloc = rt.alloc();
    let body = [
        3, 0, 0, 0, 0, 0, 0, 0, // fh
        0, 0, 1, 0, 0, 0, 0, 0, // offset 65536
        0, 0x10, 0, 0, // size 4096
        0, 0, 0, 0, // read_flags
        0, 0, 0, 0, 0, 0, 0, 0, // lock_owner
        0, 0x80, 0, 0, // flags
        0, 0, 0, 0, // padding
    ];
    let read = Read {
        handle: 3,
        offset: 65536,
        size: 4096,
    };
    expect_message(&rt, alloc, [80, 15], &body, Ok(Message::Read(read)));
    expect_message(&rt, alloc, [80, 28], &body, Ok(Message::Readdir(read)));
    expect_message(&rt, alloc, [80, 44], &body, Ok(Message::Readdirplus(read)));
    expect_message(&rt, alloc, [79, 15], &body[..39], Err(MessageFault::Short));
}

#[test]
fn a_write_by_hand(rt: HostRuntime) {
    let alloc = rt.alloc();
    let body = [
        3, 0, 0, 0, 0, 0, 0, 0, // fh
        10, 0, 0, 0, 0, 0, 0, 0, // offset
        2, 0, 0, 0, // size
        5, 0, 0, 0, // write_flags: cached, set-id bits go
        0, 0, 0, 0, 0, 0, 0, 0, // lock_owner
        1, 4, 0, 0, // flags O_WRONLY, O_APPEND
        0, 0, 0, 0, // padding
        b'h', b'i', // the data
    ];
    let write = Write {
        handle: 3,
        offset: 10,
        size: 2,
        cached: true,
        kill_set_id: true,
        flags: OpenFlags {
            access: AccessMode::WriteOnly,
            append: true,
            truncate: false,
            exclusive: false,
            exec: false,
        },
    };
    expect_message(
        &rt,
        alloc,
        [82, 16],
        &body,
        Ok(Message::Write(write, b"hi")),
    );
    expect_message(&rt, alloc, [81, 16], &body[..41], Err(MessageFault::Short));
}

#[test]
fn ends_of_handles_by_hand(rt: HostRuntime) {
    let alloc = rt.alloc();
    // fh 3, flags O_RDWR, release_flags 3, lock_owner 8
    let body = [
        3, 0, 0, 0, 0, 0, 0, 0, 2, 0, 0, 0, 3, 0, 0, 0, 8, 0, 0, 0, 0, 0, 0, 0,
    ];
    let release = Release {
        handle: 3,
        flags: plain(AccessMode::ReadWrite),
        flush: true,
        unlock: true,
        lock_owner: 8,
    };
    expect_message(&rt, alloc, [64, 18], &body, Ok(Message::Release(release)));
    expect_message(
        &rt,
        alloc,
        [64, 29],
        &body,
        Ok(Message::Releasedir(release)),
    );
    let flush = Flush {
        handle: 3,
        lock_owner: 8,
    };
    expect_message(&rt, alloc, [64, 25], &body, Ok(Message::Flush(flush)));
    // fh 3, fsync_flags 1, padding
    let body = [3, 0, 0, 0, 0, 0, 0, 0, 1, 0, 0, 0, 0, 0, 0, 0];
    let fsync = Fsync {
        handle: 3,
        data_only: true,
    };
    expect_message(&rt, alloc, [56, 20], &body, Ok(Message::Fsync(fsync)));
    expect_message(&rt, alloc, [56, 30], &body, Ok(Message::Fsyncdir(fsync)));
}

#[test]
fn control_calls_by_hand(rt: HostRuntime) {
    let alloc = rt.alloc();
    // fh 3, flags, cmd FS_IOC_SETFLAGS, arg, in_size 4, out_size 0, the flags 0x30
    let body = [
        3, 0, 0, 0, 0, 0, 0, 0, 0x10, 0, 0, 0, 2, 0x66, 8, 0x40, 0, 0, 0, 0, 0, 0, 0, 0, 4, 0, 0,
        0, 0, 0, 0, 0, 0x30, 0, 0, 0,
    ];
    let ioctl = Ioctl {
        handle: 3,
        directory: true,
        command: Command::SetFlags(0x30),
        out_size: 0,
    };
    expect_message(&rt, alloc, [76, 39], &body, Ok(Message::Ioctl(ioctl)));
    // fh 3, flags, cmd FS_IOC_GETFLAGS, arg, in_size 0, out_size 4
    let body = [
        3, 0, 0, 0, 0, 0, 0, 0, 0, 0, 0, 0, 1, 0x66, 8, 0x80, 0, 0, 0, 0, 0, 0, 0, 0, 0, 0, 0, 0,
        4, 0, 0, 0,
    ];
    let ioctl = Ioctl {
        handle: 3,
        directory: false,
        command: Command::GetFlags,
        out_size: 4,
    };
    expect_message(&rt, alloc, [72, 39], &body, Ok(Message::Ioctl(ioctl)));
    // cmd FS_IOC_FSGETXATTR, out_size 28
    let body = [
        3, 0, 0, 0, 0, 0, 0, 0, 0, 0, 0, 0, 0x1f, 0x58, 0x1c, 0x80, 0, 0, 0, 0, 0, 0, 0, 0, 0, 0,
        0, 0, 28, 0, 0, 0,
    ];
    let ioctl = Ioctl {
        handle: 3,
        directory: false,
        command: Command::GetExtended,
        out_size: 28,
    };
    expect_message(&rt, alloc, [72, 39], &body, Ok(Message::Ioctl(ioctl)));
}

#[test]
fn the_talk_by_hand(rt: HostRuntime) {
    let alloc = rt.alloc();
    // version 7.42, max_readahead 131072, flags 0x40000009, flags2 0x10
    let mut body = [0; 64];
    body[0] = 7;
    body[4] = 42;
    body[10] = 2;
    body[12] = 9;
    body[15] = 0x40;
    body[16] = 0x10;
    let init = Init {
        major: 7,
        minor: 42,
        max_readahead: 131072,
        flags: InitFlags(0x10_4000_0009),
    };
    expect_message(&rt, alloc, [104, 26], &body, Ok(Message::Init(init)));
    expect_message(&rt, alloc, [40, 38], b"", Ok(Message::Destroy));
    expect_message(&rt, alloc, [40, 17], b"", Ok(Message::Statfs));
    // the second word of flags is not there without bit 30
    body[15] = 0;
    let init = Init {
        major: 7,
        minor: 42,
        max_readahead: 131072,
        flags: InitFlags(9),
    };
    expect_message(&rt, alloc, [104, 26], &body, Ok(Message::Init(init)));
}

#[test]
fn forgettings_by_hand(rt: HostRuntime) {
    let alloc = rt.alloc();
    let forget = Forget { lookups: 3 };
    expect_message(
        &rt,
        alloc,
        [48, 2],
        &[3, 0, 0, 0, 0, 0, 0, 0],
        Ok(Message::Forget(forget)),
    );
    expect_message(
        &rt,
        alloc,
        [48, 36],
        &[9, 0, 0, 0, 0, 0, 0, 0],
        Ok(Message::Interrupt(9)),
    );
    // count 2, dummy, then nodeid and nlookup of each
    let mut body = [0; 40];
    body[0] = 2;
    body[8] = 5;
    body[16] = 1;
    body[24] = 6;
    body[32] = 4;
    let bytes = message_of(alloc, 80, 42, &body).expect(&rt, "room");
    let message = Message::decode(&bytes);
    assert!(rt; matches!(message, Ok(Message::BatchForget(_))));
    let Ok(Message::BatchForget(nodes)) = message else {
        return;
    };
    expect_eq(&rt, nodes.len(), 2);
    expect_eq(
        &rt,
        nodes.get(0),
        Some(NodeForget {
            node: 5,
            lookups: 1,
        }),
    );
    expect_eq(
        &rt,
        nodes.get(1),
        Some(NodeForget {
            node: 6,
            lookups: 4,
        }),
    );
    expect_eq(&rt, nodes.get(2), None);
    expect_message(&rt, alloc, [79, 42], &body[..39], Err(MessageFault::Short));
}

#[test]
fn messages_that_are_not_served(rt: HostRuntime) {
    let alloc = rt.alloc();
    let unserved = [
        (5, Unserved::Readlink),
        (6, Unserved::Symlink),
        (13, Unserved::Link),
        (21, Unserved::Setxattr),
        (22, Unserved::Getxattr),
        (23, Unserved::Listxattr),
        (24, Unserved::Removexattr),
        (40, Unserved::Poll),
        (43, Unserved::Fallocate),
        (46, Unserved::Lseek),
        (47, Unserved::CopyFileRange),
    ];
    for (opcode, kind) in unserved {
        expect_message(&rt, alloc, [40, opcode], b"", Ok(Message::Unserved(kind)));
    }
    expect_message(&rt, alloc, [40, 7], b"", Ok(Message::Unknown(7)));
    expect_message(&rt, alloc, [40, 52], b"", Ok(Message::Unknown(52)));
}

#[test]
fn which_messages_have_a_reply(rt: HostRuntime) {
    expect_eq(
        &rt,
        Message::Forget(Forget { lookups: 1 }).has_reply(),
        false,
    );
    expect_eq(&rt, Message::Interrupt(1).has_reply(), false);
    expect_eq(
        &rt,
        Message::Unserved(Unserved::NotifyReply).has_reply(),
        false,
    );
    expect_eq(&rt, Message::Unserved(Unserved::Getxattr).has_reply(), true);
    expect_eq(&rt, Message::Statfs.has_reply(), true);
    expect_eq(&rt, Message::Unknown(52).has_reply(), true);
}
