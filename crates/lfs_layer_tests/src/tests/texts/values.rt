//! Modes, flags, levels, credentials, payloads and lists.

use super::calls::{bytes_of, names_of};
use crate::tests::expect_eq;
use lfs_types::attrs::Kind;
use lfs_types::cred::{BadCred, Cred};
use lfs_types::fault::FormatFault;
use lfs_types::file_flags::{FileFlags, FlagBits};
use lfs_types::level::Level;
use lfs_types::mode::{Mode, ModeBits};
use lfs_types::payload::{BadSize, Bytes, Names, Payload};
use std::alloc::{AllocError, Global};
use std::process::Abort;

/// The mode of these bits.
fn mode_of(rt: &impl Abort, bits: u16) -> Mode {
    Mode::new(bits).expect(rt, "a mode")
}

#[test]
fn modes_are_at_most_07777(rt: HostRuntime) {
    for bits in [0, 0o644, 0o1777, 0o7777] {
        expect_eq(&rt, mode_of(&rt, bits).bits(), bits);
    }
    for bits in [0o10000, 0o10644, 0xffff] {
        expect_eq(&rt, Mode::new(bits), None);
    }
    let mode = mode_of(&rt, 0o4750);
    let (read, write) = (ModeBits::S_IRUSR, ModeBits::S_IWGRP);
    expect_eq(
        &rt,
        [mode.contains(read), mode.contains(write)],
        [true, false],
    );
    expect_eq(&rt, mode.without(ModeBits::S_ISUID).bits(), 0o750);
}

/// The flags of these bits.
fn flags_of(rt: &impl Abort, bits: u32) -> FileFlags {
    FileFlags::new(bits).expect(rt, "flags")
}

#[test]
fn flags_are_the_known_ones_alone(rt: HostRuntime) {
    for bits in [0, 0x1, 0x2, 0x4, 0x1_0000, 0x2_0000, 0x4_0000, 0x7_0007] {
        expect_eq(&rt, flags_of(&rt, bits).bits(), bits);
    }
    for bits in [0x8, 0xf, 0x8000, 0x8_0000, 0x7_000f, 0xffff_ffff] {
        expect_eq(&rt, FileFlags::new(bits), None);
    }
    let flags = flags_of(&rt, 0x2_0001);
    expect_eq(
        &rt,
        [
            flags.contains(FlagBits::UF_NODUMP),
            flags.contains(FlagBits::SF_IMMUTABLE),
            flags.contains(FlagBits::SF_APPEND),
            flags.intersects(FlagBits(0x6_0000)),
            FileFlags::none().intersects(FlagBits(0x7_0007)),
        ],
        [true, true, false, true, false],
    );
}

#[test]
fn levels_go_from_minus_one_to_two(rt: HostRuntime) {
    for (number, level) in [
        (-128, None),
        (-2, None),
        (-1, Some(Level::PermanentlyInsecure)),
        (0, Some(Level::Insecure)),
        (1, Some(Level::Secure)),
        (2, Some(Level::HighlySecure)),
        (3, None),
    ] {
        expect_eq(&rt, &Level::new(number), &level);
    }
    let lowest = Level::PermanentlyInsecure < Level::Insecure;
    expect_eq(
        &rt,
        [lowest, Level::Secure < Level::HighlySecure],
        [true, true],
    );
}

/// The fault of a credential, where it has one.
fn fault_of(uid: u32, groups: &[u32], init: bool) -> Option<BadCred> {
    Cred::new(uid, groups, init).err()
}

/// Asserts what a credential tells of its user: the number, whether he is the superuser, and whether he is init.
fn expect_user(rt: &impl Abort, cred: &Cred, uid: u32, is_superuser: bool, is_init: bool) {
    expect_eq(rt, cred.uid(), uid);
    let found = [cred.is_superuser(), cred.is_init()];
    expect_eq(rt, found, [is_superuser, is_init]);
}

/// Asserts whether each of these groups is one of a credential's.
fn expect_members(rt: &impl Abort, cred: &Cred, groups: &[u32], are: bool) {
    for gid in groups {
        expect_eq(rt, cred.is_member(*gid), are);
    }
}

/// Users, groups and whether they are init, and why each is no credential.
const NO_CREDENTIALS: [(u32, &[u32], bool, BadCred); 5] = [
    (0, &[], false, BadCred::NoGroup),
    (5, &[], true, BadCred::NoGroup),
    (0, &[7; 17], false, BadCred::TooManyGroups),
    (5, &[7; 17], true, BadCred::TooManyGroups),
    (5, &[5], true, BadCred::InitNotRoot),
];

#[test]
fn credentials_have_1_to_16_groups(rt: HostRuntime) {
    for (uid, groups, init, fault) in &NO_CREDENTIALS {
        expect_eq(&rt, fault_of(*uid, groups, *init), Some(*fault));
    }
    let most = [1, 2, 3, 4, 5, 6, 7, 8, 9, 10, 11, 12, 13, 14, 15, 16];
    let cred = Cred::new(7, &most, false).expect(&rt, "a credential");
    expect_members(&rt, &cred, &most, true);
    expect_members(&rt, &cred, &[0], false);
    expect_user(&rt, &cred, 7, false, false);
    let init = Cred::new(0, &[3], true).expect(&rt, "a credential");
    expect_members(&rt, &init, &[0], false);
    expect_user(&rt, &init, 0, true, true);
}

/// Asserts that a payload has these bytes, and a copy of it too.
fn expect_payload(rt: &impl Abort, alloc: Global, payload: &Payload, bytes: &[u8]) {
    let copy = payload.try_clone(alloc).expect(rt, "memory");
    expect_eq(rt, &copy, payload);
    expect_eq(rt, copy.as_slice(), bytes);
}

/// So many bytes.
fn filled(rt: &impl Abort, alloc: Global, byte: u8, count: usize) -> Vec<u8> {
    vec![in alloc; byte; count].expect(rt, "memory")
}

#[test]
fn payloads_have_at_most_4096_bytes(rt: HostRuntime) {
    match Payload::new(filled(&rt, rt.alloc(), b'x', 4096)) {
        Ok(payload) => {
            expect_payload(&rt, rt.alloc(), &payload, &[b'x'; 4096]);
            expect_eq(&rt, payload.into_vec().len(), 4096);
        }
        Err(_) => panic!(rt; "4,096 bytes are taken"),
    }
    match Payload::new(filled(&rt, rt.alloc(), b'y', 4097)) {
        Ok(_) => panic!(rt; "4,097 bytes are refused"),
        Err(BadSize(back)) => expect_eq(&rt, back.as_slice(), [b'y'; 4097].as_slice()),
    }
}

/// Asserts that a copy of these bytes is equal to them and to no others.
fn expect_copy(rt: &impl Abort, bytes: &Bytes, others: &Bytes) {
    let copy = bytes.try_clone().expect(rt, "memory");
    expect_eq(rt, [copy == *bytes, copy == *others], [true, false]);
}

#[test]
fn copied_bytes_are_equal(rt: HostRuntime) {
    let bytes = bytes_of(&rt, rt.alloc(), b"abc");
    expect_copy(&rt, &bytes, &bytes_of(&rt, rt.alloc(), b"ab"));
    expect_eq(&rt, bytes.as_slice(), b"abc".as_slice());
}

/// Asserts that a copy of these names is equal to them and to no others.
fn expect_copied_names(rt: &impl Abort, names: &Names, others: &Names) {
    let copy = names.try_clone().expect(rt, "memory");
    expect_eq(rt, [copy == *names, copy == *others], [true, false]);
}

#[test]
fn copied_lists_are_equal(rt: HostRuntime) {
    let names = names_of(&rt, rt.alloc(), "/b/c");
    let others = names_of(&rt, rt.alloc(), "/b");
    expect_copied_names(&rt, &names, &others);
    expect_eq(&rt, names.as_slice().len(), 2);
}

/// Asserts as what a fault is printed.
fn expect_printed(rt: &impl Abort, alloc: Global, fault: FormatFault, text: &str) {
    let printed = format!(in alloc; "{fault}").expect(rt, "memory");
    expect_eq(rt, printed.as_str(), text);
}

#[test]
fn want_of_memory_is_a_fault_of_a_format(rt: HostRuntime) {
    expect_eq(&rt, FormatFault::from(AllocError), FormatFault::Memory);
    expect_printed(&rt, rt.alloc(), FormatFault::TooFew, "TooFew");
    expect_printed(&rt, rt.alloc(), FormatFault::TooMany, "TooMany");
    expect_printed(&rt, rt.alloc(), FormatFault::Memory, "Memory");
    let directory = Kind::Directory.is_directory();
    expect_eq(&rt, [directory, Kind::File.is_directory()], [true, false]);
}
