//! Worked cases, as direct calls.

use super::expect_eq;
use lfs_rules::access::{clear_set_id, grants, sticky_bars};
use lfs_rules::flags::{append_only, flag_change, immutable};
use lfs_rules::level::level_change;
use lfs_rules::owner::{is_owner, owner_change};
use lfs_types::attrs::{Attrs, Bit, Kind};
use lfs_types::cred::Cred;
use lfs_types::file_flags::FileFlags;
use lfs_types::level::Level;
use lfs_types::mode::Mode;
use lfs_types::rule::Rule;
use std::process::Abort;

/// A mode.
fn mode(rt: &impl Abort, bits: u16) -> Mode {
    Mode::new(bits).expect(rt, "a mode")
}

/// A file's flags.
fn flags(rt: &impl Abort, bits: u32) -> FileFlags {
    FileFlags::new(bits).expect(rt, "flags")
}

/// A user of these groups.
fn user(rt: &impl Abort, uid: u32, groups: &[u32], init: bool) -> Cred {
    Cred::new(uid, groups, init).expect(rt, "a credential")
}

/// A file of this owner, group, mode and flags.
fn file(rt: &impl Abort, uid: u32, gid: u32, bits: u16, flag_bits: u32) -> Attrs {
    Attrs {
        kind: Kind::File,
        uid,
        gid,
        mode: mode(rt, bits),
        flags: flags(rt, flag_bits),
        size: 0,
    }
}

/// Asserts of each row whether a user of these groups is granted a bit of the file of a user and his group, with this mode:
/// owner, mode, user, groups, bit, granted.
fn expect_grants(rt: &impl Abort, rows: &[(u32, u16, u32, &[u32], Bit, bool)]) {
    for (owner, mode, uid, groups, bit, want) in rows {
        let attrs = file(rt, *owner, *owner, *mode, 0);
        let cred = user(rt, *uid, groups, false);
        expect_eq(rt, grants(&attrs, &cred, *bit), *want);
    }
}

#[test]
fn owner_is_judged_by_owner_bits_alone(rt: HostRuntime) {
    expect_grants(
        &rt,
        &[
            (7, 0o077, 7, &[7], Bit::Read, false),
            (7, 0o077, 8, &[9], Bit::Read, true),
            (7, 0o077, 0, &[0], Bit::Read, true),
            (7, 0o704, 7, &[9], Bit::Write, true),
            (7, 0o704, 8, &[9, 7], Bit::Read, false),
        ],
    );
}

#[test]
fn three_classes_have_bits_of_their_own(rt: HostRuntime) {
    expect_grants(
        &rt,
        &[
            (7, 0o451, 7, &[7], Bit::Read, true),
            (7, 0o451, 7, &[7], Bit::Write, false),
            (7, 0o451, 7, &[7], Bit::Search, false),
            (7, 0o451, 8, &[7], Bit::Read, true),
            (7, 0o451, 8, &[7], Bit::Write, false),
            (7, 0o451, 8, &[7], Bit::Search, true),
            (7, 0o451, 8, &[8], Bit::Read, false),
            (7, 0o451, 8, &[8], Bit::Write, false),
            (7, 0o451, 8, &[8], Bit::Search, true),
        ],
    );
}

#[test]
fn owner_writes_and_stranger_only_reads(rt: HostRuntime) {
    expect_grants(
        &rt,
        &[
            (0, 0o644, 5, &[5], Bit::Read, true),
            (0, 0o644, 5, &[5], Bit::Write, false),
            (7, 0o700, 8, &[8], Bit::Search, false),
        ],
    );
}

/// Whether the sticky bit of a directory of user and group 9 keeps a user from removing user 7's file.
fn barred(rt: &impl Abort, mode: u16, uid: u32) -> bool {
    let dir = file(rt, 9, 9, mode, 0);
    sticky_bars(
        &dir,
        &file(rt, 7, 9, 0o644, 0),
        &user(rt, uid, &[uid], false),
    )
}

#[test]
fn sticky_directory_guards_removal(rt: HostRuntime) {
    for (mode, uid, want) in [
        (0o1777, 8, true),
        (0o1777, 7, false),
        (0o1777, 9, false),
        (0o1777, 0, false),
        (0o777, 8, false),
    ] {
        expect_eq(&rt, barred(&rt, mode, uid), want);
    }
}

#[test]
fn flags_lock_a_file(rt: HostRuntime) {
    for (flags, locked, grows) in [
        (0, false, false),
        (0x1, false, false),
        (0x2, true, false),
        (0x4, false, true),
        (0x1_0000, false, false),
        (0x2_0000, true, false),
        (0x4_0000, false, true),
        (0x6_0000, true, true),
    ] {
        let attrs = file(&rt, 0, 0, 0o666, flags);
        expect_eq(
            &rt,
            [immutable(&attrs), append_only(&attrs)],
            [locked, grows],
        );
    }
}

/// Asserts of each row what bars a user, who may be init, from changing the level: user, init, old level, new level, bar.
fn expect_level_bars(rt: &impl Abort, rows: &[(u32, bool, Level, Level, Option<Rule>)]) {
    for (uid, init, old, new, bar) in rows {
        let cred = user(rt, *uid, &[*uid], *init);
        expect_eq(rt, level_change(&cred, *old, *new), *bar);
    }
}

/// What bars a caller, of a user, a group, and whether he is init, from changing the flags of a file of this owner, mode
/// and flags.
fn flag_bar(
    rt: &impl Abort,
    (owner, mode, old): (u32, u16, u32),
    (uid, gid, init): (u32, u32, bool),
    level: Level,
    new: u32,
) -> Option<Rule> {
    let attrs = file(rt, owner, owner, mode, old);
    flag_change(&attrs, &user(rt, uid, &[gid], init), level, flags(rt, new))
}

#[test]
fn raised_level_is_lowered_by_init_alone(rt: HostRuntime) {
    let (insecure, secure) = (Level::Insecure, Level::Secure);
    expect_level_bars(
        &rt,
        &[
            (0, false, insecure, secure, None),
            (0, false, secure, insecure, Some(Rule::MaySetLevel)),
            (0, true, secure, insecure, None),
            (5, false, insecure, secure, Some(Rule::IsSuperuser)),
        ],
    );
}

#[test]
fn raised_level_keeps_system_flags_until_init_lowers_it(rt: HostRuntime) {
    let (secure, highest) = (Level::Secure, Level::HighlySecure);
    let kept = Some(Rule::KeepsSystemLocks);
    for (flags, init, level, new, want) in [
        (0x2_0000, false, secure, 0, kept),
        (0x2_0000, false, secure, 0x6_0000, None),
        (0x2_0000, false, highest, 0, kept),
        (0x2_0000, false, highest, 0x6_0000, None),
        (0x6_0000, true, Level::Insecure, 0, None),
    ] {
        let bar = flag_bar(&rt, (0, 0o644, flags), (0, 0, init), level, new);
        expect_eq(&rt, bar, want);
    }
}

#[test]
fn another_bit_does_not_clear_append(rt: HostRuntime) {
    let (file, root) = ((0, 0o644, 0x4_0000), (0, 0, false));
    let bar = flag_bar(&rt, file, root, Level::Secure, 0x2_0000);
    expect_eq(&rt, bar, Some(Rule::KeepsSystemLocks));
}

#[test]
fn owner_may_change_user_flags_unless_locked(rt: HostRuntime) {
    for (flags, uid, gid, new, want) in [
        (0x1_0000, 7, 7, 0x1_0001, None),
        (0x1_0000, 7, 7, 0x1, Some(Rule::MaySetFlags)),
        (0x1_0000, 0, 0, 0x5_0000, None),
        (0x5_0000, 7, 7, 0x5_0000, Some(Rule::MaySetFlags)),
        (0x5_0000, 8, 7, 0, Some(Rule::IsOwner)),
    ] {
        let (file, caller) = ((7, 0o644, flags), (uid, gid, false));
        let bar = flag_bar(&rt, file, caller, Level::Insecure, new);
        expect_eq(&rt, bar, want);
    }
}

#[test]
fn level_minus_one_behaves_as_zero(rt: HostRuntime) {
    let (insecure, lowest) = (Level::Insecure, Level::PermanentlyInsecure);
    expect_level_bars(
        &rt,
        &[
            (0, true, insecure, lowest, None),
            (0, false, lowest, insecure, None),
            (0, false, insecure, lowest, Some(Rule::MaySetLevel)),
        ],
    );
    let bar = flag_bar(&rt, (0, 0o600, 0x4_0000), (0, 0, true), lowest, 0);
    expect_eq(&rt, bar, None);
}

#[test]
fn set_id_bits_are_cleared_alone(rt: HostRuntime) {
    for (bits, want) in [
        (0o6644, 0o644),
        (0o6755, 0o755),
        (0o7777, 0o1777),
        (0o2000, 0),
    ] {
        expect_eq(&rt, clear_set_id(mode(&rt, bits)).bits(), want);
    }
}

/// Asserts of each row what bars a user of these groups from giving user 7's file of this group and mode to a user and a
/// group: group, mode, user, groups, new owner, new group, bar.
fn expect_owner_bars(rt: &impl Abort, rows: &[(u32, u16, u32, &[u32], u32, u32, Option<Rule>)]) {
    for (group, mode, uid, groups, owner, new_group, bar) in rows {
        let attrs = file(rt, 7, *group, *mode, 0);
        let cred = user(rt, *uid, groups, false);
        expect_eq(rt, owner_change(&attrs, &cred, *owner, *new_group), *bar);
    }
}

#[test]
fn owner_may_give_the_group_to_one_of_his_groups(rt: HostRuntime) {
    let barred = Some(Rule::MaySetOwner);
    expect_owner_bars(
        &rt,
        &[
            (7, 0o6755, 7, &[7, 8], 7, 8, None),
            (8, 0o755, 7, &[7, 8], 8, 8, barred),
            (8, 0o755, 7, &[7, 8], 7, 9, barred),
            (9, 0o755, 7, &[7, 8], 7, 9, None),
            (8, 0o755, 8, &[8], 7, 8, barred),
            (8, 0o755, 0, &[0], 12, 34, None),
        ],
    );
}

/// Whether a user passes as the owner of user 7's file.
fn owns(rt: &impl Abort, uid: u32) -> bool {
    is_owner(&file(rt, 7, 7, 0o644, 0), &user(rt, uid, &[7], false))
}

#[test]
fn the_superuser_passes_as_owner(rt: HostRuntime) {
    expect_eq(&rt, owns(&rt, 7), true);
    expect_eq(&rt, owns(&rt, 0), true);
    expect_eq(&rt, owns(&rt, 8), false);
}
