//! The table of rules.

use crate::tests::expect_eq;
use lfs_types::rule::{Errno, Rule};
use std::alloc::Global;
use std::process::Abort;

/// The rules, each with its code and its error.
const RULES: [(Rule, &[u8], Errno); 20] = [
    (Rule::IsDirectory, b"N1", Errno::ENOTDIR),
    (Rule::GrantsSearch, b"S1", Errno::EACCES),
    (Rule::NameThere, b"N2", Errno::ENOENT),
    (Rule::NameFree, b"N3", Errno::EEXIST),
    (Rule::IsNoDirectory, b"K1", Errno::EISDIR),
    (Rule::IsEmpty, b"K2", Errno::ENOTEMPTY),
    (Rule::IsNotRoot, b"K3", Errno::EBUSY),
    (Rule::IsNotBeneathItself, b"K4", Errno::EINVAL),
    (Rule::IsMutable, b"F1", Errno::EPERM),
    (Rule::IsNotAppendOnly, b"F2", Errno::EPERM),
    (Rule::GrantsRead, b"M1", Errno::EACCES),
    (Rule::GrantsWrite, b"M2", Errno::EACCES),
    (Rule::PassesSticky, b"Y1", Errno::EPERM),
    (Rule::IsOwner, b"O1", Errno::EPERM),
    (Rule::MaySetOwner, b"O2", Errno::EPERM),
    (Rule::IsSuperuser, b"U1", Errno::EPERM),
    (Rule::MaySetFlags, b"L1", Errno::EPERM),
    (Rule::KeepsSystemLocks, b"L2", Errno::EPERM),
    (Rule::MaySetLevel, b"L3", Errno::EPERM),
    (Rule::FitsFile, b"Z1", Errno::EFBIG),
];

#[test]
fn rules_have_their_code_and_error(rt: HostRuntime) {
    for (rule, code, error) in &RULES {
        expect_eq(&rt, rule.code().as_bytes(), *code);
        expect_eq(&rt, &rule.error(), error);
    }
}

/// The errors, each with its name.
const ERRORS: [(Errno, &[u8]); 10] = [
    (Errno::EPERM, b"EPERM"),
    (Errno::ENOENT, b"ENOENT"),
    (Errno::EACCES, b"EACCES"),
    (Errno::EBUSY, b"EBUSY"),
    (Errno::EEXIST, b"EEXIST"),
    (Errno::ENOTDIR, b"ENOTDIR"),
    (Errno::EISDIR, b"EISDIR"),
    (Errno::EINVAL, b"EINVAL"),
    (Errno::EFBIG, b"EFBIG"),
    (Errno::ENOTEMPTY, b"ENOTEMPTY"),
];

/// Asserts that an error has this name, and prints it.
fn expect_name(rt: &impl Abort, alloc: Global, error: &Errno, name: &[u8]) {
    let printed = format!(in alloc; "{error}").expect(rt, "memory");
    expect_eq(rt, error.name().as_bytes(), name);
    expect_eq(rt, printed.as_bytes(), name);
}

#[test]
fn errors_print_their_name(rt: HostRuntime) {
    for (error, name) in &ERRORS {
        expect_name(&rt, rt.alloc(), error, name);
    }
}
