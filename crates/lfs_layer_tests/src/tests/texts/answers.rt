//! The texts of answers and of the report.

use crate::tests::expect_eq;
use lfs_model::counts::Counts;
use lfs_model::journal::{CleanerAnswer, CleanerKind};
use lfs_print::print::{print_answer, print_cleaner};
use lfs_print::report::report_counts;
use lfs_types::answer::{Answer, Resource, Served};
use lfs_types::attrs::{Attrs, Kind};
use lfs_types::cleaner::{BlockInfo, CleanFault, InfoList};
use lfs_types::file_flags::FileFlags;
use lfs_types::mode::Mode;
use lfs_types::name::Name;
use lfs_types::payload::{Bytes, Names};
use lfs_types::rule::{Denial, Rule};
use std::alloc::Global;
use std::process::Abort;

/// Asserts that an answer to a session has this line.
fn expect_answer(rt: &impl Abort, alloc: Global, session: u8, answer: &Answer, line: &str) {
    let printed = print_answer(alloc, session, answer).expect(rt, "memory");
    expect_eq(rt, printed.as_slice(), line.as_bytes());
}

/// Asserts that an answer to session 0 has this line.
fn expect_line(rt: &impl Abort, alloc: Global, answer: &Answer, line: &str) {
    expect_answer(rt, alloc, 0, answer, line);
}

/// Asserts the same of what was served.
fn expect_served(rt: &impl Abort, alloc: Global, served: Served, line: &str) {
    expect_line(rt, alloc, &Answer::Served(served), line);
}

/// Attributes of this kind, user, group, mode, flags and size.
fn attrs(
    rt: &impl Abort,
    kind: Kind,
    (uid, gid): (u32, u32),
    (mode, flags): (u16, u32),
    size: u64,
) -> Attrs {
    Attrs {
        kind,
        uid,
        gid,
        mode: Mode::new(mode).expect(rt, "a mode"),
        flags: FileFlags::new(flags).expect(rt, "flags"),
        size,
    }
}

#[test]
fn attributes(rt: HostRuntime) {
    let file = attrs(&rt, Kind::File, (7, 8), (0o6644, 0x60000), 71_680);
    let line = "0 stat 4 file 7 8 6644 00060000 71680\n";
    expect_served(&rt, rt.alloc(), Served::Stat(4, file), line);
    let root = attrs(&rt, Kind::Directory, (0, 4_294_967_295), (0o7, 0), 0);
    let line = "0 stat 2 dir 0 4294967295 0007 00000000 0\n";
    expect_served(&rt, rt.alloc(), Served::Stat(2, root), line);
}

/// Asserts the line of a Read that serves these bytes.
fn expect_bytes(rt: &impl Abort, alloc: Global, bytes: &[u8], line: &str) {
    let bytes = Vec::from_slice(alloc, bytes).expect(rt, "memory");
    let bytes = Bytes::new(bytes).expect(rt, "memory");
    expect_served(rt, alloc, Served::Bytes(bytes), line);
}

#[test]
fn answers(rt: HostRuntime) {
    expect_bytes(&rt, rt.alloc(), &[0, 10, 255], "0 bytes 000aff\n");
    expect_bytes(&rt, rt.alloc(), &[], "0 bytes -\n");
    expect_served(&rt, rt.alloc(), Served::Done, "0 ok\n");
    let denial = Answer::Denied(Denial {
        rule: Rule::IsNotBeneathItself,
        path: 1,
        at: 12,
    });
    expect_line(&rt, rt.alloc(), &denial, "0 denied K4 EINVAL 1 12\n");
    let done = Answer::Served(Served::Done);
    expect_answer(&rt, rt.alloc(), 8, &done, "8 ok\n");
}

#[test]
fn refusals(rt: HostRuntime) {
    for (resource, line) in [
        (Resource::NoMemory, "0 refused NoMemory\n"),
        (Resource::NoSpace, "0 refused NoSpace\n"),
        (Resource::NoInodes, "0 refused NoInodes\n"),
        (Resource::DirectoryFull, "0 refused DirectoryFull\n"),
        (Resource::JournalFull, "0 refused JournalFull\n"),
    ] {
        expect_line(&rt, rt.alloc(), &Answer::Refused(resource), line);
    }
}

/// Names, and the line of a List that serves them.
const NAMES: [(&[&[u8]], &str); 4] = [
    (&[], "0 names\n"),
    (&[b"a"], "0 names a\n"),
    (&[b"!", b"..a", b"~"], "0 names ! ..a ~\n"),
    (
        &[b"\x01 b", b"100%", b"\x7f\x80\xff"],
        "0 names %01%20b 100%25 %7f%80%ff\n",
    ),
];

/// The list of these names.
fn listed(rt: &impl Abort, alloc: Global, names: &[&[u8]]) -> Names {
    let mut listed = Vec::new(alloc);
    for name in names {
        let name = Name::parse(alloc, name).expect(rt, "a name");
        listed.push(name).expect(rt, "memory");
    }
    Names::new(listed).expect(rt, "memory")
}

#[test]
fn names(rt: HostRuntime) {
    for (names, line) in NAMES {
        let served = Served::Names(listed(&rt, rt.alloc(), names));
        expect_served(&rt, rt.alloc(), served, line);
    }
}

/// Asserts that an answer to a cleaner's call of session 0 has this line.
fn expect_cleaner(
    rt: &impl Abort,
    alloc: Global,
    kind: CleanerKind,
    answer: CleanerAnswer,
    line: &str,
) {
    let printed = print_cleaner(alloc, 0, kind, &answer).expect(rt, "memory");
    expect_eq(rt, printed.as_slice(), line.as_bytes());
}

#[test]
fn cleaner_lists(rt: HostRuntime) {
    let infos = InfoList::new(&[BlockInfo::default(); 2]).expect(&rt, "infos");
    let line = "0 cleaner infos ok 2\n";
    let answer = CleanerAnswer::Infos(infos);
    expect_cleaner(&rt, rt.alloc(), CleanerKind::Infos, answer, line);
    let line = "0 cleaner bmapv ok 0\n";
    let answer = CleanerAnswer::Bmapv(InfoList::empty());
    expect_cleaner(&rt, rt.alloc(), CleanerKind::Bmapv, answer, line);
}

/// So many zeros, as the bytes of an ifile.
fn zeros(rt: &impl Abort, alloc: Global, count: usize) -> Bytes {
    let bytes = vec![in alloc; 0; count].expect(rt, "memory");
    Bytes::new(bytes).expect(rt, "memory")
}

#[test]
fn cleaner_answers(rt: HostRuntime) {
    let alloc = rt.alloc();
    let answer = CleanerAnswer::Ifile(zeros(&rt, alloc, 252));
    let line = "0 cleaner ifile ok 252\n";
    expect_cleaner(&rt, alloc, CleanerKind::Ifile, answer, line);
    let line = "0 cleaner markv ok 8\n";
    let answer = CleanerAnswer::Marked(8);
    expect_cleaner(&rt, alloc, CleanerKind::Markv, answer, line);
    let line = "0 cleaner segclean ok 0\n";
    let answer = CleanerAnswer::Cleaned;
    expect_cleaner(&rt, alloc, CleanerKind::Segclean, answer, line);
    let line = "0 cleaner bmapv denied U1\n";
    let answer = CleanerAnswer::Denied(Denial {
        rule: Rule::IsSuperuser,
        path: 0,
        at: 0,
    });
    expect_cleaner(&rt, alloc, CleanerKind::Bmapv, answer, line);
}

/// Calls of the cleaner with their faults, and the lines of these.
const FAULTS: [(CleanerKind, CleanFault, &str); 5] = [
    (
        CleanerKind::Infos,
        CleanFault::NoSuchSegment,
        "0 cleaner infos fault NoSuchSegment\n",
    ),
    (
        CleanerKind::Infos,
        CleanFault::Active,
        "0 cleaner infos fault Active\n",
    ),
    (
        CleanerKind::Segclean,
        CleanFault::NotDirty,
        "0 cleaner segclean fault NotDirty\n",
    ),
    (
        CleanerKind::Segclean,
        CleanFault::Live(32_768),
        "0 cleaner segclean fault Live 32768\n",
    ),
    (
        CleanerKind::Markv,
        CleanFault::NoSpace,
        "0 cleaner markv fault NoSpace\n",
    ),
];

#[test]
fn cleaner_faults(rt: HostRuntime) {
    for (kind, fault, line) in FAULTS {
        let answer = CleanerAnswer::Fault(fault);
        expect_cleaner(&rt, rt.alloc(), kind, answer, line);
    }
}

#[test]
fn cleaner_refusals(rt: HostRuntime) {
    for (resource, line) in [
        (Resource::NoMemory, "0 cleaner ifile refused NoMemory\n"),
        (
            Resource::JournalFull,
            "0 cleaner ifile refused JournalFull\n",
        ),
    ] {
        let answer = CleanerAnswer::Refused(resource);
        expect_cleaner(&rt, rt.alloc(), CleanerKind::Ifile, answer, line);
    }
}

/// The counts of no call.
const NONE: Counts = Counts {
    served: 0,
    denied: 0,
    refused: 0,
    cleaner: 0,
    rules: [0; 20],
};

/// Two calls were served, one was denied by the last rule of the report, one was refused, and of three of the cleaner one was
/// denied.
const SOME: Counts = Counts {
    served: 2,
    denied: 1,
    refused: 1,
    cleaner: 3,
    rules: [0, 0, 0, 0, 0, 0, 0, 0, 0, 0, 0, 0, 0, 0, 0, 1, 0, 0, 0, 1],
};

/// Asserts the lines of the report of counts.
fn expect_report(rt: &impl Abort, alloc: Global, counts: &Counts, wanted: &str) {
    let lines = report_counts(alloc, counts).expect(rt, "memory");
    expect_eq(rt, lines.as_slice(), wanted.as_bytes());
}

#[test]
fn reports(rt: HostRuntime) {
    let empty = "entries 0\nserved 0\ndenied 0\nrefused 0\ncleaner 0\n";
    expect_report(&rt, rt.alloc(), &NONE, empty);
    let text = "entries 7\nserved 2\ndenied 1\nrefused 1\ncleaner 3\nrule U1 1\nrule Z1 1\n";
    expect_report(&rt, rt.alloc(), &SOME, text);
}
