//! Lines by hand: each is read and told again, and each fault has its place.

use super::expect_eq;
use lfs_journal_lines::fault::{Field, LineFault};
use lfs_journal_lines::law::reads_back;
use lfs_journal_lines::numbering::{finds_line, unnumbered};
use lfs_journal_lines::reading::read_entry;
use lfs_journal_lines::telling::push_entries;
use lfs_model::asking::CleanerAct;
use lfs_model::journal::{CleanerOutcome, Entry, Event};
use lfs_types::answer::{Answer, Resource, Served};
use lfs_types::cleaner::{BlockInfo, CleanFault, CleanerCall, MarkList};
use lfs_types::cred::Cred;
use lfs_types::name::BadName;
use lfs_types::path::{BadPath, Path};
use lfs_types::request::Request;
use lfs_words::fault::FaultKind;
use lfs_words::line::cut_line;
use std::alloc::Global;
use std::process::Abort;

/// A line of each call, each answer and each outcome, as the journal tells them.
const LINES: &[u8] = b"\
0 as 0 0 | stat / | stat 2 dir 0 0 0755 00000000 0
1 as 7 7,20,4294967295 | stat /a | stat 4294967295 file 7 20 4644 00070007 18446744073709551615
1 as 7 7 | read /a/b 18446744073709551615 4294967295 | bytes 00ff41
1 as 7 7 | read /a 0 1 | bytes -
2 as 0 0 init | write /a at 0 6162ff00 | ok
2 as 0 0 init | write /| end - | refused NoSpace
8 as 5 5 | list /~!/%20 | names | a%20b %25 %01%ff
8 as 5 5 | list / | names
0 as 0 0 | length /a 4294967296 | denied Z1 EFBIG 0 1
0 as 0 0 | create /a 0644 | refused NoInodes
0 as 0 0 | mkdir /a 1777 | refused DirectoryFull
0 as 0 0 | unlink %/a%20b/c%25%7f | denied F1 EPERM 0 2
0 as 0 0 | rmdir %/%c3%a4 | denied K2 ENOTEMPTY 0 1
0 as 0 0 | rmdir %/%ff%c3/a | denied N2 ENOENT 0 1
0 as 0 0 | rename %/a%20b /c | denied N2 ENOENT 0 1
0 as 0 0 | rename /a %/c%20d | denied S1 EACCES 1 4294967295
0 as 0 0 | rename %/a%20b %/c%20d | ok
0 as 0 0 | chmod /a 6000 | denied O1 EPERM 0 1
0 as 0 0 | chown /a 4294967295 0 | denied U1 EPERM 255 1
0 as 0 0 | chflags %/a%20b 00070007 | ok
0 as 0 0 | level -1 | denied L3 EPERM 0 0
0 as 0 0 | sync | ok
255 as 0 0 | ifile | ok 252
255 as 7 7 | infos 0 | denied
255 as 0 0 | bmapv | ok 0
255 as 0 0 | bmapv 4:1:0:512 5:2:4294967295:4294967295 | ok 2
255 as 0 0 | markv 4:1:2147483648:512 | fault NoSpace
255 as 0 0 | infos 4294967295 | fault NoSuchSegment
255 as 0 0 | infos 3 | fault Active
255 as 0 0 | segclean 12 | fault NotDirty
255 as 0 0 | segclean 0 | fault Live 512
255 as 0 0 | gain | ok 0
255 as 0 0 | gain | fault NotGainful
";

/// Asserts that a line has this fault.
fn expect_fault(rt: &impl Abort, alloc: Global, line: &[u8], field: Field, kind: FaultKind) {
    expect_eq(rt, read_entry(alloc, line), Err(LineFault { field, kind }));
}

/// The user's call of user 0 with group 0 in session 1, with its answer.
fn call(rt: &impl Abort, request: Request, answer: Answer) -> Entry {
    Entry {
        session: 1,
        cred: Cred::new(0, &[0], false).expect(rt, "a credential"),
        event: Event::User(request, answer),
    }
}

/// Appends the entry of a line.
fn push_read(rt: &impl Abort, alloc: Global, entries: &mut Vec<Entry>, line: &[u8]) {
    let entry = read_entry(alloc, line).expect(rt, "an entry");
    reads_back(&entry);
    finds_line(&entry);
    entries.push(entry).expect(rt, "memory");
}

#[test]
fn each_line_is_told_again(rt: HostRuntime) {
    let mut entries = Vec::new(rt.alloc());
    let mut rest = LINES;
    for _ in 0..LINES.len() {
        let Some((line, behind)) = cut_line(rest) else {
            break;
        };
        push_read(&rt, rt.alloc(), &mut entries, line);
        rest = behind;
    }
    let mut text = Vec::new(rt.alloc());
    push_entries(&mut text, entries.as_slice()).expect(&rt, "memory");
    expect_eq(&rt, text.as_slice(), LINES);
}

/// Asserts that a line is read as this entry.
fn expect_entry(rt: &impl Abort, alloc: Global, line: &[u8], entry: Entry) {
    expect_eq(rt, read_entry(alloc, line), Ok(entry));
}

/// The entry of an Unlink of a path that was served.
fn unlink(rt: &impl Abort, alloc: Global, path: &[u8]) -> Entry {
    let path = Path::parse_bytes(alloc, path).expect(rt, "a path");
    call(rt, Request::Unlink { path }, Answer::Served(Served::Done))
}

#[test]
fn entries_by_hand(rt: HostRuntime) {
    let alloc = rt.alloc();
    let line = b"1 as 0 0 | unlink %/a%20b | ok";
    expect_entry(&rt, alloc, line, unlink(&rt, alloc, b"/a b"));
    let line = b"1 as 0 0 | unlink %/%ff/%c3 | ok";
    expect_entry(&rt, alloc, line, unlink(&rt, alloc, b"/\xff/\xc3"));
    let line = b"1 as 0 0 | sync | refused NoSpace";
    let entry = call(&rt, Request::Sync, Answer::Refused(Resource::NoSpace));
    expect_entry(&rt, alloc, line, entry);
}

/// Lines, and what stands behind a number.
const NUMBERED: [(&[u8], u64, Option<&[u8]>); 7] = [
    (b"1 as 0 0 | sync | ok", 12, Some(b"1 as 0 0 | sync | ok")),
    (
        b"#12 1 as 0 0 | sync | ok",
        12,
        Some(b"1 as 0 0 | sync | ok"),
    ),
    (b"#12 1 as 0 0 | sync | ok", 13, None),
    (b"#012 1 as 0 0 | sync | ok", 12, None),
    (b"#121 as 0 0 | sync | ok", 12, None),
    (b"#", 0, None),
    (
        b"#18446744073709551615 x",
        18_446_744_073_709_551_615,
        Some(b"x"),
    ),
];

#[test]
fn numbers_by_hand(rt: HostRuntime) {
    for (line, number, rest) in NUMBERED {
        expect_eq(&rt, unnumbered(line, number), rest);
    }
}

/// The call of the cleaner, session 255, with what came of it.
fn cleaning(rt: &impl Abort, act: CleanerAct, outcome: CleanerOutcome) -> Entry {
    Entry {
        session: 255,
        cred: Cred::new(0, &[0], false).expect(rt, "a credential"),
        event: Event::Cleaner(act, outcome),
    }
}

/// Blocks that are to be written again: block 2 of file 4, and the inode of file 5.
const MARKS: [BlockInfo; 2] = [
    BlockInfo {
        ino: 4,
        version: 1,
        lbn: 2,
        addr: 70,
    },
    BlockInfo {
        ino: 5,
        version: 3,
        lbn: 4_294_967_295,
        addr: 71,
    },
];

/// The entry of a Markv of these blocks.
fn markv(rt: &impl Abort, alloc: Global) -> Entry {
    let marks = CleanerCall::Markv(MarkList::new(&MARKS).expect(rt, "two infos"));
    let act = CleanerAct::of(alloc, &marks).expect(rt, "memory");
    cleaning(rt, act, CleanerOutcome::Done(2))
}

#[test]
fn cleaner_by_hand(rt: HostRuntime) {
    let live = CleanerOutcome::Fault(CleanFault::Live(512));
    let entry = cleaning(&rt, CleanerAct::Segclean(12), live);
    let line = b"255 as 0 0 | segclean 12 | fault Live 512";
    expect_entry(&rt, rt.alloc(), line, entry);
    let line = b"255 as 0 0 | markv 4:1:2:70 5:3:4294967295:71 | ok 2";
    expect_entry(&rt, rt.alloc(), line, markv(&rt, rt.alloc()));
}

/// Asserts that each of these lines has this fault in this field.
fn expect_faults(rt: &impl Abort, alloc: Global, field: Field, faults: &[(&[u8], FaultKind)]) {
    for (line, kind) in faults {
        expect_fault(rt, alloc, line, field, *kind);
    }
}

/// Lines that are none of a journal.
const OF_LINES: [(&[u8], FaultKind); 6] = [
    (b"", FaultKind::Words),
    (b"\xff", FaultKind::Bytes),
    (b"0 as 0 0 | sync | ok\n", FaultKind::Bytes),
    (b"0 as 0 0 | sync |  ok", FaultKind::Words),
    (b"0 as 0 0 | sync ok", FaultKind::Words),
    (b"0 as 0 0", FaultKind::Words),
];

#[test]
fn faults_of_the_line(rt: HostRuntime) {
    expect_faults(&rt, rt.alloc(), Field::Line, &OF_LINES);
}

/// Lines of a session or of a caller that is none.
const OF_CALLERS: [(&[u8], FaultKind); 4] = [
    (b"256 as 0 0 | sync | ok", FaultKind::Range),
    (b"0 is 0 0 | sync | ok", FaultKind::Words),
    (b"0 as x 0 | sync | ok", FaultKind::Number),
    (b"| sync | ok", FaultKind::Words),
];

#[test]
fn faults_of_the_caller(rt: HostRuntime) {
    expect_faults(&rt, rt.alloc(), Field::Caller, &OF_CALLERS);
}

/// Lines of a user's call that is none.
const OF_CALLS: [(&[u8], FaultKind); 7] = [
    (b"0 as 0 0 | | ok", FaultKind::Words),
    (b"0 as 0 0 | # | ok", FaultKind::Words),
    (b"0 as 0 0 | as 0 0 | ok", FaultKind::Words),
    (b"0 as 0 0 | pass | ok", FaultKind::Words),
    (b"0 as 0 0 | stat %/a%2 | ok", FaultKind::Hex),
    (b"0 as 0 0 | stat %/a%2G | ok", FaultKind::Hex),
    (
        b"0 as 0 0 | stat %a | ok",
        FaultKind::Path(BadPath::NotAbsolute),
    ),
];

#[test]
fn faults_of_the_call(rt: HostRuntime) {
    expect_faults(&rt, rt.alloc(), Field::Call, &OF_CALLS);
}

/// Lines of a cleaner's call that is none.
const OF_CLEANERS: [(&[u8], FaultKind); 6] = [
    (b"0 as 0 0 | cleaner ifile | ok 252", FaultKind::Words),
    (b"0 as 0 0 | segclean | ok 0", FaultKind::Words),
    (b"0 as 0 0 | segclean 0 1 | ok 0", FaultKind::Words),
    (b"0 as 0 0 | infos %/0 | ok 1", FaultKind::Number),
    (b"0 as 0 0 | bmapv 4:1:0 | ok 1", FaultKind::Number),
    (
        b"0 as 0 0 | markv 4:1:0:4294967296 | ok 1",
        FaultKind::Range,
    ),
];

#[test]
fn faults_of_a_cleaners_call(rt: HostRuntime) {
    expect_faults(&rt, rt.alloc(), Field::Call, &OF_CLEANERS);
}

/// Lines of an answer that is none, or that is no answer to the call.
const OF_ANSWERS: [(&[u8], FaultKind); 12] = [
    (b"0 as 0 0 | sync |", FaultKind::Words),
    (b"0 as 0 0 | sync | okay", FaultKind::Words),
    (b"0 as 0 0 | sync | ok 0", FaultKind::Words),
    (b"0 as 0 0 | sync | refused NoMemory", FaultKind::Words),
    (b"0 as 0 0 | sync | refused JournalFull", FaultKind::Words),
    (b"0 as 0 0 | sync | denied M2 EPERM 0 0", FaultKind::Words),
    (
        b"0 as 0 0 | sync | denied M2 EACCES 256 0",
        FaultKind::Range,
    ),
    (
        b"0 as 0 0 | stat / | stat 2 link 0 0 0755 00000000 0",
        FaultKind::Words,
    ),
    (
        b"0 as 0 0 | stat / | stat 2 dir 0 0 0755 00000000",
        FaultKind::Words,
    ),
    (b"0 as 0 0 | read / 0 1 | bytes 0", FaultKind::Hex),
    (b"0 as 0 0 | infos 0 | fault Live", FaultKind::Words),
    (
        b"0 as 0 0 | list / | names a%2fb",
        FaultKind::Path(BadPath::Name(1, BadName::Slash)),
    ),
];

#[test]
fn faults_of_the_answer(rt: HostRuntime) {
    expect_faults(&rt, rt.alloc(), Field::Answer, &OF_ANSWERS);
}
