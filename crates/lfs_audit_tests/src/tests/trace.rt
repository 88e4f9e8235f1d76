//! Entries that are judged by hand.

use super::expect_eq;
use lfs_model::journal::{CleanerKind, CleanerOutcome, Entry, Event};
use lfs_trace::answers::{is_as_made, may_be_refused, one_answer};
use lfs_trace::checker::Checker;
use lfs_trace::cleaning::is_cleaning;
use lfs_trace::errors::Denials;
use lfs_trace::fault::{EntryFault, TraceFault};
use lfs_trace::trace::check_trace;
use lfs_types::answer::{Answer, Resource, Served};
use lfs_types::cleaner::CleanFault;
use lfs_types::cred::Cred;
use lfs_types::fault::FormatFault;
use lfs_types::mode::Mode;
use lfs_types::path::Path;
use lfs_types::request::Request;
use lfs_types::rule::{Denial, Rule};
use std::alloc::Global;
use std::process::Abort;

/// The credential of a user, in the group of the same number.
fn user(rt: &impl Abort, uid: u32) -> Cred {
    Cred::new(uid, &[uid], false).expect(rt, "a credential")
}

/// The entry of an Unlink of `/a` by user 7 in this session, with this answer.
fn unlink(rt: &impl Abort, alloc: Global, session: u8, answer: Answer) -> Entry {
    let path = Path::parse(alloc, "/a").expect(rt, "a path");
    Entry {
        session,
        cred: user(rt, 7),
        event: Event::User(Request::Unlink { path }, answer),
    }
}

/// A denial by this rule at this component of the first path.
fn denied(rule: Rule, at: u32) -> Answer {
    Answer::Denied(Denial { rule, path: 0, at })
}

/// Whether an entry with this answer is as one that is denied by GrantsWrite at the root.
fn is_as_denied(rt: &impl Abort, alloc: Global, answer: Answer) -> bool {
    let made = unlink(rt, alloc, 1, denied(Rule::GrantsWrite, 0));
    is_as_made(&made, &unlink(rt, alloc, 1, answer))
}

#[test]
fn entries_as_they_are_made(rt: HostRuntime) {
    one_answer();
    let alloc = rt.alloc();
    let same = is_as_denied(&rt, alloc, denied(Rule::GrantsWrite, 0));
    let rule = is_as_denied(&rt, alloc, denied(Rule::GrantsSearch, 0));
    let place = is_as_denied(&rt, alloc, denied(Rule::GrantsWrite, 1));
    let served = is_as_denied(&rt, alloc, Answer::Served(Served::Done));
    expect_eq(
        &rt,
        [same, rule, place, served],
        [true, false, false, false],
    );
}

/// Asserts of each row whether a call may be refused: whether the rules allow it, and a number is left, and what ran out.
fn expect_refused(rt: &impl Abort, request: Request, rows: &[(bool, bool, Resource, bool)]) {
    for (is_allowed, is_number_left, resource, want) in rows {
        let found = may_be_refused(&request, *is_allowed, *is_number_left, *resource);
        expect_eq(rt, found, *want);
    }
}

/// Refusals of an Unlink.
const OF_UNLINK: [(bool, bool, Resource, bool); 5] = [
    (true, false, Resource::NoSpace, true),
    (false, false, Resource::NoSpace, false),
    (true, false, Resource::NoInodes, false),
    (true, true, Resource::DirectoryFull, false),
    (true, true, Resource::NoMemory, false),
];

#[test]
fn refusals(rt: HostRuntime) {
    let path = self::path(&rt, rt.alloc(), "/a");
    expect_refused(&rt, Request::Unlink { path }, &OF_UNLINK);
    let path = self::path(&rt, rt.alloc(), "/a");
    let rows = [(true, true, Resource::NoSpace, false)];
    expect_refused(&rt, Request::List { path }, &rows);
}

/// Calls of the cleaner by a user on a volume of 6 segments and 16 numbers, what came of each, and whether that may be.
const CLEANING: [(u32, CleanerKind, CleanerOutcome, bool); 10] = [
    (0, CleanerKind::Ifile, CleanerOutcome::Done(252), true),
    (0, CleanerKind::Ifile, CleanerOutcome::Done(253), false),
    (0, CleanerKind::Infos, CleanerOutcome::Done(248), true),
    (0, CleanerKind::Infos, CleanerOutcome::Done(249), false),
    (0, CleanerKind::Infos, ACTIVE, true),
    (0, CleanerKind::Markv, ACTIVE, false),
    (0, CleanerKind::Markv, CleanerOutcome::Done(9), false),
    (0, CleanerKind::Infos, CleanerOutcome::Denied, false),
    (7, CleanerKind::Infos, CleanerOutcome::Denied, true),
    (7, CleanerKind::Infos, ACTIVE, false),
];

/// That a segment is the active one.
const ACTIVE: CleanerOutcome = CleanerOutcome::Fault(CleanFault::Active);

#[test]
fn cleaner_calls(rt: HostRuntime) {
    for (uid, kind, outcome, want) in CLEANING {
        let found = is_cleaning(16, 6, &user(&rt, uid), kind, outcome);
        expect_eq(&rt, found, want);
    }
}

/// The entry of a call by user 7 in session 1, with this answer.
fn entry_of(rt: &impl Abort, request: Request, answer: Answer) -> Entry {
    Entry {
        session: 1,
        cred: user(rt, 7),
        event: Event::User(request, answer),
    }
}

/// A path.
fn path(rt: &impl Abort, alloc: Global, text: &str) -> Path {
    Path::parse(alloc, text).expect(rt, "a path")
}

/// The entry of a Mkdir of `/a` by user 7, with this answer.
fn mkdir(rt: &impl Abort, alloc: Global, answer: Answer) -> Entry {
    let mkdir = Request::Mkdir {
        path: path(rt, alloc, "/a"),
        mode: Mode::new(0o755).expect(rt, "a mode"),
    };
    entry_of(rt, mkdir, answer)
}

/// The entries of a Mkdir of `/a` by user 7, denied as the root is the superuser's, and a Stat of `/a`.
fn two_entries(rt: &impl Abort, alloc: Global, at: u32) -> [Entry; 2] {
    let stat = Request::Stat {
        path: path(rt, alloc, "/a"),
    };
    [
        mkdir(rt, alloc, denied(Rule::GrantsWrite, 0)),
        entry_of(rt, stat, denied(Rule::NameThere, at)),
    ]
}

/// What is said of two such entries on a volume of so many numbers.
fn judged(rt: &impl Abort, alloc: Global, at: u32, inodes: u32) -> Result<(), TraceFault> {
    check_trace(alloc, inodes, 6, &two_entries(rt, alloc, at))
}

#[test]
fn traces(rt: HostRuntime) {
    expect_eq(&rt, judged(&rt, rt.alloc(), 1, 16), Ok(()));
    let illegal = Err(TraceFault::Illegal(1));
    expect_eq(&rt, judged(&rt, rt.alloc(), 0, 16), illegal);
    let few = Err(TraceFault::Volume(FormatFault::TooFew));
    expect_eq(&rt, judged(&rt, rt.alloc(), 1, 15), few);
}

/// A checker of a volume of 6 segments and 16 numbers. It lies in memory of its own.
fn fresh(rt: &impl Abort, alloc: Global) -> Box<Checker> {
    let checker = Checker::new(alloc, 16, 6).expect(rt, "a checker");
    Box::new(alloc, checker).expect(rt, "memory")
}

/// How many names a List of the root by user 7 gives by the rules.
fn listed(rt: &impl Abort, alloc: Global, checker: &mut Checker) -> Option<usize> {
    let list = Request::List {
        path: path(rt, alloc, "/"),
    };
    match checker.ruled(&user(rt, 7), &list).expect(rt, "memory") {
        Answer::Served(Served::Names(names)) => Some(names.as_slice().len()),
        _ => None,
    }
}

#[test]
fn a_checker_says_what_the_rules_answer(rt: HostRuntime) {
    let alloc = rt.alloc();
    let mut checker = fresh(&rt, alloc);
    let row = checker.row(&path(&rt, alloc, "/")).expect(&rt, "a row");
    expect_eq(&rt, row.number, 2);
    expect_eq(&rt, [checker.is_used(2), checker.is_used(4)], [true, false]);
    expect_eq(&rt, listed(&rt, alloc, &mut checker), Some(0));
}

/// What a checker says of a Mkdir of `/a` by user 7 with this answer.
fn judged_as(
    rt: &impl Abort,
    alloc: Global,
    checker: &mut Checker,
    denials: Denials,
    answer: Answer,
) -> Result<(), EntryFault> {
    checker.entry_as(denials, &mkdir(rt, alloc, answer))
}

/// Asserts what a checker says of a Mkdir that the rules deny by GrantsWrite, with EACCES.
fn expect_judged(rt: &impl Abort, alloc: Global, checker: &mut Checker) {
    let illegal = Err(EntryFault::Illegal);
    let same = denied(Rule::GrantsSearch, 3);
    let found = judged_as(rt, alloc, checker, Denials::Whole, same);
    expect_eq(rt, found, illegal);
    let same = denied(Rule::GrantsSearch, 3);
    let found = judged_as(rt, alloc, checker, Denials::ByError, same);
    expect_eq(rt, found, Ok(()));
    let other = denied(Rule::IsOwner, 0);
    let found = judged_as(rt, alloc, checker, Denials::ByError, other);
    expect_eq(rt, found, illegal);
    let done = Answer::Served(Served::Done);
    let found = judged_as(rt, alloc, checker, Denials::ByError, done);
    expect_eq(rt, found, illegal);
}

#[test]
fn denials_by_their_errors(rt: HostRuntime) {
    let mut checker = fresh(&rt, rt.alloc());
    expect_judged(&rt, rt.alloc(), &mut checker);
}

/// What a checker tells of who could give the root to user 0 and group 20.
fn told_who(rt: &impl Abort, alloc: Global, checker: &mut Checker) -> Vec<u8> {
    let chown = Request::Chown {
        path: path(rt, alloc, "/"),
        uid: 0,
        gid: 20,
    };
    checker.tell_who(&chown).expect(rt, "memory")
}

#[test]
fn who_could_make_a_call(rt: HostRuntime) {
    let mut checker = fresh(&rt, rt.alloc());
    let text = told_who(&rt, rt.alloc(), &mut checker);
    // The root is user 0's.
    let wanted = b"user 0: ok\nothers: denied O2 EPERM 0 0\n";
    expect_eq(&rt, text.as_slice(), wanted.as_slice());
}
