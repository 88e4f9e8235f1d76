//! Lists of infos take as many as they may, and a script gives its calls back.

use crate::tests::expect_eq;
use lfs_types::cleaner::{BlockInfo, CleanerCall, InfoList, MarkList};
use lfs_types::cred::Cred;
use lfs_types::path::Path;
use lfs_types::request::Request;
use lfs_types::script::Script;
use std::alloc::Global;
use std::process::Abort;

/// So many infos, each with an address of its own.
fn infos(rt: &impl Abort, alloc: Global, count: u32) -> Vec<BlockInfo> {
    let mut infos = Vec::new(alloc);
    for addr in 0..count {
        let info = BlockInfo {
            ino: 4,
            version: 1,
            lbn: 0,
            addr,
        };
        infos.push(info).expect(rt, "memory");
    }
    infos
}

/// Asserts that two lists have the same infos.
fn expect_items(rt: &impl Abort, found: &[BlockInfo], wanted: &[BlockInfo]) {
    expect_eq(rt, found, wanted);
}

/// Asserts that a list of infos takes these.
fn expect_infos(rt: &impl Abort, infos: &[BlockInfo]) {
    let list = InfoList::new(infos).expect(rt, "a list");
    expect_items(rt, list.items(), infos);
}

#[test]
fn a_list_of_infos_takes_248(rt: HostRuntime) {
    for count in [0, 1, 247, 248] {
        expect_infos(&rt, &infos(&rt, rt.alloc(), count));
    }
    let many = infos(&rt, rt.alloc(), 249);
    expect_eq(&rt, InfoList::new(many.as_slice()).is_none(), true);
}

/// Asserts that a list of marks takes these.
fn expect_marks(rt: &impl Abort, infos: &[BlockInfo]) {
    let list = MarkList::new(infos).expect(rt, "a list");
    expect_items(rt, list.items(), infos);
}

#[test]
fn a_list_of_marks_takes_8(rt: HostRuntime) {
    expect_marks(&rt, &infos(&rt, rt.alloc(), 8));
    let nine = infos(&rt, rt.alloc(), 9);
    expect_eq(&rt, MarkList::new(nine.as_slice()).is_none(), true);
}

#[test]
fn infos_are_added_behind_others(rt: HostRuntime) {
    let first = BlockInfo {
        ino: 4,
        version: 1,
        lbn: 0,
        addr: 65,
    };
    let second = BlockInfo { lbn: 1, ..first };
    let mut list = InfoList::empty();
    list.push(first);
    list.push(second);
    expect_eq(&rt, list.items(), [first, second].as_slice());
    let again = InfoList::from(list.into_items());
    expect_eq(&rt, again.items(), [first, second].as_slice());
}

/// A Stat of `/a` and a Sync.
fn calls(rt: &impl Abort, alloc: Global, cred: Cred) -> Vec<(Cred, Request)> {
    let path = Path::parse(alloc, "/a").expect(rt, "a path");
    let mut calls = Vec::new(alloc);
    calls
        .push((cred, Request::Stat { path }))
        .expect(rt, "memory");
    calls.push((cred, Request::Sync)).expect(rt, "memory");
    calls
}

/// Asserts that these are the calls above.
fn expect_calls(rt: &impl Abort, calls: &[(Cred, Request)], cred: &Cred) {
    match calls {
        [(first, Request::Stat { path }), (second, Request::Sync)] => {
            expect_eq(rt, first, cred);
            expect_eq(rt, second, cred);
            expect_eq(rt, path.names().len(), 1);
        }
        _ => panic!(rt; "another script"),
    }
}

#[test]
fn a_script_gives_its_calls_back(rt: HostRuntime) {
    let cred = Cred::new(7, &[7], false).expect(&rt, "a credential");
    let script = Script::from(calls(&rt, rt.alloc(), cred));
    expect_calls(&rt, script.as_slice(), &cred);
    expect_eq(&rt, script.into_vec().len(), 2);
}

#[test]
fn a_call_of_the_cleaner_holds_its_list(rt: HostRuntime) {
    let two = infos(&rt, rt.alloc(), 2);
    let marks = MarkList::new(two.as_slice()).expect(&rt, "a list");
    match CleanerCall::Markv(marks) {
        CleanerCall::Markv(list) => expect_items(&rt, list.items(), &two),
        _ => panic!(rt; "another call"),
    }
}
