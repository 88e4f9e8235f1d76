//! A script with the cleaner's lines, and what it prints.

use super::expect_eq;
use super::unswept::unswept_volume;
use lfs_audit::run::run_over;
use std::alloc::Global;
use std::process::Abort;

/// The superuser's lines, among them the least and the greatest info, and those of user 5.
const SCRIPT: &[u8] = b"\
session 3
create /a 0644
segclean 1
infos 2
bmapv 4:0:0:0 4294967295:4294967295:4294967295:4294967295
markv 4:1:0:70
ifile
session 2
pass
as 5 5
pass
segclean 0
markv
";

/// What they print.
const PRINTED: &[u8] = b"\
3 ok
3 cleaner segclean fault NotDirty
3 cleaner infos fault NotDirty
3 cleaner bmapv ok 2
3 cleaner markv ok 0
3 cleaner ifile refused NoMemory
2 cleaner ifile refused NoMemory
2 cleaner ifile denied U1
2 cleaner segclean denied U1
2 cleaner markv denied U1
entries 8
served 1
denied 0
refused 0
cleaner 7
rule U1 3
unentered NoMemory 2
";

/// What a run of the script prints.
fn printed(rt: &impl Abort, alloc: Global) -> Vec<u8> {
    let mut volume = unswept_volume(rt, alloc, 64, 64);
    let mut writer = Vec::new(alloc);
    run_over(alloc, &mut &*SCRIPT, &mut writer, &mut volume).expect(rt, "a run");
    writer
}

#[test]
fn cleaner_lines(rt: HostRuntime) {
    let found = printed(&rt, rt.alloc());
    expect_eq(&rt, found.as_slice(), PRINTED);
}
