//! A file with blocks under each kind of indirect block, and passes of the cleaner that move them.

use super::cleaning::{dirty_segments, is_dirty, root};
use super::large::{ROOMY, leave_segments};
use super::run;
use crate::tests::full::make_pass;
use crate::tests::{expect_eq, fresh};
use lfs_logstore::LogStore;
use lfs_server::pass::Pass;
use lfs_types::cleaner::{CleanFault, CleanerCall};
use lfs_volume::journal::CleanerAnswer;
use lfs_volume::volume::Volume;
use std::alloc::Global;
use std::process::Abort;

/// `/f` gets a block each direct, under the single indirect block, and under two children of the double one.
const SPREAD: &str = "\
session 3
create /f 0644
write /f at 511 a1a2
write /f at 71679 a3a4
write /f at 137215 a5a6
write /f at 8460287 a7
sync
";

/// The answers to that.
const SPREAD_TOLD: &str = "3 ok\n3 ok\n3 ok\n3 ok\n3 ok\n3 ok\n";

/// What these blocks have.
const READS: &str = "\
session 3
read /f 510 4
read /f 71678 4
read /f 137214 4
read /f 8460286 9
";

/// The answers to that.
const KEPT: &str = "3 bytes 00a1a200\n3 bytes 00a3a400\n3 bytes 00a5a600\n3 bytes 00a7\n";

/// A volume with this file, whose blocks lie in dirty segments.
fn spread(rt: &impl Abort, alloc: Global) -> Box<Volume<LogStore>> {
    let mut volume = fresh(rt, alloc, ROOMY);
    run(rt, alloc, &mut volume, SPREAD, SPREAD_TOLD);
    leave_segments(rt, alloc, &mut volume);
    volume
}

/// How many of these segments are dirty.
fn dirty_of(rt: &impl Abort, volume: &mut Volume<LogStore>, segments: &[u32]) -> usize {
    let mut count = 0usize;
    for segment in segments {
        count = count.saturating_add(usize::from(is_dirty(rt, volume, *segment)));
    }
    count
}

#[test]
fn passes_empty_each_old_segment_of_a_file_under_children(rt: HostRuntime) {
    let mut volume = spread(&rt, rt.alloc());
    let old = dirty_segments(&rt, rt.alloc(), &mut volume);
    expect_eq(&rt, old.len() > 1, true);
    for _ in 0..old.len() {
        make_pass(&rt, &mut volume);
    }
    expect_eq(&rt, dirty_of(&rt, &mut volume, old.as_slice()), 0);
    run(&rt, rt.alloc(), &mut volume, READS, KEPT);
}

/// Makes the calls of a pass, while another cleaner makes each segment clean just before it would, and gives its last answer.
fn pass_too_late(rt: &impl Abort, volume: &mut Volume<LogStore>) -> Option<CleanerAnswer> {
    let root = root(rt);
    let mut pass = Pass::new();
    let mut last = None;
    for _ in 0..105 {
        let Some(call) = pass.next(last.as_ref()) else {
            return last;
        };
        if let CleanerCall::Segclean(segment) = call {
            drop(volume.clean(254, &root, CleanerCall::Segclean(segment)));
        }
        last = Some(volume.clean(255, &root, call));
    }
    last
}

#[test]
fn file_under_children_is_kept_by_a_pass_that_ends_in_a_fault(rt: HostRuntime) {
    let mut volume = spread(&rt, rt.alloc());
    let last = pass_too_late(&rt, &mut volume);
    let is_late = matches!(last, Some(CleanerAnswer::Fault(CleanFault::NotDirty)));
    expect_eq(&rt, is_late, true);
    run(&rt, rt.alloc(), &mut volume, READS, KEPT);
}
