//! Full volumes and passes of the cleaner.

use super::log::{SIX_SEGMENTS, push_byte};
use super::{expect_parts, output_with, text_of};
use crate::tests::push;
use lfs_types::store::Params;
use std::alloc::Global;
use std::process::Abort;

/// Appends a Write of so many bytes at the start of `/w`, and a sync.
fn push_write(rt: &impl Abort, script: &mut String, byte: usize, times: usize) {
    push(rt, script, "write /w at 0 ");
    push_byte(rt, script, byte, times);
    push(rt, script, "\nsync\n");
}

/// A script that makes `/w`, and forty times writes 4,096 bytes at its start and syncs.
fn filling(rt: &impl Abort, alloc: Global) -> String {
    let mut script = String::new(alloc);
    push(rt, &mut script, "create /w 0644\n");
    for _ in 0..40 {
        push_write(rt, &mut script, 0x61, 4096);
    }
    script
}

/// Six segments, and the fewest frames.
const FEW_FRAMES: Params = Params {
    frames: 32,
    ..SIX_SEGMENTS
};

/// Asserts that a run of this script over six segments writes a text that begins so, has these parts and ends so, with the
/// fewest frames too.
fn expect_run(
    rt: &impl Abort,
    alloc: Global,
    script: &str,
    (first, parts, last): (&str, &[&str], &str),
) {
    for params in [SIX_SEGMENTS, FEW_FRAMES] {
        let written = output_with(rt, alloc, script, params);
        let text = text_of(rt, written.as_slice());
        assert!(rt; text.starts_with(first) && text.ends_with(last));
        expect_parts(rt, text, parts);
    }
}

/// What is written where a pass makes room in a full volume.
const MADE_ROOM: (&str, &[&str], &str) = (
    "0 ok\n0 ok\n",
    &[
        "\n0 refused NoSpace\n",
        "\n0 cleaner segclean ok 0\n",
        "\n0 ok\n0 ok\n0 bytes 6261\n",
        "\ndenied 0\n",
    ],
    "",
);

/// A script that fills a volume, makes a pass, and writes and reads again.
fn filled_and_passed(rt: &impl Abort, alloc: Global) -> String {
    let mut script = filling(rt, alloc);
    push(rt, &mut script, "pass\n");
    push_write(rt, &mut script, 0x62, 4095);
    push(rt, &mut script, "read /w 4094 4\n");
    script
}

#[test]
fn pass_makes_room_in_a_full_volume(rt: HostRuntime) {
    let script = filled_and_passed(&rt, rt.alloc());
    expect_run(&rt, rt.alloc(), script.as_str(), MADE_ROOM);
}

/// Calls of which the rules deny some.
const CALLS: &str = "\
as 5 5
write /w at 0 61
read /w 0 2
stat /w/x
segclean 0
as 0 0
level 1
unlink /w
";

/// What is written where these are made on a full volume.
const DENIED: (&str, &[&str], &str) = (
    "",
    &[
        "\n0 refused NoSpace\n",
        "\n0 denied M2 EACCES 0 1\n0 bytes 6161\n0 denied N1 ENOTDIR 0 1\n\
         0 cleaner segclean denied U1\n0 ok\n0 ok\nentries 87\n",
    ],
    "cleaner 1\nrule N1 1\nrule M2 1\nrule U1 1\n",
);

#[test]
fn full_volume_hides_no_rule(rt: HostRuntime) {
    let mut script = filling(&rt, rt.alloc());
    push(&rt, &mut script, CALLS);
    expect_run(&rt, rt.alloc(), script.as_str(), DENIED);
}
