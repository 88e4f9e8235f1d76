//! Verdicts on an image that is saved, and on one with other bytes, worked out by hand.

use super::expect_eq;
use lfs_checking::verdict::verdict;
use lfs_image::save;
use lfs_logstore::LogStore;
use lfs_types::level::Level;
use lfs_types::store::Params;
use std::alloc::Global;
use std::process::Abort;

/// The image of a new volume of 6 segments and 16 inode numbers.
fn fresh(rt: &impl Abort, alloc: Global) -> Vec<u8> {
    let params = Params {
        segments: 6,
        inodes: 16,
        frames: 32,
        journal: 1,
    };
    let mut image = Vec::new(alloc);
    match LogStore::format(alloc, params) {
        Ok(store) => save(&store.parts().log, Level::Insecure, &mut image).expect(rt, "an image"),
        Err(_) => panic!(rt; "no store"),
    }
    image
}

/// Asserts which verdict some bytes get.
fn expect_verdict(rt: &impl Abort, alloc: Global, image: &[u8], status: u8, text: &[u8]) {
    let verdict = verdict(alloc, image).expect(rt, "memory");
    expect_eq(rt, verdict.status, status);
    expect_eq(rt, verdict.text.as_slice(), text);
}

#[test]
fn image_of_a_new_volume_is_well(rt: HostRuntime) {
    let image = fresh(&rt, rt.alloc());
    // The root's record alone is live.
    let text =
        b"ok\nsegments 5 clean of 6\nbytes 128 live\nnumbers 1 used of 16\nwaiting 0 blocks 0 records\n";
    expect_verdict(&rt, rt.alloc(), &image, 0, text);
}

#[test]
fn faults_are_told_in_a_line(rt: HostRuntime) {
    let mut image = fresh(&rt, rt.alloc());
    let short = b"fault: the image ends too early\n";
    expect_verdict(&rt, rt.alloc(), &[], 1, short);
    // The row of number 5, behind 12 bytes, 6 segments and 5 rows, says that it is used, of version 1.
    assert!(rt; image.len() == 197_372);
    image[197_247] = 1;
    image[197_251] = 1;
    let used = b"fault: number 5 is in use, and no record stands at its place\n";
    expect_verdict(&rt, rt.alloc(), &image, 1, used);
}
