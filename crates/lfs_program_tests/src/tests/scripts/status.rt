//! The status of a run, and what is told of it.

use crate::tests::expect_eq;
use lfs_audit::fault::{RunFault, ThreadsFault};
use lfs_io::tell::end;

/// How runs end, and the status and the text of each.
const ENDS: [(Result<(), ThreadsFault>, u8, &[u8]); 2] = [
    (Ok(()), 0, b""),
    (
        Err(ThreadsFault::Run(RunFault::Write)),
        1,
        b"lfsd: write failed\n",
    ),
];

#[test]
fn status_of_a_run(rt: HostRuntime) {
    for (outcome, status, text) in ENDS {
        let mut told = Vec::new(rt.alloc());
        expect_eq(&rt, end(&mut told, "lfsd", outcome), status);
        expect_eq(&rt, told.as_slice(), text);
    }
}
