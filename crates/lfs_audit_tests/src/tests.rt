//! What no clause says of audits: that the journals of threads are legal, what is told of a journal, lines that are
//! read and told again, and entries that are judged by hand. And of images: verdicts on them, and volumes found in
//! blocks, also of one that counts what is found.

mod checking;
mod command;
mod image;
mod journals;
mod lines;
mod logged;
mod placing;
mod rescue;
mod trace;
mod trail;

use lfs_logstore::LogStore;
use lfs_script::plan::Plan;
use lfs_script::script::parse_script;
use lfs_server::fresh::fresh_volume;
use lfs_types::store::Params;
use lfs_volume::volume::Volume;
use std::alloc::Global;
use std::fmt::Debug;
use std::process::Abort;

/// The numbers of a small volume.
const SMALL: Params = Params {
    segments: 6,
    inodes: 64,
    frames: 32,
    journal: 4096,
};

/// A fresh small volume. It lies in memory of its own, since a function that holds a value of so many parts takes the prover
/// seconds.
fn fresh(rt: &impl Abort, alloc: Global) -> Box<Volume<LogStore>> {
    let volume = fresh_volume(alloc, SMALL).expect(rt, "a volume");
    Box::new(alloc, volume).expect(rt, "memory")
}

/// What a script asks.
fn plan_of(rt: &impl Abort, alloc: Global, script: &str) -> Plan {
    assert!(rt; script.len() <= 1_048_576);
    parse_script(alloc, script.as_bytes()).expect(rt, "a script")
}

/// Asserts that what was found is what is wanted. An assertion takes the prover a second or more, a call of this less.
fn expect_eq<T: PartialEq + Debug + Drop>(rt: &impl Abort, found: T, wanted: T) {
    assert_eq!(rt; found, wanted);
}
