//! Scripts that are too long to be stored, arguments, the texts of faults, the status of a run, and runs over readers and
//! writers that fail.

mod arguments;
pub(super) mod fakes;
mod log;
mod passes;
mod runs;
mod status;
mod texts;

use crate::tests::expect_eq;
use lfs_audit::fault::ThreadsFault;
use lfs_audit::run::run_script;
use lfs_io::tell::tell;
use lfs_types::store::Params;
use std::alloc::Global;
use std::process::Abort;

/// Asserts what is told of a fault.
fn expect_told(rt: &impl Abort, alloc: Global, fault: ThreadsFault, text: &[u8]) {
    let mut writer = Vec::new(alloc);
    tell(&mut writer, "lfsd", &fault).expect(rt, "a line");
    expect_eq(rt, writer.as_slice(), text);
}

/// What a run of this script writes.
fn output_with(rt: &impl Abort, alloc: Global, script: &str, params: Params) -> Vec<u8> {
    let mut reader = script.as_bytes();
    let mut writer = Vec::new(alloc);
    run_script(alloc, &mut reader, &mut writer, params).expect(rt, "a run");
    writer
}

/// Asserts that what was written are these lines, and then a report.
fn expect_lines(rt: &impl Abort, written: &[u8], lines: &str) {
    let report = written.strip_prefix(lines.as_bytes());
    let report = report.expect(rt, "these lines");
    assert!(rt; report.starts_with(b"entries "));
}

/// Asserts that a run of this script with these parameters writes these lines, and then a report.
fn expect_with(rt: &impl Abort, alloc: Global, script: &str, params: Params, lines: &str) {
    let written = output_with(rt, alloc, script, params);
    expect_lines(rt, written.as_slice(), lines);
}

/// What was written, as text.
fn text_of<'a>(rt: &impl Abort, written: &'a [u8]) -> &'a str {
    str::from_utf8(written).expect(rt, "a text")
}

/// Asserts that a text has each of these parts.
fn expect_parts(rt: &impl Abort, text: &str, parts: &[&str]) {
    for part in parts {
        assert!(rt; text.contains(*part));
    }
}
