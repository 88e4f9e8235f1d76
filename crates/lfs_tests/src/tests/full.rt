//! Files of their own bytes, written until the volume is full: what was served reads as it was written, whatever the
//! passes behind it answer.

use super::{
    DEFAULTS, calls, expect_answers, expect_eq, fresh, push, push_byte, push_number, repeated,
};
use lfs_audit::run::run_script;
use lfs_logstore::LogStore;
use lfs_server::pass::Pass;
use lfs_types::answer::{Answer, Resource};
use lfs_types::cred::Cred;
use lfs_types::store::Params;
use lfs_volume::volume::Volume;
use std::alloc::Global;
use std::process::Abort;

/// A volume of six segments.
const SIX_SEGMENTS: Params = Params {
    segments: 6,
    ..DEFAULTS
};

/// How many lines are asked for at most: more than six segments have room for.
const LINES: usize = 120;

/// Appends the Write of file `file`: 4,096 bytes, each of them its number.
fn push_write(rt: &impl Abort, script: &mut String, file: usize) {
    push_number(rt, script, "write /f", file, " at 0 ");
    push_byte(rt, script, file % 256, 4096);
    push(rt, script, "\n");
}

/// Appends the line of this number: each file is made, written and synced.
fn push_line(rt: &impl Abort, script: &mut String, line: usize) {
    let file = line / 3 + 1;
    match line % 3 {
        0 => push_number(rt, script, "create /f", file, " 0644\n"),
        1 => push_write(rt, script, file),
        _ => push(rt, script, "sync\n"),
    }
}

/// So many lines.
fn filling(rt: &impl Abort, alloc: Global, lines: usize) -> String {
    let mut script = String::new(alloc);
    for line in 0..lines {
        push_line(rt, &mut script, line);
    }
    script
}

/// How many files were written where so many lines were served.
fn written(served: usize) -> usize {
    served.saturating_add(1) / 3
}

/// Appends a Read of each of so many files.
fn push_reads(rt: &impl Abort, script: &mut String, files: usize) {
    for file in 1..=files {
        push_number(rt, script, "read /f", file, " 0 4096\n");
    }
}

/// The answers to these Reads.
fn bytes_read(rt: &impl Abort, alloc: Global, files: usize) -> String {
    let mut answers = String::new(alloc);
    for file in 1..=files {
        push(rt, &mut answers, "0 bytes ");
        push_byte(rt, &mut answers, file % 256, 4096);
        push(rt, &mut answers, "\n");
    }
    answers
}

/// What a run of this script over six segments writes.
fn output_of(rt: &impl Abort, alloc: Global, script: &str) -> Vec<u8> {
    let mut writer = Vec::new(alloc);
    run_script(alloc, &mut script.as_bytes(), &mut writer, SIX_SEGMENTS).expect(rt, "a run");
    writer
}

/// What was written, as text.
fn text_of<'a>(rt: &impl Abort, written: &'a [u8]) -> &'a str {
    str::from_utf8(written).expect(rt, "a text")
}

/// How many lines are served before the first for which there is no room.
fn served_lines(rt: &impl Abort, alloc: Global) -> usize {
    let script = filling(rt, alloc, LINES);
    let output = output_of(rt, alloc, script.as_str());
    let mut rest = text_of(rt, output.as_slice());
    for served in 0..LINES {
        let Some(behind) = rest.strip_prefix("0 ok\n") else {
            assert!(rt; rest.starts_with("0 refused NoSpace\n"));
            return served;
        };
        rest = behind;
    }
    panic!(rt; "all is served");
}

/// A script that fills the volume, makes three passes and reads each file that was written.
fn full_script(rt: &impl Abort, alloc: Global, served: usize) -> String {
    let mut script = filling(rt, alloc, served.saturating_add(1));
    push(rt, &mut script, "pass\npass\npass\n");
    push_reads(rt, &mut script, written(served));
    script
}

/// A text behind the lines of passes.
fn behind_passes(text: &str) -> &str {
    let mut rest = text;
    for _ in 0..text.len() {
        if !rest.starts_with("0 cleaner ") {
            return rest;
        }
        match rest.split_once("\n") {
            Some((_, behind)) => rest = behind,
            None => return rest,
        }
    }
    rest
}

/// What is written behind the lines of the passes.
fn behind_filling<'a>(rt: &impl Abort, alloc: Global, text: &'a str, served: usize) -> &'a str {
    let mut first = repeated(rt, alloc, "0 ok\n", served);
    push(rt, &mut first, "0 refused NoSpace\n");
    behind_passes(text.strip_prefix(first.as_str()).expect(rt, "these lines"))
}

/// Asserts that behind the passes each file that was written reads so.
fn expect_reads(rt: &impl Abort, alloc: Global, rest: &str, files: usize) {
    let bytes = bytes_read(rt, alloc, files);
    let report = rest.strip_prefix(bytes.as_str());
    let report = report.expect(rt, "the bytes");
    expect_eq(rt, report.starts_with("entries "), true);
}

/// Asserts what the script writes that fills the volume.
fn expect_output(rt: &impl Abort, alloc: Global, output: &[u8], served: usize) {
    let text = text_of(rt, output);
    let rest = behind_filling(rt, alloc, text, served);
    expect_reads(rt, alloc, rest, written(served));
}

#[test]
fn script_that_fills_a_volume_loses_nothing(rt: HostRuntime) {
    let served = served_lines(&rt, rt.alloc());
    expect_eq(&rt, written(served) >= 12, true);
    let script = full_script(&rt, rt.alloc(), served);
    let output = output_of(&rt, rt.alloc(), script.as_str());
    expect_output(&rt, rt.alloc(), output.as_slice(), served);
}

/// Makes the line of this number, and says whether it was served; else there was no room for it.
fn make_line(rt: &impl Abort, alloc: Global, volume: &mut Volume<LogStore>, line: usize) -> bool {
    let mut script = String::new(alloc);
    push_line(rt, &mut script, line);
    let mut is_served = false;
    for call in calls(rt, alloc, script.as_str()) {
        let request = call.request;
        match volume.call(call.session, &call.cred, request) {
            Answer::Served(_) => is_served = true,
            Answer::Refused(Resource::NoSpace) => {}
            _ => panic!(rt; "another answer"),
        }
    }
    is_served
}

/// Makes the lines up to the first for which there is no room, and says how many were served.
fn fill(rt: &impl Abort, alloc: Global, volume: &mut Volume<LogStore>) -> usize {
    for line in 0..LINES {
        if !make_line(rt, alloc, volume, line) {
            return line;
        }
    }
    panic!(rt; "all is served");
}

/// Makes the calls of a pass.
pub fn make_pass(rt: &impl Abort, volume: &mut Volume<LogStore>) {
    let root = Cred::new(0, &[0], false).expect(rt, "a credential");
    let mut pass = Pass::new();
    let mut last = None;
    for _ in 0..105 {
        match pass.next(last.as_ref()) {
            Some(call) => last = Some(volume.clean(0, &root, call)),
            None => return,
        }
    }
}

/// Reads each file that was written.
fn expect_kept(rt: &impl Abort, alloc: Global, volume: &mut Volume<LogStore>, files: usize) {
    let mut reads = String::new(alloc);
    push_reads(rt, &mut reads, files);
    let answers = volume
        .run(calls(rt, alloc, reads.as_str()))
        .expect(rt, "a run");
    let wanted = bytes_read(rt, alloc, files);
    expect_answers(rt, alloc, 0, answers.as_slice(), wanted.as_str());
}

#[test]
fn volume_that_is_full_keeps_all_through_three_passes(rt: HostRuntime) {
    let mut volume = fresh(&rt, rt.alloc(), SIX_SEGMENTS);
    let served = fill(&rt, rt.alloc(), &mut volume);
    for _ in 0..3 {
        make_pass(&rt, &mut volume);
        expect_kept(&rt, rt.alloc(), &mut volume, written(served));
    }
}
