//! Scripts that go to the edges of the log and of its files: a volume written full, files cut and grown.

use super::{expect_with, output_with, text_of};
use crate::tests::push;
use itoa::Buffer;
use lfs_programs::options::DEFAULTS;
use lfs_types::store::Params;
use std::alloc::Global;
use std::process::Abort;

/// A volume of six segments, where the program has no other arguments.
pub const SIX_SEGMENTS: Params = Params {
    segments: 6,
    ..DEFAULTS
};

/// How many files are written in a volume that fills up.
const FILES: usize = 4;

/// How many Writes of 512 bytes are asked for there.
const WRITES: usize = 256;

/// The hexadecimal digits.
const DIGITS: &[u8; 16] = b"0123456789abcdef";

/// Appends the hexadecimal digits of a byte so many times.
pub fn push_byte(rt: &impl Abort, to: &mut String, byte: usize, times: usize) {
    let high = char::from(DIGITS[byte / 16 % 16]);
    let low = char::from(DIGITS[byte % 16]);
    for _ in 0..times {
        to.push(high).expect(rt, "memory");
        to.push(low).expect(rt, "memory");
    }
}

/// Appends a number between two texts.
pub fn push_number(rt: &impl Abort, to: &mut String, before: &str, number: usize, after: &str) {
    push(rt, to, before);
    push(rt, to, Buffer::new().format(number));
    push(rt, to, after);
}

/// The files are made.
const CREATES: &str = "create /f0 0644\ncreate /f1 0644\ncreate /f2 0644\ncreate /f3 0644\n";

/// The answers to that.
const CREATED: &str = "0 ok\n0 ok\n0 ok\n0 ok\n";

/// Appends the Write of this number: 512 bytes of its value, at the end of a file.
fn push_write(rt: &impl Abort, script: &mut String, write: usize) {
    push_number(rt, script, "write /f", write % FILES, " end ");
    push_byte(rt, script, write, 512);
    push(rt, script, "\n");
}

/// A script that makes the files, and writes them in turn, each time 512 bytes of another value at the end.
fn filling(rt: &impl Abort, alloc: Global) -> String {
    let mut script = String::new(alloc);
    push(rt, &mut script, CREATES);
    for write in 0..WRITES {
        push_write(rt, &mut script, write);
    }
    script
}

/// The Writes that were served.
type Served = [bool; WRITES];

/// The answer to a call that was served.
const OK: &str = "0 ok\n";

/// The answer to a Write for which there was no room.
const NO_SPACE: &str = "0 refused NoSpace\n";

/// Which of the Writes were served, by the lines that a run of `filling` prints.
fn served_writes(rt: &impl Abort, lines: &str) -> Served {
    let mut rest = lines.strip_prefix(CREATED).expect(rt, "Creates");
    let mut served = [false; WRITES];
    for write in 0..WRITES {
        if let Some(behind) = rest.strip_prefix(OK) {
            served[write] = true;
            rest = behind;
        } else {
            rest = rest.strip_prefix(NO_SPACE).expect(rt, "a Write");
        }
    }
    served
}

/// Which of the Writes a run of this script serves.
fn served_on(rt: &impl Abort, alloc: Global, script: &str) -> Served {
    let written = output_with(rt, alloc, script, SIX_SEGMENTS);
    served_writes(rt, text_of(rt, written.as_slice()))
}

/// How many Writes were served.
fn count(served: &Served) -> usize {
    let mut count = 0usize;
    for is_served in served {
        count = count.saturating_add(usize::from(*is_served));
    }
    count
}

/// What the script prints that fills a volume.
fn answers_to_filling(rt: &impl Abort, alloc: Global, served: &Served) -> String {
    let mut answers = String::new(alloc);
    push(rt, &mut answers, CREATED);
    for is_served in served {
        push(rt, &mut answers, if *is_served { OK } else { NO_SPACE });
    }
    answers
}

/// Appends, for one file, a Read of each block that was written and one behind the last, and what they serve.
fn push_reads(
    rt: &impl Abort,
    script: &mut String,
    expected: &mut String,
    file: usize,
    served: &Served,
) {
    let mut place = 0usize;
    for write in 0..WRITES {
        if write % FILES == file && served[write] {
            push_read(rt, script, file, place);
            push_block(rt, expected, write);
            place = place.saturating_add(512);
        }
    }
    push_read(rt, script, file, place);
    push(rt, expected, "0 bytes -\n");
}

/// Appends a Read of 512 bytes.
fn push_read(rt: &impl Abort, script: &mut String, file: usize, place: usize) {
    push_number(rt, script, "read /f", file, " ");
    push_number(rt, script, "", place, " 512\n");
}

/// Appends the answer to a Read of a block that was written by the Write of this number.
fn push_block(rt: &impl Abort, expected: &mut String, write: usize) {
    push(rt, expected, "0 bytes ");
    push_byte(rt, expected, write, 512);
    push(rt, expected, "\n");
}

/// Appends a Sync, Reads of all files, the removal of the first and Reads of the second, and their answers.
fn push_all_reads(rt: &impl Abort, script: &mut String, expected: &mut String, served: &Served) {
    push(rt, script, "sync\n");
    push(rt, expected, OK);
    for file in 0..FILES {
        push_reads(rt, script, expected, file, served);
    }
    push(rt, script, "unlink /f0\nstat /f0\n");
    push(rt, expected, "0 ok\n0 denied N2 ENOENT 0 1\n");
    push_reads(rt, script, expected, 1, served);
}

// A user's call opens a segment only where more than two are clean: so four segments are written, the first behind its
// label and the root's record. They have 250 blocks, fewer than the Writes. What waits is written 23 or 24 blocks at a
// time: with four indirect blocks and a directory's at most, one or two blocks of records and a summary. Of these a
// segment has room for two, and so for 36 Writes at least.
#[test]
fn full_volume_keeps_all_that_was_served(rt: HostRuntime) {
    let mut script = filling(&rt, rt.alloc());
    let served = served_on(&rt, rt.alloc(), script.as_str());
    let count = count(&served);
    assert!(rt; 144 <= count && count < 250);
    let mut expected = answers_to_filling(&rt, rt.alloc(), &served);
    push_all_reads(&rt, &mut script, &mut expected, &served);
    expect_with(
        &rt,
        rt.alloc(),
        script.as_str(),
        SIX_SEGMENTS,
        expected.as_str(),
    );
}

/// The bytes of a file of 276 blocks, of which the last stand under the second child of the double indirect block.
const WHOLE: usize = 141_312;

/// Where blocks 11, 12, 13, 139, 140, 141, 267, 268 and 269 begin. From block 12 on the addresses stand in the single
/// indirect block, from 140 on in a child of the double one, from 268 on in the next child.
const EDGES: [usize; 9] = [
    5_632, 6_144, 6_656, 71_168, 71_680, 72_192, 136_704, 137_216, 137_728,
];

/// The byte at a place of a file that is written whole, 4,096 bytes at a time.
fn byte_at(place: usize) -> usize {
    place / 4_096 + 1
}

/// Appends the Writes that write `/f` whole, and their answers.
fn push_whole(rt: &impl Abort, script: &mut String, expected: &mut String) {
    for part in 0..35 {
        let place = part * 4_096;
        push_number(rt, script, "write /f at ", place, " ");
        push_byte(rt, script, byte_at(place), (WHOLE - place).min(4_096));
        push(rt, script, "\n");
        push(rt, expected, OK);
    }
}

/// Appends a Read of the two bytes before a place and the two behind it, and what it serves where the file was cut to
/// so many bytes and has grown again.
fn push_edge(
    rt: &impl Abort,
    script: &mut String,
    expected: &mut String,
    place: usize,
    cut: usize,
) {
    let first = place.saturating_sub(2);
    push_number(rt, script, "read /f ", first, " 4\n");
    push(rt, expected, "0 bytes ");
    for byte in first..place.saturating_add(2).min(WHOLE) {
        push_byte(rt, expected, if byte < cut { byte_at(byte) } else { 0 }, 1);
    }
    push(rt, expected, "\n");
}

/// Appends a cut of `/f` and its growth to all its bytes, and the answers.
fn push_cut(rt: &impl Abort, script: &mut String, expected: &mut String, cut: usize) {
    push_number(rt, script, "length /f ", cut, "\nstat /f\n");
    push_number(rt, script, "read /f ", cut, " 4\n");
    push(rt, expected, OK);
    push_number(rt, expected, "0 stat 4 file 0 0 0644 00000000 ", cut, "\n");
    push(rt, expected, "0 bytes -\n");
    push_number(rt, script, "length /f ", WHOLE, "\n");
    push(rt, expected, OK);
}

/// Appends the Writes, a cut and growth, and Reads around the cut, the end and the edges, and the answers.
fn push_round(rt: &impl Abort, script: &mut String, expected: &mut String, cut: usize) {
    push_whole(rt, script, expected);
    push_cut(rt, script, expected, cut);
    push_edge(rt, script, expected, cut, cut);
    push_edge(rt, script, expected, WHOLE, cut);
    for edge in EDGES {
        push_edge(rt, script, expected, edge, cut);
    }
}

/// Asserts that a file keeps its bytes through cuts to so many bytes, and grows by zeros.
fn expect_cuts(rt: &impl Abort, alloc: Global, cuts: &[usize]) {
    let mut script = String::new(alloc);
    let mut expected = String::new(alloc);
    push(rt, &mut script, "create /f 0644\n");
    push(rt, &mut expected, OK);
    for cut in cuts {
        push_round(rt, &mut script, &mut expected, *cut);
    }
    expect_with(rt, alloc, script.as_str(), DEFAULTS, expected.as_str());
}

#[test]
fn file_cut_below_its_double_indirect_block_grows_by_zeros(rt: HostRuntime) {
    expect_cuts(&rt, rt.alloc(), &[5_632, 6_145, 71_679]);
}

#[test]
fn file_cut_to_its_single_indirect_block_grows_by_zeros(rt: HostRuntime) {
    expect_cuts(&rt, rt.alloc(), &[6_144, 6_656, 71_680]);
}

#[test]
fn file_cut_within_its_double_indirect_block_grows_by_zeros(rt: HostRuntime) {
    expect_cuts(&rt, rt.alloc(), &[71_681, 136_705, 137_216]);
}
