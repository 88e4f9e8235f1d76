//! Films: the frames of short talks, worked out by hand, and texts in quotation marks.

use super::{expect_eq, push};
use lfs_film::quoting::{push_quoted, short_line, short_told};
use std::alloc::Global;
use std::process::Abort;

/// Asserts that a page has these frames behind that of the fresh log, and no other.
pub(super) fn expect_frames(rt: &impl Abort, alloc: Global, page: &[u8], frames: &str) {
    let page = str::from_utf8(page).expect(rt, "a text");
    let mut wanted = String::new(alloc);
    push(rt, &mut wanted, FRESH);
    push(rt, &mut wanted, frames);
    push(rt, &mut wanted, "</script>\n<script>\n");
    assert!(rt; page.starts_with("<!doctype html>\n"));
    assert!(rt; page.contains(wanted.as_str()));
    assert!(rt; page.ends_with("</script></body></html>\n"));
}

/// The frame of the fresh log of six segments: the label, a summary and a block with the root's record of 128 bytes, of
/// number 2 and version 1.
const FRESH: &str = "<script id=\"film\" type=\"application/json\">
[0,\"\",\"\",\"waiting 0 blocks 0 records\\u000a\"\
    ,\"   0 active   128 LSR.............................................................\\u000a\"\
    ,\"   1  clean     0 ................................................................\\u000a\"\
    ,\"   2  clean     0 ................................................................\\u000a\"\
    ,\"   3  clean     0 ................................................................\\u000a\"\
    ,\"   4  clean     0 ................................................................\\u000a\"\
    ,\"   5  clean     0 ................................................................\\u000a\"\
    ,\"+0 ;; 2 1;\"]
";

/// A talk of six lines, of which three change nothing.
pub(super) const TALK: &[u8] = b"create /a 0644\nstat /a\nsync\n\nsync\nwrite /a end 78\n";

/// The frames of its lines. The root's block waits, with the records of the root and of the file; `sync` writes the
/// block and one block of both records, 512 and 256 bytes, and the record before is dead; behind the summary stand block 0
/// of number 2 and the records of numbers 2 and 4. A byte makes one block of data wait. The others change neither a row nor
/// what waits.
pub(super) const FRAMES: &str =
    "[1,\"create /a 0644\",\"0 ok\\u000a\",\"waiting 1 blocks 2 records\\u000a\"]
[2,\"stat /a\",\"0 stat 4 file 0 0 0644 00000000 0\\u000a\",\"waiting 1 blocks 2 records\\u000a\"]
[3,\"sync\",\"0 ok\\u000a\",\"waiting 0 blocks 0 records\\u000a\"\
    ,\"   0 active   768 LSrSDR..........................................................\\u000a\"\
    ,\"+0 ;2 1 0; 2 1 4 1;\"]
[4,\"\",\"\",\"waiting 0 blocks 0 records\\u000a\"]
[5,\"sync\",\"0 ok\\u000a\",\"waiting 0 blocks 0 records\\u000a\"]
[6,\"write /a end 78\",\"0 ok\\u000a\",\"waiting 1 blocks 1 records\\u000a\"]
";

/// A name with each mark that is escaped, as a script spells it, and a line with a fault.
pub(super) const MARKED: &[u8] = b"create /<script>\"\\&%25~ 0644\nnonsense\n";

/// Their frames.
pub(super) const MARKED_FRAMES: &str =
    "[1,\"create /\\u003cscript\\u003e\\u0022\\u005c\\u0026%25~ 0644\",\"0 ok\\u000a\"\
    ,\"waiting 1 blocks 2 records\\u000a\"]
[2,\"nonsense\",\"fault Words line 2 'nonsense' at 1: no line begins so\\u000a\"\
    ,\"waiting 1 blocks 2 records\\u000a\"]
";

/// Texts, and what stands for them between quotation marks.
const QUOTED: [(&[u8], &[u8]); 5] = [
    (b"", b"\"\""),
    (b"</script>", b"\"\\u003c/script\\u003e\""),
    (b"\"\\'", b"\"\\u0022\\u005c'\""),
    (
        b"\x00\x1f ~\x7f\x80\xff",
        b"\"\\u0000\\u001f ~\\u007f\\u0080\\u00ff\"",
    ),
    (b"<!--&amp;", b"\"\\u003c!--\\u0026amp;\""),
];

/// Asserts what stands for a text between quotation marks.
fn expect_quoted(rt: &impl Abort, alloc: Global, text: &[u8], wanted: &[u8]) {
    let mut out = Vec::new(alloc);
    push_quoted(&mut out, text).expect(rt, "memory");
    expect_eq(rt, out.as_slice(), wanted);
}

#[test]
fn texts_in_quotation_marks(rt: HostRuntime) {
    for (text, wanted) in &QUOTED {
        expect_quoted(&rt, rt.alloc(), text, wanted);
    }
}

/// A text of so many bytes.
fn text_of(rt: &impl Abort, alloc: Global, count: usize) -> Vec<u8> {
    let mut text = Vec::new(alloc);
    text.resize(count, b'x').expect(rt, "memory");
    text
}

/// Asserts how many bytes are left of a text, and whether they end with the sign that they were cut.
fn expect_cut(rt: &impl Abort, kept: &[u8], left: usize, is_cut: bool) {
    expect_eq(rt, kept.len(), left);
    expect_eq(rt, kept.ends_with(b"x .."), is_cut);
}

#[test]
fn long_lines_are_cut(rt: HostRuntime) {
    let alloc = rt.alloc();
    for (count, left, is_cut) in [
        (159, 159, false),
        (160, 160, false),
        (161, 160, true),
        (65_536, 160, true),
    ] {
        let line = text_of(&rt, alloc, count);
        let kept = short_line(alloc, line.as_slice()).expect(&rt, "memory");
        expect_cut(&rt, kept.as_slice(), left, is_cut);
    }
}

#[test]
fn long_answers_are_cut(rt: HostRuntime) {
    let alloc = rt.alloc();
    for (count, left, is_cut) in [
        (999, 999, false),
        (1_000, 1_000, false),
        (1_001, 1_000, true),
        (65_536, 1_000, true),
    ] {
        let told = text_of(&rt, alloc, count);
        let kept = short_told(alloc, told.as_slice()).expect(&rt, "memory");
        expect_cut(&rt, kept.as_slice(), left, is_cut);
    }
}
