//! `lfs_audit_trail` over a journal that begins at the tree of an image, worked out by hand, and what it tells as JSON.

use super::command::{Ended, Words, expect_ended};
use super::image::Image;
use super::{expect_eq, fresh, plan_of};
use lfs_auditing::program::lfs_audit_trail;
use lfs_command::streams::Streams;
use lfs_image::save;
use lfs_script::plan::{Act, Step};
use lfs_types::answer::{Answer, Served};
use serde_json::Value;
use std::alloc::Global;
use std::process::Abort;

/// The calls before the image: user 7 has a diary, which the superuser locks at a raised securelevel.
const BEFORE: &str = "\
mkdir /home 0755
chown /home 7 7
as 7 7
create /home/diary 0600
write /home/diary end 646561720a
as 0 0
chflags /home/diary 20000
level 1
sync
";

/// A journal from there on. The lock stays at that level; user 9 may not read the diary, but a note.
const JOURNAL: &str = "\
0 as 0 0 | chflags /home/diary 00000000 | denied L2 EPERM 0 2
1 as 7 7 | read /home/diary 0 9 | bytes 646561720a
2 as 9 9 | read /home/diary 0 9 | denied M1 EACCES 0 2
1 as 7 7 | create /home/note 0644 | ok
1 as 7 7 | write /home/note end 68 | ok
2 as 9 9 | read /home/note 0 9 | bytes 68
";

/// What is told of it.
const TOLD: &str = "\
legal 6 entries
user 0
entries 1
served 0
denied 1
refused 0
cleaner 0
rule L2 1
user 7
entries 3
served 3
denied 0
refused 0
cleaner 0
user 9
entries 2
served 1
denied 1
refused 0
cleaner 0
rule M1 1
changed last:
 /home/note user 7 session 1 entry 5
read last by others:
 /home/note user 9 session 2 entry 6
";

/// The same as JSON.
const JSON: &str = "{\"changed\":[{\"entry\":5,\"path\":\"/home/note\",\"session\":1,\"user\":7}],\
\"entries\":6,\"legal\":true,\
\"read\":[{\"entry\":6,\"path\":\"/home/note\",\"session\":2,\"user\":9}],\
\"stopped\":null,\
\"users\":[{\"cleaner\":0,\"denied\":1,\"refused\":0,\"rules\":[{\"denied\":1,\"rule\":\"L2\"}],\"served\":0,\"user\":0},\
{\"cleaner\":0,\"denied\":0,\"refused\":0,\"rules\":[],\"served\":3,\"user\":7},\
{\"cleaner\":0,\"denied\":1,\"refused\":0,\"rules\":[{\"denied\":1,\"rule\":\"M1\"}],\"served\":1,\"user\":9}],\
\"who\":null}\n";

/// The image of the volume that the calls before leave.
fn image(rt: &impl Abort, alloc: Global) -> Vec<u8> {
    let mut volume = fresh(rt, alloc);
    for step in plan_of(rt, alloc, BEFORE).into_steps() {
        let Step { session, cred, act } = step;
        if let Act::User(request) = act {
            let answer = volume.call(session, &cred, request);
            expect_eq(rt, answer, Answer::Served(Served::Done));
        }
    }
    let mut image = Vec::new(alloc);
    save(&volume.store().parts().log, volume.level(), &mut image).expect(rt, "memory");
    image
}

/// What the program writes for these words, behind its name, and a journal, with this image on the disk.
fn audited(alloc: Global, image: &[u8], words: &[&[u8]], journal: &str) -> Ended {
    let env = (Words { words }, alloc);
    let files = Image { bytes: image };
    let mut streams = Streams {
        stdin: journal.as_bytes(),
        stdout: Vec::new(alloc),
        stderr: Vec::new(alloc),
    };
    let status = lfs_audit_trail(&env, &files, &mut streams);
    Ended {
        status,
        out: streams.stdout,
        err: streams.stderr,
    }
}

/// Asserts how it ends, and what it writes.
fn expect_audited(
    rt: &impl Abort,
    alloc: Global,
    image: &[u8],
    (words, journal): (&[&[u8]], &str),
    wanted: (u8, &str, &str),
) {
    expect_ended(rt, &audited(alloc, image, words, journal), wanted);
}

/// Asserts by which status it ends, and that its output begins so.
fn expect_begins(
    rt: &impl Abort,
    alloc: Global,
    image: &[u8],
    (words, journal): (&[&[u8]], &str),
    (status, line): (u8, &str),
) {
    let ended = audited(alloc, image, words, journal);
    expect_eq(rt, ended.status, status);
    expect_eq(rt, ended.out.starts_with(line.as_bytes()), true);
}

/// Asserts by which status it ends, and gives what it writes to standard output.
fn out_of(
    rt: &impl Abort,
    alloc: Global,
    image: &[u8],
    (words, journal): (&[&[u8]], &str),
    status: u8,
) -> Vec<u8> {
    let ended = audited(alloc, image, words, journal);
    expect_eq(rt, ended.status, status);
    ended.out
}

/// Asserts that a text has a piece.
fn expect_has(rt: &impl Abort, text: &[u8], piece: &str) {
    expect_eq(rt, has(text, piece.as_bytes()), true);
}

/// Whether a text has a piece.
fn has(text: &[u8], piece: &[u8]) -> bool {
    for at in 0..text.len() {
        if text[at..].starts_with(piece) {
            return true;
        }
    }
    false
}

const FROM: &[u8] = b"--from=volume.image";

/// The words of an audit from the image, and of one from a fresh volume.
const THERE: &[&[u8]] = &[b"lfs_audit_trail", FROM];

const ALONE: &[&[u8]] = &[b"lfs_audit_trail"];

#[test]
fn journal_from_an_image_is_legal_there_alone(rt: HostRuntime) {
    let alloc = rt.alloc();
    let image = image(&rt, alloc);
    expect_audited(&rt, alloc, &image, (THERE, JOURNAL), (0, TOLD, ""));
    let line = "illegal entry 1: 0 as 0 0 | chflags /home/diary 00000000 | denied L2 EPERM 0 2\n\
        by the rules: denied N2 ENOENT 0 1\n";
    expect_begins(&rt, alloc, &image, (ALONE, JOURNAL), (1, line));
    // At the lowest securelevel the lock would go.
    let served = "0 as 0 0 | chflags /home/diary 00000000 | ok\n";
    let line = "illegal entry 1: 0 as 0 0 | chflags";
    expect_begins(&rt, alloc, &image, (THERE, served), (1, line));
}

/// Pieces of what is told of who could read the diary.
const WHO: [&str; 2] = [
    "{\"act\":\"read\",\"answer\":\"ok\",\"in\":[],\"not_in\":[],\"user\":7}",
    "{\"act\":\"read\",\"answer\":\"denied M1 EACCES 0 2\",\"in\":[],\"not_in\":[],\"user\":null}",
];

/// Asserts what is told as JSON of the journal and of who could read the diary.
fn expect_who(rt: &impl Abort, alloc: Global, image: &[u8]) {
    let words: &[&[u8]] = &[b"lfs_audit_trail", FROM, b"--json", b"--who=/home/diary"];
    let out = out_of(rt, alloc, image, (words, JOURNAL), 0);
    for piece in WHO {
        expect_has(rt, &out, piece);
    }
    expect_entries(rt, alloc, &out, 6);
}

#[test]
fn audit_as_json(rt: HostRuntime) {
    let alloc = rt.alloc();
    let image = image(&rt, alloc);
    let words: &[&[u8]] = &[b"lfs_audit_trail", FROM, b"--json"];
    expect_audited(&rt, alloc, &image, (words, JOURNAL), (0, JSON, ""));
    expect_who(&rt, alloc, &image);
}

/// Asserts that a text is JSON that tells of so many entries.
fn expect_entries(rt: &impl Abort, alloc: Global, text: &[u8], wanted: u64) {
    let value = Value::from_slice(alloc, text).expect(rt, "JSON");
    expect_eq(
        rt,
        value.pointer("/entries").and_then(Value::as_u64),
        Some(wanted),
    );
}

#[test]
fn faults_of_a_journal_as_json(rt: HostRuntime) {
    let alloc = rt.alloc();
    let words: &[&[u8]] = &[b"lfs_audit_trail", b"--json"];
    let gap = "{\"changed\":[],\"entries\":0,\"legal\":false,\"read\":[],\
        \"stopped\":{\"entry\":1,\"fault\":\"line: Gap\"},\"users\":[],\"who\":null}\n";
    let journal = "#2 0 as 0 0 | sync | ok\n";
    expect_audited(&rt, alloc, &[], (words, journal), (1, gap, ""));
    let journal = "0 as 0 0 | unlink /a | ok\n";
    let out = out_of(&rt, alloc, &[], (words, journal), 1);
    let stopped = "\"stopped\":{\"entry\":1,\"line\":\"0 as 0 0 | unlink /a | ok\",\
        \"rules\":\"by the rules: denied N2 ENOENT 0 1\\n";
    expect_has(&rt, &out, stopped);
}

/// What is told of an image that can't be read, of one that is none, and of numbers beside one.
const FAULTS: [(&[u8], u8, &str); 2] = [
    (
        b"--from=none.image",
        1,
        "lfs_audit_trail: image not opened\n",
    ),
    (
        b"--from=bad.image",
        1,
        "lfs_audit_trail: image: the image ends too early\n",
    ),
];

#[test]
fn faults_of_an_image(rt: HostRuntime) {
    let alloc = rt.alloc();
    for (word, status, told) in FAULTS {
        let words: &[&[u8]] = &[b"lfs_audit_trail", word];
        expect_audited(&rt, alloc, &[], (words, JOURNAL), (status, "", told));
    }
    let words: &[&[u8]] = &[b"lfs_audit_trail", FROM, b"--inodes", b"64"];
    let out = out_of(&rt, alloc, &[], (words, JOURNAL), 2);
    expect_eq(&rt, out.len(), 0);
}
