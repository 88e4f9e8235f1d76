//! Runs of `lfs_shell` over the files of the folder where the program runs: an image, passes unasked, a film, faults and
//! frames.

use lfs_command::streams::Streams;
use lfs_programs::shell::lfs_shell;
use std::alloc::Global;
use std::env::{Env, FillError};
use std::fs;
use std::os::unix::fs::FileExt;
use std::rt::Files;

/// The words of a command line.
#[derive(Clone, Copy)]
pub(crate) struct Words<'a> {
    pub(crate) words: &'a [&'a str],
}

impl Env for Words<'_> {
    fn arg(&self, i: usize, buf: &mut [u8]) -> Result<usize, FillError> {
        let Some(word) = self.words.get(i) else {
            return Err(FillError::NotPresent);
        };
        let Some(room) = buf.get_mut(..word.len()) else {
            return Err(FillError::TooLong);
        };
        room.copy_from_slice(word.as_bytes());
        Ok(word.len())
    }

    fn var(&self, _name: &str, _buf: &mut [u8]) -> Result<usize, FillError> {
        Err(FillError::NotPresent)
    }

    fn var_at(&self, _i: usize, _buf: &mut [u8]) -> Result<usize, FillError> {
        Err(FillError::NotPresent)
    }
}

/// What a run wrote, and its status.
#[derive(Drop)]
pub(crate) struct Ended {
    pub(crate) status: u8,
    pub(crate) out: Vec<u8>,
    pub(crate) err: Vec<u8>,
}

impl Ended {
    /// What is told before the report.
    pub(crate) fn answers(&self) -> &str {
        let text = str::from_utf8(self.out.as_slice()).unwrap_or_default();
        text.split("entries ").next().unwrap_or_default()
    }

    /// Whether all was answered, and nothing is told on standard error.
    pub(crate) fn is_done(&self) -> bool {
        self.status == 0 && self.err.is_empty()
    }
}

/// Runs `lfs_shell` with these words on this input.
pub(crate) fn run<R: Files + AllocGlobal>(rt: &R, words: &[&str], input: &str) -> Ended
where
    R::File: FileExt,
{
    let alloc = rt.alloc();
    let mut streams = Streams {
        stdin: input.as_bytes(),
        stdout: Vec::new(alloc),
        stderr: Vec::new(alloc),
    };
    let env = (Words { words }, alloc);
    let status = lfs_shell(&env, rt, &mut streams);
    Ended {
        status,
        out: streams.stdout,
        err: streams.stderr,
    }
}

/// Lines, each with its line feed.
fn joined<R: AllocGlobal>(rt: &R, lines: &[&str]) -> anyhow::Result<String> {
    let mut text = String::new(rt.alloc());
    for line in lines {
        text.push_str(line)?;
        text.push('\n')?;
    }
    Ok(text)
}

/// The file of the image.
const IMAGE: &str = "volume.img";

/// Words that ask for it.
const IMAGED: [&str; 3] = ["lfs_shell", "--segments=6", "--image=volume.img"];

/// Words that ask for no image.
const ALONE: [&str; 2] = ["lfs_shell", "--segments=6"];

/// Lines of the superuser, which may be cut into two talks anywhere: an image keeps the tree and the securelevel.
const LINES: [&str; 16] = [
    "mkdir /d 0750",
    "create /d/a 0640",
    "write /d/a at 0 68656c6c6f",
    "write /d/a at 6144 21",
    "chown /d/a 7 20",
    "rename /d/a /b",
    "create /c 0644",
    "unlink /c",
    "create /e 4755",
    "chflags /b 2",
    "write /b end 21",
    "level 1",
    "chflags /b 0",
    "stat /b",
    "read /b 0 5",
    "list /",
];

/// Whether a talk that is cut in two behind so many lines, whose volume an image keeps between, is answered as an unbroken one.
fn is_continued<R: Files + AllocGlobal>(rt: &R, whole: &Ended, cut: usize) -> anyhow::Result<bool>
where
    R::File: FileExt,
{
    let _ = fs::remove_file(rt, IMAGE);
    let (before, behind) = LINES.split_at(cut.min(LINES.len()));
    let first = run(rt, &IMAGED, joined(rt, before)?.as_str());
    let then = run(rt, &IMAGED, joined(rt, behind)?.as_str());
    let _ = fs::remove_file(rt, IMAGE);
    let mut answers = String::new(rt.alloc());
    answers.push_str(first.answers())?;
    answers.push_str(then.answers())?;
    Ok(first.is_done() && then.is_done() && answers.as_str() == whole.answers())
}

/// Whether a talk that is cut behind each of its lines in turn, with an image, is answered as an unbroken one.
fn is_unbroken_by_images<R: Files + AllocGlobal>(rt: &R) -> anyhow::Result<bool>
where
    R::File: FileExt,
{
    let whole = run(rt, &ALONE, joined(rt, &LINES)?.as_str());
    let mut all = whole.is_done();
    for cut in 0..=LINES.len() {
        all = all && is_continued(rt, &whole, cut)?;
    }
    Ok(all)
}

/// Lines that save a volume, and change it behind that.
const SAVING: &str = "create /a 0644\n.save\n.check\nunlink /a\n.save now\n.journal\n.quit\n";

/// What is told of them: the save's Sync is entered, and tells nothing of its own.
const SAVED: &str = "0 ok
saved
ok
segments 5 clean of 6
bytes 768 live
numbers 2 used of 16
waiting 0 blocks 0 records
0 ok
fault Words line 5 at 1: .help tells these words
0 as 0 0 | create /a 0644 | ok
0 as 0 0 | sync | ok
0 as 0 0 | unlink /a | ok
entries 3
served 3
denied 0
refused 0
cleaner 0
";

/// Words that ask for an image, a small one.
const SMALL: [&str; 4] = [
    "lfs_shell",
    "--segments=6",
    "--inodes=16",
    "--image=volume.img",
];

/// Whether a word saves the volume, by a Sync that is entered, and the volume goes on and is saved at the end too.
fn is_saved_where_asked<R: Files + AllocGlobal>(rt: &R) -> bool
where
    R::File: FileExt,
{
    let _ = fs::remove_file(rt, IMAGE);
    let saved = run(rt, &SMALL, SAVING);
    let then = run(rt, &SMALL, ".check\nstat /a\n");
    let _ = fs::remove_file(rt, IMAGE);
    let is_found_well = then.answers().starts_with("ok\n");
    let is_gone = then.answers().ends_with("\n0 denied N2 ENOENT 0 1\n");
    saved.is_done() && saved.out.as_slice() == SAVED.as_bytes() && is_found_well && is_gone
}

/// Whether what a word saved is there where the talk breaks off behind it, as its next answer finds no room.
fn is_saved_before_a_break<R: Files + AllocGlobal>(rt: &R) -> bool
where
    R::File: FileExt,
{
    let _ = fs::remove_file(rt, IMAGE);
    let alloc = rt.alloc();
    let mut room = [0; 11];
    let mut streams = Streams {
        stdin: "create /a 0644\n.save\nunlink /a\n".as_bytes(),
        stdout: room.as_mut_slice(),
        stderr: Vec::new(alloc),
    };
    let env = (Words { words: &SMALL }, alloc);
    let status = lfs_shell(&env, rt, &mut streams);
    let then = run(rt, &SMALL, "stat /a\n");
    let _ = fs::remove_file(rt, IMAGE);
    status == 1 && then.answers() == "0 stat 4 file 0 0 0644 00000000 0\n"
}

/// A file that is rewritten and written out so often that two segments and a part of the third are written: the first time
/// takes four blocks of the log, each other time three.
fn rewrites<R: AllocGlobal>(rt: &R) -> anyhow::Result<String> {
    let mut text = joined(rt, &["create /a 0644"])?;
    for _ in 0..60 {
        text.push_str("write /a at 0 61\nsync\n")?;
    }
    text.push_str(".space\n")?;
    Ok(text)
}

/// Whether three segments of six are clean behind these, and more than three where passes are made unasked.
fn is_cleaned_unasked<R: Files + AllocGlobal>(rt: &R) -> anyhow::Result<bool>
where
    R::File: FileExt,
{
    let lines = rewrites(rt)?;
    let plain = run(rt, &ALONE, lines.as_str());
    let cleaned = run(
        rt,
        &["lfs_shell", "--segments=6", "--clean"],
        lines.as_str(),
    );
    let few = plain.answers().contains("\nsegments 3 clean of 6\n");
    let told = cleaned.answers();
    let more = told.contains("\nsegments 4 clean of 6\n")
        || told.contains("\nsegments 5 clean of 6\n");
    Ok(plain.is_done() && cleaned.is_done() && few && more)
}

/// Whether a film that is to replace a directory is not written, and that is told.
fn is_film_of_no_file_refused<R: Files + AllocGlobal>(rt: &R) -> bool
where
    R::File: FileExt,
{
    let ended = run(rt, &["lfs_shell", "--segments=6", "--film=."], "stat /\n");
    ended.status == 1
        && ended.err.as_slice() == b"lfs_shell: film not written: not a file\n".as_slice()
}

/// Words that ask for status 1 by a fault.
const STRICT: [&str; 3] = ["lfs_shell", "--segments=6", "--strict"];

/// Talks of which one line has a fault: the first, one behind `.why`, a segment that there is not, the last without its
/// line feed.
const FAULTY: [&str; 4] = [
    "nonsense\nstat /\n",
    "stat /\n.why nonsense\nstat /\n",
    ".segment 6\n.quit\n",
    "stat /\nstat /",
];

/// A talk of which no line has a fault, though a call is denied, and a file's text begins as the line of one does.
const FAULTLESS: &str = "stat /nothing\n\n# fault\n.segment 5\n\
    create /a 0644\nwrite /a at 0 6661756c7420\n.cat /a\n.quit\nnonsense\n";

/// Whether a line with a fault ends a run with status 1 where that is asked for, and with 0 else.
fn is_strict_where_asked<R: Files + AllocGlobal>(rt: &R) -> bool
where
    R::File: FileExt,
{
    let mut all = run(rt, &STRICT, FAULTLESS).is_done();
    for talk in FAULTY {
        let strictly = run(rt, &STRICT, talk);
        let is_told = strictly.err.as_slice() == b"lfs_shell: a line has a fault\n".as_slice();
        let else_so = run(rt, &ALONE, talk);
        all = all && strictly.status == 1 && is_told && else_so.is_done();
    }
    all
}

/// Lines that tell nothing, one line, more and a fault, and the start of another.
const TO_FRAME: &str = "as 8 8\nunlink /a\n.why unlink /a\n\n.why as 0 0\n.segment 6\nstat /";

/// What is written of them in frames: of each line, of what is behind the last line feed, and of the report.
const IN_FRAMES: &str = "0
1
0 denied N2 ENOENT 0 1
5
K3 not the root    path 0 at 0 yes 2 dir 0 0 0755 00000000
N1 directory       path 0 at 0 yes 2 dir 0 0 0755 00000000
S1 search          path 0 at 0 yes 2 dir 0 0 0755 00000000 others r-x
N2 name there      path 0 at 1 no  a
denied N2 ENOENT 0 1
0
1
fault Words line 5 at 6: a user's call stands here
1
fault NoSuchSegment
1
fault Cut line 7
6
entries 1
served 0
denied 1
refused 0
cleaner 0
rule N2 1
";

/// What is written in frames of a talk that quits: the report is the answer to its last line.
const QUIT_IN_FRAMES: &str = "5\nentries 0\nserved 0\ndenied 0\nrefused 0\ncleaner 0\n";

/// Whether the count of its lines stands before each answer where that is asked for.
fn is_framed_where_asked<R: Files + AllocGlobal>(rt: &R) -> bool
where
    R::File: FileExt,
{
    let words = ["lfs_shell", "--segments=6", "--framed"];
    let ended = run(rt, &words, TO_FRAME);
    let quits = run(rt, &words, ".quit\nstat /\n");
    ended.is_done()
        && ended.out.as_slice() == IN_FRAMES.as_bytes()
        && quits.is_done()
        && quits.out.as_slice() == QUIT_IN_FRAMES.as_bytes()
}

/// Words that ask for a share. It has 36 units for each of the six segments but three, 108. A file takes one for its record
/// and four for each block, an indirect one too: the root with names takes 5.
const SHARED: [&str; 4] = ["lfs_shell", "--segments=6", "--inodes=16", "--share"];

/// Lines of the superuser and of a user. Behind each stands what files take then, and what the refused ones would take. A hole
/// counts as its blocks do, and from the thirteenth on there is an indirect block.
const SHARES: [&str; 20] = [
    "mkdir /d 0777", // 5 + 1
    "create /a 0644", // 5 + 1 + 1
    "write /a at 11775 61", // 5 + 1 + 1 + 4 * (23 + 1) are 103
    "as 7 7",
    "create /d/b 0644", // 103 + 5 are 108, for the names of /d take a block
    "create /d/c 0644", // 109
    "write /d/b at 0 62", // 112
    "mkdir /d/e 0755", // 109
    "as 0 0",
    "write /a at 11776 61", // 112: nor may the superuser
    "write /a at 0 63", // 108
    "chown /a 7 7", // 108
    "as 7 7",
    "chmod /a 0600", // 108
    "rename /d/b /d/f", // 108
    "length /a 11264", // 104: one block less
    "write /d/f at 0 62", // 108
    "write /d/f at 511 62", // 108, in the same block
    "write /d/f at 512 62", // 112
    "unlink /d/f", // 103
];

/// What is told of them.
const IN_SHARE: &str = "0 ok
0 ok
0 ok
0 ok
0 refused NoSpace
0 refused NoSpace
0 refused NoSpace
0 refused NoSpace
0 ok
0 ok
0 ok
0 ok
0 ok
0 ok
0 ok
0 refused NoSpace
0 ok
entries 17
served 12
denied 0
refused 5
cleaner 0
";

/// Whether calls are refused `NoSpace` exactly where they would pass the share.
fn is_refused_past_share<R: Files + AllocGlobal>(rt: &R) -> anyhow::Result<bool>
where
    R::File: FileExt,
{
    let ended = run(rt, &SHARED, joined(rt, &SHARES)?.as_str());
    Ok(ended.is_done() && ended.out.as_slice() == IN_SHARE.as_bytes())
}

/// How many blocks the only file may have there: 5 + 1 + 4 * (24 + 1) are 106, and with a block more 110.
const MOST: u32 = 24;

/// Appends lines that put a byte into each block that a file may have there, each written at once.
fn push_writes(text: &mut String, alloc: Global, name: &str) -> anyhow::Result<()> {
    for block in 0..MOST {
        let at = 512 * block;
        text.push_str(format!(in alloc; "write {name} at {at} 61\nsync\n")?.as_str())?;
    }
    Ok(())
}

/// Lines that fill a volume to its share, overwrite all, pass it, have a pass made, cut the file and remove it, and do so again.
fn fills<R: AllocGlobal>(rt: &R) -> anyhow::Result<String> {
    let alloc = rt.alloc();
    let mut text = String::new(alloc);
    for name in ["/a", "/b"] {
        text.push_str(format!(in alloc; "create {name} 0644\n")?.as_str())?;
        for _ in 0..4 {
            push_writes(&mut text, alloc, name)?;
        }
        let past = 512 * MOST;
        let more = format!(in alloc; "write {name} at {past} 61\n.space\npass\n.space\n")?;
        text.push_str(more.as_str())?;
        let less = format!(in alloc;
            "write {name} at {past} 61\nlength {name} 0\nunlink {name}\n"
        )?;
        text.push_str(less.as_str())?;
    }
    Ok(text)
}

/// Whether a volume that is filled to its share takes all that adds nothing: of all lines only the four that would pass it are
/// refused, two before a pass and two behind it; and a pass leaves all clean but the segment that is written.
fn does_a_full_share_go_on<R: Files + AllocGlobal>(rt: &R) -> anyhow::Result<bool>
where
    R::File: FileExt,
{
    let ended = run(rt, &SHARED, fills(rt)?.as_str());
    let text = str::from_utf8(ended.out.as_slice()).unwrap_or_default();
    // The 24 blocks, the indirect one and that of names are 26, with two records 13,568 bytes.
    let emptied = "\nsegments 5 clean of 6\nbytes 13568 live\n";
    let passes = text.split(emptied).count();
    Ok(ended.is_done() && text.contains("\ndenied 0\nrefused 4\n") && passes == 3)
}

/// Words that ask for an image and for a share.
const SHARED_IMAGE: [&str; 5] = [
    "lfs_shell",
    "--segments=6",
    "--inodes=16",
    "--share",
    "--image=volume.img",
];

/// Whether the image of a volume that is within its share is loaded with a share, and goes on so.
fn does_share_go_on_from_an_image<R: Files + AllocGlobal>(rt: &R) -> bool
where
    R::File: FileExt,
{
    let _ = fs::remove_file(rt, IMAGE);
    let first = run(rt, &SHARED_IMAGE, "create /a 0644\nwrite /a at 12287 61\n");
    let then = run(
        rt,
        &SHARED_IMAGE,
        "write /a at 12288 61\nlength /a 11776\nstat /a\n",
    );
    let _ = fs::remove_file(rt, IMAGE);
    first.is_done()
        && first.answers() == "0 ok\n0 ok\n"
        && then.is_done()
        && then.answers() == "0 refused NoSpace\n0 ok\n0 stat 4 file 0 0 0644 00000000 11776\n"
}

/// Whether the image of a volume that takes more than a share, by one block, is not loaded with one, which is told, and is left.
fn is_image_past_its_share_refused<R: Files + AllocGlobal>(rt: &R) -> bool
where
    R::File: FileExt,
{
    let _ = fs::remove_file(rt, IMAGE);
    let first = run(rt, &SMALL, "create /a 0644\nwrite /a at 12288 61\n");
    let refused = run(rt, &SHARED_IMAGE, "stat /\n");
    let then = run(rt, &SMALL, "stat /a\n");
    let _ = fs::remove_file(rt, IMAGE);
    first.is_done()
        && refused.status == 1
        && refused.out.is_empty()
        && refused.err.as_slice() == b"lfs_shell: image past its share\n".as_slice()
        && then.is_done()
        && then.answers() == "0 stat 4 file 0 0 0644 00000000 12289\n"
}

/// Tells of each of these whether it is so. Whether all are.
pub(crate) fn is_as_told<R: Files + AllocGlobal + Print>(rt: &R) -> anyhow::Result<bool>
where
    R::File: FileExt,
{
    let image = is_unbroken_by_images(rt)?;
    println!(rt; "lfs_shell --image: as unbroken, {image}")?;
    let saved = is_saved_where_asked(rt) && is_saved_before_a_break(rt);
    println!(rt; "lfs_shell .save: saved behind its sync, {saved}")?;
    let clean = is_cleaned_unasked(rt)?;
    println!(rt; "lfs_shell --clean: more clean segments, {clean}")?;
    let film = is_film_of_no_file_refused(rt);
    println!(rt; "lfs_shell --film of no file: refused, {film}")?;
    let strict = is_strict_where_asked(rt);
    println!(rt; "lfs_shell --strict: by a line's fault, {strict}")?;
    let framed = is_framed_where_asked(rt);
    println!(rt; "lfs_shell --framed: each answer behind the count of its lines, {framed}")?;
    let share = is_refused_past_share(rt)?;
    println!(rt; "lfs_shell --share: refused past the share alone, {share}")?;
    let full = does_a_full_share_go_on(rt)?;
    println!(rt; "lfs_shell --share: full, and goes on, {full}")?;
    let loaded = does_share_go_on_from_an_image(rt) && is_image_past_its_share_refused(rt);
    println!(rt; "lfs_shell --share --image: within the share alone, {loaded}")?;
    Ok(image && saved && clean && film && strict && framed && share && full && loaded)
}
