//! Runs of `lfs_shell` and of `lfsd` over the files of the folder where the program runs, with all their options at once, and
//! by which status they end: 0; 1 by the fault of a script; 2 by words that are refused, by a script that is not there, and by
//! a journal's file that is.

use crate::shell::{Ended, Words};
use lfs_command::streams::Streams;
use lfs_programs::server::lfsd;
use lfs_programs::shell::lfs_shell;
use std::fs;
use std::os::unix::fs::FileExt;
use std::rt::Files;
use std::sync::Wait;
use std::thread::Threads;

/// The file of the lines.
const SCRIPT: &str = "statuses.lfs";

/// The file of the journal.
const JOURNAL: &str = "statuses.journal";

/// The file of the image.
const IMAGE: &str = "statuses.img";

/// The file of the film.
const FILM: &str = "statuses.html";

/// Which program is run.
#[derive(Clone, Copy)]
enum Program {
    /// `lfsd`.
    Server,
    /// `lfs_shell`.
    Shell,
}

/// Runs a program with these words, behind its name, on this input.
fn run<R>(rt: &R, program: Program, words: &[&str], stdin: &mut &[u8]) -> Ended
where
    R: Files + AllocGlobal + Threads + Wait + Sync,
    R::File: FileExt,
{
    let alloc = rt.alloc();
    let mut streams = Streams {
        stdin,
        stdout: Vec::new(alloc),
        stderr: Vec::new(alloc),
    };
    let env = (Words { words }, alloc);
    let status = match program {
        Program::Server => lfsd(&env, rt, rt, &mut streams),
        Program::Shell => lfs_shell(&env, rt, &mut streams),
    };
    Ended {
        status,
        out: streams.stdout,
        err: streams.stderr,
    }
}

/// Whether a run ended so: with this status, and these bytes on its streams.
fn has_ended(ended: &Ended, status: u8, out: &str, err: &str) -> bool {
    ended.status == status
        && ended.out.as_slice() == out.as_bytes()
        && ended.err.as_slice() == err.as_bytes()
}

/// Removes what runs leave, where it is there.
fn clear<R: Files>(rt: &R) {
    for path in [SCRIPT, JOURNAL, IMAGE, FILM] {
        let _ = fs::remove_file(rt, path);
    }
}

/// All options of `lfs_shell`.
const ALL_OF_SHELL: [&str; 19] = [
    "lfs_shell",
    "--segments",
    "6",
    "--inodes",
    "16",
    "--frames",
    "32",
    "--journal",
    "128",
    "--journal-out",
    JOURNAL,
    "--image",
    IMAGE,
    "--share",
    "--clean",
    "--film=statuses.html",
    "--strict",
    "--framed",
    SCRIPT,
];

/// Lines without a fault, and one with a fault that is not heard.
const TALK: &str = "create /a 0644\nas 7 7\nstat /a\nunlink /a\n.quit\nnonsense\n";

/// What is told of them, each answer behind the count of its lines.
const TALKED: &str = "1\n0 ok\n0\n1\n0 stat 4 file 0 0 0644 00000000 0\n\
    1\n0 denied M2 EACCES 0 0\n\
    6\nentries 3\nserved 2\ndenied 1\nrefused 0\ncleaner 0\nrule M2 1\n";

/// The lines of their entries.
const ENTRIES: &str = "#1 0 as 0 0 | create /a 0644 | ok\n\
    #2 0 as 7 7 | stat /a | stat 4 file 0 0 0644 00000000 0\n\
    #3 0 as 7 7 | unlink /a | denied M2 EACCES 0 0\n";

/// Words of a talk that goes on from the image, and what it is told of the file.
const ON: [&str; 2] = ["lfs_shell", "--image=statuses.img"];

const STILL_THERE: &str = "0 stat 4 file 0 0 0644 00000000 0\n\
    entries 1\nserved 1\ndenied 0\nrefused 0\ncleaner 0\n";

/// Whether a talk with all options ends with status 0, each with its effect: the lines are those of the file, standard input
/// isn't read, the journal's file has the entries, the film is a page, and another talk goes on from the image.
fn takes_all_of_shell<R>(rt: &R) -> anyhow::Result<bool>
where
    R: Files + AllocGlobal + Threads + Wait + Sync,
    R::File: FileExt,
{
    clear(rt);
    fs::write(rt, SCRIPT, TALK)?;
    let mut input = b"nonsense\n".as_slice();
    let ended = run(rt, Program::Shell, &ALL_OF_SHELL, &mut input);
    let journal = fs::read_to_string(rt, JOURNAL)?;
    let film = fs::read_to_string(rt, FILM)?;
    let mut more = b"stat /a\n".as_slice();
    let on = run(rt, Program::Shell, &ON, &mut more);
    clear(rt);
    Ok(
        has_ended(&ended, 0, TALKED, "")
            && input == b"nonsense\n".as_slice()
            && journal.as_str() == ENTRIES
            && film.as_str().ends_with("</html>\n")
            && has_ended(&on, 0, STILL_THERE, ""),
    )
}

/// All options of `lfsd`.
const ALL_OF_SERVER: [&str; 13] = [
    "lfsd",
    "--threads",
    "--segments",
    "6",
    "--inodes",
    "16",
    "--frames",
    "32",
    "--journal",
    "128",
    "--journal-out",
    JOURNAL,
    SCRIPT,
];

/// A script of one session behind the setup, and what its calls are answered.
const SESSION: &str = "create /a 0666\nsession 1\nas 7 7\nwrite /a at 0 6869\nread /a 0 2\n";

const ANSWERED: &str = "0 ok\n1 ok\n1 bytes 6869\n";

/// The lines of its entries, between which those of the cleaner may stand, each behind its number.
const SET_UP: &str = "#1 0 as 0 0 | create /a 0666 | ok\n#2 ";

const WRITTEN: &str = " 1 as 7 7 | write /a at 0 6869 | ok\n";

const READ: &str = " 1 as 7 7 | read /a 0 2 | bytes 6869\n";

/// Whether a run with all options ends with status 0, and the journal's file has the entries.
fn takes_all_of_server<R>(rt: &R) -> anyhow::Result<bool>
where
    R: Files + AllocGlobal + Threads + Wait + Sync,
    R::File: FileExt,
{
    clear(rt);
    fs::write(rt, SCRIPT, SESSION)?;
    let mut input = b"nonsense\n".as_slice();
    let ended = run(rt, Program::Server, &ALL_OF_SERVER, &mut input);
    let journal = fs::read_to_string(rt, JOURNAL)?;
    clear(rt);
    let lines = journal.as_str();
    Ok(
        ended.is_done()
            && ended.answers() == ANSWERED
            && input == b"nonsense\n".as_slice()
            && lines.starts_with(SET_UP)
            && lines.contains(WRITTEN)
            && lines.contains(READ),
    )
}

/// Words that ask for a run of the file's script with a file of its journal.
const FILED: [&str; 3] = ["lfsd", "--journal-out=statuses.journal", SCRIPT];

/// What is told of a script whose second line is none.
const FAULT: &str = "lfsd: script line 2: Words 'nonsense' at 1: no line begins so\n";

/// Whether a fault of a script ends a run with status 1, with nothing on standard output, and no journal's file is made.
fn ends_by_a_fault<R>(rt: &R) -> anyhow::Result<bool>
where
    R: Files + AllocGlobal + Threads + Wait + Sync,
    R::File: FileExt,
{
    clear(rt);
    fs::write(rt, SCRIPT, "create /a 0644\nnonsense\n")?;
    let ended = run(rt, Program::Server, &FILED, &mut b"".as_slice());
    let is_made = fs::exists(rt, JOURNAL)?;
    clear(rt);
    Ok(has_ended(&ended, 1, "", FAULT) && !is_made)
}

/// Words that end a program with status 2, and what is told: a number below the least, a script that is not there, and a
/// journal's file that is.
const REFUSED: [(Program, &[&str], &str); 6] = [
    (
        Program::Server,
        &["lfsd", "--segments=5"],
        "error: invalid value '5' for '--segments <N>': 5 is not in 6..=1024\n\n\
        For more information, try '--help'.\n",
    ),
    (
        Program::Shell,
        &["lfs_shell", "--frames", "1025"],
        "error: invalid value '1025' for '--frames <N>': 1025 is not in 32..=1024\n\n\
        For more information, try '--help'.\n",
    ),
    (
        Program::Server,
        &["lfsd", "statuses.none"],
        "lfsd: statuses.none not opened: entity not found\n",
    ),
    (
        Program::Shell,
        &["lfs_shell", "statuses.none"],
        "lfs_shell: statuses.none not opened: entity not found\n",
    ),
    (Program::Server, &FILED, "lfsd: journal file exists\n"),
    (
        Program::Shell,
        &["lfs_shell", "--journal-out=statuses.journal"],
        "lfs_shell: journal file exists\n",
    ),
];

/// What stands in a journal's file that is there.
const KEPT: &str = "#1 0 as 0 0 | sync | ok\n";

/// Whether such words end a program with status 2, with nothing read or written but why, and the file is left as it is.
fn refuses<R>(rt: &R) -> anyhow::Result<bool>
where
    R: Files + AllocGlobal + Threads + Wait + Sync,
    R::File: FileExt,
{
    clear(rt);
    fs::write(rt, SCRIPT, "stat /\n")?;
    fs::write(rt, JOURNAL, KEPT)?;
    let mut all = true;
    for (program, words, told) in REFUSED {
        let mut input = b"stat /\n".as_slice();
        let ended = run(rt, program, words, &mut input);
        all = all && has_ended(&ended, 2, "", told) && input == b"stat /\n".as_slice();
    }
    let journal = fs::read_to_string(rt, JOURNAL)?;
    clear(rt);
    Ok(all && journal.as_str() == KEPT)
}

/// Tells of each of these whether it is so. Whether all are.
pub(crate) fn are_as_told<R>(rt: &R) -> anyhow::Result<bool>
where
    R: Files + AllocGlobal + Print + Threads + Wait + Sync,
    R::File: FileExt,
{
    let shell = takes_all_of_shell(rt)?;
    println!(rt; "lfs_shell with all its options: status 0, {shell}")?;
    let server = takes_all_of_server(rt)?;
    println!(rt; "lfsd with all its options: status 0, {server}")?;
    let fault = ends_by_a_fault(rt)?;
    println!(rt; "lfsd of a script with a fault: status 1, {fault}")?;
    let refused = refuses(rt)?;
    println!(rt; "words, scripts and files that are refused: status 2, {refused}")?;
    Ok(shell && server && fault && refused)
}
