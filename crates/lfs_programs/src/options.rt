//! What the arguments of `lfsd` and of `lfs_shell` ask for.

ghost use Rattle.std.specs.Prelude.{◌≤◌, IfErr, IfOk, IsErrAnd, IsSome};
ghost use Rattle.clap.specs.Values.{kind_of};
ghost use Rattle.lfs_command.specs.Ends.{IsRefusal};
ghost use Rattle.lfs_command.specs.Ranges.{IsBetween};
ghost use Rattle.lfs_programs.specs.Ranges.{IsInRange};

use clap::{Arg, ArgMatches, Command, Error};
use lfs_command::flags::{FlagOption, SERIALS};
use lfs_command::numbers::NumberOption;
use lfs_command::operands::Operand;
use lfs_command::refusing::wrong_value;
use lfs_command::texts::{IMAGE, TextOption};
use lfs_command::words::{WordsFault, matches_of};
use lfs_live::framing::Framing;
use lfs_types::store::Params;
use std::alloc::{AllocError, Global};
use std::convert::AsStr;

const SEGMENTS: NumberOption = NumberOption {
    name: "segments",
    least: 6,
    most: 1024,
    default: 64,
    help: "How many segments of 32,768 bytes the log has, 6 to 1024; by default 64",
    refusal: "--segments takes a number of decimal digits alone, from 6 to 1024",
};

const INODES: NumberOption = NumberOption {
    name: "inodes",
    least: 16,
    most: 4096,
    default: 256,
    help: "How many inode numbers the volume has, 16 to 4096; by default 256",
    refusal: "--inodes takes a number of decimal digits alone, from 16 to 4096",
};

const FRAMES: NumberOption = NumberOption {
    name: "frames",
    least: 32,
    most: 1024,
    default: 64,
    help: "How many blocks of 512 bytes the cache holds, 32 to 1024; by default 64",
    refusal: "--frames takes a number of decimal digits alone, from 32 to 1024",
};

const JOURNAL: NumberOption = NumberOption {
    name: "journal",
    least: 1,
    most: 100_000,
    default: 4096,
    help: "How many entries the journal may have, 1 to 100000; by default 4096",
    refusal: "--journal takes a number of decimal digits alone, from 1 to 100000",
};

/// The journal of `lfs_shell`, which may be longer.
const SHELL_JOURNAL: NumberOption = NumberOption {
    name: "journal",
    least: 1,
    most: 1_000_000,
    default: 100_000,
    help: "How many entries the journal may have, 1 to 1000000; by default 100000",
    refusal: "--journal takes a number of decimal digits alone, from 1 to 1000000",
};

/// The option of `lfsd` for sessions on threads.
const THREADS: FlagOption = FlagOption {
    name: "threads",
    help: "Runs session 0 first, and then each session on a thread of its own, with the cleaner beside them",
};

/// The option for the file of the journal.
const JOURNAL_OUT: TextOption = TextOption {
    name: "journal-out",
    value: "FILE",
    help: "Writes each entry of the journal to FILE, which may not exist; --journal is then at least 128, room for those of a line",
};

/// That of `lfs_shell`.
const SHELL_JOURNAL_OUT: TextOption = TextOption {
    name: "journal-out",
    value: "FILE",
    help: "Writes each entry of the journal to FILE, which may not exist; --journal is then how many are kept in memory",
};

/// The option of `lfs_shell` for a store that refuses what would pass its share of the volume.
const SHARE: FlagOption = FlagOption {
    name: "share",
    help: "Refuses what would take more than a share of the volume, so that cleaning always makes room for all else",
};

/// The option of `lfs_shell` for the file of a disk.
const DISK: TextOption = TextOption {
    name: "disk",
    value: "FILE",
    help: "Has the volume on the disk that FILE is, or on a new one; what was synced is found there again, also after a crash",
};

/// The option of `lfs_shell` for passes of the cleaner that nobody asks for.
const CLEAN: FlagOption = FlagOption {
    name: "clean",
    help: "Has the cleaner make a pass, as session 255, behind each line that leaves at most three segments clean",
};

/// The option of `lfs_shell` for the file of a film.
const FILM: TextOption = TextOption {
    name: "film",
    value: "FILE",
    help: "Writes a film of the log to FILE at the end: a page of HTML with a frame for each line that changed it",
};

/// The option of `lfs_shell` that has a line's fault end it with status 1.
const STRICT: FlagOption = FlagOption {
    name: "strict",
    help: "Ends with status 1 where a line has a fault",
};

/// The option of `lfs_shell` that puts the count of its lines before each answer.
const FRAMED: FlagOption = FlagOption {
    name: "framed",
    help: "Writes before each line's answer a line with the count of its lines, and so before the report",
};

/// The word for the file of a script.
const SCRIPT: Operand = Operand {
    name: "script",
    value: "SCRIPT",
    help: "The file of the lines; without it, they are read from standard input",
};

/// The version of the programs, as `CHANGELOG.md` has it.
const VERSION: &str = "1.0";

/// The least window of a journal that goes to a file: it has room for what a line may ask for.
pub(crate) const LEAST_WINDOW: u32 = 128;

/// The parameters of `lfsd` where no argument says otherwise.
pub const DEFAULTS: Params = Params {
    segments: SEGMENTS.default,
    inodes: INODES.default,
    frames: FRAMES.default,
    journal: JOURNAL.default,
};

/// Those of `lfs_shell`.
pub const SHELL_DEFAULTS: Params = Params {
    journal: SHELL_JOURNAL.default,
    ..DEFAULTS
};

/// What `--help` of `lfsd` tells behind the options.
const MORE: &str = "Example: printf 'create /a 0644\\nstat /a\\n' | lfsd

Read on in README.md: docs/FORMATS.md says how scripts, answers and the report are written, docs/RULES.md which rule
denies what.";

/// What that of `lfs_shell` tells.
const SHELL_MORE: &str = "Example: printf 'create /a 0644\\nstat /a\\n.quit\\n' | lfs_shell

The line .help tells which lines may be said. Read on in README.md: docs/FORMATS.md says how lines and answers are
written, docs/RULES.md which rule denies what.";

/// What `lfsd` is asked to do.
#[derive(Clone, Copy, PartialEq, Eq, Debug)]
pub struct Options<'a> {
    /// The parameters of the volume.
    pub params: Params,
    /// Whether each session runs on a thread of its own.
    pub threads: bool,
    /// The file that the journal's entries are written to, where one is asked for.
    pub journal_out: Option<&'a str>,
    /// The file of the script, where it is not that of standard input.
    pub script: Option<&'a str>,
}

/// The options that the words of `lfsd` ask for; the first word is the program's name.
///
/// # Errors
///
/// What the parser tells, with its exit code: 2 for a word that is no option, a number out of its range and words that
/// are no text, 0 for `--help` and `--version`; or want of memory.
pub fn options_of<'a, S: AsStr>(
    alloc: Global,
    words: Result<&'a [S], WordsFault>,
) -> Result<Options<'a>, Error>
    ensures ranges { IfOk result (λ options. IsInRange 100000 options.params) }
    ensures window { IfOk result (λ options. IsSome options.journal_out
        → 128 ≤ options.params.journal) }
    ensures unread { IfErr words.entry (λ _. IsErrAnd result (λ error. IsRefusal (kind_of error))) }
{
    let mut command = command(alloc)?;
    let matches = matches_of(&mut command, words)?;
    match params_in(&matches, &JOURNAL) {
        Ok(params) => {
            let journal_out = JOURNAL_OUT.text(&matches);
            if journal_out.is_some() && params.journal < LEAST_WINDOW {
                return Err(wrong_value(&mut command, SMALL_WINDOW));
            }
            let threads = matches.get_flag(THREADS.name);
            let script = SCRIPT.text(&matches);
            Ok(Options {
                params,
                threads,
                journal_out,
                script,
            })
        }
        Err(refusal) => Err(wrong_value(&mut command, refusal)),
    }
}

/// What `lfs_shell` is asked to do.
#[derive(Clone, Copy, Debug)]
pub struct ShellOptions<'a> {
    /// The parameters of the volume.
    pub params: Params,
    /// Whether the cleaner makes a pass unasked behind each line that leaves at most three segments clean.
    pub cleans: bool,
    /// The file that the film of the log is written to, where one is asked for.
    pub film: Option<&'a str>,
    /// The file that the journal's entries are written to, where one is asked for.
    pub journal_out: Option<&'a str>,
    /// The file of the lines, where they are not those of standard input.
    pub script: Option<&'a str>,
    /// The file that the volume is loaded from, where there is one, and in which it is kept at the end.
    pub image: Option<&'a str>,
    /// The file of the disk that the volume stands on, where one is asked for.
    pub disk: Option<&'a str>,
    /// Whether the summaries of a fresh volume have serials, so that it can be found again from its blocks alone.
    pub serials: bool,
    /// Whether the files may take no more than a share of the volume, so that cleaning always makes room again.
    pub shares: bool,
    /// Whether the status is 1 where a line has a fault.
    pub strict: bool,
    /// How the answers are framed.
    pub framing: Framing,
}

/// The options that the words of `lfs_shell` ask for; the first word is the program's name.
///
/// # Errors
///
/// As those of `options_of`.
pub fn shell_options_of<'a, S: AsStr>(
    alloc: Global,
    words: Result<&'a [S], WordsFault>,
) -> Result<ShellOptions<'a>, Error>
    ensures ranges { IfOk result (λ options. IsInRange 1000000 options.params) }
    ensures window { IfOk result (λ options. IsSome options.journal_out
        → 128 ≤ options.params.journal) }
    ensures unread { IfErr words.entry (λ _. IsErrAnd result (λ error. IsRefusal (kind_of error))) }
{
    let mut command = shell_command(alloc)?;
    let matches = matches_of(&mut command, words)?;
    match params_in(&matches, &SHELL_JOURNAL) {
        Ok(params) => {
            let film = FILM.text(&matches);
            let journal_out = SHELL_JOURNAL_OUT.text(&matches);
            if journal_out.is_some() && params.journal < LEAST_WINDOW {
                return Err(wrong_value(&mut command, SMALL_WINDOW));
            }
            Ok(ShellOptions {
                params,
                cleans: matches.get_flag(CLEAN.name),
                film,
                journal_out,
                script: SCRIPT.text(&matches),
                image: IMAGE.text(&matches),
                disk: DISK.text(&matches),
                serials: matches.get_flag(SERIALS.name),
                shares: matches.get_flag(SHARE.name),
                strict: matches.get_flag(STRICT.name),
                framing: framing_in(&matches),
            })
        }
        Err(refusal) => Err(wrong_value(&mut command, refusal)),
    }
}

/// What is told of a window that is too small.
const SMALL_WINDOW: &str = "--journal-out takes a --journal of at least 128";

/// The parameters that the matches ask for, with this option for the journal, or what is told of the first that is
/// refused.
fn params_in(matches: &ArgMatches<'_>, journal: &NumberOption) -> Result<Params, &'static str>
    requires default { IsBetween journal.now.least journal.now.most journal.now.default }
    requires from_one { 1 ≤ journal.now.least }
    ensures { IfOk result (IsInRange journal.now.most) }
{
    let segments = SEGMENTS.number(matches)?;
    let inodes = INODES.number(matches)?;
    let frames = FRAMES.number(matches)?;
    let journal = journal.number(matches)?;
    Ok(Params {
        segments,
        inodes,
        frames,
        journal,
    })
}

/// The options of `lfsd`.
fn command<'a>(alloc: Global) -> Result<Command<'a>, AllocError> {
    Command::new(alloc, "lfsd")
        .about("Runs a script of calls on a volume in memory and prints the answers and a report")
        .version(VERSION)
        .after_help(MORE)
        .arg(THREADS.arg(alloc))?
        .arg(SEGMENTS.arg(alloc))?
        .arg(INODES.arg(alloc))?
        .arg(FRAMES.arg(alloc))?
        .arg(JOURNAL.arg(alloc))?
        .arg(JOURNAL_OUT.arg(alloc))?
        .arg(SCRIPT.arg(alloc))
}

/// The options of `lfs_shell`.
fn shell_command<'a>(alloc: Global) -> Result<Command<'a>, AllocError> {
    Command::new(alloc, "lfs_shell")
        .about("Answers calls on a volume in memory, each line before the next is read")
        .version(VERSION)
        .after_help(SHELL_MORE)
        .arg(SEGMENTS.arg(alloc))?
        .arg(INODES.arg(alloc))?
        .arg(FRAMES.arg(alloc))?
        .arg(SHELL_JOURNAL.arg(alloc))?
        .arg(SHELL_JOURNAL_OUT.arg(alloc))?
        .arg(IMAGE.arg(alloc))?
        .arg(disk_arg(alloc)?)?
        .arg(SERIALS.arg(alloc))?
        .arg(SHARE.arg(alloc))?
        .arg(CLEAN.arg(alloc))?
        .arg(FILM.arg(alloc))?
        .arg(STRICT.arg(alloc))?
        .arg(FRAMED.arg(alloc))?
        .arg(SCRIPT.arg(alloc))
}

/// The option for the file of a disk, which goes with none for another kind of volume: on a disk each has serials, and
/// cleaning makes room by no share.
fn disk_arg<'a>(alloc: Global) -> Result<Arg<'a>, AllocError> {
    DISK.arg(alloc)
        .conflicts_with(IMAGE.name)?
        .conflicts_with(SERIALS.name)?
        .conflicts_with(SHARE.name)
}

/// How answers are framed, by the option for it.
fn framing_in(matches: &ArgMatches<'_>) -> Framing {
    if matches.get_flag(FRAMED.name) {
        Framing::Counted
    } else {
        Framing::Plain
    }
}
