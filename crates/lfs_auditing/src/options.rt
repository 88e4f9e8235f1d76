//! What the arguments of `lfs_audit_trail` ask for.

ghost use Rattle.std.specs.Prelude.{IfErr, IfOk, IsErrAnd};
ghost use Rattle.clap.specs.Values.{kind_of};
ghost use Rattle.lfs_command.specs.Ends.{IsRefusal};
ghost use Rattle.lfs_command.specs.Ranges.{IsBetween};
ghost use Rattle.lfs_auditing.specs.Ranges.{IsInRange};

use clap::{ArgMatches, Command, Error};
use lfs_command::flags::FlagOption;
use lfs_command::numbers::NumberOption;
use lfs_command::operands::Operand;
use lfs_command::refusing::wrong_value;
use lfs_command::texts::TextOption;
use lfs_command::words::{WordsFault, matches_of};
use lfs_trace::errors::Denials;
use lfs_types::path::{BadPath, Path};
use std::alloc::{AllocError, Global};
use std::convert::AsStr;

const SEGMENTS: NumberOption = NumberOption {
    name: "segments",
    least: 6,
    most: 1024,
    default: 64,
    help: "How many segments the log of the volume had, 6 to 1024; by default 64",
    refusal: "--segments takes a number of decimal digits alone, from 6 to 1024",
};

const INODES: NumberOption = NumberOption {
    name: "inodes",
    least: 16,
    most: 4096,
    default: 256,
    help: "How many inode numbers the volume had, 16 to 4096; by default 256",
    refusal: "--inodes takes a number of decimal digits alone, from 16 to 4096",
};

/// The option for the file of an image.
const FROM: TextOption = TextOption {
    name: "from",
    value: "IMAGE",
    help: "Begins at the tree and the securelevel of the volume whose image this file has; the numbers are its too",
};

/// The option for a path.
const WHO: TextOption = TextOption {
    name: "who",
    value: "PATH",
    help: "Tells who could make which call by this path at the end, over all users and groups",
};

/// The option that has error names alone compared, for a journal of another system.
const ERRORS: FlagOption = FlagOption {
    name: "errors",
    help: "Compares of a denial its error name alone, as other systems tell no rule and no place",
};

/// The option that has the report told as JSON.
const JSON: FlagOption = FlagOption {
    name: "json",
    help: "Tells what is found as a JSON object in a line",
};

/// The word for the file of the journal.
const JOURNAL: Operand = Operand {
    name: "journal",
    value: "JOURNAL",
    help: "The file of the journal; without it, the journal is read from standard input",
};

/// What is told of a text that is no path.
const WHO_REFUSAL: &str = "--who takes a path of the volume, which begins with a slash";

/// What is told of numbers beside an image.
const FROM_REFUSAL: &str =
    "with --from the numbers are those of the image, so neither --inodes nor --segments is taken";

/// What `--help` tells behind the options.
const MORE: &str =
    "Status 0: each entry is legal behind those before it; 1: one isn't, or a line tells none, or a fault;
2: wrong arguments. The numbers are those that the volume was made with; without --from it was fresh when the journal
began.

Example: printf '0 as 0 0 | create /a 0644 | ok\\n' | lfs_audit_trail";

/// What `lfs_audit_trail` is asked to do.
#[derive(Drop, Debug)]
pub struct Options<'a> {
    /// How many inode numbers the volume had, where no image is named.
    pub inodes: u32,
    /// How many segments its log had, where no image is named.
    pub segments: u32,
    /// The file of the image of the volume as it was when the journal began, where it didn't begin with a fresh one.
    pub from: Option<&'a str>,
    /// The file of the journal, where one is named.
    pub journal: Option<&'a str>,
    /// The path of which is told who could act by it at the end, where one is asked of.
    pub who: Option<Path>,
    /// What is compared of denials.
    pub denials: Denials,
    /// Whether what is found is told as JSON.
    pub json: bool,
}

/// The options that words ask for; the first word is the program's name.
///
/// # Errors
///
/// What the parser tells, with its exit code: 2 for a word that is no option, a number out of its range and words that
/// are no text, 0 for `--help`; or want of memory.
pub fn options_of<'a, S: AsStr>(
    alloc: Global,
    words: Result<&'a [S], WordsFault>,
) -> Result<Options<'a>, Error>
    ensures ranges { IfOk result IsInRange }
    ensures unread { IfErr words.entry (λ _. IsErrAnd result (λ error. IsRefusal (kind_of error))) }
{
    let mut command = command(alloc)?;
    let matches = matches_of(&mut command, words)?;
    let (inodes, segments) = match numbers_in(&matches) {
        Ok(numbers) => numbers,
        Err(refusal) => return Err(wrong_value(&mut command, refusal)),
    };
    let who = match path_in(alloc, &matches) {
        Ok(who) => who,
        Err(BadPath::Memory) => return Err(AllocError.into()),
        Err(_) => return Err(wrong_value(&mut command, WHO_REFUSAL)),
    };
    let journal = JOURNAL.text(&matches);
    let from = FROM.text(&matches);
    Ok(Options {
        inodes,
        segments,
        from,
        journal,
        who,
        denials: denials_in(&matches),
        json: matches.get_flag(JSON.name),
    })
}

/// The path that the matches ask of, if they do.
fn path_in(alloc: Global, matches: &ArgMatches<'_>) -> Result<Option<Path>, BadPath> {
    match WHO.text(matches) {
        Some(text) => Ok(Some(Path::parse(alloc, text)?)),
        None => Ok(None),
    }
}

/// What the matches ask to compare of denials.
fn denials_in(matches: &ArgMatches<'_>) -> Denials {
    if matches.get_flag(ERRORS.name) {
        Denials::ByError
    } else {
        Denials::Whole
    }
}

/// The inode numbers and the segments that the matches ask for, or what is told of the first that is refused.
fn numbers_in(matches: &ArgMatches<'_>) -> Result<(u32, u32), &'static str>
    ensures inodes { IfOk result (λ numbers. IsBetween 16 4096 numbers.0) }
    ensures segments { IfOk result (λ numbers. IsBetween 6 1024 numbers.1) }
{
    if matches.contains_id(FROM.name) && has_numbers(matches) {
        return Err(FROM_REFUSAL);
    }
    let inodes = INODES.number(matches)?;
    let segments = SEGMENTS.number(matches)?;
    Ok((inodes, segments))
}

/// Whether the matches have one of the numbers.
fn has_numbers(matches: &ArgMatches<'_>) -> bool {
    matches.contains_id(INODES.name) || matches.contains_id(SEGMENTS.name)
}

/// The command line.
fn command<'a>(alloc: Global) -> Result<Command<'a>, AllocError> {
    Command::new(alloc, "lfs_audit_trail")
        .about(
            "Reads the lines of a journal, says whether each entry is one that the rules allow, and reports who did what",
        )
        .after_help(MORE)
        .arg(INODES.arg(alloc))?
        .arg(SEGMENTS.arg(alloc))?
        .arg(FROM.arg(alloc))?
        .arg(WHO.arg(alloc))?
        .arg(ERRORS.arg(alloc))?
        .arg(JSON.arg(alloc))?
        .arg(JOURNAL.arg(alloc))
}
