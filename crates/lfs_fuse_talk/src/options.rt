//! What the arguments of `lfs_fuse` ask for.

ghost use Rattle.std.specs.Prelude.{IfErr, IfOk, IsErrAnd};
ghost use Rattle.clap.specs.Values.{kind_of};
ghost use Rattle.lfs_command.specs.Ends.{IsRefusal};
ghost use Rattle.lfs_fuse_talk.specs.Ranges.{IsInRange};

use clap::{ArgMatches, Command, Error};
use lfs_command::flags::{FlagOption, SERIALS};
use lfs_command::numbers::NumberOption;
use lfs_command::refusing::wrong_value;
use lfs_command::texts::{IMAGE, TextOption};
use lfs_command::words::{WordsFault, matches_of};
use lfs_types::store::Params;
use std::alloc::{AllocError, Global};
use std::convert::AsStr;

const SEGMENTS: NumberOption = NumberOption {
    name: "segments",
    least: 6,
    most: 1024,
    default: 1024,
    help: "How many segments of 32,768 bytes the log has, 6 to 1024; by default 1024",
    refusal: "--segments takes a number of decimal digits alone, from 6 to 1024",
};

const INODES: NumberOption = NumberOption {
    name: "inodes",
    least: 16,
    most: 4096,
    default: 4096,
    help: "How many inode numbers the volume has, 16 to 4096; by default 4096",
    refusal: "--inodes takes a number of decimal digits alone, from 16 to 4096",
};

const FRAMES: NumberOption = NumberOption {
    name: "frames",
    least: 32,
    most: 1024,
    default: 1024,
    help: "How many blocks of 512 bytes the cache holds, 32 to 1024; by default 1024",
    refusal: "--frames takes a number of decimal digits alone, from 32 to 1024",
};

const JOURNAL: NumberOption = NumberOption {
    name: "journal",
    least: 512,
    most: 100_000,
    default: 4096,
    help: "How many entries the journal may have in memory, 512 to 100000; by default 4096",
    refusal: "--journal takes a number of decimal digits alone, from 512 to 100000",
};

/// The option for the file of the journal.
const JOURNAL_OUT: TextOption = TextOption {
    name: "journal-out",
    value: "FILE",
    help: "Writes each entry of the journal to FILE, which may not exist, before its reply",
};

/// The option for a recording.
const RECORDED: FlagOption = FlagOption {
    name: "recorded",
    help: "The messages are a recording: a caller has the group of his message alone, each message a second",
};

/// What `--help` tells behind the options.
const MORE: &str =
    "Standard input and output are an open /dev/fuse: examples/mount/mount.sh opens it, and mounts.";

/// What `lfs_fuse` is asked to do.
#[derive(Clone, Copy, Debug)]
pub struct Options<'a> {
    /// The parameters of a fresh volume; of one whose image is loaded the frames and the journal's limit alone.
    pub params: Params,
    /// The file from which the volume is loaded, where there is one, and in which it is saved at the end.
    pub image: Option<&'a str>,
    /// Whether the summaries of a fresh volume have serials, so that it can be found again from its blocks alone; and
    /// whether the volume is over a store that a crash leaves whole.
    pub serials: bool,
    /// The file that is made for the journal's entries, where one is asked for.
    pub journal_out: Option<&'a str>,
    /// Whether the messages are a recording, whose processes are gone.
    pub recorded: bool,
}

/// The options that the words of `lfs_fuse` ask for; the first word is the program's name.
///
/// # Errors
///
/// What the parser tells: for a word that is no option, a number out of its range, words that are no text, and help; or
/// want of memory.
pub fn options_of<'a, S: AsStr>(
    alloc: Global,
    words: Result<&'a [S], WordsFault>,
) -> Result<Options<'a>, Error>
    ensures ranges { IfOk result (λ options. IsInRange options.params) }
    ensures unread { IfErr words.entry (λ _. IsErrAnd result (λ error. IsRefusal (kind_of error))) }
{
    let mut command = command(alloc)?;
    let matches = matches_of(&mut command, words)?;
    let params = match params_in(&matches) {
        Ok(params) => params,
        Err(refusal) => return Err(wrong_value(&mut command, refusal)),
    };
    let image = IMAGE.text(&matches);
    let serials = matches.get_flag(SERIALS.name);
    let journal_out = JOURNAL_OUT.text(&matches);
    let recorded = matches.get_flag(RECORDED.name);
    Ok(Options {
        params,
        image,
        serials,
        journal_out,
        recorded,
    })
}

/// The parameters that the matches ask for, or what is told of the first that is refused.
fn params_in(matches: &ArgMatches<'_>) -> Result<Params, &'static str>
    ensures { IfOk result IsInRange }
{
    let segments = SEGMENTS.number(matches)?;
    let inodes = INODES.number(matches)?;
    let frames = FRAMES.number(matches)?;
    let journal = JOURNAL.number(matches)?;
    Ok(Params {
        segments,
        inodes,
        frames,
        journal,
    })
}

/// The options of `lfs_fuse`.
fn command<'a>(alloc: Global) -> Result<Command<'a>, AllocError> {
    Command::new(alloc, "lfs_fuse")
        .about("Serves a mount of a volume in memory to the kernel, by the FUSE protocol")
        .after_help(MORE)
        .arg(SEGMENTS.arg(alloc))?
        .arg(INODES.arg(alloc))?
        .arg(FRAMES.arg(alloc))?
        .arg(JOURNAL.arg(alloc))?
        .arg(JOURNAL_OUT.arg(alloc))?
        .arg(IMAGE.arg(alloc))?
        .arg(SERIALS.arg(alloc))?
        .arg(RECORDED.arg(alloc))
}
