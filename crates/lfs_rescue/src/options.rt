//! What the arguments of `lfs_check` ask for.

ghost use Rattle.std.specs.Prelude.{◌≡◌, IfErr, IfOk, IsErrAnd, IsSome, true};
ghost use Rattle.clap.specs.Values.{kind_of};
ghost use Rattle.lfs_command.specs.Ends.{IsRefusal};

use clap::{Command, Error};
use lfs_command::flags::FlagOption;
use lfs_command::operands::Operand;
use lfs_command::refusing::wrong_value;
use lfs_command::texts::TextOption;
use lfs_command::words::{WordsFault, matches_of};
use std::alloc::{AllocError, Global};
use std::convert::AsStr;

/// The option for blocks in place of an image.
const RECOVER: FlagOption = FlagOption {
    name: "recover",
    help: "IMAGE has the blocks of a volume alone, whose summaries have serials: finds the volume in them",
};

/// The option for the file of the image that is made.
const SAVE: TextOption = TextOption {
    name: "save",
    value: "FILE",
    help: "With --recover, writes the image of the volume that is found to FILE, at the highest securelevel",
};

/// The option for the file of the journal.
const JOURNAL: TextOption = TextOption {
    name: "journal",
    value: "FILE",
    help: "With --recover, tells behind which entry of the volume's journal, whose lines FILE has, the tree that is found stands",
};

/// The word for the file of the image or of the blocks.
const IMAGE: Operand = Operand {
    name: "image",
    value: "IMAGE",
    help: "The file of the image; without it, the image is read from standard input",
};

/// What `--help` tells behind the options.
const MORE: &str =
    "Status 0: the image is that of a volume, or one is found in the blocks, and how full it is is told; 1: it is none,
and why is told in a line, or no legal journal leads to its tree, or a fault; 2: wrong arguments. A journal begins when
the volume was fresh; its lines are those that lfs_audit_trail reads.";

/// What `lfs_check` is asked to do.
#[derive(Clone, Copy, Debug)]
pub struct Options<'a> {
    /// The file that is read, where it is not standard input.
    pub image: Option<&'a str>,
    /// Whether it has the blocks of a volume alone, and the volume is to be found in them.
    pub recovers: bool,
    /// The file that the image of the volume that is found is kept in, where one is asked for.
    pub save: Option<&'a str>,
    /// The file of the volume's journal, where it is asked at which place of it the tree that is found stands.
    pub journal: Option<&'a str>,
}

/// The options that words ask for; the first word is the program's name.
///
/// # Errors
///
/// What the parser tells, with its exit code: 2 for a word that is no option, for `--save` or `--journal` alone, and for
/// words that are no text, 0 for `--help`; or want of memory.
pub fn options_of<'a, S: AsStr>(
    alloc: Global,
    words: Result<&'a [S], WordsFault>,
) -> Result<Options<'a>, Error>
    ensures saved { IfOk result (λ options. IsSome options.save → options.recovers ≡ true) }
    ensures journaled { IfOk result (λ options. IsSome options.journal
        → options.recovers ≡ true) }
    ensures unread { IfErr words.entry (λ _. IsErrAnd result (λ error. IsRefusal (kind_of error))) }
{
    let mut command = command(alloc)?;
    let matches = matches_of(&mut command, words)?;
    let recovers = matches.get_flag(RECOVER.name);
    let save = SAVE.text(&matches);
    if save.is_some() && !recovers {
        return Err(wrong_value(&mut command, "--save takes --recover"));
    }
    let journal = JOURNAL.text(&matches);
    if journal.is_some() && !recovers {
        return Err(wrong_value(&mut command, "--journal takes --recover"));
    }
    Ok(Options {
        image: IMAGE.text(&matches),
        recovers,
        save,
        journal,
    })
}

/// The command line.
fn command<'a>(alloc: Global) -> Result<Command<'a>, AllocError> {
    Command::new(alloc, "lfs_check")
        .about(
            "Reads the image of a volume, and says whether it is one, and how full it is, or what is wrong with it",
        )
        .after_help(MORE)
        .arg(RECOVER.arg(alloc))?
        .arg(SAVE.arg(alloc))?
        .arg(JOURNAL.arg(alloc))?
        .arg(IMAGE.arg(alloc))
}
