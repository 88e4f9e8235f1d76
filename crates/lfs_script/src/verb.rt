//! The first words of lines.

ghost use Rattle.std.specs.Prelude.{◌≡◌};
ghost use Rattle.lfs_script.specs.Verbs.{request_word, verb_of};

use lfs_model::journal::CleanerKind;

/// A user's call without what it is given.
#[derive(Clone, Copy)]
pub enum RequestKind {
    /// Shows a file's number and attributes.
    Stat,
    /// Reads bytes.
    Read,
    /// Puts bytes into a file.
    Write,
    /// Lists the names in a directory.
    List,
    /// Cuts a file, or adds zeros to it.
    SetLength,
    /// Makes an empty file.
    Create,
    /// Makes an empty directory.
    Mkdir,
    /// Removes a file.
    Unlink,
    /// Removes an empty directory.
    Rmdir,
    /// Gives another name.
    Rename,
    /// Sets the mode.
    Chmod,
    /// Sets the owner and the group.
    Chown,
    /// Sets the flags.
    Chflags,
    /// Sets the securelevel.
    SetLevel,
    /// Writes what waits to be written.
    Sync,
}

/// What a line does, as its first word says.
#[derive(Clone, Copy)]
pub enum Verb {
    /// Names the session of the lines that follow.
    Session,
    /// Names the caller of the lines that follow.
    As,
    /// A user's call.
    User(RequestKind),
    /// A call of the cleaner.
    Cleaner(CleanerKind),
    /// A pass of the cleaner.
    Pass,
}

impl Verb {
    /// The verb that a word names. Those of most lines come first, as a word is compared with one after the other.
    pub fn of(word: &str) -> Option<Verb>
        ensures { result ≡ verb_of word.now }
    {
        let verb = match word {
            "write" => Verb::User(RequestKind::Write),
            "read" => Verb::User(RequestKind::Read),
            "stat" => Verb::User(RequestKind::Stat),
            "create" => Verb::User(RequestKind::Create),
            "unlink" => Verb::User(RequestKind::Unlink),
            "rename" => Verb::User(RequestKind::Rename),
            "as" => Verb::As,
            "list" => Verb::User(RequestKind::List),
            "length" => Verb::User(RequestKind::SetLength),
            "mkdir" => Verb::User(RequestKind::Mkdir),
            "rmdir" => Verb::User(RequestKind::Rmdir),
            "chmod" => Verb::User(RequestKind::Chmod),
            "chown" => Verb::User(RequestKind::Chown),
            "chflags" => Verb::User(RequestKind::Chflags),
            "level" => Verb::User(RequestKind::SetLevel),
            "sync" => Verb::User(RequestKind::Sync),
            "session" => Verb::Session,
            "ifile" => Verb::Cleaner(CleanerKind::Ifile),
            "infos" => Verb::Cleaner(CleanerKind::Infos),
            "bmapv" => Verb::Cleaner(CleanerKind::Bmapv),
            "markv" => Verb::Cleaner(CleanerKind::Markv),
            "segclean" => Verb::Cleaner(CleanerKind::Segclean),
            "gain" => Verb::Cleaner(CleanerKind::Gain),
            "pass" => Verb::Pass,
            _ => return None,
        };
        Some(verb)
    }
}

/// The word of a user's call.
pub(crate) fn request_word(kind: RequestKind) -> &'static str
    ensures { result.now ≡ request_word kind }
{
    match kind {
        RequestKind::Stat => "stat",
        RequestKind::Read => "read",
        RequestKind::Write => "write",
        RequestKind::List => "list",
        RequestKind::SetLength => "length",
        RequestKind::Create => "create",
        RequestKind::Mkdir => "mkdir",
        RequestKind::Unlink => "unlink",
        RequestKind::Rmdir => "rmdir",
        RequestKind::Rename => "rename",
        RequestKind::Chmod => "chmod",
        RequestKind::Chown => "chown",
        RequestKind::Chflags => "chflags",
        RequestKind::SetLevel => "level",
        RequestKind::Sync => "sync",
    }
}
