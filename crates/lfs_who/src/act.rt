//! What somebody may want to do by a path.

ghost use Rattle.std.specs.Prelude.{◌≡◌, [], IfOk};
ghost use Rattle.lfs_types.specs.declared.request.Request.TheVariants as requests;
ghost use Rattle.lfs_who.specs.Acts.{acts_by, request_of};
ghost use Rattle.lfs_who.specs.WhoText.{act_word};

use lfs_types::attrs::Kind;
use lfs_types::file_flags::FileFlags;
use lfs_types::mode::Mode;
use lfs_types::path::Path;
use lfs_types::payload::Payload;
use lfs_types::request::{Place, Request};
use std::alloc::{AllocError, Global};

/// A call on a path, or a part of calls that have another path besides.
#[derive(Clone, Copy, PartialEq, Eq, Debug)]
pub enum Act {
    /// To look at its attributes.
    Stat,
    /// To go through it, a directory, to a name.
    Search,
    /// To read its bytes.
    Read,
    /// To put no bytes at its start, as one who would change it.
    Write,
    /// To put no bytes at its end.
    Append,
    /// To list its names.
    List,
    /// To make a file there.
    Create,
    /// To take it away, a file.
    Unlink,
    /// To take it away, a directory.
    Rmdir,
    /// To take it out of its directory into another: what a Rename there asks of it and of where it hangs. What it asks
    /// of the other directory is of another path.
    Move,
    /// To set its mode, whatever mode it gets.
    Chmod,
    /// To give it to user 0 and group 0.
    Chown,
    /// To take all its flags from it, at the present securelevel.
    Chflags,
}

/// The acts by a path that leads to a file.
const FILE_ACTS: [Act; 9] = [
    Act::Stat,
    Act::Read,
    Act::Write,
    Act::Append,
    Act::Unlink,
    Act::Move,
    Act::Chmod,
    Act::Chown,
    Act::Chflags,
];

/// The acts by a path that leads to a directory.
const DIRECTORY_ACTS: [Act; 8] = [
    Act::Stat,
    Act::Search,
    Act::List,
    Act::Rmdir,
    Act::Move,
    Act::Chmod,
    Act::Chown,
    Act::Chflags,
];

/// The acts by a path that leads nowhere.
const NEW_ACTS: [Act; 2] = [Act::Stat, Act::Create];

impl Act {
    /// The acts by a path that leads to a file or a directory, or nowhere.
    pub fn all_of(kind: Option<Kind>) -> &'static [Act]
        ensures { result.now ≡ acts_by kind }
    {
        match kind {
            Some(Kind::File) => &FILE_ACTS,
            Some(Kind::Directory) => &DIRECTORY_ACTS,
            None => &NEW_ACTS,
        }
    }

    /// The call that does it by a path; a Stat where none does it alone.
    pub fn request_of(self, alloc: Global, path: &Path) -> Result<Request, AllocError>
        ensures { IfOk result (λ request. request ≡ request_of self path.now) }
    {
        let path = path.try_clone(alloc)?;
        Ok(match self {
            Act::Stat | Act::Search | Act::Move => Request::Stat { path },
            Act::Read => Request::Read {
                path,
                off: 0,
                len: 0,
            },
            Act::Write => empty_write(alloc, path, Place::At(0)),
            Act::Append => empty_write(alloc, path, Place::End),
            Act::List => Request::List { path },
            Act::Create => Request::Create {
                path,
                mode: no_mode(),
            },
            Act::Unlink => Request::Unlink { path },
            Act::Rmdir => Request::Rmdir { path },
            Act::Chmod => Request::Chmod {
                path,
                mode: no_mode(),
            },
            Act::Chown => Request::Chown {
                path,
                uid: 0,
                gid: 0,
            },
            Act::Chflags => Request::Chflags {
                path,
                flags: FileFlags::none(),
            },
        })
    }

    /// Its word.
    pub fn word(self) -> &'static str
        ensures { result.now ≡ act_word self }
    {
        match self {
            Act::Stat => "stat",
            Act::Search => "search",
            Act::Read => "read",
            Act::Write => "write",
            Act::Append => "append",
            Act::List => "list",
            Act::Create => "create",
            Act::Unlink => "unlink",
            Act::Rmdir => "rmdir",
            Act::Move => "move",
            Act::Chmod => "chmod",
            Act::Chown => "chown 0 0",
            Act::Chflags => "chflags 0",
        }
    }
}

/// A Write of no bytes.
fn empty_write(alloc: Global, path: Path, place: Place) -> Request
    ensures { result ≡ requests.Write path place [] }
{
    let Ok(bytes) = Payload::new(Vec::new(alloc)) else {
        // Never: no bytes are few enough.
        unreachable!()
    };
    Request::Write { path, place, bytes }
}

/// The mode without any bit.
fn no_mode() -> Mode
    ensures { result ≡ 0 }
{
    let Some(mode) = Mode::new(0) else {
        // Never: the number is a mode.
        unreachable!()
    };
    mode
}
