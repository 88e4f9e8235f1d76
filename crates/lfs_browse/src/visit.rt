//! A call of a walk through a tree.

ghost use Rattle.std.specs.Prelude.{◌≡◌, IfOk};
ghost use Rattle.lfs_browse.specs.Trees.{call_of, is_directory, shows_directory};

use lfs_types::answer::{Answer, Served};
use lfs_types::attrs::Kind;
use lfs_types::name::Name;
use lfs_types::path::Path;
use lfs_types::request::Request;
use std::alloc::{AllocError, Global};

/// A call of a walk through a tree.
#[derive(Drop)]
pub(crate) enum Visit {
    /// A Stat of the file at a path, which has this name.
    Entry(Path, Name),
    /// A List of the directory at a path.
    Names(Path),
}

impl Visit {
    /// The call.
    ///
    /// # Errors
    ///
    /// Memory ran out.
    pub(crate) fn request(&self, alloc: Global) -> Result<Request, AllocError>
        ensures { IfOk result (λ request. request ≡ call_of self.now) }
    {
        match self {
            Visit::Entry(path, _) => Ok(Request::Stat {
                path: path.try_clone(alloc)?,
            }),
            Visit::Names(path) => Ok(Request::List {
                path: path.try_clone(alloc)?,
            }),
        }
    }
}

/// Whether a Stat showed a directory.
pub(crate) fn shows_directory(answer: &Answer) -> bool
    ensures { result ≡ shows_directory answer.now }
{
    match answer {
        Answer::Served(Served::Stat(_, attrs)) => is_directory(attrs.kind),
        _ => false,
    }
}

/// Whether it is a directory.
fn is_directory(kind: Kind) -> bool
    ensures { result ≡ is_directory kind }
{
    match kind {
        Kind::File => false,
        Kind::Directory => true,
    }
}
