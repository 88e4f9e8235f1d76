//! The path of an entry of a directory.

ghost use Rattle.std.specs.Prelude.{◌≡◌, false, true, IfOk, MatchOption};
ghost use Rattle.lfs_browse.specs.Listing.{entry_path, has_path};

use lfs_types::name::{Name, clone_names};
use lfs_types::path::Path;
use std::alloc::{AllocError, Global};

/// The path of an entry of a directory, where its text has at most 1,024 bytes.
///
/// # Errors
///
/// Memory ran out.
pub(crate) fn entry(
    alloc: Global,
    directory: &Path,
    name: &Name,
) -> Result<Option<Path>, AllocError>
    ensures { IfOk result (λ entry. MatchOption entry
        (has_path directory.now name.now ≡ false)
        (λ path. (has_path directory.now name.now ≡ true)
        × (path ≡ entry_path directory.now name.now))) }
{
    let mut names = clone_names(alloc, directory.names())?;
    names.push(name.try_clone(alloc)?)?;
    Ok(Path::from_names(names))
}
