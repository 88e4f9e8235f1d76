//! Paths in scripts.

ghost use Rattle.lfs_words.specs.Faults.{ReadsAs};
ghost use Rattle.lfs_words.specs.PathText.{path_of};

use crate::fault::FaultKind;
use lfs_types::path::{BadPath, Path};
use std::alloc::Global;

/// The path that a word spells.
pub fn path_of(alloc: Global, word: &str) -> Result<Path, FaultKind>
    ensures { ReadsAs (path_of word.now) result }
{
    match Path::parse(alloc, word) {
        Ok(path) => Ok(path),
        Err(BadPath::Memory) => Err(FaultKind::Memory),
        Err(fault) => Err(FaultKind::Path(fault)),
    }
}
