//! The names that a directory lists, as a set.

ghost use Rattle.std.specs.Prelude.{◌≡◌, ℕ, List, ◌||◌, not, false, IfOk, bytes_eq};
ghost use Rattle.lfs_trees.specs.Walks.{has};

use std::alloc::{AllocError, Global};
use std::collections::BTreeSet;

/// The names that were read of a directory so far.
#[derive(Drop)]
pub(crate) struct Names {
    names: BTreeSet<Vec<u8>>,
}

impl Names {
    /// No names.
    pub(crate) fn new(alloc: Global) -> Names
        ensures { (name : List ℕ) → has result name ≡ false }
    {
        Names {
            names: BTreeSet::new(alloc),
        }
    }

    /// Puts a name in, and says whether it is a new one.
    pub(crate) fn insert(&mut self, alloc: Global, name: &[u8]) -> Result<bool, AllocError>
        ensures added { IfOk result (λ added. added ≡ not (has self.old name.now)) }
        ensures others { IfOk result (λ added. (other : List ℕ)
            → has self.new other ≡ (bytes_eq name.now other || has self.old other)) }
    {
        let name = Vec::from_slice(alloc, name)?;
        Ok(self.names.insert(name)?)
    }
}
