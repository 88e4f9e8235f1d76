//! The parts of a store, for one who looks at its log.

ghost use Rattle.std.specs.Prelude.{◌≡◌};
ghost use Rattle.lfs_parts.specs.Store.{IsStore};

use crate::store::LogStore;
use lfs_parts::parts::Parts;

impl LogStore {
    /// The parts of the store, to be read.
    pub fn parts(&self) -> &Parts
        ensures parts { result.now ≡ self.now }
        ensures store { IsStore self.now }
    {
        &self.parts
    }
}
