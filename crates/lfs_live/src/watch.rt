//! One who looks on at a talk.

ghost use Rattle.std.specs.Prelude.{OnOk};
ghost use Rattle.lfs_types.specs.declared.level.Level.{Level};

use lfs_types::level::Level;
use lfs_types::store::FileStore;
use std::alloc::{AllocError, Global};

/// Why a volume is not kept in its file.
#[derive(Clone, Copy, PartialEq, Eq, Debug)]
pub enum WatchFault {
    /// The file did not get it, and has what it had.
    Unwritten,
    /// A growth was refused.
    Memory,
}

/// One who is shown a store of type `F` behind each line that was answered, and keeps it in a file where a line asks
/// for that. It changes nothing of the talk.
pub trait Watch<F: FileStore> {
    /// A file has what this store and this securelevel are.
    ghost kept: { F → Level → Type 0 };

    /// Whether there is a file to keep the volume in.
    fn has_file(&self) -> bool;

    /// Keeps a store of which nothing waits, and a securelevel, in the file.
    ///
    /// # Errors
    ///
    /// There is none, or it is not written; `Memory`.
    fn keep(&self, alloc: Global, store: &F, level: Level) -> Result<(), WatchFault>
        requires { F.is_flushed store.now }
        ensures { OnOk result (kept store.now level) };

    /// Is shown a line without its line feed, the text that was told of it, and the store as the line left it.
    ///
    /// # Errors
    ///
    /// Memory ran out, which ends the talk.
    fn watch(
        &mut self,
        alloc: Global,
        line: &[u8],
        told: &[u8],
        store: &F,
    ) -> Result<(), AllocError>;
}

/// Nobody, who watches nothing and keeps nothing.
#[derive(Clone, Copy, Debug, Drop)]
pub struct Nobody;

impl<F: FileStore> Watch<F> for Nobody {
    ghost kept = { λ store level. ⊥ };

    fn has_file(&self) -> bool {
        false
    }

    fn keep(&self, _alloc: Global, _store: &F, _level: Level) -> Result<(), WatchFault> {
        Err(WatchFault::Unwritten)
    }

    fn watch(
        &mut self,
        _alloc: Global,
        _line: &[u8],
        _told: &[u8],
        _store: &F,
    ) -> Result<(), AllocError> {
        Ok(())
    }
}
