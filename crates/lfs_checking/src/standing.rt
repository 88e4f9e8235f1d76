//! A check of a store that runs, as of the image that it would be saved as.

ghost use Rattle.std.specs.Prelude.{◌≡◌, ℕ, List, codes, IfOk};
ghost use Rattle.lfs_calls.specs.Volumes.{HasWorld};
ghost use Rattle.lfs_parts.specs.Store.{IsStore};
ghost use Rattle.lfs_logstore.specs.States.{state_of};
ghost use Rattle.lfs_checking.specs.Standing.{IsCheckTold, waits};

use crate::saving::image_of;
use crate::verdict::verdict;
use lfs_logstore::LogStore;
use lfs_types::level::Level;
use lfs_types::store::FileStore;
use std::alloc::{AllocError, Global};

/// A store whose log and names can be checked while it runs. A check changes nothing.
pub trait ChecksLog: FileStore {
    /// What a check of it may tell.
    ghost checked: { Self → List ℕ → Type 0 };

    /// What a check of it tells, at a securelevel, of a volume whose names it keeps.
    fn check(&self, alloc: Global, level: Level) -> Result<Vec<u8>, AllocError>
        ensures { IfOk result (λ text. HasWorld (Self.state self.now) → checked self.now text.items) };
}

impl ChecksLog for LogStore {
    ghost use Rattle.lfs_checking.specs.Standing.{IsCheckTold};

    ghost checked = { IsCheckTold };

    fn check(&self, alloc: Global, level: Level) -> Result<Vec<u8>, AllocError> {
        check_store(alloc, self, level)
    }
}

/// What a check of a store tells at a securelevel: while something waits, that a sync comes first; else what
/// `lfs_check` tells of its image, which is read back for that. So it takes memory for the image, and for a store
/// besides.
pub fn check_store(alloc: Global, store: &LogStore, level: Level) -> Result<Vec<u8>, AllocError>
    ensures { IfOk result (λ text. HasWorld (state_of store.now) → IsCheckTold store.now text.items) }
{
    if is_waiting(store) {
        return waiting_text(alloc);
    }
    let image = image_of(alloc, store, level)?;
    let verdict = verdict(alloc, image.as_slice())?;
    Ok(verdict.text)
}

/// Whether something waits to be written.
fn is_waiting(store: &LogStore) -> bool
    ensures waits { result ≡ waits store.now }
    ensures store { IsStore store.now }
{
    let parts = store.parts();
    parts.cache.locked_count() > 0 || parts.waiting.len() > 0
}

/// What a check tells while something waits.
fn waiting_text(alloc: Global) -> Result<Vec<u8>, AllocError>
    ensures { IfOk result (λ text. text.items ≡ codes "waiting: sync comes first\n") }
{
    let mut text = Vec::new(alloc);
    text.extend_from_slice(b"waiting: sync comes first\n")?;
    Ok(text)
}
