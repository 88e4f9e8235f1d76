//! Room for a further journal.

ghost use Rattle.std.specs.Prelude.{◌≡◌, ◌≤◌, [], IfOk};
ghost use Rattle.std.specs.Vec.{vec_capacity};

use lfs_model::journal::Entry;
use std::alloc::{AllocError, Global};

/// The room of a journal whose entries were handed out, for the one that goes on. It has no entries.
#[derive(Drop)]
pub struct SpareRoom {
    entries: Vec<Entry>,
    ghost empty: { entries.items ≡ [] },
}

impl SpareRoom {
    /// No room.
    pub fn none(alloc: Global) -> SpareRoom {
        SpareRoom {
            entries: Vec::new(alloc),
        }
    }

    /// Gives room for so many entries, without any: what there is, where it is enough.
    ///
    /// # Errors
    ///
    /// There was not enough, and no memory for it.
    pub fn take(&mut self, limit: u32) -> Result<Vec<Entry>, AllocError>
        ensures { IfOk result (λ room. (room.items ≡ []) × (limit ≤ vec_capacity room)) }
    {
        let alloc = *self.entries.allocator();
        let room = std::mem::replace(&mut self.entries, Vec::new(alloc));
        if room.capacity() >= limit as usize {
            return Ok(room);
        }
        Vec::with_capacity(alloc, limit as usize)
    }

    /// Keeps the room of entries that are done with.
    pub fn keep(&mut self, mut entries: Vec<Entry>) {
        entries.clear();
        self.entries = entries;
    }
}
