//! The volume of a mount, for one who saves it.

ghost use Rattle.std.specs.Prelude.{◌≡◌, IfOk, IsTrue};
ghost use Rattle.lfs_volume.specs.Journals.{AtPresent, Begins};

use crate::mount::Mount;
use lfs_cleaner::wanting::superuser;
use lfs_types::answer::{Answer, Served};
use lfs_types::level::Level;
use lfs_types::request::Request;
use lfs_types::store::FileStore;
use std::alloc::{AllocError, Global};

impl<F: FileStore + Drop> Mount<F> {
    /// Writes what waits in the store, by a Sync of the superuser as session 0, and says whether
    /// nothing waits any more. Where the journal has no room for its entry, the entries are let go
    /// before. The tree and the securelevel stay, and what is beside the volume.
    ///
    /// # Errors
    ///
    /// Memory ran out for the room of a journal, which is asked for only where the journal is full.
    /// Nothing changed.
    pub fn flush(&mut self, alloc: Global) -> Result<bool, AllocError>
        ensures flushed { IfOk result (λ done. IsTrue done
            → F.is_flushed self.new.tree.volume.store) }
        ensures shown { AtPresent F.state self.old.tree.volume
            (Begins (F.state self.new.tree.volume.store) self.new.tree.volume.level) }
        ensures nodes { self.new.tree.nodes ≡ self.old.tree.nodes }
        ensures beside { self.new.beside ≡ self.old.beside }
        ensures sizes { self.new.sizes ≡ self.old.sizes }
    {
        self.make_room_for(alloc, 1)?;
        Ok(self.sync())
    }

    /// Makes a Sync of the superuser as session 0. Whether it was served.
    fn sync(&mut self) -> bool
        ensures flushed { IsTrue result → F.is_flushed self.new.tree.volume.store }
        ensures shown { AtPresent F.state self.old.tree.volume
            (Begins (F.state self.new.tree.volume.store) self.new.tree.volume.level) }
        ensures nodes { self.new.tree.nodes ≡ self.old.tree.nodes }
        ensures beside { self.new.beside ≡ self.old.beside }
        ensures sizes { self.new.sizes ≡ self.old.sizes }
    {
        let answer = self.tree.volume.call(0, &superuser(), Request::Sync);
        matches!(answer, Answer::Served(Served::Done))
    }

    /// The store, to be read.
    pub fn store(&self) -> &F
        ensures { result.now ≡ self.now.tree.volume.store }
    {
        self.tree.volume.store()
    }

    /// The securelevel.
    pub fn level(&self) -> Level
        ensures { result ≡ self.now.tree.volume.level }
    {
        self.tree.volume.level()
    }
}
