//! A plain store with a cleaner that finds nothing to do.

ghost use Rattle.std.specs.Prelude.{◌≡◌, []};

use lfs_types::attrs::Attrs;
use lfs_types::cleaned::CleanedStore;
use lfs_types::cleaner::{BlockInfo, CleanFault, InfoList, MarkList};
use lfs_types::store::{Change, FileStore, Reserve, StoreRefusal};
use lfs_volume::flat_files::FlatFiles;
use lfs_volume::volume::Volume;
use std::alloc::{AllocError, Global};
use std::process::Abort;

/// Files of a plain store. Its ifile never finds memory, no segment is dirty, and no block is written again.
#[derive(Drop)]
pub struct Unswept {
    files: FlatFiles,
}

impl Unswept {
    /// The store over these files.
    pub fn new(files: FlatFiles) -> Unswept
        ensures { result.files ≡ files }
    {
        Unswept { files }
    }
}

/// A volume over such a store of so many numbers, with this limit of its journal.
pub fn unswept_volume(rt: &impl Abort, alloc: Global, inodes: u32, journal: u32) -> Volume<Unswept>
    ensures { result.journal ≡ [] }
{
    let files = FlatFiles::new(alloc, inodes).expect(rt, "a store");
    Volume::new(alloc, Unswept::new(files), journal).expect(rt, "a volume")
}

impl FileStore for Unswept {
    ghost state = { λ store. ⟦<FlatFiles as FileStore>⟧.state store.files };

    ghost is_flushed = { λ store. ⟦<FlatFiles as FileStore>⟧.is_flushed store.files };

    ghost made = { λ old changes by result new.
        ⟦<FlatFiles as FileStore>⟧.made old.files changes by result new.files };

    fn attrs(&self, ino: u32) -> Option<Attrs> {
        self.files.attrs(ino)
    }

    fn read(&mut self, ino: u32, off: u64, into: &mut [u8]) -> usize {
        self.files.read(ino, off, into)
    }

    fn least_free(&self) -> Option<u32> {
        self.files.least_free()
    }

    fn clean_segments(&self) -> u32 {
        self.files.clean_segments()
    }

    fn apply(&mut self, changes: &[Change<'_>], by: Reserve) -> Result<(), StoreRefusal> {
        self.files.apply(changes, by)
    }

    fn sync(&mut self) -> Result<(), StoreRefusal> {
        self.files.sync()
    }
}

impl CleanedStore for Unswept {
    ghost use Rattle.std.specs.Prelude.{⊤};

    ghost cleaner = { record {
      gives_ifile = λ _ _. ⊤;
      gives_infos = λ _ _ _ _. ⊤;
      gives_addresses = λ _ _ _. ⊤;
      writes_again = λ _ _ _ _. ⊤;
      reclaims = λ _ _ _ _. ⊤;
      gains = λ _ _ _. ⊤;
    } };

    fn ifile_bytes(&self) -> Result<Vec<u8>, AllocError> {
        Err(AllocError)
    }

    fn infos(&self, _segment: u32, _infos: &mut InfoList) -> Result<(), CleanFault> {
        Err(CleanFault::NotDirty)
    }

    fn bmapv(&self, _infos: &mut [BlockInfo]) {}

    fn markv(&mut self, _marks: &MarkList) -> Result<u32, CleanFault> {
        Ok(0)
    }

    fn segclean(&mut self, _segment: u32) -> Result<(), CleanFault> {
        Err(CleanFault::NotDirty)
    }

    fn gain_room(&mut self) -> Result<(), CleanFault> {
        Err(CleanFault::NotGainful)
    }
}
