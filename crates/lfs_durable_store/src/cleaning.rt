//! The cleaner's calls.

use crate::store::{DurableStore, base_of};
use lfs_types::cleaned::CleanedStore;
use lfs_types::cleaner::{BlockInfo, CleanFault, InfoList, MarkList};
use std::alloc::AllocError;

impl CleanedStore for DurableStore {
    ghost use Rattle.lfs_durable_store.specs.CleanerCalls.{durable_calls};

    ghost cleaner = { durable_calls };

    fn ifile_bytes(&self) -> Result<Vec<u8>, AllocError> {
        self.store.ifile_bytes()
    }

    fn infos(&self, segment: u32, infos: &mut InfoList) -> Result<(), CleanFault> {
        self.store.infos(segment, infos)
    }

    fn bmapv(&self, infos: &mut [BlockInfo]) {
        self.store.bmapv(infos);
    }

    fn markv(&mut self, marks: &MarkList) -> Result<u32, CleanFault> {
        let marked = self.store.markv(marks);
        self.base = base_of(&self.store);
        self.mark = self.mark.whole();
        marked
    }

    /// Makes a dirty segment without live bytes clean. Where changes wait that took its last ones, it isn't opened before
    /// they are written.
    fn segclean(&mut self, segment: u32) -> Result<(), CleanFault> {
        self.store.segclean(segment)
    }

    fn gain_room(&mut self) -> Result<(), CleanFault> {
        let gained = self.store.gain_room();
        self.base = base_of(&self.store);
        self.mark = self.mark.whole();
        gained
    }
}
