//! The cleaner's calls. The store makes room by itself, so a cleaner may find a segment clean that it had picked.

ghost use Rattle.std.specs.Prelude.{◌≡◌, ◌≤◌, IfErr, IfOk, OnErr, length};
ghost use Rattle.lfs_types.specs.Cleaned.{IsMarkingFault};
ghost use Rattle.lfs_types.specs.StoreStates.{Follows};
ghost use Rattle.lfs_share.specs.Answering.{shared_state};
ghost use Rattle.lfs_share.specs.CleanerCalls.{WritesAgain};

use crate::store::{SharedStore, make_way};
use lfs_types::cleaned::CleanedStore;
use lfs_types::cleaner::{BlockInfo, CleanFault, InfoList, MarkList};
use std::alloc::AllocError;

impl CleanedStore for SharedStore {
    ghost use Rattle.lfs_share.specs.CleanerCalls.{shared_calls};

    ghost cleaner = { shared_calls };

    fn ifile_bytes(&self) -> Result<Vec<u8>, AllocError> {
        self.store.ifile_bytes()
    }

    fn infos(&self, segment: u32, infos: &mut InfoList) -> Result<(), CleanFault> {
        self.store.infos(segment, infos)
    }

    fn bmapv(&self, infos: &mut [BlockInfo]) {
        self.store.bmapv(infos);
    }

    /// Makes three segments clean where fewer are, and writes the named blocks again. It is never refused.
    fn markv(&mut self, marks: &MarkList) -> Result<u32, CleanFault>
        ensures given { WritesAgain self.old marks.now result self.new }
        ensures few { IfOk result (λ count. count ≤ length marks.now) }
        ensures fault { IfErr result IsMarkingFault }
        ensures never { OnErr result ⊥ }
        ensures content { (shared_state self.new).content ≡ (shared_state self.old).content }
        ensures follows { Follows (shared_state self.old) (shared_state self.new) }
    {
        make_way(&mut self.store);
        self.store.markv(marks)
    }

    fn segclean(&mut self, segment: u32) -> Result<(), CleanFault> {
        self.store.segclean(segment)
    }

    fn gain_room(&mut self) -> Result<(), CleanFault> {
        self.store.gain_room()
    }
}
