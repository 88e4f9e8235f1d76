//! The calls of a store's cleaner, over a store with caches of names and attributes. None of them changes the content.

ghost use Rattle.std.specs.Prelude.{◌≡◌, ◌≤◌, length, IfErr, IfOk, OnErr, OnOk};
ghost use Rattle.lfs_types.specs.Cleaned.{IsGainFault, IsListingFault, IsMarkingFault, IsReclaimFault, ifile_size, with_clean_segment};
ghost use Rattle.lfs_types.specs.StoreStates.{Follows, MovesBase};

use crate::cached_store::CachedStore;
use lfs_types::cleaned::CleanedStore;
use lfs_types::cleaner::{BlockInfo, CleanFault, InfoList, MarkList};
use std::alloc::AllocError;

impl<F: CleanedStore> CachedStore<F> {
    /// The bytes of the ifile.
    pub fn ifile_bytes(&self) -> Result<Vec<u8>, AllocError>
        ensures given { IfOk result (λ bytes. F.cleaner.gives_ifile self.now bytes.items) }
        ensures size { IfOk result
            (λ bytes. length bytes.items ≡ ifile_size (F.state self.now).shape) }
    {
        self.store.ifile_bytes()
    }

    /// The infos of a dirty segment, in the order of the log. After a fault the list is not to be read.
    pub fn infos(&self, segment: u32, infos: &mut InfoList) -> Result<(), CleanFault>
        ensures given { F.cleaner.gives_infos self.now segment result infos.new }
        ensures fault { IfErr result IsListingFault }
    {
        self.store.infos(segment, infos)
    }

    /// Sets each address to the present one: 0 where the number, the version or the block is not in use, or has none.
    pub fn bmapv(&self, infos: &mut [BlockInfo])
        ensures given { F.cleaner.gives_addresses self.now infos.old infos.new }
        ensures same_length { length infos.new ≡ length infos.old }
    {
        self.store.bmapv(infos);
    }

    /// Writes again, at the end of the log, each named block whose present address is the one given and not 0, and says
    /// how many.
    pub fn markv(&mut self, marks: &MarkList) -> Result<u32, CleanFault>
        ensures given { F.cleaner.writes_again self.old marks.now result self.new }
        ensures few { IfOk result (λ count. count ≤ length marks.now) }
        ensures fault { IfErr result IsMarkingFault }
        ensures content { (F.state self.new).content ≡ (F.state self.old).content }
        ensures follows { Follows (F.state self.old) (F.state self.new) }
        ensures base { MovesBase (F.state self.old) (F.state self.new) }
    {
        self.store.markv(marks)
    }

    /// Makes a dirty segment without live bytes clean.
    pub fn segclean(&mut self, segment: u32) -> Result<(), CleanFault>
        ensures given { F.cleaner.reclaims self.old segment result self.new }
        ensures fault { IfErr result IsReclaimFault }
        ensures refused { OnErr result (self.new ≡ self.old) }
        ensures cleaned { OnOk result (F.state self.new ≡ with_clean_segment (F.state self.old)) }
    {
        self.store.segclean(segment)
    }

    /// Writes what waits, and cleans a segment where that gains room.
    pub fn gain_room(&mut self) -> Result<(), CleanFault>
        ensures given { F.cleaner.gains self.old result self.new }
        ensures fault { IfErr result IsGainFault }
        ensures content { (F.state self.new).content ≡ (F.state self.old).content }
        ensures gained { OnOk result
            (Follows (with_clean_segment (F.state self.old)) (F.state self.new)) }
        ensures failed { OnErr result (Follows (F.state self.old) (F.state self.new)) }
        ensures base { MovesBase (F.state self.old) (F.state self.new) }
    {
        self.store.gain_room()
    }
}
