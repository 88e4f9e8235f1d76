//! The trait of a file store that a cleaner cleans.

ghost use Rattle.std.specs.Prelude.{◌≡◌, ◌≤◌, length, IfErr, IfOk, OnErr, OnOk};
ghost use Rattle.lfs_types.specs.Cleaned.{CleanerCalls, IsGainFault, IsListingFault, IsMarkingFault, IsReclaimFault, ifile_size, with_clean_segment};
ghost use Rattle.lfs_types.specs.StoreStates.{Follows, MovesBase};

use crate::cleaner::{BlockInfo, CleanFault, InfoList, MarkList};
use crate::store::FileStore;
use std::alloc::AllocError;

/// A file store over a log that a cleaner cleans (4.4BSD's lfs_bmapv(2), lfs_markv(2) and lfs_segclean(2), two calls
/// that read what its cleaner reads of the ifile and of a segment's summaries, and, in this project's profile, one for
/// room where a pass finds none). What a call answers exactly, each store says by relations of its own; none of these
/// calls changes the content.
pub trait CleanedStore: FileStore {
    /// What each of the calls may answer, and how it leaves the store.
    ghost cleaner: { CleanerCalls Self };

    /// The bytes of the ifile.
    fn ifile_bytes(&self) -> Result<Vec<u8>, AllocError>
        ensures given { IfOk result (λ bytes. cleaner.gives_ifile self.now bytes.items) }
        ensures size { IfOk result (λ bytes. length bytes.items
            ≡ ifile_size (Self.state self.now).shape) };

    /// The infos of a dirty segment, in the order of the log. After a fault the list is not to be read.
    fn infos(&self, segment: u32, infos: &mut InfoList) -> Result<(), CleanFault>
        ensures given { cleaner.gives_infos self.now segment result infos.new }
        ensures fault { IfErr result IsListingFault };

    /// Sets each address to the present one: 0 where the number, the version or the block is not in use, or has none.
    fn bmapv(&self, infos: &mut [BlockInfo])
        ensures given { cleaner.gives_addresses self.now infos.old infos.new }
        ensures same_length { length infos.new ≡ length infos.old };

    /// Writes again, at the end of the log, each named block whose present address is the one given and not 0, and says
    /// how many.
    fn markv(&mut self, marks: &MarkList) -> Result<u32, CleanFault>
        ensures given { cleaner.writes_again self.old marks.now result self.new }
        ensures few { IfOk result (λ count. count ≤ length marks.now) }
        ensures fault { IfErr result IsMarkingFault }
        ensures content { (Self.state self.new).content ≡ (Self.state self.old).content }
        ensures follows { Follows (Self.state self.old) (Self.state self.new) }
        ensures base { MovesBase (Self.state self.old) (Self.state self.new) };

    /// Makes a dirty segment without live bytes clean.
    fn segclean(&mut self, segment: u32) -> Result<(), CleanFault>
        ensures given { cleaner.reclaims self.old segment result self.new }
        ensures fault { IfErr result IsReclaimFault }
        ensures refused { OnErr result (self.new ≡ self.old) }
        ensures cleaned { OnOk result (Self.state self.new
            ≡ with_clean_segment (Self.state self.old)) };

    /// Writes what waits, and cleans a segment where that gains room. At most one more is clean then; behind a fault none
    /// is.
    fn gain_room(&mut self) -> Result<(), CleanFault>
        ensures given { cleaner.gains self.old result self.new }
        ensures fault { IfErr result IsGainFault }
        ensures content { (Self.state self.new).content ≡ (Self.state self.old).content }
        ensures gained { OnOk result
            (Follows (with_clean_segment (Self.state self.old)) (Self.state self.new)) }
        ensures failed { OnErr result (Follows (Self.state self.old) (Self.state self.new)) }
        ensures base { MovesBase (Self.state self.old) (Self.state self.new) };
}
