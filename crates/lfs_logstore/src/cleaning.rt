//! The cleaner's calls.

ghost use Rattle.std.specs.Prelude.{◌≡◌, length, IfErr, IfOk};
ghost use Rattle.lfs_types.specs.Cleaned.{ifile_size};
ghost use Rattle.lfs_logstore.specs.Cleaning.{GivesIfile, HasLive, IsAccounted, IsListingFaultOf, IsReclaimed};
ghost use Rattle.lfs_logstore.specs.States.{state_of};

use crate::gaining::GainFault;
use crate::store::LogStore;
use lfs_ifile::SegState;
use lfs_segwrite::marking::mark;
use lfs_types::cleaned::CleanedStore;
use lfs_types::cleaner::{BlockInfo, CleanFault, InfoList, MarkList};
use std::alloc::AllocError;

impl LogStore {
    /// The live bytes of a dirty segment.
    fn dirty_live(&self, segment: u32) -> Result<u32, CleanFault>
        ensures live { IfOk result (HasLive self.now segment) }
        ensures fault { IfErr result (IsListingFaultOf self.now segment) }
    {
        if segment >= self.parts.log.segments() {
            return Err(CleanFault::NoSuchSegment);
        }
        let usage = self.parts.log.usage(segment);
        match usage.state {
            SegState::Active => Err(CleanFault::Active),
            SegState::Clean => Err(CleanFault::NotDirty),
            SegState::Dirty => Ok(usage.live),
        }
    }

    /// Makes a dirty segment without live bytes clean.
    pub(crate) fn reclaim(&mut self, segment: u32)
        requires { HasLive self.old segment 0 }
        ensures { IsReclaimed self.old segment self.new }
    {
        self.parts.log.reclaim(segment);
    }
}

impl CleanedStore for LogStore {
    ghost use Rattle.lfs_logstore.specs.CleanerCalls.{log_calls};

    ghost cleaner = { log_calls };

    fn ifile_bytes(&self) -> Result<Vec<u8>, AllocError>
        ensures given { IfOk result (λ bytes. GivesIfile self.now bytes.items) }
        ensures size { IfOk result (λ bytes. length bytes.items ≡ ifile_size (state_of self.now).shape) }
        // What the bytes say of segments and keys is true of them, also where a growth is refused.
        ensures accounted { IsAccounted self.now }
    {
        self.parts.log.ifile_bytes()
    }

    fn infos(&self, segment: u32, infos: &mut InfoList) -> Result<(), CleanFault> {
        self.dirty_live(segment)?;
        *infos = self.parts.log.infos(segment);
        Ok(())
    }

    fn bmapv(&self, infos: &mut [BlockInfo]) {
        for info in infos {
            info.addr = self.parts.present_address(info);
        }
    }

    fn markv(&mut self, marks: &MarkList) -> Result<u32, CleanFault> {
        mark(&mut self.parts, marks.items()).map_err(|_| CleanFault::NoSpace)
    }

    fn segclean(&mut self, segment: u32) -> Result<(), CleanFault> {
        let live = self.dirty_live(segment)?;
        if live > 0 {
            return Err(CleanFault::Live(live));
        }
        self.reclaim(segment);
        Ok(())
    }

    fn gain_room(&mut self) -> Result<(), CleanFault> {
        match self.gain() {
            Ok(()) => Ok(()),
            Err(GainFault) => Err(CleanFault::NotGainful),
        }
    }
}
