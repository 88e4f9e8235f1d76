//! A segment is cleaned where that gains room.

ghost use Rattle.std.specs.Prelude.{◌≡◌, IfOk, OnErr, OnOk};
ghost use Rattle.lfs_found.specs.Written.{IsRecoverable};
ghost use Rattle.lfs_segwrite.specs.Applying.{WritesWaiting};
ghost use Rattle.lfs_segwrite.specs.Gaining.{NoneIsGainful};
ghost use Rattle.lfs_segwrite.specs.Ordered.{IsOrdered};
ghost use Rattle.lfs_parts.specs.Files.{content_of};
ghost use Rattle.lfs_parts.specs.Store.{IsFlushed};
ghost use Rattle.lfs_logstore.specs.Gaining.{GainsSpace};
ghost use Rattle.lfs_logstore.specs.States.{state_of};

use crate::store::LogStore;
use lfs_segwrite::gaining::{empty_segment, gainful};
use lfs_segwrite::writing::write_waiting;

/// No segment is gainful: each takes as much as it gives back, or more room than there is.
#[derive(Clone, Copy, PartialEq, Eq, Debug)]
pub struct GainFault;

impl LogStore {
    /// Writes what waits, and cleans a segment where that gains room: its live blocks are written again, eight by eight,
    /// for less than a segment, and it becomes clean. What that takes is counted before, exactly. `GainFault` where each
    /// dirty segment takes too much.
    pub fn gain(&mut self) -> Result<(), GainFault>
        ensures gained { OnOk result (GainsSpace self.old self.new) }
        ensures full { OnErr result (NoneIsGainful self.new) }
        ensures written { OnErr result (WritesWaiting self.old self.new) }
        ensures flushed { IsFlushed self.new }
        ensures content { content_of self.new ≡ content_of self.old }
        ensures shape { (state_of self.new).shape ≡ (state_of self.old).shape }
        ensures whole { IsRecoverable self.old.log.memory → IsRecoverable self.new.log.memory }
        ensures ordered { IsRecoverable self.old.log.memory → IsOrdered self.old.log
            → IsOrdered self.new.log }
    {
        write_waiting(&mut self.parts);
        match gainful(&self.parts) {
            Some(segment) => {
                empty_segment(&mut self.parts, segment);
                self.reclaim(segment);
                Ok(())
            }
            None => Err(GainFault),
        }
    }
}
