//! The store's files.

ghost use Rattle.std.specs.Prelude.{◌≡◌, ◌+◌, ◌-◌, ◌/◌, ◌<◌, [], length, IsSome, OnErr, OnOk};
ghost use Rattle.std.specs.FinMap.{get};
ghost use Rattle.lfs_types.specs.declared.block.TheConstants.{BLOCK_SIZE};
ghost use Rattle.lfs_types.specs.Changes.{CanApply};
ghost use Rattle.lfs_types.specs.StoreStates.{Applies};
ghost use Rattle.lfs_types.specs.Stored.{Reads, bytes_of, slice_of};
ghost use Rattle.lfs_found.specs.Written.{IsRecoverable};
ghost use Rattle.lfs_parts.specs.Filling.{IsCached, SameButClean};
ghost use Rattle.lfs_parts.specs.View.{version_of};
ghost use Rattle.lfs_segwrite.specs.Applying.{HasRoomFor, MakesChanges, WritesWaiting};
ghost use Rattle.lfs_segwrite.specs.Ordered.{IsOrdered};
ghost use Rattle.lfs_parts.specs.Store.{IsFlushed};
ghost use Rattle.lfs_logstore.specs.Answering.{ComesTo};
ghost use Rattle.lfs_logstore.specs.Frames.{KeepsCached};
ghost use Rattle.lfs_logstore.specs.States.{state_of};

use crate::store::LogStore;
use lfs_segwrite::applying::apply;
use lfs_segwrite::writing::write_waiting;
use lfs_types::attrs::Attrs;
use lfs_types::store::{Change, FileStore, Reserve, StoreRefusal};

impl FileStore for LogStore {
    ghost use Rattle.lfs_logstore.specs.States.{state_of};
    ghost use Rattle.lfs_parts.specs.Store.{IsFlushed};
    ghost use Rattle.lfs_logstore.specs.Answering.{ComesTo};

    ghost state = { state_of };

    ghost is_flushed = { IsFlushed };

    ghost made = { ComesTo };

    fn attrs(&self, ino: u32) -> Option<Attrs> {
        self.parts.attrs(ino)
    }

    fn read(&mut self, ino: u32, off: u64, into: &mut [u8]) -> usize
        requires { IsSome (get (state_of self.old).content ino) }
        ensures reads { Reads (slice_of (bytes_of (state_of self.old).content ino) off (length into.old))
            result into.old into.new }
        ensures state { state_of self.new ≡ state_of self.old }
        // No address moves, and what waits waits: frames may be taken for clean blocks.
        ensures still { SameButClean self.old self.new }
        // The last block that was read has a clean frame, or waits, or is a hole.
        ensures cached { 0 < result → IsCached ino (version_of self.old ino)
            ((off + result - 1) / BLOCK_SIZE) self.new }
    {
        self.parts.read(ino, off, into)
    }

    fn least_free(&self) -> Option<u32> {
        self.parts.least_free()
    }

    fn clean_segments(&self) -> u32 {
        self.parts.log.clean()
    }

    /// Makes changes, which wait. Where more would wait than may, what waits is written first.
    fn apply(&mut self, changes: &[Change<'_>], by: Reserve) -> Result<(), StoreRefusal>
        requires { CanApply (state_of self.old).shape.numbers changes.now (state_of self.old).content }
        ensures applies { Applies (state_of self.old) changes.now result (state_of self.new) }
        ensures made { ComesTo self.old changes.now by result self.new }
        ensures makes { OnOk result (MakesChanges by changes.now self.old self.new) }
        // There was room, as the log stood.
        ensures fits { OnOk result (HasRoomFor by changes.now self.old) }
        ensures refused { OnErr result (self.new ≡ self.old) }
        // There is no room, as the log stands.
        ensures lacking { OnErr result (HasRoomFor by changes.now self.old → ⊥) }
        // What recovery found it finds, and what was written too.
        ensures whole { IsRecoverable self.old.log.memory → IsRecoverable self.new.log.memory }
        ensures ordered { IsRecoverable self.old.log.memory → IsOrdered self.old.log
            → IsOrdered self.new.log }
    {
        apply(&mut self.parts, changes, by).map_err(|_| StoreRefusal::NoSpace)
    }

    /// Writes what waits. It always has room. What the cache holds it holds behind it, clean.
    #[tactic(auto, using(crate::proofs::RoomLemmas::flushed_room))]
    fn sync(&mut self) -> Result<(), StoreRefusal>
        ensures applies { Applies (state_of self.old) [] result (state_of self.new) }
        ensures flushed { OnOk result (IsFlushed self.new) }
        ensures written { WritesWaiting self.old self.new }
        ensures held { KeepsCached self.old self.new }
        ensures whole { IsRecoverable self.old.log.memory → IsRecoverable self.new.log.memory }
        ensures ordered { IsRecoverable self.old.log.memory → IsOrdered self.old.log
            → IsOrdered self.new.log }
        ensures never { OnErr result ⊥ }
    {
        write_waiting(&mut self.parts);
        Ok(())
    }
}
