//! The store's files.

ghost use Rattle.std.specs.Prelude.{◌≡◌, [], All, IfErr, IsSome, OnErr, OnOk, length};
ghost use Rattle.std.specs.FinMap.{get};
ghost use Rattle.lfs_types.specs.Changes.{CanApply};
ghost use Rattle.lfs_types.specs.StoreStates.{Applies};
ghost use Rattle.lfs_types.specs.Stored.{Reads, bytes_of, slice_of};
ghost use Rattle.lfs_parts.specs.Filling.{SameButClean};
ghost use Rattle.lfs_parts.specs.Store.{IsFlushed};
ghost use Rattle.lfs_segwrite.specs.Applying.{WritesWaiting};
ghost use Rattle.lfs_share.specs.Answering.{ComesTo, MakesBehind, shared_state};
ghost use Rattle.lfs_share.specs.Growing.{IsEven, PassesShare};
ghost use Rattle.lfs_share.specs.Share.{IsWithinShare};

use crate::growing::growth_of_all;
use crate::store::{SharedStore, apply_behind, make_way, may_grow};
use lfs_types::attrs::Attrs;
use lfs_types::store::{Change, FileStore, Reserve, StoreRefusal};

impl FileStore for SharedStore {
    ghost use Rattle.lfs_parts.specs.Store.{IsFlushed};
    ghost use Rattle.lfs_share.specs.Answering.{ComesTo, shared_state};

    ghost state = { shared_state };

    ghost is_flushed = { IsFlushed };

    ghost made = { ComesTo };

    fn attrs(&self, ino: u32) -> Option<Attrs> {
        self.store.attrs(ino)
    }

    fn read(&mut self, ino: u32, off: u64, into: &mut [u8]) -> usize
        requires { IsSome (get (shared_state self.old).content ino) }
        ensures reads { Reads
            (slice_of (bytes_of (shared_state self.old).content ino) off (length into.old))
            result into.old into.new }
        ensures state { shared_state self.new ≡ shared_state self.old }
        ensures still { SameButClean self.old self.new }
    {
        self.store.read(ino, off, into)
    }

    fn least_free(&self) -> Option<u32> {
        self.store.least_free()
    }

    fn clean_segments(&self) -> u32 {
        self.store.clean_segments()
    }

    /// Makes all the changes, in order, or none. `NoSpace` only where they make files take more, and more than the
    /// share. What files take is counted anew, over all numbers, where that isn't sure; and where fewer than three
    /// segments are clean, some are cleaned first.
    fn apply(&mut self, changes: &[Change<'_>], by: Reserve) -> Result<(), StoreRefusal>
        requires { CanApply (shared_state self.old).shape.numbers changes.now
            (shared_state self.old).content }
        ensures applies { Applies (shared_state self.old) changes.now result
            (shared_state self.new) }
        ensures made { ComesTo self.old changes.now by result self.new }
        ensures makes { OnOk result (MakesBehind by changes.now self.old self.new) }
        // Never where they give back, or add nothing.
        ensures even { All (IsEven (shared_state self.old).content) changes.now
            → OnErr result ⊥ }
        ensures fits { OnOk result (PassesShare changes.now (shared_state self.old) → ⊥) }
        ensures past { OnErr result (PassesShare changes.now (shared_state self.old)) }
        ensures refused { OnErr result (self.new ≡ self.old) }
        ensures cause { IfErr result (λ refusal. refusal ≡ StoreRefusal.NoSpace) }
        ensures within { IsWithinShare (shared_state self.new) }
    {
        let growth = growth_of_all(&self.store, changes);
        if !may_grow(&self.store, &mut self.most, growth) {
            return Err(StoreRefusal::NoSpace);
        }
        make_way(&mut self.store);
        apply_behind(&mut self.store, changes, by);
        self.most += growth;
        Ok(())
    }

    /// Writes what waits. It always has room, and cleans nothing.
    fn sync(&mut self) -> Result<(), StoreRefusal>
        ensures applies { Applies (shared_state self.old) [] result (shared_state self.new) }
        ensures flushed { OnOk result (IsFlushed self.new) }
        ensures written { WritesWaiting self.old self.new }
        ensures never { OnErr result ⊥ }
    {
        self.store.sync()
    }
}
