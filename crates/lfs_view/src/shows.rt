//! The trait of a store that shows its log.

ghost use Rattle.std.specs.Prelude.{◌≡◌, ◌++◌, ℕ, List, OnOk};
ghost use Rattle.lfs_view.specs.declared.space.Space.{Space};

use crate::map::push_map;
use crate::segment::push_segment;
use crate::space::{Space, push_space, space_of};
use lfs_logstore::LogStore;
use std::alloc::{AllocError, Global};

/// A store that shows its log. It changes nothing.
pub trait ShowsLog {
    /// The map of its log.
    ghost map_text: { Self → List ℕ };
    /// What stands in a segment.
    ghost segment_text: { Self → ℕ → List ℕ };
    /// How full it is.
    ghost shown_space: { Self → Space };
    /// The same as a text.
    ghost space_text: { Self → List ℕ };

    /// Appends the map of its log: a line for each segment, and what the signs say.
    fn push_map(&self, alloc: Global, out: &mut Vec<u8>) -> Result<(), AllocError>
        ensures { OnOk result (out.new.items ≡ out.old.items ++ map_text self.now) };

    /// Appends what stands in a segment, or a fault where it has none of this number.
    fn push_segment(&self, alloc: Global, out: &mut Vec<u8>, segment: u64) -> Result<(), AllocError>
        ensures { OnOk result (out.new.items ≡ out.old.items ++ segment_text self.now segment) };

    /// How full it is: clean segments, live bytes, numbers in use, and what waits to be written.
    fn space(&self) -> Space
        ensures { result ≡ shown_space self.now };

    /// Appends how full it is: clean segments, live bytes, numbers in use, and what waits to be written.
    fn push_space(&self, out: &mut Vec<u8>) -> Result<(), AllocError>
        ensures { OnOk result (out.new.items ≡ out.old.items ++ space_text self.now) };
}

impl ShowsLog for LogStore {
    ghost use Rattle.lfs_view.specs.MapText.{map_text};
    ghost use Rattle.lfs_view.specs.SegmentText.{segment_text};
    ghost use Rattle.lfs_view.specs.SpaceText.{space_of, space_text};

    ghost map_text = { map_text };

    ghost segment_text = { segment_text };

    ghost shown_space = { space_of };

    ghost space_text = { space_text };

    fn push_map(&self, alloc: Global, out: &mut Vec<u8>) -> Result<(), AllocError> {
        push_map(alloc, out, self.parts())
    }

    fn push_segment(
        &self,
        alloc: Global,
        out: &mut Vec<u8>,
        segment: u64,
    ) -> Result<(), AllocError> {
        push_segment(alloc, out, self.parts(), segment)
    }

    fn space(&self) -> Space {
        space_of(self.parts())
    }

    fn push_space(&self, out: &mut Vec<u8>) -> Result<(), AllocError> {
        push_space(out, self.parts())
    }
}
