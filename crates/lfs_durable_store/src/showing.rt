//! The store shows its log, and is checked while it runs, as its log store.

use crate::store::DurableStore;
use lfs_checking::standing::{ChecksLog, check_store};
use lfs_types::level::Level;
use lfs_view::shows::ShowsLog;
use lfs_view::space::Space;
use std::alloc::{AllocError, Global};

impl ShowsLog for DurableStore {
    ghost use Rattle.lfs_view.specs.MapText.{map_text};
    ghost use Rattle.lfs_view.specs.SegmentText.{segment_text};
    ghost use Rattle.lfs_view.specs.SpaceText.{space_of, space_text};

    ghost map_text = { λ s. map_text s.store };

    ghost segment_text = { λ s. segment_text s.store };

    ghost shown_space = { λ s. space_of s.store };

    ghost space_text = { λ s. space_text s.store };

    fn push_map(&self, alloc: Global, out: &mut Vec<u8>) -> Result<(), AllocError> {
        self.store.push_map(alloc, out)
    }

    fn push_segment(
        &self,
        alloc: Global,
        out: &mut Vec<u8>,
        segment: u64,
    ) -> Result<(), AllocError> {
        self.store.push_segment(alloc, out, segment)
    }

    fn space(&self) -> Space {
        self.store.space()
    }

    fn push_space(&self, out: &mut Vec<u8>) -> Result<(), AllocError> {
        self.store.push_space(out)
    }
}

impl ChecksLog for DurableStore {
    ghost use Rattle.lfs_checking.specs.Standing.{IsCheckTold};

    ghost checked = { λ s. IsCheckTold s.store };

    fn check(&self, alloc: Global, level: Level) -> Result<Vec<u8>, AllocError> {
        check_store(alloc, &self.store, level)
    }
}
