//! The store shows its log, and is checked while it runs, as its log store.

use crate::store::SharedStore;
use lfs_checking::standing::{ChecksLog, check_store};
use lfs_types::level::Level;
use lfs_view::shows::ShowsLog;
use lfs_view::space::Space;
use std::alloc::{AllocError, Global};

impl ShowsLog for SharedStore {
    ghost use Rattle.lfs_view.specs.MapText.{map_text};
    ghost use Rattle.lfs_view.specs.SegmentText.{segment_text};
    ghost use Rattle.lfs_view.specs.SpaceText.{space_of, space_text};

    ghost map_text = { map_text };

    ghost segment_text = { segment_text };

    ghost shown_space = { space_of };

    ghost space_text = { space_text };

    fn push_map(&self, alloc: Global, out: &mut Vec<u8>) -> Result<(), AllocError> {
        self.store.push_map(alloc, out)
    }

    fn push_segment(
        &self,
        alloc: Global,
        out: &mut Vec<u8>,
        segment: u64,
    ) -> Result<(), AllocError> {
        self.store.push_segment(alloc, out, segment)
    }

    fn space(&self) -> Space {
        self.store.space()
    }

    fn push_space(&self, out: &mut Vec<u8>) -> Result<(), AllocError> {
        self.store.push_space(out)
    }
}

impl ChecksLog for SharedStore {
    ghost use Rattle.lfs_checking.specs.Standing.{IsCheckTold};

    ghost checked = { IsCheckTold };

    fn check(&self, alloc: Global, level: Level) -> Result<Vec<u8>, AllocError> {
        check_store(alloc, &self.store, level)
    }
}
