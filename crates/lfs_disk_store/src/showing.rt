//! The store shows its log, and is checked while it runs, as its durable store.

use crate::store::DiskStore;
use lfs_checking::standing::ChecksLog;
use lfs_disk::BlockDisk;
use lfs_types::level::Level;
use lfs_view::shows::ShowsLog;
use lfs_view::space::Space;
use std::alloc::{AllocError, Global};

impl<D: BlockDisk> ShowsLog for DiskStore<D> {
    ghost use Rattle.lfs_view.specs.MapText.{map_text};
    ghost use Rattle.lfs_view.specs.SegmentText.{segment_text};
    ghost use Rattle.lfs_view.specs.SpaceText.{space_of, space_text};

    ghost map_text = { λ s. map_text s.store.store };

    ghost segment_text = { λ s. segment_text s.store.store };

    ghost shown_space = { λ s. space_of s.store.store };

    ghost space_text = { λ s. space_text s.store.store };

    fn push_map(&self, alloc: Global, out: &mut Vec<u8>) -> Result<(), AllocError> {
        self.store.push_map(alloc, out)
    }

    fn push_segment(
        &self,
        alloc: Global,
        out: &mut Vec<u8>,
        segment: u64,
    ) -> Result<(), AllocError> {
        self.store.push_segment(alloc, out, segment)
    }

    fn space(&self) -> Space {
        self.store.space()
    }

    fn push_space(&self, out: &mut Vec<u8>) -> Result<(), AllocError> {
        self.store.push_space(out)
    }
}

impl<D: BlockDisk> ChecksLog for DiskStore<D> {
    ghost use Rattle.lfs_checking.specs.Standing.{IsCheckTold};

    ghost checked = { λ s. IsCheckTold s.store.store };

    fn check(&self, alloc: Global, level: Level) -> Result<Vec<u8>, AllocError> {
        self.store.check(alloc, level)
    }
}
