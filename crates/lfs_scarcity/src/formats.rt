//! Frames, caches, slots of open files and what is laid out, at their least sizes.

use crate::told::told;
use lfs_cache::Cache;
use lfs_ifile::Ifile;
use lfs_logstore::LogStore;
use lfs_opens::loans::Loans;
use lfs_opens::opens::Opens;
use lfs_recency::Frames;
use lfs_segments::segments::Segments;
use lfs_types::store::Params;
use lfs_volume::flat_files::FlatFiles;
use std::alloc::Global;
use std::io::Write;

/// The least numbers of a volume.
const LEAST: Params = Params {
    segments: 6,
    inodes: 16,
    frames: 32,
    journal: 16,
};

/// Frames are made, three and thirty-two.
pub(crate) fn frames<W: Write>(alloc: Global, writer: &mut W) {
    for count in [3, 32] {
        if told(writer, "frames", Frames::new(alloc, count)) {
            told(writer, "frames", Frames::new(alloc, count));
        }
    }
}

/// A cache is made.
pub(crate) fn cache<W: Write>(alloc: Global, writer: &mut W) {
    if told(writer, "cache", Cache::new(alloc, 32)) {
        told(writer, "cache", Cache::new(alloc, 32));
    }
}

/// Segments, an ifile, a log store and a plain store are laid out.
pub(crate) fn formats<W: Write>(alloc: Global, writer: &mut W) {
    if told(writer, "segments", Segments::format(alloc, 6, 16)) {
        told(writer, "segments", Segments::format(alloc, 6, 16));
    }
    if told(writer, "ifile", Ifile::format(alloc, 6, 16)) {
        told(writer, "ifile", Ifile::format(alloc, 6, 16));
    }
    if told(writer, "log", LogStore::format(alloc, LEAST)) {
        told(writer, "log", LogStore::format(alloc, LEAST));
    }
    if told(writer, "plain", FlatFiles::new(alloc, 16)) {
        told(writer, "plain", FlatFiles::new(alloc, 16));
    }
}

/// The slots of a mount's open files are made, and the modes that some of these are to get.
pub(crate) fn opens<W: Write>(alloc: Global, writer: &mut W) {
    if told(writer, "opens", Opens::new(alloc)) {
        told(writer, "opens", Opens::new(alloc));
    }
    if told(writer, "loans", Loans::new(alloc, 16)) {
        told(writer, "loans", Loans::new(alloc, 16));
    }
}
