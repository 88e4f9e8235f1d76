//! The logs of all segments, read block by block from address 0 on.

ghost use Rattle.std.specs.Prelude.{◌≡◌, ◌*◌, ◌<◌};
ghost use Rattle.lfs_types.specs.declared.limits.TheConstants.{SEGMENT_BLOCKS};
ghost use Rattle.lfs_recovery.specs.Course.{at_inodes, begins_log, begun, entered, idle, step};

use crate::places::PartialSegment;
use crate::whole::{is_inodes, whole_at};
use lfs_segments::entry::SummaryEntry;
use lfs_segments::segments::{Segments, log_start};
use lfs_segments::summary::ENTRY_LIMIT;
use lfs_types::limits::SEGMENT_BLOCKS;
use std::marker::Model;

/// How far the log of a segment is read: the last whole partial segment that began, and how many of its blocks went by.
#[derive(Drop)]
pub(crate) struct Reader {
    serial: u32,
    entries: [SummaryEntry; ENTRY_LIMIT],
    count: usize,
    passed: usize,
    ended: bool,
}

impl Model for Reader {
    ghost use Rattle.std.specs.Prelude.{◌≡◌, ◌≤◌, length, take};
    ghost use Rattle.lfs_segments.specs.declared.summary.TheConstants.{ENTRY_LIMIT};
    ghost use Rattle.lfs_recovery.specs.Course.{Course};

    ghost Value = { Course };

    ghost view = { λ r. record {
      serial = r.serial;
      entries = take r.count r.entries;
      passed = r.passed;
      ended = r.ended;
    } };

    ghost invariant = { λ r. (length r.entries ≡ ENTRY_LIMIT)
        × ((r.count ≤ ENTRY_LIMIT) × (r.passed ≤ r.count)) };
}

impl Reader {
    /// Before the first log.
    pub(crate) fn idle() -> Reader
        ensures { result ≡ idle }
    {
        Reader {
            serial: 0,
            entries: [SummaryEntry::UNUSED; ENTRY_LIMIT],
            count: 0,
            passed: 0,
            ended: true,
        }
    }

    /// Comes to an address, where the log of a segment may begin.
    pub(crate) fn enter(&mut self, address: u32)
        ensures { self.new ≡ entered address self.old }
    {
        if begins_log(address) {
            self.serial = 0;
            self.count = 0;
            self.passed = 0;
            self.ended = false;
        }
    }

    /// Whether the block that comes is an inode block.
    pub(crate) fn at_inodes(&self) -> bool
        ensures { result ≡ at_inodes self.now }
    {
        if self.ended {
            return false;
        }
        if self.passed >= self.count {
            return false;
        }
        is_inodes(self.entries[self.passed].block)
    }

    /// The serial of the partial segment whose blocks come.
    pub(crate) fn serial(&self) -> u32
        ensures { result ≡ self.now.serial }
    {
        self.serial
    }

    /// Passes the block at an address, and gives the whole partial segment that begins there, if one does.
    pub(crate) fn step(&mut self, memory: &Segments, address: u32) -> Option<PartialSegment>
        requires { address < memory.now.segments * SEGMENT_BLOCKS }
        ensures begun { result ≡ begun memory.now address self.old }
        ensures passed { self.new ≡ step memory.now address self.old }
    {
        if self.ended {
            return None;
        }
        if self.passed < self.count {
            self.passed += 1;
            return None;
        }
        match whole_at(memory, address, self.serial) {
            Some(told) => {
                self.serial = told.serial;
                let entries = told.summary.entries;
                self.entries = entries;
                self.count = told.summary.count as usize;
                self.passed = 0;
                Some(PartialSegment {
                    serial: told.serial,
                    address,
                    count: told.summary.count,
                })
            }
            None => {
                self.ended = true;
                None
            }
        }
    }
}

/// Whether the log of a segment begins at an address.
fn begins_log(address: u32) -> bool
    ensures { result ≡ begins_log address }
{
    address % SEGMENT_BLOCKS == log_start(address / SEGMENT_BLOCKS)
}
