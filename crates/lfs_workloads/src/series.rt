//! Series of calls on a tree: a directory at the end of a path of directories, and files in it. All are the owner's.

use crate::meeting::{SESSIONS, each_of, session_step};
use crate::scale::Scale;
use crate::step::{SUPERUSER, Spot, Step, Verb};
use crate::timed::{LARGE, timed_step};
use crate::workload::UserLoad;
use lfs_types::request::Place;

/// Calls that are made one after another.
#[derive(Clone, Copy)]
pub enum Series {
    /// Those that make the directories. The first lies in the root, so the superuser gives it away.
    Directories,
    /// Those that make the files.
    Files,
    /// Those that write the bytes of the first file.
    Bytes,
    /// Those of which nothing but the journal's entries is left.
    Entries,
    /// Those of a workload.
    Timed(UserLoad),
    /// Those of this session, counted from 1.
    Session(u32),
    /// Those of all sessions, by one: the first of each, then the second of each, and so on.
    Lone,
}

impl Series {
    /// Those that make the tree and enter the journal's entries before the timed calls. All are served.
    pub const TREE: [Series; 4] = [
        Series::Directories,
        Series::Files,
        Series::Bytes,
        Series::Entries,
    ];

    /// How many calls make the tree.
    pub fn tree_count(scale: &Scale) -> u32 {
        let mut count = 0u32;
        for series in Series::TREE {
            count = count.saturating_add(series.count(scale));
        }
        count
    }

    /// How many calls it has.
    pub fn count(self, scale: &Scale) -> u32 {
        match self {
            Series::Directories => scale.components,
            Series::Files => scale.names,
            Series::Bytes => scale.bytes / LARGE + 1,
            Series::Entries => scale.entries,
            Series::Timed(UserLoad::LargeCut) => 1,
            Series::Timed(_) => scale.calls,
            Series::Session(_) => each_of(scale),
            Series::Lone => each_of(scale) * SESSIONS,
        }
    }

    /// Its call of this index.
    pub fn step(self, scale: &Scale, index: u32) -> Step {
        match self {
            Series::Directories => directory_step(index),
            Series::Files => Step::new(Spot::File(index), Verb::Create),
            Series::Bytes => bytes_step(scale, index),
            Series::Entries => Step::new(Spot::Root, Verb::Stat),
            Series::Timed(load) => timed_step(scale, load, index),
            Series::Session(session) => session_step(scale, session, index),
            Series::Lone => session_step(scale, index % SESSIONS + 1, index / SESSIONS),
        }
    }
}

/// The call of this index of those that make the directories.
fn directory_step(index: u32) -> Step {
    let first = Spot::Directory(1);
    let (user, spot, verb) = match index {
        0 => (SUPERUSER, first, Verb::Mkdir),
        1 => (SUPERUSER, first, Verb::Give),
        _ => return Step::new(Spot::Directory(index), Verb::Mkdir),
    };
    Step { user, spot, verb }
}

/// The call of this index of those that write the bytes of the first file, each at its end.
fn bytes_step(scale: &Scale, index: u32) -> Step {
    let size = if index < scale.bytes / LARGE {
        LARGE
    } else {
        scale.bytes % LARGE
    };
    Step::new(Spot::File(0), Verb::Write(Place::End, size))
}
